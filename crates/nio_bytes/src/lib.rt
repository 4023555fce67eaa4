//! Where bytes come from and where they go: the traits `Source` and `Sink`, sources and sinks in
//! memory for tests, and adapters of std's `Read` and `Write`. Each counts its faults, so that a
//! caller can prove that it reports a fault only where there was one.
#![tactic(auto)]

pub use calls::Calls;
pub use failed::Failed;
pub use memory_sink::MemorySink;
pub use memory_source::MemorySource;
pub use sink::Sink;
pub use source::Source;
pub use std_sink::StdSink;
pub use std_source::StdSource;
pub use steady_source::SteadySource;

mod calls;
mod failed;
mod fault_count;
mod memory_sink;
mod memory_source;
mod sink;
mod source;
mod std_sink;
mod std_source;
mod steady_source;
