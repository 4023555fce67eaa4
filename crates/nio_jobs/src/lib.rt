//! A proxy's calls on a net, each made for a job: a pending operation of an asynchronous channel group. Whoever starts
//! the operations hands out the jobs, and is told what the calls came to.
#![tactic(auto)]

pub use by_jobs::ByJobs;
pub use directions::directions_law;
pub use exchange::{Done, Exchange};
pub use next::{Directions, Next, Start};
pub use reporting::report_all;
pub use starter::Starter;
pub use streams::Streams;

mod by_jobs;
mod directions;
mod exchange;
mod jobs;
mod next;
mod reporting;
mod starter;
mod streams;
