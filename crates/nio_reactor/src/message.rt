//! What is sent to a worker.
use crate::handed::Handed;
use nio_line::LineIn;
use nio_relay::ProxyPlan;
use nio_words::Pass;
use std::alloc::Global;

/// A message to a worker. `End` is the last one.
#[derive(Drop)]
pub(crate) enum Message<L> {
    Work(Handed<L>),
    End,
}

/// What the acceptor works with: the pass that has its number, the lines to the workers, the bells of their nets, its
/// plan, and where its selections are allocated.
#[derive(Drop)]
pub(crate) struct Outgoing<L: Drop, B: Drop> {
    pub alloc: Global,
    pub pass: Pass,
    pub lines: Vec<LineIn<Message<L>>>,
    pub bells: Vec<B>,
    pub plan: ProxyPlan,
}
