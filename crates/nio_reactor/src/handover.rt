//! Which connections' links were put in.
use crate::lane::Lane;
use crate::lines::Lines;
use nio_base::ChanId;
use nio_link::Passable;
use nio_trace::Reading;

/// Which connection's link a worker put in, and under which channel of its net. Connections and workers are counted
/// from 0.
#[derive(Clone, Copy, Debug, PartialEq, Eq)]
pub struct Handover {
    /// The connection.
    pub connection: u32,
    /// The worker.
    pub worker: u32,
    /// The channel of the client's link in the worker's net.
    pub client: ChanId,
}

/// Reads what a worker has put in.
pub(crate) struct PutIn;

impl<N: Passable, K: Lines<N::Link>> Reading<Lane<N, K>, Handover> for PutIn {
    ghost items = { λ lane. lane.put };
}
