//! What a proxy and a relay of packets are to serve, and what a proxy has served.
ghost use Rattle.std.specs.Prelude.{◌≡◌, ◌↔◌, IsTrue, min};

use nio_base::Addr;

/// How many connections a proxy can relay at once. Each takes 32 KB.
pub const MOST_AT_ONCE: u32 = 16_000;

/// Where a proxy listens, whom it connects each client to, how many connections it relays before it ends, and how many of
/// them at once.
#[derive(Clone, Copy, Debug, PartialEq, Eq, Hash)]
pub struct ProxyPlan {
    /// Where clients connect.
    pub listen: Addr,
    /// To what each of them is relayed.
    pub target: Addr,
    /// After how many connections the proxy ends, 1 to 4,294,967,295.
    pub conns: u32,
    /// How many connections it relays at once, 1 to 16,000. Where so many are relayed, the next client waits.
    pub at_once: u32,
}

impl ProxyPlan {
    ghost use Rattle.nio_relay.specs.Plan.{IsServable};

    /// Whether a proxy can serve this plan.
    pub fn fits(self) -> bool
        ensures { IsTrue result ↔ IsServable self }
    {
        self.conns >= 1 && (1..=MOST_AT_ONCE).contains(&self.at_once)
    }

    /// How many connections are relayed at once at most.
    pub fn slots(self) -> u32
        ensures { result ≡ min self.conns self.at_once }
    {
        self.conns.min(self.at_once)
    }
}

/// How many connections a proxy relayed, and how many of them ended by a fault.
#[derive(Clone, Copy, Debug, PartialEq, Eq, Hash)]
pub struct Served {
    /// How many connections were served.
    pub connections: u32,
    /// How many of them had a fault.
    pub faults: u32,
}

/// What a relay of packets is to do.
#[derive(Clone, Copy, Debug, PartialEq, Eq)]
pub struct PacketPlan {
    /// Where the client's packets come.
    pub listen: Addr,
    /// The address from which packets are sent to the target, and at which its answers come.
    pub local: Addr,
    /// The target.
    pub target: Addr,
    /// How many packets of the client are sent on, 1 to 1,000,000.
    pub count: u32,
}
