//! Where the loop of a worker listens.
ghost use Rattle.std.specs.Prelude.{◌≡◌, ◌<◌, IsTrue};
ghost use Rattle.nio_reactor.specs.Doors.{worker_at};
ghost use Rattle.nio_reactor.specs.Lanes.{IsOpen};
ghost use Rattle.nio_reactor.specs.Receiving.{is_door_of};

use nio_base::Addr;

/// The place of the listener's channel, under which a serving loop listens: a worker's listener is its line. The address
/// of a line says whose it is.
#[derive(Clone, Copy, Debug, PartialEq, Eq)]
pub(crate) enum Door {
    Unasked,
    Open(Addr),
    Closed(Addr),
}

/// The address of the line of this worker.
pub(crate) fn address_of(worker: u32) -> Addr
    requires { worker < 16 }
    ensures { worker_at result ≡ worker }
{
    Addr {
        ip: [0; 4],
        port: worker as u16,
    }
}

/// The door is that of this worker's line, and is open.
pub(crate) fn is_open(worker: u32, door: Door) -> bool
    ensures its { IsTrue result → IsTrue (is_door_of worker door) }
    ensures open { IsTrue result → IsOpen door }
{
    match door {
        Door::Unasked | Door::Closed(_) => false,
        Door::Open(at) => u32::from(at.port) == worker,
    }
}
