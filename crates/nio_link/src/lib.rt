//! Links: connections over a net, which a poller says are ready. A net is memory, in tests, or the system's sockets.
#![tactic(auto)]

pub use job_net::{JobNet, of_net};
pub use memory::{LooseLink, MemoryNet, NetPlan, PeerPlan, pieces_law, write_limit_law};
pub use net::{Failed, Got, Net, Put};
pub use occupants::{Occupant, Occupants};
pub use passable::Passable;
pub use place::{Change, Place, Role, Standing, stands_law};
pub use place_log::PlaceLog;
pub use stream::{LinkError, StreamLink, StreamState};

mod job_net;
mod memory;
mod net;
mod occupants;
mod passable;
mod place;
mod place_log;
mod stream;
