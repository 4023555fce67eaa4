//! A proxy by selections, with its plan; and one direction of a relayed connection, for proxies of one's own.
pub use nio_proxy::serve_select;
pub use nio_relay::{CAPACITY, Direction, ProxyPlan, Served, Want};
pub use nio_serve::ServeError;
