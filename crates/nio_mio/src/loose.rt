//! Sockets that stand in no net.
use mio::net::TcpStream;

/// A link that was taken out of a net of sockets. Letting it go closes it.
#[derive(Drop)]
pub struct LooseSocket {
    // None where the system had refused to watch it.
    stream: Option<TcpStream>,
}

impl LooseSocket {
    pub(crate) fn over(stream: Option<TcpStream>) -> LooseSocket {
        LooseSocket { stream }
    }

    pub(crate) fn into_stream(self) -> Option<TcpStream> {
        self.stream
    }
}
