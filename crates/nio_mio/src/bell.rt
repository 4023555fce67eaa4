//! The bell of a net over sockets.
use mio::Waker;
use nio_poller::Bell;

/// Ends a poll that waits, or the next one. It does nothing where the system refused the net a poll object or a waker.
#[derive(Drop)]
pub struct MioBell {
    waker: Option<Waker>,
}

impl MioBell {
    pub(crate) fn over(waker: Option<Waker>) -> MioBell {
        MioBell { waker }
    }
}

impl Bell for MioBell {
    fn ring(&self) {
        if let Some(waker) = &self.waker {
            let _ = waker.wake();
        }
    }
}
