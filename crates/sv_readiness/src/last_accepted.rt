//! The address of the client that was accepted last.

use std::cell::Cell;
use std::net::SocketAddr;

/// The address of the client whose connection was accepted last. A poller notes it before the connection is opened, and
/// none is accepted in between, so a handler finds here the address of the connection that it is told of.
#[derive(Drop)]
pub struct LastAccepted {
    address: Cell<Option<SocketAddr>>,
}

impl LastAccepted {
    /// Creates the place of an address before any client is accepted.
    pub fn new() -> LastAccepted {
        LastAccepted {
            address: Cell::new(None),
        }
    }

    /// Notes the address of a client that was accepted.
    pub(crate) fn note(&self, address: SocketAddr) {
        self.address.set(Some(address));
    }

    /// Returns the address; none before the first client.
    pub fn address(&self) -> Option<SocketAddr> {
        self.address.get()
    }
}
