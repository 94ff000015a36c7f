//! The fault of a socket.

use crate::unavailable::Unavailable;
use std::net::SocketAddr;

/// Why a command that listens ends.
#[derive(Clone, Copy)]
pub enum SocketFault {
    /// The address, or its port, is not available.
    Address(SocketAddr, Unavailable),
    /// No connection can be accepted.
    Accept,
    /// The connection of the program to itself failed.
    Connection,
    /// The system reports no more events of connections.
    Poll,
}
