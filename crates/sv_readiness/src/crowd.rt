//! Whether the system has capacity for waiting clients.

use std::io::Error;

/// The Linux errors for no memory (`ENOMEM`), no descriptor in the system (`ENFILE`), no descriptor for this process
/// (`EMFILE`) and no buffer (`ENOBUFS`).
const NO_ROOM: [i32; 4] = [12, 23, 24, 105];

/// Whether an error says that the system has no capacity for another connection.
pub fn lacks_room(error: &Error) -> bool {
    error
        .raw_os_error()
        .is_some_and(|code| NO_ROOM.contains(&code))
}

/// Whether the system has capacity for waiting clients. Descriptors usually run out first.
#[derive(Clone, Copy, PartialEq, Eq)]
pub enum Crowd {
    /// The system has capacity for all clients, as far as is known.
    None,
    /// The system had no capacity for a client, and this is not reported yet.
    Found,
    /// The shortage was reported, and a connection is being closed to make room.
    Told,
    /// The shortage was reported before. It is reported again if it persists after the next second or after another
    /// client was accepted.
    Past,
}

impl Crowd {
    /// Called when the system had no capacity for a client.
    pub fn refused(self) -> Crowd {
        match self {
            Crowd::None => Crowd::Found,
            Crowd::Found | Crowd::Told | Crowd::Past => self,
        }
    }

    /// Called once per second.
    pub fn second(self) -> Crowd {
        match self {
            Crowd::Past => Crowd::None,
            Crowd::None | Crowd::Found | Crowd::Told => self,
        }
    }
}
