//! Limits of connections.

use sv_run::MAX_CONNECTIONS;

/// Maximum number of connections that are accepted, and served for the first time, before others are served.
pub const ACCEPTED_AT_ONCE: u32 = 32;

/// Maximum number of bytes in a read.
pub const READ_BYTES: usize = 16_384;

/// Maximum number of bytes in a read, unless the previous read was filled. Most requests are shorter, and a buffer of
/// this size is quickly allocated and freed.
pub const FIRST_READ_BYTES: usize = 1024;

/// Maximum number of reads and writes of a connection in one turn.
pub const CALLS_AT_ONCE: u32 = 8;

/// Maximum number of bytes that all writes of a turn take together.
pub const BYTES_AT_ONCE: usize = 262_144;

/// The share of [`BYTES_AT_ONCE`] that a piece costs, since it is an event. After 64 pieces, and those of the same
/// read, others are served.
pub const BYTES_A_PIECE: usize = 4096;

/// Maximum number of bytes that an unfinished message counts for. At most a head of 65,536, a body of 1,048,576, the
/// size line of a chunk of 256 and trailers of 8,192 are kept of a message, however many empty lines and chunk
/// extensions come with it.
pub const MAX_UNDER_WAY: u64 = 1_122_560;

/// Idle timeout of a connection in seconds, unless a site sets another.
pub const MAX_IDLE_SECONDS: u64 = 60;

/// Length of a window in seconds. Within it a message must be read and answered, or enough bytes of it must move.
pub const WINDOW_SECONDS: u64 = 10;

/// Minimum progress in a window, in bytes.
pub const BYTES_A_WINDOW: usize = 10_240;

/// Maximum number of bytes that all connections hold together, 64 MiB, unless a site sets another. These are bytes that
/// wait to be passed to the handler or to be written, and unfinished messages.
pub const MAX_HELD_BYTES: u64 = 67_108_864;

/// The limits that a site may set.
#[derive(Clone, Copy, Debug, PartialEq, Eq)]
pub struct Limits {
    /// Maximum number of open connections, if less than [`MAX_CONNECTIONS`](sv_run::MAX_CONNECTIONS).
    pub connections: usize,
    /// Idle timeout of a connection, in seconds.
    pub idle_seconds: u64,
    /// Maximum number of bytes that all connections hold together.
    pub held_bytes: u64,
}

impl Limits {
    ghost use Rattle.std.specs.Prelude.{◌≡◌};
    ghost use Rattle.sv_run.specs.declared.limits.TheConstants.{MAX_CONNECTIONS};

    /// Returns the limits of a site that sets none.
    pub fn standard() -> Limits
        ensures { result ≡ record { connections = MAX_CONNECTIONS; idle_seconds = MAX_IDLE_SECONDS; held_bytes = MAX_HELD_BYTES } }
    {
        Limits {
            connections: MAX_CONNECTIONS,
            idle_seconds: MAX_IDLE_SECONDS,
            held_bytes: MAX_HELD_BYTES,
        }
    }
}

/// Maximum time in seconds to write the bytes that wait when the event loop stops. Bytes that remain are dropped.
pub const FINISH_SECONDS: u64 = 5;
