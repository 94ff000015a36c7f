//! Limits of connections over TCP.

/// Idle timeout of a connection of `serve`, in seconds.
pub const SERVE_IDLE_SECONDS: u64 = 5;

/// Timeout of each call of the self-test, in seconds.
pub const SELF_TEST_SECONDS: u64 = 5;

/// Timeout of each read of a reply at a control socket, in seconds.
pub const REPLY_SECONDS: u64 = 10;

/// Timeout of each read of the reply to `stop`, in seconds. A server that stops writes for 5 seconds and reads for 2.
pub const STOP_SECONDS: u64 = 20;

/// Maximum number of accepts that the self-test makes to find its own connection. It sleeps for 10 ms if none waits,
/// and closes a stranger's connection.
pub const MAX_SELF_TEST_ACCEPTS: u32 = 1_000;

/// Maximum number of bytes that the self-test reads of its own response.
pub const MAX_ANSWER_BYTES: u64 = 8_388_608;
