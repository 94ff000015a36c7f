//! Limits of polling, of the control socket and of lingering close.

/// Maximum number of events in one report of the system.
pub const EVENTS_AT_ONCE: usize = 256;

/// After this many ready connections of one report, the poller checks for new clients. So new clients do not wait for
/// all connections that are ready.
pub const MAX_READY_BEFORE_ACCEPT: u32 = 128;

/// The clock is read again after this many events. All events between two readings are served at the same time.
pub const MAX_READY_BEFORE_READING: u32 = 16;

/// Maximum number of bytes written to a peer that count as sent at once. The first window of a connection is ten
/// segments (RFC 6928, section 2) of at least 536 bytes (RFC 9293, section 3.7.1).
pub const MAX_SENT_AT_ONCE: usize = 4_096;

/// Maximum number of streams in lingering close.
pub const MAX_LINGERING: usize = 256;

/// Maximum time of a lingering close, in seconds.
pub const LINGER_SECONDS: u64 = 2;

/// Maximum number of bytes dropped from one stream.
pub const MAX_DROPPED_BYTES: usize = 16_777_216;

/// Maximum number of reads from one stream before the others continue.
pub const MAX_DROPPED_READS: u32 = 64;

/// Maximum number of bytes in one of these reads.
pub const DROPPED_READ_BYTES: usize = 16_384;

/// Maximum number of bytes in the first of these reads. It usually finds no bytes or the end of the stream, and a
/// small buffer is cheap to provide.
pub(crate) const FIRST_DROPPED_READ_BYTES: usize = 256;

/// Maximum number of clients of the control socket at once.
pub const MAX_CONTROL_CLIENTS: usize = 256;

/// Maximum length of a command at the control socket in bytes, including its line end.
pub const MAX_LINE_BYTES: usize = 8_192;

/// Maximum number of bytes in one read of a command.
pub(crate) const ASKED_AT_ONCE: usize = 1024;

/// Time limit for a client of the control socket to send a whole line, in seconds. It has the same time again to read
/// the reply.
pub const MAX_ASKING_SECONDS: u64 = 2;

/// The number of bytes of the record of one signal (`struct signalfd_siginfo` of Linux).
pub const SIGNAL_RECORD_BYTES: usize = 128;

/// Maximum number of bytes in one read of signals: eight records.
pub const SIGNAL_BYTES_AT_ONCE: usize = 1_024;

/// The time of the container moves towards the wall clock by one millisecond per this many milliseconds of boot time.
/// So it makes up an error of one hour in 20 hours, and runs at most 5 percent fast or slow.
pub const SLEW_DIVISOR: u64 = 20;
