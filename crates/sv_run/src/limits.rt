//! Limits of a container.

/// The last time that a date can show, in seconds since 1970: `Fri, 31 Dec 9999 23:59:59 GMT`.
pub const LAST_MOMENT: u64 = 253_402_300_799;

/// The maximum number of connections that may be known at a time.
pub const MAX_CONNECTIONS: usize = 1024;

/// The maximum capacity, in bytes, of a buffer for sent bytes that is kept for the next event.
pub(crate) const MAX_KEPT_SENT_BYTES: usize = 4_096;

/// The maximum number of entries of a journal whose memory is kept for the next one.
pub(crate) const MAX_KEPT_ENTRIES: usize = 16;
