//! Limits and status codes of dispatches.

/// The maximum number of calls of `before` and `service` per request.
pub const MAX_CALLS: usize = 1_024;

/// The maximum nesting depth of dispatches, including the dispatch of the client's request.
pub const MAX_NESTING: usize = 16;

/// The lowest status of an error (RFC 9110, section 15.5).
pub const LEAST_ERROR: u16 = 400;

/// The highest status of an error (RFC 9110, section 15.6).
pub const MAX_ERROR: u16 = 599;

/// A temporary redirect (RFC 9110, section 15.4.3).
pub const FOUND: u16 = 302;

/// The path has no resource (RFC 9110, section 15.5.5).
pub const NOT_FOUND: u16 = 404;

/// Files support only GET and HEAD (RFC 9110, section 15.5.6).
pub const METHOD_NOT_ALLOWED: u16 = 405;

/// The status of a failure (RFC 9110, section 15.6.1).
pub const INTERNAL_SERVER_ERROR: u16 = 500;

/// The servlet is temporarily unavailable (RFC 9110, section 15.6.4).
pub const SERVICE_UNAVAILABLE: u16 = 503;

/// The latest time, in seconds since 1970.
pub const GREATEST_MOMENT: u64 = u64::MAX;
