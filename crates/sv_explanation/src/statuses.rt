//! Status codes of answers of the container.

/// A redirect to a folder or to its welcome file (RFC 9110, section 15.4.3).
pub const FOUND: u16 = 302;

/// The constraints deny the request (RFC 9110, section 15.5.4).
pub const FORBIDDEN: u16 = 403;

/// The path has no resource (RFC 9110, section 15.5.5).
pub const NOT_FOUND: u16 = 404;

/// Files support only GET and HEAD (RFC 9110, section 15.5.6).
pub const METHOD_NOT_ALLOWED: u16 = 405;

/// No session is available (RFC 9110, section 15.6.4).
pub const SERVICE_UNAVAILABLE: u16 = 503;
