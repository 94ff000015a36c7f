//! The limits and status codes of an exchange.

/// The maximum length of a response body, in bytes.
pub const MAX_RESPONSE_BODY_LEN: usize = 4_194_304;

/// The minimum capacity of a new buffer for a body, in bytes.
pub(crate) const FIRST_ROOM: usize = 256;

/// The maximum capacity of a body buffer that is kept for the next response, in bytes.
pub(crate) const MAX_KEPT_BUFFER_BYTES: usize = 4_096;

/// The maximum capacity of a list of fields that is kept for the next response.
pub(crate) const MAX_KEPT_FIELDS: usize = 16;

/// The maximum length of a field name, in bytes.
pub(crate) const MAX_FIELD_NAME_LEN: usize = 65_535;

/// The default status of a response (RFC 9110, section 15.3.1).
pub const OK: u16 = 200;

/// The least status that a component may set.
pub const LEAST_STATUS: u16 = 200;

/// The greatest status that a component may set.
pub const MAX_STATUS: u16 = 599;

/// A status that a component may not set: the client must reset its view (RFC 9110, section 15.3.6).
pub const RESET_CONTENT: u16 = 205;

/// A status that a component may not set: the response to a conditional request (RFC 9110, section 15.4.5).
pub const NOT_MODIFIED: u16 = 304;
