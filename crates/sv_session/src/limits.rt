//! The limits of a session.

/// Maximum number of attributes of a session.
pub const MAX_ATTRIBUTES: usize = 64;

/// Maximum length of an attribute's name, in bytes.
pub const MAX_ATTRIBUTE_NAME_BYTES: usize = 64;

/// Maximum length of an attribute's value, in bytes.
pub const MAX_VALUE_BYTES: usize = 4_096;

/// The greatest serial. After it, no session is opened or renamed.
pub const GREATEST_SERIAL: u64 = u64::MAX;
