//! The limits of the descriptor.

/// Session timeout in minutes, if the descriptor sets none.
pub const DEFAULT_SESSION_TIMEOUT: u32 = 30;

/// Maximum session timeout in minutes: a year of 365 days. Sessions may also never expire.
pub const MAX_SESSION_TIMEOUT: u32 = 525_600;

/// Maximum number of live sessions of a context whose descriptor has version 1.
pub const MAX_SESSIONS_OF_VERSION_1: usize = 1_000;

/// Maximum number of live sessions of a context whose descriptor has version 2.
pub const MAX_SESSIONS_OF_VERSION_2: usize = 100_000;

/// Maximum length of the path of a session cookie, in bytes.
pub const MAX_COOKIE_PATH_BYTES: usize = 1_024;

/// Maximum lifetime of a session cookie, in seconds.
pub const MAX_COOKIE_AGE: u32 = 2_147_483_647;

/// Minimum status of an error.
pub const MIN_ERROR_CODE: u16 = 400;

/// Maximum status of an error.
pub const MAX_ERROR_CODE: u16 = 599;

/// Maximum number of items of a list.
pub const MAX_LIST_ITEMS: usize = 1000;

/// Maximum length of a name, in bytes.
pub const MAX_NAME_BYTES: usize = 64;

/// Maximum length of a list for which its format sets no limit.
pub const NO_LIMIT: usize = usize::MAX;

/// Maximum port number.
pub const MAX_PORT: u16 = 65_535;

/// Length of a seed, in bytes.
pub const SEED_BYTES: usize = 32;

/// Number of hexadecimal digits of a seed.
pub const SEED_DIGITS: usize = 2 * SEED_BYTES;

/// Length of a digest, in bytes.
pub const DIGEST_BYTES: usize = 32;

/// Number of hexadecimal digits of a digest.
pub const DIGEST_DIGITS: usize = 2 * DIGEST_BYTES;

/// Maximum number of hexadecimal digits of a salt.
pub const MAX_SALT_DIGITS: usize = 64;
