//! The limits as numbers, each the contract of a function with an empty body.

ghost use Rattle.std.specs.Prelude.{◌≡◌};

use crate::limits::{
    DEFAULT_SESSION_TIMEOUT, DIGEST_BYTES, DIGEST_DIGITS, MAX_COOKIE_AGE, MAX_COOKIE_PATH_BYTES,
    MAX_ERROR_CODE, MAX_LIST_ITEMS, MAX_NAME_BYTES, MAX_PORT, MAX_SALT_DIGITS, MAX_SESSION_TIMEOUT,
    MAX_SESSIONS_OF_VERSION_1, MAX_SESSIONS_OF_VERSION_2, MIN_ERROR_CODE, NO_LIMIT, SEED_BYTES,
    SEED_DIGITS,
};

/// The session timeout is 30 minutes by default and at most 525,600. A context has at most 1,000 live sessions with
/// version 1, and 100,000 with version 2. The path of a cookie has at most 1,024 bytes, and its lifetime is at most
/// 2,147,483,647 seconds. Error statuses are 400 to 599.
pub fn limits_of_the_descriptor()
    ensures default_timeout { DEFAULT_SESSION_TIMEOUT ≡ 30 }
    ensures greatest_timeout { MAX_SESSION_TIMEOUT ≡ 525600 }
    ensures sessions_of_version_1 { MAX_SESSIONS_OF_VERSION_1 ≡ 1000 }
    ensures sessions_of_version_2 { MAX_SESSIONS_OF_VERSION_2 ≡ 100000 }
    ensures cookie_path_bytes { MAX_COOKIE_PATH_BYTES ≡ 1024 }
    ensures cookie_age { MAX_COOKIE_AGE ≡ 2147483647 }
    ensures least_status { MIN_ERROR_CODE ≡ 400 }
    ensures greatest_status { MAX_ERROR_CODE ≡ 599 }
{}

/// A list has at most 1,000 items and a name at most 64 bytes. A list without a limit is bounded only by memory.
pub fn limits_of_all_formats()
    ensures items { MAX_LIST_ITEMS ≡ 1000 }
    ensures name_bytes { MAX_NAME_BYTES ≡ 64 }
    ensures none { NO_LIMIT ≡ usize.MAX }
{}

/// A port is at most 65,535. A seed and a digest have 32 bytes each, written as 64 hexadecimal digits. A salt has at
/// most 64 digits.
pub fn limits_of_the_settings()
    ensures port { MAX_PORT ≡ 65535 }
    ensures seed_bytes { SEED_BYTES ≡ 32 }
    ensures seed_digits { SEED_DIGITS ≡ 64 }
    ensures digest_bytes { DIGEST_BYTES ≡ 32 }
    ensures digest_digits { DIGEST_DIGITS ≡ 64 }
    ensures salt_digits { MAX_SALT_DIGITS ≡ 64 }
{}
