//! The limits of a head's fields.

ghost use Rattle.std.specs.Prelude.{◌≡◌};

/// The maximum length of a Host field's value, in bytes.
pub const MAX_HOST_LEN: usize = 255;

/// The maximum number of digits of a length.
pub const MAX_LENGTH_DIGITS: usize = 18;

/// The limits as numbers. Definitions and code both cite the constants, so a changed constant would change both.
pub fn limits_are_as_stated()
    ensures host { MAX_HOST_LEN ≡ 255 }
    ensures length_digits { MAX_LENGTH_DIGITS ≡ 18 }
{}
