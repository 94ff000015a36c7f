//! Combining results. The functions are generic, so that their callers need no proof about dropping large values.

use sv_text::NoMemory;

/// Returns both values if there was memory for both.
pub fn both<A: Drop, B: Drop>(
    one: Result<A, NoMemory>,
    other: Result<B, NoMemory>,
) -> Result<(A, B), NoMemory> {
    Ok((one?, other?))
}

/// Returns a value together with another one, if that exists.
pub fn beside<A: Drop, B: Drop>(one: A, other: Option<B>) -> Option<(A, B)> {
    Some((one, other?))
}

/// Returns a value. In these tests, being out of memory is the only way to fail.
pub fn made<A: Drop, E: Drop>(value: Result<A, E>) -> Result<A, NoMemory> {
    match value {
        Ok(value) => Ok(value),
        Err(_) => Err(NoMemory),
    }
}

/// Drops a value and returns none.
pub fn nothing_of<A: Drop, B: Drop>(_value: A) -> Option<B> {
    None
}
