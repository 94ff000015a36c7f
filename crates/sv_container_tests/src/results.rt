//! Combining results. The functions are generic, so that their callers need no proof about dropping large values.

use sv_text::NoMemory;

/// Returns both values if there was memory for both.
pub fn both<A: Drop, B: Drop>(
    one: Result<A, NoMemory>,
    other: Result<B, NoMemory>,
) -> Result<(A, B), NoMemory> {
    Ok((one?, other?))
}

/// Returns a value together with another one, if there was memory for that.
pub fn beside<A: Drop, B: Drop>(one: A, other: Result<B, NoMemory>) -> Result<(A, B), NoMemory> {
    Ok((one, other?))
}

/// Returns a value. In these tests, running out of memory is the only way to fail.
pub fn made<A: Drop, E: Drop>(value: Result<A, E>) -> Result<A, NoMemory> {
    match value {
        Ok(value) => Ok(value),
        Err(_) => Err(NoMemory),
    }
}

/// Adds a value, if there was memory for it.
pub fn push<A: Drop>(values: &mut Vec<A>, value: Result<A, NoMemory>) -> Result<(), NoMemory> {
    values.push(value?)?;
    Ok(())
}
