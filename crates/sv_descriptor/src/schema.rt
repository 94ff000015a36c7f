//! Schemas for the values at the keys of a table.

ghost use Rattle.std.specs.Prelude.{◌≡◌, ℕ, Bool, List, [], option_map};
ghost use Rattle.sv_text.specs.Gives.{Gives};
ghost use Rattle.toml.specs.Data.{Data, get_member};
ghost use Rattle.toml.specs.View.{view, table_view};
ghost use Rattle.sv_descriptor.specs.Fault.{located_fault, Located};
ghost use Rattle.sv_descriptor.specs.Table as spec;

use crate::fault::{FaultCode, LocatedReadFault, refuse, within_key};
use std::alloc::Global;
use sv_text::Listed;
use toml::{Table, Value};

/// A schema for the value at a key.
pub trait Schema {
    /// The type of the output.
    type Output: Drop;

    // Whether a value has the type of the schema.
    ghost fits: { Self → Data → Bool };

    // The result of reading the value at a key: the output, or the first fault.
    ghost reads: { Self → List ℕ → Data → Located Self.Output };

    /// Returns whether the value has the type of the schema.
    fn fits(&self, value: &Value) -> bool
        ensures { result ≡ fits self.now (view value.now) };

    /// Reads the value at a key.
    ///
    /// # Errors
    /// The first fault of the value, or [`LocatedReadFault::NoMemory`].
    fn read(
        &self,
        alloc: Global,
        key: &str,
        value: &Value,
    ) -> Result<Self::Output, LocatedReadFault>
        ensures { Gives located_fault result (reads self.now key.now (view value.now)) };
}

/// Reads the value at a required key.
///
/// # Errors
/// [`FaultCode::MissingKey`], the first fault of the value, or [`LocatedReadFault::NoMemory`].
pub fn required<S: Schema>(
    alloc: Global,
    table: &Table,
    key: &str,
    schema: &S,
) -> Result<S::Output, LocatedReadFault>
    ensures { Gives located_fault result (spec.required (S.reads schema.now) key.now (table_view table.now)) }
{
    match member(table, key) {
        Some(value) => within_key(alloc, key, schema.read(alloc, key, value)),
        None => refuse(alloc, FaultCode::MissingKey, key),
    }
}

/// Reads the value at an optional key. Returns `None` if the key is missing.
///
/// # Errors
/// The first fault of the value, or [`LocatedReadFault::NoMemory`].
pub fn optional<S: Schema>(
    alloc: Global,
    table: &Table,
    key: &str,
    schema: &S,
) -> Result<Option<S::Output>, LocatedReadFault>
    ensures { Gives located_fault result (spec.optional (S.reads schema.now) key.now (table_view table.now)) }
{
    match member(table, key) {
        Some(value) => Ok(Some(within_key(alloc, key, schema.read(alloc, key, value))?)),
        None => Ok(None),
    }
}

/// Reads the value at an optional key. Returns the other value if the key is missing.
///
/// # Errors
/// The first fault of the value, or [`LocatedReadFault::NoMemory`].
pub fn optional_or<S: Schema>(
    alloc: Global,
    table: &Table,
    key: &str,
    schema: &S,
    other: S::Output,
) -> Result<S::Output, LocatedReadFault>
    ensures { Gives located_fault result (spec.optional_or other (S.reads schema.now) key.now (table_view table.now)) }
{
    match optional(alloc, table, key, schema)? {
        Some(output) => Ok(output),
        None => Ok(other),
    }
}

/// Reads the list at an optional key. Returns an empty list if the key is missing.
///
/// # Errors
/// The first fault of the list, or [`LocatedReadFault::NoMemory`].
pub fn list_or_empty<T: Drop, S: Schema<Output = Listed<T>>>(
    alloc: Global,
    table: &Table,
    key: &str,
    schema: &S,
) -> Result<Listed<T>, LocatedReadFault>
    ensures { Gives located_fault result (spec.optional_or [] (S.reads schema.now) key.now (table_view table.now)) }
{
    optional_or(alloc, table, key, schema, Listed::from_vec(Vec::new(alloc)))
}

/// Returns whether a table has a key.
pub fn has_key(table: &Table, key: &str) -> bool
    ensures { result ≡ spec.has_key key.now (table_view table.now) }
{
    member(table, key).is_some()
}

fn member<'a>(table: &'a Table, key: &str) -> Option<&'a Value>
    ensures { option_map (λ value. view value.now) result ≡ get_member key.now (table_view table.now) }
{
    table.get(key)
}
