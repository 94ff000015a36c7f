//! Tables with known keys.

ghost use Rattle.std.specs.Prelude.{◌≡◌, ℕ, List};
ghost use Rattle.sv_text.specs.Gives.{Gives};
ghost use Rattle.toml.specs.Data.{Members};
ghost use Rattle.toml.specs.View.{table_view};
ghost use Rattle.sv_descriptor.specs.Fault.{located_fault, Located};
ghost use Rattle.sv_descriptor.specs.Table as spec;
ghost use Rattle.sv_descriptor.specs.Value.{is_table, table_of};

use crate::fault::{FaultCode, LocatedReadFault, refuse, within_key};
use crate::schema::Schema;
use std::alloc::Global;
use toml::{Table, Value};

/// A schema for tables.
pub trait TableSchema {
    /// The type of the output.
    type Output: Drop;

    // The result of reading a table: the output, or the first fault.
    ghost reads: { Self → Members → Located Self.Output };

    /// Reads a table.
    ///
    /// # Errors
    /// The first fault of the table, or [`LocatedReadFault::NoMemory`].
    fn read(&self, alloc: Global, table: &Table) -> Result<Self::Output, LocatedReadFault>
        ensures { Gives located_fault result (reads self.now (table_view table.now)) };
}

/// A table at a key.
#[derive(Clone, Copy)]
pub struct TableOf<T>(pub T);

impl<T: TableSchema> Schema for TableOf<T> {
    type Output = T::Output;

    ghost fits = { λ _. is_table };

    ghost reads = { λ schema. table_of (T.reads schema.0) };

    fn fits(&self, value: &Value) -> bool {
        value.is_table()
    }

    fn read(&self, alloc: Global, key: &str, value: &Value) -> Result<T::Output, LocatedReadFault> {
        match value {
            Value::Table(table) => self.0.read(alloc, table),
            _ => refuse(alloc, FaultCode::WrongType, key),
        }
    }
}

/// Checks that a table has only known keys and ignored keys. The values of ignored keys may be anything.
///
/// # Errors
/// [`FaultCode::UnknownKey`] for the first other key in the order of bytes, or [`LocatedReadFault::NoMemory`].
pub fn only_keys(
    alloc: Global,
    known: &[&str],
    ignored: &[&str],
    table: &Table,
) -> Result<(), LocatedReadFault>
    ensures { Gives located_fault result (spec.only_keys (spec.texts known.now) (spec.texts ignored.now) (table_view table.now)) }
{
    for key in table.keys() {
        let key = key.as_str();
        if !is_among(known, key) && !is_among(ignored, key) {
            return within_key(alloc, key, refuse(alloc, FaultCode::UnknownKey, key));
        }
    }
    Ok(())
}

fn is_among(texts: &[&str], text: &str) -> bool
    ensures { result ≡ spec.is_among (spec.texts texts.now) text.now }
{
    texts.contains(&text)
}
