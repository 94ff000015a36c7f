//! Elements that may occur many times in a descriptor.

ghost use Rattle.std.specs.Prelude.{[]};
ghost use Rattle.sv_text.specs.Gives.{Gives};
ghost use Rattle.toml.specs.View.{table_view};
ghost use Rattle.sv_descriptor.specs.Tables as spec;
ghost use Rattle.sv_descriptor.specs.Fault.{located_fault};
ghost use Rattle.sv_descriptor.specs.Table.{optional_or};

use crate::fault::LocatedReadFault;
use crate::limits::MAX_LIST_ITEMS;
use crate::list::ListOf;
use crate::schema::list_or_empty;
use crate::table::{TableOf, TableSchema};
use std::alloc::Global;
use sv_text::Listed;
use toml::Table;

/// Reads the list of tables at an optional key.
///
/// # Errors
/// The first fault of the list, or [`LocatedReadFault::NoMemory`].
pub fn tables<T: TableSchema + Drop>(
    alloc: Global,
    table: &Table,
    key: &str,
    item: T,
) -> Result<Listed<T::Output>, LocatedReadFault>
    ensures { Gives located_fault result (optional_or [] (spec.tables (T.reads item)) key.now (table_view table.now)) }
{
    let schema = ListOf {
        least: 0,
        most: MAX_LIST_ITEMS,
        item: TableOf(item),
    };
    list_or_empty(alloc, table, key, &schema)
}
