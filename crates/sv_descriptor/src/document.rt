//! Reading a whole document.

ghost use Rattle.sv_text.specs.Gives.{Gives};
ghost use Rattle.sv_descriptor.specs.Document.{document};
ghost use Rattle.sv_descriptor.specs.Fault.{located_fault};

use crate::fault::{FaultCode, LocatedReadFault, refuse};
use crate::table::TableSchema;
use std::alloc::Global;

/// Parses a text as TOML, and reads its table as the schema says.
///
/// # Errors
/// [`FaultCode::NotToml`] with an empty key if the text is not TOML, otherwise the schema's first fault; or
/// [`LocatedReadFault::NoMemory`].
pub fn read_document<T: TableSchema>(
    alloc: Global,
    text: &str,
    schema: &T,
) -> Result<T::Output, LocatedReadFault>
    ensures { Gives located_fault result (document (T.reads schema.now) text.now) }
{
    match toml::table_from_str(alloc, text) {
        Ok(table) => schema.read(alloc, &table),
        Err(error) if error.is_memory() => Err(LocatedReadFault::NoMemory),
        Err(_) => refuse(alloc, FaultCode::NotToml, ""),
    }
}
