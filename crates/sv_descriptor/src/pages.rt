//! The pages of a descriptor.

ghost use Rattle.sv_text.specs.Gives.{Gives};
ghost use Rattle.toml.specs.View.{table_view};
ghost use Rattle.sv_descriptor.specs.Pages.{pages};
ghost use Rattle.sv_descriptor.specs.Fault.{located_fault};

use crate::error_page::{ErrorPage, ErrorPageTable};
use crate::fault::LocatedReadFault;
use crate::schema::list_or_empty;
use crate::table::TableOf;
use crate::tables::tables;
use crate::welcome_file::WelcomeFileTable;
use std::alloc::Global;
use sv_text::{Listed, Text};
use toml::Table;

/// Welcome files and error pages.
#[derive(Drop)]
pub struct Pages {
    /// The partial paths of welcome files.
    pub welcome_files: Listed<Text>,
    /// The error pages.
    pub error_pages: Listed<ErrorPage>,
}

/// Reads the pages of a descriptor.
///
/// # Errors
/// The first fault in the order of the elements, or [`LocatedReadFault::NoMemory`].
pub fn read_pages(alloc: Global, table: &Table) -> Result<Pages, LocatedReadFault>
    ensures { Gives located_fault result (pages (table_view table.now)) }
{
    let files = TableOf(WelcomeFileTable);
    Ok(Pages {
        welcome_files: list_or_empty(alloc, table, "welcome-file-list", &files)?,
        error_pages: tables(alloc, table, "error-page", ErrorPageTable)?,
    })
}
