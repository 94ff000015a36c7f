//! The servlets, filters and listeners of a descriptor.

ghost use Rattle.sv_text.specs.Gives.{Gives};
ghost use Rattle.toml.specs.View.{table_view};
ghost use Rattle.sv_descriptor.specs.Components.{components};
ghost use Rattle.sv_descriptor.specs.Fault.{located_fault};

use crate::fault::LocatedReadFault;
use crate::filter::{FilterEntry, FilterMapping, FilterMappingTable, FilterTable};
use crate::listener::{ListenerEntry, ListenerTable};
use crate::servlet::{ServletEntry, ServletMapping, ServletMappingTable, ServletTable};
use crate::tables::tables;
use std::alloc::Global;
use sv_text::Listed;
use toml::Table;

/// The components of a descriptor and their mappings.
#[derive(Drop)]
pub struct Components {
    /// The servlets.
    pub servlets: Listed<ServletEntry>,
    /// The URL patterns of the servlets.
    pub servlet_mappings: Listed<ServletMapping>,
    /// The filters.
    pub filters: Listed<FilterEntry>,
    /// The requests to which the filters apply.
    pub filter_mappings: Listed<FilterMapping>,
    /// The listeners.
    pub listeners: Listed<ListenerEntry>,
}

/// Reads the components of a descriptor.
///
/// # Errors
/// The first fault in the order of the elements, or [`LocatedReadFault::NoMemory`].
pub fn read_components(alloc: Global, table: &Table) -> Result<Components, LocatedReadFault>
    ensures { Gives located_fault result (components (table_view table.now)) }
{
    Ok(Components {
        servlets: tables(alloc, table, "servlet", ServletTable)?,
        servlet_mappings: tables(alloc, table, "servlet-mapping", ServletMappingTable)?,
        filters: tables(alloc, table, "filter", FilterTable)?,
        filter_mappings: tables(alloc, table, "filter-mapping", FilterMappingTable)?,
        listeners: tables(alloc, table, "listener", ListenerTable)?,
    })
}
