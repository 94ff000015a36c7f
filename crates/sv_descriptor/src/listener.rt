//! Listeners.

ghost use Rattle.sv_descriptor.specs.Listener.{listener};

use crate::fault::LocatedReadFault;
use crate::ignored_keys::element_keys;
use crate::schema::required;
use crate::table::TableSchema;
use crate::text::{Name, TextOf};
use std::alloc::Global;
use sv_text::Text;
use toml::Table;

/// A declared listener (`listener`).
#[derive(Drop)]
pub struct ListenerEntry {
    /// The name of the listener's class.
    pub listener_class: Text,
}

/// The table of a listener.
#[derive(Clone, Copy)]
pub struct ListenerTable;

impl TableSchema for ListenerTable {
    type Output = ListenerEntry;

    ghost reads = { λ _. listener };

    fn read(&self, alloc: Global, table: &Table) -> Result<ListenerEntry, LocatedReadFault> {
        element_keys(alloc, &["listener-class"], table)?;
        Ok(ListenerEntry {
            listener_class: required(alloc, table, "listener-class", &TextOf(Name))?,
        })
    }
}
