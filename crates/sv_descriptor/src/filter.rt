//! Filters and their mappings.

ghost use Rattle.sv_text.specs.Gives.{Gives};
ghost use Rattle.toml.specs.View.{table_view};
ghost use Rattle.sv_descriptor.specs.Filter as spec;
ghost use Rattle.sv_descriptor.specs.Fault.{located_fault};

use crate::fault::{FaultCode, LocatedReadFault, refuse};
use crate::ignored_keys::element_keys;
use crate::init_param::{InitParam, InitParams};
use crate::limits::MAX_LIST_ITEMS;
use crate::list::ListOf;
use crate::names::Named;
use crate::pattern::{UrlPattern, UrlPatterns};
use crate::schema::{has_key, list_or_empty, required};
use crate::table::{TableOf, TableSchema};
use crate::text::{Name, TextOf, TextSchema};
use std::alloc::Global;
use sv_mapping::{Kind, Pattern};
use sv_text::{Listed, Text};
use toml::Table;

/// A declared filter (`filter`).
#[derive(Drop)]
pub struct FilterEntry {
    /// The filter's name.
    pub filter_name: Text,
    /// The name of the filter's class.
    pub filter_class: Text,
    /// The filter's parameters, in the order of their names' bytes.
    pub init_params: Listed<InitParam>,
}

impl Named for FilterEntry {
    ghost its_name = { λ filter. filter.filter_name };

    fn name(&self) -> &str {
        self.filter_name.as_str()
    }
}

/// The requests to which a filter applies (`filter-mapping`): those that match one of the patterns or servlet names.
#[derive(Drop)]
pub struct FilterMapping {
    /// The filter's name.
    pub filter_name: Text,
    /// The URL patterns.
    pub url_patterns: Listed<Pattern>,
    /// The names of servlets. `*` means every servlet, and `default` the file servlet.
    pub servlet_names: Listed<Text>,
    /// The kinds of dispatches. An empty list means only [`Kind::Request`].
    pub dispatchers: Listed<Kind>,
}

/// The table of a filter.
#[derive(Clone, Copy)]
pub struct FilterTable;

impl TableSchema for FilterTable {
    type Output = FilterEntry;

    ghost reads = { λ _. spec.filter_entry };

    fn read(&self, alloc: Global, table: &Table) -> Result<FilterEntry, LocatedReadFault> {
        element_keys(alloc, &["filter-name", "filter-class", "init-param"], table)?;
        Ok(FilterEntry {
            filter_name: required(alloc, table, "filter-name", &TextOf(Name))?,
            filter_class: required(alloc, table, "filter-class", &TextOf(Name))?,
            init_params: list_or_empty(alloc, table, "init-param", &TableOf(InitParams))?,
        })
    }
}

/// The table of a filter mapping.
#[derive(Clone, Copy)]
pub struct FilterMappingTable;

impl TableSchema for FilterMappingTable {
    type Output = FilterMapping;

    ghost reads = { λ _. spec.filter_mapping };

    fn read(&self, alloc: Global, table: &Table) -> Result<FilterMapping, LocatedReadFault> {
        let known = ["filter-name", "url-pattern", "servlet-name", "dispatcher"];
        element_keys(alloc, &known, table)?;
        let filter_name = required(alloc, table, "filter-name", &TextOf(Name))?;
        if !has_key(table, "url-pattern") && !has_key(table, "servlet-name") {
            return refuse(alloc, FaultCode::MissingKey, "url-pattern");
        }
        read_lists(alloc, table, filter_name)
    }
}

/// Reads the lists of a filter mapping.
fn read_lists(
    alloc: Global,
    table: &Table,
    filter_name: Text,
) -> Result<FilterMapping, LocatedReadFault>
    ensures { Gives located_fault result (spec.filter_mapping_of filter_name (table_view table.now)) }
{
    let patterns = UrlPatterns {
        least: 0,
        most: MAX_LIST_ITEMS,
        item: TextOf(UrlPattern),
    };
    let names = ListOf {
        least: 0,
        most: MAX_LIST_ITEMS,
        item: TextOf(Name),
    };
    let dispatchers = ListOf {
        least: 0,
        most: MAX_LIST_ITEMS,
        item: TextOf(Dispatcher),
    };
    let url_patterns = list_or_empty(alloc, table, "url-pattern", &patterns)?;
    let servlet_names = list_or_empty(alloc, table, "servlet-name", &names)?;
    let dispatchers = list_or_empty(alloc, table, "dispatcher", &dispatchers)?;
    Ok(FilterMapping {
        filter_name,
        url_patterns,
        servlet_names,
        dispatchers,
    })
}

/// The name of a dispatch kind.
#[derive(Clone, Copy)]
struct Dispatcher;

impl TextSchema for Dispatcher {
    type Output = Kind;

    ghost reads = { λ _. spec.dispatcher };

    fn read(&self, alloc: Global, key: &str, text: &str) -> Result<Kind, LocatedReadFault> {
        match text {
            "REQUEST" => Ok(Kind::Request),
            "FORWARD" => Ok(Kind::Forward),
            "INCLUDE" => Ok(Kind::Include),
            "ERROR" => Ok(Kind::Error),
            _ => refuse(alloc, FaultCode::BadValue, key),
        }
    }
}
