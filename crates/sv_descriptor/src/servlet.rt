//! Servlets and their mappings.

ghost use Rattle.std.specs.Prelude.{◌≡◌};
ghost use Rattle.sv_descriptor.specs.Servlet as spec;

use crate::fault::{FaultCode, LocatedReadFault, refuse};
use crate::ignored_keys::element_keys;
use crate::init_param::{InitParam, InitParams};
use crate::limits::MAX_LIST_ITEMS;
use crate::names::Named;
use crate::pattern::{UrlPattern, UrlPatterns};
use crate::schema::{list_or_empty, optional, required};
use crate::table::{TableOf, TableSchema};
use crate::text::{Name, TextOf, TextSchema};
use crate::whole::{WholeOf, WholeSchema};
use std::alloc::Global;
use sv_mapping::Pattern;
use sv_text::{Listed, Text};
use toml::Table;

/// A declared servlet (`servlet`).
#[derive(Drop)]
pub struct ServletEntry {
    /// The servlet's name, neither `default` nor `*`.
    pub servlet_name: Text,
    /// The name of the servlet's class.
    pub servlet_class: Text,
    /// The position of the servlet in the order of initialization.
    pub load_on_startup: Option<i32>,
    /// The servlet's parameters, in the order of their names' bytes.
    pub init_params: Listed<InitParam>,
}

impl Named for ServletEntry {
    ghost its_name = { λ servlet. servlet.servlet_name };

    fn name(&self) -> &str {
        self.servlet_name.as_str()
    }
}

/// The patterns of the paths that a servlet serves (`servlet-mapping`).
#[derive(Drop)]
pub struct ServletMapping {
    /// The servlet's name.
    pub servlet_name: Text,
    /// The patterns, at least one.
    pub url_patterns: Listed<Pattern>,
}

/// The table of a servlet.
#[derive(Clone, Copy)]
pub struct ServletTable;

impl TableSchema for ServletTable {
    type Output = ServletEntry;

    ghost reads = { λ _. spec.servlet };

    fn read(&self, alloc: Global, table: &Table) -> Result<ServletEntry, LocatedReadFault> {
        let known = [
            "servlet-name",
            "servlet-class",
            "load-on-startup",
            "init-param",
        ];
        element_keys(alloc, &known, table)?;
        Ok(ServletEntry {
            servlet_name: required(alloc, table, "servlet-name", &TextOf(ServletName))?,
            servlet_class: required(alloc, table, "servlet-class", &TextOf(Name))?,
            load_on_startup: optional(alloc, table, "load-on-startup", &WholeOf(StartupOrder))?,
            init_params: list_or_empty(alloc, table, "init-param", &TableOf(InitParams))?,
        })
    }
}

/// The table of a servlet mapping.
#[derive(Clone, Copy)]
pub struct ServletMappingTable;

impl TableSchema for ServletMappingTable {
    type Output = ServletMapping;

    ghost reads = { λ _. spec.servlet_mapping };

    fn read(&self, alloc: Global, table: &Table) -> Result<ServletMapping, LocatedReadFault> {
        element_keys(alloc, &["servlet-name", "url-pattern"], table)?;
        let patterns = UrlPatterns {
            least: 1,
            most: MAX_LIST_ITEMS,
            item: TextOf(UrlPattern),
        };
        Ok(ServletMapping {
            servlet_name: required(alloc, table, "servlet-name", &TextOf(Name))?,
            url_patterns: required(alloc, table, "url-pattern", &patterns)?,
        })
    }
}

/// The name of a declared servlet.
#[derive(Clone, Copy)]
struct ServletName;

impl TextSchema for ServletName {
    type Output = Text;

    ghost reads = { λ _. spec.servlet_name };

    fn read(&self, alloc: Global, key: &str, text: &str) -> Result<Text, LocatedReadFault> {
        if is_reserved_servlet(text) {
            return refuse(alloc, FaultCode::BadValue, key);
        }
        Name.read(alloc, key, text)
    }
}

/// Returns whether a name is reserved: `default` for the file servlet, `*` for every servlet.
#[tactic(auto, unfolding(crate::specs::Servlet::is_reserved_servlet))]
pub fn is_reserved_servlet(name: &str) -> bool
    ensures { result ≡ spec.is_reserved_servlet name.now }
{
    name == "default" || name == "*"
}

/// A position in the order of initialization.
#[derive(Clone, Copy)]
struct StartupOrder;

impl WholeSchema for StartupOrder {
    type Output = i32;

    ghost reads = { λ _. spec.startup_order };

    fn read(&self, alloc: Global, key: &str, number: i64) -> Result<i32, LocatedReadFault> {
        if number < i64::from(i32::MIN) || number > i64::from(i32::MAX) {
            return refuse(alloc, FaultCode::BadValue, key);
        }
        Ok(number as i32)
    }
}
