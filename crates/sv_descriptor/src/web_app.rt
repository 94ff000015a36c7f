//! The elements of a deployment descriptor, each read independently.

ghost use Rattle.std.specs.Prelude.{◌≡◌};
ghost use Rattle.sv_text.specs.Gives.{Gives};
ghost use Rattle.toml.specs.View.{table_view};
ghost use Rattle.sv_descriptor.specs.WebApp as spec;
ghost use Rattle.sv_descriptor.specs.Fault.{located_fault};

use crate::components::{Components, read_components};
use crate::error_page::ErrorPage;
use crate::fault::LocatedReadFault;
use crate::filter::{FilterEntry, FilterMapping};
use crate::ignored_keys::element_keys;
use crate::listener::ListenerEntry;
use crate::login::FormLogin;
use crate::pages::{Pages, read_pages};
use crate::schema::optional_or;
use crate::security::{Security, read_security};
use crate::servlet::{ServletEntry, ServletMapping};
use crate::session::{SessionConfig, read_session};
use crate::version::{Version, read_version};
use crate::whole::Truth;
use std::alloc::Global;
use sv_constraints::{Constraint, Rules};
use sv_text::{Listed, Text};
use toml::Table;

/// The elements of a deployment descriptor (`web-app`, Jakarta Servlet 6.0 section 14.4). Its lists are in the order of
/// the file.
#[derive(Drop)]
pub struct WebApp {
    /// The version of the descriptor's format.
    pub version: Version,
    /// The servlets.
    pub servlets: Listed<ServletEntry>,
    /// The URL patterns of the servlets.
    pub servlet_mappings: Listed<ServletMapping>,
    /// The filters.
    pub filters: Listed<FilterEntry>,
    /// The requests to which the filters apply.
    pub filter_mappings: Listed<FilterMapping>,
    /// The listeners.
    pub listeners: Listed<ListenerEntry>,
    /// The session configuration.
    pub session: SessionConfig,
    /// The partial paths of welcome files.
    pub welcome_files: Listed<Text>,
    /// The error pages.
    pub error_pages: Listed<ErrorPage>,
    /// The security constraints, numbered from 1.
    pub constraints: Listed<Constraint>,
    /// The declared roles, none of them `*` or `**`, and whether requests that no constraint covers are denied.
    pub rules: Rules,
    /// The login configuration; none if callers cannot log in.
    pub login: Option<FormLogin>,
}

/// Reads the elements of a descriptor, without checking that they agree with one another.
///
/// # Errors
/// The first fault in the order of the elements, or [`LocatedReadFault::NoMemory`].
pub fn read_web_app(alloc: Global, table: &Table) -> Result<WebApp, LocatedReadFault>
    ensures { Gives located_fault result (spec.web_app (table_view table.now)) }
{
    let known = [
        "version",
        "deny-uncovered-http-methods",
        "servlet",
        "servlet-mapping",
        "filter",
        "filter-mapping",
        "listener",
        "session-config",
        "welcome-file-list",
        "error-page",
        "security-constraint",
        "security-role",
        "login-config",
    ];
    element_keys(alloc, &known, table)?;
    let version = read_version(alloc, table)?;
    let deny_uncovered = optional_or(alloc, table, "deny-uncovered-http-methods", &Truth, false)?;
    let components = read_components(alloc, table)?;
    read_behind_components(alloc, table, version, deny_uncovered, components)
}

/// Reads the elements after the components.
fn read_behind_components(
    alloc: Global,
    table: &Table,
    version: Version,
    deny_uncovered: bool,
    components: Components,
) -> Result<WebApp, LocatedReadFault>
    ensures { Gives located_fault result (spec.behind_components version deny_uncovered components (table_view table.now)) }
{
    let session = read_session(alloc, version, table)?;
    let pages = read_pages(alloc, table)?;
    let security = read_security(alloc, table, deny_uncovered)?;
    Ok(assembled(version, components, session, pages, security))
}

/// Combines the elements into one value.
fn assembled(
    version: Version,
    components: Components,
    session: SessionConfig,
    pages: Pages,
    security: Security,
) -> WebApp
    ensures { result ≡ spec.assembled version components session pages security }
{
    WebApp {
        version,
        servlets: components.servlets,
        servlet_mappings: components.servlet_mappings,
        filters: components.filters,
        filter_mappings: components.filter_mappings,
        listeners: components.listeners,
        session,
        welcome_files: pages.welcome_files,
        error_pages: pages.error_pages,
        constraints: security.constraints,
        rules: security.rules,
        login: security.login,
    }
}
