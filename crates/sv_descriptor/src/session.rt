//! The session configuration of a context.

ghost use Rattle.sv_text.specs.Gives.{Gives, GivesAnswer};
ghost use Rattle.toml.specs.View.{table_view};
ghost use Rattle.sv_descriptor.specs.Ignored.{element_keys};
ghost use Rattle.sv_descriptor.specs.Session as spec;
ghost use Rattle.sv_descriptor.specs.Fault.{located_fault};

use crate::cookie_config::CookieTable;
use crate::fault::{FaultCode, LocatedReadFault, refuse};
use crate::ignored_keys::element_keys;
use crate::limits::{DEFAULT_SESSION_TIMEOUT, MAX_SESSION_TIMEOUT};
use crate::schema::optional_or;
use crate::table::{TableOf, TableSchema};
use crate::version::Version;
use crate::whole::{WholeOf, WholeSchema};
use std::alloc::Global;
use sv_message::CookieSettings;
use sv_text::NoMemory;
use toml::Table;

/// The session configuration of a context (`session-config`, Jakarta Servlet 6.0 sections 7.1.1 and 7.5).
#[derive(Drop)]
pub struct SessionConfig {
    /// The session timeout in minutes. With 0, sessions never expire.
    pub timeout: u32,
    /// The configuration of the session cookie.
    pub cookie: CookieSettings,
}

/// Reads the session configuration of a context.
///
/// # Errors
/// The first fault of the table, or [`LocatedReadFault::NoMemory`].
pub fn read_session(
    alloc: Global,
    version: Version,
    table: &Table,
) -> Result<SessionConfig, LocatedReadFault>
    ensures { Gives located_fault result (spec.session version (table_view table.now)) }
{
    let session = TableOf(SessionTable { version });
    let default = default_session(alloc)?;
    optional_or(alloc, table, "session-config", &session, default)
}

/// Returns the session configuration of a descriptor that sets none.
fn default_session(alloc: Global) -> Result<SessionConfig, NoMemory>
    ensures { GivesAnswer result spec.default_session }
{
    Ok(SessionConfig {
        timeout: DEFAULT_SESSION_TIMEOUT,
        cookie: CookieSettings::standard(alloc)?,
    })
}

/// The table of the session configuration.
#[derive(Clone, Copy)]
struct SessionTable {
    /// The version of the descriptor.
    version: Version,
}

impl TableSchema for SessionTable {
    type Output = SessionConfig;

    ghost reads = { λ schema. spec.session_config schema.version };

    fn read(&self, alloc: Global, table: &Table) -> Result<SessionConfig, LocatedReadFault> {
        session_keys(alloc, self.version, table)?;
        let minutes = WholeOf(SessionTimeout);
        let default = DEFAULT_SESSION_TIMEOUT;
        let timeout = optional_or(alloc, table, "session-timeout", &minutes, default)?;
        let standard = CookieSettings::standard(alloc)?;
        let cookie = TableOf(CookieTable);
        Ok(SessionConfig {
            timeout,
            cookie: optional_or(alloc, table, "cookie-config", &cookie, standard)?,
        })
    }
}

/// Checks that the table has only the keys of the version.
fn session_keys(alloc: Global, version: Version, table: &Table) -> Result<(), LocatedReadFault>
    ensures { Gives located_fault result (element_keys (spec.session_keys version) (table_view table.now)) }
{
    match version {
        Version::One => element_keys(alloc, &["session-timeout"], table),
        Version::Two => element_keys(alloc, &["session-timeout", "cookie-config"], table),
    }
}

/// The session timeout, in minutes. 0 or less means that sessions never expire.
#[derive(Clone, Copy)]
struct SessionTimeout;

impl WholeSchema for SessionTimeout {
    type Output = u32;

    ghost reads = { λ _. spec.session_timeout };

    fn read(&self, alloc: Global, key: &str, number: i64) -> Result<u32, LocatedReadFault> {
        if number > i64::from(MAX_SESSION_TIMEOUT) {
            return refuse(alloc, FaultCode::BadTimeout, key);
        }
        if number < 0 { Ok(0) } else { Ok(number as u32) }
    }
}
