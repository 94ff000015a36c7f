//! The version of the descriptor's format.

ghost use Rattle.std.specs.Prelude.{◌≡◌};
ghost use Rattle.sv_text.specs.Gives.{Gives};
ghost use Rattle.toml.specs.View.{table_view};
ghost use Rattle.sv_descriptor.specs.Version as spec;
ghost use Rattle.sv_descriptor.specs.Fault.{located_fault};

use crate::fault::LocatedReadFault;
use crate::limits::{MAX_SESSIONS_OF_VERSION_1, MAX_SESSIONS_OF_VERSION_2};
use crate::schema::optional;
use crate::whole::{NumberBetween, WholeOf};
use std::alloc::Global;
use toml::Table;

/// A version of the descriptor's format.
#[derive(Clone, Copy, Debug, PartialEq, Eq)]
pub enum Version {
    /// Version 1, which is the default.
    One = 1,
    /// Version 2, which can configure the session cookie.
    Two = 2,
}

impl Version {
    /// Returns the maximum number of live sessions of a context whose descriptor has this version.
    pub fn max_sessions(self) -> usize
        ensures { result ≡ spec.max_sessions self }
    {
        match self {
            Version::One => MAX_SESSIONS_OF_VERSION_1,
            Version::Two => MAX_SESSIONS_OF_VERSION_2,
        }
    }
}

/// Reads the version of a descriptor.
///
/// # Errors
/// The fault of the value, or [`LocatedReadFault::NoMemory`].
pub fn read_version(alloc: Global, table: &Table) -> Result<Version, LocatedReadFault>
    ensures { Gives located_fault result (spec.version (table_view table.now)) }
{
    let numbers = WholeOf(NumberBetween { least: 1, most: 2 });
    let number = optional(alloc, table, "version", &numbers)?;
    Ok(numbered(number))
}

fn numbered(number: Option<u16>) -> Version
    ensures { result ≡ spec.numbered number }
{
    match number {
        Some(2) => Version::Two,
        Some(_) => Version::One,
        None => Version::One,
    }
}
