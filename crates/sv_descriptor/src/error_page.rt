//! Error pages.

ghost use Rattle.sv_text.specs.Gives.{Gives};
ghost use Rattle.sv_descriptor.specs.ErrorPage as spec;
ghost use Rattle.sv_descriptor.specs.Fault.{located_fault};

use crate::fault::{FaultCode, LocatedReadFault, refuse, within_key};
use crate::ignored_keys::element_keys;
use crate::limits::{MAX_ERROR_CODE, MIN_ERROR_CODE};
use crate::location::{Location, PageLocation};
use crate::schema::{optional, required};
use crate::table::TableSchema;
use crate::text::{Name, TextOf};
use crate::whole::{NumberBetween, WholeOf};
use std::alloc::Global;
use sv_text::Text;
use toml::Table;

/// An error page (`error-page`).
#[derive(Drop)]
pub struct ErrorPage {
    /// The errors that the page handles.
    pub page_for: PageFor,
    /// The page's path within the context, with or without a query.
    pub location: Location,
}

/// The errors that a page handles.
#[derive(Drop)]
pub enum PageFor {
    /// Errors with this status, from 400 to 599 (`error-code`).
    Status(u16),
    /// Faults of this kind (`exception-type`).
    Exception(Text),
    /// All errors that have no other page.
    Any,
}

/// The table of an error page.
#[derive(Clone, Copy)]
pub struct ErrorPageTable;

impl TableSchema for ErrorPageTable {
    type Output = ErrorPage;

    ghost reads = { λ _. spec.error_page };

    fn read(&self, alloc: Global, table: &Table) -> Result<ErrorPage, LocatedReadFault> {
        element_keys(alloc, &["error-code", "exception-type", "location"], table)?;
        let status = WholeOf(NumberBetween {
            least: MIN_ERROR_CODE,
            most: MAX_ERROR_CODE,
        });
        let status = optional(alloc, table, "error-code", &status)?;
        let exception = optional(alloc, table, "exception-type", &TextOf(Name))?;
        Ok(ErrorPage {
            page_for: page_for(alloc, status, exception)?,
            location: required(alloc, table, "location", &TextOf(PageLocation))?,
        })
    }
}

fn page_for(
    alloc: Global,
    status: Option<u16>,
    exception: Option<Text>,
) -> Result<PageFor, LocatedReadFault>
    ensures { Gives located_fault result (spec.page_for status exception) }
{
    let Some(exception) = exception else {
        return match status {
            Some(status) => Ok(PageFor::Status(status)),
            None => Ok(PageFor::Any),
        };
    };
    if status.is_some() {
        let key = "exception-type";
        return within_key(alloc, key, refuse(alloc, FaultCode::BadValue, key));
    }
    Ok(PageFor::Exception(exception))
}
