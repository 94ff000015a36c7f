//! The error that a response reports.

ghost use Rattle.sv_exchange.specs.Dispatches.{told_error};
ghost use Rattle.sv_text.specs.Gives.{GivesAnswer};

use crate::dispatch::{copied, shown};
use std::alloc::Global;
use sv_text::{NoMemory, Text};

/// The error that the response reports. It is kept from the time it occurs until the response (Jakarta Servlet 6.0,
/// section 10.9).
#[derive(Debug, Drop)]
pub struct KeptError {
    /// The status of the response.
    pub status: u16,
    pub text: Text,
    /// The name of the servlet that caused the error; `None` if none was chosen.
    pub servlet: Option<Text>,
    /// The field that is sent with the response.
    pub field: Option<KeptField>,
}

/// A field that is sent with an error, such as `allow` or `retry-after` (RFC 9110, sections 10.2.1 and 10.2.3).
#[derive(Debug, Drop)]
pub struct KeptField {
    pub name: Text,
    pub value: Text,
}

/// The description of an error for an error page (Jakarta Servlet 6.0, section 10.9.1).
#[derive(Debug, Drop)]
pub struct ToldError {
    /// The status in decimal digits.
    pub status_code: Text,
    pub message: Text,
    /// The name of the servlet that caused the error; `None` if none was chosen.
    pub servlet_name: Option<Text>,
}

impl ToldError {
    /// Copies the description of a kept error.
    pub(crate) fn of(alloc: Global, kept: &KeptError) -> Result<ToldError, NoMemory>
        ensures { GivesAnswer result (told_error kept.now) }
    {
        let status_code = format!(in alloc; "{}", kept.status)?;
        Ok(ToldError {
            status_code: Text::from_string(status_code),
            message: Text::copy_of(alloc, kept.text.as_str())?,
            servlet_name: copied(alloc, shown(&kept.servlet))?,
        })
    }
}
