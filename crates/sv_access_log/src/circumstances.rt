//! The line of an access.

ghost use Rattle.std.specs.Prelude.{◌≡◌, ◌++◌, OnOk, option_copied, string_bytes};
ghost use Rattle.sv_access_log.specs.Lines.{access_line};

use crate::combined::push_combined;
use crate::json_lines::push_json;
use httpdate::HttpDate;
use sv_run::Access;
use sv_text::{NoMemory, Text};

/// The format of the lines of an access log.
#[derive(Clone, Copy, Debug, PartialEq, Eq)]
pub enum LogFormat {
    /// The `combined` format of Apache httpd and nginx.
    Combined,
    /// An object of JSON.
    Json,
}

/// What a line shows alongside the access.
#[derive(Drop)]
pub struct Circumstances {
    /// The time of the event that answered the message.
    pub date: HttpDate,
    /// The text of the client's IP address.
    pub address: Option<Text>,
    /// The name of the caller.
    pub user: Option<Text>,
    /// The path of the context that handled the message, `""` for the root context.
    pub context: Option<Text>,
    /// The text of the journal entry that says what became of the message.
    pub outcome: Option<Text>,
    /// The microseconds between the first byte of the message and its response.
    pub micros: u64,
}

/// Appends the line of an access, with its line feed. It contains no other line feed, whatever the client sent.
///
/// # Errors
/// `NoMemory` if memory runs out. The text may then end with a part of the line.
pub fn push_line(
    text: &mut String,
    format: LogFormat,
    access: &Access,
    around: &Circumstances,
) -> Result<(), NoMemory>
    ensures { OnOk result (string_bytes text.new ≡ string_bytes text.old ++ access_line format access.now around.now) }
{
    match format {
        LogFormat::Combined => push_combined(text, access, around),
        LogFormat::Json => push_json(text, access, around),
    }
}

/// Borrows a text.
pub(crate) fn borrowed(text: &Option<Text>) -> Option<&str>
    ensures { option_copied result ≡ text.now }
{
    match text {
        None => None,
        Some(text) => Some(text.as_str()),
    }
}
