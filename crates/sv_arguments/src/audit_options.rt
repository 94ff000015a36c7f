//! The arguments of the command `audit`.

ghost use Rattle.std.specs.Prelude.{◌≡◌, IfErr, IfOk, List, map, string_bytes};
ghost use Rattle.sv_arguments.specs.AuditOptions as spec;
ghost use Rattle.sv_arguments.specs.AuditWords.{IsFormat, IsUnfit, format_name};
ghost use Rattle.sv_arguments.specs.Given.{AreOf};
ghost use Rattle.sv_arguments.specs.Laws.{AuditsOne};
ghost use Rattle.sv_arguments.specs.OptionFault.{IsRefused};
ghost use Rattle.sv_arguments.specs.Settings.{Setting, values};
ghost use Rattle.sv_arguments.specs.Values.{Finds, SaysOr};

use crate::given::Given;
use crate::key::Key;
use crate::option_fault::OptionFault;
use crate::option_set::OptionSet;
use sv_audit_command::{AccessOptions, Asked, Format};

/// A server, and the options of the report on its access.
#[derive(Clone, Copy)]
pub struct AuditOptions<'a> {
    /// The name of the server file.
    pub config: &'a str,
    /// The options of the report.
    pub access: AccessOptions<'a>,
}

impl<'a> AuditOptions<'a> {
    /// Parses the arguments: the name of the server file, followed by options in any order, each at most once. The
    /// options are `--secure`, `--format FORMAT` (`text`, `json`, `html` or `keys`; `text` without it), `--as USER` or
    /// `--role ROLE`, but not both, `--fail-on KINDS`, `--accept FILE`, `--lines FILE`, `--unknown-files`,
    /// `--path TARGET`, `--method METHOD`, which needs `--path`, and `--diff OTHER`. `--path` excludes `--format`,
    /// `--fail-on` and `--accept`, and `--diff` excludes all but `--secure`, `--format` and `--fail-on`, and the forms
    /// `html` and `keys`.
    ///
    /// # Errors
    /// The first fault, from the left, or else an option without the one that it needs, or a form that `--diff` excludes.
    pub fn parse(arguments: &'a [String]) -> Result<AuditOptions<'a>, OptionFault<'a>>
        ensures it { IfOk result (spec.IsAudit (map string_bytes arguments.now)) }
        ensures fault { IfErr result (IsRefused OptionSet.Audit (map string_bytes arguments.now)) }
    {
        let given = Given::parse(OptionSet::Audit, arguments)?;
        Ok(AuditOptions {
            config: given.config,
            access: AccessOptions {
                format: format_in(&given),
                is_secure: given.has(Key::Secure),
                viewer: viewer_in(&given),
                fail_on: given.value(Key::FailOn),
                accept: given.value(Key::Accept),
                lines: given.value(Key::Lines),
                has_unknown_files: given.has(Key::UnknownFiles),
                path: given.value(Key::Path),
                method: given.value(Key::Method),
                diff: given.value(Key::Diff),
            },
        })
    }
}

/// Returns the form of the report.
fn format_in(given: &Given<'_>) -> Format
    ensures { (settings : List Setting) → AreOf given.now.set (map string_bytes given.now.words.now) settings
        → SaysOr Format.Text IsFormat (values Key.Format settings) result }
{
    match given.value(Key::Format) {
        Some(name) => format_named(name).unwrap_or(Format::Text),
        None => Format::Text,
    }
}

/// Returns the caller that `--as` or `--role` names.
fn viewer_in<'a>(given: &Given<'a>) -> Option<Asked<'a>>
    ensures { (settings : List Setting) → AreOf given.now.set (map string_bytes given.now.words.now) settings
        → spec.IsViewer (values Key.As settings) (values Key.Role settings) result }
{
    if let Some(user) = given.value(Key::As) {
        return Some(Asked::User(user));
    }
    let role = given.value(Key::Role)?;
    Some(Asked::Role(role))
}

/// Returns the form of this name.
pub(crate) fn format_named(name: &str) -> Option<Format>
    ensures { Finds (IsFormat name.now) result }
{
    match name {
        "text" => Some(Format::Text),
        "json" => Some(Format::Json),
        "html" => Some(Format::Html),
        "keys" => Some(Format::Keys),
        _ => None,
    }
}

/// Returns the form of this name, if a report on differences does not have it.
pub(crate) fn unfit_named(name: &str) -> Option<Format>
    ensures { Finds (IsUnfit name.now) result }
{
    match name {
        "html" => Some(Format::Html),
        "keys" => Some(Format::Keys),
        _ => None,
    }
}

/// Returns the name of the form.
pub(crate) fn format_word(form: Format) -> &'static str
    ensures { result.now ≡ format_name form }
{
    match form {
        Format::Text => "text",
        Format::Json => "json",
        Format::Html => "html",
        Format::Keys => "keys",
    }
}

/// Arguments have only one meaning.
pub fn audit_arguments_ask_for_one_thing()
    ensures { AuditsOne }
{}
