//! The second line of a fault, from the name and the text of its file.

ghost use Rattle.std.specs.Prelude.{◌≡◌, ◌≤◌, IfOk, None, length, take};
ghost use Rattle.std.specs.Option.{option_and_then};
ghost use Rattle.sv_text.specs.Gives.{GivesAnswer};
ghost use Rattle.toml.specs.Parse.{parse_document};
ghost use Rattle.sv_program.specs.Detail as spec;
ghost use Rattle.sv_program.specs.Offending.{offending as offending_value};
ghost use Rattle.sv_program.specs.Sentence.{sentence as spec_sentence};

use crate::file_place::spot_text;
use crate::offending_value::offending;
use crate::place::{column_behind, line_behind};
use crate::sentence::{back, front};
use crate::taken::taken;
use crate::toml_value::printed_key;
use crate::value_place::spot_of;
use std::alloc::Global;
use sv_descriptor::{FaultCode, LocatedFault};
use sv_text::{NoMemory, Text};

/// Returns the second line of a fault of the file of this name and text, without its line feed. If the text is not
/// valid TOML, it has the line and column at which the parser stops, and the parser's message. Any other fault has the
/// place at which the offending value begins, the problem, and the value.
pub(crate) fn detail_line(
    alloc: Global,
    name: &str,
    text: &str,
    found: &LocatedFault,
) -> Result<Text, NoMemory>
    ensures { IfOk result (spec.IsLine name.now text.now found.now) }
{
    match found.fault.code {
        FaultCode::NotToml => text_line(alloc, name, text, found),
        _ => value_line(alloc, name, text, found),
    }
}

/// Returns the line of a fault of a text that is TOML.
fn value_line(alloc: Global, name: &str, text: &str, found: &LocatedFault) -> Result<Text, NoMemory>
    ensures { IfOk result (spec.IsProblemLine name.now text.now found.now) }
{
    let spot = spot_of(alloc, text.as_bytes(), found.steps.as_slice())?;
    let place = spot_text(alloc, text.as_bytes(), spot)?;
    let value = value_shown(alloc, text, found)?;
    problem_line(alloc, name, place.as_str(), found, value)
}

/// Returns the offending value of a fault as it is shown, if the text is TOML.
fn value_shown(alloc: Global, text: &str, found: &LocatedFault) -> Result<Option<Text>, NoMemory>
    ensures { GivesAnswer result (option_and_then (offending_value found.now) (parse_document text.now)) }
{
    match toml::table_from_str(alloc, text) {
        Ok(file) => offending(alloc, found, &file),
        Err(error) if error.is_memory() => Err(NoMemory),
        Err(_) => Ok(None),
    }
}

/// Returns the line of a text that was not valid TOML.
fn text_line(alloc: Global, name: &str, text: &str, found: &LocatedFault) -> Result<Text, NoMemory>
    ensures { IfOk result (spec.IsTextLine name.now text.now found.now) }
{
    let Err(error) = toml::table_from_str(alloc, text) else {
        return problem_line(alloc, name, "", found, None);
    };
    let Some(span) = error.span() else {
        return Err(NoMemory);
    };
    let before = &text.as_bytes()[..span.start];
    line_with_place(alloc, name, before, error.message())
}

/// Returns the line with the place after these bytes.
fn line_with_place(
    alloc: Global,
    name: &str,
    before: &[u8],
    message: &str,
) -> Result<Text, NoMemory>
    ensures { GivesAnswer result (spec.line_with_place name.now before.now message.now) }
{
    let line = line_behind(before);
    let column = column_behind(before);
    let text = format!(in alloc; "  {name}:{line}:{column}: {message}")?;
    Ok(Text::from_string(text))
}

/// Returns the line with the problem: at this place of the file, and with this value, if it is shown.
fn problem_line(
    alloc: Global,
    name: &str,
    place: &str,
    found: &LocatedFault,
    value: Option<Text>,
) -> Result<Text, NoMemory>
    ensures { GivesAnswer result (spec.problem_line name.now place.now found.now value) }
{
    let sentence = sentence(alloc, found)?;
    let value = value_text(alloc, value)?;
    let text = format!(in alloc; "  {name}{place}: {sentence}{value}")?;
    Ok(Text::from_string(text))
}

/// Returns the problem in words.
fn sentence(alloc: Global, found: &LocatedFault) -> Result<Text, NoMemory>
    ensures { GivesAnswer result (spec_sentence found.now) }
{
    let front = front(found.fault.code);
    let key = printed_key(alloc, found.fault.key.as_str())?;
    let back = back(found.fault.code);
    let taken = taken(found);
    let text = format!(in alloc; "{front}{key}{back}{taken}")?;
    Ok(Text::from_string(text))
}

/// Returns the offending value, after a colon and a space.
fn value_text(alloc: Global, value: Option<Text>) -> Result<Text, NoMemory>
    ensures { GivesAnswer result (spec.value_text value) }
{
    match value {
        Some(value) => Ok(Text::from_string(format!(in alloc; ": {value}")?)),
        None => Text::copy_of(alloc, ""),
    }
}
