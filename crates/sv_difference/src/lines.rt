//! The text of what two servers decide differently.

ghost use Rattle.std.specs.Prelude.{◌≡◌, ◌++◌, OnOk, map, string_bytes};
ghost use Rattle.std.specs.List.{flat_map};
ghost use Rattle.sv_text.specs.Gives.{GivesAnswer};
ghost use Rattle.sv_audit.specs.Reading as reading;
ghost use Rattle.sv_difference.specs.DifferenceText as spec;

use crate::contexts::{ContextDifference, ContextSide, ServerDifference};
use crate::difference::Difference;
use crate::opened_first::opened_first;
use std::alloc::Global;
use sv_audit::DifferenceKind;
use sv_constraints::Methods;
use sv_report::escaped::escaped;
use sv_report::{folded, joined, names_text, pattern_text, push_all, who_text};
use sv_text::{NoMemory, Text};
use sv_uri::{location, shown_context};

/// Returns the text of a report: a heading for each context path, a line if its login configuration came or went, and
/// one for each difference, or `no difference`. Contexts in which something may have been opened come first. Control
/// characters are escaped, and lines of more than 100 characters are broken.
///
/// # Errors
/// `NoMemory` if memory runs out.
pub fn difference_text(alloc: Global, report: &ServerDifference) -> Result<Text, NoMemory>
    ensures { GivesAnswer result (spec.difference_text report.now) }
{
    let contexts = opened_first(alloc, report.contexts.as_slice())?;
    let text = report_lines(alloc, contexts.as_slice())?;
    folded(alloc, text.as_str())
}

fn report_lines(alloc: Global, contexts: &[&ContextDifference]) -> Result<Text, NoMemory>
    ensures { GivesAnswer result (spec.all_lines (map (λ context. context.now) contexts.now)) }
{
    let mut text = String::new(alloc);
    for context in contexts {
        push_context(&mut text, alloc, context)?;
    }
    Ok(Text::from_string(text))
}

fn push_context(
    text: &mut String,
    alloc: Global,
    context: &ContextDifference,
) -> Result<(), NoMemory>
    ensures { OnOk result (string_bytes text.new ≡ string_bytes text.old ++ spec.context_lines context.now context.now.before context.now.after) }
{
    let Some(before) = &context.before else {
        return push_heading(text, alloc, context.path.as_str(), " only in the second\n");
    };
    let Some(after) = &context.after else {
        return push_heading(text, alloc, context.path.as_str(), " only in the first\n");
    };
    let files = files_text(alloc, before, after)?;
    push_heading(text, alloc, context.path.as_str(), files.as_str())?;
    let lines = lines_of(alloc, context)?;
    Ok(text.push_str(or_none(lines.as_str()))?)
}

fn push_heading(text: &mut String, alloc: Global, path: &str, end: &str) -> Result<(), NoMemory>
    ensures { OnOk result (string_bytes text.new ≡ string_bytes text.old ++ spec.heading_of path.now end.now) }
{
    let path = escaped(alloc, shown_context(path))?;
    push_all(text, &["context ", path.as_str(), end])
}

fn files_text(alloc: Global, before: &ContextSide, after: &ContextSide) -> Result<Text, NoMemory>
    ensures { GivesAnswer result (spec.files_text before.now after.now) }
{
    let before = escaped(alloc, before.file.as_str())?;
    let after = escaped(alloc, after.file.as_str())?;
    joined(alloc, &[" (", before.as_str(), ", ", after.as_str(), ")\n"])
}

fn or_none(lines: &str) -> &str
    ensures { result.now ≡ spec.or_none lines.now }
{
    if lines.is_empty() {
        "no difference\n"
    } else {
        lines
    }
}

/// Returns the lines of a context that both sides have.
fn lines_of(alloc: Global, context: &ContextDifference) -> Result<Text, NoMemory>
    ensures { GivesAnswer result (spec.lines_of context.now) }
{
    let mut text = String::new(alloc);
    text.push_str(login_line(has_login(&context.before), has_login(&context.after)))?;
    push_differences(&mut text, alloc, context, context.differences.as_slice())?;
    Ok(Text::from_string(text))
}

fn login_line(before: bool, after: bool) -> &'static str
    ensures { result.now ≡ spec.login_line before after }
{
    match (before, after) {
        (true, false) => "login: only before\n",
        (false, true) => "login: only after\n",
        (true, true) => "",
        (false, false) => "",
    }
}

/// Returns whether callers can log in on a side.
pub(crate) fn has_login(side: &Option<ContextSide>) -> bool
    ensures { result ≡ spec.has_login side.now }
{
    match side {
        None => false,
        Some(side) => side.has_login,
    }
}

fn push_differences(
    text: &mut String,
    alloc: Global,
    context: &ContextDifference,
    differences: &[Difference],
) -> Result<(), NoMemory>
    ensures { OnOk result (string_bytes text.new ≡ string_bytes text.old ++ flat_map (spec.difference_line context.now) differences.now) }
{
    for difference in differences {
        push_difference(text, alloc, context, difference)?;
    }
    Ok(())
}

fn push_difference(
    text: &mut String,
    alloc: Global,
    context: &ContextDifference,
    difference: &Difference,
) -> Result<(), NoMemory>
    ensures { OnOk result (string_bytes text.new ≡ string_bytes text.old ++ spec.difference_line context.now difference.now) }
{
    let requests = requests_text(alloc, context.path.as_str(), difference)?;
    let callers = callers_text(alloc, context, difference)?;
    push_all(
        text,
        &[
            kind_word(difference.kind),
            ": ",
            requests.as_str(),
            ": ",
            callers.as_str(),
            "\n",
        ],
    )
}

/// Returns the word for a kind of difference.
pub(crate) fn kind_word(kind: DifferenceKind) -> &'static str
    ensures { result.now ≡ spec.kind_word kind }
{
    match kind {
        DifferenceKind::Opened => "opened",
        DifferenceKind::Closed => "closed",
        DifferenceKind::Changed => "changed",
    }
}

/// Returns the methods of a difference, each by its name or by those of the others.
fn methods_words(alloc: Global, methods: &Methods) -> Result<Text, NoMemory>
    ensures { GivesAnswer result (spec.methods_words methods.now) }
{
    match methods {
        Methods::All => Text::copy_of(alloc, "all methods"),
        Methods::Only(names) => names_text(alloc, names.as_slice()),
        Methods::Except(names) => exceptions_words(alloc, names.as_slice()),
    }
}

fn exceptions_words(alloc: Global, names: &[Text]) -> Result<Text, NoMemory>
    ensures { GivesAnswer result (spec.methods_words (Methods.Except names.now)) }
{
    if names.is_empty() {
        return Text::copy_of(alloc, "all methods");
    }
    let names = names_text(alloc, names)?;
    joined(alloc, &["all methods but ", names.as_str()])
}

fn requests_text(alloc: Global, context: &str, difference: &Difference) -> Result<Text, NoMemory>
    ensures { GivesAnswer result (spec.requests_text context.now difference.now) }
{
    let methods = methods_words(alloc, &difference.methods)?;
    let place = place_text(alloc, difference)?;
    let example = example_of(alloc, context, difference)?;
    joined(
        alloc,
        &[
            methods.as_str(),
            " at ",
            place.as_str(),
            ", such as ",
            example.as_str(),
        ],
    )
}

/// Returns the pattern of both rows, or each.
fn place_text(alloc: Global, difference: &Difference) -> Result<Text, NoMemory>
    ensures { GivesAnswer result (spec.place_text difference.now) }
{
    let after = pattern_text(alloc, &difference.after)?;
    if is_same(&difference.before, &difference.after) {
        return Ok(after);
    }
    let before = pattern_text(alloc, &difference.before)?;
    joined(alloc, &[after.as_str(), " (before ", before.as_str(), ")"])
}

fn is_same(pattern: &Option<Text>, other: &Option<Text>) -> bool
    ensures { result ≡ reading.is_same pattern.now other.now }
{
    match (pattern, other) {
        (None, None) => true,
        (Some(pattern), Some(other)) => pattern.as_str() == other.as_str(),
        _ => false,
    }
}

/// Returns the location of a path of the difference.
pub(crate) fn example_of(
    alloc: Global,
    context: &str,
    difference: &Difference,
) -> Result<Text, NoMemory>
    ensures { GivesAnswer result (spec.example_of context.now difference.now) }
{
    let mut path = String::new(alloc);
    path.push_str(context)?;
    path.push_str(difference.path.as_str())?;
    Ok(Text::from_string(location(alloc, path.as_str())?))
}

fn callers_text(
    alloc: Global,
    context: &ContextDifference,
    difference: &Difference,
) -> Result<Text, NoMemory>
    ensures { GivesAnswer result (spec.callers_text context.now difference.now) }
{
    let before = who_text(alloc, has_login(&context.before), &difference.was)?;
    let after = who_text(alloc, has_login(&context.after), &difference.becomes)?;
    joined(
        alloc,
        &[before.as_str(), " before, ", after.as_str(), " after"],
    )
}
