//! The file of lines: the name of the file that an imported descriptor was made from, and the lines of that file on
//! which the constraints and roles begin.

ghost use Rattle.std.specs.Prelude.{◌≡◌, IfOk, map, true};
ghost use Rattle.std.specs.Char.{is_ascii_digit};
ghost use Rattle.std.specs.List.{list_all};
ghost use Rattle.std.specs.Option.{option_copied};
ghost use Rattle.sv_text.specs.Gives.{GivesAnswer};
ghost use Rattle.sv_audited_contexts.specs.LineFile as spec;

use crate::audited_context::{AuditedContext, Source};
use crate::descriptor_lines::SourceLines;
use std::alloc::Global;
use sv_text::{Listed, NoMemory, Text};

/// Locates the constraints and roles of the first context by the text of the file of lines, if the options name one.
pub fn located(
    alloc: Global,
    name: Option<&str>,
    text: &str,
    contexts: Listed<AuditedContext>,
) -> Result<Listed<AuditedContext>, NoMemory>
    ensures { GivesAnswer result (spec.located (option_copied name.entry) text.now contexts) }
{
    match name {
        Some(_) => first_located(alloc, text, contexts),
        None => Ok(contexts),
    }
}

fn first_located(
    alloc: Global,
    text: &str,
    contexts: Listed<AuditedContext>,
) -> Result<Listed<AuditedContext>, NoMemory>
    ensures { GivesAnswer result (spec.first_located text.now contexts) }
{
    let mut contexts = contexts.into_vec();
    if contexts.is_empty() {
        return Ok(Listed::from_vec(contexts));
    }
    let first = contexts.remove(0);
    contexts.insert(0, located_by(alloc, text, first)?)?;
    Ok(Listed::from_vec(contexts))
}

fn located_by(
    alloc: Global,
    text: &str,
    context: AuditedContext,
) -> Result<AuditedContext, NoMemory>
    ensures { GivesAnswer result (spec.located_by text.now context) }
{
    let path = Text::copy_of(alloc, context.source.path.as_str())?;
    let mut located = context;
    located.source = source_from(alloc, text, path)?;
    Ok(located)
}

/// Reads the text of a file of lines.
fn source_from(alloc: Global, text: &str, path: Text) -> Result<Source, NoMemory>
    ensures { GivesAnswer result (spec.source_of path (spec.lines_of text.now)) }
{
    let parts = parts(alloc, text)?;
    source_of(alloc, parts.as_slice(), path)
}

/// Returns the lines of a text, without their line feeds.
pub fn parts(alloc: Global, text: &str) -> Result<Vec<&str>, NoMemory>
    ensures { IfOk result (λ parts. map (λ part. part.now) parts.items ≡ spec.lines_of text.now) }
{
    Ok(text.split('\n').collect(alloc)?)
}

fn source_of(alloc: Global, parts: &[&str], path: Text) -> Result<Source, NoMemory>
    ensures { GivesAnswer result (spec.source_of path (map (λ part. part.now) parts.now)) }
{
    let Some((file, lines)) = parts.split_first() else {
        return Ok(Source {
            path,
            file: Text::copy_of(alloc, "")?,
            lines: SourceLines::unknown(alloc),
        });
    };
    Ok(Source {
        path,
        file: Text::copy_of(alloc, *file)?,
        lines: source_lines(alloc, lines)?,
    })
}

/// Reads the lines of the file after the first one: those that begin with `role ` are of roles, the others of
/// constraints.
fn source_lines(alloc: Global, lines: &[&str]) -> Result<SourceLines, NoMemory>
    ensures { GivesAnswer result (spec.source_lines (map (λ line. line.now) lines.now)) }
{
    Ok(SourceLines {
        constraints: constraint_lines(alloc, lines)?,
        roles: role_lines(alloc, lines)?,
    })
}

fn constraint_lines(alloc: Global, lines: &[&str]) -> Result<Listed<Option<u64>>, NoMemory>
    ensures { GivesAnswer result (spec.constraint_lines (map (λ line. line.now) lines.now)) }
{
    let mut numbers = Vec::new(alloc);
    for line in lines {
        if role_number(*line).is_none() {
            numbers.push(number(*line))?;
        }
    }
    Ok(Listed::from_vec(numbers))
}

fn role_lines(alloc: Global, lines: &[&str]) -> Result<Listed<Option<u64>>, NoMemory>
    ensures { GivesAnswer result (spec.role_lines (map (λ line. line.now) lines.now)) }
{
    let mut numbers = Vec::new(alloc);
    for line in lines {
        let Some(text) = role_number(*line) else {
            continue;
        };
        numbers.push(number(text))?;
    }
    Ok(Listed::from_vec(numbers))
}

/// Returns what follows `role ` in a line that begins with it.
fn role_number(line: &str) -> Option<&str>
    ensures { option_copied result ≡ spec.role_number line.now }
{
    line.strip_prefix("role ")
}

/// Returns the number that a text of decimal digits denotes, if it fits 64 bits.
fn number(text: &str) -> Option<u64>
    ensures { result ≡ spec.number text.now }
{
    if has_digits_alone(text.as_bytes()) {
        number_of_digits(text)
    } else {
        None
    }
}

fn has_digits_alone(text: &[u8]) -> bool
    ensures { result ≡ list_all is_ascii_digit text.now }
{
    text.iter().all(|b| b.is_ascii_digit())
}

fn number_of_digits(text: &str) -> Option<u64>
    requires { list_all is_ascii_digit text.now ≡ true }
    ensures { result ≡ spec.number text.now }
{
    text.parse::<u64>().ok()
}
