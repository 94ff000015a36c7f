//! Where constraints are.

ghost use Rattle.std.specs.Prelude.{◌≡◌};
ghost use Rattle.sv_text.specs.Gives.{GivesAnswer};
ghost use Rattle.sv_report.specs.Places as spec;

use crate::escaped::escaped;
use crate::parts::joined;
use std::alloc::Global;
use sv_text::{NoMemory, Text};

/// Returns the line on which a constraint begins, if it is known.
pub fn line_of(lines: &[Option<u64>], constraint: Option<u64>) -> Option<u64>
    ensures { result ≡ spec.line_of lines.now constraint }
{
    match constraint {
        None => None,
        Some(number) => line_at(lines, number),
    }
}

/// Returns the line at place `number - 1` of lines, if it is known.
pub fn line_at(lines: &[Option<u64>], number: u64) -> Option<u64>
    ensures { result ≡ spec.line_at lines.now number }
{
    if number == 0 {
        return None;
    }
    match lines.get((number - 1) as usize) {
        None => None,
        Some(line) => *line,
    }
}

/// Returns the number of a constraint and the line on which it begins, or a dash if there is none.
pub fn constraint_text(
    alloc: Global,
    lines: &[Option<u64>],
    constraint: Option<u64>,
) -> Result<Text, NoMemory>
    ensures { GivesAnswer result (spec.constraint_text lines.now constraint) }
{
    match constraint {
        None => Text::copy_of(alloc, "-"),
        Some(number) => numbered(alloc, number, line_at(lines, number)),
    }
}

fn numbered(alloc: Global, number: u64, line: Option<u64>) -> Result<Text, NoMemory>
    ensures { GivesAnswer result (spec.numbered number line) }
{
    let number = number_text(alloc, number)?;
    match line {
        None => Ok(number),
        Some(line) => joined(
            alloc,
            &[
                number.as_str(),
                ", line ",
                number_text(alloc, line)?.as_str(),
            ],
        ),
    }
}

/// Returns a place in a file, in parentheses after a space, or nothing if its line is not known.
pub fn place_text(alloc: Global, file: &str, line: Option<u64>) -> Result<Text, NoMemory>
    ensures { GivesAnswer result (spec.place_text file.now line) }
{
    match line {
        None => Text::copy_of(alloc, ""),
        Some(line) => file_line(alloc, file, line),
    }
}

fn file_line(alloc: Global, file: &str, line: u64) -> Result<Text, NoMemory>
    ensures { GivesAnswer result (spec.place_text file.now (Some line)) }
{
    let file = escaped(alloc, file)?;
    let line = number_text(alloc, line)?;
    joined(alloc, &[" (", file.as_str(), ":", line.as_str(), ")"])
}

/// Returns a number in decimal.
pub fn number_text(alloc: Global, number: u64) -> Result<Text, NoMemory>
    ensures { GivesAnswer result (spec.number_text number) }
{
    Ok(Text::from_string(format!(in alloc; "{number}")?))
}
