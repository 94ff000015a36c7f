//! Texts whose lines have at most 100 characters.

ghost use Rattle.std.specs.Prelude.{◌≡◌, ◌++◌, ◌<◌, IfOk, IfSome, OnOk, chars, codes, length, map, string_bytes};
ghost use Rattle.std.specs.List.{flat_map};
ghost use Rattle.sv_text.specs.Gives.{GivesAnswer};
ghost use Rattle.sv_report.specs.Folded as spec;

use crate::escaped::characters;
use std::alloc::Global;
use sv_text::{NoMemory, Text};

/// The most characters of a line.
pub const LINE_WIDTH: usize = 100;

/// The most characters of a part of a line after its indentation.
pub const LATER_WIDTH: usize = 94;

/// Returns a text whose lines have at most 100 characters: a longer line is broken at its last space within them, which
/// goes, or after 100 characters, and continues in a line that is indented by six spaces.
///
/// # Errors
/// `NoMemory` if memory runs out.
#[tactic(auto, unfolding(crate::specs::Folded::folded))]
pub fn folded(alloc: Global, text: &str) -> Result<Text, NoMemory>
    ensures { GivesAnswer result (spec.folded text.now) }
{
    let lines = lines_of(alloc, text)?;
    let mut folded = String::new(alloc);
    push_lines(&mut folded, alloc, lines.as_slice())?;
    Ok(Text::from_string(folded))
}

/// Returns the lines of a text, without their line feeds.
///
/// # Errors
/// `NoMemory` if memory runs out.
pub fn lines_of(alloc: Global, text: &str) -> Result<Vec<&str>, NoMemory>
    ensures { IfOk result (λ lines. map (λ line. line.now) lines.items ≡ spec.lines_of text.now) }
{
    Ok(text.split('\n').collect(alloc)?)
}

fn push_lines(text: &mut String, alloc: Global, lines: &[&str]) -> Result<(), NoMemory>
    ensures { OnOk result (string_bytes text.new ≡ string_bytes text.old ++ spec.joined_lines (map (λ line. line.now) lines.now)) }
{
    let Some((line, others)) = lines.split_first() else {
        return Ok(());
    };
    push_line(text, alloc, *line)?;
    push_other_lines(text, alloc, others)
}

/// Appends lines, each after a line feed.
fn push_other_lines(text: &mut String, alloc: Global, others: &[&str]) -> Result<(), NoMemory>
    ensures { OnOk result (string_bytes text.new ≡ string_bytes text.old ++ flat_map (λ other. codes "\n" ++ spec.folded_line other) (map (λ other. other.now) others.now)) }
{
    for other in others {
        text.push_str("\n")?;
        push_line(text, alloc, *other)?;
    }
    Ok(())
}

fn push_line(text: &mut String, alloc: Global, line: &str) -> Result<(), NoMemory>
    ensures { OnOk result (string_bytes text.new ≡ string_bytes text.old ++ spec.folded_line line.now) }
{
    if line.len() <= LINE_WIDTH {
        return Ok(text.push_str(line)?);
    }
    let characters = characters(alloc, line)?;
    push_parts(text, characters.as_slice())
}

/// Appends the parts of a line.
fn push_parts(text: &mut String, line: &[char]) -> Result<(), NoMemory>
    ensures { OnOk result (string_bytes text.new ≡ string_bytes text.old ++ spec.parts_text (spec.line_parts line.now)) }
{
    let mut rest = line;
    let mut limit = LINE_WIDTH;
    while rest.len() > limit {
        rest = push_part(text, rest, limit)?;
        limit = LATER_WIDTH;
    }
    push_plain(text, rest)
}

/// Appends the first part of a longer line and what begins the next line. Returns the rest.
fn push_part<'a>(text: &mut String, line: &'a [char], limit: usize) -> Result<&'a [char], NoMemory>
    requires { limit < length line.now }
    ensures rest { IfOk result (λ rest. rest.now ≡ (spec.broken limit line.now).1) }
    ensures text { OnOk result (string_bytes text.new ≡ string_bytes text.old ++ (spec.bytes_of (spec.broken limit line.now).0 ++ codes "\n      ")) }
{
    let (part, rest) = broken(line, limit);
    push_plain(text, part)?;
    text.push_str("\n      ")?;
    Ok(rest)
}

/// Returns the first part of a longer line, and the rest.
fn broken(line: &[char], limit: usize) -> (&[char], &[char])
    requires { limit < length line.now }
    ensures { (result.0.now, result.1.now) ≡ spec.broken limit line.now }
{
    match last_space(&line[..limit + 1]) {
        None => (&line[..limit], &line[limit..]),
        Some(place) => (&line[..place], &line[place + 1..]),
    }
}

/// Returns the place of the last space.
fn last_space(characters: &[char]) -> Option<usize>
    ensures place { result ≡ spec.last_space characters.now }
    ensures within { IfSome result (λ place. place < length characters.now) }
{
    let mut last = None;
    let mut place = 0;
    for character in characters {
        if *character == ' ' {
            last = Some(place);
        }
        place += 1;
    }
    last
}

fn push_plain(text: &mut String, characters: &[char]) -> Result<(), NoMemory>
    ensures { OnOk result (string_bytes text.new ≡ string_bytes text.old ++ spec.bytes_of characters.now) }
{
    for character in characters {
        text.push(*character)?;
    }
    Ok(())
}

/// States that no line of a folded line has more than 100 characters.
pub fn parts_fit()
    ensures { spec.PartsFit }
{}

/// States that the parts of a line have all its characters in order, except for spaces.
pub fn parts_keep_characters()
    ensures { spec.PartsKeepCharacters }
{}
