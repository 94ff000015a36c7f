//! The lines of a file on which a value begins.
//!
//! The TOML reader gives no places. So the text is cut after whole lines, and fronts are read: the value begins after a
//! front that lacks it, if the next front that is TOML has it. Fronts that end inside a value are not TOML, and are
//! skipped. In a long text the fronts before headers are read first.

ghost use Rattle.std.specs.Prelude.{◌≡◌, IfOk, Some, option_copied, option_map, take};
ghost use Rattle.sv_text.specs.Gives.{GivesAnswer};
ghost use Rattle.toml.specs.Parse.{parse_document};
ghost use Rattle.toml.specs.View.{table_view};
ghost use Rattle.sv_program.specs.FileLine as spec;

use crate::limits::{MAX_LOCATED_BYTES, MAX_SEARCHED_BYTES, MAX_SEARCHED_LINES};
use crate::offending_value::value_in;
use crate::place::ends_line;
use std::alloc::Global;
use sv_descriptor::ValueStep;
use sv_text::NoMemory;
use toml::Table;

/// Lines of a text.
#[derive(Clone, Copy)]
pub(crate) struct Region {
    /// The number of the first line, from 1.
    pub(crate) line: usize,
    /// The place at which it begins.
    pub(crate) start: usize,
    /// The place after the last line.
    pub(crate) end: usize,
}

/// Returns the lines on which the value after these steps begins: those between a front that lacks it and the next one
/// that has it. There are none if the text has no such value. In a text of more than [`MAX_LOCATED_BYTES`] there may be
/// none: if it has more than [`MAX_SEARCHED_BYTES`], or too many lines from a header to the next.
pub(crate) fn region_of(
    alloc: Global,
    text: &[u8],
    steps: &[ValueStep],
) -> Result<Option<Region>, NoMemory>
    ensures region { IfOk result (spec.IsRegion text.now steps.now) }
    ensures within { IfOk result (λ region. spec.EndsWithin text.now region) }
{
    if text.len() > MAX_SEARCHED_BYTES {
        return Ok(None);
    }
    let ends = line_ends(alloc, text)?;
    let fronts = Fronts {
        text,
        ends: ends.as_slice(),
        steps,
    };
    fronts.region(alloc)
}

/// Returns the lengths of the fronts of whole lines: 0, then up to each line feed, then the whole text.
fn line_ends(alloc: Global, text: &[u8]) -> Result<Vec<usize>, NoMemory>
    ensures { IfOk result (λ ends. ends.items ≡ spec.line_ends text.now) }
{
    let mut ends = Vec::new(alloc);
    ends.push(0)?;
    let mut at = 0;
    for byte in text {
        at += 1;
        if ends_line(*byte) {
            ends.push(at)?;
        }
    }
    ends.push(at)?;
    Ok(ends)
}

/// What a front of a text says about a value.
#[derive(Clone, Copy)]
pub(crate) enum Presence {
    /// The front is not a TOML document.
    NotToml,
    /// It is one, and lacks the value.
    Lacking,
    /// It is one, and has the value.
    Present,
}

/// The longest front of some fronts that is a TOML document, by its number of lines.
#[derive(Clone, Copy)]
pub(crate) enum Found {
    /// None of them is one.
    Nothing,
    /// It lacks the value.
    Lack(usize),
    /// It has the value.
    Has(usize),
}

/// Two numbers of lines.
#[derive(Clone, Copy)]
pub(crate) struct Bounds {
    low: usize,
    high: usize,
}

/// The fronts of a text up to these ends, and the steps to a value.
#[derive(Clone, Copy)]
struct Fronts<'a> {
    text: &'a [u8],
    ends: &'a [usize],
    steps: &'a [ValueStep],
}

impl Fronts<'_> {
    ghost use Rattle.std.specs.Prelude.{◌≡◌, ◌<◌, ◌≤◌, IfOk, length, true};
    ghost use Rattle.sv_text.specs.Gives.{GivesAnswer};
    ghost use Rattle.sv_program.specs.FileLine as spec;

    /// Returns the lines on which the value begins.
    fn region(&self, alloc: Global) -> Result<Option<Region>, NoMemory>
        requires { self.now.ends.now ≡ spec.line_ends self.now.text.now }
        ensures region { IfOk result (spec.IsRegion self.now.text.now self.now.steps.now) }
        ensures within { IfOk result (λ region. spec.EndsWithin self.now.text.now region) }
    {
        let last = self.ends.len() - 1;
        let Presence::Lacking = self.presence_at(alloc, 0)? else {
            return Ok(None);
        };
        let Presence::Present = self.presence_at(alloc, last)? else {
            return Ok(None);
        };
        if last == 0 {
            return Ok(None);
        }
        let between = self.between_headers(alloc, last)?;
        if self.is_dear(between) {
            return Ok(None);
        }
        let bounds = self.bounds(alloc, between)?;
        Ok(Some(Region {
            line: bounds.low + 1,
            start: self.ends[bounds.low],
            end: self.ends[bounds.high],
        }))
    }

    /// Returns fewer lines that lack the value and at most `last` that have it, if the front of no lines lacks it and
    /// the front of `last` lines has it: in a long text those before a header and before a later one, as far as these
    /// fronts are TOML.
    fn between_headers(&self, alloc: Global, last: usize) -> Result<Bounds, NoMemory>
        requires within { last < length self.now.ends.now }
        requires narrowed { spec.IsNarrowed (spec.presence_to self.now.steps.now self.now.text.now self.now.ends.now) 0 0 last }
        ensures { IfOk result (λ bounds. (bounds.high ≤ last) × spec.IsNarrowed (spec.presence_to self.now.steps.now self.now.text.now self.now.ends.now) bounds.low bounds.low bounds.high) }
    {
        let mut bounds = Bounds { low: 0, high: last };
        if self.text.len() <= MAX_LOCATED_BYTES {
            return Ok(bounds);
        }
        let headers = self.headers(alloc)?;
        let mut rest = headers.as_slice();
        while !rest.is_empty() {
            let (before, after) = rest.split_at(rest.len() / 2);
            let number = after[0];
            if number <= bounds.low || bounds.high <= number {
                return Ok(bounds);
            }
            match self.presence_at(alloc, number)? {
                Presence::NotToml => return Ok(bounds),
                Presence::Lacking => {
                    bounds.low = number;
                    rest = &after[1..];
                }
                Presence::Present => {
                    bounds.high = number;
                    rest = before;
                }
            }
        }
        Ok(bounds)
    }

    /// Returns how many lines are before each line that begins with a bracket, as a header does.
    fn headers(&self, alloc: Global) -> Result<Vec<usize>, NoMemory>
        ensures { IfOk result (λ numbers. numbers.items ≡ spec.headers_from 0 self.now.text.now self.now.ends.now) }
    {
        let mut numbers = Vec::new(alloc);
        let mut number = 0;
        for end in self.ends {
            if self.text.get(*end).copied() == Some(b'[') {
                numbers.push(number)?;
            }
            number += 1;
        }
        Ok(numbers)
    }

    /// Returns whether the text is long, and it takes too long to search between these lines.
    fn is_dear(&self, bounds: Bounds) -> bool
        ensures { result ≡ true → MAX_LOCATED_BYTES < length self.now.text.now }
    {
        self.text.len() > MAX_LOCATED_BYTES
            && bounds.high.saturating_sub(bounds.low) > MAX_SEARCHED_LINES / self.text.len()
    }

    /// Returns the lines before the value, and those of the next front that has it, if the first bound lacks it and the
    /// second has it.
    fn bounds(&self, alloc: Global, between: Bounds) -> Result<Bounds, NoMemory>
        requires within { between.high < length self.now.ends.now }
        requires narrowed { spec.IsNarrowed (spec.presence_to self.now.steps.now self.now.text.now self.now.ends.now) between.low between.low between.high }
        ensures { IfOk result (λ bounds. spec.BeginsBetween (spec.presence_to self.now.steps.now self.now.text.now self.now.ends.now) between.high bounds.low bounds.high) }
    {
        let mut low = between.low;
        let mut bound = between.low;
        let mut high = between.high;
        while bound + 1 < high {
            let middle = bound + (high - bound) / 2;
            match self.last_toml(alloc, bound, middle)? {
                Found::Nothing => bound = middle,
                Found::Lack(number) => {
                    low = number;
                    bound = middle;
                }
                Found::Has(number) => high = number,
            }
        }
        Ok(Bounds { low, high })
    }

    /// Returns the longest front of more than `bound` and at most `middle` lines that is a TOML document.
    fn last_toml(&self, alloc: Global, bound: usize, middle: usize) -> Result<Found, NoMemory>
        requires { middle < length self.now.ends.now }
        ensures { IfOk result (λ found. spec.IsLastToml (spec.presence_to self.now.steps.now self.now.text.now self.now.ends.now) bound middle found) }
    {
        let mut number = middle;
        while number > bound {
            match self.presence_at(alloc, number)? {
                Presence::NotToml => number -= 1,
                Presence::Lacking => return Ok(Found::Lack(number)),
                Presence::Present => return Ok(Found::Has(number)),
            }
        }
        Ok(Found::Nothing)
    }

    /// Returns whether the front of this number of lines has the value.
    fn presence_at(&self, alloc: Global, number: usize) -> Result<Presence, NoMemory>
        requires { number < length self.now.ends.now }
        ensures { GivesAnswer result (spec.presence_to self.now.steps.now self.now.text.now self.now.ends.now number) }
    {
        let front = front(self.text, self.ends[number]);
        presence_of(alloc, front, self.steps)
    }
}

/// Returns the first `count` bytes of a text, or all of them.
pub(crate) fn front(text: &[u8], count: usize) -> &[u8]
    ensures { result.now ≡ take count text.now }
{
    if count < text.len() {
        &text[..count]
    } else {
        text
    }
}

/// Returns whether these bytes have the value after these steps.
fn presence_of(alloc: Global, bytes: &[u8], steps: &[ValueStep]) -> Result<Presence, NoMemory>
    ensures { GivesAnswer result (spec.presence steps.now bytes.now) }
{
    match table_of(alloc, bytes)? {
        Some(table) => Ok(presence_in(&table, steps)),
        None => Ok(Presence::NotToml),
    }
}

fn presence_in(table: &Table, steps: &[ValueStep]) -> Presence
    ensures { result ≡ spec.presence_in steps.now (Some (table_view table.now)) }
{
    match value_in(steps, table) {
        Some(_) => Presence::Present,
        None => Presence::Lacking,
    }
}

/// Returns the table of these bytes, if they are a TOML document.
pub(crate) fn table_of(alloc: Global, bytes: &[u8]) -> Result<Option<Table>, NoMemory>
    ensures { IfOk result (λ table. option_map table_view table ≡ spec.table_of bytes.now) }
{
    match text_of(bytes) {
        Some(text) => parsed(alloc, text),
        None => Ok(None),
    }
}

fn parsed(alloc: Global, text: &str) -> Result<Option<Table>, NoMemory>
    ensures { IfOk result (λ table. option_map table_view table ≡ parse_document text.now) }
{
    match toml::table_from_str(alloc, text) {
        Ok(table) => Ok(Some(table)),
        Err(error) if error.is_memory() => Err(NoMemory),
        Err(_) => Ok(None),
    }
}

/// Returns the bytes as a text, if they are UTF-8.
fn text_of(bytes: &[u8]) -> Option<&str>
    ensures { option_copied result ≡ spec.text_of bytes.now }
{
    match str::from_utf8(bytes) {
        Ok(text) => Some(text),
        Err(_) => None,
    }
}
