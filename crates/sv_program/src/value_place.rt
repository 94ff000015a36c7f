//! The place at which a value of a file begins.
//!
//! The TOML reader gives no places. So both truth values are written into the text, one after the other, at each place of
//! the lines on which the value begins, from the last place on, with brackets that close what is then open. The value
//! begins at the first place at which the reader finds them as the value. A table with a header begins at that.

ghost use Rattle.std.specs.Prelude.{◌≡◌, ◌++◌, ◌<◌, ◌≤◌, IfOk, OnOk, Some, length, option_map, string_bytes, take};
ghost use Rattle.std.specs.Bool.{Decides};
ghost use Rattle.sv_text.specs.Gives.{GivesAnswer};
ghost use Rattle.toml.specs.View.{table_view, view};
ghost use Rattle.sv_program.specs.Offending.{value_in as spec_value_in};
ghost use Rattle.sv_program.specs.ValuePlace as spec;

use crate::file_line::{Region, front, region_of, table_of};
use crate::limits::MAX_SAMPLED_BYTES;
use crate::offending_value::value_in;
use std::alloc::Global;
use sv_descriptor::ValueStep;
use sv_text::NoMemory;
use toml::{Table, Value};

/// The place of a value in a text.
#[derive(Clone, Copy)]
pub(crate) enum Spot {
    /// It is not known.
    Nowhere,
    /// Only its line is known, from 1.
    Line(usize),
    /// It begins after this number of bytes.
    Byte(usize),
}

/// Returns the place of the value after these steps, as far as it is known.
pub(crate) fn spot_of(alloc: Global, text: &[u8], steps: &[ValueStep]) -> Result<Spot, NoMemory>
    ensures { IfOk result (spec.IsSpot text.now steps.now) }
{
    let Some(region) = region_of(alloc, text, steps)? else {
        return Ok(Spot::Nowhere);
    };
    match byte_within(alloc, text, steps, region)? {
        Some(at) => Ok(Spot::Byte(at)),
        None => Ok(header_spot(text, region)),
    }
}

/// Returns the place of the header of a table that begins these lines, or else their first line.
fn header_spot(text: &[u8], region: Region) -> Spot
    ensures { result ≡ spec.header_spot text.now region }
{
    if text.get(region.start).copied() == Some(b'[') {
        Spot::Byte(region.start)
    } else {
        Spot::Line(region.line)
    }
}

/// Returns the place within these lines at which the value begins, if there is one and the places are few.
fn byte_within(
    alloc: Global,
    text: &[u8],
    steps: &[ValueStep],
    region: Region,
) -> Result<Option<usize>, NoMemory>
    requires { region.end ≤ length text.now }
    ensures { IfOk result (spec.IsByteWithin text.now steps.now region) }
{
    if region.end.saturating_sub(region.start) > MAX_SAMPLED_BYTES / (text.len() + 1) {
        return Ok(None);
    }
    let closers = closers(alloc, steps)?;
    let samples = Samples {
        text,
        steps,
        closers: closers.as_slice(),
    };
    samples.last_beginning(alloc, region.start, region.end)
}

/// Returns the brackets that close the tables and lists around a value, innermost first.
fn closers(alloc: Global, steps: &[ValueStep]) -> Result<Vec<u8>, NoMemory>
    ensures { IfOk result (λ brackets. brackets.items ≡ spec.closers steps.now) }
{
    match steps.split_first() {
        Some((_, rest)) => closers_of(alloc, rest),
        None => Ok(Vec::new(alloc)),
    }
}

fn closers_of(alloc: Global, steps: &[ValueStep]) -> Result<Vec<u8>, NoMemory>
    ensures { IfOk result (λ brackets. brackets.items ≡ spec.closers_of steps.now) }
{
    let mut brackets = Vec::new(alloc);
    for step in steps {
        brackets.insert(0, closer(step))?;
    }
    Ok(brackets)
}

fn closer(step: &ValueStep) -> u8
    ensures { result ≡ spec.closer step.now }
{
    match step {
        ValueStep::Key(_) => b'}',
        ValueStep::Item(_) => b']',
    }
}

/// A text, the steps to a value in it, and the brackets that close what is around the value.
#[derive(Clone, Copy)]
struct Samples<'a> {
    text: &'a [u8],
    steps: &'a [ValueStep],
    closers: &'a [u8],
}

impl Samples<'_> {
    ghost use Rattle.std.specs.Prelude.{◌≡◌, ◌<◌, ◌≤◌, IfOk, length};
    ghost use Rattle.std.specs.Bool.{Decides};
    ghost use Rattle.sv_program.specs.ValuePlace as spec;

    /// Returns the last place after `after`, and up to `last`, at which the value can begin.
    fn last_beginning(
        &self,
        alloc: Global,
        after: usize,
        last: usize,
    ) -> Result<Option<usize>, NoMemory>
        requires closers { self.now.closers.now ≡ spec.closers self.now.steps.now }
        requires within { last ≤ length self.now.text.now }
        ensures { IfOk result (spec.IsLastBeginning self.now.text.now self.now.steps.now after last) }
    {
        let mut at = last;
        while at > after {
            if self.can_begin(alloc, at)? {
                return Ok(Some(at));
            }
            at -= 1;
        }
        Ok(None)
    }

    /// Returns whether the value can begin at this place.
    fn can_begin(&self, alloc: Global, at: usize) -> Result<bool, NoMemory>
        requires closers { self.now.closers.now ≡ spec.closers self.now.steps.now }
        requires after { 0 < at }
        requires within { at ≤ length self.now.text.now }
        ensures { IfOk result (λ can. Decides can (spec.CanBegin self.now.text.now self.now.steps.now at)) }
    {
        if !precedes_value(self.text[at - 1]) {
            return Ok(false);
        }
        self.are_taken(alloc, front(self.text, at))
    }

    /// Returns whether both truth values are taken after these bytes, with some of the innermost brackets.
    fn are_taken(&self, alloc: Global, before: &[u8]) -> Result<bool, NoMemory>
        requires { self.now.closers.now ≡ spec.closers self.now.steps.now }
        ensures { IfOk result (λ are. Decides are (spec.AreTaken self.now.steps.now before.now)) }
    {
        let mut count = 0;
        while count <= self.closers.len() {
            if both_taken(alloc, self.steps, before, &self.closers[..count])? {
                return Ok(true);
            }
            count += 1;
        }
        Ok(false)
    }
}

/// Returns whether a value may follow this byte.
fn precedes_value(byte: u8) -> bool
    ensures { result ≡ spec.precedes_value byte }
{
    byte == b' '
        || (byte == b'\t' || (byte == b'\n' || (byte == b'=' || (byte == b'[' || byte == b','))))
}

/// Returns whether both truth values are the value after these steps, if they are written with the brackets after these
/// bytes.
fn both_taken(
    alloc: Global,
    steps: &[ValueStep],
    before: &[u8],
    brackets: &[u8],
) -> Result<bool, NoMemory>
    ensures { GivesAnswer result (spec.are_both_taken steps.now before.now brackets.now) }
{
    if is_taken(alloc, steps, before, brackets, true)? {
        is_taken(alloc, steps, before, brackets, false)
    } else {
        Ok(false)
    }
}

fn is_taken(
    alloc: Global,
    steps: &[ValueStep],
    before: &[u8],
    brackets: &[u8],
    sample: bool,
) -> Result<bool, NoMemory>
    ensures { GivesAnswer result (spec.is_taken steps.now before.now brackets.now sample) }
{
    let text = sampled(alloc, before, brackets, sample)?;
    match table_of(alloc, text.as_slice())? {
        Some(table) => Ok(is_sample_in(steps, &table, sample)),
        None => Ok(false),
    }
}

fn is_sample_in(steps: &[ValueStep], table: &Table, sample: bool) -> bool
    ensures { result ≡ spec.is_sample sample (spec_value_in steps.now (table_view table.now)) }
{
    match value_in(steps, table) {
        Some(value) => is_sample(value, sample),
        None => false,
    }
}

/// Returns the bytes with the truth value and the brackets after them.
fn sampled(alloc: Global, before: &[u8], brackets: &[u8], sample: bool) -> Result<Vec<u8>, NoMemory>
    ensures { IfOk result (λ text. text.items ≡ spec.sampled before.now sample brackets.now) }
{
    let mut text = Vec::with_capacity(alloc, before.len())?;
    text.extend_from_slice(before)?;
    text.extend_from_slice(if sample { b"true" } else { b"false" })?;
    text.extend_from_slice(brackets)?;
    Ok(text)
}

fn is_sample(value: &Value, sample: bool) -> bool
    ensures { result ≡ spec.is_sample sample (Some (view value.now)) }
{
    match value {
        Value::Boolean(held) => *held == sample,
        _ => false,
    }
}
