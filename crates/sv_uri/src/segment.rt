//! One segment of a path: its name, or the first of its faults.

ghost use Rattle.std.specs.Prelude.{◌≡◌};
ghost use Rattle.std.specs.List.{list_any};
ghost use Rattle.std.specs.Str.{is_utf8};
ghost use Rattle.sv_text.specs.Faults.{first_or};
ghost use Rattle.sv_uri.specs.Segment as spec;

use crate::fault::{CanonFault, PathFault};
use crate::separator::before_and_behind;
use percent_encoding::percent_decode;
use std::alloc::Global;
use std::borrow::CowSlice;
use std::str;

/// Returns whether the name is `.`, the segment itself.
pub(crate) fn is_same(name: &[u8]) -> bool
    ensures { result ≡ spec.is_same name.now }
{
    name == b".".as_slice()
}

/// Returns whether the name is `..`, the segment above.
pub(crate) fn is_parent(name: &[u8]) -> bool
    ensures { result ≡ spec.is_parent name.now }
{
    name == b"..".as_slice()
}

fn begins_with_digits(bytes: &[u8]) -> bool
    ensures { result ≡ spec.begins_with_digits bytes.now }
{
    match bytes {
        [high, low, ..] => high.is_ascii_hexdigit() && low.is_ascii_hexdigit(),
        _ => false,
    }
}

fn has_bad_escape(name: &[u8]) -> bool
    ensures { result ≡ spec.has_bad_escape name.now }
{
    name.split(|b| *b == b'%')
        .skip(1)
        .any(|behind_percent| !begins_with_digits(behind_percent))
}

fn has_control(name: &[u8]) -> bool
    ensures { result ≡ list_any spec.is_control name.now }
{
    name.iter().any(|b| *b < 32 || *b == 127)
}

fn is_utf8(name: &[u8]) -> bool
    ensures { result ≡ is_utf8 name.now }
{
    str::from_utf8(name).is_ok()
}

// Returns whether the name is `.` or `..` and was written in another form.
fn is_disguised(segment: &[u8], name: &[u8]) -> bool
    ensures { result ≡ spec.is_disguised segment.now name.now }
{
    (is_same(name) || is_parent(name)) && name != segment
}

// Returns whether the segment is a parameter without a name.
fn is_bare_parameter(segment: &[u8], name: &[u8]) -> bool
    ensures { result ≡ spec.is_bare_parameter segment.now name.now }
{
    name.is_empty() && segment.contains(&b';')
}

// Checks a decoded name and returns its first fault. `segment` is its written form.
fn check_name(segment: &[u8], name: &[u8]) -> Result<(), PathFault>
    ensures { result ≡ first_or (spec.name_faults segment.now name.now) tt }
{
    if name.contains(&b'/') {
        Err(PathFault::EncodedSlash)
    } else if name.contains(&b'\\') {
        Err(PathFault::Backslash)
    } else if has_control(name) {
        Err(PathFault::Control)
    } else if !is_utf8(name) {
        Err(PathFault::NotUtf8)
    } else if is_disguised(segment, name) {
        Err(PathFault::DotSegment)
    } else if is_bare_parameter(segment, name) {
        Err(PathFault::EmptyParameter)
    } else {
        Ok(())
    }
}

/// Returns the name of a segment, which is the part before its first `;`, decoded once, or its first fault. Allocates
/// memory only if there is an escape to decode.
pub(crate) fn read_name<'a>(
    alloc: Global,
    segment: &'a [u8],
) -> Result<CowSlice<'a, u8, Global>, CanonFault>
    ensures { spec.GivesName result segment.now }
{
    let (raw_name, _) = before_and_behind(segment, b';');
    if has_bad_escape(raw_name) {
        return Err(CanonFault::Path(PathFault::BadEscape));
    }
    let name = percent_decode(raw_name).into_cow(alloc)?;
    match check_name(segment, name.as_slice()) {
        Ok(()) => Ok(name),
        Err(fault) => Err(CanonFault::Path(fault)),
    }
}
