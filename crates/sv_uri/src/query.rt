//! Queries of targets, in visible bytes.

ghost use Rattle.std.specs.Option.{option_copied, option_map};
ghost use Rattle.sv_text.specs.Gives.{GivesAnswer};
ghost use Rattle.sv_uri.specs.Target as target;

use percent_encoding::{AsciiSet, CONTROLS, ascii_set, percent_encode};
use std::alloc::Global;
use std::borrow::CowStr;
use sv_text::{NoMemory, Text};

// The bytes below 128 that are written as escapes, as are all bytes from 128 on.
const ESCAPED: AsciiSet = ascii_set!(CONTROLS.add(b' '));

fn visible_query(alloc: Global, query: &[u8]) -> Result<Text, NoMemory>
    ensures { GivesAnswer result (target.visible_query query.now) }
{
    match percent_encode(query, ESCAPED).into_cow(alloc)? {
        CowStr::Borrowed(text) => Text::copy_of(alloc, text),
        CowStr::Owned(text) => Ok(Text::from_string(text)),
    }
}

/// Returns the query of a target, if it has one, with each byte outside 33 to 126 as an escape.
pub(crate) fn read_query(alloc: Global, query: Option<&[u8]>) -> Result<Option<Text>, NoMemory>
    ensures { GivesAnswer result (option_map target.visible_query (option_copied query.entry)) }
{
    match query {
        Some(query) => Ok(Some(visible_query(alloc, query)?)),
        None => Ok(None),
    }
}
