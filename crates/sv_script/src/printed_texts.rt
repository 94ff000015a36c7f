//! The texts that a replay prints.

ghost use Rattle.std.specs.Prelude.{◌≡◌, ◌++◌, OnOk};
ghost use Rattle.std.specs.Fmt.{decimal};
ghost use Rattle.sv_text.specs.Gives.{GivesAnswer};
ghost use Rattle.sv_script.specs.Printed as spec;

use crate::escape::push_escaped;
use std::alloc::Global;
use sv_journal::Entry;
use sv_policy::EditFault;
use sv_text::{Bytes, NoMemory};

/// Returns the text of the start: the line `start`, and a line for each entry.
///
/// # Errors
/// `NoMemory` if an allocation fails.
pub fn start_text(alloc: Global, entries: &[Entry]) -> Result<Bytes, NoMemory>
    ensures { GivesAnswer result (spec.start_text entries.now) }
{
    let mut text = Vec::new(alloc);
    text.extend_from_slice(b"start\n")?;
    push_entries(&mut text, entries)?;
    Ok(Bytes::from_vec(text))
}

/// Returns the text of an accepted event by its number, counted from 1. It has the line `event K`, a line for each
/// entry of the event, `sends TEXT` if it sent bytes, `closes` if it closed the connection, and for an edit `edited N`
/// or `edit refused CODE`.
///
/// # Errors
/// `NoMemory` if an allocation fails.
pub fn event_text(
    alloc: Global,
    number: u64,
    entries: &[Entry],
    sends: &[u8],
    closes: bool,
    edited: Option<Result<u64, EditFault>>,
) -> Result<Bytes, NoMemory>
    ensures { GivesAnswer result (spec.event_text number entries.now sends.now closes edited) }
{
    let mut text = format!(in alloc; "event {number}\n")?.into_bytes();
    push_entries(&mut text, entries)?;
    push_sends(&mut text, sends)?;
    push_closes(&mut text, closes)?;
    push_edited(&mut text, edited)?;
    Ok(Bytes::from_vec(text))
}

/// Returns the text of the shutdown: the line `shutdown`, and a line for each entry.
///
/// # Errors
/// `NoMemory` if an allocation fails.
pub fn shutdown_text(alloc: Global, entries: &[Entry]) -> Result<Bytes, NoMemory>
    ensures { GivesAnswer result (spec.shutdown_text entries.now) }
{
    let mut text = Vec::new(alloc);
    text.extend_from_slice(b"shutdown\n")?;
    push_entries(&mut text, entries)?;
    Ok(Bytes::from_vec(text))
}

fn push_entries(text: &mut Vec<u8>, entries: &[Entry]) -> Result<(), NoMemory>
    ensures { OnOk result (text.new.items ≡ text.old.items ++ spec.entry_lines entries.now) }
{
    for entry in entries {
        push_entry(text, entry)?;
    }
    Ok(())
}

fn push_entry(text: &mut Vec<u8>, entry: &Entry) -> Result<(), NoMemory>
    ensures { OnOk result (text.new.items ≡ text.old.items ++ spec.entry_line entry.now) }
{
    let line = format!(in *text.allocator(); "{entry}\n")?;
    text.extend_from_slice(line.as_bytes())?;
    Ok(())
}

fn push_sends(text: &mut Vec<u8>, sends: &[u8]) -> Result<(), NoMemory>
    ensures { OnOk result (text.new.items ≡ text.old.items ++ spec.sends_lines sends.now) }
{
    if sends.is_empty() {
        return Ok(());
    }
    text.extend_from_slice(b"sends ")?;
    push_escaped(text, sends)?;
    text.push(b'\n')?;
    Ok(())
}

fn push_closes(text: &mut Vec<u8>, closes: bool) -> Result<(), NoMemory>
    ensures { OnOk result (text.new.items ≡ text.old.items ++ spec.closes_lines closes) }
{
    if closes {
        text.extend_from_slice(b"closes\n")?;
    }
    Ok(())
}

fn push_edited(text: &mut Vec<u8>, edited: Option<Result<u64, EditFault>>) -> Result<(), NoMemory>
    ensures { OnOk result (text.new.items ≡ text.old.items ++ spec.edited_lines edited) }
{
    match edited {
        None => Ok(()),
        Some(Ok(number)) => push_number(text, "edited ", number),
        Some(Err(fault)) => push_number(text, "edit refused ", edit_code(fault)),
    }
}

// Appends a line of a word and a number.
fn push_number(text: &mut Vec<u8>, word: &str, number: u64) -> Result<(), NoMemory>
    ensures { OnOk result (text.new.items ≡ text.old.items ++ spec.line_of (word.now ++ decimal number)) }
{
    let line = format!(in *text.allocator(); "{word}{number}\n")?;
    text.extend_from_slice(line.as_bytes())?;
    Ok(())
}

fn edit_code(fault: EditFault) -> u64
    ensures { result ≡ spec.edit_code fault }
{
    match fault {
        EditFault::NoSuch => 1,
        EditFault::TooMany => 2,
        EditFault::NumberSpent => 3,
        EditFault::NoMemory => 4,
    }
}
