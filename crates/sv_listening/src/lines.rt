//! The journal lines of an event.

ghost use Rattle.std.specs.Prelude.{◌≡◌, ◌++◌, OnOk};
ghost use Rattle.sv_text.specs.Gives.{GivesAnswer};
ghost use Rattle.sv_listening.specs.Lines as spec;

use std::alloc::Global;
use sv_journal::Entry;
use sv_script::escaped;
use sv_text::{Bytes, NoMemory};

/// Returns the lines of an event. Each entry is a line: the time of the event, the number of its connection or `-` if
/// it has none, and the entry with unprintable bytes escaped.
///
/// # Errors
/// Memory ran out.
pub fn event_lines(
    alloc: Global,
    moment: u64,
    connection: Option<u64>,
    entries: &[Entry],
) -> Result<Bytes, NoMemory>
    ensures { GivesAnswer result (spec.event_lines moment connection entries.now) }
{
    let mut text = Vec::new(alloc);
    push_lines(&mut text, moment, connection, entries)?;
    Ok(Bytes::from_vec(text))
}

/// Appends the lines of an event.
pub(crate) fn push_lines(
    text: &mut Vec<u8>,
    moment: u64,
    connection: Option<u64>,
    entries: &[Entry],
) -> Result<(), NoMemory>
    ensures { OnOk result (text.new.items ≡ text.old.items ++ spec.event_lines moment connection entries.now) }
{
    for entry in entries {
        push_line(text, moment, connection, entry)?;
    }
    Ok(())
}

fn push_line(
    text: &mut Vec<u8>,
    moment: u64,
    connection: Option<u64>,
    entry: &Entry,
) -> Result<(), NoMemory>
    ensures { OnOk result (text.new.items ≡ text.old.items ++ spec.event_line moment connection entry.now) }
{
    push_place(text, moment, connection)?;
    push_entry(text, entry)?;
    text.push(b'\n')?;
    Ok(())
}

// Appends the time of an event and its connection.
fn push_place(text: &mut Vec<u8>, moment: u64, connection: Option<u64>) -> Result<(), NoMemory>
    ensures { OnOk result (text.new.items ≡ text.old.items ++ spec.place_text moment connection) }
{
    let place = match connection {
        Some(number) => format!(in *text.allocator(); "{moment} {number} ")?,
        None => format!(in *text.allocator(); "{moment} - ")?,
    };
    text.extend_from_slice(place.as_bytes())?;
    Ok(())
}

fn push_entry(text: &mut Vec<u8>, entry: &Entry) -> Result<(), NoMemory>
    ensures { OnOk result (text.new.items ≡ text.old.items ++ spec.shown_entry entry.now) }
{
    let alloc = *text.allocator();
    let plain = format!(in alloc; "{entry}")?;
    let shown = escaped(alloc, plain.as_bytes())?;
    text.extend_from_slice(shown.as_slice())?;
    Ok(())
}

/// Appends the line that counts the events with lost entries, if there are any. A line feed precedes it, since the last
/// line may have been cut.
pub(crate) fn push_lost(text: &mut Vec<u8>, moment: u64, lost: u64) -> Result<(), NoMemory>
    ensures { OnOk result (text.new.items ≡ text.old.items ++ spec.lost_lines moment lost) }
{
    if lost == 0 {
        return Ok(());
    }
    let line = format!(in *text.allocator(); "\n{moment} - lost {lost}\n")?;
    text.extend_from_slice(line.as_bytes())?;
    Ok(())
}
