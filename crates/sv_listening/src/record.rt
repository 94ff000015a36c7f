//! The journal of events.

ghost use Rattle.sv_text.specs.Gives.{GivesAnswer};
ghost use Rattle.sv_listening.specs.Lines as lines;

use crate::lines::{push_lines, push_lost};
use crate::recorder::Alarm;
use std::alloc::Global;
use std::marker::Model;
use sv_journal::Entry;
use sv_run::{Happening, moment_after};
use sv_streams::Sink;
use sv_text::{Bytes, NoMemory};

/// A journal of entries. Each event's entries take one write. If this write fails or is partial, or memory runs out,
/// only the entries of this event are lost. Lost events are counted, and a line with the count precedes the next
/// entries that are written.
#[derive(Drop)]
pub struct Record<O, A> {
    alloc: Global,
    output: O,
    alarm: A,
    lost: u64,
    moment: u64,
}

impl<O, A> Model for Record<O, A> {
    ghost use Rattle.sv_listening.specs.Recording.{Recorded};

    ghost Value = { Recorded O };

    ghost view = { λ r. record { output = r.output; lost = r.lost; moment = r.moment } };
}

impl<O: Sink, A: Alarm> Record<O, A> {
    ghost use Rattle.std.specs.Prelude.{◌≡◌, ◌<◌, length};
    ghost use Rattle.sv_listening.specs.Recording.{Writes, WritesEntries, WritesOnce, at_moment, one_more};
    ghost use Rattle.sv_run.specs.Seen.{happening_of};

    /// Creates a journal without entries.
    pub fn new(alloc: Global, output: O, alarm: A) -> Record<O, A>
        ensures { result ≡ record { output = output; lost = 0; moment = 0 } }
    {
        Record {
            alloc,
            output,
            alarm,
            lost: 0,
            moment: 0,
        }
    }

    /// Moves the time to the one after this event.
    pub(crate) fn reach(&mut self, happening: &Happening<'_>)
        ensures { self.new ≡ at_moment (happening_of happening.now) self.old }
    {
        self.moment = moment_after(self.moment, *happening);
    }

    /// Writes the entries of an event of this connection.
    pub(crate) fn write(&mut self, connection: Option<u64>, entries: &[Entry])
        ensures { Writes O.makes connection entries.now self.old self.new }
    {
        if !entries.is_empty() {
            self.write_entries(connection, entries);
        }
    }

    #[tactic(auto, using(crate::proofs::Texts::some_text))]
    fn write_entries(&mut self, connection: Option<u64>, entries: &[Entry])
        requires { 0 < length entries.now }
        ensures { WritesEntries O.makes connection entries.now self.old self.new }
    {
        match recorded_text(self.alloc, self.lost, self.moment, connection, entries) {
            Ok(text) => self.write_once(text.as_slice()),
            Err(_) => self.lose(),
        }
    }

    fn write_once(&mut self, text: &[u8])
        requires { 0 < length text.now }
        ensures { WritesOnce O.makes text.now self.old self.new }
    {
        match self.output.write(text) {
            Ok(count) if count == text.len() => self.lost = 0,
            Ok(_) => self.lose(),
            Err(_) => self.lose(),
        }
    }

    fn lose(&mut self)
        ensures { self.new ≡ record self.old { lost = one_more self.old.lost } }
    {
        if self.lost == 0 {
            self.alarm.is_losing();
        }
        self.lost = self.lost.saturating_add(1);
    }
}

// Returns the text that is written for an event.
fn recorded_text(
    alloc: Global,
    lost: u64,
    moment: u64,
    connection: Option<u64>,
    entries: &[Entry],
) -> Result<Bytes, NoMemory>
    ensures { GivesAnswer result (lines.recorded_text lost moment connection entries.now) }
{
    let mut text = Vec::new(alloc);
    push_lost(&mut text, moment, lost)?;
    push_lines(&mut text, moment, connection, entries)?;
    Ok(Bytes::from_vec(text))
}
