//! Writing lines to an access log.

ghost use Rattle.std.specs.Prelude.{◌≡◌, IfOk, string_bytes};
ghost use Rattle.sv_access_log.specs.Writing as spec;

use crate::access_source::AccessSource;
use crate::circumstances::LogFormat;
use crate::dates::date_at;
use crate::event_lines::{Scene, event_lines};
use std::alloc::Global;
use std::marker::Model;
use std::net::IpAddr;
use sv_journal::Entry;
use sv_run::{Happening, moment_after};
use sv_streams::Sink;
use sv_text::{NoMemory, Text};

/// An access log. The lines of an event take one write. If this write fails or is partial, or memory runs out, only the
/// lines of this event are lost. Lost lines are counted. Since a partial write may end within a line, the next lines are
/// then preceded by a line feed.
#[derive(Drop)]
pub struct LogWriter<O, A> {
    alloc: Global,
    output: O,
    alarm: A,
    format: LogFormat,
    lost: u64,
    torn: bool,
    moment: u64,
}

/// The parts of an event's lines of which nothing is proved.
#[derive(Clone, Copy)]
pub(crate) struct Client {
    pub(crate) address: Option<IpAddr>,
    /// The microseconds that the first message took.
    pub(crate) first_micros: u64,
    /// The microseconds that each later message took.
    pub(crate) later_micros: u64,
}

impl<O, A> Model for LogWriter<O, A> {
    ghost use Rattle.sv_access_log.specs.Writing.{LogState};

    ghost Value = { LogState O };

    ghost view = { λ w. record { output = w.output; format = w.format; lost = w.lost; torn = w.torn; moment = w.moment } };
}

impl<O, A> LogWriter<O, A> {
    ghost use Rattle.std.specs.Prelude.{◌≡◌, false};

    /// Creates a log without lines.
    pub fn new(alloc: Global, format: LogFormat, output: O, alarm: A) -> LogWriter<O, A>
        ensures { result ≡ record { output = output; format = format; lost = 0; torn = false; moment = 0 } }
    {
        LogWriter {
            alloc,
            output,
            alarm,
            format,
            lost: 0,
            torn: false,
            moment: 0,
        }
    }

    /// Returns the number of lines that were lost.
    pub fn lost(&self) -> u64
        ensures { result ≡ self.now.lost }
    {
        self.lost
    }
}

impl<O: Sink, A: LossAlarm> LogWriter<O, A> {
    ghost use Rattle.std.specs.Prelude.{◌≡◌, ◌<◌, IfOk, length, string_bytes};
    ghost use Rattle.sv_access_log.specs.Answered.{event_lines};
    ghost use Rattle.sv_access_log.specs.Writing.{IsScene, WritesLines, WritesOnce, WritesScene, at_moment, losing, written_text};
    ghost use Rattle.sv_run.specs.Seen.{happening_of};

    /// Moves the time to the one after an event.
    pub(crate) fn reach(&mut self, happening: Happening)
        ensures { self.new ≡ at_moment (happening_of happening.entry) self.old }
    {
        self.moment = moment_after(self.moment, happening);
    }

    /// Writes the lines of the last event of a handler, with its journal.
    pub(crate) fn write<R: AccessSource>(&mut self, source: &R, journal: &[Entry], client: Client)
        requires { 0 < length (R.answered source.now).accesses }
        ensures { WritesLines O.makes (R.answered source.now) journal.now self.old self.new }
    {
        match self.scene(client) {
            Ok(scene) => self.write_scene(source, journal, &scene),
            Err(_) => self.lose(source.accesses().len()),
        }
    }

    #[tactic(auto, using(crate::proofs::Texts::some_text))]
    fn write_scene<R: AccessSource>(&mut self, source: &R, journal: &[Entry], scene: &Scene)
        requires { 0 < length (R.answered source.now).accesses }
        ensures { WritesScene O.makes (R.answered source.now) journal.now scene.now self.old self.new }
    {
        let count = source.accesses().len();
        match self.text(source, journal, scene) {
            Ok(text) => self.write_once(text.as_str(), count),
            Err(_) => self.lose(count),
        }
    }

    // Returns the text that is written for an event.
    fn text<R: AccessSource>(
        &self,
        source: &R,
        journal: &[Entry],
        scene: &Scene,
    ) -> Result<String, NoMemory>
        ensures { IfOk result (λ text. string_bytes text ≡ written_text self.now.torn (event_lines (R.answered source.now) journal.now scene.now)) }
    {
        let lines = event_lines(self.alloc, source, journal, scene)?;
        written_text(self.alloc, self.torn, lines)
    }

    fn scene(&self, client: Client) -> Result<Scene, NoMemory>
        ensures { IfOk result (λ scene. IsScene self.now scene) }
    {
        let address = match client.address {
            Some(address) => Some(Text::from_string(format!(in self.alloc; "{address}")?)),
            None => None,
        };
        Ok(Scene {
            format: self.format,
            date: date_at(self.moment),
            address,
            first_micros: client.first_micros,
            later_micros: client.later_micros,
        })
    }

    fn write_once(&mut self, text: &str, count: usize)
        requires { 0 < length text.now }
        ensures { WritesOnce O.makes count text.now self.old self.new }
    {
        match self.output.write(text.as_bytes()) {
            Ok(taken) if taken == text.len() => self.torn = false,
            Ok(_) => {
                self.torn = true;
                self.lose(count);
            }
            Err(_) => self.lose(count),
        }
    }

    fn lose(&mut self, count: usize)
        ensures { self.new ≡ losing count self.old }
    {
        if self.lost == 0 {
            self.alarm.is_losing();
        }
        self.lost = self.lost.saturating_add(count as u64);
    }
}

// Returns the lines, after the end of a line that may have been cut.
fn written_text(alloc: Global, torn: bool, lines: String) -> Result<String, NoMemory>
    ensures { IfOk result (λ text. string_bytes text ≡ spec.written_text torn (string_bytes lines)) }
{
    if torn {
        Ok(format!(in alloc; "\n{lines}")?)
    } else {
        Ok(lines)
    }
}

/// An alarm for lost lines of an access log.
pub trait LossAlarm {
    /// Reports that lines are lost, for the first time.
    fn is_losing(&mut self);
}
