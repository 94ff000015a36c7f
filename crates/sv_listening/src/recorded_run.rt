//! Serving all connections of an address at once, with a socket file and a journal.

ghost use Rattle.sv_listening.specs.Laws.{IsTakenWithin};
ghost use Rattle.sv_run.specs.Contexts.{theory_of};

use crate::record::Record;
use crate::recorder::{Alarm, Recorder};
use crate::server::{ListenOptions, run_controlled};
use crate::sockets::file_fault;
use std::alloc::Global;
use std::fs::OpenOptions;
use std::io;
use std::io::Write;
use std::net::Net;
use std::rt::Files;
use std::time::Clock;
use sv_connection::Queries;
use sv_program::CommandFault;
use sv_run::{Context, EventHandler, Words};
use sv_streams::{Sink, WriteSink};

/// Serves as [`run_controlled`] does, appends the entries of events to the file of this name, and returns the handler.
///
/// # Errors
/// [`CommandFault::File`] if this file cannot be opened; then those of [`run_controlled`].
pub fn run_recorded<H: Net + Clock + Files + Eprint, W: Write, R: EventHandler + Queries>(
    alloc: Global,
    host: &H,
    writer: &mut W,
    options: ListenOptions<'_>,
    name: &str,
    handler: R,
) -> (Result<(), CommandFault>, R) {
    let file = match open_to_append(host, name) {
        Ok(file) => file,
        Err(error) => return (Err(file_fault(alloc, name, error)), handler),
    };
    let record = Record::new(alloc, WriteSink::new(file), StandardError { host, name });
    let recorder = Recorder::new(handler, record);
    let (served, recorder) = run_controlled(alloc, host, writer, options, recorder);
    (served, recorder.into_within())
}

// Opens a file to append to it, and creates it if it is missing.
fn open_to_append<H: Files>(host: &H, name: &str) -> io::Result<H::File> {
    OpenOptions::new()
        .append(true)
        .create(true)
        .open(host, name)
}

// Reports lost entries on standard error.
#[derive(Drop)]
struct StandardError<'a, H> {
    host: &'a H,
    // The name of the journal.
    name: &'a str,
}

impl<H: Eprint> Alarm for StandardError<'_, H> {
    fn is_losing(&mut self) {
        // If standard error cannot be written, the journal reports the loss once it can be written.
        let _ = eprintln!(self.host;
            "sv: journal\n  {}: it cannot be written; its lines are lost until it can",
            self.name
        );
    }
}

/// Recorded events are a run. If a handler takes each event as the run of a container does, so does a recorder of it.
pub fn what_is_recorded_is_a_run<R: EventHandler, O: Sink, A: Alarm, C: Context, W: Words>()
    ensures { IsTakenWithin R.steps ⟦<Recorder<R, O, A> as EventHandler>⟧.steps (λ recorder. recorder.within) (theory_of C.path_of C.conduct W.draws) }
{}
