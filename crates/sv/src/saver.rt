//! How sessions are written to their folder while the program runs.

use crate::session_files::{SessionFolder, unavailable};
use crate::session_save::{UnfinishedFile, reason_of};
use std::mem;
use std::rt::Files;
use sv_component::{Filter, Listener, Servlet};
use sv_container::Container;
use sv_context::Context;
use sv_mapping::HasContextPath;
use sv_policy::HasPolicy;
use sv_program::{CommandFault, Unavailable};
use sv_run::Words;
use sv_saved_sessions::{FileWriter, SaveFault, SavedHead, copy_sessions};
use sv_session::{RestoreFault, Sessions};

// What it costs to begin and to finish a file, in sessions.
const FILE_COST: usize = 50;

/// Writes the files of the sessions of all contexts again and again, a part after each event. A file has its name only
/// when it is whole. It is not forced to the disk.
///
/// | Phase | Next |
/// |---|---|
/// | `Waiting` | when the next round is due: `Copying`, for the first context |
/// | `Copying` | when all sessions of the context are copied: `Writing` |
/// | `Writing` | when the file is whole: `Copying`, for the next context, or `Waiting` after the last |
///
/// After a fault the next context follows, and the sessions of this one are written in the next round.
#[derive(Drop)]
pub(crate) struct Saver<'a, H: Files> {
    folder: &'a SessionFolder<'a, H>,
    // The key of the files.
    key: [u8; 32],
    // The time from the beginning of a round to that of the next, in seconds.
    every: u32,
    // When the next round is due, in seconds since 1970.
    due: u64,
    // Whether this round has had a fault.
    is_faulty: bool,
    // Whether a fault was reported, and no round since then was without one.
    is_reported: bool,
    phase: Phase<H::File>,
}

/// What a saver does next.
#[derive(Drop)]
enum Phase<F> {
    /// Waits until the next round is due.
    Waiting,
    /// Copies sessions.
    Copying(Copying),
    /// Writes copies.
    Writing(Writing<F>),
}

/// The copying of the sessions of a context.
#[derive(Drop)]
struct Copying {
    // The place of the context.
    place: usize,
    // The number of the session that was copied last, or 0.
    after: u64,
    copies: Sessions,
}

/// The writing of the file of a context.
#[derive(Drop)]
struct Writing<F> {
    // The place of the context.
    place: usize,
    copies: Sessions,
    file: UnfinishedFile<F>,
    writer: FileWriter,
}

impl<'a, H: Files + Eprint> Saver<'a, H> {
    /// Creates a saver whose first round is due when the container has a time, and each further one this many seconds
    /// after the one before began.
    pub fn new(folder: &'a SessionFolder<'a, H>, key: [u8; 32], every: u32) -> Saver<'a, H> {
        Saver {
            folder,
            key,
            every,
            due: 1,
            is_faulty: false,
            is_reported: false,
            phase: Phase::Waiting,
        }
    }

    /// Copies or writes up to `count` sessions, if a round is due. A fault is reported on standard error, once until a
    /// round has none.
    pub fn go_on<S: Servlet, F: Filter, L: Listener, W: Words>(
        &mut self,
        container: &Container<S, F, L, W>,
        count: usize,
    ) {
        let mut left = count;
        for _ in 0..count {
            if left == 0 || self.is_idle(container.moment()) {
                return;
            }
            let cost = self.advance(container, left);
            left = left.saturating_sub(cost);
        }
    }

    /// Removes the file that is not whole, if there is one.
    pub fn end(self) {
        let Saver {
            folder,
            key: _,
            every: _,
            due: _,
            is_faulty: _,
            is_reported: _,
            phase,
        } = self;
        if let Phase::Writing(writing) = phase {
            folder.discard(writing.file);
        }
    }

    // Returns whether there is nothing to do at this time, in seconds since 1970.
    fn is_idle(&self, moment: u64) -> bool {
        matches!(&self.phase, Phase::Waiting) && moment < self.due
    }

    // Does the next step for up to `count` sessions, and returns for how many it counts.
    fn advance<S: Servlet, F: Filter, L: Listener, W: Words>(
        &mut self,
        container: &Container<S, F, L, W>,
        count: usize,
    ) -> usize {
        match mem::replace(&mut self.phase, Phase::Waiting) {
            Phase::Waiting => {
                self.begin_round(container.moment());
                0
            }
            Phase::Copying(copying) => self.copy(container, copying, count),
            Phase::Writing(writing) => self.write(writing, count),
        }
    }

    fn begin_round(&mut self, moment: u64) {
        self.due = moment.saturating_add(u64::from(self.every));
        self.is_faulty = false;
        self.begin_context(0);
    }

    fn begin_context(&mut self, place: usize) {
        self.phase = Phase::Copying(Copying {
            place,
            after: 0,
            copies: Sessions::new(self.folder.alloc, 0, 0),
        });
    }

    // Copies up to `count` sessions, and begins the file when all are copied. Ends the round if there is no such context.
    fn copy<S: Servlet, F: Filter, L: Listener, W: Words>(
        &mut self,
        container: &Container<S, F, L, W>,
        copying: Copying,
        count: usize,
    ) -> usize {
        let Copying {
            place,
            after,
            mut copies,
        } = copying;
        let Some(context) = container.contexts().get(place) else {
            self.is_reported = self.is_reported && self.is_faulty;
            return 0;
        };
        let before = copies.count();
        let alloc = self.folder.alloc;
        let copied = copy_sessions(alloc, context.sessions(), after, count, &mut copies);
        let cost = copies.count().saturating_sub(before);
        match copied {
            Ok(Some(after)) => {
                self.phase = Phase::Copying(Copying {
                    place,
                    after,
                    copies,
                });
            }
            Ok(None) => self.begin_writing(container.moment(), context, place, copies),
            Err(fault) => self.end_context(place, Err(self.copy_fault(fault))),
        }
        cost
    }

    fn begin_writing<S, F, L>(
        &mut self,
        moment: u64,
        context: &Context<S, F, L>,
        place: usize,
        copies: Sessions,
    ) {
        match self.begun_file(moment, context, &copies) {
            Ok((file, writer)) => {
                self.phase = Phase::Writing(Writing {
                    place,
                    copies,
                    file,
                    writer,
                });
            }
            Err(fault) => self.end_context(place, Err(fault)),
        }
    }

    // Begins the file of a context with these copies of its sessions.
    fn begun_file<S, F, L>(
        &self,
        moment: u64,
        context: &Context<S, F, L>,
        copies: &Sessions,
    ) -> Result<(UnfinishedFile<H::File>, FileWriter), CommandFault> {
        let mut file = self.folder.begin_file(context.context_path())?;
        let policy = context.policy();
        let head = SavedHead {
            path: context.context_path(),
            users: context.users(),
            declared: context.declared(),
            constraints: policy.constraints(),
            greatest: policy.greatest(),
        };
        let alloc = self.folder.alloc;
        match FileWriter::begin(alloc, &mut file.sink, &self.key, moment, head, copies) {
            Ok(writer) => Ok((file, writer)),
            Err(fault) => Err(self.folder.refuse(file, fault)),
        }
    }

    // Writes up to `count` sessions, and finishes the file when all are in it.
    fn write(&mut self, writing: Writing<H::File>, count: usize) -> usize {
        let Writing {
            place,
            copies,
            mut file,
            mut writer,
        } = writing;
        let written = writer.go_on(&mut file.sink, &copies, count);
        let cost = copies.count().saturating_add(FILE_COST);
        match written {
            Ok(true) => {
                let saved = self.finish(file, writer);
                self.end_context(place, saved);
                cost
            }
            Ok(false) => {
                self.phase = Phase::Writing(Writing {
                    place,
                    copies,
                    file,
                    writer,
                });
                count
            }
            Err(fault) => {
                let fault = self.folder.refuse(file, fault);
                self.end_context(place, Err(fault));
                cost
            }
        }
    }

    fn finish(
        &self,
        file: UnfinishedFile<H::File>,
        writer: FileWriter,
    ) -> Result<(), CommandFault> {
        let mut file = file;
        match writer.finish(&mut file.sink) {
            Ok(()) => self.folder.place(file),
            Err(fault) => Err(self.folder.refuse(file, fault)),
        }
    }

    // Begins the next context, after the sessions of this one were written or could not be.
    fn end_context(&mut self, place: usize, saved: Result<(), CommandFault>) {
        if let Err(fault) = saved {
            self.report(&fault);
        }
        self.begin_context(place.saturating_add(1));
    }

    fn report(&mut self, fault: &CommandFault) {
        self.is_faulty = true;
        if self.is_reported {
            return;
        }
        self.is_reported = true;
        // If standard error cannot be written, nothing is reported.
        let _ = eprintln!(self.folder.host;
            "sv: sessions\n  {}: {}; until they can be written, a kill loses what is not in the files",
            self.folder.name,
            reason_of(fault)
        );
    }

    fn copy_fault(&self, fault: RestoreFault) -> CommandFault {
        match fault {
            RestoreFault::NoMemory => CommandFault::NoMemory,
            RestoreFault::Unfit => {
                unavailable(self.folder.alloc, self.folder.name, Unavailable::Other)
            }
        }
    }
}
