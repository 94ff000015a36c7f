//! How files of sessions are written to their folder, and all of them at an orderly end.

ghost use Rattle.std.specs.Io.KnownBytes.{WriteAppends};
ghost use Rattle.std.specs.Prelude.{◌<◌, ◌≤◌, length, IfOk};
ghost use Rattle.sv_streams.specs.Standard.{IsWriteTo};

use crate::session_files::{SessionFolder, file_name, unavailable};
use std::alloc::Global;
use std::fs::{OpenFile, OpenOptions, remove_file, rename};
use std::io::{ErrorKind, Write};
use std::os::unix::fs::OpenOptionsExt;
use std::rt::Files;
use std::{fs, io};
use sv_container::Suspension;
use sv_lifecycle::SuspendedContext;
use sv_program::{CommandFault, Unavailable};
use sv_saved_sessions::{SaveFault, write_context};
use sv_streams::{Sink, Stream, WriteFailed};
use sv_uri::shown_context;

// The file mode of a file of sessions: only its owner reads and writes it.
const FILE_MODE: u32 = 0o600;

impl<H: Files + Eprint> SessionFolder<'_, H> {
    /// Writes a file for each context: first under another name and to the disk, then it takes the place of an older
    /// one. A file that cannot be written is reported on standard error, and the others are still written.
    ///
    /// # Errors
    /// [`CommandFault::File`] for the first file that cannot be written, or [`CommandFault::NoMemory`] if memory ran out
    /// for it. The older file of its context, if there is one, is unchanged.
    pub fn save(&self, key: &[u8; 32], suspension: &Suspension) -> Result<(), CommandFault> {
        let mut saved = Ok(());
        for context in suspension.contexts.as_slice() {
            let result = self.save_context(key, suspension.moment, context);
            saved = self.first_fault(saved, context.path.as_str(), result);
        }
        self.sync();
        saved
    }

    // Reports a fault of the file of the context at this path, and returns the first fault.
    fn first_fault(
        &self,
        first: Result<(), CommandFault>,
        path: &str,
        next: Result<(), CommandFault>,
    ) -> Result<(), CommandFault> {
        let Err(fault) = next else {
            return first;
        };
        // If standard error cannot be written, nothing is reported.
        let _ = eprintln!(self.host;
            "sv: sessions\n  {}: {}; the sessions of {} are not saved",
            self.name,
            reason_of(&fault),
            shown_context(path)
        );
        match first {
            Ok(()) => Err(fault),
            Err(first) => Err(first),
        }
    }

    fn save_context(
        &self,
        key: &[u8; 32],
        moment: u64,
        context: &SuspendedContext,
    ) -> Result<(), CommandFault> {
        let mut file = self.begin_file(context.path.as_str())?;
        match write_context(self.alloc, &mut file.sink, key, moment, context) {
            Ok(()) => self.place_synced(file),
            Err(fault) => Err(self.refuse(file, fault)),
        }
    }

    // Writes a whole file to the disk, and gives it its name. If that fails, the file is removed.
    fn place_synced(&self, file: UnfinishedFile<H::File>) -> Result<(), CommandFault> {
        match file.sink.file.sync_all() {
            Ok(()) => self.place(file),
            Err(error) => {
                let fault = self.fault(file.name.as_str(), error);
                self.discard(file);
                Err(fault)
            }
        }
    }

    /// Begins the file of the context at this path, under another name. An older file of that name, which was not
    /// finished, is removed.
    ///
    /// # Errors
    /// [`CommandFault::File`] if the file cannot be created, or [`CommandFault::NoMemory`].
    pub fn begin_file(&self, path: &str) -> Result<UnfinishedFile<H::File>, CommandFault> {
        let name = file_name(self.alloc, path)?;
        let name = self.path_of(name.as_str())?;
        let unfinished = format!(in self.alloc; "{name}.new")?;
        match self.create_file(unfinished.as_str()) {
            Ok(file) => Ok(UnfinishedFile {
                name,
                unfinished,
                sink: FileSink {
                    file,
                    why: Unavailable::Other,
                },
            }),
            Err(error) => Err(self.fault(name.as_str(), error)),
        }
    }

    // Creates a file that only its owner reads. An older one of this name is removed.
    fn create_file(&self, name: &str) -> io::Result<H::File> {
        match remove_file(self.host, name) {
            Ok(()) => {}
            Err(error) if error.kind() == ErrorKind::NotFound => {}
            Err(error) => return Err(error),
        }
        OpenOptions::new()
            .write(true)
            .create_new(true)
            .mode(FILE_MODE)
            .open(self.host, name)
    }

    /// Removes a file that cannot be written, and returns the fault for it.
    pub fn refuse(&self, file: UnfinishedFile<H::File>, fault: SaveFault) -> CommandFault {
        let name = file.name.as_str();
        let fault = match fault {
            SaveFault::NoMemory => CommandFault::NoMemory,
            SaveFault::WriteFailed => unavailable(self.alloc, name, file.sink.why),
            SaveFault::TooManyUsers => unavailable(self.alloc, name, Unavailable::Other),
        };
        self.discard(file);
        fault
    }

    /// Gives a whole file its name, in place of an older one.
    ///
    /// # Errors
    /// [`CommandFault::File`] or [`CommandFault::NoMemory`]; the file is removed, and the older one is unchanged.
    pub fn place(&self, file: UnfinishedFile<H::File>) -> Result<(), CommandFault> {
        let name = file.name.as_str();
        let placed = self.checked(name, rename(self.host, file.unfinished.as_str(), name));
        if placed.is_err() {
            self.discard(file);
        }
        placed
    }

    /// Removes a file that is not whole.
    pub fn discard(&self, file: UnfinishedFile<H::File>) {
        // If it stays, the next start removes it.
        let _ = remove_file(self.host, file.unfinished.as_str());
    }

    // Writes the names of the files to the disk, if the system can.
    fn sync(&self) {
        if let Ok(folder) = fs::open(self.host, self.name) {
            let _ = folder.sync_all();
        }
    }
}

/// Returns why a file could not be written.
pub(crate) fn reason_of(fault: &CommandFault) -> &'static str {
    match fault {
        CommandFault::File(_, why) => why.text(),
        _ => "memory ran out",
    }
}

/// The file of a context that is written under another name.
#[derive(Drop)]
pub(crate) struct UnfinishedFile<F> {
    // The name that it is given when it is whole.
    name: String,
    // Its name until then.
    unfinished: String,
    pub sink: FileSink<F>,
}

/// A file that is written, and why a write failed.
#[derive(Drop)]
pub(crate) struct FileSink<F> {
    file: F,
    why: Unavailable,
}

impl<F: Write> Stream for FileSink<F> {
    ghost makes = { λ before call after. IsWriteTo (F.contents before.file) call (F.contents after.file) };
}

impl<F: Write> Sink for FileSink<F> {
    fn write(&mut self, bytes: &[u8]) -> Result<usize, WriteFailed> {
        match write_some(&mut self.file, bytes) {
            Ok(count) => Ok(count),
            Err(why) => {
                self.why = why;
                Err(WriteFailed)
            }
        }
    }
}

fn write_some<F: Write>(file: &mut F, bytes: &[u8]) -> Result<usize, Unavailable>
    requires { 0 < length bytes.now }
    ensures within { IfOk result (λ count. (0 < count) × (count ≤ length bytes.now)) }
    ensures bytes { WriteAppends (F.contents file.old) (F.contents file.new) result bytes.now }
{
    for _ in 0..u64::MAX {
        match file.write(bytes) {
            Ok(0) => return Err(Unavailable::Other),
            Ok(count) => return Ok(count),
            Err(error) if error.kind() == ErrorKind::Interrupted => {}
            Err(error) => return Err(Unavailable::of(error.kind())),
        }
    }
    Err(Unavailable::Other)
}
