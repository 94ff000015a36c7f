//! The files of a folder in which sessions outlive a restart: how a start reads and removes them.

use crate::session_name::session_name;
use std::alloc::Global;
use std::fs::{DirBuilder, metadata, read_dir, remove_file, rename};
use std::io::{ErrorKind, Read};
use std::os::unix::fs::DirBuilderExt;
use std::rt::Files;
use std::{fs, io};
use sv_container::Suspension;
use sv_lifecycle::SuspendedContext;
use sv_program::{CommandFault, Unavailable};
use sv_saved_sessions::{ReadingFault, SavedContext, read_context};
use sv_text::{NoMemory, Text};

// The file mode of a new folder: only its owner reads and writes it.
const FOLDER_MODE: u32 = 0o700;

// The end of the name of a file of sessions.
const ENDING: &str = ".sessions";

// The end of the name of such a file while it is written.
const UNFINISHED_ENDING: &str = ".sessions.new";

// The end of the name under which a refused file is kept.
const REFUSED_ENDING: &str = ".refused";

/// A folder in which sessions outlive a restart.
#[derive(Drop)]
pub(crate) struct SessionFolder<'a, H> {
    pub alloc: Global,
    pub host: &'a H,
    /// The name of the folder.
    pub name: &'a str,
}

/// Why a file of sessions is refused.
#[derive(Clone, Copy)]
enum Refusal {
    /// The code at its end does not fit.
    Foreign,
    /// Its content is none of the format.
    Damaged,
    /// Its name is that of another context.
    OtherContext,
    /// No context of the server took it: none has its path, or the constraints of that one do not fit.
    Untaken,
}

impl Refusal {
    fn text(self) -> &'static str {
        match self {
            Refusal::Foreign => "it was cut or changed, or written with another seed",
            Refusal::Damaged => "its format is not known",
            Refusal::OtherContext => "it is the file of another context",
            Refusal::Untaken => {
                "the server has no such context, or one whose constraints do not fit"
            }
        }
    }
}

/// A file that a start found in the folder: a file of sessions, or one that was not finished.
#[derive(Drop)]
pub(crate) struct FoundFile {
    // Its name in the folder.
    name: String,
    refusal: Option<Refusal>,
}

/// The files in the folder, and the contexts that were read from them.
#[derive(Drop)]
pub(crate) struct FoundSessions {
    pub files: Vec<FoundFile>,
    pub suspension: Suspension,
}

impl FoundSessions {
    fn none(alloc: Global) -> FoundSessions {
        FoundSessions {
            files: Vec::new(alloc),
            suspension: Suspension {
                moment: 0,
                contexts: Vec::new(alloc),
            },
        }
    }

    // Adds a file with the reason for which it is refused, if there is one.
    fn add(&mut self, name: String, refusal: Option<Refusal>) -> Result<(), NoMemory> {
        self.files.push(FoundFile { name, refusal })?;
        Ok(())
    }

    // Adds a file of sessions and what was read from it.
    fn add_read(
        &mut self,
        alloc: Global,
        name: String,
        saved: SavedContext,
    ) -> Result<(), NoMemory> {
        let own = file_name(alloc, saved.context.path.as_str())?;
        if own.as_str() != name.as_str() {
            return self.add(name, Some(Refusal::OtherContext));
        }
        let SavedContext { moment, context } = saved;
        self.suspension.moment = self.suspension.moment.max(moment);
        self.suspension.contexts.push(context)?;
        self.add(name, None)
    }
}

/// Refuses the files of suspended contexts that no context of the server took.
///
/// # Errors
/// [`NoMemory`].
pub(crate) fn refuse_untaken(
    alloc: Global,
    files: &mut [FoundFile],
    untaken: &[SuspendedContext],
) -> Result<(), NoMemory> {
    for context in untaken {
        let name = file_name(alloc, context.path.as_str())?;
        refuse_named(files, name.as_str());
    }
    Ok(())
}

fn refuse_named(files: &mut [FoundFile], name: &str) {
    for place in 0..files.len() {
        if files[place].name.as_str() == name {
            files[place].refusal = Some(Refusal::Untaken);
        }
    }
}

/// Returns the name of the file of a context in the folder.
///
/// # Errors
/// [`NoMemory`].
pub(crate) fn file_name(alloc: Global, path: &str) -> Result<String, NoMemory> {
    let mut name = session_name(alloc, path)?;
    name.push_str(ENDING)?;
    Ok(name)
}

impl<H: Files + Eprint> SessionFolder<'_, H> {
    /// Creates the folder if it is missing, and reads the files of sessions in it. It changes no file.
    ///
    /// # Errors
    /// [`CommandFault::File`] if the folder cannot be created, or if it or a file of sessions cannot be read, or
    /// [`CommandFault::NoMemory`].
    pub fn read(&self, key: &[u8; 32]) -> Result<FoundSessions, CommandFault> {
        let mut found = FoundSessions::none(self.alloc);
        for name in self.names()? {
            self.read_into(&mut found, key, name)?;
        }
        Ok(found)
    }

    /// Creates the folder if it is missing, and finds the files of sessions in it, which it does not read.
    ///
    /// # Errors
    /// [`CommandFault::File`] if the folder cannot be created or read, or [`CommandFault::NoMemory`].
    pub fn list(&self) -> Result<FoundSessions, CommandFault> {
        let mut found = FoundSessions::none(self.alloc);
        for name in self.names()? {
            found.add(name, None)?;
        }
        Ok(found)
    }

    /// Removes the files that a start found, and keeps those that are refused under another name, each with a line on
    /// standard error.
    ///
    /// # Errors
    /// [`CommandFault::File`] for the first file that cannot be removed or renamed, or [`CommandFault::NoMemory`]. The
    /// files after it are still there.
    pub fn settle(&self, files: &[FoundFile]) -> Result<(), CommandFault> {
        for file in files {
            self.settle_file(file)?;
        }
        Ok(())
    }

    fn settle_file(&self, file: &FoundFile) -> Result<(), CommandFault> {
        let path = self.path_of(file.name.as_str())?;
        match file.refusal {
            Some(refusal) => self.keep_refused(path.as_str(), refusal),
            None => self.checked(path.as_str(), remove_file(self.host, path.as_str())),
        }
    }

    fn keep_refused(&self, path: &str, refusal: Refusal) -> Result<(), CommandFault> {
        let front = path.strip_suffix(ENDING).unwrap_or(path);
        let kept = format!(in self.alloc; "{front}{REFUSED_ENDING}")?;
        // If standard error cannot be written, nothing is reported.
        let _ = eprintln!(self.host;
            "sv: sessions\n  {path}: {}; it is kept as {kept}",
            refusal.text()
        );
        self.checked(path, rename(self.host, path, kept.as_str()))
    }

    // Reads a file of sessions. One that was not finished is only listed.
    fn read_into(
        &self,
        found: &mut FoundSessions,
        key: &[u8; 32],
        name: String,
    ) -> Result<(), CommandFault> {
        if name.as_str().ends_with(UNFINISHED_ENDING) {
            found.add(name, None)?;
            return Ok(());
        }
        let path = self.path_of(name.as_str())?;
        let bytes = match read_whole(self.alloc, self.host, path.as_str()) {
            Ok(bytes) => bytes,
            Err(error) => return Err(self.fault(path.as_str(), error)),
        };
        let added = match read_context(self.alloc, bytes.as_slice(), key) {
            Ok(saved) => found.add_read(self.alloc, name, saved),
            Err(ReadingFault::Foreign) => found.add(name, Some(Refusal::Foreign)),
            Err(ReadingFault::Damaged) => found.add(name, Some(Refusal::Damaged)),
            Err(ReadingFault::NoMemory) => Err(NoMemory),
        };
        added?;
        Ok(())
    }

    // Returns the names of the files of sessions in the folder, in order, with those of files that were not finished.
    fn names(&self) -> Result<Vec<String>, CommandFault> {
        self.create()?;
        match names_in(self.alloc, self.host, self.name) {
            Ok(names) => Ok(names),
            Err(error) => Err(self.fault(self.name, error)),
        }
    }

    // Creates the folder, unless it is there.
    fn create(&self) -> Result<(), CommandFault> {
        let created = DirBuilder::new()
            .mode(FOLDER_MODE)
            .create(self.host, self.name);
        match created {
            Ok(()) => Ok(()),
            Err(error) if error.kind() == ErrorKind::AlreadyExists => self.check_folder(),
            Err(error) => Err(self.fault(self.name, error)),
        }
    }

    fn check_folder(&self) -> Result<(), CommandFault> {
        match metadata(self.host, self.name) {
            Ok(found) if found.is_dir() => Ok(()),
            Ok(_) => Err(unavailable(self.alloc, self.name, Unavailable::NotDirectory)),
            Err(error) => Err(self.fault(self.name, error)),
        }
    }

    /// Returns the name of a file of the folder, for the system.
    ///
    /// # Errors
    /// [`NoMemory`].
    pub fn path_of(&self, file: &str) -> Result<String, NoMemory> {
        Ok(format!(in self.alloc; "{}/{file}", self.name)?)
    }

    /// Returns a result for the file of this name.
    pub fn checked(&self, name: &str, done: io::Result<()>) -> Result<(), CommandFault> {
        match done {
            Ok(()) => Ok(()),
            Err(error) => Err(self.fault(name, error)),
        }
    }

    /// Returns the fault for a file of this name that cannot be used.
    pub fn fault(&self, name: &str, error: io::Error) -> CommandFault {
        match error.kind() {
            ErrorKind::OutOfMemory => CommandFault::NoMemory,
            kind => unavailable(self.alloc, name, Unavailable::of(kind)),
        }
    }
}

/// Returns the fault for a file of this name that is not available.
pub(crate) fn unavailable(alloc: Global, name: &str, why: Unavailable) -> CommandFault {
    match Text::copy_of(alloc, name) {
        Ok(name) => CommandFault::File(name, why),
        Err(NoMemory) => CommandFault::NoMemory,
    }
}

fn names_in<H: Files>(alloc: Global, host: &H, folder: &str) -> io::Result<Vec<String>> {
    let mut names = Vec::new(alloc);
    for entry in read_dir(&(host, alloc), folder)? {
        match entry {
            Ok(entry) => push_name(alloc, &mut names, entry.file_name())?,
            // No file of sessions has such a name.
            Err(error) if error.kind() == ErrorKind::InvalidFilename => {}
            Err(error) => return Err(error),
        }
    }
    names.sort()?;
    Ok(names)
}

fn push_name(alloc: Global, names: &mut Vec<String>, name: &str) -> io::Result<()> {
    if name.ends_with(ENDING) || name.ends_with(UNFINISHED_ENDING) {
        names.push(String::from_str(alloc, name)?)?;
    }
    Ok(())
}

// Reads a regular file. Any other file, as a FIFO, is refused before it is opened: opening it may wait forever.
fn read_whole<H: Files>(alloc: Global, host: &H, name: &str) -> io::Result<Vec<u8>> {
    let found = metadata(host, name)?;
    if !found.is_file() {
        return Err(io::Error::from(ErrorKind::Unsupported));
    }
    let mut bytes = Vec::with_capacity(alloc, found.len() as usize)?;
    let mut file = fs::open(host, name)?;
    file.read_to_end(&mut bytes)?;
    Ok(bytes)
}
