//! The files of the operating system. No contract describes their contents.

ghost use Rattle.std.specs.Prelude.{◌≡◌};

use crate::limits::MAX_FILE_BYTES;
use crate::unavailable::Unavailable;
use std::alloc::Global;
use std::io::{ErrorKind, Read};
use std::rt::Files;
use std::{fs, io};
use sv_text::{NoMemory, Text};

/// The files that a handle opens. Relative names start at the working directory.
#[derive(Clone, Copy)]
pub struct Disk<'a, F> {
    files: &'a F,
}

impl<'a, F: Files> Disk<'a, F> {
    /// Creates a store of the files that this handle opens.
    pub fn new(files: &'a F) -> Disk<'a, F>
        ensures { result.files ≡ files.entry }
    {
        Disk { files }
    }

    /// Returns the handle.
    pub fn handle(&self) -> &'a F
        ensures { result ≡ self.now.files }
    {
        self.files
    }
}

impl<F: Files> FileStore for Disk<'_, F> {
    fn read_text(&mut self, alloc: Global, name: &str) -> Result<FileText, NoMemory> {
        match read_whole(alloc, self.files, name) {
            Ok(text) => Ok(Ok(Text::from_string(text))),
            Err(error) if error.kind() == ErrorKind::OutOfMemory => Err(NoMemory),
            Err(error) => Ok(Err(Unavailable::of(error.kind()))),
        }
    }
}

/// Reads a regular file of at most [`MAX_FILE_BYTES`] bytes. Any other file, as a FIFO or a device, is refused before it
/// is opened: opening it may wait forever. If it becomes one between the look and the opening, it is opened.
fn read_whole<F: Files>(alloc: Global, files: &F, name: &str) -> io::Result<String> {
    let metadata = fs::metadata(files, name)?;
    if metadata.is_dir() {
        return Err(io::Error::from(ErrorKind::IsADirectory));
    }
    if !metadata.is_file() {
        return Err(io::Error::from(ErrorKind::Unsupported));
    }
    let file = fs::open(files, name)?;
    let text = io::read_to_string(alloc, file.take(MAX_FILE_BYTES + 1))?;
    if text.len() as u64 > MAX_FILE_BYTES {
        return Err(io::Error::from(ErrorKind::FileTooLarge));
    }
    Ok(text)
}

/// The text of a file, or why it is not available.
pub type FileText = Result<Text, Unavailable>;

/// Reads files by name. A file may have a different text at each reading.
pub trait FileStore {
    ghost use Rattle.std.specs.Prelude.{ℕ, List, Result, IfOk};
    ghost use Rattle.sv_program.specs.declared.unavailable.Unavailable.{Unavailable};

    /// The model of a reading: the store before it, the requested name, the text of the file or why it is not
    /// available, and the store after it. By default a reading may give anything.
    ghost gives_text: { Self → List ℕ → Result (List ℕ) Unavailable → Self → Type 0 } = { λ _ _ _ _. Unit {0} };

    /// Returns the text of the file of this name, or why it is not available.
    fn read_text(&mut self, alloc: Global, name: &str) -> Result<FileText, NoMemory>
        ensures { IfOk result (λ text. gives_text self.old name.now text self.new) };
}
