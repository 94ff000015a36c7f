//! The folders of the operating system. No contract describes their contents, only how much of them is read.

ghost use Rattle.std.specs.Prelude.{◌≡◌, ◌+◌, ◌≤◌, IfOk, length, nat_lt};
ghost use Rattle.sv_files.specs.declared.files.TheConstants.{MAX_FILES};

use crate::folders::{FolderFiles, FolderStore};
use bytes::Bytes;
use std::alloc::Global;
use std::fs::{DirEntry, read_dir};
use std::io::{ErrorKind, Read};
use std::rt::Files;
use std::{fs, io};
use sv_files::{File, MAX_FILE_BYTES, MAX_FILES};
use sv_program::{Disk, Unavailable, UnavailableEntry};
use sv_text::{Listed, NoMemory, Text};

impl<F: Files + AllocGlobal + Clone + Drop> FolderStore for Disk<'_, F> {
    fn read_files(&mut self, alloc: Global, name: &str) -> Result<FolderFiles, NoMemory> {
        read_folder(alloc, self.handle(), name)
    }
}

// Reads the files in the folder of this name, up to the first one over the limit.
fn read_folder<F: Files + AllocGlobal + Clone + Drop>(
    alloc: Global,
    files: &F,
    name: &str,
) -> Result<FolderFiles, NoMemory>
    ensures { IfOk result (λ found. IfOk found (λ list. length list ≤ MAX_FILES + 1)) }
{
    let mut walk = Walk {
        folder: name,
        waiting: Vec::new(alloc),
        files: Vec::new(alloc),
        refusal: None,
    };
    match walk.read_all(alloc, files) {
        Ok(()) => Ok(Ok(Listed::from_vec(walk.files))),
        Err(error) if error.kind() == ErrorKind::OutOfMemory => Err(NoMemory),
        Err(error) => Ok(Err(refusal_of(alloc, walk.refusal, error))),
    }
}

// Returns the entry that ended a walk, or else the folder itself.
fn refusal_of(
    alloc: Global,
    refusal: Option<UnavailableEntry>,
    error: io::Error,
) -> UnavailableEntry {
    match refusal {
        Some(entry) => entry,
        None => UnavailableEntry {
            path: Text::from_string(String::new(alloc)),
            why: Unavailable::of(error.kind()),
        },
    }
}

/// A walk through a folder and the folders below it, which ends at the first file over the limit, and at the first entry
/// that is not available. Paths are relative to the folder; its own path is empty.
#[derive(Drop)]
struct Walk<'a> {
    folder: &'a str,
    /// The paths of the folders that remain to be read.
    waiting: Vec<String>,
    files: Vec<File>,
    /// The entry that is not available.
    refusal: Option<UnavailableEntry>,
}

impl Walk<'_> {
    fn read_all<F: Files + AllocGlobal + Clone + Drop>(
        &mut self,
        alloc: Global,
        files: &F,
    ) -> io::Result<()>
        requires { length self.old.files.items ≤ MAX_FILES + 1 }
        ensures { length self.new.files.items ≤ MAX_FILES + 1 }
    {
        self.waiting.push(String::new(alloc))?;
        for _ in 0..u64::MAX {
            let Some(path) = self.waiting.pop() else {
                return Ok(());
            };
            match self.read_entries(alloc, files, path.as_str()) {
                Ok(()) => {}
                Err(error) => return self.refuse(path, folder_reason(error.kind()), error),
            }
            if self.has_too_many() {
                return Ok(());
            }
        }
        Err(io::Error::from(ErrorKind::Other))
    }

    // Reads the entries of the folder at this path, up to the first file over the limit.
    fn read_entries<F: Files + AllocGlobal + Clone + Drop>(
        &mut self,
        alloc: Global,
        files: &F,
        path: &str,
    ) -> io::Result<()>
        requires { length self.old.files.items ≤ MAX_FILES + 1 }
        ensures { length self.new.files.items ≤ MAX_FILES + 1 }
    {
        let folder = format!(in alloc; "{}{path}", self.folder)?;
        for entry in read_dir(files, folder.as_str())? {
            if self.has_too_many() {
                return Ok(());
            }
            let entry = entry?;
            let path = format!(in alloc; "{path}/{}", entry.file_name())?;
            self.take(alloc, files, &entry, path)?;
        }
        Ok(())
    }

    fn has_too_many(&self) -> bool
        ensures { result ≡ nat_lt MAX_FILES (length self.now.files.items) }
    {
        self.files.len() > MAX_FILES
    }

    // Notes the entry at this path as the one that is not available, unless one was noted before, and returns the error.
    fn refuse(&mut self, path: String, why: Unavailable, error: io::Error) -> io::Result<()>
        ensures { self.new.files ≡ self.old.files }
    {
        if self.refusal.is_none() {
            let path = Text::from_string(path);
            self.refusal = Some(UnavailableEntry { path, why });
        }
        Err(error)
    }

    // Handles the entry at this path: a folder is queued, and a regular file is read. Any other entry is not available.
    fn take<F: Files + AllocGlobal + Clone + Drop>(
        &mut self,
        alloc: Global,
        files: &F,
        entry: &DirEntry<F>,
        path: String,
    ) -> io::Result<()>
        requires { length self.old.files.items ≤ MAX_FILES }
        ensures { length self.new.files.items ≤ MAX_FILES + 1 }
    {
        let kind = entry.file_type()?;
        if kind.is_dir() {
            self.waiting.push(path)?;
            return Ok(());
        }
        if !kind.is_file() {
            let why = special_reason(kind.is_symlink());
            return self.refuse(path, why, io::Error::from(ErrorKind::Unsupported));
        }
        match read_bytes(alloc, files, entry) {
            Ok(bytes) => {
                let path = Text::from_string(path);
                self.files.push(File { path, bytes })?;
                Ok(())
            }
            Err(error) => self.refuse(path, Unavailable::of(error.kind()), error),
        }
    }
}

// Returns why a folder is not available whose entries the system refuses by an error of this kind.
fn folder_reason(kind: ErrorKind) -> Unavailable {
    if kind == ErrorKind::InvalidFilename {
        Unavailable::NamelessEntry
    } else {
        Unavailable::of(kind)
    }
}

// Returns why an entry is not available that is neither a file nor a directory.
fn special_reason(is_link: bool) -> Unavailable {
    if is_link {
        Unavailable::Link
    } else {
        Unavailable::SpecialFile
    }
}

// Reads the bytes of a file, at most one more than it may have.
fn read_bytes<F: Files + AllocGlobal + Clone + Drop>(
    alloc: Global,
    files: &F,
    entry: &DirEntry<F>,
) -> io::Result<Bytes> {
    let mut bytes = Vec::new(alloc);
    let limit = MAX_FILE_BYTES as u64 + 1;
    fs::open(files, entry.path())?
        .take(limit)
        .read_to_end(&mut bytes)?;
    Ok(Bytes::from_vec(bytes)?)
}
