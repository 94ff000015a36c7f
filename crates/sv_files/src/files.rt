//! The static files of a context.

ghost use Rattle.std.specs.Option.{option_copied};
ghost use Rattle.std.specs.Prelude.{IfOk, [], find, ◌≡◌};
ghost use Rattle.sv_files.specs.Answer as spec;
ghost use Rattle.sv_files.specs.Fault.{files_of, list_fault, list_faults};
ghost use Rattle.sv_files.specs.Files.{file_at, is_file, is_folder, is_served, welcome_paths};
ghost use Rattle.sv_text.specs.Gives.{Gives, GivesAnswer};

use crate::answer::{FileAnswer, answer_to};
use crate::fault::FilesFault;
use crate::index::Index;
use crate::list::{ends_in_slash, has_bad_path, has_large_file, index_of};
use crate::welcome::{is_served, joined};
use bytes::Bytes;
use std::alloc::Global;
use std::marker::Model;
use sv_mapping::{Kind, Pattern};
use sv_text::{NoMemory, Text};

/// The static files of a context. Contracts see a list of them.
#[derive(Drop)]
pub struct Files {
    list: Vec<File>,
    index: Index,
}

impl Model for Files {
    ghost use Rattle.std.specs.Prelude.{◌≡◌, List, []};
    ghost use Rattle.sv_files.specs.Fault.{list_faults};
    ghost use Rattle.sv_files.specs.Index.{IsIndexOf};
    ghost use Rattle.sv_files.specs.declared.files.File.{File};

    ghost Value = { List File };

    ghost view = { λ files. files.list.items };

    ghost invariant = { λ files. (list_faults files.list.items ≡ []) × IsIndexOf files.index files.list.items };
}

impl Files {
    /// Creates the files from a list. Their bytes are not copied.
    ///
    /// # Errors
    /// The fault of the list that has the lowest number, or [`FilesFault::NoMemory`].
    pub fn from_list(alloc: Global, files: Vec<File>) -> Result<Files, FilesFault>
        ensures { Gives list_fault result (files_of files.items) }
    {
        if has_bad_path(alloc, files.as_slice())? {
            return Err(FilesFault::BadPath);
        }
        let Some(index) = index_of(alloc, files.as_slice())? else {
            return Err(FilesFault::Duplicate);
        };
        if files.len() > MAX_FILES {
            return Err(FilesFault::TooMany);
        }
        if has_large_file(files.as_slice()) {
            return Err(FilesFault::TooLarge);
        }
        Ok(Files { list: files, index })
    }

    /// Returns the files in the order of the list that they came from.
    pub fn list(&self) -> &[File]
        ensures value { result.now ≡ self.now }
        ensures faultless { list_faults self.now ≡ [] }
    {
        self.list.as_slice()
    }

    /// Returns the file servlet's answer to a path within the context (Jakarta Servlet 6.0, sections 10.10 and 12.2).
    ///
    /// For a path that ends in `/`, each welcome name is appended to it. The answer is the first resulting path that is
    /// a file's, otherwise the first that a servlet's pattern matches, other than the default pattern `/`. Any other
    /// path is a folder's if a file is below it, otherwise a file's or missing. A client's request is refused if
    /// something is found but the method is neither `GET` nor `HEAD`. Every other kind of dispatch finds only files, by
    /// any method.
    ///
    /// The time of a lookup does not depend on the number of files.
    ///
    /// # Errors
    /// `NoMemory` if memory runs out.
    pub fn answer<'a>(
        &'a self,
        alloc: Global,
        path: &str,
        method: &str,
        kind: Kind,
        welcome: &[Text],
        patterns: &[Pattern],
    ) -> Result<FileAnswer<'a>, NoMemory>
        ensures { IfOk result (λ answer. spec.answer_seen answer ≡ spec.file_answer self.now path.now method.now kind welcome.now patterns.now) }
    {
        let found = self.found(alloc, path, welcome, patterns)?;
        Ok(answer_to(kind, method, found))
    }

    fn found<'a>(
        &'a self,
        alloc: Global,
        path: &str,
        welcome: &[Text],
        patterns: &[Pattern],
    ) -> Result<FileAnswer<'a>, NoMemory>
        ensures { IfOk result (λ answer. spec.answer_seen answer ≡ spec.found self.now welcome.now patterns.now path.now) }
    {
        if ends_in_slash(path) {
            return match self.welcome(alloc, path, welcome, patterns)? {
                Some(path) => Ok(FileAnswer::Welcome(path)),
                None => Ok(FileAnswer::Missing),
            };
        }
        if self.is_folder(path) {
            return Ok(FileAnswer::Slash);
        }
        match self.bytes_at(path) {
            Some(bytes) => Ok(FileAnswer::File(bytes)),
            None => Ok(FileAnswer::Missing),
        }
    }

    fn welcome(
        &self,
        alloc: Global,
        path: &str,
        names: &[Text],
        patterns: &[Pattern],
    ) -> Result<Option<Text>, NoMemory>
        ensures { GivesAnswer result (spec.welcome self.now patterns.now (welcome_paths names.now path.now)) }
    {
        if let Some(file) = self.welcome_file(alloc, path, names)? {
            return Ok(Some(file));
        }
        welcome_servlet(alloc, path, names, patterns)
    }

    fn welcome_file(
        &self,
        alloc: Global,
        path: &str,
        names: &[Text],
    ) -> Result<Option<Text>, NoMemory>
        ensures { GivesAnswer result (find (is_file self.now) (welcome_paths names.now path.now)) }
    {
        for name in names {
            let file = joined(alloc, path, name.as_str())?;
            if self.is_file(file.as_str()) {
                return Ok(Some(file));
            }
        }
        Ok(None)
    }

    fn is_file(&self, path: &str) -> bool
        ensures { result ≡ is_file self.now path.now }
    {
        self.index.place_of(path).is_some()
    }

    fn is_folder(&self, path: &str) -> bool
        ensures { result ≡ is_folder self.now path.now }
    {
        self.index.is_folder(path)
    }

    fn bytes_at(&self, path: &str) -> Option<&Bytes>
        ensures { option_copied result ≡ file_at self.now path.now }
    {
        let file = self.list.get(self.index.place_of(path)?)?;
        Some(&file.bytes)
    }
}

// Returns the first welcome path of a folder that a servlet serves.
fn welcome_servlet(
    alloc: Global,
    path: &str,
    names: &[Text],
    patterns: &[Pattern],
) -> Result<Option<Text>, NoMemory>
    ensures { GivesAnswer result (find (is_served patterns.now) (welcome_paths names.now path.now)) }
{
    for name in names {
        let path = joined(alloc, path, name.as_str())?;
        if is_served(patterns, path.as_str()) {
            return Ok(Some(path));
        }
    }
    Ok(None)
}

/// A file and its path within the context.
#[derive(Drop)]
pub struct File {
    /// The path, which begins with `/` and is canonical.
    pub path: Text,
    /// The contents of the file. Its owners share the bytes, so a response takes no copy of them.
    pub bytes: Bytes,
}

/// Maximum number of files of a context.
pub const MAX_FILES: usize = 10_000;

/// Maximum length of a file, in bytes.
pub const MAX_FILE_BYTES: usize = 1_048_576;

/// A context has at most 10,000 files, each of at most 1,048,576 bytes.
pub fn limits_of_files()
    ensures files { MAX_FILES ≡ 10000 }
    ensures bytes { MAX_FILE_BYTES ≡ 1048576 }
{}
