//! A store of files and folders in memory.

use bytes::Bytes;
use std::alloc::Global;
use sv_deployments::{FolderFiles, FolderStore};
use sv_files::File;
use sv_program::{FileStore, FileText, Unavailable, UnavailableEntry};
use sv_text::{Listed, NoMemory, Text};

/// The store of a server with a root context and the context `/two`.
#[derive(Drop)]
pub struct Store<'a> {
    /// The name of a missing file or folder.
    pub missing: &'a str,
    /// The paths of the root context's static files, separated by blanks.
    pub files: &'a str,
    /// The requested names, each followed by a blank.
    pub asked: String,
}

const SERVER: &str = r#"
port = 7
seed = "0000000000000000000000000000000000000000000000000000000000000000"
context = [
    { path = "", descriptor = "root.toml", files = "files", users = "users.toml" },
    { path = "/two", descriptor = "two.toml", files = "" },
]
"#;

const DESCRIPTOR: &str = r#"
[[servlet]]
servlet-name = "s"
servlet-class = "Who"
"#;

const USERS: &str = r#"
[[user]]
name = "ann"
salt = "61"
digest = "ba7816bf8f01cfea414140de5dae2223b00361a396177a9cb410ff61f20015ad"
roles = ["a"]
"#;

impl Store<'_> {
    // Notes a name, and returns whether it exists.
    fn note(&mut self, name: &str) -> Result<bool, NoMemory> {
        self.asked.push_str(name)?;
        self.asked.push_str(" ")?;
        Ok(name != self.missing)
    }
}

impl FileStore for Store<'_> {
    fn read_text(&mut self, alloc: Global, name: &str) -> Result<FileText, NoMemory> {
        if !self.note(name)? {
            return Ok(Err(Unavailable::Missing));
        }
        match name {
            "in/server.toml" => Ok(Ok(Text::copy_of(alloc, SERVER)?)),
            "in/users.toml" => Ok(Ok(Text::copy_of(alloc, USERS)?)),
            "in/root.toml" | "in/two.toml" => Ok(Ok(Text::copy_of(alloc, DESCRIPTOR)?)),
            _ => Ok(Err(Unavailable::Missing)),
        }
    }
}

impl FolderStore for Store<'_> {
    fn read_files(&mut self, alloc: Global, name: &str) -> Result<FolderFiles, NoMemory> {
        if !self.note(name)? {
            return Ok(Err(UnavailableEntry {
                path: Text::copy_of(alloc, "")?,
                why: Unavailable::Missing,
            }));
        }
        let mut files = Vec::new(alloc);
        for path in self.files.split(' ') {
            files.push(File {
                path: Text::copy_of(alloc, path)?,
                bytes: Bytes::copy_from_slice(alloc, path.as_bytes())?,
            })?;
        }
        Ok(Ok(Listed::from_vec(files)))
    }
}
