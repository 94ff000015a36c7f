//! The folders of a server's contexts, read from a store.

ghost use Rattle.std.specs.Prelude.{IfOk};
ghost use Rattle.sv_deployments.specs.Folders.{ReadsFolder, ReadsFolders};

use std::alloc::Global;
use std::path::Path;
use sv_files::File;
use sv_program::{ContextTexts, Unavailable, UnavailableEntry};
use sv_text::{Listed, NoMemory, Text};

/// A context of a server file, with everything that the store gave for it.
#[derive(Drop)]
pub struct FoundContext {
    /// The context and the texts of its files.
    pub texts: ContextTexts,
    /// Its static files, or what of their folder is not available. They are ignored if the context names no folder.
    pub files: FolderFiles,
}

/// Reads the folder of each context of the server file `config` that names one, in order. The name of a folder is
/// relative to the folder of the server file.
///
/// # Errors
/// `NoMemory` if memory runs out. A folder that is not available is no error.
pub fn read_folders<S: FolderStore>(
    alloc: Global,
    store: &mut S,
    config: &str,
    contexts: Listed<ContextTexts>,
) -> Result<Listed<FoundContext>, NoMemory>
    ensures { IfOk result (λ found. ReadsFolders S.gives_files config.now contexts store.old found store.new) }
{
    let mut found = Vec::new(alloc);
    for texts in contexts.into_vec() {
        let files = read_folder(alloc, store, config, texts.context.files.as_str())?;
        found.push(FoundContext { texts, files })?;
    }
    Ok(Listed::from_vec(found))
}

// Reads a folder that the server file `config` names. The name is relative to the folder of the server file. An empty
// name means no folder, and none is available.
fn read_folder<S: FolderStore>(
    alloc: Global,
    store: &mut S,
    config: &str,
    name: &str,
) -> Result<FolderFiles, NoMemory>
    ensures { IfOk result (λ files. ReadsFolder S.gives_files config.now name.now store.old files store.new) }
{
    if name.is_empty() {
        return Ok(Err(UnavailableEntry {
            path: Text::from_string(String::new(alloc)),
            why: Unavailable::Missing,
        }));
    }
    let path = Path::new(config).with_file_name(alloc, name)?;
    store.read_files(alloc, path.as_str())
}

/// The files of a folder, or what of it is not available.
pub type FolderFiles = Result<Listed<File>, UnavailableEntry>;

/// Reads folders of static files by name. A folder may have different files at each reading.
pub trait FolderStore {
    ghost use Rattle.std.specs.Prelude.{ℕ, List, Result, IfOk};
    ghost use Rattle.sv_program.specs.declared.unavailable.UnavailableEntry.{UnavailableEntry};
    ghost use Rattle.sv_files.specs.declared.files.File.{File};

    /// The model of a reading: the store before it, the requested name, the files or what of the folder is not
    /// available, and the store after it. By default a reading may give anything.
    ghost gives_files: { Self → List ℕ → Result (List File) UnavailableEntry → Self → Type 0 } = { λ _ _ _ _. Unit {0} };

    /// Returns the regular files in the folder of this name and in the folders below it. The path of each file is
    /// relative to the folder and begins with `/`. Returns the first entry that is not available: a folder or file
    /// that cannot be read, an entry that is neither a regular file nor a folder, or a folder with an entry whose name
    /// is not UTF-8. A file of more than
    /// [`MAX_FILE_BYTES`](sv_files::MAX_FILE_BYTES) bytes may be cut after one byte more, and a list of more than
    /// [`MAX_FILES`](sv_files::MAX_FILES) files after one file more.
    fn read_files(&mut self, alloc: Global, name: &str) -> Result<FolderFiles, NoMemory>
        ensures { IfOk result (λ files. gives_files self.old name.now files self.new) };
}
