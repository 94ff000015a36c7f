//! Lookups by path, whose time does not depend on the number of files.

ghost use Rattle.std.specs.Prelude.{◌≡◌, ℕ, Bool, List, [], ◌∷◌, ◌++◌, length, not, ◌||◌, position, ◌<◌, IfOk, IfSome, OnOk};
ghost use Rattle.std.specs.Bool.{OnTrue};
ghost use Rattle.std.specs.HashSet.{contains_text};
ghost use Rattle.std.specs.Option.{option_copied};
ghost use Rattle.std.specs.Str.{bytes_eq};
ghost use Rattle.sv_files.specs.Files as spec;
ghost use Rattle.sv_files.specs.Index.{IsIndexOf};
ghost use Rattle.sv_files.specs.Below.{IsClosed, is_at_or_above, lies_below};
ghost use Rattle.sv_files.specs.declared.files.File.{File};

use crate::files::File;
use std::alloc::Global;
use std::collections::{HashMap, HashSet};
use sv_text::NoMemory;

/// The indices of files by path, and the paths of folders.
#[derive(Drop)]
pub(crate) struct Index {
    places: HashMap<String, usize>,
    folders: HashSet<String>,
}

impl Index {
    /// Creates an index of no files.
    pub(crate) fn new(alloc: Global) -> Index
        ensures { IsIndexOf result [] }
    {
        Index {
            places: HashMap::new(alloc),
            folders: HashSet::new(alloc),
        }
    }

    /// Enters a file at the index `place`, which follows all others, if its path is new. Returns whether it is.
    pub(crate) fn enter(
        &mut self,
        alloc: Global,
        file: &File,
        place: usize,
    ) -> Result<bool, NoMemory>
        ensures new { (files : List File) → IsIndexOf self.old files → IfOk result (λ is_new. is_new ≡ not (spec.is_file files file.now.path)) }
        ensures entered { (files : List File) → IsIndexOf self.old files → place ≡ length files → IfOk result (λ is_new. OnTrue is_new (IsIndexOf self.new (files ++ file.now ∷ []))) }
    {
        let path = file.path.as_str();
        if self.places.contains_key(path) {
            return Ok(false);
        }
        self.places.insert(String::from_str(alloc, path)?, place)?;
        enter_folders(&mut self.folders, alloc, path)?;
        Ok(true)
    }

    /// Returns the index of the file of this path.
    pub(crate) fn place_of(&self, path: &str) -> Option<usize>
        ensures { (files : List File) → IsIndexOf self.now files → result ≡ position (λ file. bytes_eq file.path path.now) files }
    {
        self.places.get(path).copied()
    }

    /// Returns whether a file is below the path.
    pub(crate) fn is_folder(&self, path: &str) -> bool
        ensures { (files : List File) → IsIndexOf self.now files → result ≡ spec.is_folder files path.now }
    {
        self.folders.contains(path)
    }
}

/// Enters the folders above a path, from the innermost outward. Stops at the first one that is known, since the folders
/// above it are then known too.
fn enter_folders(folders: &mut HashSet<String>, alloc: Global, path: &str) -> Result<(), NoMemory>
    ensures { (known : List ℕ → Bool) → IsClosed known → ((folder : List ℕ) → contains_text folders.old folder ≡ known folder)
        → OnOk result ((folder : List ℕ) → contains_text folders.new folder ≡ (known folder || lies_below folder path.now)) }
{
    let mut rest = folder_of(path);
    while let Some(folder) = rest {
        if folders.contains(folder) {
            return Ok(());
        }
        folders.insert(String::from_str(alloc, folder)?)?;
        rest = folder_of(folder);
    }
    Ok(())
}

/// Returns the innermost folder above a path.
fn folder_of(path: &str) -> Option<&str>
    ensures folders { (outer : List ℕ) → lies_below outer path.now ≡ is_at_or_above outer (option_copied result) }
    ensures shorter { IfSome result (λ folder. length folder.now < length path.now) }
{
    match path.rsplit_once('/') {
        Some((folder, _)) => Some(folder),
        None => None,
    }
}
