//! Checks of a list of files.

ghost use Rattle.std.specs.Prelude.{◌≡◌, nat_lt, length, not, MatchOption, IfOk, true, false};
ghost use Rattle.std.specs.List.{list_any};
ghost use Rattle.sv_text.specs.Gives.{GivesAnswer};
ghost use Rattle.sv_files.specs.Fault.{bad_path, large_path, repeats};
ghost use Rattle.sv_files.specs.Files as spec;
ghost use Rattle.sv_files.specs.Index.{IsIndexOf};

use crate::files::{File, MAX_FILE_BYTES};
use crate::index::Index;
use std::alloc::Global;
use sv_text::{NoMemory, Text};
use sv_uri::fault::CanonFault;
use sv_uri::{canon, location};

/// Returns whether a file has a path that no request can name, or that is a folder's.
pub(crate) fn has_bad_path(alloc: Global, files: &[File]) -> Result<bool, NoMemory>
    ensures { GivesAnswer result (list_any (λ file. not (spec.is_file_path file.path)) files.now) }
{
    for file in files {
        if !is_file_path(alloc, file.path.as_str())? {
            return Ok(true);
        }
    }
    Ok(false)
}

/// Returns the path of the first file whose path no request can name, or is a folder's.
///
/// # Errors
/// `NoMemory` if memory runs out.
pub fn first_bad_path(alloc: Global, files: &[File]) -> Result<Option<Text>, NoMemory>
    ensures { GivesAnswer result (bad_path files.now) }
{
    for file in files {
        let path = file.path.as_str();
        if !is_file_path(alloc, path)? {
            return Ok(Some(Text::copy_of(alloc, path)?));
        }
    }
    Ok(None)
}

/// Returns the path of the first file that is longer than the limit.
///
/// # Errors
/// `NoMemory` if memory runs out.
pub fn first_large_path(alloc: Global, files: &[File]) -> Result<Option<Text>, NoMemory>
    ensures { GivesAnswer result (large_path files.now) }
{
    for file in files {
        if is_large(file) {
            return Ok(Some(Text::copy_of(alloc, file.path.as_str())?));
        }
    }
    Ok(None)
}

#[tactic(auto, unfolding(crate::specs::Files::is_file_path))]
fn is_file_path(alloc: Global, path: &str) -> Result<bool, NoMemory>
    ensures { GivesAnswer result (spec.is_file_path path.now) }
{
    Ok(is_canonical(alloc, path)? && !ends_in_slash(path))
}

#[tactic(auto, unfolding(crate::specs::Files::is_canonical))]
fn is_canonical(alloc: Global, path: &str) -> Result<bool, NoMemory>
    ensures { GivesAnswer result (spec.is_canonical path.now) }
{
    let location = location(alloc, path)?;
    match canon(alloc, location.as_bytes()) {
        Ok(canon) => Ok(canon.path.as_str() == path),
        Err(CanonFault::Path(_)) => Ok(false),
        Err(CanonFault::NoMemory) => Err(NoMemory),
    }
}

/// Returns whether the path is that of a folder in a request.
pub(crate) fn ends_in_slash(path: &str) -> bool
    ensures { result ≡ spec.ends_in_slash path.now }
{
    path.ends_with('/')
}

/// Returns the index of the files, or `None` if two of them have the same path.
pub(crate) fn index_of(alloc: Global, files: &[File]) -> Result<Option<Index>, NoMemory>
    ensures { IfOk result (λ index. MatchOption index (repeats files.now ≡ true) (λ its. (repeats files.now ≡ false) × IsIndexOf its files.now)) }
{
    let mut index = Index::new(alloc);
    for (place, file) in files.iter().enumerate() {
        if !index.enter(alloc, file, place)? {
            return Ok(None);
        }
    }
    Ok(Some(index))
}

/// Returns whether a file is longer than the limit.
pub(crate) fn has_large_file(files: &[File]) -> bool
    ensures { result ≡ list_any (λ file. nat_lt MAX_FILE_BYTES (length file.bytes)) files.now }
{
    files.iter().any(|file| is_large(file))
}

fn is_large(file: &File) -> bool
    ensures { result ≡ nat_lt MAX_FILE_BYTES (length file.now.bytes) }
{
    file.bytes.len() > MAX_FILE_BYTES
}
