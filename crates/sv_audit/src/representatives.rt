//! Paths that represent all others.

ghost use Rattle.std.specs.Prelude.{◌≡◌, ◌++◌, IfOk, OnOk, filter, map, not};
ghost use Rattle.std.specs.Option.{option_copied, option_to_list};
ghost use Rattle.sv_mapping.specs.Pattern.{form};
ghost use Rattle.sv_mapping.specs.Segments.{is_slashed};
ghost use Rattle.sv_text.specs.Gives.{GivesAnswer};
ghost use Rattle.sv_audit.specs.Representatives as spec;
ghost use Rattle.sv_audit.specs.Shapes.{has_empty_folder};

use crate::path_shapes::has_empty_folder;
use std::alloc::Global;
use sv_constraints::lists;
use sv_mapping::{Form, Pattern};
use sv_text::{NoMemory, Text, copied_texts};

/// Returns paths of which one matches the same patterns as any path that is empty or begins with a slash: one for each
/// directory of a prefix pattern and each extension, and the paths that the patterns name. Those with an empty segment
/// before the last come last, since no canonical path has one (Jakarta Servlet 6.0, section 3.5.2).
///
/// The time grows with the product of the numbers of prefix patterns, of extension patterns and of all patterns.
///
/// # Errors
/// `NoMemory` if memory runs out.
pub fn representative_paths(alloc: Global, patterns: &[Pattern]) -> Result<Vec<Text>, NoMemory>
    ensures { IfOk result (λ paths. paths.items ≡ spec.representatives patterns.now) }
{
    representative_paths_beside(alloc, &[], patterns)
}

/// Returns paths of which one matches the same patterns as any path that begins with a slash, as `representative_paths`
/// does. Each is a path that a pattern names, or none of the taken paths.
///
/// # Errors
/// `NoMemory` if memory runs out.
pub fn representative_paths_beside(
    alloc: Global,
    taken: &[Text],
    patterns: &[Pattern],
) -> Result<Vec<Text>, NoMemory>
    ensures { IfOk result (λ paths. paths.items ≡ spec.representatives_beside taken.now patterns.now) }
{
    let slashed = slashed_paths(alloc, taken, patterns)?;
    let mut paths = Vec::new(alloc);
    push_without_empty(&mut paths, alloc, slashed.as_slice())?;
    push_with_empty(&mut paths, alloc, slashed.as_slice())?;
    Ok(paths)
}

/// Appends the paths without an empty segment before the last.
fn push_without_empty(paths: &mut Vec<Text>, alloc: Global, texts: &[Text]) -> Result<(), NoMemory>
    ensures { OnOk result (paths.new.items ≡ paths.old.items ++ filter (λ path. not (has_empty_folder path)) texts.now) }
{
    for path in texts {
        if !has_empty_folder(path.as_str().as_bytes()) {
            paths.push(Text::copy_of(alloc, path.as_str())?)?;
        }
    }
    Ok(())
}

/// Appends the paths with an empty segment before the last.
fn push_with_empty(paths: &mut Vec<Text>, alloc: Global, texts: &[Text]) -> Result<(), NoMemory>
    ensures { OnOk result (paths.new.items ≡ paths.old.items ++ filter has_empty_folder texts.now) }
{
    for path in texts {
        if has_empty_folder(path.as_str().as_bytes()) {
            paths.push(Text::copy_of(alloc, path.as_str())?)?;
        }
    }
    Ok(())
}

/// Returns a path for each directory and extension that is none of the taken paths, and the paths that the patterns name.
fn slashed_paths(alloc: Global, taken: &[Text], patterns: &[Pattern]) -> Result<Vec<Text>, NoMemory>
    ensures { IfOk result (λ paths. paths.items ≡ spec.slashed_paths taken.now patterns.now) }
{
    let named = named_paths(alloc, patterns)?;
    let avoided = avoided_paths(alloc, named.as_slice(), taken)?;
    let endings = endings(alloc, patterns)?;
    let directories = directories(alloc, patterns)?;
    let mut paths = Vec::new(alloc);
    for directory in directories.as_slice() {
        push_free(
            &mut paths,
            alloc,
            avoided.as_slice(),
            directory.as_str(),
            endings.as_slice(),
        )?;
    }
    push_slashed(&mut paths, alloc, named.as_slice())?;
    Ok(paths)
}

/// Copies the named paths and the taken ones.
fn avoided_paths(alloc: Global, named: &[Text], taken: &[Text]) -> Result<Vec<Text>, NoMemory>
    ensures { IfOk result (λ paths. paths.items ≡ named.now ++ taken.now) }
{
    let mut paths = copied_texts(alloc, named)?.into_vec();
    let mut others = copied_texts(alloc, taken)?.into_vec();
    paths.append(&mut others)?;
    Ok(paths)
}

/// Returns the paths that patterns name.
fn named_paths(alloc: Global, patterns: &[Pattern]) -> Result<Vec<Text>, NoMemory>
    ensures { IfOk result (λ paths. paths.items ≡ spec.named_paths patterns.now) }
{
    let mut paths = Vec::new(alloc);
    for pattern in patterns {
        if let Some(path) = named_by(pattern) {
            paths.push(Text::copy_of(alloc, path)?)?;
        }
    }
    Ok(paths)
}

/// Returns the path that a pattern names: its only path, or the directory of a prefix pattern.
fn named_by(pattern: &Pattern) -> Option<&str>
    ensures { option_copied result ≡ spec.named_by (form pattern.now) }
{
    match pattern.form() {
        Form::Root => Some("/"),
        Form::Default => None,
        Form::Extension(_) => None,
        Form::Prefix(prefix) => Some(prefix),
        Form::Exact(text) => Some(text),
    }
}

/// Returns the root and the directories of prefix patterns.
fn directories(alloc: Global, patterns: &[Pattern]) -> Result<Vec<Text>, NoMemory>
    ensures { IfOk result (λ paths. paths.items ≡ spec.directories patterns.now) }
{
    let mut paths = Vec::new(alloc);
    paths.push(Text::copy_of(alloc, "")?)?;
    for pattern in patterns {
        if let Some(path) = directory_of(pattern) {
            paths.push(Text::copy_of(alloc, path)?)?;
        }
    }
    Ok(paths)
}

/// Returns the directory of a prefix pattern.
fn directory_of(pattern: &Pattern) -> Option<&str>
    ensures { option_copied result ≡ spec.directory_of (form pattern.now) }
{
    match pattern.form() {
        Form::Root => None,
        Form::Default => None,
        Form::Extension(_) => None,
        Form::Prefix(prefix) => Some(prefix),
        Form::Exact(_) => None,
    }
}

/// Returns the empty ending and those of extension patterns.
fn endings(alloc: Global, patterns: &[Pattern]) -> Result<Vec<Text>, NoMemory>
    ensures { IfOk result (λ texts. texts.items ≡ spec.endings patterns.now) }
{
    let mut texts = Vec::new(alloc);
    texts.push(Text::copy_of(alloc, "")?)?;
    for pattern in patterns {
        push_ending(&mut texts, alloc, pattern)?;
    }
    Ok(texts)
}

/// Appends the end of the paths that an extension pattern matches.
fn push_ending(texts: &mut Vec<Text>, alloc: Global, pattern: &Pattern) -> Result<(), NoMemory>
    ensures { OnOk result (texts.new.items ≡ texts.old.items ++ option_to_list (spec.ending_of (form pattern.now))) }
{
    match pattern.form() {
        Form::Root => Ok(()),
        Form::Default => Ok(()),
        Form::Extension(wanted) => {
            let mut ending = Text::copy_of(alloc, ".")?;
            ending.push_str(alloc, wanted)?;
            texts.push(ending)?;
            Ok(())
        }
        Form::Prefix(_) => Ok(()),
        Form::Exact(_) => Ok(()),
    }
}

/// Appends the paths that begin with a slash.
fn push_slashed(paths: &mut Vec<Text>, alloc: Global, texts: &[Text]) -> Result<(), NoMemory>
    ensures { OnOk result (paths.new.items ≡ paths.old.items ++ filter is_slashed texts.now) }
{
    for path in texts {
        if path.as_str().starts_with('/') {
            paths.push(Text::copy_of(alloc, path.as_str())?)?;
        }
    }
    Ok(())
}

/// Appends a free path in a directory for each ending.
fn push_free(
    paths: &mut Vec<Text>,
    alloc: Global,
    named: &[Text],
    directory: &str,
    endings: &[Text],
) -> Result<(), NoMemory>
    ensures { OnOk result (paths.new.items ≡ paths.old.items ++ filter is_slashed (map (spec.free_path named.now directory.now) endings.now)) }
{
    for ending in endings {
        let path = free_path(alloc, named, directory, ending.as_str())?;
        if path.as_str().starts_with('/') {
            paths.push(path)?;
        }
    }
    Ok(())
}

/// Returns a path right below a directory that is none of the named paths.
fn free_path(alloc: Global, named: &[Text], directory: &str, ending: &str) -> Result<Text, NoMemory>
    ensures { GivesAnswer result (spec.free_path named.now directory.now ending.now) }
{
    let short = file_path(alloc, directory, "page", ending)?;
    if !lists(named, short.as_str()) {
        return Ok(short);
    }
    let name = long_name(alloc, named)?;
    file_path(alloc, directory, name.as_str(), ending)
}

/// Returns the path of a file in a directory.
fn file_path(alloc: Global, directory: &str, name: &str, ending: &str) -> Result<Text, NoMemory>
    ensures { GivesAnswer result (spec.file_path directory.now name.now ending.now) }
{
    let mut path = Text::copy_of(alloc, directory)?;
    path.push_str(alloc, "/")?;
    path.push_str(alloc, name)?;
    path.push_str(alloc, ending)?;
    Ok(path)
}

/// Returns a name that is as long as the longest of the paths.
fn long_name(alloc: Global, paths: &[Text]) -> Result<Text, NoMemory>
    ensures { GivesAnswer result (spec.long_name paths.now) }
{
    let count = longest(paths);
    let mut name = Text::with_room(alloc, count)?;
    for _ in 0..count {
        name.push_str(alloc, "x")?;
    }
    Ok(name)
}

/// Returns the length of the longest of the texts, in bytes.
fn longest(texts: &[Text]) -> usize
    ensures { result ≡ spec.longest texts.now }
{
    let mut most = 0;
    for text in texts {
        most = text.as_bytes().len().max(most);
    }
    most
}
