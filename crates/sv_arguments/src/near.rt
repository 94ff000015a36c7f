//! The name that is nearest to a misspelled word.

ghost use Rattle.std.specs.Prelude.{◌≡◌, IfOk, map, nat_eq, option_copied};
ghost use Rattle.std.specs.List.{find};
ghost use Rattle.sv_arguments.specs.Laws.{NearIsNearest, OthersAreFar};
ghost use Rattle.sv_arguments.specs.Near as spec;

use std::alloc::Global;
use strsim::levenshtein;
use sv_text::NoMemory;

/// Returns the name at the least Levenshtein distance from the word, in characters, if that is at most 2: the first one
/// in the list if there are several. No name is near the empty word.
///
/// # Errors
/// [`NoMemory`].
pub(crate) fn nearest<'a>(
    alloc: Global,
    names: &[&'a str],
    word: &str,
) -> Result<Option<&'a str>, NoMemory>
    ensures { IfOk result (λ found. option_copied found ≡ spec.near (map (λ name. name.now) names.now) word.now) }
{
    if word.is_empty() {
        return Ok(None);
    }
    if let Some(name) = name_at(alloc, names, word, 0)? {
        return Ok(Some(name));
    }
    if let Some(name) = name_at(alloc, names, word, 1)? {
        return Ok(Some(name));
    }
    name_at(alloc, names, word, 2)
}

/// Returns the first name at this distance from the word.
fn name_at<'a>(
    alloc: Global,
    names: &[&'a str],
    word: &str,
    distance: usize,
) -> Result<Option<&'a str>, NoMemory>
    ensures { IfOk result (λ found. option_copied found ≡ spec.name_at distance (map (λ name. name.now) names.now) word.now) }
{
    for name in names {
        if levenshtein(alloc, name, word)? == distance {
            return Ok(Some(name));
        }
    }
    Ok(None)
}

/// A near name is among the names, at most two edits away, and no name is nearer. If there is none, all names are
/// further away, or the word is empty.
pub fn a_near_name_is_the_nearest()
    ensures near { NearIsNearest }
    ensures far { OthersAreFar }
{}
