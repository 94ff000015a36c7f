//! Paths that show what a pattern decides.

ghost use Rattle.std.specs.Prelude.{◌≡◌, ◌++◌, find, map};
ghost use Rattle.std.specs.Option.{option_copied};
ghost use Rattle.sv_mapping.specs.BestMatch.{best_pattern};
ghost use Rattle.sv_mapping.specs.Form.{form_seen};
ghost use Rattle.sv_text.specs.Gives.{GivesAnswer};
ghost use Rattle.sv_audit.specs.Examples as spec;
ghost use Rattle.sv_audit.specs.Reading.{is_same};

use crate::forms::form_of;
use std::alloc::Global;
use sv_mapping::{Form, PatternTable, is_at_or_below, is_protected};
use sv_text::{Listed, NoMemory, Text};
use sv_uri::fault::CanonFault;
use sv_uri::{canon, location};

/// The paths to try for patterns that match every path, and for the paths that no pattern matches.
const PLAIN_PATHS: [&str; 6] = [
    "/page",
    "/page.html",
    "/a/page",
    "/b/page",
    "/index",
    "/a/b/page",
];

/// The paths to try for an extension pattern, without the extension.
const EXTENSION_FRONTS: [&str; 5] = ["/page.", "/a/page.", "/b/page.", "/index.", "/a/b/page."];

/// The paths to try for a prefix pattern, without the prefix. The last is the prefix itself: of a prefix that ends in a
/// slash no other path can be requested.
const PREFIX_ENDS: [&str; 6] = ["/page", "/page.html", "/", "/b/page", "/index", ""];

/// Returns a path of this context whose best match among the patterns is this one, or a path that no pattern matches
/// (Jakarta Servlet 6.0, section 12.1). The others are the paths of the other contexts within this one, relative to it.
/// The path is at or below none of them, and in no hidden folder (section 10.5). It is decoded: a request whose target is
/// the location of the path has this canonical path. Only a few paths are tried, so there may be others if there is no
/// result.
///
/// # Errors
/// `NoMemory` if memory runs out.
pub fn example_of(
    alloc: Global,
    patterns: &PatternTable,
    others: &[Text],
    pattern: Option<&str>,
) -> Result<Option<Text>, NoMemory>
    ensures { GivesAnswer result (spec.example patterns.now others.now (option_copied pattern.entry)) }
{
    let candidates = candidates(alloc, pattern)?;
    first_example(alloc, patterns, others, pattern, candidates.as_slice())
}

fn first_example(
    alloc: Global,
    patterns: &PatternTable,
    others: &[Text],
    pattern: Option<&str>,
    candidates: &[Text],
) -> Result<Option<Text>, NoMemory>
    ensures { GivesAnswer result (find (spec.is_example patterns.now others.now (option_copied pattern.entry)) candidates.now) }
{
    for candidate in candidates {
        if is_example(alloc, patterns, others, pattern, candidate.as_str())? {
            return Ok(Some(Text::copy_of(alloc, candidate.as_str())?));
        }
    }
    Ok(None)
}

fn is_example(
    alloc: Global,
    patterns: &PatternTable,
    others: &[Text],
    pattern: Option<&str>,
    path: &str,
) -> Result<bool, NoMemory>
    ensures { GivesAnswer result (spec.is_example patterns.now others.now (option_copied pattern.entry) path.now) }
{
    let is_read_back = is_read_back(alloc, path)?;
    Ok(
        is_read_back
            && !is_elsewhere(others, path)
            && !is_protected(path)
            && is_same(pattern, best_text(patterns, path)),
    )
}

/// Returns whether another context takes the path, given the paths of the other contexts within this one.
fn is_elsewhere(others: &[Text], path: &str) -> bool
    ensures { result ≡ spec.is_elsewhere others.now path.now }
{
    others
        .iter()
        .any(|other| is_at_or_below(other.as_str(), path))
}

/// Returns whether reading the location of the path gives the same path, without a query. Each canonical path is such a path
/// (Jakarta Servlet 6.0, section 3.5.2).
///
/// # Errors
/// `NoMemory` if memory runs out.
#[tactic(auto, unfolding(crate::specs::Examples::is_read_back))]
pub fn is_read_back(alloc: Global, path: &str) -> Result<bool, NoMemory>
    ensures { GivesAnswer result (spec.is_read_back path.now) }
{
    let location = location(alloc, path)?;
    match canon(alloc, location.as_bytes()) {
        Ok(canon) => Ok(canon.path.as_str() == path && canon.query.is_none()),
        Err(CanonFault::Path(_)) => Ok(false),
        Err(CanonFault::NoMemory) => Err(NoMemory),
    }
}

/// Returns the text of the best match for a path, if there is one (Jakarta Servlet 6.0, section 12.1).
pub fn best_text<'a>(patterns: &'a PatternTable, path: &str) -> Option<&'a str>
    ensures { option_copied result ≡ best_pattern patterns.now path.now }
{
    match patterns.lookup(path).best {
        Some(place) => Some(patterns.texts()[place].as_str()),
        None => None,
    }
}

fn is_same(pattern: Option<&str>, other: Option<&str>) -> bool
    ensures { result ≡ is_same (option_copied pattern.entry) (option_copied other.entry) }
{
    match (pattern, other) {
        (None, None) => true,
        (Some(pattern), Some(other)) => pattern == other,
        (Some(_), None) => false,
        (None, Some(_)) => false,
    }
}

fn candidates(alloc: Global, pattern: Option<&str>) -> Result<Listed<Text>, NoMemory>
    ensures { GivesAnswer result (spec.candidates (option_copied pattern.entry)) }
{
    match pattern {
        Some(pattern) => candidates_of(alloc, form_of(pattern)),
        None => around(alloc, "", &PLAIN_PATHS, ""),
    }
}

fn candidates_of(alloc: Global, form: Form<'_>) -> Result<Listed<Text>, NoMemory>
    ensures { GivesAnswer result (spec.candidates_of (form_seen form.entry)) }
{
    match form {
        Form::Root => around(alloc, "", &["/"], ""),
        Form::Default => around(alloc, "", &PLAIN_PATHS, ""),
        Form::Extension(wanted) => around(alloc, "", &EXTENSION_FRONTS, wanted),
        Form::Prefix(prefix) => around(alloc, prefix, &PREFIX_ENDS, ""),
        Form::Exact(text) => around(alloc, text, &[""], ""),
    }
}

/// Returns each of the texts between the same two texts.
fn around(alloc: Global, front: &str, middles: &[&str], end: &str) -> Result<Listed<Text>, NoMemory>
    ensures { GivesAnswer result (spec.around front.now (map (λ middle. middle.now) middles.now) end.now) }
{
    let mut texts = Vec::with_capacity(alloc, middles.len())?;
    for middle in middles {
        texts.push(joined(alloc, front, *middle, end)?)?;
    }
    Ok(Listed::from_vec(texts))
}

fn joined(alloc: Global, front: &str, middle: &str, end: &str) -> Result<Text, NoMemory>
    ensures { GivesAnswer result (front.now ++ middle.now ++ end.now) }
{
    let mut text = Text::copy_of(alloc, front)?;
    text.push_str(alloc, middle)?;
    text.push_str(alloc, end)?;
    Ok(text)
}
