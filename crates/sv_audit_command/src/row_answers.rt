//! What answers the paths of rows: servlets, or files (Jakarta Servlet 6.0, sections 12.1 and 12.2).

ghost use Rattle.std.specs.Prelude.{◌≡◌, ◌++◌, ◌∷◌, [], IfOk, OnOk, filter, if◌then◌else◌, map, option_copied};
ghost use Rattle.std.specs.List.{list_any};
ghost use Rattle.sv_audit.specs.Reading as reading;
ghost use Rattle.sv_mapping.specs.BestMatch.{best_pattern};
ghost use Rattle.sv_policy.specs.Uncovered.{rising};
ghost use Rattle.sv_text.specs.Gives.{GivesAnswer};
ghost use Rattle.sv_audit_command.specs.RowAnswers as spec;

use crate::context_patterns::{ContextPatterns, servlet_at};
use std::alloc::Global;
use sv_audit::{
    best_text, copied_texts, each_path_is_represented, is_same, matches_nothing, sorted,
};
use sv_mapping::laws::{best_is_a_match, best_stands_first};
use sv_report::Answers;
use sv_text::{Listed, NoMemory, Text};
use sv_uri::laws::canonical_has_shape;

/// A path, by the pattern of its row and the servlet that answers it. Without one files answer it.
#[derive(Drop)]
pub(crate) struct AnsweredPath {
    pub(crate) pattern: Option<Text>,
    pub(crate) servlet: Option<Text>,
}

/// What answers the paths of a context.
#[derive(Drop)]
pub(crate) struct AnsweredPaths {
    /// The names of the servlets with patterns, each once, in ascending byte order.
    pub(crate) names: Listed<Text>,
    /// Paths of which one has the same pattern and the same servlet as any path.
    pub(crate) paths: Listed<AnsweredPath>,
}

/// Returns what answers the paths of a context. There is none if it has too many patterns.
pub(crate) fn answered_paths(
    alloc: Global,
    patterns: &ContextPatterns,
) -> Result<Option<AnsweredPaths>, NoMemory>
    ensures { GivesAnswer result (spec.answered_paths patterns.now) }
{
    match &patterns.paths {
        Some(paths) => Ok(Some(answered_among(alloc, patterns, paths.as_slice())?)),
        None => Ok(None),
    }
}

fn answered_among(
    alloc: Global,
    patterns: &ContextPatterns,
    paths: &[Text],
) -> Result<AnsweredPaths, NoMemory>
    ensures { GivesAnswer result (spec.answered_among patterns.now paths.now) }
{
    Ok(AnsweredPaths {
        names: names_in(alloc, patterns.names.as_slice())?,
        paths: all_answered(alloc, patterns, paths)?,
    })
}

/// Returns the names in ascending byte order, without duplicates.
fn names_in(alloc: Global, names: &[Text]) -> Result<Listed<Text>, NoMemory>
    ensures { GivesAnswer result (rising names.now) }
{
    let names = borrowed(alloc, names)?;
    let names = sorted(alloc, names.as_slice())?;
    copied_texts(alloc, names.as_slice())
}

pub(crate) fn borrowed(alloc: Global, texts: &[Text]) -> Result<Vec<&str>, NoMemory>
    ensures { IfOk result (λ borrowed. map (λ text. text.now) borrowed.items ≡ texts.now) }
{
    let mut borrowed = Vec::with_capacity(alloc, texts.len())?;
    for text in texts {
        borrowed.push(text.as_str())?;
    }
    Ok(borrowed)
}

fn all_answered(
    alloc: Global,
    patterns: &ContextPatterns,
    paths: &[Text],
) -> Result<Listed<AnsweredPath>, NoMemory>
    ensures { GivesAnswer result (map (spec.answered_path patterns.now) (filter (spec.is_answered patterns.now) paths.now)) }
{
    let mut answered = Vec::new(alloc);
    for path in paths {
        push_answered(&mut answered, alloc, patterns, path.as_str())?;
    }
    Ok(Listed::from_vec(answered))
}

/// Appends a path with what answers it, unless that is a servlet whose pattern matches no canonical path.
fn push_answered(
    answered: &mut Vec<AnsweredPath>,
    alloc: Global,
    patterns: &ContextPatterns,
    path: &str,
) -> Result<(), NoMemory>
    ensures { OnOk result (answered.new.items ≡ answered.old.items ++ (if spec.is_answered patterns.now path.now then spec.answered_path patterns.now path.now ∷ [] else [])) }
{
    if !is_answered(patterns, path) {
        return Ok(());
    }
    answered.push(answered_path(alloc, patterns, path)?)?;
    Ok(())
}

/// Returns whether files answer the path, or a servlet whose pattern matches a canonical path.
fn is_answered(patterns: &ContextPatterns, path: &str) -> bool
    ensures { result ≡ spec.is_answered patterns.now path.now }
{
    match best_text(&patterns.servlets, path) {
        Some(pattern) => !matches_nothing(pattern),
        None => true,
    }
}

fn answered_path(
    alloc: Global,
    patterns: &ContextPatterns,
    path: &str,
) -> Result<AnsweredPath, NoMemory>
    ensures { GivesAnswer result (spec.answered_path patterns.now path.now) }
{
    Ok(AnsweredPath {
        pattern: row_pattern(alloc, patterns, path)?,
        servlet: servlet_at(alloc, patterns, path)?,
    })
}

/// Copies the pattern of the row of a path.
fn row_pattern(
    alloc: Global,
    patterns: &ContextPatterns,
    path: &str,
) -> Result<Option<Text>, NoMemory>
    ensures { GivesAnswer result (best_pattern patterns.now.constraints path.now) }
{
    match best_text(&patterns.constraints, path) {
        Some(text) => Ok(Some(Text::copy_of(alloc, text)?)),
        None => Ok(None),
    }
}

/// Returns what answers the paths of the row with this pattern, if the row has any, and if it is known what answers the
/// paths of the context.
pub(crate) fn answers_at(
    alloc: Global,
    answered: &Option<AnsweredPaths>,
    pattern: &Option<Text>,
) -> Result<Option<Answers>, NoMemory>
    ensures { GivesAnswer result (spec.answers_at answered.now pattern.now) }
{
    if is_pathless(pattern) {
        return Ok(None);
    }
    match answered {
        Some(answered) => Ok(Some(answers_among(alloc, answered, pattern)?)),
        None => Ok(None),
    }
}

/// Returns whether the row with the pattern has no canonical path.
fn is_pathless(pattern: &Option<Text>) -> bool
    ensures { result ≡ spec.is_pathless pattern.now }
{
    match pattern {
        Some(pattern) => matches_nothing(pattern.as_str()),
        None => false,
    }
}

fn answers_among(
    alloc: Global,
    answered: &AnsweredPaths,
    pattern: &Option<Text>,
) -> Result<Answers, NoMemory>
    ensures { GivesAnswer result (spec.answers_among pattern.now answered.now) }
{
    let paths = paths_at(alloc, answered.paths.as_slice(), pattern)?;
    answers_of(alloc, answered.names.as_slice(), paths.as_slice())
}

/// Returns the paths of the row with the pattern.
fn paths_at<'a>(
    alloc: Global,
    paths: &'a [AnsweredPath],
    pattern: &Option<Text>,
) -> Result<Vec<&'a AnsweredPath>, NoMemory>
    ensures { IfOk result (λ found. map (λ path. path.now) found.items ≡ filter (spec.is_at pattern.now) paths.now) }
{
    let mut found = Vec::new(alloc);
    for path in paths {
        if is_same(&path.pattern, pattern) {
            found.push(path)?;
        }
    }
    Ok(found)
}

/// Returns which of the servlets answer one of the paths, and whether files do.
fn answers_of(alloc: Global, names: &[Text], paths: &[&AnsweredPath]) -> Result<Answers, NoMemory>
    ensures { GivesAnswer result (spec.answers_of names.now (map (λ path. path.now) paths.now)) }
{
    Ok(Answers {
        servlets: servlets_of(alloc, names, paths)?,
        has_files: have_answer(paths, None),
    })
}

fn servlets_of(
    alloc: Global,
    names: &[Text],
    paths: &[&AnsweredPath],
) -> Result<Listed<Text>, NoMemory>
    ensures { GivesAnswer result (filter (λ name. spec.have_answer (map (λ path. path.now) paths.now) (Some name)) names.now) }
{
    let mut servlets = Vec::new(alloc);
    for name in names {
        if have_answer(paths, Some(name.as_str())) {
            servlets.push(Text::copy_of(alloc, name.as_str())?)?;
        }
    }
    Ok(Listed::from_vec(servlets))
}

/// Returns whether the servlet answers one of the paths. Without a servlet, whether files do.
fn have_answer(paths: &[&AnsweredPath], servlet: Option<&str>) -> bool
    ensures { result ≡ spec.have_answer (map (λ path. path.now) paths.now) (option_copied servlet.entry) }
{
    any_is_answered_by(paths, servlet)
}

fn any_is_answered_by(paths: &[&AnsweredPath], servlet: Option<&str>) -> bool
    ensures { result ≡ list_any (λ path. reading.is_same path.now.servlet (option_copied servlet.entry)) paths.now }
{
    paths.iter().any(|path| is_answered_by(path, servlet))
}

fn is_answered_by(path: &AnsweredPath, servlet: Option<&str>) -> bool
    ensures { result ≡ reading.is_same path.now.servlet (option_copied servlet.entry) }
{
    match (&path.servlet, servlet) {
        (None, None) => true,
        (Some(name), Some(other)) => name.as_str() == other,
        _ => false,
    }
}

/// What answers a path that a context serves is among the answers of its row: the servlet whose pattern is the best match
/// for it, or files. Each of these answers one of the paths of the row, and its pattern matches a canonical path. They are
/// listed for a row with a canonical path, in a context with at most
/// [`MAX_ANSWERED_PATTERNS`](crate::context_patterns::MAX_ANSWERED_PATTERNS) patterns.
pub fn answers_are_exact()
    ensures complete { spec.AnswersAreComplete }
    ensures right { spec.AnswersAreRight }
    ensures listed { spec.AnswersAreListed }
{
    best_is_a_match();
    best_stands_first();
    canonical_has_shape();
    each_path_is_represented();
}
