//! Patterns at which nothing answers.

ghost use Rattle.std.specs.Prelude.{◌≡◌, ◌++◌, IfOk, OnOk, filter, map};
ghost use Rattle.std.specs.List.{flat_map, list_any};
ghost use Rattle.sv_constraints.specs.Covering as covering;
ghost use Rattle.sv_mapping.specs.Form.{form_seen};
ghost use Rattle.sv_mapping.specs.Pattern as pattern_spec;
ghost use Rattle.sv_policy.specs.Patterns.{different};
ghost use Rattle.sv_text.specs.Gives.{GivesAnswer};
ghost use Rattle.sv_findings.specs.Unserved as spec;
ghost use Rattle.sv_findings.specs.declared.finding.Finding.TheVariants as finding;

use crate::dead::decides_nothing;
use crate::finding::Finding;
use crate::listed_patterns::ListedPatterns;
use crate::reach::Reaches;
use crate::role_findings::push_once;
use crate::surroundings::Surroundings;
use std::alloc::Global;
use sv_audit::{all_patterns, form_of, patterns_in};
use sv_constraints::Constraint;
use sv_mapping::{Form, extension, is_at_or_below, is_protected};
use sv_text::{NoMemory, Text};

/// With more patterns than so many, none is compared with servlets and files.
pub const MAX_SERVED_PATTERNS: usize = 2_000;

/// What patterns are compared with.
#[derive(Drop)]
struct Site<'r, 'c, 's, 'f, 't> {
    reaches: &'r Reaches<'r>,
    /// The patterns of all constraints.
    listed: ListedPatterns<'c>,
    servlets: &'s [Text],
    /// The files that requests reach.
    files: &'f [&'t str],
}

/// Appends the patterns of constraints at which no servlet and no file answers: no servlet pattern can match one of
/// their paths, and none of their paths is that of a file that requests reach, or of a folder that holds one. Appends
/// each pattern of a constraint once, and none if the files are not known, or if there are more than
/// [`MAX_SERVED_PATTERNS`] patterns.
pub fn push_unserved(
    findings: &mut Vec<Finding>,
    alloc: Global,
    reaches: &Reaches<'_>,
    surroundings: &Surroundings,
    constraints: &[Constraint],
) -> Result<(), NoMemory>
    ensures { OnOk result (findings.new.items ≡ findings.old.items ++ spec.unserved reaches.now.0 reaches.now.1 surroundings.now constraints.now) }
{
    let Some(files) = &surroundings.files else {
        return Ok(());
    };
    if are_many(alloc, constraints)? {
        return Ok(());
    }
    push_unserved_few(
        findings,
        alloc,
        reaches,
        surroundings.servlets.as_slice(),
        constraints,
        files.as_slice(),
    )
}

fn push_unserved_few(
    findings: &mut Vec<Finding>,
    alloc: Global,
    reaches: &Reaches<'_>,
    servlets: &[Text],
    constraints: &[Constraint],
    files: &[Text],
) -> Result<(), NoMemory>
    ensures { OnOk result (findings.new.items ≡ findings.old.items
        ++ flat_map (spec.unserved_in (spec.is_unserved reaches.now.0 reaches.now.1 (covering.all_patterns constraints.now) servlets.now (spec.reached_files reaches.now.0 reaches.now.1 files.now))) constraints.now) }
{
    let files = reached_files(alloc, reaches, files)?;
    let site = Site {
        reaches,
        listed: ListedPatterns::of(alloc, constraints)?,
        servlets,
        files: files.as_slice(),
    };
    push_unserved_at(findings, alloc, &site, constraints)
}

/// Returns the files that requests reach.
fn reached_files<'a>(
    alloc: Global,
    reaches: &Reaches<'_>,
    files: &'a [Text],
) -> Result<Vec<&'a str>, NoMemory>
    ensures { IfOk result (λ kept. map (λ file. file.now) kept.items ≡ spec.reached_files reaches.now.0 reaches.now.1 files.now) }
{
    let mut kept = Vec::new(alloc);
    for file in files {
        if is_reached_file(alloc, reaches, file.as_str())? {
            kept.push(file.as_str())?;
        }
    }
    Ok(kept)
}

fn is_reached_file(alloc: Global, reaches: &Reaches<'_>, path: &str) -> Result<bool, NoMemory>
    ensures { GivesAnswer result (spec.is_reached_file reaches.now.0 reaches.now.1 path.now) }
{
    let mut target = Text::copy_of(alloc, reaches.context())?;
    target.push_str(alloc, path)?;
    Ok(reaches.serves(target.as_str()) && !is_protected(path))
}

/// Returns whether there are too many patterns to compare them with servlets and files.
pub fn are_many(alloc: Global, constraints: &[Constraint]) -> Result<bool, NoMemory>
    ensures { GivesAnswer result (spec.are_many constraints.now) }
{
    let patterns = all_patterns(alloc, constraints)?;
    Ok(patterns.len() > MAX_SERVED_PATTERNS)
}

fn push_unserved_at(
    findings: &mut Vec<Finding>,
    alloc: Global,
    site: &Site<'_, '_, '_, '_, '_>,
    constraints: &[Constraint],
) -> Result<(), NoMemory>
    ensures { OnOk result (findings.new.items ≡ findings.old.items
        ++ flat_map (spec.unserved_in (spec.is_unserved site.now.reaches.now.0 site.now.reaches.now.1 site.now.listed site.now.servlets.now (map (λ file. file.now) site.now.files.now))) constraints.now) }
{
    for constraint in constraints {
        push_unserved_in(findings, alloc, site, constraint)?;
    }
    Ok(())
}

fn push_unserved_in(
    findings: &mut Vec<Finding>,
    alloc: Global,
    site: &Site<'_, '_, '_, '_, '_>,
    constraint: &Constraint,
) -> Result<(), NoMemory>
    ensures { OnOk result (findings.new.items ≡ findings.old.items
        ++ spec.unserved_in (spec.is_unserved site.now.reaches.now.0 site.now.reaches.now.1 site.now.listed site.now.servlets.now (map (λ file. file.now) site.now.files.now)) constraint.now) }
{
    let patterns = patterns_in(alloc, constraint)?;
    push_unserved_of(
        findings,
        alloc,
        site,
        constraint.number,
        patterns.as_slice(),
    )
}

fn push_unserved_of(
    findings: &mut Vec<Finding>,
    alloc: Global,
    site: &Site<'_, '_, '_, '_, '_>,
    number: u64,
    patterns: &[&str],
) -> Result<(), NoMemory>
    ensures { OnOk result (findings.new.items ≡ findings.old.items
        ++ map (finding.Unserved number) (different (filter (spec.is_unserved site.now.reaches.now.0 site.now.reaches.now.1 site.now.listed site.now.servlets.now (map (λ file. file.now) site.now.files.now)) (map (λ pattern. pattern.now) patterns.now)))) }
{
    for pattern in unserved_of(alloc, site, patterns)?.as_slice() {
        findings.push(Finding::Unserved(number, Text::copy_of(alloc, *pattern)?))?;
    }
    Ok(())
}

fn unserved_of<'a>(
    alloc: Global,
    site: &Site<'_, '_, '_, '_, '_>,
    patterns: &[&'a str],
) -> Result<Vec<&'a str>, NoMemory>
    ensures { IfOk result (λ kept. map (λ pattern. pattern.now) kept.items ≡ different (filter (spec.is_unserved site.now.reaches.now.0 site.now.reaches.now.1 site.now.listed site.now.servlets.now (map (λ file. file.now) site.now.files.now)) (map (λ pattern. pattern.now) patterns.now))) }
{
    let mut kept = Vec::new(alloc);
    for pattern in patterns {
        if is_unserved(alloc, site, pattern)? {
            push_once(&mut kept, *pattern)?;
        }
    }
    Ok(kept)
}

fn is_unserved(
    alloc: Global,
    site: &Site<'_, '_, '_, '_, '_>,
    pattern: &str,
) -> Result<bool, NoMemory>
    ensures { GivesAnswer result (spec.is_unserved site.now.reaches.now.0 site.now.reaches.now.1 site.now.listed site.now.servlets.now (map (λ file. file.now) site.now.files.now) pattern.now) }
{
    let is_reached = site.reaches.is_reached(alloc, pattern)?;
    Ok(
        is_reached
            && !decides_nothing(&site.listed, pattern)
            && !may_answer(form_of(pattern), site.servlets)
            && !may_be_among(form_of(pattern), site.files),
    )
}

/// Returns whether a servlet may be at a path of the form.
fn may_answer(form: Form<'_>, servlets: &[Text]) -> bool
    ensures { result ≡ spec.may_answer (form_seen form.entry) servlets.now }
{
    servlets
        .iter()
        .any(|servlet| may_meet(form, form_of(servlet.as_str())))
}

/// Returns whether a file, or a folder that holds one, may be at a path of the form.
fn may_be_among(form: Form<'_>, files: &[&str]) -> bool
    ensures { result ≡ spec.may_be_among (form_seen form.entry) (map (λ file. file.now) files.now) }
{
    may_hold_one(form, files)
}

fn may_hold_one(form: Form<'_>, files: &[&str]) -> bool
    ensures { result ≡ list_any (λ file. spec.may_hold (form_seen form.entry) file.now) files.now }
{
    files.iter().any(|file| may_hold(form, file))
}

/// Returns whether both forms may match a path.
fn may_meet(form: Form<'_>, other: Form<'_>) -> bool
    ensures { result ≡ spec.may_meet (form_seen form.entry) (form_seen other.entry) }
{
    match form {
        Form::Root => form_matches(other, "/"),
        Form::Default => true,
        Form::Extension(wanted) => meets_extension(wanted, other),
        Form::Prefix(prefix) => meets_prefix(prefix, other),
        Form::Exact(text) => form_matches(other, text),
    }
}

fn meets_prefix(prefix: &str, other: Form<'_>) -> bool
    ensures { result ≡ spec.meets_prefix prefix.now (form_seen other.entry) }
{
    match other {
        Form::Root => is_at_or_below(prefix, "/"),
        Form::Default => true,
        Form::Extension(_) => true,
        Form::Prefix(other) => is_at_or_below(prefix, other) || is_at_or_below(other, prefix),
        Form::Exact(text) => is_at_or_below(prefix, text),
    }
}

fn meets_extension(wanted: &str, other: Form<'_>) -> bool
    ensures { result ≡ spec.meets_extension wanted.now (form_seen other.entry) }
{
    match other {
        Form::Root => has_extension(wanted, "/"),
        Form::Default => true,
        Form::Extension(other) => wanted == other,
        Form::Prefix(_) => true,
        Form::Exact(text) => has_extension(wanted, text),
    }
}

fn form_matches(form: Form<'_>, path: &str) -> bool
    ensures { result ≡ pattern_spec.form_matches (form_seen form.entry) path.now }
{
    match form {
        Form::Root => path == "/",
        Form::Default => true,
        Form::Extension(wanted) => has_extension(wanted, path),
        Form::Prefix(prefix) => is_at_or_below(prefix, path),
        Form::Exact(text) => path == text,
    }
}

fn has_extension(wanted: &str, path: &str) -> bool
    ensures { result ≡ pattern_spec.has_extension wanted.now path.now }
{
    match extension(path) {
        Some(found) => found == wanted,
        None => false,
    }
}

/// Returns whether the form may match the path of the file, or of a folder that holds it.
fn may_hold(form: Form<'_>, file: &str) -> bool
    ensures { result ≡ spec.may_hold (form_seen form.entry) file.now }
{
    match form {
        Form::Root => true,
        Form::Default => true,
        Form::Extension(wanted) => has_segment_with(wanted, file),
        Form::Prefix(prefix) => holds(prefix, file),
        Form::Exact(text) => holds(text, file),
    }
}

/// Returns whether the path is that of the file, or of a folder that holds it, without or with a slash at its end.
fn holds(path: &str, file: &str) -> bool
    ensures { result ≡ spec.holds path.now file.now }
{
    is_at_or_below(path, file) || is_folder_of(path, file)
}

fn is_folder_of(path: &str, file: &str) -> bool
    ensures { result ≡ spec.is_folder_of path.now file.now }
{
    path.as_bytes().ends_with(b"/") && file.as_bytes().starts_with(path.as_bytes())
}

/// Returns whether a segment of the path has the extension.
fn has_segment_with(wanted: &str, path: &str) -> bool
    ensures { result ≡ spec.has_segment_with wanted.now path.now }
{
    path.split('/')
        .any(|segment| has_extension(wanted, segment))
}
