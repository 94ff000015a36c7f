//! Which patterns are chosen before another one at some of its paths.

ghost use Rattle.std.specs.Prelude.{◌≡◌, IfOk, map};
ghost use Rattle.sv_mapping.specs.Pattern as pattern_spec;
ghost use Rattle.sv_mapping.specs.Form.{form_seen};
ghost use Rattle.sv_mapping.specs.Pattern.{has_extension};
ghost use Rattle.sv_text.specs.Gives.{GivesAnswer};
ghost use Rattle.sv_audit.specs.Narrower as spec;

use crate::forms::form_of;
use crate::narrower_patterns::Narrower;
use crate::order::copied_texts;
use crate::path_shapes::has_dot;
use std::alloc::Global;
use sv_mapping::{Form, extension, is_at_or_below};
use sv_text::NoMemory;

/// Returns the first of the patterns, at most so many, that are chosen before this one at some path that both match
/// (Jakarta Servlet 6.0, section 12.1), in the order given.
///
/// # Errors
/// `NoMemory` if memory runs out.
pub fn narrower(
    alloc: Global,
    patterns: &[&str],
    pattern: &str,
    most: usize,
) -> Result<Narrower, NoMemory>
    ensures { GivesAnswer result (spec.narrower (map (λ one. one.now) patterns.now) pattern.now most) }
{
    let all = all_narrower(alloc, patterns, pattern)?;
    first_of(alloc, all.as_slice(), most)
}

fn first_of(alloc: Global, all: &[&str], most: usize) -> Result<Narrower, NoMemory>
    ensures { GivesAnswer result (spec.first_of (map (λ one. one.now) all.now) most) }
{
    let shown = all.len().min(most);
    Ok(Narrower {
        patterns: copied_texts(alloc, &all[..shown])?,
        are_all: all.len() <= most,
    })
}

fn all_narrower<'a>(
    alloc: Global,
    patterns: &[&'a str],
    pattern: &str,
) -> Result<Vec<&'a str>, NoMemory>
    ensures { IfOk result (λ found. map (λ one. one.now) found.items ≡ spec.all_narrower (map (λ one. one.now) patterns.now) pattern.now) }
{
    let form = form_of(pattern);
    let mut found = Vec::new(alloc);
    for other in patterns {
        if cuts(form_of(other), form) {
            found.push(*other)?;
        }
    }
    Ok(found)
}

/// Returns whether the first form is chosen before the second at a path that both match.
fn cuts(other: Form<'_>, form: Form<'_>) -> bool
    ensures { result ≡ spec.cuts (form_seen other.entry) (form_seen form.entry) }
{
    match form {
        Form::Root => false,
        Form::Exact(_) => false,
        Form::Prefix(prefix) => cuts_prefix(other, prefix),
        Form::Extension(wanted) => cuts_extension(other, wanted),
        Form::Default => cuts_default(other),
    }
}

fn cuts_prefix(other: Form<'_>, prefix: &str) -> bool
    ensures { result ≡ spec.cuts (form_seen other.entry) (pattern_spec.Prefix prefix.now) }
{
    match other {
        Form::Root => is_at_or_below(prefix, "/"),
        Form::Exact(text) => is_at_or_below(prefix, text),
        Form::Prefix(longer) => prefix.len() < longer.len() && is_at_or_below(prefix, longer),
        Form::Extension(_) => false,
        Form::Default => false,
    }
}

fn cuts_extension(other: Form<'_>, wanted: &str) -> bool
    ensures { result ≡ spec.cuts (form_seen other.entry) (pattern_spec.Extension wanted.now) }
{
    match other {
        Form::Root => false,
        Form::Exact(text) => has_extension(text, wanted),
        Form::Prefix(_) => !has_dot(wanted.as_bytes()),
        Form::Extension(_) => false,
        Form::Default => false,
    }
}

fn cuts_default(other: Form<'_>) -> bool
    ensures { result ≡ spec.cuts (form_seen other.entry) pattern_spec.Default }
{
    match other {
        Form::Root => true,
        Form::Exact(_) => true,
        Form::Prefix(_) => true,
        Form::Extension(wanted) => !has_dot(wanted.as_bytes()),
        Form::Default => false,
    }
}

fn has_extension(path: &str, wanted: &str) -> bool
    ensures { result ≡ has_extension wanted.now path.now }
{
    match extension(path) {
        Some(found) => found == wanted,
        None => false,
    }
}
