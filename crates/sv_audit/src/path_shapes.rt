//! Patterns that match no canonical path.

ghost use Rattle.std.specs.Prelude.{◌≡◌, ◌&&◌, zip};
ghost use Rattle.std.specs.List.{list_all, list_any};
ghost use Rattle.sv_mapping.specs.Form.{form_seen};
ghost use Rattle.sv_mapping.specs.Pattern.{is_dot, is_slash};
ghost use Rattle.sv_uri.specs.Shape.{is_dot_segment, may_stand_in_a_path};
ghost use Rattle.sv_audit.specs.Shapes as spec;

use crate::forms::form_of;
use sv_mapping::Form;

/// Returns whether the pattern matches no canonical path.
pub fn matches_nothing(pattern: &str) -> bool
    ensures { result ≡ spec.matches_nothing pattern.now }
{
    form_matches_nothing(form_of(pattern))
}

fn form_matches_nothing(form: Form<'_>) -> bool
    ensures { result ≡ spec.form_matches_nothing (form_seen form.entry) }
{
    match form {
        Form::Root => false,
        Form::Default => false,
        Form::Extension(wanted) => is_no_extension(wanted.as_bytes()),
        Form::Prefix(prefix) => is_misshapen(prefix.as_bytes()),
        Form::Exact(text) => is_misshapen(text.as_bytes()),
    }
}

fn is_no_extension(wanted: &[u8]) -> bool
    ensures { result ≡ spec.is_no_extension wanted.now }
{
    has_dot(wanted) || !may_be_in_a_path(wanted)
}

pub fn has_dot(bytes: &[u8]) -> bool
    ensures { result ≡ list_any is_dot bytes.now }
{
    bytes.contains(&b'.')
}

/// Returns whether the text is no canonical path, and none lies below it.
fn is_misshapen(text: &[u8]) -> bool
    ensures { result ≡ spec.is_misshapen text.now }
{
    has_empty_folder(text) || has_dot_segment(text) || !may_be_in_a_path(text)
}

/// Returns whether two slashes enclose an empty segment.
pub fn has_empty_folder(text: &[u8]) -> bool
    ensures { result ≡ spec.has_empty_folder text.now }
{
    match text.split_first() {
        Some((_, rest)) => are_slashes_in_pairs(text, rest),
        None => false,
    }
}

/// Returns whether slashes are at the same place of both texts.
fn are_slashes_in_pairs(text: &[u8], rest: &[u8]) -> bool
    ensures { result ≡ list_any (λ pair. is_slash pair.0 && is_slash pair.1) (zip text.now rest.now) }
{
    text.iter()
        .zip(rest)
        .any(|(b, next)| *b == b'/' && *next == b'/')
}

fn has_dot_segment(text: &[u8]) -> bool
    ensures { result ≡ spec.has_dot_segment text.now }
{
    text.split(|b| *b == b'/').any(is_dot_segment)
}

fn is_dot_segment(segment: &[u8]) -> bool
    ensures { result ≡ is_dot_segment segment.now }
{
    segment == b".".as_slice() || segment == b"..".as_slice()
}

/// Returns whether a canonical path may have all these bytes.
fn may_be_in_a_path(bytes: &[u8]) -> bool
    ensures { result ≡ list_all may_stand_in_a_path bytes.now }
{
    bytes.iter().all(|b| !(*b < 32 || *b == 127 || *b == b'\\'))
}
