//! The segments of a path: the bytes after each of its slashes, up to the next.

ghost use Rattle.std.specs.Prelude.{◌≡◌, ◌∷◌, IsTrue};
ghost use Rattle.std.specs.Option.{option_copied};
ghost use Rattle.sv_mapping.specs.Segments.{between_slashes, rest_segments, is_rooted, segments_of};

/// Returns the text after the slash with which a path begins, if it does.
pub(crate) fn behind_root(path: &str) -> Option<&str>
    ensures { rest_segments (option_copied result) ≡ segments_of path.now }
{
    path.strip_prefix("/")
}

/// Splits the first segment off the text after a slash. Returns the segment, and the text after the next slash if there
/// is one.
pub(crate) fn split_segment(text: &str) -> (&str, Option<&str>)
    ensures { between_slashes text.now ≡ result.0.now ∷ rest_segments (option_copied result.1) }
{
    match text.split_once('/') {
        Some((segment, rest)) => (segment, Some(rest)),
        None => (text, None),
    }
}

/// Returns whether the trie may hold a pattern for the path: the path is empty or begins with a slash.
pub(crate) fn is_rooted(path: &str) -> bool
    ensures { result ≡ is_rooted path.now }
{
    path.is_empty() || path.starts_with('/')
}
