//! The context of a path.

ghost use Rattle.std.specs.List.{after_first, before_first, list_any};
ghost use Rattle.std.specs.Prelude.{IfSome, IsTrue, List, Some, length, map, nat_lt, not, position, slice_get, ℕ, ◌&&◌, ◌<◌, ◌≡◌};
ghost use Rattle.sv_mapping.specs.Chosen.{is_chosen};
ghost use Rattle.sv_mapping.specs.Pattern.{is_at_or_below, is_slash};
ghost use Rattle.sv_mapping.specs.Protected.{is_protected};
ghost use Rattle.sv_mapping.specs.Within.{path_within};

use crate::form::is_at_or_below;

/// An item with a context path.
pub trait HasContextPath {
    ghost path_of: { Self → List ℕ };

    /// Returns the context path: empty for the root context, otherwise a path that begins with `/` and does not end in
    /// one.
    fn context_path(&self) -> &str
        ensures { result.now ≡ path_of self.now };
}

/// Returns the place of the context of a path: the one with the longest context path that serves it, and the first of
/// equal ones (Jakarta Servlet 6.0, section 12.1). Returns `None` if no context path serves it.
pub fn context_place<C: HasContextPath>(contexts: &[C], path: &str) -> Option<usize>
    ensures chosen { result ≡ position (λ context. is_chosen (map C.path_of contexts.now) path.now (C.path_of context)) contexts.now }
    ensures bound { IfSome result (λ place. place < length contexts.now) }
    ensures above { IfSome result (λ place. (context : C) → slice_get contexts.now place ≡ Some context → IsTrue (is_at_or_below (C.path_of context) path.now)) }
{
    first_as_long(contexts, longest_path(contexts, path), path)
}

/// Returns the place of the first context whose context path serves the path and has at least this length in bytes.
fn first_as_long<C: HasContextPath>(contexts: &[C], len: usize, path: &str) -> Option<usize>
    ensures place { result ≡ position (λ context. is_at_or_below (C.path_of context) path.now && not (nat_lt (length (C.path_of context)) len)) contexts.now }
    ensures bound { IfSome result (λ place. place < length contexts.now) }
{
    contexts
        .iter()
        .position(|context| is_as_long(context, len, path))
}

/// Returns the length in bytes of the longest context path that serves the path, or 0 if none does.
fn longest_path<C: HasContextPath>(contexts: &[C], path: &str) -> usize
    ensures { (len : ℕ) → list_any (λ context. is_at_or_below (C.path_of context) path.now && nat_lt len (length (C.path_of context))) contexts.now ≡ nat_lt len result }
{
    let mut longest = 0;
    for context in contexts {
        if is_longer(context, longest, path) {
            longest = context.context_path().len();
        }
    }
    longest
}

fn is_longer<C: HasContextPath>(context: &C, longest: usize, path: &str) -> bool
    ensures { result ≡ (is_at_or_below (C.path_of context.now) path.now && nat_lt longest (length (C.path_of context.now))) }
{
    let context_path = context.context_path();
    is_at_or_below(context_path, path) && context_path.len() > longest
}

fn is_as_long<C: HasContextPath>(context: &C, len: usize, path: &str) -> bool
    ensures { result ≡ (is_at_or_below (C.path_of context.now) path.now && not (nat_lt (length (C.path_of context.now)) len)) }
{
    let context_path = context.context_path();
    is_at_or_below(context_path, path) && context_path.len() >= len
}

/// Returns the path within a context that serves it: the rest after the context path, or `/` if it is empty.
pub fn path_within<'a>(context: &str, path: &'a str) -> &'a str
    requires { IsTrue (is_at_or_below context.now path.now) }
    ensures { result.now ≡ path_within context.now path.now }
{
    if path == context {
        return "/";
    }
    match path.strip_prefix(context) {
        Some(rest) => rest,
        None => unreachable!(),
    }
}

/// Returns whether the first segment of a path within a context names a folder that is never served to clients, in
/// letters of either case.
#[inline(always)]
pub fn is_protected(path: &str) -> bool
    ensures { result ≡ is_protected path.now }
{
    let folder = before_slash(after_slash(path));
    folder.eq_ignore_ascii_case("WEB-INF") || folder.eq_ignore_ascii_case("META-INF")
}

/// Returns the text after the first slash, or nothing if there is none.
fn after_slash(text: &str) -> &str
    ensures { result.now ≡ after_first is_slash text.now }
{
    match text.split_once('/') {
        Some((_, rest)) => rest,
        None => "",
    }
}

/// Returns the text before the first slash, or all if there is none.
fn before_slash(text: &str) -> &str
    ensures { result.now ≡ before_first is_slash text.now }
{
    match text.split_once('/') {
        Some((front, _)) => front,
        None => text,
    }
}
