//! Targets whose path is canonical as it was written, as most are. They need no walk.

ghost use Rattle.std.specs.Prelude.{◌≡◌, ◌≤◌, length, IfSome};
ghost use Rattle.std.specs.Option.{option_copied};
ghost use Rattle.sv_uri.specs.Plain as spec;

use crate::separator::behind_slash;
use std::str;

fn means_itself(b: u8) -> bool
    ensures { result ≡ spec.means_itself b }
{
    32 <= b && b <= 126 && !(b == b'%' || b == b';' || b == b'\\' || b == b'?' || b == b'#')
}

// Bytes above `?` need the fewest tests, since most bytes are letters.
fn may_follow(before: u8, b: u8) -> bool
    ensures { result ≡ spec.may_follow before b }
{
    if b'?' < b {
        return b <= 126 && b != b'\\';
    }
    means_itself(b) && !(before == b'/' && (b == b'/' || b == b'.'))
}

// Returns the number of bytes before the first that may not follow the one before it.
fn plain_len(target: &[u8]) -> usize
    ensures value { result ≡ spec.plain_len 0 target.now }
    ensures fits { result ≤ length target.now }
{
    let mut before = 0;
    for place in 0..target.len() {
        let b = target[place];
        if !may_follow(before, b) {
            return place;
        }
        before = b;
    }
    target.len()
}

// Reads a text that is empty or a `?` with a query. Returns `None` for any other text and for a query with a `#`.
fn query_alone(text: &[u8]) -> Option<Option<&[u8]>>
    ensures { IfSome result (λ query. spec.IsQueryAlone text.now (option_copied query)) }
{
    match text {
        [] => Some(None),
        [b'?', query @ ..] => {
            if query.contains(&b'#') {
                return None;
            }
            Some(Some(query))
        }
        _ => None,
    }
}

/// Returns the path and the query of a target as they were written, if the path is canonical in this form.
#[inline(always)]
pub(crate) fn plain_parts(target: &[u8]) -> Option<(&str, Option<&[u8]>)>
    ensures { IfSome result (λ parts. spec.HasParts target.now parts.0.now (option_copied parts.1)) }
{
    let Some(_relative) = behind_slash(target) else {
        return None;
    };
    let end = plain_len(target);
    let Some(query) = query_alone(&target[end..]) else {
        return None;
    };
    let Ok(path) = str::from_utf8(&target[..end]) else {
        return None;
    };
    Some((path, query))
}
