//! The parts before and after a separator.

ghost use Rattle.std.specs.Prelude.{◌≡◌, ◌==◌, ◌∷◌, false, position, MatchOption};
ghost use Rattle.std.specs.Option.{option_copied};
ghost use Rattle.std.specs.Str.{byte};
ghost use Rattle.sv_uri.specs.Canonical.{begins_with_slash};
ghost use Rattle.sv_uri.specs.Target as target;

fn place_of(bytes: &[u8], separator: u8) -> Option<usize>
    ensures { result ≡ position (λ b. b == separator) bytes.now }
{
    bytes.iter().position(|b| *b == separator)
}

/// Returns the bytes before the first `separator` and those after it. If there is none, returns all bytes and `None`.
pub(crate) fn before_and_behind(bytes: &[u8], separator: u8) -> (&[u8], Option<&[u8]>)
    ensures front { result.0.now ≡ target.before separator bytes.now }
    ensures back { option_copied result.1 ≡ target.behind separator bytes.now }
{
    match place_of(bytes, separator) {
        Some(place) => (&bytes[..place], Some(&bytes[place + 1..])),
        None => (bytes, None),
    }
}

/// Returns the bytes after the slash with which a target begins, if it does.
pub(crate) fn behind_slash(target: &[u8]) -> Option<&[u8]>
    ensures { MatchOption result (begins_with_slash target.now ≡ false)
        (λ relative. target.now ≡ byte "/" ∷ relative.now) }
{
    match target {
        [b'/', relative @ ..] => Some(relative),
        _ => None,
    }
}
