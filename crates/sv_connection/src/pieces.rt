//! Cutting the bytes read into pieces.

ghost use Rattle.std.specs.Prelude.{◌≡◌, ◌+◌, ◌<◌, ◌≤◌, ℕ, false, length};
ghost use Rattle.sv_connection.specs.Pieces as spec;

use memchr::memchr;

/// Returns the length of the first piece: up to the end of the first empty line, or all bytes.
pub(crate) fn piece_len(bytes: &[u8]) -> usize
    requires { 0 < length bytes.now }
    ensures some { 0 < result }
    ensures within { result ≤ length bytes.now }
    ensures cut { (place : ℕ) → place + 1 < result → spec.ends_empty_line bytes.now place ≡ false }
{
    let mut at = 0;
    while at < bytes.len() {
        let Some(behind) = memchr(b'\n', bytes.split_at(at).1) else {
            return bytes.len();
        };
        let place = at + behind;
        at = place + 1;
        if ends_empty_line(bytes, place) {
            return at;
        }
    }
    bytes.len()
}

// Returns whether an empty line ends at this place.
fn ends_empty_line(bytes: &[u8], place: usize) -> bool
    requires { place < length bytes.now }
    ensures { result ≡ spec.ends_empty_line bytes.now place }
{
    if bytes[place] != b'\n' {
        return false;
    }
    if begins_line(bytes, place) {
        return true;
    }
    is_lone_return(bytes, place - 1)
}

fn begins_line(bytes: &[u8], place: usize) -> bool
    requires { place < length bytes.now }
    ensures { result ≡ spec.begins_line bytes.now place }
{
    place == 0 || bytes[place - 1] == b'\n'
}

fn is_lone_return(bytes: &[u8], place: usize) -> bool
    requires { place < length bytes.now }
    ensures { result ≡ spec.is_lone_return bytes.now place }
{
    bytes[place] == b'\r' && begins_line(bytes, place)
}
