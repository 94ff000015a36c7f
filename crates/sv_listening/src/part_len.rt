//! Cutting the bytes read into parts.

ghost use Rattle.std.specs.Prelude.{◌≡◌, ◌+◌, ◌<◌, ◌≤◌, ℕ, false, true, length, slice_index, take};
ghost use Rattle.sv_connection.specs.Pieces as pieces;
ghost use Rattle.sv_listening.specs.Parts as spec;

// Returns the length of the first part: up to the end of the first empty line and of the line ends that follow it, or
// all bytes.
fn part_len(bytes: &[u8]) -> usize
    requires { 0 < length bytes.now }
    ensures some { 0 < result }
    ensures within { result ≤ length bytes.now }
    ensures cut { (place later : ℕ) → pieces.ends_empty_line bytes.now place ≡ true → place < later → later < result → spec.is_line_end (slice_index bytes.now later) ≡ true }
{
    let first = first_end(bytes);
    for place in first..bytes.len() {
        if !is_line_end(bytes[place]) {
            return place;
        }
    }
    bytes.len()
}

// Returns the number of bytes up to the end of the first empty line, or of all.
fn first_end(bytes: &[u8]) -> usize
    requires { 0 < length bytes.now }
    ensures some { 0 < result }
    ensures within { result ≤ length bytes.now }
    ensures none { (place : ℕ) → place + 1 < result → pieces.ends_empty_line bytes.now place ≡ false }
{
    for place in 0..bytes.len() {
        if ends_empty_line(bytes, place) {
            return place + 1;
        }
    }
    bytes.len()
}

// Returns whether an empty line ends at this place.
fn ends_empty_line(bytes: &[u8], place: usize) -> bool
    requires { place < length bytes.now }
    ensures { result ≡ pieces.ends_empty_line bytes.now place }
{
    if bytes[place] != b'\n' {
        return false;
    }
    if begins_line(bytes, place) {
        return true;
    }
    bytes[place - 1] == b'\r' && begins_line(bytes, place - 1)
}

fn begins_line(bytes: &[u8], place: usize) -> bool
    requires { place < length bytes.now }
    ensures { result ≡ pieces.begins_line bytes.now place }
{
    place == 0 || bytes[place - 1] == b'\n'
}

/// Returns the length of the first part, but at most `room`.
#[tactic(auto, using(crate::proofs::PartLemmas::is_part))]
pub(crate) fn fitting_len(bytes: &[u8], room: usize) -> usize
    requires some { 0 < length bytes.now }
    requires room { 0 < room }
    ensures room { result ≤ room }
    ensures within { result ≤ length bytes.now }
    ensures part { spec.IsPart (take result bytes.now) }
{
    let count = part_len(bytes);
    if count > room {
        return room;
    }
    count
}

fn is_line_end(byte: u8) -> bool
    ensures { result ≡ spec.is_line_end byte }
{
    byte == b'\r' || byte == b'\n'
}
