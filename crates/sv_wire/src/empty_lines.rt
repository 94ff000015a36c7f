//! The empty lines before a request.

ghost use Rattle.std.specs.Prelude.{◌≡◌, ◌-◌, ◌≤◌, length, drop};
ghost use Rattle.sv_wire.specs.EmptyLines.{is_of_empty_line, drop_empty_lines};

/// Returns the stream after the empty lines at its start.
pub(crate) fn behind_empty_lines(stream: &[u8]) -> &[u8]
    ensures value { result.now ≡ drop_empty_lines stream.now }
    ensures end { result.now ≡ drop (length stream.now - length result.now) stream.now }
    ensures fits { length result.now ≤ length stream.now }
{
    &stream[empty_lines_len(stream)..]
}

/// Returns the number of bytes in the empty lines at the start of the stream.
fn empty_lines_len(stream: &[u8]) -> usize
    ensures fits { result ≤ length stream.now }
    ensures behind { drop result stream.now ≡ drop_empty_lines stream.now }
{
    for (i, b) in stream.iter().enumerate() {
        if !is_of_empty_line(*b, &stream[i + 1..]) {
            return i;
        }
    }
    stream.len()
}

/// Returns whether a byte belongs to an empty line, given the bytes after it.
fn is_of_empty_line(b: u8, next: &[u8]) -> bool
    ensures { result ≡ is_of_empty_line b next.now }
{
    match b {
        b'\n' => true,
        b'\r' => matches!(next, [b'\n', ..]),
        _ => false,
    }
}
