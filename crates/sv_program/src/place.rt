//! Places in a text.

ghost use Rattle.std.specs.Prelude.{◌≡◌, ◌≤◌, length, not};
ghost use Rattle.std.specs.List.{after_last, count_by, suffix_len};
ghost use Rattle.sv_program.specs.Place as spec;

/// Returns the line of the place after these bytes, from 1.
pub(crate) fn line_behind(before: &[u8]) -> usize
    ensures { result ≡ spec.line_behind before.now }
{
    ends_of_lines(before) + 1
}

/// Returns the column of the place after these bytes, from 1, in characters.
pub(crate) fn column_behind(before: &[u8]) -> usize
    ensures { result ≡ spec.column_behind before.now }
{
    characters(last_line(before)) + 1
}

fn ends_of_lines(text: &[u8]) -> usize
    ensures value { result ≡ count_by spec.ends_line text.now }
    ensures within { result ≤ length text.now }
{
    text.iter().filter(|byte| ends_line(**byte)).count()
}

fn characters(text: &[u8]) -> usize
    ensures value { result ≡ count_by spec.begins_character text.now }
    ensures within { result ≤ length text.now }
{
    text.iter().filter(|byte| begins_character(**byte)).count()
}

/// Returns the bytes after the last line feed.
fn last_line(text: &[u8]) -> &[u8]
    ensures { result.now ≡ after_last spec.ends_line text.now }
{
    &text[text.len() - last_line_length(text)..]
}

fn last_line_length(text: &[u8]) -> usize
    ensures value { result ≡ suffix_len (λ byte. not (spec.ends_line byte)) text.now }
    ensures within { result ≤ length text.now }
{
    text.iter()
        .rev()
        .take_while(|byte| !ends_line(**byte))
        .count()
}

pub(crate) fn ends_line(byte: u8) -> bool
    ensures { result ≡ spec.ends_line byte }
{
    byte == b'\n'
}

/// Returns whether the byte begins a character in UTF-8.
fn begins_character(byte: u8) -> bool
    ensures { result ≡ spec.begins_character byte }
{
    byte < 128 || byte >= 192
}
