//! The members of a comma-separated field value.

ghost use Rattle.std.specs.Prelude.{◌≡◌, reverse, bytes_eq};
ghost use Rattle.http_header.specs.Token.{lowercase};
ghost use Rattle.httparse.specs.Grammar.{trim_ows, skip_ows};
ghost use Rattle.sv_message.specs.Fields.{is_member, has_member};

use httparse::is_space_or_tab;

/// Returns whether a list contains the word, which is in lower case. Members match in any case.
pub(crate) fn has_member(value: &[u8], word: &[u8]) -> bool
    ensures { result ≡ has_member word.now value.now }
{
    value
        .split(|b| *b == b',')
        .any(|part| is_member(part, word))
}

/// Returns whether a part of a list is the word, in any case and without the blanks around it.
fn is_member(part: &[u8], word: &[u8]) -> bool
    ensures { result ≡ is_member word.now part.now }
{
    is_in_lower_case(trim_blanks(part), word)
}

/// Returns whether the bytes, in lower case, are the word.
pub(crate) fn is_in_lower_case(bytes: &[u8], word: &[u8]) -> bool
    ensures { result ≡ bytes_eq (lowercase bytes.now) word.now }
{
    if bytes.len() != word.len() {
        return false;
    }
    for (i, b) in bytes.iter().enumerate() {
        if b.to_ascii_lowercase() != word[i] {
            return false;
        }
    }
    true
}

/// Returns the bytes without the spaces and tabs around them (RFC 9110, section 5.6.3).
pub fn trim_blanks(bytes: &[u8]) -> &[u8]
    ensures { result.now ≡ trim_ows bytes.now }
{
    trim_end(trim_start(bytes))
}

fn trim_start(mut bytes: &[u8]) -> &[u8]
    ensures { result.now ≡ skip_ows bytes.entry.now }
{
    while let [b, rest @ ..] = bytes {
        if !is_space_or_tab(*b) {
            break;
        }
        bytes = rest;
    }
    bytes
}

fn trim_end(mut bytes: &[u8]) -> &[u8]
    ensures { result.now ≡ reverse (skip_ows (reverse bytes.entry.now)) }
{
    while let [rest @ .., b] = bytes {
        if !is_space_or_tab(*b) {
            break;
        }
        bytes = rest;
    }
    bytes
}
