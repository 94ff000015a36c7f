//! Bytes as texts of a log.

ghost use Rattle.std.specs.Prelude.{◌≡◌, ◌++◌, ◌<◌, OnOk, string_bytes, true};
ghost use Rattle.std.specs.Fmt.{digit_glyph};
ghost use Rattle.std.specs.List.{list_all};
ghost use Rattle.sv_access_log.specs.Escaping as spec;

use sv_text::NoMemory;

/// A place in a log for a text, by the bytes that are written there unchanged.
#[derive(Clone, Copy)]
pub(crate) enum Place {
    /// Between blanks.
    Word,
    /// Between quotation marks.
    Quoted,
    /// In a string of JSON, which escapes quotation marks itself.
    Json,
}

/// Appends bytes as they are written in a place: a byte that is not shown there as `\x` and two hexadecimal digits.
pub(crate) fn push_escaped(text: &mut String, place: Place, bytes: &[u8]) -> Result<(), NoMemory>
    ensures { OnOk result (string_bytes text.new ≡ string_bytes text.old ++ spec.escaped place bytes.now) }
{
    for byte in bytes {
        push_byte(text, place, *byte)?;
    }
    Ok(())
}

fn push_byte(text: &mut String, place: Place, byte: u8) -> Result<(), NoMemory>
    ensures { OnOk result (string_bytes text.new ≡ string_bytes text.old ++ spec.byte_text place byte) }
{
    if is_shown(place, byte) {
        Ok(text.push(char::from(byte))?)
    } else {
        push_hex(text, byte)
    }
}

// Returns whether a byte is written unchanged.
fn is_shown(place: Place, byte: u8) -> bool
    ensures value { result ≡ spec.is_shown place byte }
    ensures ascii { result ≡ true → byte < 128 }
{
    let is_plain = is_printable(byte) && byte != b'\\';
    match place {
        Place::Word => is_plain && byte != b'"' && byte != b' ',
        Place::Quoted => is_plain && byte != b'"',
        Place::Json => is_plain,
    }
}

fn is_printable(byte: u8) -> bool
    ensures { result ≡ spec.is_printable byte }
{
    byte >= 32 && byte <= 126
}

fn push_hex(text: &mut String, byte: u8) -> Result<(), NoMemory>
    ensures { OnOk result (string_bytes text.new ≡ string_bytes text.old ++ spec.hex_text byte) }
{
    text.push_str("\\x")?;
    text.push(hex_digit(byte / 16 % 16))?;
    Ok(text.push(hex_digit(byte % 16))?)
}

fn hex_digit(digit: u8) -> char
    requires { digit < 16 }
    ensures value { result ≡ digit_glyph true digit }
    ensures ascii { result < 128 }
{
    char::from(if digit < 10 {
        b'0' + digit
    } else {
        b'A' - 10 + digit
    })
}

/// Appends printable bytes.
pub(crate) fn push_printable(text: &mut String, bytes: &[u8]) -> Result<(), NoMemory>
    requires { list_all spec.is_printable bytes.now ≡ true }
    ensures { OnOk result (string_bytes text.new ≡ string_bytes text.old ++ bytes.now) }
{
    for byte in bytes {
        text.push(char::from(*byte))?;
    }
    Ok(())
}
