//! The fields of a line, and the numbers among them.

ghost use Rattle.std.specs.Prelude.{◌≡◌, ◌==◌, true, position};
ghost use Rattle.std.specs.Option.{option_copied, option_map};
ghost use Rattle.std.specs.Char.{is_ascii_digit};
ghost use Rattle.std.specs.List.{list_all};
ghost use Rattle.sv_script.specs.Fields as spec;

/// Returns the text before the first blank and the text after it, if there is a blank.
pub fn at_blank(text: &[u8]) -> Option<(&[u8], &[u8])>
    ensures { option_map (λ cut. (cut.0.now, cut.1.now)) result ≡ spec.at_blank text.now }
{
    let place = first_blank(text)?;
    Some((&text[..place], &text[place + 1..]))
}

fn first_blank(text: &[u8]) -> Option<usize>
    ensures { result ≡ position (λ b. b == 32) text.now }
{
    text.iter().position(|b| *b == b' ')
}

/// Returns the bytes as a text, if they are UTF-8.
pub fn text_of(bytes: &[u8]) -> Option<&str>
    ensures { option_copied result ≡ spec.text_of bytes.now }
{
    match str::from_utf8(bytes) {
        Ok(text) => Some(text),
        Err(_) => None,
    }
}

/// Returns the number that a text of decimal digits denotes, if it fits 64 bits.
pub(crate) fn number(text: &[u8]) -> Option<u64>
    ensures { result ≡ spec.number text.now }
{
    if !has_digits_alone(text) {
        return None;
    }
    match str::from_utf8(text) {
        Ok(text) => number_of_digits(text),
        Err(_) => None,
    }
}

fn has_digits_alone(text: &[u8]) -> bool
    ensures { result ≡ list_all is_ascii_digit text.now }
{
    text.iter().all(|b| b.is_ascii_digit())
}

fn number_of_digits(text: &str) -> Option<u64>
    requires { list_all is_ascii_digit text.now ≡ true }
    ensures { result ≡ spec.number text.now }
{
    text.parse::<u64>().ok()
}
