//! Encoded names of form fields, compared without decoding them into memory.

ghost use Rattle.std.specs.Prelude.{◌≡◌, ◌∷◌, [], IsAscii, MatchOption, bytes_eq, map};
ghost use Rattle.form_urlencoded.specs.Form.{decode, plus_to_space};
ghost use Rattle.percent_encoding.specs.Percent.{KeepsFirst};
ghost use Rattle.sv_message.specs.Parameters.{text_of};

/// Returns whether an encoded name decodes to the given one (URL Standard, section 5.1). It does not allocate, and it
/// stops at the first byte that differs.
#[inline(always)]
pub(crate) fn is_name(encoded: &[u8], name: &str) -> bool
    requires { IsAscii name.now }
    ensures { result ≡ bytes_eq (text_of encoded.now) name.now }
{
    encoded.len() >= name.len() && decodes_to(encoded, name.as_bytes())
}

fn decodes_to(encoded: &[u8], bytes: &[u8]) -> bool
    ensures { result ≡ bytes_eq (decode encoded.now) bytes.now }
{
    let Some((byte, rest)) = first_decoded(encoded) else {
        return bytes.is_empty();
    };
    let Some((expected, others)) = bytes.split_first() else {
        return false;
    };
    byte == *expected && decodes_to(rest, others)
}

/// Returns the first byte of the decoded text, and the encoded rest.
#[inline(always)]
fn first_decoded(encoded: &[u8]) -> Option<(u8, &[u8])>
    ensures { MatchOption result (decode encoded.now ≡ []) (λ found. decode encoded.now ≡ found.0 ∷ decode found.1.now) }
{
    if let Some(found) = first_escaped(encoded) {
        return Some(found);
    }
    let (byte, rest) = encoded.split_first()?;
    let decoded = if *byte == b'+' { b' ' } else { *byte };
    Some((decoded, rest))
}

/// Returns the byte of the escape at the front, and the encoded rest.
#[inline(always)]
fn first_escaped(encoded: &[u8]) -> Option<(u8, &[u8])>
    ensures { MatchOption result (KeepsFirst (map plus_to_space encoded.now)) (λ found. decode encoded.now ≡ found.0 ∷ decode found.1.now) }
{
    let [b'%', high, low, rest @ ..] = encoded else {
        return None;
    };
    let high = char::from(*high).to_digit(16)?;
    let low = char::from(*low).to_digit(16)?;
    Some((high as u8 * 16 + low as u8, rest))
}
