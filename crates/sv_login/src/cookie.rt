//! A single cookie of a request.

ghost use Rattle.std.specs.Prelude.{◌≡◌, ◌==◌, ◌<◌, IfSome, length, position};
ghost use Rattle.std.specs.Option.{option_copied};
ghost use Rattle.std.specs.Str.{byte};
ghost use Rattle.sv_login.specs.Cookies.{behind_name, value_of};

/// Returns the value of a cookie, if the cookie has this name. The text is a cookie without surrounding blanks, and is
/// cut at its first `=`. Quotes belong to the value, and names are case-sensitive.
pub fn cookie_value<'a>(name: &str, text: &'a [u8]) -> Option<&'a [u8]>
    ensures { option_copied result ≡ value_of name.now text.now }
{
    let place = first_equals(text)?;
    behind_name(name, text, place)
}

/// Returns the index of the first `=`.
fn first_equals(text: &[u8]) -> Option<usize>
    ensures place { result ≡ position (λ b. b == byte "=") text.now }
    ensures bound { IfSome result (λ place. place < length text.now) }
{
    text.iter().position(|b| *b == b'=')
}

/// Returns the text after an index, if the text before it is the name.
#[tactic(auto, using(std::proofs::lemmas::List::take_rest))]
fn behind_name<'a>(name: &str, text: &'a [u8], place: usize) -> Option<&'a [u8]>
    requires { place < length text.now }
    ensures { option_copied result ≡ behind_name name.now text.now place }
{
    if &text[..place] == name.as_bytes() {
        Some(&text[place + 1..])
    } else {
        None
    }
}
