//! Parameters of a form.

ghost use Rattle.std.specs.Option.{option_copied};
ghost use Rattle.std.specs.Prelude.{bytes_eq, ◌≡◌};
ghost use Rattle.sv_message.specs.Form.{before_parameters, form_parameters, is_form, is_form_type, media_type};
ghost use Rattle.sv_message.specs.Parameters.{first_named, parameters_of, text_of};
ghost use Rattle.sv_text.specs.Gives.{GivesAnswer};

use crate::members::trim_blanks;
use form_urlencoded::{decode, raw_pairs};
use std::alloc::Global;
use sv_text::{NoMemory, Text};

/// Returns whether the body of a request with the method and the Content-Type is a form (Jakarta Servlet 6.0, section
/// 3.1.1). It is one if the method is POST and the media type is that of forms, in any case and with any parameters.
pub fn is_form(method: &str, content_type: Option<&[u8]>) -> bool
    ensures { result ≡ is_form method.now (option_copied content_type.entry) }
{
    match content_type {
        Some(value) => method == "POST" && is_form_type(value),
        None => false,
    }
}

/// Returns the value of the first parameter with the name, which is case-sensitive, in a body that is a form. Returns
/// `None` if there is none (Jakarta Servlet 6.0, section 3.1.1). A body that is not a form has no parameters.
///
/// # Errors
/// [`NoMemory`]: an allocation failed.
pub fn first_of_form(
    alloc: Global,
    method: &str,
    content_type: Option<&[u8]>,
    body: &[u8],
    name: &str,
) -> Result<Option<Text>, NoMemory>
    ensures { GivesAnswer result (first_named name.now (form_parameters method.now (option_copied content_type.entry) body.now)) }
{
    if is_form(method, content_type) {
        first_of_query(alloc, body, name)
    } else {
        Ok(None)
    }
}

/// Returns the value of the first parameter with the name, which is case-sensitive, in a query or a form. Returns
/// `None` if there is none (URL Standard, section 5.1). A `+` means a space, escapes are decoded, a bad escape is kept
/// as it is, and invalid UTF-8 becomes U+FFFD.
///
/// # Errors
/// [`NoMemory`]: an allocation failed.
pub fn first_of_query(alloc: Global, query: &[u8], name: &str) -> Result<Option<Text>, NoMemory>
    ensures { GivesAnswer result (first_named name.now (parameters_of query.now)) }
{
    for (key, value) in raw_pairs(query) {
        if is_named(alloc, key, name)? {
            return Ok(Some(text_of(alloc, value)?));
        }
    }
    Ok(None)
}

// Returns whether an encoded name decodes to the given one.
fn is_named(alloc: Global, key: &[u8], name: &str) -> Result<bool, NoMemory>
    ensures { GivesAnswer result (bytes_eq (text_of key.now) name.now) }
{
    let key = decode(alloc, key)?;
    Ok(key.as_str() == name)
}

/// Decodes a text of a query or a form (URL Standard, section 5.1).
///
/// # Errors
/// [`NoMemory`]: an allocation failed.
pub fn text_of(alloc: Global, written: &[u8]) -> Result<Text, NoMemory>
    ensures { GivesAnswer result (text_of written.now) }
{
    let text = decode(alloc, written)?;
    Ok(Text::from_string(text.into_owned(alloc)?))
}

/// Returns whether the value of a Content-Type names the media type of forms, with any parameters (RFC 9110, section
/// 8.3.1).
pub(crate) fn is_form_type(value: &[u8]) -> bool
    ensures { result ≡ is_form_type value.now }
{
    media_type(value).eq_ignore_ascii_case(b"application/x-www-form-urlencoded")
}

/// Returns the media type in the value of a Content-Type, without its parameters and the blanks around it. Its case is
/// kept (RFC 9110, section 8.3.1).
pub fn media_type(value: &[u8]) -> &[u8]
    ensures { result.now ≡ media_type value.now }
{
    trim_blanks(before_parameters(value))
}

fn before_parameters(value: &[u8]) -> &[u8]
    ensures { result.now ≡ before_parameters value.now }
{
    match value.iter().position(|b| *b == b';') {
        Some(end) => &value[..end],
        None => value,
    }
}
