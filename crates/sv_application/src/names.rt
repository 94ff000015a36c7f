//! Names of callers and roles as values of fields.

ghost use Rattle.std.specs.Prelude.{◌≡◌, ◌++◌, IfOk, OnOk, string_bytes};
ghost use Rattle.sv_application.specs.Names as spec;

use percent_encoding::{AsciiSet, NON_ALPHANUMERIC, ascii_set, percent_encode};
use std::alloc::Global;
use sv_text::{NoMemory, Text};

// The bytes below 128 that are written as escapes, as are all bytes from 128 on.
const ESCAPED: AsciiSet = ascii_set!(
    NON_ALPHANUMERIC
        .remove(b'-')
        .remove(b'.')
        .remove(b'_')
        .remove(b'~')
);

/// Returns a name in which only the unreserved bytes of a URI are unchanged (RFC 3986, section 2.3). Every other byte
/// becomes `%` with two hexadecimal digits in upper case.
pub(crate) fn encoded_name(alloc: Global, name: &str) -> Result<String, NoMemory>
    ensures { IfOk result (λ text. string_bytes text ≡ spec.encoded_name name.now) }
{
    let mut text = String::with_capacity(alloc, name.len())?;
    percent_encode(name.as_bytes(), ESCAPED).append_to(&mut text)?;
    Ok(text)
}

/// Returns the encoded names of roles, separated by commas.
pub(crate) fn roles_text(alloc: Global, roles: &[Text]) -> Result<String, NoMemory>
    ensures { IfOk result (λ text. string_bytes text ≡ spec.roles_text roles.now) }
{
    let Some((role, others)) = roles.split_first() else {
        return Ok(String::new(alloc));
    };
    let mut text = encoded_name(alloc, role.as_str())?;
    push_others(alloc, &mut text, others)?;
    Ok(text)
}

fn push_others(alloc: Global, text: &mut String, roles: &[Text]) -> Result<(), NoMemory>
    ensures { OnOk result (string_bytes text.new ≡ string_bytes text.old ++ spec.others_text roles.now) }
{
    for role in roles {
        push_other(alloc, text, role.as_str())?;
    }
    Ok(())
}

fn push_other(alloc: Global, text: &mut String, role: &str) -> Result<(), NoMemory>
    ensures { OnOk result (string_bytes text.new ≡ string_bytes text.old ++ spec.other_text role.now) }
{
    let name = encoded_name(alloc, role)?;
    text.push_str(",")?;
    text.push_str(name.as_str())?;
    Ok(())
}
