//! The words of keys: names that separators would make ambiguous are quoted.

ghost use Rattle.std.specs.Prelude.{◌≡◌, ◌++◌, OnOk, true};
ghost use Rattle.std.specs.List.{flat_map, list_any};
ghost use Rattle.std.specs.String.{string_bytes};
ghost use Rattle.sv_report.specs.Words.{who_text};
ghost use Rattle.sv_text.specs.Gives.{GivesAnswer};
ghost use Rattle.sv_audit_command.specs.KeyWords as spec;

use std::alloc::Global;
use sv_audit::Access;
use sv_report::escaped::characters;
use sv_report::who_text;
use sv_text::{NoMemory, Text};

/// Appends a name. It is in quotation marks if it is empty or has a space, a comma or a quotation mark. A quotation mark
/// in it is doubled (RFC 4180, section 2).
pub(crate) fn push_word(key: &mut String, alloc: Global, name: &str) -> Result<(), NoMemory>
    ensures { OnOk result (string_bytes key.new ≡ string_bytes key.old ++ spec.word name.now) }
{
    if is_ambiguous(name) {
        return push_quoted(key, alloc, name);
    }
    Ok(key.push_str(name)?)
}

/// Returns whether the name is empty or has a separator.
fn is_ambiguous(name: &str) -> bool
    ensures { result ≡ spec.is_ambiguous name.now }
{
    name.is_empty() || has_separator(name.as_bytes())
}

fn has_separator(bytes: &[u8]) -> bool
    ensures { result ≡ list_any spec.is_separator bytes.now }
{
    bytes.iter().any(|byte| is_separator(*byte))
}

fn is_separator(byte: u8) -> bool
    ensures { result ≡ spec.is_separator byte }
{
    byte == b' ' || byte == b',' || byte == b'"'
}

fn push_quoted(key: &mut String, alloc: Global, name: &str) -> Result<(), NoMemory>
    ensures { OnOk result (string_bytes key.new ≡ string_bytes key.old ++ spec.quoted name.now) }
{
    let characters = characters(alloc, name)?;
    key.push_str("\"")?;
    push_characters(key, characters.as_slice())?;
    Ok(key.push_str("\"")?)
}

fn push_characters(key: &mut String, characters: &[char]) -> Result<(), NoMemory>
    ensures { OnOk result (string_bytes key.new ≡ string_bytes key.old ++ flat_map spec.quoted_character characters.now) }
{
    for character in characters {
        push_character(key, *character)?;
    }
    Ok(())
}

fn push_character(key: &mut String, character: char) -> Result<(), NoMemory>
    ensures { OnOk result (string_bytes key.new ≡ string_bytes key.old ++ spec.quoted_character character) }
{
    if character == '"' {
        Ok(key.push_str("\"\"")?)
    } else {
        Ok(key.push(character)?)
    }
}

/// Returns the word of a name, as [`push_word`] appends it.
pub(crate) fn word(alloc: Global, name: &str) -> Result<Text, NoMemory>
    ensures { GivesAnswer result (spec.word name.now) }
{
    let mut text = String::new(alloc);
    push_word(&mut text, alloc, name)?;
    Ok(Text::from_string(text))
}

/// Appends whom an access lets in, with the words of roles.
pub(crate) fn push_access(key: &mut String, alloc: Global, access: &Access) -> Result<(), NoMemory>
    ensures { OnOk result (string_bytes key.new ≡ string_bytes key.old ++ spec.access_text access.now) }
{
    match access {
        Access::Roles(roles) => push_roles(key, alloc, roles.as_slice()),
        access => push_who(key, alloc, access),
    }
}

fn push_roles(key: &mut String, alloc: Global, roles: &[Text]) -> Result<(), NoMemory>
    ensures { OnOk result (string_bytes key.new ≡ string_bytes key.old ++ spec.roles_text roles.now) }
{
    let Some((role, others)) = roles.split_first() else {
        return Ok(key.push_str("nobody (no such role)")?);
    };
    key.push_str("role ")?;
    push_word(key, alloc, role.as_str())?;
    push_others(key, alloc, others)
}

fn push_others(key: &mut String, alloc: Global, roles: &[Text]) -> Result<(), NoMemory>
    ensures { OnOk result (string_bytes key.new ≡ string_bytes key.old ++ flat_map spec.other_role roles.now) }
{
    for role in roles {
        key.push_str(", ")?;
        push_word(key, alloc, role.as_str())?;
    }
    Ok(())
}

fn push_who(key: &mut String, alloc: Global, access: &Access) -> Result<(), NoMemory>
    ensures { OnOk result (string_bytes key.new ≡ string_bytes key.old ++ who_text true access.now) }
{
    let who = who_text(alloc, true, access)?;
    Ok(key.push_str(who.as_str())?)
}
