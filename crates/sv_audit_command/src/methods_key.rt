//! The methods in the key of a finding.

ghost use Rattle.std.specs.Prelude.{◌≡◌, ◌++◌, OnOk};
ghost use Rattle.std.specs.String.{string_bytes};
ghost use Rattle.sv_program.specs.Uncovered.{names_text, omission_text, others_text};
ghost use Rattle.sv_audit_command.specs.MethodsKey as spec;

use sv_constraints::Methods;
use sv_text::{NoMemory, Text};

/// Appends `*` for all methods, names for only these, or `!` and names for all but these. `=` precedes names for only
/// these if the first one is `*` or begins with `!`, since it could be read as one of the others.
pub(crate) fn push_methods(key: &mut String, methods: &Methods) -> Result<(), NoMemory>
    ensures { OnOk result (string_bytes key.new ≡ string_bytes key.old ++ spec.methods_key methods.now) }
{
    match methods {
        Methods::All => Ok(key.push_str("*")?),
        Methods::Only(names) => push_only(key, names.as_slice()),
        Methods::Except(names) => push_omission(key, names.as_slice()),
    }
}

fn push_only(key: &mut String, names: &[Text]) -> Result<(), NoMemory>
    ensures { OnOk result (string_bytes key.new ≡ string_bytes key.old ++ (spec.mark names.now ++ names_text names.now)) }
{
    push_mark(key, names)?;
    push_texts(key, names)
}

fn push_mark(key: &mut String, names: &[Text]) -> Result<(), NoMemory>
    ensures { OnOk result (string_bytes key.new ≡ string_bytes key.old ++ spec.mark names.now) }
{
    if begin_ambiguously(names) {
        key.push_str("=")?;
    }
    Ok(())
}

/// Returns whether the first of names is ambiguous.
fn begin_ambiguously(names: &[Text]) -> bool
    ensures { result ≡ spec.begin_ambiguously names.now }
{
    match names.first() {
        Some(name) => is_ambiguous(name.as_str()),
        None => false,
    }
}

/// Returns whether a name begins as the text of all methods or of an omission does.
fn is_ambiguous(name: &str) -> bool
    ensures { result ≡ spec.is_ambiguous name.now }
{
    name == "*" || name.starts_with('!')
}

fn push_omission(key: &mut String, names: &[Text]) -> Result<(), NoMemory>
    ensures { OnOk result (string_bytes key.new ≡ string_bytes key.old ++ omission_text names.now) }
{
    if names.is_empty() {
        return Ok(key.push_str("*")?);
    }
    key.push_str("!")?;
    push_texts(key, names)
}

/// Appends texts, separated by commas.
pub(crate) fn push_texts(key: &mut String, texts: &[Text]) -> Result<(), NoMemory>
    ensures { OnOk result (string_bytes key.new ≡ string_bytes key.old ++ names_text texts.now) }
{
    let Some((text, others)) = texts.split_first() else {
        return Ok(());
    };
    key.push_str(text.as_str())?;
    push_others(key, others)
}

fn push_others(key: &mut String, others: &[Text]) -> Result<(), NoMemory>
    ensures { OnOk result (string_bytes key.new ≡ string_bytes key.old ++ others_text others.now) }
{
    for other in others {
        key.push_str(",")?;
        key.push_str(other.as_str())?;
    }
    Ok(())
}

/// Methods with the same key are the same, if each of their names has some bytes, but no comma and no `=`, as a token has.
/// All methods but none are all methods.
pub fn keys_tell_methods()
    ensures { spec.KeysTellMethods }
{}
