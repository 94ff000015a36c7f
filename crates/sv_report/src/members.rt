//! The members of JSON objects.

ghost use Rattle.std.specs.Prelude.{◌≡◌, IfOk, OnOk};
ghost use Rattle.serde_json.specs.Data.{boolean, put as with_member, string};
ghost use Rattle.serde_json.specs.View.{members_view, view};
ghost use Rattle.sv_report.specs.JsonParts as spec;

use crate::finding_words::unsearched_name;
use serde_json::{Map, Value, put};
use std::alloc::Global;
use sv_findings::Unsearched;
use sv_text::{NoMemory, Text};

/// Puts a text.
pub fn put_text(
    members: &mut Map<String, Value>,
    alloc: Global,
    name: &str,
    text: &str,
) -> Result<(), NoMemory>
    ensures { OnOk result (members_view members.new.entries ≡ with_member name.now (string text.now) (members_view members.old.entries)) }
{
    let value = Value::try_from_str(alloc, text)?;
    Ok(put(members, alloc, name, value)?)
}

/// Puts a value.
pub fn put_value(
    members: &mut Map<String, Value>,
    alloc: Global,
    name: &str,
    value: Value,
) -> Result<(), NoMemory>
    ensures { OnOk result (members_view members.new.entries ≡ with_member name.now (view value) (members_view members.old.entries)) }
{
    Ok(put(members, alloc, name, value)?)
}

/// Puts a number, or null.
pub fn put_number(
    members: &mut Map<String, Value>,
    alloc: Global,
    name: &str,
    number: Option<u64>,
) -> Result<(), NoMemory>
    ensures { OnOk result (members_view members.new.entries ≡ with_member name.now (spec.number_value number) (members_view members.old.entries)) }
{
    Ok(put(members, alloc, name, number_value(number))?)
}

/// Puts a text, or null.
pub fn put_text_if(
    members: &mut Map<String, Value>,
    alloc: Global,
    name: &str,
    text: &Option<Text>,
) -> Result<(), NoMemory>
    ensures { OnOk result (members_view members.new.entries ≡ with_member name.now (spec.text_value text.now) (members_view members.old.entries)) }
{
    let value = text_value(alloc, text)?;
    Ok(put(members, alloc, name, value)?)
}

/// Puts a truth value, or null.
pub fn put_truth_if(
    members: &mut Map<String, Value>,
    alloc: Global,
    name: &str,
    holds: Option<bool>,
) -> Result<(), NoMemory>
    ensures { OnOk result (members_view members.new.entries ≡ with_member name.now (spec.truth_value holds) (members_view members.old.entries)) }
{
    Ok(put(members, alloc, name, truth_value(holds))?)
}

/// Puts a list of texts.
pub fn put_texts(
    members: &mut Map<String, Value>,
    alloc: Global,
    name: &str,
    texts: &[Text],
) -> Result<(), NoMemory>
    ensures { OnOk result (members_view members.new.entries ≡ with_member name.now (spec.strings texts.now) (members_view members.old.entries)) }
{
    let value = strings(alloc, texts)?;
    Ok(put(members, alloc, name, value)?)
}

/// Puts a truth value.
pub fn put_truth(
    members: &mut Map<String, Value>,
    alloc: Global,
    name: &str,
    holds: bool,
) -> Result<(), NoMemory>
    ensures { OnOk result (members_view members.new.entries ≡ with_member name.now (boolean holds) (members_view members.old.entries)) }
{
    Ok(put(members, alloc, name, Value::Bool(holds))?)
}

/// Returns a list of texts as a value.
pub fn strings(alloc: Global, texts: &[Text]) -> Result<Value, NoMemory>
    ensures { IfOk result (λ value. view value ≡ spec.strings texts.now) }
{
    let mut values = Vec::with_capacity(alloc, texts.len())?;
    for text in texts {
        values.push(Value::try_from_str(alloc, text.as_str())?)?;
    }
    Ok(Value::Array(values))
}

/// Returns the names of the kinds of findings that are not looked for, as a value.
pub fn unsearched_names(alloc: Global, kinds: &[Unsearched]) -> Result<Value, NoMemory>
    ensures { IfOk result (λ value. view value ≡ spec.unsearched_value kinds.now) }
{
    let mut values = Vec::with_capacity(alloc, kinds.len())?;
    for kind in kinds {
        values.push(Value::try_from_str(alloc, unsearched_name(kind))?)?;
    }
    Ok(Value::Array(values))
}

fn text_value(alloc: Global, text: &Option<Text>) -> Result<Value, NoMemory>
    ensures { IfOk result (λ value. view value ≡ spec.text_value text.now) }
{
    match text {
        None => Ok(Value::Null),
        Some(text) => Ok(Value::try_from_str(alloc, text.as_str())?),
    }
}

fn number_value(number: Option<u64>) -> Value
    ensures { view result ≡ spec.number_value number }
{
    match number {
        None => Value::Null,
        Some(number) => Value::from(number),
    }
}

fn truth_value(holds: Option<bool>) -> Value
    ensures { view result ≡ spec.truth_value holds }
{
    match holds {
        None => Value::Null,
        Some(holds) => Value::Bool(holds),
    }
}
