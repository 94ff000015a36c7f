//! The value that a fault is about.

ghost use Rattle.std.specs.Prelude.{◌≡◌, map, option_map};
ghost use Rattle.std.specs.List.{list_any};
ghost use Rattle.sv_text.specs.Gives.{GivesAnswer};
ghost use Rattle.toml.specs.Data.{get_member};
ghost use Rattle.toml.specs.View.{table_view, view};
ghost use Rattle.sv_program.specs.Offending as spec;
ghost use Rattle.sv_descriptor.specs.declared.fault.ValueStep.TheVariants as step;

use crate::toml_value::shown;
use std::alloc::Global;
use sv_descriptor::{FaultCode, LocatedFault, ValueStep};
use sv_text::{NoMemory, Text};
use toml::{Table, Value};

/// Returns the offending value of a fault as it is shown, if the fault is about a value and the value is not secret.
pub(crate) fn offending(
    alloc: Global,
    found: &LocatedFault,
    file: &Table,
) -> Result<Option<Text>, NoMemory>
    ensures { GivesAnswer result (spec.offending found.now (table_view file.now)) }
{
    let steps = found.steps.as_slice();
    if !is_about_value(found.fault.code) || is_secret(steps) {
        return Ok(None);
    }
    match value_in(steps, file) {
        Some(value) => shown(alloc, value),
        None => Ok(None),
    }
}

/// Returns the value after these steps from the table of a file.
pub(crate) fn value_in<'a>(steps: &[ValueStep], file: &'a Table) -> Option<&'a Value>
    ensures { option_map (λ value. view value.now) result ≡ spec.value_in steps.now (table_view file.now) }
{
    let Some((first, rest)) = steps.split_first() else {
        return None;
    };
    let Some(value) = first_value(first, file) else {
        return None;
    };
    value_after(rest, value)
}

fn first_value<'a>(step: &ValueStep, file: &'a Table) -> Option<&'a Value>
    ensures { option_map (λ value. view value.now) result ≡ spec.first_value step.now (table_view file.now) }
{
    match step {
        ValueStep::Key(key) => member(file, key.as_str()),
        ValueStep::Item(_) => None,
    }
}

fn value_after<'a>(steps: &[ValueStep], value: &'a Value) -> Option<&'a Value>
    ensures { option_map (λ value. view value.now) result ≡ spec.value_after steps.now (view value.now) }
{
    let mut at = value;
    for step in steps {
        match next_value(step, at) {
            Some(next) => at = next,
            None => return None,
        }
    }
    Some(at)
}

fn next_value<'a>(step: &ValueStep, value: &'a Value) -> Option<&'a Value>
    ensures { option_map (λ value. view value.now) result ≡ spec.next_value step.now (view value.now) }
{
    match step {
        ValueStep::Key(key) => member_of(value, key.as_str()),
        ValueStep::Item(number) => items_of(value).get(*number),
    }
}

fn member_of<'a>(value: &'a Value, key: &str) -> Option<&'a Value>
    ensures { option_map (λ value. view value.now) result ≡ spec.next_value (step.Key key.now) (view value.now) }
{
    match value.as_table() {
        Some(table) => member(table, key),
        None => None,
    }
}

fn member<'a>(table: &'a Table, key: &str) -> Option<&'a Value>
    ensures { option_map (λ value. view value.now) result ≡ get_member key.now (table_view table.now) }
{
    table.get(key)
}

/// Returns the items of a list; any other value has none.
fn items_of(value: &Value) -> &[Value]
    ensures { map view result.now ≡ spec.items (view value.now) }
{
    match value.as_array() {
        Some(items) => items.as_slice(),
        None => &[],
    }
}

/// Returns whether a fault of this code is about a value that the file has.
fn is_about_value(code: FaultCode) -> bool
    ensures { result ≡ spec.is_about_value code }
{
    match code {
        FaultCode::NotToml => false,
        FaultCode::UnknownKey => false,
        FaultCode::MissingKey => false,
        FaultCode::WrongType => true,
        FaultCode::BadPattern => true,
        FaultCode::DuplicatePattern => true,
        FaultCode::UnknownServlet => true,
        FaultCode::UnknownFilter => true,
        FaultCode::BothMethodLists => false,
        FaultCode::ReservedRole => true,
        FaultCode::BadTimeout => true,
        FaultCode::BadValue => true,
        FaultCode::DuplicateName => true,
        FaultCode::TooMany => false,
    }
}

fn is_secret(steps: &[ValueStep]) -> bool
    ensures { result ≡ list_any spec.is_secret_step steps.now }
{
    for step in steps {
        if is_secret_step(step) {
            return true;
        }
    }
    false
}

fn is_secret_step(step: &ValueStep) -> bool
    ensures { result ≡ spec.is_secret_step step.now }
{
    match step {
        ValueStep::Key(key) => is_secret_key(key.as_str()),
        ValueStep::Item(_) => false,
    }
}

fn is_secret_key(key: &str) -> bool
    ensures { result ≡ spec.is_secret_key key.now }
{
    key == "seed" || (key == "salt" || (key == "digest" || key == "init-param"))
}
