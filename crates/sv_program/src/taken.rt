//! What the key of a fault takes.

ghost use Rattle.std.specs.Prelude.{◌≡◌, map};
ghost use Rattle.sv_program.specs.Keys as spec;

use crate::keys::{KEYS, KeyDescription, KeyRow};
use sv_descriptor::{FaultCode, LocatedFault, ValueStep};

/// Returns what the key of a fault takes, if the fault is that its value is none of that. Otherwise the text is empty.
pub(crate) fn taken(found: &LocatedFault) -> &str
    ensures { result.now ≡ spec.taken found.now }
{
    if !is_value_refused(found.fault.code) {
        return "";
    }
    let table = table_key(found.steps.as_slice());
    takes(table, found.fault.key.as_str())
}

/// Returns what a key of a table takes.
fn takes(table: &str, key: &str) -> &'static str
    ensures { result.now ≡ spec.takes table.now key.now }
{
    takes_among(&KEYS, table, key)
}

/// Returns what a key of a table takes, by the first row about it.
fn takes_among(rows: &[KeyRow], table: &str, key: &str) -> &'static str
    ensures { result.now ≡ spec.takes_among (map (spec.row_fields (λ text. text.now)) rows.now) table.now key.now }
{
    for row in rows {
        let description = KeyDescription::of(row);
        if is_about(&description, table, key) {
            return description.takes;
        }
    }
    "a text"
}

fn is_about(row: &KeyDescription, table: &str, key: &str) -> bool
    ensures { result ≡ spec.is_about table.now key.now (spec.fields row.now) }
{
    row.table == table && row.key == key
}

/// Returns the key of the table in which the last key of these steps is.
fn table_key(steps: &[ValueStep]) -> &str
    ensures { result.now ≡ spec.table_key steps.now }
{
    let mut table = "";
    let mut last = "";
    for step in steps {
        if let ValueStep::Key(key) = step {
            table = last;
            last = key.as_str();
        }
    }
    table
}

/// Returns whether a fault of this code is that a value is none that its key takes.
fn is_value_refused(code: FaultCode) -> bool
    ensures { result ≡ spec.is_value_refused code }
{
    match code {
        FaultCode::NotToml => false,
        FaultCode::UnknownKey => false,
        FaultCode::MissingKey => false,
        FaultCode::WrongType => true,
        FaultCode::BadPattern => false,
        FaultCode::DuplicatePattern => false,
        FaultCode::UnknownServlet => false,
        FaultCode::UnknownFilter => false,
        FaultCode::BothMethodLists => false,
        FaultCode::ReservedRole => false,
        FaultCode::BadTimeout => true,
        FaultCode::BadValue => true,
        FaultCode::DuplicateName => false,
        FaultCode::TooMany => true,
    }
}
