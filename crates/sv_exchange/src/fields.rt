//! Fields by name.

ghost use Rattle.std.specs.Prelude.{◌≡◌, ◌<◌, length, position, IfOk, IfSome, IsTrue, None, OnErr, Some, if◌then◌else◌};
ghost use Rattle.std.specs.List.{insert};
ghost use Rattle.sv_exchange.specs.Fields.{add_field, field_of, is_called, is_field, is_reserved_field, set_field, without};
ghost use Rattle.sv_text.specs.Gives.{GivesAnswer};

use std::alloc::Global;
use sv_message::Field;
use sv_text::NoMemory;

/// Returns whether the field has the name, in any case.
pub(crate) fn is_called(name: &str, field: &Field) -> bool
    ensures { result ≡ is_called name.now field.now }
{
    field.name.eq_str(name)
}

/// Returns the index of the first field with the name.
pub(crate) fn place_of(name: &str, fields: &[Field]) -> Option<usize>
    ensures place { result ≡ position (λ field. is_called name.now field) fields.now }
    ensures bound { IfSome result (λ place. place < length fields.now) }
{
    fields.iter().position(|field| is_called(name, field))
}

/// Removes the fields with the name and inserts the field at `place`, the index of the first of them.
fn put_for_all(place: usize, name: &str, field: Field, fields: &mut Vec<Field>)
    requires { position (is_called name.now) fields.old.items ≡ Some place }
    ensures { fields.new.items ≡ insert (without name.now fields.old.items) place field }
{
    fields.retain(|other| !is_called(name, other));
    // At least one field was removed, so there is room.
    let _room = fields.insert(place, field);
}

/// Returns whether only the server writes fields with the name.
pub(crate) fn is_reserved_field(name: &str) -> bool
    ensures { result ≡ is_reserved_field name.now }
{
    name.eq_ignore_ascii_case("date")
        || name.eq_ignore_ascii_case("content-length")
        || name.eq_ignore_ascii_case("transfer-encoding")
        || name.eq_ignore_ascii_case("connection")
}

/// Replaces the first field with the name and removes the others, or adds a field. Returns whether the name and the
/// value are valid. If they are not, and after [`NoMemory`], the fields are unchanged.
pub(crate) fn set_field(
    alloc: Global,
    name: &str,
    value: &str,
    fields: &mut Vec<Field>,
) -> Result<bool, NoMemory>
    ensures told { IfOk result (λ can. can ≡ is_field name.now value.now) }
    ensures set { IfOk result (λ can. fields.new.items ≡ (if can then set_field name.now value.now fields.old.items else fields.old.items)) }
    ensures kept { OnErr result (fields.new.items ≡ fields.old.items) }
    ensures no_memory { OnErr result (IsTrue (is_field name.now value.now)) }
{
    let Some(field) = field_of(alloc, name, value)? else {
        return Ok(false);
    };
    match place_of(name, fields) {
        Some(place) => put_for_all(place, name, field, fields),
        None => fields.push(field)?,
    }
    Ok(true)
}

/// Adds a field. Returns whether the name and the value are valid. If they are not, and after [`NoMemory`], the fields
/// are unchanged.
pub(crate) fn add_field(
    alloc: Global,
    name: &str,
    value: &str,
    fields: &mut Vec<Field>,
) -> Result<bool, NoMemory>
    ensures told { IfOk result (λ can. can ≡ is_field name.now value.now) }
    ensures added { IfOk result (λ can. fields.new.items ≡ (if can then add_field name.now value.now fields.old.items else fields.old.items)) }
    ensures kept { OnErr result (fields.new.items ≡ fields.old.items) }
    ensures no_memory { OnErr result (IsTrue (is_field name.now value.now)) }
{
    let Some(field) = field_of(alloc, name, value)? else {
        return Ok(false);
    };
    fields.push(field)?;
    Ok(true)
}

// Returns the field with the name and the value, if they are valid.
fn field_of(alloc: Global, name: &str, value: &str) -> Result<Option<Field>, NoMemory>
    ensures found { GivesAnswer result (if is_field name.now value.now then Some (field_of name.now value.now) else None) }
    ensures no_memory { OnErr result (IsTrue (is_field name.now value.now)) }
{
    Field::checked_copy_of(alloc, name.as_bytes(), value.as_bytes())
}
