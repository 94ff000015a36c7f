//! Lists.

ghost use Rattle.std.specs.Prelude.{◌≡◌, ℕ, Bool, map};
ghost use Rattle.std.specs.List.{list_all};
ghost use Rattle.sv_text.specs.Gives.{Gives};
ghost use Rattle.toml.specs.View.{view};
ghost use Rattle.sv_descriptor.specs.Fault.{located_fault};
ghost use Rattle.sv_descriptor.specs.ListOf as spec;

use crate::fault::{FaultCode, LocatedReadFault, refuse, within_item};
use crate::schema::Schema;
use std::alloc::Global;
use sv_text::Listed;
use toml::Value;

/// A list of `least` to `most` items.
#[derive(Clone, Copy)]
pub struct ListOf<S> {
    /// Minimum number of items.
    pub least: usize,
    /// Maximum number of items.
    pub most: usize,
    /// The schema of each item.
    pub item: S,
}

impl<S: Schema> Schema for ListOf<S> {
    type Output = Listed<S::Output>;

    ghost use Rattle.sv_descriptor.specs.ListOf.{is_array};

    ghost fits = { λ _. is_array };

    ghost reads = { λ schema. spec.list_of schema.least schema.most (S.fits schema.item) (S.reads schema.item) };

    fn fits(&self, value: &Value) -> bool {
        value.is_array()
    }

    fn read(
        &self,
        alloc: Global,
        key: &str,
        value: &Value,
    ) -> Result<Listed<S::Output>, LocatedReadFault> {
        let items = list_items(alloc, self.least, self.most, &self.item, key, value)?;
        each(alloc, &self.item, key, items)
    }
}

/// Returns the items of a list of `least` to `most` items, which all have the type of a schema.
///
/// # Errors
/// In this order: [`FaultCode::WrongType`] if the value is no list or an item has another type, [`FaultCode::TooMany`]
/// if the list is too long, and [`FaultCode::BadValue`] if it is too short; or [`LocatedReadFault::NoMemory`].
pub fn list_items<'a, S: Schema>(
    alloc: Global,
    least: usize,
    most: usize,
    item: &S,
    key: &str,
    value: &'a Value,
) -> Result<&'a [Value], LocatedReadFault>
    ensures { Gives located_fault (spec.seen result) (spec.list_items least most (S.fits item.now) key.now (view value.now)) }
{
    match value {
        Value::Array(items) => sized_items(alloc, least, most, item, key, items.as_slice()),
        _ => refuse(alloc, FaultCode::WrongType, key),
    }
}

fn sized_items<'a, S: Schema>(
    alloc: Global,
    least: usize,
    most: usize,
    item: &S,
    key: &str,
    items: &'a [Value],
) -> Result<&'a [Value], LocatedReadFault>
    ensures { Gives located_fault (spec.seen result) (spec.sized_items least most (S.fits item.now) key.now (map view items.now)) }
{
    if !all_fit(item, items) {
        return refuse(alloc, FaultCode::WrongType, key);
    }
    if items.len() > most {
        return refuse(alloc, FaultCode::TooMany, key);
    }
    if items.len() < least {
        return refuse(alloc, FaultCode::BadValue, key);
    }
    Ok(items)
}

fn all_fit<S: Schema>(item: &S, values: &[Value]) -> bool
    ensures { result ≡ list_all (S.fits item.now) (map view values.now) }
{
    for value in values {
        if !item.fits(value) {
            return false;
        }
    }
    true
}

fn each<S: Schema>(
    alloc: Global,
    item: &S,
    key: &str,
    values: &[Value],
) -> Result<Listed<S::Output>, LocatedReadFault>
    ensures { Gives located_fault result (spec.each_from 0 (S.reads item.now key.now) (map view values.now)) }
{
    let mut outputs = Vec::with_capacity(alloc, values.len())?;
    for (place, value) in values.iter().enumerate() {
        outputs.push(within_item(place, item.read(alloc, key, value))?)?;
    }
    Ok(Listed::from_vec(outputs))
}
