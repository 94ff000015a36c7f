//! The collections of a constraint.

ghost use Rattle.std.specs.Prelude.{◌≡◌, ◌-◌, length, map};
ghost use Rattle.std.specs.List.{list_all};
ghost use Rattle.http_header.specs.Token.{is_token_byte};
ghost use Rattle.sv_text.specs.Gives.{Gives};
ghost use Rattle.toml.specs.View.{view, table_view};
ghost use Rattle.sv_descriptor.specs.Collection as spec;
ghost use Rattle.sv_descriptor.specs.Fault.{located_fault};
ghost use Rattle.sv_descriptor.specs.ListOf.{is_array};

use crate::fault::{FaultCode, LocatedReadFault, refuse, within_item};
use crate::ignored_keys::{IgnoredText, element_keys};
use crate::limits::MAX_LIST_ITEMS;
use crate::list::{ListOf, list_items};
use crate::pattern::{UrlPattern, UrlPatterns};
use crate::schema::{Schema, optional, required};
use crate::table::{TableOf, TableSchema};
use crate::text::{TextOf, TextSchema, is_within};
use http_header::is_token_char;
use std::alloc::Global;
use sv_constraints::{Collection, MAX_METHOD_BYTES, MAX_PATTERNS_OF_CONSTRAINT, Methods};
use sv_text::{Listed, Text};
use toml::{Table, Value};

/// The list of a constraint's collections.
#[derive(Clone, Copy)]
pub struct Collections;

impl Schema for Collections {
    type Output = Listed<Collection>;

    ghost fits = { λ _. is_array };

    ghost reads = { λ _. spec.collections };

    fn fits(&self, value: &Value) -> bool {
        value.is_array()
    }

    fn read(
        &self,
        alloc: Global,
        key: &str,
        value: &Value,
    ) -> Result<Listed<Collection>, LocatedReadFault> {
        let item = TableOf(CollectionTable {
            room: MAX_PATTERNS_OF_CONSTRAINT,
        });
        let values = list_items(alloc, 1, MAX_LIST_ITEMS, &item, key, value)?;
        collections_within(alloc, MAX_PATTERNS_OF_CONSTRAINT, key, values)
    }
}

fn collections_within(
    alloc: Global,
    room: usize,
    key: &str,
    values: &[Value],
) -> Result<Listed<Collection>, LocatedReadFault>
    ensures { Gives located_fault result (spec.collections_within 0 room key.now (map view values.now)) }
{
    let mut room = room;
    let mut collections = Vec::with_capacity(alloc, values.len())?;
    for (place, value) in values.iter().enumerate() {
        let collection = within_item(place, read_collection(alloc, room, key, value))?;
        room = room_beside(room, &collection);
        collections.push(collection)?;
    }
    Ok(Listed::from_vec(collections))
}

#[tactic(auto, unfolding(crate::specs::Collection::collection_table))]
fn read_collection(
    alloc: Global,
    room: usize,
    key: &str,
    value: &Value,
) -> Result<Collection, LocatedReadFault>
    ensures { Gives located_fault result (spec.collection_table room key.now (view value.now)) }
{
    TableOf(CollectionTable { room }).read(alloc, key, value)
}

/// Returns the number of patterns left after those of a collection.
fn room_beside(room: usize, collection: &Collection) -> usize
    ensures { result ≡ room - length collection.now.patterns }
{
    room.saturating_sub(collection.patterns.as_slice().len())
}

/// The table of a collection.
#[derive(Clone, Copy)]
struct CollectionTable {
    /// The number of patterns that the collection may have.
    room: usize,
}

impl TableSchema for CollectionTable {
    type Output = Collection;

    ghost reads = { λ schema. spec.collection schema.room };

    fn read(&self, alloc: Global, table: &Table) -> Result<Collection, LocatedReadFault> {
        let known = [
            "web-resource-name",
            "url-pattern",
            "http-method",
            "http-method-omission",
        ];
        element_keys(alloc, &known, table)?;
        let _ = optional(alloc, table, "web-resource-name", &TextOf(IgnoredText))?;
        let patterns = UrlPatterns {
            least: 1,
            most: self.room,
            item: TextOf(UrlPattern),
        };
        Ok(Collection {
            patterns: required(alloc, table, "url-pattern", &patterns)?,
            methods: read_methods(alloc, table)?,
        })
    }
}

fn read_methods(alloc: Global, table: &Table) -> Result<Methods, LocatedReadFault>
    ensures { Gives located_fault result (spec.methods_of (table_view table.now)) }
{
    let listed = optional(alloc, table, "http-method", &METHODS)?;
    let omission = OmittedMethods {
        beside_methods: listed.is_some(),
    };
    let omitted = optional(alloc, table, "http-method-omission", &omission)?;
    Ok(covered_methods(listed, omitted))
}

/// Returns the methods that a collection covers: those listed, all except those omitted, or all.
fn covered_methods(listed: Option<Listed<Text>>, omitted: Option<Listed<Text>>) -> Methods
    ensures { result ≡ spec.covered_methods listed omitted }
{
    if let Some(methods) = listed {
        return Methods::Only(methods);
    }
    match omitted {
        Some(methods) => Methods::Except(methods),
        None => Methods::All,
    }
}

/// A list of methods.
const METHODS: ListOf<TextOf<Method>> = ListOf {
    least: 1,
    most: MAX_LIST_ITEMS,
    item: TextOf(Method),
};

/// A list of omitted methods.
#[derive(Clone, Copy)]
struct OmittedMethods {
    /// Whether the collection also has a list of methods. A collection may not have both lists.
    beside_methods: bool,
}

impl Schema for OmittedMethods {
    type Output = Listed<Text>;

    ghost fits = { λ _. is_array };

    ghost reads = { λ schema. spec.omitted_methods schema.beside_methods };

    fn fits(&self, value: &Value) -> bool {
        value.is_array()
    }

    fn read(
        &self,
        alloc: Global,
        key: &str,
        value: &Value,
    ) -> Result<Listed<Text>, LocatedReadFault> {
        let _ = list_items(alloc, 0, MAX_LIST_ITEMS, &METHODS.item, key, value)?;
        if self.beside_methods {
            return refuse(alloc, FaultCode::BothMethodLists, key);
        }
        METHODS.read(alloc, key, value)
    }
}

/// A method of a request (RFC 9110 section 9.1).
#[derive(Clone, Copy)]
struct Method;

impl TextSchema for Method {
    type Output = Text;

    ghost reads = { λ _. spec.method };

    fn read(&self, alloc: Global, key: &str, text: &str) -> Result<Text, LocatedReadFault> {
        if !is_method_name(text) {
            return refuse(alloc, FaultCode::BadValue, key);
        }
        Ok(Text::copy_of(alloc, text)?)
    }
}

#[tactic(auto, unfolding(crate::specs::Collection::is_method_name))]
fn is_method_name(text: &str) -> bool
    ensures { result ≡ spec.is_method_name text.now }
{
    is_within(text, 1, MAX_METHOD_BYTES) && is_token_text(text)
}

/// Returns whether each byte of a text is a token byte (RFC 9110 section 5.6.2).
pub fn is_token_text(text: &str) -> bool
    ensures { result ≡ list_all is_token_byte text.now }
{
    text.as_bytes().iter().all(|byte| is_token_char(*byte))
}
