//! Attributes by name.

ghost use Rattle.std.specs.Option.{option_copied};
ghost use Rattle.std.specs.Prelude.{IfSome, OnErr, OnOk, bytes_eq, length, position, reverse, ◌<◌, ◌≡◌};
ghost use Rattle.sv_exchange.specs.Attributes.{attribute_of, behind, is_reserved_attribute, rest_of, set_value, told_by, told_innermost, told_of, told_of_error, value_named};

use crate::dispatch::{Dispatch, Paths, shown};
use crate::error::ToldError;
use crate::exchange::Exchange;
use std::alloc::Global;
use sv_mapping::Kind;
use sv_text::{NoMemory, Text};

const REQUEST_URI: &[u8] = b"request_uri";

const CONTEXT_PATH: &[u8] = b"context_path";

const SERVLET_PATH: &[u8] = b"servlet_path";

const PATH_INFO: &[u8] = b"path_info";

const QUERY_STRING: &[u8] = b"query_string";

const STATUS_CODE: &[u8] = b"status_code";

const MESSAGE: &[u8] = b"message";

const SERVLET_NAME: &[u8] = b"servlet_name";

/// Returns whether only dispatches set attributes with the name.
pub(crate) fn is_reserved_attribute(name: &str) -> bool
    ensures { result ≡ is_reserved_attribute name.now }
{
    name.as_bytes().starts_with(b"jakarta.servlet.")
}

/// Returns the value of the attribute with the name.
pub(crate) fn value_named<'a>(name: &str, attributes: &'a [Attribute]) -> Option<&'a str>
    ensures { option_copied result ≡ value_named name.now attributes.now }
{
    for attribute in attributes {
        if attribute.name.as_str() == name {
            return Some(attribute.value.as_str());
        }
    }
    None
}

/// Sets the value of the attribute with the name, or adds one. After [`NoMemory`] the attributes are unchanged.
pub(crate) fn set_value(
    alloc: Global,
    name: &str,
    value: &str,
    attributes: &mut Vec<Attribute>,
) -> Result<(), NoMemory>
    ensures set { OnOk result (attributes.new.items ≡ set_value name.now value.now attributes.old.items) }
    ensures refused { OnErr result (attributes.new.items ≡ attributes.old.items) }
{
    let attribute = Attribute {
        name: Text::copy_of(alloc, name)?,
        value: Text::copy_of(alloc, value)?,
    };
    match place_of(name, attributes) {
        Some(place) => attributes[place] = attribute,
        None => attributes.push(attribute)?,
    }
    Ok(())
}

fn place_of(name: &str, attributes: &[Attribute]) -> Option<usize>
    ensures place { result ≡ position (λ attribute. bytes_eq attribute.name name.now) attributes.now }
    ensures bound { IfSome result (λ place. place < length attributes.now) }
{
    attributes
        .iter()
        .position(|attribute| attribute.name.as_str() == name)
}

/// Returns the value of a reserved attribute from the innermost dispatch that sets names with its prefix.
pub(crate) fn told_innermost<'a>(
    exchange: &'a Exchange,
    name: &str,
    dispatches: &'a [Dispatch],
) -> Option<&'a str>
    ensures { option_copied result ≡ told_innermost exchange.now name.now (reverse dispatches.now) }
{
    match dispatches.split_last() {
        Some((dispatch, outer)) => match rest_of(dispatch.kind, name) {
            Some(rest) => told_by(dispatch, exchange, rest),
            None => told_innermost(exchange, name, outer),
        },
        None => None,
    }
}

fn rest_of(kind: Kind, name: &str) -> Option<&[u8]>
    ensures { option_copied result ≡ rest_of kind name.now }
{
    match kind {
        Kind::Request => None,
        Kind::Forward => behind(b"jakarta.servlet.forward.", name.as_bytes()),
        Kind::Include => behind(b"jakarta.servlet.include.", name.as_bytes()),
        Kind::Error => behind(b"jakarta.servlet.error.", name.as_bytes()),
    }
}

// Returns the rest of the name after the prefix, if it begins with the prefix.
fn behind<'a>(front: &[u8], name: &'a [u8]) -> Option<&'a [u8]>
    ensures { option_copied result ≡ behind front.now name.now }
{
    if name.starts_with(front) {
        Some(&name[front.len()..])
    } else {
        None
    }
}

fn told_by<'a>(dispatch: &'a Dispatch, exchange: &'a Exchange, rest: &[u8]) -> Option<&'a str>
    ensures { option_copied result ≡ told_by dispatch.now.kind dispatch.now exchange.now rest.now }
{
    match dispatch.kind {
        Kind::Request => None,
        Kind::Forward => told_of(rest, &exchange.context_path, &exchange.client),
        Kind::Include => told_of(rest, &exchange.context_path, &dispatch.paths),
        Kind::Error => {
            if rest == REQUEST_URI {
                Some(exchange.client.uri())
            } else {
                let error = dispatch.error.get()?;
                told_of_error(rest, error)
            }
        }
    }
}

fn told_of_error<'a>(rest: &[u8], error: &'a ToldError) -> Option<&'a str>
    ensures { option_copied result ≡ told_of_error rest.now error.now }
{
    if rest == STATUS_CODE {
        Some(error.status_code.as_str())
    } else if rest == MESSAGE {
        Some(error.message.as_str())
    } else if rest == SERVLET_NAME {
        shown(&error.servlet_name)
    } else {
        None
    }
}

fn told_of<'a>(rest: &[u8], context_path: &'a Text, paths: &'a Paths) -> Option<&'a str>
    ensures { option_copied result ≡ told_of rest.now context_path.now paths.now }
{
    if rest == REQUEST_URI {
        Some(paths.uri())
    } else if rest == CONTEXT_PATH {
        Some(context_path.as_str())
    } else if rest == SERVLET_PATH {
        shown(&paths.servlet_path)
    } else if rest == PATH_INFO {
        shown(&paths.path_info)
    } else if rest == QUERY_STRING {
        shown(&paths.query)
    } else {
        None
    }
}

/// An attribute of a request: a name with a text (Jakarta Servlet 6.0, section 3.3).
#[derive(Debug, Drop)]
pub struct Attribute {
    /// The name, which is case-sensitive. It may be empty.
    pub name: Text,
    pub value: Text,
}
