//! One field of a message.

ghost use Rattle.std.specs.Prelude.{◌≡◌, ◌&&◌, true, length, IfSome, IsTrue, None, OnOk, OnErr, Some, if◌then◌else◌};
ghost use Rattle.std.specs.List.{list_all};
ghost use Rattle.http_header.specs.FieldName.{IsFieldName, is_field_name};
ghost use Rattle.http_header.specs.FieldValue.{IsFieldValue, plain_value};
ghost use Rattle.http_header.specs.Token.{is_value_byte, lowercase};
ghost use Rattle.httparse.specs.Spans.{IsHeaderWithin, IsWithin, span_bytes};
ghost use Rattle.sv_message.specs.Fields.{has_field};
ghost use Rattle.sv_text.specs.Gives.{GivesAnswer};

use crate::common::{common_name, common_value};
use bytes::Bytes;
use http_header::{HeaderName, HeaderNameError, HeaderValue};
use httparse::spans::{HeaderSpan, Span};
use std::alloc::Global;
use sv_text::NoMemory;

/// One field of a message (RFC 9110, section 5): its name in lower case, and its value without the blanks around it.
#[derive(Drop)]
pub struct Field {
    pub name: HeaderName,
    pub value: HeaderValue,
}

impl Field {
    ghost use Rattle.sv_message.specs.Fields.{is_named};
    ghost use Rattle.sv_message.specs.Host.{is_host, with_host};

    /// Copies a field with a valid name and value. A standard name takes no memory, and neither does a common value.
    pub fn copy_of(alloc: Global, name: &[u8], value: &[u8]) -> Result<Field, NoMemory>
        requires name { IsFieldName name.now }
        requires value { IsFieldValue value.now }
        ensures { GivesAnswer result (record { name = lowercase name.now; value = plain_value value.now }) }
    {
        let name = match HeaderName::from_bytes(alloc, name) {
            Ok(name) => name,
            Err(HeaderNameError::OutOfMemory) => return Err(NoMemory),
            Err(HeaderNameError::Invalid) => unreachable!(),
        };
        let value = value_of(alloc, common_value(value), value)?;
        Ok(Field { name, value })
    }

    /// Copies a field, or returns `None` if the name or the value is not valid (RFC 9110, sections 5.1 and 5.5). Takes
    /// memory as [`copy_of`](Field::copy_of) does, and returns [`NoMemory`] only if both are valid. A standard name or a
    /// common value is not validated byte by byte.
    pub fn checked_copy_of(
        alloc: Global,
        name: &[u8],
        value: &[u8],
    ) -> Result<Option<Field>, NoMemory>
        ensures found { GivesAnswer result (if is_field_name name.now && list_all is_value_byte value.now
            then Some (record { name = lowercase name.now; value = plain_value value.now }) else None) }
        ensures no_memory { OnErr result (IsTrue (is_field_name name.now && list_all is_value_byte value.now)) }
    {
        let common = common_value(value);
        if !is_valid(&common, value) {
            return Ok(None);
        }
        let Some(name) = checked_name(alloc, name)? else {
            return Ok(None);
        };
        let value = value_of(alloc, common, value)?;
        Ok(Some(Field { name, value }))
    }

    /// Returns the field of a head with the valid name and value at these spans of the head's text. The field shares
    /// the text. Only a name that is neither standard nor in lower case is copied.
    // Inlined so that the field is built in its place in the list.
    #[inline(always)]
    pub fn at_span(alloc: Global, text: &Bytes, span: &HeaderSpan) -> Result<Field, NoMemory>
        requires within { IsHeaderWithin (length text.now) span.now }
        requires name { IsFieldName (span_bytes text.now span.now.name) }
        requires value { IsFieldValue (span_bytes text.now span.now.value) }
        ensures { GivesAnswer result (record {
          name = lowercase (span_bytes text.now span.now.name);
          value = plain_value (span_bytes text.now span.now.value);
        }) }
    {
        let name = name_at(alloc, text, span.name)?;
        let value = text.slice(span.value.start..span.value.end)?;
        Ok(Field {
            name,
            value: HeaderValue::from_known_valid(value),
        })
    }

    /// Returns whether the field has the name, which is in lower case.
    pub fn is_named(&self, name: &str) -> bool
        ensures { result ≡ is_named name.now self.now }
    {
        let own = self.name.as_str();
        own.len() == name.len() && own == name
    }

    /// Replaces the value of a Host field by the host. Any other field stays as it is.
    pub(crate) fn take_host(&mut self, alloc: Global, host: &[u8]) -> Result<(), NoMemory>
        requires { is_host host.now ≡ true }
        ensures ok { OnOk result (self.new ≡ with_host host.now self.old) }
        ensures no_memory { OnErr result (self.new ≡ self.old) }
    {
        if self.is_named("host") {
            self.value = read_value(alloc, host)?;
        }
        Ok(())
    }
}

/// Returns the valid name at a span of a head's text, in lower case.
#[inline(always)]
fn name_at(alloc: Global, text: &Bytes, span: Span) -> Result<HeaderName, NoMemory>
    requires within { IsWithin (length text.now) span }
    requires name { IsFieldName (span_bytes text.now span) }
    ensures { GivesAnswer result (lowercase (span_bytes text.now span)) }
{
    let bytes = span.of(text.as_slice());
    if let Some(name) = common_name(bytes) {
        return Ok(name);
    }
    if let Some(name) = HeaderName::standard(bytes) {
        return Ok(name);
    }
    match HeaderName::from_shared(alloc, text.slice(span.start..span.end)?) {
        Ok(name) => Ok(name),
        Err(HeaderNameError::OutOfMemory) => Err(NoMemory),
        Err(HeaderNameError::Invalid) => unreachable!(),
    }
}

/// Copies a name in lower case, or returns `None` if it is not a valid field name.
fn checked_name(alloc: Global, name: &[u8]) -> Result<Option<HeaderName>, NoMemory>
    ensures found { GivesAnswer result (if is_field_name name.now then Some (lowercase name.now) else None) }
    ensures no_memory { OnErr result (IsTrue (is_field_name name.now)) }
{
    if let Some(name) = common_name(name) {
        return Ok(Some(name));
    }
    match HeaderName::from_bytes(alloc, name) {
        Ok(name) => Ok(Some(name)),
        Err(HeaderNameError::OutOfMemory) => Err(NoMemory),
        Err(HeaderNameError::Invalid) => Ok(None),
    }
}

/// Returns whether the bytes are a valid field value. `common` is the common value with these bytes, if there is one.
fn is_valid(common: &Option<HeaderValue>, bytes: &[u8]) -> bool
    requires { IfSome common.now (λ value. IsTrue (list_all is_value_byte bytes.now)) }
    ensures { result ≡ list_all is_value_byte bytes.now }
{
    common.is_some() || is_field_value(bytes)
}

/// Returns whether the bytes are a valid field value.
fn is_field_value(bytes: &[u8]) -> bool
    ensures { result ≡ list_all is_value_byte bytes.now }
{
    bytes.iter().all(|b| is_value_byte(*b))
}

/// Returns whether the byte may occur in a field value.
fn is_value_byte(b: u8) -> bool
    ensures { result ≡ is_value_byte b }
{
    b == b'\t' || (b' ' <= b && b != 0x7f)
}

/// Returns the valid value with the bytes. A common value takes no memory.
fn value_of(
    alloc: Global,
    common: Option<HeaderValue>,
    bytes: &[u8],
) -> Result<HeaderValue, NoMemory>
    requires common { IfSome common (λ value. value ≡ plain_value bytes.now) }
    requires valid { IsFieldValue bytes.now }
    ensures { GivesAnswer result (plain_value bytes.now) }
{
    match common {
        Some(value) => Ok(value),
        None => read_value(alloc, bytes),
    }
}

/// Copies a valid value.
fn read_value(alloc: Global, bytes: &[u8]) -> Result<HeaderValue, NoMemory>
    requires { IsFieldValue bytes.now }
    ensures { GivesAnswer result (plain_value bytes.now) }
{
    let copy = Bytes::copy_from_slice(alloc, bytes)?;
    Ok(HeaderValue::from_known_valid(copy))
}

/// Returns whether there is a field with the name, which is in lower case.
pub fn has_field(name: &str, fields: &[Field]) -> bool
    ensures { result ≡ has_field name.now fields.now }
{
    fields.iter().any(|field| field.is_named(name))
}
