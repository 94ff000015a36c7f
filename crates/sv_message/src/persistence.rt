//! Whether a connection stays open after a request.

ghost use Rattle.std.specs.Prelude.{◌≡◌, codes};
ghost use Rattle.std.specs.List.{filter, list_any};
ghost use Rattle.sv_message.specs.Fields.{has_member, is_named};
ghost use Rattle.sv_message.specs.Persistence.{keeps};

use crate::field::Field;
use crate::members::has_member;

/// Returns whether a request with the minor version keeps the connection open (RFC 9112, section 9.3).
pub fn keeps(minor: u8, fields: &[Field]) -> bool
    ensures { result ≡ keeps minor fields.now }
{
    minor == 1 && !asks_to_close(fields)
}

/// Returns whether a Connection field asks to close the connection.
fn asks_to_close(fields: &[Field]) -> bool
    ensures { result ≡ list_any (λ field. has_member (codes "close") field.value.bytes) (filter (is_named (codes "connection")) fields.now) }
{
    fields
        .iter()
        .filter(|field| field.is_named("connection"))
        .any(|field| has_member(field.value.as_bytes(), b"close"))
}
