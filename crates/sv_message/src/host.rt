//! The Host fields of a request.

ghost use Rattle.std.specs.Prelude.{◌≡◌, ℕ, ◌++◌, true, codes, length, take, drop, OnOk, OnErr};
ghost use Rattle.std.specs.List.{list_all, filter};
ghost use Rattle.sv_message.specs.Fields.{values_of, is_named};
ghost use Rattle.sv_message.specs.Host.{is_host_byte, is_host, accepts_hosts, with_hosts};

use crate::field::Field;
use crate::limits::MAX_HOST_LEN;
use std::alloc::Global;
use sv_text::NoMemory;

/// Returns whether the Host fields are those that a request with the minor version must have (RFC 9112, section 3.2).
pub fn accepts_hosts(minor: u8, fields: &[Field]) -> bool
    ensures { result ≡ accepts_hosts minor (values_of (codes "host") fields.now) }
{
    let count = host_count(fields);
    are_hosts_valid(fields) && if minor == 1 { count == 1 } else { count <= 1 }
}

/// Replaces the value of every Host field by the host (RFC 9112, section 3.2.2). On [`NoMemory`], the fields before the
/// one that could not be copied have the new host, and the others are unchanged.
pub fn replace_hosts(alloc: Global, fields: &mut [Field], host: &[u8]) -> Result<(), NoMemory>
    requires { is_host host.now ≡ true }
    ensures ok { OnOk result (fields.new ≡ with_hosts host.now fields.old) }
    ensures no_memory { OnErr result ((k : ℕ) × (fields.new ≡ with_hosts host.now (take k fields.old) ++ drop k fields.old)) }
{
    for field in fields {
        field.take_host(alloc, host)?;
    }
    Ok(())
}

/// Returns the number of Host fields.
fn host_count(fields: &[Field]) -> usize
    ensures { result ≡ length (values_of (codes "host") fields.now) }
{
    fields.iter().filter(|field| field.is_named("host")).count()
}

/// Returns whether the value of every Host field is valid.
fn are_hosts_valid(fields: &[Field]) -> bool
    ensures { result ≡ list_all (λ field. is_host field.value.bytes) (filter (is_named (codes "host")) fields.now) }
{
    fields
        .iter()
        .filter(|field| field.is_named("host"))
        .all(|field| is_host(field.value.as_bytes()))
}

/// Returns whether the value of a Host field is valid.
pub(crate) fn is_host(value: &[u8]) -> bool
    ensures { result ≡ is_host value.now }
{
    value.len() <= MAX_HOST_LEN && are_host_bytes(value)
}

fn are_host_bytes(value: &[u8]) -> bool
    ensures { result ≡ list_all is_host_byte value.now }
{
    value.iter().all(|b| is_host_byte(*b))
}

fn is_host_byte(b: u8) -> bool
    ensures { result ≡ is_host_byte b }
{
    b.is_ascii_alphanumeric() || b"-._~%!$&'()*+,;=:[]".contains(&b)
}
