//! The expectation of a request.

ghost use Rattle.std.specs.Prelude.{◌≡◌, codes, length};
ghost use Rattle.std.specs.List.{filter, list_all};
ghost use Rattle.sv_message.specs.Expectation.{asks_to_continue, is_continue};
ghost use Rattle.sv_message.specs.Fields.{is_named, values_of};

use crate::field::Field;
use crate::members::is_in_lower_case;

/// Returns whether there is exactly one Expect field, and it asks for `100 Continue` (RFC 9110, section 10.1.1).
pub fn asks_to_continue(fields: &[Field]) -> bool
    ensures { result ≡ asks_to_continue fields.now }
{
    expectation_count(fields) == 1 && are_continues(fields)
}

fn expectation_count(fields: &[Field]) -> usize
    ensures { result ≡ length (values_of (codes "expect") fields.now) }
{
    fields
        .iter()
        .filter(|field| field.is_named("expect"))
        .count()
}

fn are_continues(fields: &[Field]) -> bool
    ensures { result ≡ list_all (λ field. is_continue field.value.bytes) (filter (is_named (codes "expect")) fields.now) }
{
    fields.iter().filter(|field| field.is_named("expect")).all(|field| is_in_lower_case(
        field.value.as_bytes(),
        b"100-continue",
    ))
}
