//! Calls that allocate, with enough memory.

use sv_message::{Field, replace_hosts};
use sv_wire::{BodyEnd, BodyReader, Framing, Progress};

#[test]
fn a_field_is_copied(rt: HostRuntime) {
    let field = Field::copy_of(rt.alloc(), b"HOST", b"h");
    assert!(rt;
        matches!(&field, Ok(field) if field.name.as_str() == "host" && field.value.as_bytes() == b"h".as_slice())
    );
}

#[test]
fn a_valid_field_is_copied(rt: HostRuntime) {
    let field = Field::checked_copy_of(rt.alloc(), b"HOST", b"h");
    assert!(rt;
        matches!(&field, Ok(Some(field)) if field.name.as_str() == "host" && field.value.as_bytes() == b"h".as_slice())
    );
    let no_name = Field::checked_copy_of(rt.alloc(), b"", b"h");
    assert!(rt; matches!(&no_name, Ok(None)));
    let no_value = Field::checked_copy_of(rt.alloc(), b"HOST", b"\n");
    assert!(rt; matches!(&no_value, Ok(None)));
}

#[test]
fn a_field_takes_a_host(rt: HostRuntime) {
    let Ok(field) = Field::copy_of(rt.alloc(), b"HOST", b"h") else {
        panic!(rt; "the field is missing");
    };
    let mut fields = [field];
    assert!(rt; replace_hosts(rt.alloc(), &mut fields, b"other").is_ok());
    assert!(rt; fields[0].value.as_bytes() == b"other".as_slice());
}

#[test]
fn a_body_is_read(rt: HostRuntime) {
    let mut reader = BodyReader::new(rt.alloc(), Framing::Length(2));
    let progress = reader.read(b"abc");
    assert!(rt;
        matches!(&progress, Ok(Progress::Ended(BodyEnd::Complete(body), 2)) if body.as_slice() == b"ab".as_slice())
    );
}
