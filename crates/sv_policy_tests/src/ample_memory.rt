//! Calls that allocate, with enough memory.

use crate::policies::texts_of;
use std::test::Fail;
use sv_realm::Caller;
use sv_text::{Bytes, Text, copied_texts};

#[test]
fn a_caller_is_copied(rt: HostRuntime) -> Result<(), Fail> {
    let caller = Caller {
        number: 3,
        name: Text::copy_of(rt.alloc(), "ann")?,
        roles: texts_of(rt.alloc(), "a,b")?,
    };
    let copy = Caller::copy_of(rt.alloc(), &caller)?;
    let roles = copied_texts(rt.alloc(), copy.roles.as_slice())?;
    let last = roles.as_slice().last().map_or("-", Text::as_str);
    let text = format!(in rt.alloc(); "{} {} {last}", copy.number, copy.name)?;
    assert_eq!(rt; text.as_str(), "3 ann b");
    Ok(())
}

#[test]
fn bytes_are_copied(rt: HostRuntime) -> Result<(), Fail> {
    let copy = Bytes::copy_of(rt.alloc(), b"a\0b")?;
    assert!(rt; copy.as_slice() == b"a\0b".as_slice());
    Ok(())
}
