//! The names that a walk holds.

ghost use Rattle.std.specs.Prelude.{◌≡◌, IsUtf8};
ghost use Rattle.sv_uri.specs.Name.{bytes_of};

use std::alloc::Global;
use std::borrow::CowSlice;
use std::str;

/// The bytes of a segment's name, as written or decoded.
#[derive(Drop)]
pub(crate) struct Name<'a> {
    pub(crate) bytes: CowSlice<'a, u8, Global>,
}

impl<'a> Default for Name<'a> {
    fn default() -> Name<'a> {
        Name {
            bytes: CowSlice::Borrowed(b"".as_slice()),
        }
    }
}

impl<'a> Name<'a> {
    /// Returns the name, which must be UTF-8.
    pub(crate) fn as_str(&self) -> &str
        requires { IsUtf8 (bytes_of self.now) }
        ensures { result.now ≡ bytes_of self.now }
    {
        let Ok(text) = str::from_utf8(self.bytes.as_slice()) else {
            unreachable!()
        };
        text
    }
}
