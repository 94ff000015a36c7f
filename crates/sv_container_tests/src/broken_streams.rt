//! A command whose input or output fails.

use std::io;
use std::io::{ErrorKind, Read, Write};
use std::test::Fail;
use sv_program::{CommandFault, first};

const REQUEST: &[u8] = b"GET / HTTP/1.1\r\nHost: h\r\n\r\n";

#[test]
fn a_broken_input_is_reported_and_writes_nothing(rt: HostRuntime) {
    for (place, _) in REQUEST.iter().enumerate() {
        let (front, _) = REQUEST.split_at(place);
        let mut output = Vec::new(rt.alloc());
        let ended = first(rt.alloc(), Breaking { front }, &mut output, false);
        assert!(rt;
            matches!(ended, Err(CommandFault::Input)),
            "after {place} bytes"
        );
        assert!(rt; output.is_empty(), "after {place} bytes");
    }
}

#[test]
fn a_broken_output_is_reported(rt: HostRuntime) {
    for room in 0..b"none\n".len() {
        let input: &[u8] = b"";
        let ended = first(rt.alloc(), input, &mut Filling { room }, false);
        assert!(rt;
            matches!(ended, Err(CommandFault::Output)),
            "with room for {room} bytes"
        );
    }
}

/// A reader that gives some bytes, one per call, and then fails.
#[derive(Drop)]
struct Breaking<'a> {
    front: &'a [u8],
}

impl Read for Breaking<'_> {
    fn read(&mut self, buffer: &mut [u8]) -> io::Result<usize> {
        match (self.front.split_first(), buffer.first_mut()) {
            (Some((byte, rest)), Some(place)) => {
                *place = *byte;
                self.front = rest;
                Ok(1)
            }
            _ => Err(io::Error::from(ErrorKind::ConnectionReset)),
        }
    }
}

/// A writer that takes a number of bytes and then fails.
#[derive(Drop)]
struct Filling {
    room: usize,
}

impl Write for Filling {
    fn write(&mut self, bytes: &[u8]) -> io::Result<usize> {
        let taken = bytes.len().min(self.room);
        if taken == 0 {
            return Err(io::Error::from(ErrorKind::StorageFull));
        }
        self.room -= taken;
        Ok(taken)
    }

    fn flush(&mut self) -> io::Result<()> {
        Ok(())
    }
}
