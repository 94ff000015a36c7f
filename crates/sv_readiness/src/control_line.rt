//! The line of a control client.

ghost use Rattle.std.specs.Prelude.{◌++◌};
ghost use Rattle.sv_readiness.specs.Polling.{Adds, Hears};

use crate::calls::try_read;
use crate::control_commands::line_end;
use crate::limits::{ASKED_AT_ONCE, MAX_LINE_BYTES};
use std::io::Read;
use sv_connection::Tried;

/// The outcome of reading more of a line.
#[derive(Clone, Copy)]
pub(crate) enum Heard {
    /// The next read may return more.
    Part,
    /// The line is whole.
    Whole,
    /// The line is longer than any command may be.
    TooLong,
    /// The next read would block.
    UntilPaused,
    /// The stream has ended or failed, or memory for the line ran out.
    End,
}

/// Reads once from a client. The bytes read are added to its line, which is cut before its line end.
pub(crate) fn read_part<T: Read>(stream: &mut T, line: &mut Vec<u8>) -> Heard
    ensures { Hears (T.remaining stream.old) line.old.items result (T.remaining stream.new) line.new.items }
{
    let mut buffer = [0; ASKED_AT_ONCE];
    match try_read(stream, &mut buffer) {
        Tried::Done(0) | Tried::Failed => Heard::End,
        Tried::WouldBlock => Heard::UntilPaused,
        Tried::Done(count) => add(line, buffer.split_at(count).0),
    }
}

// Adds bytes to a line, and cuts it before its line end.
fn add(line: &mut Vec<u8>, bytes: &[u8]) -> Heard
    ensures { Adds (line.old.items ++ bytes.now) result line.new.items }
{
    if line.extend_from_slice(bytes).is_err() {
        return Heard::End;
    }
    match line_end(line.as_slice()) {
        Some(end) => {
            line.truncate(end);
            Heard::Whole
        }
        None if line.len() >= MAX_LINE_BYTES => Heard::TooLong,
        None => Heard::Part,
    }
}
