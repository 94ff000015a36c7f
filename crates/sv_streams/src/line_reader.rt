//! The lines of a source.

ghost use Rattle.std.specs.Prelude.{◌≡◌, ◌==◌, position, vec_items};
ghost use Rattle.sv_streams.specs.LineSteps.{MovesFront};

use crate::ahead::Ahead;
use crate::lines_fault::LinesFault;
use crate::stream::Source;
use std::alloc::{AllocError, Global};
use std::marker::Model;
use std::mem;
use sv_text::Bytes;

/// The greatest number of reads from one source.
pub const MAX_READS: u32 = 1_000_000;

/// A reader of lines. It holds the bytes that were read and not yet returned. All lines of a source must be read by
/// one reader.
#[derive(Drop)]
pub struct LineReader {
    // The incomplete line, without a line feed.
    line: Vec<u8>,
    ahead: Ahead,
    reads: u32,
    ended: bool,
}

impl Model for LineReader {
    ghost use Rattle.std.specs.Prelude.{◌≡◌, false};
    ghost use Rattle.sv_streams.specs.Lines.{LinesState, has_line_feed};

    ghost Value = { LinesState };

    ghost view = { λ r. record { line = r.line.items; ahead = r.ahead; reads = r.reads; ended = r.ended } };

    ghost invariant = { λ r. has_line_feed r.line.items ≡ false };
}

impl LineReader {
    ghost use Rattle.std.specs.Prelude.{◌≡◌, []};
    ghost use Rattle.sv_streams.specs.Lines.{NextLine, new_lines};
    ghost use Rattle.sv_streams.specs.LineSteps.{LastLine, ReadsOnce, TakesLine};

    /// Creates a reader that has read nothing.
    pub fn new(alloc: Global) -> LineReader
        ensures { result ≡ new_lines }
    {
        LineReader {
            line: Vec::new(alloc),
            ahead: Ahead::new(alloc),
            reads: 0,
            ended: false,
        }
    }

    /// Returns the next line without its line feed, or `None` at the end. Bytes after the last line feed are a line,
    /// too. Reads the source as often as the line needs, and never after a read has met its end.
    ///
    /// # Errors
    /// [`LinesFault::ReadFailed`] if a read failed; [`LinesFault::TooManyReads`] if the line needs more reads than
    /// [`MAX_READS`]; [`LinesFault::NoMemory`]. The bytes read are kept, and the next call continues with them.
    pub fn next_line<S: Source>(&mut self, source: &mut S) -> Result<Option<Bytes>, LinesFault>
        ensures { NextLine S.makes source.old self.old result source.new self.new }
    {
        loop {
            match self.take_line() {
                Ok(Some(line)) => return Ok(Some(line)),
                Ok(None) => {}
                Err(_) => return Err(LinesFault::NoMemory),
            }
            if self.has_ended() {
                return Ok(self.last_line());
            }
            match self.read_on(source) {
                Ok(()) => {}
                Err(fault) => return Err(fault),
            }
        }
    }

    // Returns whether a read has met the end.
    fn has_ended(&self) -> bool
        ensures { result ≡ self.now.ended }
    {
        self.ended
    }

    // Takes the line that ends in the bytes read, if there is one. If not, all bytes read belong to the incomplete
    // line.
    fn take_line(&mut self) -> Result<Option<Bytes>, AllocError>
        ensures { TakesLine self.old result self.new }
    {
        match move_front(&mut self.line, self.ahead.as_slice()) {
            Ok(Some(place)) => {
                self.ahead.skip(place + 1);
                let alloc = *self.line.allocator();
                Ok(Some(Bytes::from_vec(mem::replace(&mut self.line, Vec::new(alloc)))))
            }
            Ok(None) => {
                self.ahead.clear();
                Ok(None)
            }
            Err(refused) => Err(refused),
        }
    }

    // Takes the incomplete line, unless it is empty.
    fn last_line(&mut self) -> Option<Bytes>
        ensures { LastLine self.old result self.new }
    {
        if self.line.is_empty() {
            return None;
        }
        let alloc = *self.line.allocator();
        Some(Bytes::from_vec(mem::replace(&mut self.line, Vec::new(alloc))))
    }

    // Reads once, unless the limit of reads is reached.
    fn read_on<S: Source>(&mut self, source: &mut S) -> Result<(), LinesFault>
        requires { self.old.ahead ≡ [] }
        ensures { ReadsOnce S.makes source.old self.old result source.new self.new }
    {
        if self.reads >= MAX_READS {
            return Err(LinesFault::TooManyReads);
        }
        match self.ahead.refill(source) {
            Ok(()) => {
                self.reads += 1;
                self.ended = self.ahead.as_slice().is_empty();
                Ok(())
            }
            Err(LinesFault::ReadFailed) => {
                self.reads += 1;
                Err(LinesFault::ReadFailed)
            }
            Err(fault) => Err(fault),
        }
    }
}

// Appends the bytes before the first line feed to the line and returns its place, or appends all bytes if there is
// none.
fn move_front(line: &mut Vec<u8>, bytes: &[u8]) -> Result<Option<usize>, AllocError>
    ensures { MovesFront (vec_items line.old) bytes.now result (vec_items line.new) }
{
    match line_feed_place(bytes) {
        Some(place) => {
            line.extend_from_slice(bytes.split_at(place).0)?;
            Ok(Some(place))
        }
        None => {
            line.extend_from_slice(bytes)?;
            Ok(None)
        }
    }
}

fn line_feed_place(bytes: &[u8]) -> Option<usize>
    ensures { result ≡ position (λ b. b == 10) bytes.now }
{
    bytes.iter().position(|b| *b == b'\n')
}
