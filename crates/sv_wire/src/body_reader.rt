//! A reader of one body.

ghost use Rattle.std.specs.Prelude.{IfOk, OnErr, ◌≡◌};
ghost use Rattle.sv_wire.specs.Body.{nothing_came};

use crate::body_fault::BodyFault;
use crate::history::{History, Piece};
use crate::machine::{Machine, Stop};
use std::alloc::Global;
use std::marker::Model;
use sv_text::{Bytes, NoMemory};

/// Reads one body from pieces of its stream (RFC 9112, section 6). Besides the bytes of the body it holds counters, and
/// at most one incomplete size line, CRLF or trailer section.
///
/// Contracts see its framing and the bytes received so far, unchanged.
#[derive(Drop)]
pub struct BodyReader {
    framing: Framing,
    machine: Machine,
    came: History,
}

/// The progress of a reader after a piece.
#[derive(Drop)]
pub enum Progress {
    /// The body is incomplete. The reader continues with the next piece.
    Awaits,
    /// The body ended after this number of bytes of the piece.
    Ended(BodyEnd, usize),
}

/// How a body ends.
#[derive(Drop)]
pub enum BodyEnd {
    /// The body is complete, and has these bytes.
    Complete(Bytes),
    /// The body has a fault.
    Broken(BodyFault),
}

impl Model for BodyReader {
    ghost use Rattle.std.specs.Prelude.{ℕ, List, ◌++◌};
    ghost use Rattle.sv_wire.specs.Body.{Awaited, ReadsBody};
    ghost use Rattle.sv_wire.specs.Chunks.{Body};
    ghost use Rattle.sv_wire.specs.Machine.{IsFit, Continues};

    ghost Value = { Awaited };

    ghost view = { λ reader. record { framing = reader.framing; came = reader.came.bytes } };

    ghost invariant = { λ reader. IsFit reader.machine × ((more : List ℕ) (body : Body) → Continues reader.machine more body → ReadsBody reader.framing (reader.came.bytes ++ more) body) };
}

impl BodyReader {
    ghost use Rattle.sv_wire.specs.Progress.{ReadsOn};

    /// Returns a reader before the first byte of a body. Allocates nothing.
    pub fn new(alloc: Global, framing: Framing) -> BodyReader
        ensures { result ≡ nothing_came framing }
    {
        BodyReader {
            framing,
            machine: Machine::new(alloc, framing),
            came: History::new(),
        }
    }

    /// Reads a piece of the stream, up to the end of the body if the piece contains it. After the end, a fault or
    /// running out of memory, the reader is again before the first byte of a body.
    // Inlined: for pieces of a single byte, calls are most of the cost.
    #[inline(always)]
    pub fn read(&mut self, piece: &[u8]) -> Result<Progress, NoMemory>
        ensures read { IfOk result (λ progress. ReadsOn self.old piece.now progress self.new) }
        ensures no_memory { OnErr result (self.new ≡ nothing_came self.old.framing) }
    {
        match self.machine.run(piece) {
            Ok(Stop::Awaits) => {
                self.came = self.came.and(&Piece { bytes: piece });
                Ok(Progress::Awaits)
            }
            Ok(Stop::Complete(at)) => {
                let body = self.machine.begin_anew(self.framing);
                self.came = History::new();
                Ok(Progress::Ended(BodyEnd::Complete(Bytes::from_vec(body)), at))
            }
            Ok(Stop::Broken(fault, at)) => {
                self.machine.begin_anew(self.framing);
                self.came = History::new();
                Ok(Progress::Ended(BodyEnd::Broken(fault), at))
            }
            Err(NoMemory) => {
                self.machine.begin_anew(self.framing);
                self.came = History::new();
                Err(NoMemory)
            }
        }
    }
}

/// How the end of a body is found (RFC 9112, section 6).
#[derive(Clone, Copy)]
pub enum Framing {
    /// The body has this number of bytes. A message without a body has the length 0.
    Length(usize),
    /// The body is sent in chunks.
    Chunked,
}
