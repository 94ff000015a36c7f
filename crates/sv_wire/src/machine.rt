//! A state machine that reads a body from pieces of its stream.

ghost use Rattle.std.specs.Prelude.{IfOk, [], length, ◌≡◌, ◌≤◌};
ghost use Rattle.sv_text.specs.declared.front.Cut.TheVariants.{Unended};
ghost use Rattle.sv_wire.specs.Chunks.{ReadsSize, cut_text};
ghost use Rattle.sv_wire.specs.declared.machine.Stage.TheVariants.{Data, DataEnd, Plain, SizeLine, Trailer};

use crate::body_fault::BodyFault;
use crate::body_reader::Framing;
use crate::limits::{MAX_BODY_LEN, MAX_SIZE_LINE_LEN, MAX_TRAILER_LEN};
use crate::text_kind::TextKind;
use httparse::{Status, parse_chunk_size};
use std::alloc::Global;
use std::mem;
use sv_text::{Cut, Delimited, NoMemory, cut_front};

/// The part of a body that is read next.
#[derive(Clone, Copy)]
pub(crate) enum Stage {
    /// The remaining bytes of a body of known length.
    Plain(usize),
    /// A size line.
    SizeLine,
    /// The remaining bytes of a chunk.
    Data(usize),
    /// The CRLF after a chunk's bytes.
    DataEnd,
    /// The trailer section.
    Trailer,
}

/// The result of one step over a text.
#[derive(Clone, Copy)]
pub(crate) enum Step {
    /// The machine read this number of bytes and entered another stage.
    Moved(usize),
    /// The machine stopped.
    Stopped(Stop),
}

/// The place in a text at which a machine stops.
#[derive(Clone, Copy)]
pub(crate) enum Stop {
    /// At the end of the text: more is awaited.
    Awaits,
    /// At the end of the body, after this number of bytes.
    Complete(usize),
    /// At a fault, found after this number of bytes.
    Broken(BodyFault, usize),
}

/// The state of reading a body.
#[derive(Drop)]
pub(crate) struct Machine {
    pub(crate) stage: Stage,
    /// The bytes received of an incomplete size line, CRLF or trailer section.
    pub(crate) held: Vec<u8>,
    pub(crate) body: Vec<u8>,
}

impl Machine {
    ghost use Rattle.sv_wire.specs.Machine.{Opens, IsFit, FitsStage, StepsFrom, StepsTo, StopsAt, BeginsChunk, CutsOpen};

    /// Returns a machine before the first byte of a body.
    pub(crate) fn new(alloc: Global, framing: Framing) -> Machine
        ensures { Opens framing result }
    {
        Machine {
            stage: match framing {
                Framing::Length(count) => Stage::Plain(count),
                Framing::Chunked => Stage::SizeLine,
            },
            held: Vec::new(alloc),
            body: Vec::new(alloc),
        }
    }

    /// Resets the machine to before the first byte of a body, and returns the bytes of the body read so far.
    pub(crate) fn begin_anew(&mut self, framing: Framing) -> Vec<u8>
        ensures opens { Opens framing self.new }
        ensures bytes { result ≡ self.old.body }
    {
        let alloc = *self.body.allocator();
        mem::replace(self, Machine::new(alloc, framing)).body
    }

    /// Reads a text until the machine stops. After `NoMemory` the machine must be reset with `begin_anew`.
    pub(crate) fn run(&mut self, text: &[u8]) -> Result<Stop, NoMemory>
        requires { IsFit self.old }
        ensures { IfOk result (λ stop. StopsAt self.old text.now stop self.new) }
    {
        let mut at = 0;
        loop {
            match self.step(&text[at..])? {
                Step::Moved(count) => at += count,
                Step::Stopped(Stop::Awaits) => return Ok(Stop::Awaits),
                Step::Stopped(Stop::Complete(count)) => return Ok(Stop::Complete(at + count)),
                Step::Stopped(Stop::Broken(fault, count)) => return Ok(Stop::Broken(
                    fault,
                    at + count,
                )),
            }
        }
    }

    /// Takes one step over a text. After `NoMemory` the machine must be reset with `begin_anew`.
    fn step(&mut self, text: &[u8]) -> Result<Step, NoMemory>
        requires { IsFit self.old }
        ensures { IfOk result (λ step. StepsTo self.old text.now step self.new) }
    {
        match self.stage {
            Stage::Plain(count) => self.take_plain(count, text),
            Stage::SizeLine => self.take_size_line(text),
            Stage::Data(count) => self.take_data(count, text),
            Stage::DataEnd => self.take_data_end(text),
            Stage::Trailer => self.take_trailer(text),
        }
    }

    fn take_plain(&mut self, count: usize, text: &[u8]) -> Result<Step, NoMemory>
        requires { FitsStage (Plain count) self.old.held.items self.old.body.items }
        ensures { IfOk result (λ step. StepsFrom (Plain count) self.old.held.items self.old.body.items text.now step self.new) }
    {
        let here = count.min(text.len());
        self.body.extend_from_slice(&text[..here])?;
        self.stage = Stage::Plain(count - here);
        if here < count {
            return Ok(Step::Stopped(Stop::Awaits));
        }
        Ok(Step::Stopped(Stop::Complete(count)))
    }

    fn take_size_line(&mut self, text: &[u8]) -> Result<Step, NoMemory>
        requires stage { self.old.stage ≡ SizeLine }
        requires fit { FitsStage SizeLine self.old.held.items self.old.body.items }
        ensures { IfOk result (λ step. StepsFrom SizeLine self.old.held.items self.old.body.items text.now step self.new) }
    {
        let held = self.held.len();
        match self.cut_open(TextKind::SizeLine, text)? {
            Cut::Whole(len) => {
                let size = read_size(&self.held[..len]);
                self.held.clear();
                Ok(self.begin_chunk(size, len - held))
            }
            Cut::Endless => Ok(Step::Stopped(Stop::Broken(
                BodyFault::BadChunk,
                MAX_SIZE_LINE_LEN - held,
            ))),
            Cut::Unended => Ok(Step::Stopped(Stop::Awaits)),
        }
    }

    fn take_data(&mut self, count: usize, text: &[u8]) -> Result<Step, NoMemory>
        requires stage { self.old.stage ≡ Data count }
        requires fit { FitsStage (Data count) self.old.held.items self.old.body.items }
        ensures { IfOk result (λ step. StepsFrom (Data count) self.old.held.items self.old.body.items text.now step self.new) }
    {
        let here = count.min(text.len());
        self.body.extend_from_slice(&text[..here])?;
        if here < count {
            self.stage = Stage::Data(count - here);
            return Ok(Step::Stopped(Stop::Awaits));
        }
        self.stage = Stage::DataEnd;
        Ok(Step::Moved(here))
    }

    fn take_data_end(&mut self, text: &[u8]) -> Result<Step, NoMemory>
        requires stage { self.old.stage ≡ DataEnd }
        requires fit { FitsStage DataEnd self.old.held.items self.old.body.items }
        ensures { IfOk result (λ step. StepsFrom DataEnd self.old.held.items self.old.body.items text.now step self.new) }
    {
        let here = text.len().min(2 - self.held.len());
        self.held.extend_from_slice(&text[..here])?;
        if self.held.len() < 2 {
            return Ok(Step::Stopped(Stop::Awaits));
        }
        if self.held.as_slice() != b"\r\n".as_slice() {
            return Ok(Step::Stopped(Stop::Broken(BodyFault::BadChunk, here)));
        }
        self.held.clear();
        self.stage = Stage::SizeLine;
        Ok(Step::Moved(here))
    }

    fn take_trailer(&mut self, text: &[u8]) -> Result<Step, NoMemory>
        requires stage { self.old.stage ≡ Trailer }
        requires fit { FitsStage Trailer self.old.held.items self.old.body.items }
        ensures { IfOk result (λ step. StepsFrom Trailer self.old.held.items self.old.body.items text.now step self.new) }
    {
        let held = self.held.len();
        match self.cut_open(TextKind::Trailer, text)? {
            Cut::Whole(len) => Ok(Step::Stopped(Stop::Complete(len - held))),
            Cut::Endless => Ok(Step::Stopped(Stop::Broken(
                BodyFault::TrailerTooLarge,
                MAX_TRAILER_LEN - held,
            ))),
            Cut::Unended => Ok(Step::Stopped(Stop::Awaits)),
        }
    }

    /// Appends as much of the text to the open text as its limit allows, and returns where the open text ends.
    fn cut_open(&mut self, kind: TextKind, text: &[u8]) -> Result<Cut, NoMemory>
        requires { cut_text kind self.old.held.items ≡ Unended }
        ensures cut { IfOk result (CutsOpen kind self.old.held.items text.now self.new.held.items) }
        ensures stage { self.new.stage ≡ self.old.stage }
        ensures body { self.new.body ≡ self.old.body }
    {
        let held = self.held.len();
        let here = text.len().min(kind.limit() - held);
        self.held.extend_from_slice(&text[..here])?;
        Ok(cut_front(&kind, &self.held, held + 1))
    }

    /// Enters the stage after a size line that gave this size and ended after `at` bytes.
    fn begin_chunk(&mut self, size: Option<usize>, at: usize) -> Step
        requires held { self.old.held.items ≡ [] }
        requires within { length self.old.body.items ≤ MAX_BODY_LEN }
        ensures { BeginsChunk self.old.body.items size at result self.new }
    {
        let Some(size) = size else {
            return Step::Stopped(Stop::Broken(BodyFault::BadChunk, at));
        };
        if size > MAX_BODY_LEN - self.body.len() {
            return Step::Stopped(Stop::Broken(BodyFault::TooLarge, at));
        }
        self.stage = if size == 0 {
            Stage::Trailer
        } else {
            Stage::Data(size)
        };
        Step::Moved(at)
    }
}

/// Returns the size in a size line, or `None` if the line is not exactly one size line.
pub(crate) fn read_size(line: &[u8]) -> Option<usize>
    ensures { ReadsSize line.now result }
{
    match parse_chunk_size(line) {
        Ok(Status::Complete((len, size))) if len == line.len() => Some(size as usize),
        Ok(Status::Complete(_)) => None,
        Ok(Status::Partial) => None,
        Err(_) => None,
    }
}
