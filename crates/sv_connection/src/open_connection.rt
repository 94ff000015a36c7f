//! One open connection, as far as it gets without blocking.

ghost use Rattle.std.specs.Prelude.{◌≡◌, ◌<◌, length};
ghost use Rattle.sv_connection.specs.Finishing.{SendsOut};
ghost use Rattle.sv_connection.specs.Slots.{HasPiece, IsIdle, Needs};
ghost use Rattle.sv_connection.specs.Steps.{Drives, HandsOn, IsArmed, SendsOn, StepsOnce, TakesIn};

use crate::allowance::Allowance;
use crate::close_reason::{CloseReason, Closing};
use crate::limits::{FIRST_READ_BYTES, READ_BYTES};
use crate::peer::{Peer, Tried};
use crate::pending_bytes::{Pending, Sent};
use crate::phase::Phase;
use crate::pieces::piece_len;
use crate::step::Step;
use crate::timeouts::Timeouts;
use crate::unsent_bytes::Unsent;
use std::alloc::Global;
use std::marker::Model;
use sv_journal::Journal;
use sv_run::{EventHandler, Happening, Reaction, StepFault};
use sv_streams::Clock;
use sv_text::NoMemory;
use sv_wire::Awaited;

/// A connection that is served alongside others.
#[derive(Drop)]
pub(crate) struct Connection<P> {
    stream: P,
    // Bytes read that wait to be passed to the handler, and bytes that wait to be written.
    ahead: Pending,
    unsent: Unsent,
    phase: Phase,
    // The number of bytes of the message under way that were passed to the handler.
    under_way: u64,
    // Whether the next call would block, or the stream was armed, and nothing was done since.
    rests: bool,
    next_read: NextRead,
    timeouts: Timeouts,
}

/// The maximum number of bytes in the next read.
#[derive(Clone, Copy, Debug, PartialEq, Eq)]
enum NextRead {
    /// [`FIRST_READ_BYTES`], which most requests do not fill.
    First,
    /// [`READ_BYTES`], after a read that was filled.
    Full,
}

impl<P> Model for Connection<P> {
    ghost use Rattle.sv_connection.specs.States.{ConnectionState};

    ghost Value = { ConnectionState P };

    ghost view = { λ c. record { stream = c.stream; ahead = c.ahead; unsent = c.unsent; phase = c.phase; rests = c.rests; under_way = c.under_way } };
}

impl<P: Peer> Connection<P> {
    ghost use Rattle.std.specs.Prelude.{◌≡◌, [], false, true, IsTrue, ◌↔◌};
    ghost use Rattle.sv_connection.specs.Closing.{behind_answer, closing_of, last_closing};
    ghost use Rattle.sv_connection.specs.States.{is_writing};
    ghost use Rattle.sv_connection.specs.Holding.{weight};
    ghost use Rattle.sv_connection.specs.Phases.{phase_after, under_way_after};
    ghost use Rattle.sv_connection.specs.Slots.{first_phase};

    /// Creates a connection that is opened in second `now` and turn `turn`, whose stream is armed. It may be idle for
    /// `idle_seconds`.
    pub fn new(alloc: Global, stream: P, now: u64, idle_seconds: u64, turn: u64) -> Connection<P>
        ensures { result ≡ record { stream = stream; ahead = []; unsent = []; phase = first_phase; rests = true; under_way = 0 } }
    {
        Connection {
            stream,
            ahead: Pending::new(alloc),
            unsent: Unsent::new(alloc),
            phase: Phase::Open(Awaited::Message),
            under_way: 0,
            rests: true,
            next_read: NextRead::First,
            timeouts: Timeouts::new(now, idle_seconds, turn),
        }
    }

    /// Returns its stream.
    pub fn into_stream(self) -> P
        ensures { result ≡ self.stream }
    {
        self.stream
    }

    /// Returns how the connection is closed if it ends for this reason (RFC 9112, section 9.6): at once if the peer has
    /// ended or is gone, and in stages if the peer may still send.
    pub fn closing(&self, cause: CloseReason) -> Closing
        ensures { result ≡ closing_of self.now cause }
    {
        match cause {
            CloseReason::PeerEnded | CloseReason::ReadFails | CloseReason::WriteFails =>
                Closing::AtOnce,
            CloseReason::AnswerCloses => self.closing_behind_answer(),
            CloseReason::GivenUp => Closing::InStages,
        }
    }

    /// Returns how the connection is closed when the loop ends.
    pub fn last_closing(&self) -> Closing
        ensures { result ≡ last_closing self.now }
    {
        if self.is_writing() {
            Closing::AtOnce
        } else {
            Closing::InStages
        }
    }

    // Returns how the connection is closed after its last response.
    fn closing_behind_answer(&self) -> Closing
        ensures { result ≡ behind_answer self.now }
    {
        if self.phase.is_refused() || !self.ahead.is_empty() {
            return Closing::InStages;
        }
        Closing::Answered
    }

    /// Returns the time in seconds when the connection is given up.
    pub fn until(&self) -> u64 {
        self.timeouts.until()
    }

    /// Returns whether the connection is idle: no part of a message is held, and no bytes wait.
    pub fn is_between_requests(&self) -> bool {
        self.phase.is_idle() && self.is_idle()
    }

    /// Returns the turn when the connection became idle, if it is.
    pub fn rested(&self) -> u64 {
        self.timeouts.idle_since()
    }

    /// Returns the number of bytes that the connection holds: those that wait to be passed to the handler or to be
    /// written, and those of an unfinished message.
    pub fn weight(&self) -> u64
        ensures { result ≡ weight self.now }
    {
        (self.ahead.len() as u64)
            .saturating_add(self.unsent.len() as u64)
            .saturating_add(self.under_way)
    }

    /// Returns whether bytes wait to be written.
    pub fn is_writing(&self) -> bool
        ensures { result ≡ is_writing self.now }
    {
        !self.unsent.is_empty()
    }

    /// Writes the bytes that wait, as far as this is possible without blocking and in one turn, and does nothing else.
    pub fn send_out(&mut self) -> Sent
        ensures { SendsOut P.ways self.old result self.new }
    {
        let mut left = Allowance::whole();
        for _ in 0..u64::MAX {
            if self.unsent.is_empty() {
                return Sent::All;
            }
            match self.send_on(&mut left) {
                Step::GoesOn => {}
                Step::Rests => return Sent::Waits,
                Step::IsOver(_) => return Sent::Fails,
            }
        }
        Sent::Fails
    }

    /// Does all that is possible without blocking, in second `now` and turn `turn`, until the connection rests or ends.
    /// Returns the reason if it ends.
    ///
    /// # Errors
    /// The fault of a refused event, or out of memory.
    pub fn drive_at<R: EventHandler, C: Clock>(
        &mut self,
        now: u64,
        turn: u64,
        number: u64,
        handler: &mut R,
        clock: &mut C,
    ) -> Result<Option<CloseReason>, StepFault>
        ensures { Drives P.ways R.steps R.awaited C.tells number handler.old clock.old self.old result handler.new clock.new self.new }
    {
        let driven = self.drive(number, handler, clock);
        self.set_timeouts(now, turn);
        driven
    }

    // Sets the timeouts, by the number of bytes moved and by whether the connection is idle.
    #[inline(always)]
    fn set_timeouts(&mut self, now: u64, turn: u64)
        ensures { self.new ≡ self.old }
    {
        if self.is_between_requests() {
            self.timeouts.rest(now, turn);
        } else {
            self.timeouts.go_on(now);
        }
    }

    // Does all that is possible without blocking, until the connection rests or ends. Returns the reason if it ends.
    fn drive<R: EventHandler, C: Clock>(
        &mut self,
        number: u64,
        handler: &mut R,
        clock: &mut C,
    ) -> Result<Option<CloseReason>, StepFault>
        ensures { Drives P.ways R.steps R.awaited C.tells number handler.old clock.old self.old result handler.new clock.new self.new }
    {
        let mut left = Allowance::whole();
        for _ in 0..u64::MAX {
            match self.step(number, handler, clock, &mut left) {
                Ok(Step::GoesOn) => {}
                Ok(Step::Rests) => return Ok(None),
                Ok(Step::IsOver(cause)) => return Ok(Some(cause)),
                Err(fault) => return Err(fault),
            }
        }
        Ok(Some(CloseReason::GivenUp))
    }

    // Takes one step, within the allowance.
    fn step<R: EventHandler, C: Clock>(
        &mut self,
        number: u64,
        handler: &mut R,
        clock: &mut C,
        left: &mut Allowance,
    ) -> Result<Step, StepFault>
        ensures { StepsOnce P.ways R.steps R.awaited C.tells number handler.old clock.old self.old left.old result handler.new clock.new self.new left.new }
    {
        if !self.unsent.is_empty() {
            return Ok(self.send_on(left));
        }
        if self.phase.is_closing() {
            return Ok(Step::IsOver(CloseReason::AnswerCloses));
        }
        if self.ahead.is_empty() {
            return match self.take_in(left) {
                Ok(step) => Ok(step),
                Err(_) => Err(StepFault::NoMemory),
            };
        }
        match self.hand_on(number, handler, clock) {
            Ok(()) => {
                left.take_piece();
                Ok(Step::GoesOn)
            }
            Err(fault) => Err(fault),
        }
    }

    // Returns whether the connection needs a read, and nothing else.
    fn is_idle(&self) -> bool
        ensures { IsTrue result ↔ IsIdle self.now }
    {
        !self.phase.is_closing() && self.unsent.is_empty() && self.ahead.is_empty()
    }

    // Returns the maximum number of bytes in the next read.
    fn read_len(&self) -> usize
        ensures { 0 < result }
    {
        match self.next_read {
            NextRead::First => FIRST_READ_BYTES,
            NextRead::Full => READ_BYTES,
        }
    }

    // Reads once, unless the allowance is spent. After many pieces the next read is short, so that others are soon
    // served again.
    #[inline(always)]
    fn take_in(&mut self, left: &mut Allowance) -> Result<Step, NoMemory>
        requires { IsIdle self.old }
        ensures { TakesIn P.ways self.old left.old result self.new left.new }
    {
        if left.is_spent() {
            if left.bytes == 0 {
                self.next_read = NextRead::First;
            }
            return Ok(self.arm());
        }
        left.calls -= 1;
        let most = self.read_len();
        match self.ahead.refill(&mut self.stream, most) {
            Ok(Tried::Done(0)) => Ok(Step::IsOver(CloseReason::PeerEnded)),
            Ok(Tried::Done(count)) => {
                self.next_read = if count == most {
                    NextRead::Full
                } else {
                    NextRead::First
                };
                self.timeouts.note_read(count);
                self.rests = false;
                Ok(Step::GoesOn)
            }
            Ok(Tried::WouldBlock) => {
                self.rests = true;
                Ok(Step::Rests)
            }
            Ok(Tried::Failed) => Ok(Step::IsOver(CloseReason::ReadFails)),
            Err(refused) => Err(refused),
        }
    }

    // Writes once, unless the allowance is spent.
    #[inline(always)]
    fn send_on(&mut self, left: &mut Allowance) -> Step
        requires { 0 < length self.old.unsent }
        ensures { SendsOn P.ways self.old left.old result self.new left.new }
    {
        if left.is_spent() {
            return self.arm();
        }
        left.calls -= 1;
        let (first, shared, last) = self.unsent.front(left.bytes);
        match self.stream.write_slices(first, shared, last) {
            Tried::Done(count) => {
                self.unsent.skip(count);
                left.bytes -= count;
                self.timeouts.note_written(count);
                self.rests = false;
                Step::GoesOn
            }
            Tried::WouldBlock => {
                self.rests = true;
                Step::Rests
            }
            Tried::Failed => Step::IsOver(CloseReason::WriteFails),
        }
    }

    // Passes one piece to the handler.
    fn hand_on<R: EventHandler, C: Clock>(
        &mut self,
        number: u64,
        handler: &mut R,
        clock: &mut C,
    ) -> Result<(), StepFault>
        requires { HasPiece self.old }
        ensures { HandsOn P.ways R.steps R.awaited C.tells number handler.old clock.old self.old result handler.new clock.new self.new }
    {
        let count = piece_len(self.ahead.as_slice());
        let moment = clock.now();
        let piece = Happening::Piece {
            connection: number,
            bytes: self.ahead.as_slice().split_at(count).0,
            moment,
        };
        match handler.step(piece) {
            Ok(reaction) => {
                self.ahead.skip(count);
                let awaited = handler.awaits(number);
                let (written, journal) = self.keep(count, reaction, awaited);
                handler.recycle(written, journal);
                Ok(())
            }
            Err(fault) => Err(fault),
        }
    }

    // Keeps the bytes of the reaction to a piece of `count` bytes, and enters the phase for `awaited`. Returns the
    // memory that is needed no more.
    #[inline(always)]
    fn keep(&mut self, count: usize, reaction: Reaction, awaited: Awaited) -> (Vec<u8>, Journal)
        ensures { self.new ≡ record self.old {
          unsent = reaction.sends;
          phase = phase_after reaction awaited;
          rests = false;
          under_way = under_way_after self.old.phase self.old.under_way count reaction.sends (phase_after reaction awaited);
        } }
    {
        let Reaction {
            sends,
            closes,
            journal,
            ..
        } = reaction;
        let phase = Phase::after(closes, journal.entries(), awaited);
        self.under_way = phase.under_way(self.phase, self.under_way, count as u64, &sends);
        self.phase = phase;
        self.rests = false;
        (self.unsent.replace(sends), journal)
    }

    // Arms the stream. If this fails, the connection is given up.
    fn arm(&mut self) -> Step
        requires { Needs self.old }
        ensures { IsArmed P.ways self.old result self.new }
    {
        if self.stream.arm() {
            self.rests = true;
            return Step::Rests;
        }
        Step::IsOver(CloseReason::GivenUp)
    }
}
