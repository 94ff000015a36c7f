//! Serving one of many connections, from its readiness to its end.

ghost use Rattle.std.specs.Prelude.{◌≡◌, IfOk, OnOk, false};
ghost use Rattle.sv_connection.specs.Ending.{ClosesOne, EndsOne, TurnsOneAway};
ghost use Rattle.sv_connection.specs.Holding.{IsWithin, StaysWithin};
ghost use Rattle.sv_connection.specs.Notes.{over_by};
ghost use Rattle.sv_connection.specs.Rounds.{Moves, Settles};
ghost use Rattle.sv_connection.specs.Turns.{over_event};
ghost use Rattle.sv_run.specs.Seen.{happening_of};

use crate::close_reason::{CloseReason, Closing};
use crate::event_loop::EventLoop;
use crate::peer::Peer;
use crate::poller::Poller;
use sv_run::{EventHandler, Happening, StepFault};
use sv_streams::Clock;

impl<P: Peer + Drop, R: EventHandler, N: Poller<Peer = P>, C: Clock> EventLoop<R, N, C, P> {
    /// Drives the connection of a number, if it is open, and ends it if it is over. If it then holds more bytes than
    /// before, and all connections together more than their limit, connections are given up until they are within it,
    /// in the order of their timeouts.
    ///
    /// # Errors
    /// The fault of a refused event, or out of memory.
    pub fn serve(&mut self, number: u64) -> Result<(), StepFault>
        ensures { Settles P.ways R.steps R.awaited C.tells N.polls self.old result self.new }
    {
        if !self.serve_one(number)? {
            return Ok(());
        }
        self.ease()
    }

    // Gives up connections until all together hold at most as many bytes as they may.
    fn ease(&mut self) -> Result<(), StepFault>
        ensures moves { Moves P.ways R.steps R.awaited C.tells N.polls self.old result self.new }
        ensures within { OnOk result (IsWithin self.new.table) }
    {
        for _ in 0..u64::MAX {
            if self.table.is_within() {
                return Ok(());
            }
            let Some(number) = self.table.slowest() else {
                return Err(StepFault::NoMemory);
            };
            self.give_up(number)?;
        }
        Err(StepFault::NoMemory)
    }

    // Drives the connection of a number, if it is open, and ends it if it is over. Returns whether it came to hold more
    // bytes than before.
    fn serve_one(&mut self, number: u64) -> Result<bool, StepFault>
        ensures moves { Moves P.ways R.steps R.awaited C.tells N.polls self.old result self.new }
        ensures within { IfOk result (λ grows. grows ≡ false → StaysWithin self.old.table self.new.table) }
    {
        let mut grows = false;
        let now = self.poller.seconds();
        match self.table.drive(number, &mut self.handler, &mut self.clock, now, &mut grows) {
            Ok(None) => Ok(grows),
            Ok(Some(cause)) => match self.end(number, cause) {
                Ok(()) => Ok(grows),
                Err(fault) => Err(fault),
            },
            Err(fault) => Err(fault),
        }
    }

    /// Gives up the connection of a number, if it is open.
    ///
    /// # Errors
    /// The fault of the refused event.
    pub fn give_up(&mut self, number: u64) -> Result<(), StepFault>
        ensures { Settles P.ways R.steps R.awaited C.tells N.polls self.old result self.new }
    {
        self.end(number, CloseReason::GivenUp)
    }

    // Ends the connection of a number, if it is open: closes its stream and passes the event of its end to the handler.
    fn end(&mut self, number: u64, cause: CloseReason) -> Result<(), StepFault>
        ensures { EndsOne N.polls R.steps number cause self.old result self.new }
    {
        if !self.close(number, cause) {
            return Ok(());
        }
        self.handler.step(over_event(number, cause))?;
        Ok(())
    }

    // Removes the connection of a number, if it is open, and closes its stream as this reason requires. Returns whether
    // it was open.
    fn close(&mut self, number: u64, cause: CloseReason) -> bool
        ensures { ClosesOne N.polls number cause self.old result self.new }
    {
        let Some(connection) = self.table.remove(number) else {
            return false;
        };
        let closing = connection.closing(cause);
        self.poller.close(number, connection.into_stream(), closing);
        true
    }

    /// Closes the accepted stream, if any, whose connection is not opened.
    pub fn turn_away(&mut self)
        ensures { TurnsOneAway N.polls self.old self.new }
    {
        let number = self.table.next();
        if let Some(stream) = self.table.drop_accepted() {
            self.poller.close(number, stream, Closing::AtOnce);
        }
    }
}

// Returns the event of a connection's end.
fn over_event(connection: u64, cause: CloseReason) -> Happening<'static>
    ensures { happening_of result ≡ over_event connection (over_by cause) }
{
    match cause {
        CloseReason::PeerEnded | CloseReason::AnswerCloses => Happening::Ended { connection },
        CloseReason::ReadFails | CloseReason::WriteFails | CloseReason::GivenUp => Happening::Lost {
            connection,
        },
    }
}
