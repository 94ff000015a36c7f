//! The event loop over all connections.

ghost use Rattle.std.specs.Prelude.{◌<◌, ◌≡◌, ◌≢◌, Ok, length};
ghost use Rattle.sv_connection.specs.Known.{most_open, none_left};
ghost use Rattle.sv_connection.specs.Rounds.{AsksOnce, ServesAll, Settles, TakesEvent, TicksOnce};
ghost use Rattle.sv_connection.specs.Whole.{Serves};
ghost use Rattle.sv_connection.specs.declared.poller.PollEvent.TheVariants.{Second, Stop};

use crate::connection_table::ConnectionTable;
use crate::limits::{ACCEPTED_AT_ONCE, Limits};
use crate::peer::Peer;
use crate::poller::{PollEvent, Poller};
use crate::queries::Queries;
use std::alloc::Global;
use sv_run::{EventHandler, Happening, MAX_CONNECTIONS, StepFault};
use sv_streams::Clock;

/// How an event loop ended, and what it was given.
#[derive(Drop)]
pub struct LoopEnd<R, N, C> {
    /// The result of the loop.
    pub result: Result<(), StepFault>,
    /// The handler.
    pub handler: R,
    /// The poller.
    pub poller: N,
    /// The clock.
    pub clock: C,
}

/// Serves all connections of a poller at once, within these limits, until the poller reports a stop. Connections that
/// are ready are read, their pieces passed to the handler, and the responses written, as far as this is possible
/// without blocking. No connection waits for another. A connection is opened only if fewer are open than the limits
/// allow. After each event, all connections together hold at most `limits.held_bytes` bytes.
///
/// The poller answers queries by the figures and by the handler, which may take an edit. A query acts on no connection.
/// After the last event, the bytes that wait are written, for at most [`FINISH_SECONDS`](crate::FINISH_SECONDS), and
/// every connection is closed.
///
/// # Errors
/// The result is the fault of a refused event, or out of memory. No event follows it.
pub fn run_event_loop<R: EventHandler + Queries, N: Poller, C: Clock>(
    alloc: Global,
    limits: Limits,
    handler: R,
    poller: N,
    clock: C,
) -> LoopEnd<R, N, C>
    ensures { Serves N.Peer.ways R.steps R.awaited C.tells N.polls limits handler poller clock result.result result.handler result.poller result.clock }
{
    let mut event_loop = EventLoop {
        handler,
        poller,
        clock,
        table: ConnectionTable::new(alloc, limits),
    };
    let result = event_loop.serve_all();
    event_loop.finish();
    let EventLoop {
        handler,
        poller,
        clock,
        ..
    } = event_loop;
    LoopEnd {
        result,
        handler,
        poller,
        clock,
    }
}

/// A handler, a poller and a clock, and the connections that they serve.
#[derive(Drop)]
pub(crate) struct EventLoop<R, N, C, P> {
    pub(crate) handler: R,
    pub(crate) poller: N,
    pub(crate) clock: C,
    pub(crate) table: ConnectionTable<P>,
}

impl<P: Peer + Drop, R: EventHandler + Queries, N: Poller<Peer = P>, C: Clock> EventLoop<
    R,
    N,
    C,
    P,
> {
    // Handles the events of the poller, until it reports a stop.
    fn serve_all(&mut self) -> Result<(), StepFault>
        requires { self.old.table ≡ none_left self.old.table.limits 0 }
        ensures { ServesAll P.ways R.steps R.awaited C.tells N.polls self.old result self.new }
    {
        for round in 0..u64::MAX {
            let told = self.poller.wait();
            if told == PollEvent::Stop {
                return Ok(());
            }
            self.take(told)?;
        }
        Ok(())
    }

    // Handles an event of the poller.
    fn take(&mut self, told: PollEvent) -> Result<(), StepFault>
        requires { told ≢ Stop }
        ensures { TakesEvent P.ways R.steps R.awaited C.tells N.polls told self.old result self.new }
    {
        match told {
            PollEvent::Ready(number) => self.serve(number),
            PollEvent::Incoming => self.accept_some(),
            PollEvent::Crowded => self.make_way(),
            PollEvent::Second => self.pass_second(),
            PollEvent::Asked => self.answer_query(),
            PollEvent::Stop => Ok(()),
        }
    }

    // Answers a query, which brings only the edit that it asks for. It takes no time from the clock and acts on no connection.
    fn answer_query(&mut self) -> Result<(), StepFault>
        ensures { AsksOnce R.steps N.polls self.old result self.new }
    {
        let figures = self.table.figures();
        self.poller.answer_query(figures, &mut self.handler)
    }
}

impl<P: Peer + Drop, R: EventHandler, N: Poller<Peer = P>, C: Clock> EventLoop<R, N, C, P> {
    // Handles a second that has passed.
    fn pass_second(&mut self) -> Result<(), StepFault>
        ensures { TakesEvent P.ways R.steps R.awaited C.tells N.polls Second self.old result self.new }
    {
        self.tick()?;
        self.give_up_late()?;
        self.accept_some()
    }

    // Passes a tick to the handler.
    fn tick(&mut self) -> Result<(), StepFault>
        ensures { TicksOnce R.steps C.tells self.old result self.new }
    {
        let moment = self.clock.now();
        self.handler.step(Happening::Tick { moment })?;
        Ok(())
    }

    // Gives up the connections whose timeout has expired.
    fn give_up_late(&mut self) -> Result<(), StepFault>
        ensures { Settles P.ways R.steps R.awaited C.tells N.polls self.old result self.new }
    {
        let now = self.poller.seconds();
        for _ in 0..MAX_CONNECTIONS {
            let Some(number) = self.table.due(now) else {
                return Ok(());
            };
            self.give_up_due(number, now)?;
        }
        Ok(())
    }

    // Gives up a connection whose timeout has expired, unless the reads and writes that are possible at once extend it.
    // A peer that takes a response slowly makes room for more of it before the system reports this.
    fn give_up_due(&mut self, number: u64, now: u64) -> Result<(), StepFault>
        ensures { Settles P.ways R.steps R.awaited C.tells N.polls self.old result self.new }
    {
        self.serve(number)?;
        if self.table.due(now) != Some(number) {
            return Ok(());
        }
        self.give_up(number)
    }

    // Accepts connections that wait, up to [`ACCEPTED_AT_ONCE`] of them.
    fn accept_some(&mut self) -> Result<(), StepFault>
        ensures { Settles P.ways R.steps R.awaited C.tells N.polls self.old result self.new }
    {
        for _ in 0..ACCEPTED_AT_ONCE {
            if !self.accept_one()? {
                return Ok(());
            }
        }
        Ok(())
    }

    // Accepts a connection, if one waits and there is room, or an idle one can make room. Returns whether another may
    // wait.
    fn accept_one(&mut self) -> Result<bool, StepFault>
        ensures { Settles P.ways R.steps R.awaited C.tells N.polls self.old result self.new }
    {
        if !self.accept() {
            return Ok(false);
        }
        self.make_room()?;
        self.open()
    }

    // Accepts a stream, if one waits and its connection may have room. Returns whether one is accepted.
    fn accept(&mut self) -> bool
        ensures { Settles P.ways R.steps R.awaited C.tells N.polls self.old (Ok result) self.new }
    {
        if self.table.has_accepted() {
            return true;
        }
        if !self.table.may_accept() {
            return false;
        }
        let Some(stream) = self.poller.accept(self.table.next()) else {
            return false;
        };
        self.table.keep_accepted(stream);
        true
    }

    // Opens the connection of the accepted stream and serves it, since its first bytes have often been received. The
    // stream is closed if there is no room. Returns whether the connection was opened.
    fn open(&mut self) -> Result<bool, StepFault>
        ensures { Settles P.ways R.steps R.awaited C.tells N.polls self.old result self.new }
    {
        if !self.table.has_room() {
            self.turn_away();
            return Ok(false);
        }
        let number = self.table.next();
        if !self.open_accepted()? {
            return Ok(false);
        }
        self.serve(number)?;
        Ok(true)
    }

    // Opens the connection of the accepted stream, if there is one, since there is room. Returns whether there is one.
    fn open_accepted(&mut self) -> Result<bool, StepFault>
        requires { length self.old.table.entries < most_open self.old.table.limits }
        ensures { Settles P.ways R.steps R.awaited C.tells N.polls self.old result self.new }
    {
        let connection = self.table.next();
        match self.table.open(self.poller.seconds()) {
            Ok(true) => {}
            Ok(false) => return Ok(false),
            Err(_) => return Err(StepFault::NoMemory),
        }
        self.handler.step(Happening::Opened { connection })?;
        Ok(true)
    }

    // Gives up the longest idle connection while there is no room.
    fn make_room(&mut self) -> Result<(), StepFault>
        ensures { Settles P.ways R.steps R.awaited C.tells N.polls self.old result self.new }
    {
        for _ in 0..MAX_CONNECTIONS + 1 {
            if self.table.has_room() {
                return Ok(());
            }
            let Some(number) = self.table.longest_idle() else {
                return Ok(());
            };
            self.give_up_idle(number)?;
        }
        Ok(())
    }

    // Gives up the longest idle connection, if any: the system has no capacity for one more.
    fn make_way(&mut self) -> Result<(), StepFault>
        ensures { Settles P.ways R.steps R.awaited C.tells N.polls self.old result self.new }
    {
        match self.table.longest_idle() {
            Some(number) => self.give_up_idle(number),
            None => Ok(()),
        }
    }

    // Gives up an idle connection, unless it has bytes that were not read yet: then it is served.
    fn give_up_idle(&mut self, number: u64) -> Result<(), StepFault>
        ensures { Settles P.ways R.steps R.awaited C.tells N.polls self.old result self.new }
    {
        self.serve(number)?;
        if self.table.longest_idle() != Some(number) {
            return Ok(());
        }
        self.give_up(number)
    }
}
