//! The end of the event loop: the bytes that wait are written, every connection is closed, and nothing else is done.

ghost use Rattle.std.specs.Prelude.{◌≡◌, ◌≢◌, []};
ghost use Rattle.sv_connection.specs.Ending.{ClosesLast};
ghost use Rattle.sv_connection.specs.Finishing.{EndsAll, IsClose, IsCloseOfWritten, IsLastOf, OnlyDoes, TakesLast, WritesRest};
ghost use Rattle.sv_connection.specs.declared.poller.PollEvent.TheVariants.{Stop};

use crate::event_loop::EventLoop;
use crate::limits::FINISH_SECONDS;
use crate::peer::Peer;
use crate::pending_bytes::Sent;
use crate::poller::{PollEvent, Poller};
use sv_run::{EventHandler, MAX_CONNECTIONS};
use sv_streams::Clock;

impl<P: Peer + Drop, R: EventHandler, N: Poller<Peer = P>, C: Clock> EventLoop<R, N, C, P> {
    /// Writes the bytes that wait, to each connection as it becomes ready. Stops when none wait, [`FINISH_SECONDS`]
    /// have passed, or the poller reports a stop. Then closes all connections. None is read or opened, and the handler
    /// takes no event.
    pub fn finish(&mut self)
        ensures { EndsAll P.ways R.steps R.awaited C.tells N.polls self.old self.new }
    {
        self.close_written();
        self.write_rest();
        self.close_all();
        self.turn_away();
    }

    // Closes the connections that have nothing to write.
    fn close_written(&mut self)
        ensures { OnlyDoes P.ways R.steps R.awaited C.tells N.polls IsCloseOfWritten self.old self.new }
    {
        for _ in 0..MAX_CONNECTIONS {
            let Some(number) = self.table.written() else {
                return;
            };
            self.close_last(number);
        }
    }

    // Writes the bytes that wait, until none wait, [`FINISH_SECONDS`] have passed, or the poller reports a stop.
    fn write_rest(&mut self)
        ensures { WritesRest P.ways R.steps R.awaited C.tells N.polls self.old self.new }
    {
        let end = self.poller.seconds().saturating_add(FINISH_SECONDS);
        for _ in 0..u64::MAX {
            if self.table.is_empty() || self.poller.seconds() >= end {
                return;
            }
            let told = self.poller.wait();
            if told == PollEvent::Stop {
                return;
            }
            self.take_last(told);
        }
    }

    // Handles an event of the poller, but only writes and answers status queries.
    fn take_last(&mut self, told: PollEvent)
        requires { told ≢ Stop }
        ensures { TakesLast P.ways R.steps R.awaited C.tells N.polls told self.old self.new }
    {
        match told {
            PollEvent::Ready(number) => self.send_out(number),
            PollEvent::Asked => self.poller.answer_status(self.table.figures()),
            PollEvent::Incoming => {}
            PollEvent::Crowded => {}
            PollEvent::Second => {}
            PollEvent::Stop => {}
        }
    }

    // Writes the bytes that wait to the connection of a number, if it is open, as far as this is possible without
    // blocking. The connection is closed when no bytes wait or a write fails.
    fn send_out(&mut self, number: u64)
        ensures { OnlyDoes P.ways R.steps R.awaited C.tells N.polls (IsLastOf number) self.old self.new }
    {
        match self.table.write_out(number) {
            None => {}
            Some(Sent::Waits) => {}
            Some(_) => self.close_last(number),
        }
    }

    // Closes all connections.
    fn close_all(&mut self)
        ensures closes { OnlyDoes P.ways R.steps R.awaited C.tells N.polls IsClose self.old self.new }
        ensures none { self.new.table.entries ≡ [] }
    {
        while let Some(number) = self.table.any() {
            self.close_last(number);
        }
    }

    // Closes the connection of a number, if it is open.
    fn close_last(&mut self, number: u64)
        ensures { ClosesLast N.polls number self.old self.new }
    {
        let Some(connection) = self.table.remove(number) else {
            return;
        };
        let closing = connection.last_closing();
        self.poller.close(number, connection.into_stream(), closing);
    }
}
