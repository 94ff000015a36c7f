//! Readiness, new connections and time.

ghost use Rattle.std.specs.Prelude.{◌≡◌};
ghost use Rattle.sv_connection.specs.Asking.{AnswersOne};
ghost use Rattle.sv_connection.specs.Polling.{Accept, Close, Polling, Status, Wait};

use crate::close_reason::Closing;
use crate::peer::Peer;
use crate::queries::{Figures, Queries};
use sv_run::{EventHandler, StepFault};

/// An event that a poller reports.
#[derive(Clone, Copy, Debug, PartialEq, Eq)]
pub enum PollEvent {
    /// The connection of this number may be ready.
    Ready(u64),
    /// A connection may wait to be accepted. If one was accepted since the last report, this is reported again, since
    /// another may wait.
    Incoming,
    /// A connection may wait for which the system has no capacity. The longest idle connection should be closed to free
    /// some.
    Crowded,
    /// One second or more has passed.
    Second,
    /// A query was received: for the figures, for a text of the handler, or for an edit.
    Asked,
    /// Serving must stop. The bytes that wait are written first; if this is reported again, they are dropped.
    Stop,
}

/// Reports readiness, accepts connections and gives the time. Nothing is assumed of its reports.
pub trait Poller {
    /// The stream of a connection.
    type Peer: Peer + Drop;

    /// The model of its calls. By default a call may do anything.
    ghost polls: { Polling Self Self.Peer } = { λ _ _ _. Unit {0} };

    /// Waits for the next event.
    fn wait(&mut self) -> PollEvent
        ensures { polls self.old (Wait result) self.new };

    /// Accepts a connection under this number, if one waits. Its stream is armed: readiness is reported, also if it was
    /// ready before.
    fn accept(&mut self, number: u64) -> Option<Self::Peer>
        ensures { polls self.old (Accept number result) self.new };

    /// Takes the stream of a connection that has ended, and closes it in this way.
    fn close(&mut self, number: u64, peer: Self::Peer, closing: Closing)
        ensures { polls self.old (Close number peer closing) self.new };

    /// Answers the query that was reported, by the figures and by the handler. If the query asks for an edit of the
    /// constraints of a context, the handler takes this edit as an event. It takes no other.
    ///
    /// # Errors
    /// The fault of the refused edit.
    fn answer_query<R: EventHandler + Queries>(
        &mut self,
        figures: Figures,
        handler: &mut R,
    ) -> Result<(), StepFault>
        ensures { AnswersOne R.steps polls figures self.old handler.old result self.new handler.new };

    /// Answers the query that was reported, by the figures only, once the handler takes no more events.
    fn answer_status(&mut self, figures: Figures)
        ensures { polls self.old (Status figures) self.new };

    /// Returns the time in seconds since any fixed point. It should never go back.
    fn seconds(&self) -> u64;
}
