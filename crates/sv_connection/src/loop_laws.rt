//! Theorems about connections that are served at once, each the contract of a function with an empty body.

ghost use Rattle.std.specs.Prelude.{◌≡◌};
ghost use Rattle.sv_connection.specs.Alone.{ServedAsIfAlone};
ghost use Rattle.sv_connection.specs.LoopLaws.{BytesAreKept, EndsHaveACause, NumbersAreNotUsedAgain, RestIsForSomething};
ghost use Rattle.sv_connection.specs.LoopRuns.{AnEventLoopIsARun, NotesAreReactions, RoundsAreOne};
ghost use Rattle.sv_run.specs.Contexts.{theory_of};
ghost use Rattle.sv_run.specs.State.{State};

use crate::limits::{
    ACCEPTED_AT_ONCE, BYTES_A_PIECE, BYTES_A_WINDOW, BYTES_AT_ONCE, CALLS_AT_ONCE, FINISH_SECONDS,
    FIRST_READ_BYTES, MAX_HELD_BYTES, MAX_IDLE_SECONDS, MAX_UNDER_WAY, READ_BYTES, WINDOW_SECONDS,
};
use crate::peer::Peer;
use crate::poller::Poller;
use sv_run::{Context, EventHandler, Words};
use sv_streams::{Clock, MAX_READS};

/// The limits of this crate as numbers.
pub fn limits_are_as_stated()
    ensures reads { MAX_READS ≡ 1000000 }
    ensures accepted { ACCEPTED_AT_ONCE ≡ 32 }
    ensures read { READ_BYTES ≡ 16384 }
    ensures first_read { FIRST_READ_BYTES ≡ 1024 }
    ensures calls { CALLS_AT_ONCE ≡ 8 }
    ensures written { BYTES_AT_ONCE ≡ 262144 }
    ensures piece { BYTES_A_PIECE ≡ 4096 }
    ensures under_way { MAX_UNDER_WAY ≡ 1122560 }
    ensures idle { MAX_IDLE_SECONDS ≡ 60 }
    ensures window { WINDOW_SECONDS ≡ 10 }
    ensures bytes { BYTES_A_WINDOW ≡ 10240 }
    ensures held { MAX_HELD_BYTES ≡ 67108864 }
    ensures finish { FINISH_SECONDS ≡ 5 }
{}

/// No byte of an open connection is lost, duplicated or moved. The bytes read are those passed to the handler and those
/// that wait to be passed. The bytes to send are those written and those that wait to be written.
pub fn bytes_are_kept<P: Peer>()
    ensures { BytesAreKept P.ways }
{}

/// Rounds form one sequence: the events of all connections are taken one after another, and each number has one course.
pub fn rounds_are_one<R: EventHandler, N: Poller, C: Clock>()
    ensures { RoundsAreOne N.Peer.ways R.steps R.awaited C.tells N.polls }
{}

/// The notes of all connections are events that the handler takes one after another, each with its reaction.
pub fn what_is_done_is_events<R: EventHandler, N: Poller, C: Clock>()
    ensures { NotesAreReactions N.Peer.ways R.steps R.awaited C.tells N.polls }
{}

/// An event loop makes a run, if the handler takes each event as a run of a container does. All events but
/// perhaps the last are taken, at the times that the clock gives. Each stream that the poller gives is led only by the
/// calls of its own connection until it is closed: the bytes read are those of its pieces and some that were not passed
/// on, and the bytes written are those that the run sends to it, in order, all or a prefix.
pub fn an_event_loop_is_a_run<R: EventHandler, N: Poller, C: Clock, X: Context, W: Words>()
    ensures { (state_of : R → State X W) → AnEventLoopIsARun N.Peer.ways R.steps C.tells N.polls (theory_of X.path_of X.conduct W.draws) state_of R.awaited }
{}

/// Each connection is served as if it were the only one, unless the handler refuses its opening. Its events, their results and times, and the calls of its
/// stream with each read cut into its pieces, are those of turns of a connection that is served by itself. All turns
/// but the last are written completely, and the last one up to some byte.
pub fn each_is_served_as_if_alone<P: Peer>()
    ensures { ServedAsIfAlone P.ways }
{}

/// A connection ends only for a cause that its stream or its reaction shows, or because it was given up. If a reaction
/// closes it, all bytes were written. Its stream is closed as this cause requires.
pub fn ends_have_a_cause<P: Peer>()
    ensures { EndsHaveACause P.ways }
{}

/// After a connection has ended, its number has no further action.
pub fn numbers_are_not_used_again<P: Peer>()
    ensures { NumbersAreNotUsedAgain P.ways }
{}

/// An open connection that rests needs a read and holds no bytes that wait, or it has bytes to write: none waits for
/// nothing.
pub fn rest_is_for_something<P: Peer>()
    ensures { RestIsForSomething P.ways }
{}
