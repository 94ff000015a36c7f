//! Theorems about connections, each the contract of a function with an empty body.

ghost use Rattle.std.specs.Prelude.{◌≡◌};
ghost use Rattle.sv_connection.specs.Laws.{ClosedHasACause, LostHasACause, PiecesAreWhatIsRead, WhatIsSentIsWritten};
ghost use Rattle.sv_connection.specs.Running.{AConnectionIsARun, OnlyPiecesSend};
ghost use Rattle.sv_run.specs.Contexts.{theory_of};
ghost use Rattle.sv_run.specs.State.{State};

use sv_run::{Context, EventHandler, Words};
use sv_streams::{Clock, Stream};

/// The bytes read from a connection are those of its pieces, in order.
pub fn pieces_are_what_is_read()
    ensures { PiecesAreWhatIsRead }
{}

/// The bytes written to a connection are those of its reactions, in order: all of them, or a prefix if a write failed.
pub fn what_is_sent_is_written()
    ensures { WhatIsSentIsWritten }
{}

/// The stream of a connection shows the cause of its end. The connection is lost only if a call failed or the limit of
/// reads was met. It is closed only if no call failed, and the stream ended or a reaction closes it.
pub fn the_end_has_a_cause()
    ensures lost { LostHasACause }
    ensures closed { ClosedHasACause }
{}

/// An event that is not a piece sends nothing.
pub fn only_pieces_send<X: Context, W: Words>()
    ensures { OnlyPiecesSend (theory_of X.path_of X.conduct W.draws) }
{}

/// The events of one connection are a run, if the handler takes each event as a run of a container does. The bytes read
/// are those of its pieces. The bytes written are all that the run sends, in order, or a prefix if a write failed. The
/// connection is lost only if a call failed or the limit of reads was met. It is closed only if no call failed, and the
/// stream ended or the reaction to the last piece closes it.
pub fn a_connection_is_a_run<R: EventHandler, S: Stream, C: Clock, X: Context, W: Words>()
    ensures { (state_of : R → State X W) → AConnectionIsARun R.steps S.makes C.tells (theory_of X.path_of X.conduct W.draws) state_of }
{}
