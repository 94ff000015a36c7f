//! The laws of scripts. Each is the contract of a function that does nothing.

ghost use Rattle.std.specs.Prelude.{◌≡◌};
ghost use Rattle.sv_run.specs.Contexts.{theory_of};
ghost use Rattle.sv_script.specs.Laws.{ReadsBack};
ghost use Rattle.sv_script.specs.ReplayLaws.{AFailedWriteCutsTheText, LinesAreApart, LinesAreTheText, NextLinesAreFirst};
ghost use Rattle.sv_script.specs.WholeLaws.{ACutTextBeginsTheWhole, AFailedOutputHoldsAPart, ARefusedRunIsCut, ARunWritesOneText, AScriptIsALawfulRun};

use crate::edit_lines::MAX_ROLE_BYTES;
use crate::whole::Stops;
use sv_run::{Context, EventHandler, Words};
use sv_streams::{Sink, Source};

/// The escaped text of bytes reads back as these bytes.
pub fn an_escaped_text_reads_back()
    ensures { ReadsBack }
{}

/// States the limit as a number. Definitions and code cite only the constant.
pub fn limits_are_as_stated()
    ensures role { MAX_ROLE_BYTES ≡ 64 }
{}

/// The lines of a text, each followed by a line feed, are the text, except that the text may lack the last line feed.
/// No line contains a line feed.
pub fn lines_are_the_text()
    ensures whole { LinesAreTheText }
    ensures apart { LinesAreApart }
{}

/// The lines that a replay plays are the first lines of the text that it reads. The remaining lines are those of the
/// unread rest.
pub fn played_lines_are_the_first()
    ensures { NextLinesAreFirst }
{}

/// After a failed write of a replay, the output is the beginning of the text of all its events.
pub fn a_failed_write_cuts_the_text<O: Sink>()
    ensures { AFailedWriteCutsTheText O.makes }
{}

/// If a run ended well, or failed because of a line of its script, then its output is one text: the text of the start,
/// the texts of the events that the lines ask for, numbered from 1, and the text of the stop.
pub fn a_run_writes_one_text<R: Stops, I: Source, O: Sink>()
    ensures { ARunWritesOneText R.steps R.stops I.makes O.makes }
{}

/// A run that reports `NoMemory` has written nothing after memory ran out. It has written nothing at all if memory ran
/// out for the text of the start. Otherwise it has written that text and the texts of the earlier events. The handler
/// was stopped.
pub fn a_refused_run_is_cut<R: Stops, I: Source, O: Sink>()
    ensures { ARefusedRunIsCut R.steps R.stops I.makes O.makes }
{}

/// The output of a run whose writes failed is the first bytes of one text: the text of the start, the texts of the events
/// that the lines ask for, and the text of the stop. Nothing was written after the failure, and the handler was stopped.
pub fn a_failed_output_holds_a_part<R: Stops, I: Source, O: Sink>()
    ensures { AFailedOutputHoldsAPart R.steps R.stops I.makes O.makes }
{}

/// The output of a run that ran out of memory is the beginning of the text of every complete run whose start has the
/// same entries and whose first events have the same reactions.
pub fn a_cut_text_begins_the_whole<R: Stops, I: Source, O: Sink>()
    ensures { ACutTextBeginsTheWhole R.steps R.stops I.makes O.makes }
{}

/// The events that a script asks for are a run of a container, if each is handled as one. So the printed entries report
/// the outcome of each message once, in order, and a request enters exactly if the combined constraints allow it
/// (Jakarta Servlet 6.0, section 13.8).
pub fn a_script_is_a_lawful_run<R: EventHandler, C: Context, W: Words>()
    ensures { AScriptIsALawfulRun R.steps (theory_of C.path_of C.conduct W.draws) }
{}
