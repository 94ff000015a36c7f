//! The text of replays: reading the lines of a script, and printing the reactions to their events.
#![tactic(auto)]

mod edit_lines;
mod escape;
mod events;
mod fields;
mod laws;
mod line;
mod names;
mod play;
mod print;
mod printed_texts;
mod replay_fault;
mod script_replay;
mod whole;

pub use edit_lines::MAX_ROLE_BYTES;
pub use escape::{escaped, unescaped};
pub use fields::{at_blank, text_of};
pub use laws::{
    a_cut_text_begins_the_whole, a_failed_output_holds_a_part, a_failed_write_cuts_the_text,
    a_refused_run_is_cut, a_run_writes_one_text, a_script_is_a_lawful_run,
    an_escaped_text_reads_back, limits_are_as_stated, lines_are_the_text,
    played_lines_are_the_first,
};
pub use line::{LineFault, ScriptLine, read_line};
pub use names::NameKind;
pub use print::print_start;
pub use printed_texts::{event_text, shutdown_text, start_text};
pub use replay_fault::ReplayFault;
pub use script_replay::replay;
pub use whole::{Stops, run_started};
