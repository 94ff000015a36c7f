//! The run of a container: the effects of each event, over contexts that are known only by their conduct, the laws of
//! runs, and the code that handles events over any such contexts.
#![tactic(auto)]

mod access;
mod answers;
mod connections;
mod context;
mod counted_words;
mod edits;
mod faults;
mod handler;
mod happening;
mod host;
mod indexed_contexts;
mod items;
mod laws;
mod limits;
mod messages;
mod output;
mod reply;
mod run_fault;
mod seeded_words;
mod spare;
mod step_fault;

pub use access::{Access, LoggedRequest};
pub use connections::Connections;
pub use context::{Context, Words, expire_all};
pub use counted_words::CountedWords;
pub use faults::{fault_of, moment_after};
pub use handler::{EventHandler, reactions_are_a_run};
pub use happening::{Happening, Reaction};
pub use host::Host;
pub use laws::{
    callers_logged_in, callers_stay_or_log_in, constraints_change_by_edits_alone,
    ended_readings_stay, feedings_may_be_cut, limits_are_as_stated, orders_are_alike,
    orders_are_taken_alike, others_stay, pieces_are_taken_in_parts, pieces_may_be_cut,
    pieces_may_come_in_parts, refused_events_change_nothing, requests_enter_exactly_where_allowed,
    runs_join, runs_split, sessions_change_by_calls, want_of_memory_stops,
};
pub use limits::{LAST_MOMENT, MAX_CONNECTIONS};
pub use output::Output;
pub use run_fault::RunFault;
pub use seeded_words::SeededWords;
pub use step_fault::StepFault;
