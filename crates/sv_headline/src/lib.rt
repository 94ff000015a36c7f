//! The theorem over whole runs: the output of a script, of a connection and of an event loop is that of a lawful run. In a lawful run a
//! request enters exactly if the combined constraints allow it.
//!
//! The crate also proves what runs require of contexts, for our contexts, and the laws of runs over them. Finally it
//! proves the lives of components over every list of events, up to the stop.
#![tactic(auto)]

mod chains;
mod contexts;
mod handed_over;
mod laws;
mod listeners;
mod lives;
mod record;
mod restarts;
mod runs;
mod unlawful;
mod unlawful_runs;

pub use chains::{
    callers_of_a_chain_have_logged_in, each_container_of_a_chain_runs_lawfully,
    no_id_of_a_chain_is_given_twice,
};
pub use contexts::{
    callers_come_by_login, contexts_end_expired_sessions, contexts_tell_outcomes,
    edits_alone_change_the_constraints, sessions_of_contexts_change_by_calls,
    sessions_of_contexts_stay_in_order,
};
pub use handed_over::{
    entries_are_handed_over, only_entries_are_dispatched, other_dispatches_hand_nothing_over,
    redirects_are_of_entries, redirects_in_runs_are_of_entries, steps_hand_over_only_entries,
    the_program_hands_over_only_entries, the_program_undoes_no_logins,
};
pub use laws::{
    a_script_in_memory_prints_its_run, callers_of_a_started_container_have_logged_in,
    the_undispatched_call_none, what_a_connection_is_sent_is_lawful,
    what_a_failed_output_holds_is_lawful, what_a_refused_script_prints_begins_the_whole,
    what_a_refused_script_prints_is_cut, what_a_refused_start_prints_is_its_text,
    what_a_script_prints_is_lawful, what_an_event_loop_does_is_lawful,
};
pub use listeners::{listeners_hear_exactly, no_session_event_after_running_out_of_memory};
pub use lives::{components_are_destroyed_once, each_component_is_destroyed_once};
pub use record::{
    every_lawful_run_is_a_run, every_run_is_lawful, every_run_is_lawful_until_memory_is_refused,
};
pub use restarts::{callers_go_on, callers_of_a_resumed_container_have_logged_in, contexts_go_on};
pub use runs::{
    callers_logged_in, callers_logged_in_since_the_start, callers_stay_or_log_in,
    constraints_change_by_edits_alone, orders_are_alike, orders_are_taken_alike,
    pieces_are_taken_in_parts, pieces_may_be_cut, pieces_may_come_in_parts,
    requests_enter_exactly_where_allowed, sessions_change_by_calls,
};
pub use unlawful::{
    access_is_decided_once, entries_call_their_servlet, entries_pass_their_first_filter,
    events_notify_of_expiries_first, items_are_answered_in_order, logins_are_of_their_session,
    messages_are_answered, messages_are_handled_by_their_context, notifications_are_in_order,
    outcomes_are_of_their_context, responses_are_of_their_request, ticks_notify_only_of_expiries,
};
pub use unlawful_runs::{
    altered_events_are_in_no_run, altered_messages_are_in_no_run, runs_are_lawful_in_parts,
};
