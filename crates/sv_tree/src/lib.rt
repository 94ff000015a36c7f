//! The definition of a dispatch, with its laws, and the site of a context: its path, descriptor and files, as a
//! dispatch uses them. The code that makes dispatches is verified against it (Jakarta Servlet 6.0, chapters 6 and 9).
#![tactic(auto)]

mod file_found;
mod finished;
mod laws;
mod limits;
mod patterns;
mod redirect;
mod servlet_patterns;
mod site;

pub use file_found::FileFound;
pub use finished::{DispatchFault, Finished};
pub use laws::{
    answers_have_one_page, answers_move_the_sessions, calls_are_counted, calls_decide,
    dispatches_end, dispatches_nest, endings_are_kept, events_are_told, filters_are_closed,
    forwards_begin_empty, includes_end_in_no_error, includes_keep, limits_are_as_stated,
    moved_sessions_are_kept, only_serving_are_called, requests_are_bounded, tellings_follow,
};
pub use limits::{
    FOUND, GREATEST_MOMENT, INTERNAL_SERVER_ERROR, LEAST_ERROR, MAX_CALLS, MAX_ERROR, MAX_NESTING,
    METHOD_NOT_ALLOWED, NOT_FOUND, SERVICE_UNAVAILABLE,
};
pub use redirect::sent_to;
pub use servlet_patterns::ServletPatterns;
pub use site::{Chosen, Resource, Site};
