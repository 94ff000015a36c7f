//! The admission of a message to its context, before any component is called (Jakarta Servlet 6.0, chapters 7, 10 and
//! 13).
#![tactic(auto)]

mod admission;
mod answer;
mod judgment;
mod laws;
mod sessions;

pub use admission::{Admission, admit};
pub use answer::{Answer, FORBIDDEN, SEE_OTHER};
pub use laws::{
    an_entry_says_entered_exactly_by_an_open_verdict, limits_are_as_stated,
    no_admission_leaves_an_expired_session,
};
