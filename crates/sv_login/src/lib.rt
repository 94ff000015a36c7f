//! The session of a request, the login step of form login, and the outcome of a message (Jakarta Servlet 6.0, sections
//! 7.1.1, 10.5, 13.6.3 and 13.8).
#![tactic(auto)]

mod cookie;
mod credentials;
mod field_name;
mod laws;
mod login_session;
mod outcome;
mod request_session;
mod step;

pub use cookie::cookie_value;
pub use laws::{
    a_message_enters_exactly_by_an_open_verdict, a_passed_login_has_a_new_id,
    a_passed_login_holds_its_user, a_refused_login_changes_nothing, just_one_case_holds,
};
pub use outcome::Outcome;
pub use request_session::held;
pub use step::{LoginOutcome, login_step};
