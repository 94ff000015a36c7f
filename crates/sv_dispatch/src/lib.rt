//! Dispatches over a started context, proved against the definitions of `sv_tree`, and responses to requests. If a
//! dispatch ends in an error, the response is the error's page or a plain text (Jakarta Servlet 6.0, section 10.9).
#![tactic(auto)]

mod dispatcher;
mod endings;
mod file_servlet;
mod filters;
mod live_dispatch;
mod live_machine;
mod machine;
mod pages;
mod parts;
mod plain_answer;
mod response;
mod session_events;

pub use live_dispatch::dispatch;
pub use pages::show_error;
pub use parts::made;
pub use response::serve;
