//! The explanation of one request: which context serves it, which constraints cover it, and what the server answers
//! (Jakarta Servlet 6.0, sections 3.5, 6.2.4, 10.5, 10.9, 10.10, 12.1, 13.6.3 and 13.8).
#![tactic(auto)]

mod answer_lines;
mod callers;
mod context_files;
mod entries;
mod explanation;
mod heads;
mod laws;
mod listed_constraint;
mod listing;
mod page;
mod pages;
mod reason_lines;
mod requests;
mod responder;
mod responder_lines;
mod sentences;
mod servlets;
mod site_context;
mod statuses;
mod treatments;

pub use explanation::{
    Answer, Explanation, JudgedCaller, JudgedRequest, LoginAnswers, ServedRequest, Treatment,
};
pub use laws::{
    callers_can_log_in, covering_is_exact, deciding_is_listed, files_answer_as_explained,
    limits_are_as_stated, login_posts_are_explained, long_heads_are_refused, other_heads_end,
    outcomes_are_the_servers, pages_are_missing_as_explained, patterns_are_best,
};
pub use listed_constraint::{Entrants, ListedConstraint};
pub use page::{ForwardedPage, Page};
pub use requests::explain;
pub use responder::{MatchedServlet, Responder};
pub use sentences::explanation_text;
pub use site_context::{Asked, AskedCaller, SiteContext};
