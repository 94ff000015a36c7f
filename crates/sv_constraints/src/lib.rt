//! Combined security constraints: the constraints that cover a request, and their decision for its caller (Jakarta
//! Servlet 6.0, section 13.8).
#![tactic(auto)]

mod cause;
mod constraint;
mod coverage;
mod decide;
mod decision;
mod display;
mod findings;
mod laws;
mod owned_decision;
mod roles;

pub use cause::Cause;
pub use constraint::{
    Auth, Collection, Constraint, MAX_METHOD_BYTES, MAX_PATTERNS_OF_CONSTRAINT, Methods, Rules,
    Transport,
};
pub use coverage::{covers, lists};
pub use decide::decide_plain;
pub use decision::{Decision, Why};
pub use findings::{Findings, lesser};
pub use laws::{
    findings_decide, just_one_case_holds, limits_are_as_stated, one_more_is_found,
    only_the_best_pattern_decides,
};
pub use owned_decision::{OwnedDecision, OwnedWhy};
pub use roles::{EVERY_CALLER, EVERY_ROLE};
