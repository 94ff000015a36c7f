//! A compiled policy: security constraints merged by pattern, so that a decision does not iterate over them. Its edits,
//! its gaps, and the explanation of a decision (Jakarta Servlet 6.0, section 13.8).
#![tactic(auto)]

mod copies;
mod coverage;
mod edit;
mod edit_fault;
mod entries;
mod explain;
mod explain_fault;
mod explained_context;
mod explanation;
mod gaps;
mod grouped_tables;
mod groups;
mod laws;
mod likeness;
mod listed_tables;
mod merged;
mod patterns;
mod policy;
mod rebuild;
mod resuming;
mod role_numbers;
mod sameness;
mod shared_tables;
mod table;
mod tables;

pub use copies::{copied_constraints, copied_methods};
pub use coverage::{covers_at, named_methods, push_texts};
pub use edit::{Edit, MAX_CONSTRAINTS, NewConstraint};
pub use edit_fault::EditFault;
pub use explain::{explain_parts, explain_request};
pub use explain_fault::ExplainFault;
pub use explained_context::{ContextPolicy, HasPolicy};
pub use explanation::{Explanation, HiddenCause};
pub use gaps::Gap;
pub use groups::{Groups, grouped};
pub use laws::{
    best_is_of_texts, gaps_are_exact, gaps_rise, limits_are_as_stated, rising_is_in_order,
    uncovered_methods_are_exact,
};
pub use merged::names_everyone;
pub use policy::{Decided, Policy};
pub use resuming::EditedConstraints;
pub use sameness::same_texts;
pub use table::Table;
