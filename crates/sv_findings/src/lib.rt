//! Findings: what the security constraints of a context probably leave open by mistake, or state without effect (Jakarta
//! Servlet 6.0, section 13.8).
#![tactic(auto)]

mod asked_folders;
mod dead;
mod finding;
mod findings;
mod guarded_context;
mod heads;
mod laws;
mod listed_patterns;
mod login_needs;
mod met_rows;
mod opened;
mod overruled;
mod reach;
mod readings;
mod role_findings;
mod surroundings;
mod unreached;
mod unsearched;
mod unserved;

pub use asked_folders::MAX_ASKED_FOLDERS;
pub use finding::Finding;
pub use findings::findings_of;
pub use laws::{
    best_patterns_decide, findings_are_complete, findings_are_right, limits_are_as_stated,
    overruled_constraints_change_nothing, reach_is_right, searched_findings_are_complete,
};
pub use listed_patterns::ListedPatterns;
pub use met_rows::{is_met, row_reach};
pub use reach::{Reach, Reaches, reach_of};
pub use role_findings::is_role;
pub use surroundings::{LoginPage, Surroundings};
pub use unsearched::{Unsearched, unsearched_of};
pub use unserved::MAX_SERVED_PATTERNS;
