//! What two configurations of a server decide differently (Jakarta Servlet 6.0, sections 12.1, 13.6 and 13.8): a report
//! on the contexts of both, as text and as JSON.
#![tactic(auto)]

mod comparison;
mod contexts;
mod difference;
mod laws;
mod lines;
mod meetings;
mod method_sets;
mod opened_first;
mod row_differences;
mod shown_paths;
mod values;

pub use comparison::server_difference;
pub use contexts::{ComparedContext, ContextDifference, ContextSide, ServerDifference};
pub use difference::{Difference, Side};
pub use laws::{
    differences_are_complete, differences_are_right, reported_differences_are_right,
    reported_examples_are_changed, reports_are_complete, same_outcomes_are_unchanged,
    unchanged_have_same_outcomes,
};
pub use lines::difference_text;
pub use row_differences::differences;
pub use values::difference_json;
