//! Reports on who may reach what: access tables and findings as text and as JSON.
#![tactic(auto)]

mod answer_words;
mod details;
pub mod escaped;
mod finding_lines;
mod finding_values;
mod finding_words;
mod folded_lines;
mod json_text;
mod json_words;
mod keys;
mod lines;
mod members;
mod parts;
mod places;
mod report;
mod transport;
mod values;
mod viewers;
mod words;

pub use answer_words::answers_text;
pub use details::{example_location, paths_text};
pub use finding_words::{
    heading, kind_name, problem_text, remedy, unsearched_name, unsearched_text,
};
pub use folded_lines::{
    LATER_WIDTH, LINE_WIDTH, folded, lines_of, parts_fit, parts_keep_characters,
};
pub use json_text::audit_json;
pub use json_words::{are_excepted, enters, names_in, roles_in};
pub use keys::keys_text;
pub use lines::{METHODS_WIDTH, PATTERN_WIDTH, WHO_WIDTH, audit_text};
pub use members::{put_text, put_text_if, put_texts, put_truth, put_truth_if, put_value};
pub use parts::{joined, push_all};
pub use places::{constraint_text, line_at, line_of, number_text, place_text};
pub use report::{Answers, ContextReport, ReportedFinding, ReportedRow, Viewer};
pub use transport::has_tls;
pub use viewers::{context_text, entry_text, hidden_text, may_enter, unmatched_text, viewer_title};
pub use words::{methods_text, names_text, pattern_text, shown_pattern, who_text};
