//! The command `audit`: who may reach what on a server, from its configuration files.
#![tactic(auto)]

mod accepted;
mod access_options;
mod audit_command;
mod audit_report;
mod compared_servers;
mod context_patterns;
mod context_reports;
mod explained_request;
mod further_files;
mod key;
mod key_words;
mod kinds;
mod methods_key;
mod row_answers;
mod row_paths;
mod shown_rows;
mod viewer;

pub use access_options::{AccessOptions, Asked, Format};
pub use audit_command::audit;
pub use audit_report::Report;
pub use kinds::are_kinds;
pub use methods_key::keys_tell_methods;
pub use row_answers::answers_are_exact;
