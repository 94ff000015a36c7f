//! The contexts of a server as an audit sees them, from the texts of their files: constraints, users, static files, and
//! the lines on which constraints and roles begin.
#![tactic(auto)]

mod audited_context;
mod context_files;
mod descriptor_lines;
mod held;
mod line_file;
mod mapped_patterns;

pub use audited_context::{
    AuditedContext, ContextOptions, Source, audited_contexts, constraints_over,
};
pub use descriptor_lines::{SourceLines, a_located_element_begins_there, source_lines};
pub use line_file::{located, parts};
pub use mapped_patterns::servlet_patterns;
