//! Access tables: which methods the security constraints of a context open to whom, by URL pattern (Jakarta Servlet
//! 6.0, section 13.8). A table says of every path, method and caller what the constraints decide. Each of its rows has an
//! example, and the patterns that are chosen before it.
#![tactic(auto)]

mod access;
mod caller_comparison;
mod cells;
mod coverage;
mod examples;
mod focus;
mod forms;
mod groups;
mod laws;
mod method_index;
mod narrower_patterns;
mod narrowing;
mod order;
mod path_shapes;
mod patterns;
mod representatives;
mod roles;
mod rows;
mod secure;
mod tables;
mod visitors;

pub use access::{Access, Cell, CellCaller};
pub use caller_comparison::is_open;
pub use cells::copied_access;
pub use coverage::{covering, covering_findings};
pub use examples::{best_text, example_of, is_read_back};
pub use focus::focused;
pub use forms::form_of;
pub use laws::{
    each_path_is_represented, each_path_is_resembled, examples_are_right,
    narrower_patterns_are_exact, only_transport_changes, served_paths_are_rooted, tables_are_right,
    visitors_are_decided,
};
pub use narrower_patterns::Narrower;
pub use narrowing::narrower;
pub use order::{copied_texts, sorted};
pub use path_shapes::matches_nothing;
pub use patterns::{all_patterns, is_among, is_extension_pattern, is_same, patterns_in};
pub use representatives::{representative_paths, representative_paths_beside};
pub use roles::push_meant;
pub use rows::{Group, Row, Table};
pub use secure::without_transport;
pub use tables::{table_for, table_of};
pub use visitors::{DifferenceKind, Logins, kind_between, needs_login, same_fates};
