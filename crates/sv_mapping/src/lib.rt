//! URL patterns and the best match among them, compiled or not; the context of a path, and the path within it (Jakarta
//! Servlet 6.0, sections 3.5, 10.5, 12.1 and 12.2).
#![tactic(auto)]

mod best_match;
mod context_index;
mod context_path;
mod context_places;
mod fault;
mod form;
mod kind;
pub mod laws;
mod path_split;
mod pattern;
mod pattern_index;
mod pattern_table;
mod rank;
mod segments;
mod trie;
mod trie_node;

pub use best_match::{best, better};
pub use context_index::ContextIndex;
pub use context_path::{HasContextPath, context_place, is_protected, path_within};
pub use fault::PatternFault;
pub use form::{Form, extension, is_at_or_below};
pub use kind::Kind;
pub use laws::{
    a_context_is_found_where_one_serves, best_is_looked_up, the_chosen_context_path_is_unique,
};
pub use path_split::split;
pub use pattern::{MAX_PATTERN_BYTES, Pattern, Split};
pub use pattern_index::Looked;
pub use pattern_table::PatternTable;
