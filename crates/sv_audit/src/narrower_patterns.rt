//! The patterns that are chosen before another one.

use sv_text::{Listed, Text};

/// Patterns that are chosen before another one at some of its paths.
#[derive(Drop)]
pub struct Narrower {
    /// The first of them.
    pub patterns: Listed<Text>,
    /// Whether there are no others.
    pub are_all: bool,
}
