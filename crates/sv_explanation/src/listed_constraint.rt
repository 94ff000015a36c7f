//! A constraint on a best pattern, as an explanation lists it.

use sv_text::{Listed, Text};

/// A constraint that lists the best pattern of a path (Jakarta Servlet 6.0, section 13.8).
#[derive(Drop)]
pub struct ListedConstraint {
    /// The number of the constraint.
    pub number: u64,
    /// The line on which it begins, if it is known.
    pub line: Option<u64>,
    /// Whether it covers the method at the pattern.
    pub is_covering: bool,
    /// The callers that it admits.
    pub entrants: Entrants,
    /// Whether a plain connection is not sufficient for it.
    pub needs_tls: bool,
}

/// The callers that one constraint admits.
#[derive(Drop)]
pub enum Entrants {
    /// Everyone, without a login: there is no authorization constraint.
    Everyone,
    /// Every authenticated caller: the constraint lists `**`.
    AnyLogin,
    /// Callers with one of these roles. A listed `*` is replaced by the declared roles.
    WithRole(Listed<Text>),
    /// Nobody: the authorization constraint lists no role.
    Nobody,
}
