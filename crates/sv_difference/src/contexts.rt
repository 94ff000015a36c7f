//! The contexts of two configurations of a server, and what differs between them.

use crate::difference::Difference;
use sv_constraints::{Constraint, Rules};
use sv_text::{Listed, Text};

/// A context of a server, with all that decides who may reach what (Jakarta Servlet 6.0, sections 13.6 and 13.8).
#[derive(Drop)]
pub struct ComparedContext {
    /// The path of the context, which is empty for the root context.
    pub path: Text,
    /// The name of the file that has the constraints.
    pub file: Text,
    /// Whether the context has a login configuration. Without one nobody can log in.
    pub has_login: bool,
    /// The security constraints.
    pub constraints: Listed<Constraint>,
    /// The rules that hold for all of them.
    pub rules: Rules,
}

/// What a report says of a context on one side.
#[derive(Drop)]
pub struct ContextSide {
    /// The name of the file that has the constraints.
    pub file: Text,
    /// Whether the context has a login configuration.
    pub has_login: bool,
}

/// What differs at a context path. At least one side has such a context.
#[derive(Drop)]
pub struct ContextDifference {
    /// The path of the context, which is empty for the root context.
    pub path: Text,
    /// The context before, or none if only the second server has one. Then another context serves its requests before,
    /// or none does.
    pub before: Option<ContextSide>,
    /// The context after, or none if only the first server has one.
    pub after: Option<ContextSide>,
    /// The differences between both contexts at paths that requests have on both servers; none unless both sides have a
    /// context.
    pub differences: Listed<Difference>,
}

/// What two configurations of a server decide differently.
#[derive(Drop)]
pub struct ServerDifference {
    /// Each context path: those of the first server in its order, then those that only the second has.
    pub contexts: Listed<ContextDifference>,
    /// How many differences of contexts let visitors in.
    pub opened: usize,
}
