//! What differs between two configurations of a context.

use sv_audit::{Access, DifferenceKind, Table};
use sv_constraints::Methods;
use sv_text::Text;

/// A configuration of a context (Jakarta Servlet 6.0, sections 13.6 and 13.8).
#[derive(Drop)]
pub struct Side {
    /// The table of its constraints.
    pub table: Table,
    /// Whether it has a login configuration. Without one nobody can log in, and requests that need a login are denied.
    pub has_login: bool,
}

/// Requests whose fate differs between two configurations of a context, for some visitor (Jakarta Servlet 6.0, sections
/// 13.6 and 13.8): those with a path of both rows and one of the methods.
#[derive(Drop)]
pub struct Difference {
    /// Which visitors pass only on one side.
    pub kind: DifferenceKind,
    /// The pattern of the row before, or none for the paths that no pattern matches.
    pub before: Option<Text>,
    /// The pattern of the row after, or none for the paths that no pattern matches.
    pub after: Option<Text>,
    /// What follows the context path in the path of a request that has both rows: nothing for that of the context itself,
    /// which has the rows of `/` (section 3.5).
    pub path: Text,
    /// The methods: the listed ones, or all except the listed ones. There is at least one.
    pub methods: Methods,
    /// Who may make the requests before, by the constraints.
    pub was: Access,
    /// Who may make them after, by the constraints.
    pub becomes: Access,
}
