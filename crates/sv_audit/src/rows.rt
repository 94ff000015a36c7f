//! The parts of an access table.

use crate::access::Cell;
use sv_constraints::Methods;
use sv_text::{Listed, Text};

/// Methods with the same cell.
#[derive(Drop)]
pub struct Group {
    /// The methods: the listed ones, or all except the listed ones. The names are in ascending byte order.
    pub methods: Methods,
    /// Who may use them.
    pub cell: Cell,
}

/// The methods at a URL pattern. Each method is in exactly one group.
#[derive(Drop)]
pub struct Row {
    /// The text of the pattern, or none for the paths that no pattern matches.
    pub pattern: Option<Text>,
    /// The groups. The last one has the methods that are in no other group.
    pub groups: Listed<Group>,
}

/// The access table of security constraints (Jakarta Servlet 6.0, section 13.8): a row for each URL pattern, and one
/// for the paths that no pattern matches, if there may be any. The row of a path is that of its best match.
#[derive(Drop)]
pub struct Table {
    /// The rows: patterns in ascending byte order, then extension patterns in ascending byte order, then the paths that
    /// no pattern matches.
    pub rows: Listed<Row>,
}

/// A method that constraints name at a pattern.
#[derive(Drop)]
pub(crate) struct NamedCell {
    /// The name of the method.
    pub(crate) name: Text,
    /// Who may use it.
    pub(crate) cell: Cell,
}
