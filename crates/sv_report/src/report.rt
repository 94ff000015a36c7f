//! The report on a context.

use sv_audit::{Narrower, Row};
use sv_findings::{Finding, Reach, Unsearched};
use sv_text::{Listed, Text};

/// Who may reach what in a context, as it is reported.
#[derive(Drop)]
pub struct ContextReport {
    /// The path of the context, which is empty for the root context.
    pub path: Text,
    /// The name of the file that has the constraints.
    pub file: Text,
    /// Whether the context has a login configuration. Without one nobody can log in.
    pub has_login: bool,
    /// The caller whose access is shown, if one is asked for.
    pub viewer: Option<Viewer>,
    /// The paths of the other contexts within this one, without the path of this one.
    pub others: Listed<Text>,
    /// The rows of the access table.
    pub rows: Listed<ReportedRow>,
    /// The findings of the constraints and the table.
    pub findings: Listed<ReportedFinding>,
    /// The findings that are not looked for, since the context is too large.
    pub unsearched: Listed<Unsearched>,
    /// The line of `file` on which constraint n begins, at place n - 1, if it is known.
    pub lines: Listed<Option<u64>>,
}

/// A caller whose access is shown.
#[derive(Drop)]
pub struct Viewer {
    /// How the caller is named in the report, as `ann` or `role staff`.
    pub name: Text,
    /// The roles of the caller.
    pub roles: Listed<Text>,
}

/// A row of an access table, with paths that show what it means.
#[derive(Drop)]
pub struct ReportedRow {
    /// The row.
    pub row: Row,
    /// A path within the context, of this row.
    pub example: Option<Text>,
    /// The name of the servlet that answers the example. Without one files answer it.
    pub servlet: Option<Text>,
    /// What answers the paths of the row; none if it is not listed.
    pub answers: Option<Answers>,
    /// The patterns that are chosen before this one at some of its paths.
    pub narrower: Narrower,
    /// Whether requests meet the pattern.
    pub reach: Reach,
}

/// What answers the paths of a row.
#[derive(Drop)]
pub struct Answers {
    /// The names of the servlets that answer some path of the row, each once, in ascending byte order.
    pub servlets: Listed<Text>,
    /// Whether files answer some path of the row.
    pub has_files: bool,
}

/// A finding, with where it belongs and whether it is accepted.
#[derive(Drop)]
pub struct ReportedFinding {
    /// The finding.
    pub finding: Finding,
    /// What a file of accepted findings names it by.
    pub key: Text,
    /// The number of the constraint to change.
    pub constraint: Option<u64>,
    /// The line of the context's file at which to change it, if it is known.
    pub line: Option<u64>,
    /// Whether the finding is accepted.
    pub is_accepted: bool,
}
