//! The options of the command `audit`.

/// The form of a report.
#[derive(Clone, Copy)]
pub enum Format {
    /// Lines for people.
    Text,
    /// JSON on one line (RFC 8259).
    Json,
    /// A page of HTML.
    Html,
    /// The keys of all findings, one a line.
    Keys,
}

/// The caller whose access is shown.
#[derive(Clone, Copy)]
pub enum Asked<'a> {
    /// The user of this name.
    User(&'a str),
    /// A caller with only this role.
    Role(&'a str),
}

/// The options of a report on access.
#[derive(Clone, Copy)]
pub struct AccessOptions<'a> {
    /// The form of the report.
    pub format: Format,
    /// Whether requests arrive over a connection whose transport is guaranteed.
    pub is_secure: bool,
    /// The caller whose access is shown, if one is asked for.
    pub viewer: Option<Asked<'a>>,
    /// The kinds of the findings that must not be there, as [`are_kinds`](crate::are_kinds) reads them.
    pub fail_on: Option<&'a str>,
    /// The name of the file with the keys of the findings that are accepted.
    pub accept: Option<&'a str>,
    /// The name of the file with the lines on which the constraints of an imported descriptor begin.
    pub lines: Option<&'a str>,
    /// Whether contexts without a folder may have files that are not known. If not, they have no files.
    pub has_unknown_files: bool,
    /// The name of another server file, if the report is on what the two decide differently.
    pub diff: Option<&'a str>,
    /// The target of a request, if the report is on this request.
    pub path: Option<&'a str>,
    /// The method of this request, which is GET if none is named.
    pub method: Option<&'a str>,
}
