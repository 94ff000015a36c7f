//! The order of findings on a page.

ghost use Rattle.sv_page.specs.Page.{EachKindIsRanked};

/// The names of all kinds of findings, the most dangerous kind first.
pub(crate) const RANKED_KINDS: [&str; 14] = [
    "open",
    "uncovered",
    "read-otherwise",
    "head-differs",
    "dead",
    "dead-pattern",
    "overruled",
    "unreached",
    "unserved",
    "escaped",
    "login-needs",
    "unknown-role",
    "unheld-role",
    "unused-role",
];

/// The law that the kind of each finding has a rank, so that each finding that a page lists has its item.
pub fn each_kind_is_ranked()
    ensures { EachKindIsRanked }
{}
