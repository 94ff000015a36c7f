//! Whom a cell lets enter.

ghost use Rattle.std.specs.Prelude.{◌≡◌};
ghost use Rattle.std.specs.List.{list_any};
ghost use Rattle.sv_constraints.specs.Covering.{lists as lists_text};
ghost use Rattle.sv_text.specs.Gives.{GivesAnswer};
ghost use Rattle.sv_report.specs.Viewers as spec;

use crate::escaped::escaped;
use crate::parts::joined;
use crate::report::Viewer;
use crate::words::{refusal_text, who_text};
use std::alloc::Global;
use sv_audit::Access;
use sv_constraints::lists;
use sv_text::{NoMemory, Text};

/// Returns whether the viewer may enter. A login is possible only with a login configuration.
pub fn may_enter(viewer: &Viewer, has_login: bool, access: &Access) -> bool
    ensures { result ≡ spec.may_enter viewer.now has_login access.now }
{
    match access {
        Access::Unconstrained => true,
        Access::Uncovered => true,
        Access::UncoveredDenied => false,
        Access::Precluded => false,
        Access::NeedsTls => false,
        Access::Everyone => true,
        Access::AnyLogin => has_login,
        Access::Roles(names) => has_login && has_role(viewer.roles.as_slice(), names.as_slice()),
    }
}

/// Returns whether one of the roles is among the names.
fn has_role(roles: &[Text], names: &[Text]) -> bool
    ensures { result ≡ list_any (lists_text roles.now) names.now }
{
    names.iter().any(|name| lists(roles, name.as_str()))
}

/// Returns the title of the column of callers.
pub fn viewer_title(alloc: Global, viewer: &Option<Viewer>) -> Result<Text, NoMemory>
    ensures { GivesAnswer result (spec.viewer_title viewer.now) }
{
    match viewer {
        None => Text::copy_of(alloc, "who may enter"),
        Some(viewer) => escaped(alloc, viewer.name.as_str()),
    }
}

/// Returns the text of the callers that may enter or, with a viewer, whether the viewer may.
pub fn entry_text(
    alloc: Global,
    viewer: &Option<Viewer>,
    has_login: bool,
    access: &Access,
) -> Result<Text, NoMemory>
    ensures { GivesAnswer result (spec.entry_text viewer.now has_login access.now) }
{
    match viewer {
        None => who_text(alloc, has_login, access),
        Some(viewer) => {
            let enters = may_enter(viewer, has_login, access);
            answer_text(alloc, enters, has_login, access)
        }
    }
}

/// Returns whether a viewer enters and, if not, why.
fn answer_text(
    alloc: Global,
    enters: bool,
    has_login: bool,
    access: &Access,
) -> Result<Text, NoMemory>
    ensures { GivesAnswer result (spec.answer_text enters has_login access.now) }
{
    if enters {
        return Text::copy_of(alloc, "yes");
    }
    let why = refusal_text(alloc, has_login, access)?;
    joined(alloc, &["no (", why.as_str(), ")"])
}

/// Returns the text of the callers that reach the protected folders.
pub fn hidden_text(viewer: &Option<Viewer>) -> &'static str
    ensures { result.now ≡ spec.hidden_text viewer.now }
{
    match viewer {
        None => "nobody (hidden)",
        Some(_) => "no (hidden)",
    }
}

/// Returns the text of the requests that meet a pattern that is the best match of no canonical path.
pub fn unmatched_text() -> &'static str
    ensures { result.now ≡ spec.unmatched_text }
{
    "no request"
}

/// Returns the text of another context that has the paths of a row.
pub fn context_text(alloc: Global, path: &str) -> Result<Text, NoMemory>
    ensures { GivesAnswer result (spec.context_text path.now) }
{
    let path = escaped(alloc, path)?;
    joined(alloc, &["context ", path.as_str()])
}
