//! What the cells of an access table mean, in a class and a sentence each.

ghost use Rattle.std.specs.Prelude.{◌≡◌, ◌==◌, if◌then◌else◌, length};
ghost use Rattle.sv_text.specs.Gives.{GivesAnswer};
ghost use Rattle.sv_page.specs.CellWords as spec;

use std::alloc::Global;
use sv_audit::Access;
use sv_report::{Viewer, constraint_text, joined, may_enter};
use sv_text::{NoMemory, Text};

/// Returns the class of a cell, which gives its color.
fn class_of(has_login: bool, access: &Access) -> &'static str
    ensures { result.now ≡ spec.class_of has_login access.now }
{
    match access {
        Access::Unconstrained => "open",
        Access::Uncovered => "uncovered",
        Access::UncoveredDenied => "nobody",
        Access::Precluded => "nobody",
        Access::NeedsTls => "tls",
        Access::Everyone => "open",
        Access::AnyLogin => either(has_login, "login", "nobody"),
        Access::Roles(roles) => either(
            has_login && !roles.as_slice().is_empty(),
            "login",
            "nobody",
        ),
    }
}

/// Returns the class of a cell or, with a viewer who may not enter, that of cells for nobody.
pub fn class_for(viewer: &Option<Viewer>, has_login: bool, access: &Access) -> &'static str
    ensures { result.now ≡ spec.class_for viewer.now has_login access.now }
{
    match viewer {
        None => class_of(has_login, access),
        Some(viewer) => either(
            may_enter(viewer, has_login, access),
            class_of(has_login, access),
            "nobody",
        ),
    }
}

/// Returns the first word if the test holds, and the second otherwise.
fn either(holds: bool, word: &'static str, other: &'static str) -> &'static str
    ensures { result.now ≡ (if holds then word.now else other.now) }
{
    if holds { word } else { other }
}

/// Returns why a cell is as it is, with its section of Jakarta Servlet 6.0.
pub fn reason(has_login: bool, access: &Access) -> &'static str
    ensures { result.now ≡ spec.reason has_login access.now }
{
    match access {
        Access::Unconstrained => "No pattern of a constraint matches these paths (section 12.1).",
        Access::Uncovered => {
            "Constraints cover only other methods here, so everyone may use these (section 13.8.4)."
        }
        Access::UncoveredDenied => {
            "No constraint covers these methods, and uncovered methods are denied (section 13.8.4)."
        }
        Access::Precluded => {
            "An authorization constraint without roles excludes everyone (section 13.8.1)."
        }
        Access::NeedsTls => "Each constraint here requires a protected transport (section 13.8.1).",
        Access::Everyone => {
            "A constraint without an authorization constraint admits everyone (section 13.8.1)."
        }
        Access::AnyLogin => login_reason(
            has_login,
            "Every caller who logs in may enter (section 13.8.1).",
        ),
        Access::Roles(_) => login_reason(
            has_login,
            "Only callers with one of the roles may enter (section 13.8.1).",
        ),
    }
}

fn login_reason(has_login: bool, reason: &'static str) -> &'static str
    ensures { result.now ≡ spec.login_reason has_login reason.now }
{
    if has_login {
        reason
    } else {
        "A login is needed, and the context has no login configuration (section 13.6)."
    }
}

/// Returns why a cell is as it is, and the constraint that decides it, if there is one.
pub fn explanation(
    alloc: Global,
    lines: &[Option<u64>],
    reason: &str,
    constraint: Option<u64>,
) -> Result<Text, NoMemory>
    ensures { GivesAnswer result (spec.explanation lines.now reason.now constraint) }
{
    let constraint = constraint_sentence(alloc, lines, constraint)?;
    joined(alloc, &[reason, constraint.as_str()])
}

fn constraint_sentence(
    alloc: Global,
    lines: &[Option<u64>],
    constraint: Option<u64>,
) -> Result<Text, NoMemory>
    ensures { GivesAnswer result (spec.constraint_sentence lines.now constraint) }
{
    if constraint.is_none() {
        return Text::copy_of(alloc, "");
    }
    let constraint = constraint_text(alloc, lines, constraint)?;
    joined(alloc, &[" Constraint: ", constraint.as_str(), "."])
}
