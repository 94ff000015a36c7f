//! What visitors meet at an access, in a context with or without a login configuration.

ghost use Rattle.std.specs.Prelude.{◌≡◌};
ghost use Rattle.sv_audit.specs.Callers.{same_callers};
ghost use Rattle.sv_audit.specs.Visitors as spec;
ghost use Rattle.sv_audit.specs.declared.access.Access.TheVariants.{Precluded};

use crate::access::Access;
use crate::caller_comparison::{are_among, is_open, same_callers};
use sv_text::Text;

/// Whether visitors can log in, at each of two accesses (Jakarta Servlet 6.0, section 13.6).
#[derive(Clone, Copy, Drop)]
pub struct Logins {
    /// Whether they can at the first access.
    pub before: bool,
    /// Whether they can at the second access.
    pub after: bool,
}

/// How the fate of visitors differs. A visitor is a caller who logs in wherever the context has a login configuration,
/// or one who cannot log in.
#[derive(Clone, Copy, Drop)]
pub enum DifferenceKind {
    /// Some visitor passes after and not before.
    Opened,
    /// Some visitor passes before and not after, and none only after.
    Closed,
    /// The same visitors pass, but some visitor is asked to log in on one side and denied on the other.
    Changed,
}

/// Returns whether only callers pass: without a login configuration nobody does (Jakarta Servlet 6.0, section 13.6).
pub fn needs_login(access: &Access) -> bool
    ensures { result ≡ spec.needs_login access.now }
{
    matches!(access, Access::AnyLogin | Access::Roles(_))
}

/// Returns the access that visitors meet: that of nobody if the access needs a login and there is none.
fn effective<'a>(has_login: bool, access: &'a Access, nobody: &'a Access) -> &'a Access
    ensures { nobody.now ≡ Precluded → result.now ≡ spec.effective has_login access.now }
{
    if has_login || !needs_login(access) {
        access
    } else {
        nobody
    }
}

/// Returns whether the fate of each visitor is the same by both accesses: whether a visitor passes, is asked to log in or
/// is denied. Without a login configuration nobody can log in (Jakarta Servlet 6.0, section 13.6).
pub fn same_fates(logins: Logins, before: &Access, after: &Access) -> bool
    ensures { result ≡ same_callers (spec.effective logins.before before.now) (spec.effective logins.after after.now) }
{
    let nobody = Access::Precluded;
    same_callers(
        effective(logins.before, before, &nobody),
        effective(logins.after, after, &nobody),
    )
}

/// Returns how the fate of visitors differs by both accesses: whether some visitor passes only after, else whether one
/// passes only before. Without a login configuration nobody can log in (Jakarta Servlet 6.0, section 13.6).
pub fn kind_between(logins: Logins, before: &Access, after: &Access) -> DifferenceKind
    ensures { result ≡ spec.kind_of (spec.effective logins.before before.now) (spec.effective logins.after after.now) }
{
    let nobody = Access::Precluded;
    kind_of(
        effective(logins.before, before, &nobody),
        effective(logins.after, after, &nobody),
    )
}

/// Returns how an access differs from the one before, of two that visitors meet.
fn kind_of(before: &Access, after: &Access) -> DifferenceKind
    ensures { result ≡ spec.kind_of before.now after.now }
{
    if lets_in(before, after) {
        DifferenceKind::Opened
    } else if lets_in(after, before) {
        DifferenceKind::Closed
    } else {
        DifferenceKind::Changed
    }
}

/// Returns whether some visitor passes after and not before.
fn lets_in(before: &Access, after: &Access) -> bool
    ensures { result ≡ spec.lets_in before.now after.now }
{
    !is_open(before) && (is_open(after) || lets_callers_in(before, after))
}

/// Returns whether callers pass after and not before: all of them, or those with some role.
fn lets_callers_in(before: &Access, after: &Access) -> bool
    ensures { result ≡ spec.lets_callers_in before.now after.now }
{
    !is_any_login(before) && (is_any_login(after) || !are_among(roles_in(before), roles_in(after)))
}

fn is_any_login(access: &Access) -> bool
    ensures { result ≡ spec.is_any_login access.now }
{
    matches!(access, Access::AnyLogin)
}

/// Returns the roles that an access admits.
fn roles_in(access: &Access) -> &[Text]
    ensures { result.now ≡ spec.roles_in access.now }
{
    match access {
        Access::Roles(names) => names.as_slice(),
        _ => &[],
    }
}
