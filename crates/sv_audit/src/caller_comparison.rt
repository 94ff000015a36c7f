//! Whether two accesses let the same callers pass.

ghost use Rattle.std.specs.Prelude.{◌≡◌};
ghost use Rattle.std.specs.List.{list_all};
ghost use Rattle.sv_constraints.specs.Covering as covering;
ghost use Rattle.sv_audit.specs.Callers as spec;

use crate::access::Access;
use sv_constraints::lists;
use sv_text::Text;

/// Returns whether the same callers pass.
pub(crate) fn same_callers(access: &Access, other: &Access) -> bool
    ensures { result ≡ spec.same_callers access.now other.now }
{
    is_open(access) && is_open(other)
        || is_closed(access) && is_closed(other)
        || same_logins(access, other)
}

/// Returns whether everyone passes, without a caller (Jakarta Servlet 6.0, sections 13.8.1 and 13.8.4).
pub fn is_open(access: &Access) -> bool
    ensures { result ≡ spec.is_open access.now }
{
    matches!(
        access,
        Access::Unconstrained | Access::Uncovered | Access::Everyone
    )
}

/// Returns whether nobody passes.
fn is_closed(access: &Access) -> bool
    ensures { result ≡ spec.is_closed access.now }
{
    matches!(
        access,
        Access::UncoveredDenied | Access::Precluded | Access::NeedsTls
    )
}

/// Returns whether both need a login, of the same callers.
fn same_logins(access: &Access, other: &Access) -> bool
    ensures { result ≡ spec.same_logins access.now other.now }
{
    match (access, other) {
        (Access::AnyLogin, Access::AnyLogin) => true,
        (Access::Roles(names), Access::Roles(others)) => {
            same_roles(names.as_slice(), others.as_slice())
        }
        _ => false,
    }
}

fn same_roles(names: &[Text], others: &[Text]) -> bool
    ensures { result ≡ spec.same_roles names.now others.now }
{
    are_among(others, names) && are_among(names, others)
}

/// Returns whether each of the texts is among the others.
pub(crate) fn are_among(others: &[Text], texts: &[Text]) -> bool
    ensures { result ≡ list_all (covering.lists others.now) texts.now }
{
    texts.iter().all(|text| lists(others, text.as_str()))
}
