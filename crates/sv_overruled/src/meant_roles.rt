//! Whether constraints mean a role (Jakarta Servlet 6.0, section 13.8).

ghost use Rattle.std.specs.Prelude.{◌≡◌, map};
ghost use Rattle.std.specs.List.{list_all, list_any};
ghost use Rattle.sv_constraints.specs.Covering.{lists};
ghost use Rattle.sv_constraints.specs.Roles.{roles_named};
ghost use Rattle.sv_audit.specs.Access.{roles_meant};

use sv_constraints::{Auth, Constraint, EVERY_CALLER, EVERY_ROLE, lists};
use sv_text::Text;

/// Returns whether each of the roles is meant by one of the constraints.
pub(crate) fn all_meant(declared: &[Text], members: &[&Constraint], roles: &[&str]) -> bool
    ensures { result ≡ list_all (λ role. list_any (λ member. lists (roles_meant declared.now member.now.auth) role.now) members.now) roles.now }
{
    roles.iter().all(|role| is_meant(declared, members, role))
}

/// Returns whether the role is meant by one of the constraints.
fn is_meant(declared: &[Text], members: &[&Constraint], role: &str) -> bool
    ensures { result ≡ list_any (λ member. lists (roles_meant declared.now member.now.auth) role.now) members.now }
{
    members
        .iter()
        .any(|member| means(declared, &member.auth, role))
}

/// Returns whether the authorization constraint means the role.
fn means(declared: &[Text], auth: &Auth, role: &str) -> bool
    ensures { result ≡ lists (roles_meant declared.now auth.now) role.now }
{
    match auth {
        Auth::Absent => false,
        Auth::Roles(names) => any_means(declared, names.as_slice(), role),
    }
}

/// Returns whether one of the names means the role.
fn any_means(declared: &[Text], names: &[Text], role: &str) -> bool
    ensures { result ≡ list_any (λ name. lists (roles_named declared.now name) role.now) names.now }
{
    names
        .iter()
        .any(|name| name_means(declared, name.as_str(), role))
}

/// Returns whether the name means the role.
fn name_means(declared: &[Text], name: &str, role: &str) -> bool
    ensures { result ≡ lists (roles_named declared.now name.now) role.now }
{
    if name == EVERY_ROLE {
        lists(declared, role)
    } else if name == EVERY_CALLER {
        false
    } else {
        name == role
    }
}
