//! The words of the JSON of access tables.

ghost use Rattle.std.specs.Prelude.{◌≡◌, ◌==◌, if◌then◌else◌, length};
ghost use Rattle.sv_policy.specs.Covering.{method_names};
ghost use Rattle.sv_report.specs.JsonParts as spec;

use sv_audit::Access;
use sv_constraints::Methods;
use sv_text::Text;

/// Returns the names of methods, whether they are listed or excepted.
pub fn names_in(methods: &Methods) -> &[Text]
    ensures { result.now ≡ method_names methods.now }
{
    match methods {
        Methods::All => &[],
        Methods::Only(names) => names.as_slice(),
        Methods::Except(names) => names.as_slice(),
    }
}

/// Returns whether the listed methods are excepted.
pub fn are_excepted(methods: &Methods) -> bool
    ensures { result ≡ spec.are_excepted methods.now }
{
    !matches!(methods, Methods::Only(_))
}

/// Returns the roles that may enter; none unless roles are named.
pub fn roles_in(access: &Access) -> &[Text]
    ensures { result.now ≡ spec.roles_in access.now }
{
    match access {
        Access::Roles(roles) => roles.as_slice(),
        _ => &[],
    }
}

/// Returns who enters, in one word.
pub fn enters(has_login: bool, access: &Access) -> &'static str
    ensures { result.now ≡ spec.enters has_login access.now }
{
    match access {
        Access::Unconstrained => "everyone",
        Access::Uncovered => "everyone",
        Access::UncoveredDenied => "nobody",
        Access::Precluded => "nobody",
        Access::NeedsTls => "tls",
        Access::Everyone => "everyone",
        Access::AnyLogin => by_login(has_login, "any-login", "nobody"),
        Access::Roles(roles) => role_word(
            roles.as_slice(),
            "nobody",
            by_login(has_login, "roles", "nobody"),
        ),
    }
}

/// Returns the reason, in one word.
pub fn because(has_login: bool, access: &Access) -> &'static str
    ensures { result.now ≡ spec.because has_login access.now }
{
    match access {
        Access::Unconstrained => "no-constraint",
        Access::Uncovered => "uncovered",
        Access::UncoveredDenied => "uncovered-denied",
        Access::Precluded => "precluded",
        Access::NeedsTls => "transport",
        Access::Everyone => "open",
        Access::AnyLogin => by_login(has_login, "login", "no-login"),
        Access::Roles(roles) => role_word(
            roles.as_slice(),
            "no-role",
            by_login(has_login, "role", "no-login"),
        ),
    }
}

fn by_login(has_login: bool, word: &'static str, other: &'static str) -> &'static str
    ensures { result.now ≡ spec.by_login has_login word.now other.now }
{
    if has_login { word } else { other }
}

/// Returns the first word if there are no roles, and the second otherwise.
fn role_word(roles: &[Text], none: &'static str, some: &'static str) -> &'static str
    ensures { result.now ≡ (if length roles.now == 0 then none.now else some.now) }
{
    if roles.is_empty() { none } else { some }
}
