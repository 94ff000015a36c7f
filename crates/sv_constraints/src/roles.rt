//! The role names of an authorization constraint.

ghost use Rattle.std.specs.Prelude.{◌≡◌, ◌||◌, Option};
ghost use Rattle.std.specs.List.{list_any};
ghost use Rattle.std.specs.Option.{option_copied};
ghost use Rattle.sv_constraints.specs.Covering.{lists};
ghost use Rattle.sv_constraints.specs.Roles.{roles_named, admits_holder, admits};

use crate::constraint::Auth;
use crate::coverage::lists;
use sv_realm::Caller;
use sv_text::Text;

/// The name that means every declared role.
pub const EVERY_ROLE: &str = "*";

/// The name that means every authenticated caller, whatever their roles.
pub const EVERY_CALLER: &str = "**";

/// Returns whether the caller holds a role that the name means.
fn name_fits(declared: &[Text], name: &str, held: &[Text]) -> bool
    ensures { result ≡ list_any (lists held.now) (roles_named declared.now name.now) }
{
    if name == EVERY_ROLE {
        declared.iter().any(|role| lists(held, role.as_str()))
    } else if name == EVERY_CALLER {
        false
    } else {
        lists(held, name)
    }
}

/// Returns whether the caller holds a role that one of the names means.
fn names_fit(declared: &[Text], names: &[Text], held: &[Text]) -> bool
    ensures { result ≡ list_any (λ name. list_any (lists held.now) (roles_named declared.now name)) names.now }
{
    names
        .iter()
        .any(|name| name_fits(declared, name.as_str(), held))
}

/// Returns whether the names admit a caller with these roles.
fn admits_holder(declared: &[Text], names: &[Text], held: &[Text]) -> bool
    ensures { result ≡ admits_holder declared.now names.now held.now }
{
    lists(names, EVERY_CALLER) || names_fit(declared, names, held)
}

/// Returns whether an authorization constraint names roles that admit the caller.
pub fn admits(declared: &[Text], caller: Option<&Caller>, auth: &Auth) -> bool
    ensures { result ≡ admits declared.now (option_copied caller.entry) auth.now }
{
    match (caller, auth) {
        (Some(caller), Auth::Roles(names)) => {
            admits_holder(declared, names.as_slice(), caller.roles.as_slice())
        }
        _ => false,
    }
}
