//! The roles that constraints name.

ghost use Rattle.std.specs.Prelude.{◌≡◌, ◌++◌, ◌==◌, IfOk, OnOk, length, map, not};
ghost use Rattle.std.specs.List.{flat_map, list_any};
ghost use Rattle.sv_constraints.specs.Roles.{roles_named, roles_read};
ghost use Rattle.sv_constraints.specs.Verdict.{least_where};
ghost use Rattle.sv_policy.specs.Merged.{admits_everyone};
ghost use Rattle.sv_text.specs.Gives.{GivesAnswer};
ghost use Rattle.sv_audit.specs.Access.{admitting_number, login_access, login_number, means_role, roles_meant, roles_of};

use crate::access::{Access, CellCaller};
use crate::coverage::findings_for;
use crate::order::{copied_texts, sorted};
use std::alloc::Global;
use sv_constraints::{
    Auth, Constraint, EVERY_CALLER, EVERY_ROLE, Rules, lesser, one_more_is_found,
};
use sv_policy::{names_everyone, push_texts};
use sv_text::{Listed, NoMemory, Text};

/// Returns whether one of the constraints admits every authenticated caller.
fn admit_everyone(members: &[&Constraint]) -> bool
    ensures { result ≡ list_any (λ member. admits_everyone member.now) members.now }
{
    members.iter().any(|member| names_everyone(&member.auth))
}

/// Returns who may pass if only callers may.
pub fn login_access(
    alloc: Global,
    rules: &Rules,
    members: &[&Constraint],
) -> Result<Access, NoMemory>
    ensures { GivesAnswer result (login_access rules.now (map (λ member. member.now) members.now)) }
{
    if admit_everyone(members) {
        return Ok(Access::AnyLogin);
    }
    Ok(Access::Roles(roles_of(alloc, rules, members)?))
}

/// Returns the number of the constraint that decides the request of this caller, if only callers may pass: the least
/// number of one that admits the caller, or else the least number of all, which is given.
pub fn login_number(
    whose: CellCaller<'_>,
    rules: &Rules,
    covering: Option<u64>,
    members: &[&Constraint],
) -> Option<u64>
    ensures { result ≡ login_number whose.entry rules.now covering (map (λ member. member.now) members.now) }
{
    admitting_number(whose, rules, members).or(covering)
}

/// Returns the least number of a constraint that admits this caller, if there is one. A caller who has just what the
/// constraints ask for is admitted by those that admit every caller or, if there are none, by those that mean a role.
fn admitting_number(whose: CellCaller<'_>, rules: &Rules, members: &[&Constraint]) -> Option<u64>
    ensures { result ≡ admitting_number whose.entry rules.now (map (λ member. member.now) members.now) }
{
    match whose {
        CellCaller::Fitting => least_for_everyone(members).or(least_for_role(rules, members)),
        CellCaller::Given(caller) => findings_for(rules, caller, members).admitting,
    }
}

/// Returns the least number of a constraint that admits every caller, if there is one.
fn least_for_everyone(members: &[&Constraint]) -> Option<u64>
    ensures { result ≡ least_where admits_everyone (map (λ member. member.now) members.now) }
{
    one_more_is_found();
    let mut least = None;
    for member in members {
        least = lesser(least, names_everyone(&member.auth).then_some(member.number));
    }
    least
}

/// Returns the least number of a constraint that means a role, if there is one.
fn least_for_role(rules: &Rules, members: &[&Constraint]) -> Option<u64>
    ensures { result ≡ least_where (means_role rules.now) (map (λ member. member.now) members.now) }
{
    one_more_is_found();
    let mut least = None;
    for member in members {
        least = lesser(
            least,
            means_role(rules, &member.auth).then_some(member.number),
        );
    }
    least
}

/// Returns whether the authorization constraint means a role.
fn means_role(rules: &Rules, auth: &Auth) -> bool
    ensures { result ≡ not (length (roles_meant rules.now.declared auth.now) == 0) }
{
    match auth {
        Auth::Absent => false,
        Auth::Roles(names) => mean_role(rules.declared.as_slice(), names.as_slice()),
    }
}

/// Returns whether one of the names means a role.
fn mean_role(declared: &[Text], names: &[Text]) -> bool
    ensures { result ≡ list_any (λ name. not (length (roles_named declared.now name) == 0)) names.now }
{
    names.iter().any(|name| is_role(declared, name.as_str()))
}

/// Returns whether the name means a role.
fn is_role(declared: &[Text], name: &str) -> bool
    ensures { result ≡ not (length (roles_named declared.now name.now) == 0) }
{
    if name == EVERY_ROLE {
        !declared.is_empty()
    } else {
        name != EVERY_CALLER
    }
}

/// Returns the roles that the constraints mean, in ascending byte order.
fn roles_of(alloc: Global, rules: &Rules, members: &[&Constraint]) -> Result<Listed<Text>, NoMemory>
    ensures { GivesAnswer result (roles_of rules.now (map (λ member. member.now) members.now)) }
{
    let roles = all_roles(alloc, rules.declared.as_slice(), members)?;
    let ordered = sorted(alloc, roles.as_slice())?;
    copied_texts(alloc, ordered.as_slice())
}

/// Returns the roles that the constraints mean, in order and with duplicates.
fn all_roles<'a>(
    alloc: Global,
    declared: &'a [Text],
    members: &[&'a Constraint],
) -> Result<Vec<&'a str>, NoMemory>
    ensures { IfOk result (λ roles. map (λ role. role.now) roles.items ≡ flat_map (λ member. roles_meant declared.now member.auth) (map (λ member. member.now) members.now)) }
{
    let mut roles = Vec::with_capacity(alloc, members.len())?;
    for member in members {
        push_meant(&mut roles, declared, &member.auth)?;
    }
    Ok(roles)
}

/// Appends the roles that an authorization constraint means.
pub fn push_meant<'a>(
    roles: &mut Vec<&'a str>,
    declared: &'a [Text],
    auth: &'a Auth,
) -> Result<(), NoMemory>
    ensures { OnOk result (map (λ role. role.now) roles.new.items ≡ map (λ role. role.now) roles.old.items ++ roles_meant declared.now auth.now) }
{
    match auth {
        Auth::Absent => Ok(()),
        Auth::Roles(names) => push_read(roles, declared, names.as_slice()),
    }
}

/// Appends the roles that names mean.
fn push_read<'a>(
    roles: &mut Vec<&'a str>,
    declared: &'a [Text],
    names: &'a [Text],
) -> Result<(), NoMemory>
    ensures { OnOk result (map (λ role. role.now) roles.new.items ≡ map (λ role. role.now) roles.old.items ++ roles_read declared.now names.now) }
{
    for name in names {
        push_named(roles, declared, name.as_str())?;
    }
    Ok(())
}

/// Appends the roles that a name means.
fn push_named<'a>(
    roles: &mut Vec<&'a str>,
    declared: &'a [Text],
    name: &'a str,
) -> Result<(), NoMemory>
    ensures { OnOk result (map (λ role. role.now) roles.new.items ≡ map (λ role. role.now) roles.old.items ++ roles_named declared.now name.now) }
{
    if name == EVERY_ROLE {
        push_texts(roles, declared)
    } else if name == EVERY_CALLER {
        Ok(())
    } else {
        roles.push(name)?;
        Ok(())
    }
}
