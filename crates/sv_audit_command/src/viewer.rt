//! The caller whose access is shown.

ghost use Rattle.std.specs.List.{list_any};
ghost use Rattle.std.specs.Option.{option_map_or};
ghost use Rattle.std.specs.Prelude.{◌≡◌, false, is_some, option_copied, option_map};
ghost use Rattle.sv_constraints.specs.Covering as covering;
ghost use Rattle.sv_realm.specs.Realm.{caller_named};
ghost use Rattle.sv_text.specs.Gives.{Gives, GivesAnswer};
ghost use Rattle.sv_program.specs.CommandFault.{command_fault};
ghost use Rattle.sv_audit_command.specs.Viewer as spec;

use crate::access_options::Asked;
use std::alloc::Global;
use sv_audited_contexts::AuditedContext;
use sv_constraints::{Auth, Constraint, lists};
use sv_explanation::AskedCaller;
use sv_findings::is_role;
use sv_program::{CommandFault, quoted};
use sv_realm::{Caller, Realm};
use sv_report::Viewer;
use sv_text::{Listed, NoMemory, Text, copied_texts};

/// Refuses a user that no context has, and a role that no context knows.
///
/// # Errors
/// [`CommandFault::User`], [`CommandFault::Role`], or [`CommandFault::NoMemory`].
pub(crate) fn check_viewer(
    alloc: Global,
    asked: Option<Asked<'_>>,
    contexts: &[AuditedContext],
) -> Result<(), CommandFault>
    ensures { Gives command_fault result (spec.check_viewer asked.entry contexts.now) }
{
    match asked {
        Some(Asked::User(name)) => check_user(alloc, name, contexts),
        Some(Asked::Role(role)) => check_role(alloc, role, contexts),
        None => Ok(()),
    }
}

fn check_user(alloc: Global, name: &str, contexts: &[AuditedContext]) -> Result<(), CommandFault>
    ensures { Gives command_fault result (spec.check_user name.now contexts.now) }
{
    if have_user(name, contexts) {
        return Ok(());
    }
    Err(CommandFault::User(quoted(alloc, name)?))
}

fn have_user(name: &str, contexts: &[AuditedContext]) -> bool
    ensures { result ≡ list_any (λ context. is_some (caller_named context.realm name.now)) contexts.now }
{
    contexts.iter().any(|context| has_user(name, context))
}

fn has_user(name: &str, context: &AuditedContext) -> bool
    ensures { result ≡ is_some (caller_named context.now.realm name.now) }
{
    context.realm.find(name).is_some()
}

fn check_role(alloc: Global, role: &str, contexts: &[AuditedContext]) -> Result<(), CommandFault>
    ensures { Gives command_fault result (spec.check_role role.now contexts.now) }
{
    if know_role(role, contexts) {
        return Ok(());
    }
    Err(CommandFault::Role(quoted(alloc, role)?))
}

fn know_role(role: &str, contexts: &[AuditedContext]) -> bool
    ensures { result ≡ list_any (spec.knows_role role.now) contexts.now }
{
    contexts.iter().any(|context| knows_role(role, context))
}

/// Returns whether the role is declared, a constraint names it, or a user has it.
fn knows_role(role: &str, context: &AuditedContext) -> bool
    ensures { result ≡ spec.knows_role role.now context.now }
{
    lists(context.rules.declared.as_slice(), role)
        || is_named(role, context.constraints.as_slice())
        || is_held(role, &context.surroundings.held)
}

/// Returns whether a constraint names the role. `*` and `**` are no roles.
fn is_named(role: &str, constraints: &[Constraint]) -> bool
    ensures { result ≡ spec.is_named role.now constraints.now }
{
    is_role(role) && any_names(role, constraints)
}

fn any_names(role: &str, constraints: &[Constraint]) -> bool
    ensures { result ≡ list_any (λ constraint. spec.names constraint.auth role.now) constraints.now }
{
    constraints
        .iter()
        .any(|constraint| names(&constraint.auth, role))
}

fn names(auth: &Auth, role: &str) -> bool
    ensures { result ≡ spec.names auth.now role.now }
{
    match auth {
        Auth::Absent => false,
        Auth::Roles(roles) => lists(roles.as_slice(), role),
    }
}

/// Returns whether the role is among those that users have, if users are known.
fn is_held(role: &str, held: &Option<Listed<Text>>) -> bool
    ensures { result ≡ option_map_or (λ roles. covering.lists roles role.now) held.now false }
{
    match held {
        Some(roles) => lists(roles.as_slice(), role),
        None => false,
    }
}

/// Returns the caller in a context with these users. There is none if the context does not have the user.
pub(crate) fn viewer_in(
    alloc: Global,
    asked: Option<Asked<'_>>,
    realm: &Realm,
) -> Result<Option<Viewer>, NoMemory>
    ensures { GivesAnswer result (spec.viewer_in asked.entry realm.now) }
{
    match asked {
        Some(Asked::User(name)) => user_viewer(alloc, realm.find(name)),
        Some(Asked::Role(role)) => Ok(Some(role_viewer(alloc, role)?)),
        None => Ok(None),
    }
}

fn user_viewer(alloc: Global, caller: Option<&Caller>) -> Result<Option<Viewer>, NoMemory>
    ensures { GivesAnswer result (option_map spec.user_viewer (option_copied caller.entry)) }
{
    let Some(caller) = caller else {
        return Ok(None);
    };
    Ok(Some(Viewer {
        name: Text::copy_of(alloc, caller.name.as_str())?,
        roles: copied_texts(alloc, caller.roles.as_slice())?,
    }))
}

/// Returns a caller with only this role.
fn role_viewer(alloc: Global, role: &str) -> Result<Viewer, NoMemory>
    ensures { GivesAnswer result (spec.role_viewer role.now) }
{
    let mut roles = Vec::new(alloc);
    roles.push(Text::copy_of(alloc, role)?)?;
    let name = format!(in alloc; "role {role}")?;
    Ok(Viewer {
        name: Text::from_string(name),
        roles: Listed::from_vec(roles),
    })
}

/// Returns the caller that is asked for, in a context with these users.
pub(crate) fn caller_in(
    alloc: Global,
    asked: Option<Asked<'_>>,
    realm: &Realm,
) -> Result<AskedCaller, NoMemory>
    ensures { GivesAnswer result (spec.caller_in asked.entry realm.now) }
{
    match asked {
        Some(Asked::User(name)) => user_caller(alloc, name, realm.find(name)),
        Some(Asked::Role(role)) => Ok(AskedCaller::Known(role_caller(alloc, role)?)),
        None => Ok(AskedCaller::Nobody),
    }
}

/// Returns the user of this name, which the context may not have.
fn user_caller(alloc: Global, name: &str, caller: Option<&Caller>) -> Result<AskedCaller, NoMemory>
    ensures { GivesAnswer result (spec.user_caller name.now (option_copied caller.entry)) }
{
    match caller {
        Some(caller) => Ok(AskedCaller::Known(Caller::copy_of(alloc, caller)?)),
        None => Ok(AskedCaller::Unknown(Text::copy_of(alloc, name)?)),
    }
}

fn role_caller(alloc: Global, role: &str) -> Result<Caller, NoMemory>
    ensures { GivesAnswer result (spec.role_caller role.now) }
{
    let viewer = role_viewer(alloc, role)?;
    Ok(Caller {
        number: 0,
        name: viewer.name,
        roles: viewer.roles,
    })
}
