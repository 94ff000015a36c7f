//! The texts of the columns of an access table.

ghost use Rattle.std.specs.Prelude.{◌≡◌, ◌++◌, OnOk, codes, string_bytes};
ghost use Rattle.sv_text.specs.Gives.{GivesAnswer};
ghost use Rattle.sv_report.specs.Words as spec;

use crate::escaped::escaped;
use crate::parts::joined;
use std::alloc::Global;
use sv_audit::Access;
use sv_constraints::Methods;
use sv_text::{NoMemory, Text};

/// Returns the text of a pattern, or of the paths that no pattern matches.
pub fn pattern_text(alloc: Global, pattern: &Option<Text>) -> Result<Text, NoMemory>
    ensures { GivesAnswer result (spec.pattern_text pattern.now) }
{
    match pattern {
        None => Text::copy_of(alloc, "other paths"),
        Some(pattern) => shown_pattern(alloc, pattern.as_str()),
    }
}

/// Returns the text of a pattern.
pub fn shown_pattern(alloc: Global, pattern: &str) -> Result<Text, NoMemory>
    ensures { GivesAnswer result (spec.pattern_text (Some pattern.now)) }
{
    if pattern.is_empty() {
        Text::copy_of(alloc, "\"\"")
    } else {
        escaped(alloc, pattern)
    }
}

/// Returns the text of methods.
pub fn methods_text(alloc: Global, methods: &Methods) -> Result<Text, NoMemory>
    ensures { GivesAnswer result (spec.methods_text methods.now) }
{
    match methods {
        Methods::All => Text::copy_of(alloc, "all"),
        Methods::Only(names) => names_text(alloc, names.as_slice()),
        Methods::Except(names) => Text::copy_of(alloc, exceptions_text(names.as_slice())),
    }
}

fn exceptions_text(names: &[Text]) -> &'static str
    ensures { result.now ≡ spec.methods_text (Methods.Except names.now) }
{
    if names.is_empty() { "all" } else { "others" }
}

/// Returns names, separated by commas.
pub fn names_text(alloc: Global, names: &[Text]) -> Result<Text, NoMemory>
    ensures { GivesAnswer result (spec.names_text names.now) }
{
    let mut text = String::new(alloc);
    push_names(&mut text, alloc, names)?;
    Ok(Text::from_string(text))
}

fn push_names(text: &mut String, alloc: Global, names: &[Text]) -> Result<(), NoMemory>
    ensures { OnOk result (string_bytes text.new ≡ string_bytes text.old ++ spec.names_text names.now) }
{
    let Some((name, others)) = names.split_first() else {
        return Ok(());
    };
    text.push_str(escaped(alloc, name.as_str())?.as_str())?;
    push_others(text, alloc, others)
}

/// Appends names, each after a comma.
fn push_others(text: &mut String, alloc: Global, others: &[Text]) -> Result<(), NoMemory>
    ensures { OnOk result (string_bytes text.new ≡ string_bytes text.old ++ spec.others_text others.now) }
{
    for other in others {
        text.push_str(", ")?;
        text.push_str(escaped(alloc, other.as_str())?.as_str())?;
    }
    Ok(())
}

/// Returns the text of the callers that may enter or, if there are none, of the reason.
pub fn who_text(alloc: Global, has_login: bool, access: &Access) -> Result<Text, NoMemory>
    ensures { GivesAnswer result (spec.who_text has_login access.now) }
{
    let text = refusal_text(alloc, has_login, access)?;
    if lets_nobody_in(has_login, access) {
        joined(alloc, &["nobody (", text.as_str(), ")"])
    } else {
        Ok(text)
    }
}

fn lets_nobody_in(has_login: bool, access: &Access) -> bool
    ensures { result ≡ spec.lets_nobody_in has_login access.now }
{
    match access {
        Access::UncoveredDenied => true,
        Access::Precluded => true,
        Access::AnyLogin => !has_login,
        Access::Roles(roles) => !has_login || roles.as_slice().is_empty(),
        Access::Unconstrained => false,
        Access::Uncovered => false,
        Access::NeedsTls => false,
        Access::Everyone => false,
    }
}

/// Returns whom an access lets in, or why it lets nobody in.
pub(crate) fn refusal_text(
    alloc: Global,
    has_login: bool,
    access: &Access,
) -> Result<Text, NoMemory>
    ensures { GivesAnswer result (spec.refusal_text has_login access.now) }
{
    match access {
        Access::Unconstrained => Text::copy_of(alloc, "everyone (no constraint)"),
        Access::Uncovered => Text::copy_of(alloc, "everyone (uncovered)"),
        Access::UncoveredDenied => Text::copy_of(alloc, "uncovered, denied"),
        Access::Precluded => Text::copy_of(alloc, "no role is allowed"),
        Access::NeedsTls => Text::copy_of(alloc, "needs TLS"),
        Access::Everyone => Text::copy_of(alloc, "everyone"),
        Access::AnyLogin => Text::copy_of(alloc, or_no_login(has_login, "any login")),
        Access::Roles(roles) => roles_text(alloc, has_login, roles.as_slice()),
    }
}

/// Returns the text of callers who log in, or why nobody does.
fn or_no_login<'a>(has_login: bool, text: &'a str) -> &'a str
    ensures { result.now ≡ spec.or_no_login has_login text.now }
{
    if has_login { text } else { "no login" }
}

fn roles_text(alloc: Global, has_login: bool, roles: &[Text]) -> Result<Text, NoMemory>
    ensures { GivesAnswer result (spec.refusal_text has_login (Access.Roles roles.now)) }
{
    if roles.is_empty() {
        return Text::copy_of(alloc, "no such role");
    }
    let names = named_roles(alloc, roles)?;
    Text::copy_of(alloc, or_no_login(has_login, names.as_str()))
}

fn named_roles(alloc: Global, roles: &[Text]) -> Result<Text, NoMemory>
    ensures { GivesAnswer result (codes "role " ++ spec.names_text roles.now) }
{
    let mut text = String::new(alloc);
    text.push_str("role ")?;
    push_names(&mut text, alloc, roles)?;
    Ok(Text::from_string(text))
}
