//! What two configurations of a server decide differently.

ghost use Rattle.std.specs.Prelude.{◌≡◌, map, option_copied};
ghost use Rattle.std.specs.List.{count_by};
ghost use Rattle.sv_text.specs.Gives.{Gives, GivesAnswer};
ghost use Rattle.sv_program.specs.CommandFault.{command_fault};
ghost use Rattle.sv_program.specs.Configuration.{each};
ghost use Rattle.sv_audit_command.specs.ComparedServers as spec;

use crate::access_options::Format;
use crate::further_files::OtherFiles;
use crate::kinds::lists_kind;
use std::alloc::Global;
use sv_audited_contexts::{AuditedContext, constraints_over};
use sv_descriptor::WebApp;
use sv_difference::{
    ComparedContext, ContextDifference, ServerDifference, difference_json, difference_text,
    server_difference,
};
use sv_program::{CommandFault, ContextTexts, descriptor_in, realm_in, server_in};
use sv_text::{Listed, NoMemory, Text};

/// Reads the contexts of the other server, whose file has this name.
///
/// # Errors
/// The first fault: of the server file, and then of the descriptor and the users of each context, in order. Or
/// [`CommandFault::NoMemory`].
pub(crate) fn other_server(
    alloc: Global,
    is_secure: bool,
    name: &str,
    other: &OtherFiles,
) -> Result<Listed<ComparedContext>, CommandFault>
    ensures { Gives command_fault result (spec.other_server is_secure name.now other.now) }
{
    check_server(alloc, name, other)?;
    other_contexts(alloc, is_secure, other.contexts.as_slice())
}

fn check_server(alloc: Global, name: &str, other: &OtherFiles) -> Result<(), CommandFault>
    ensures { Gives command_fault result (spec.checked_server name.now other.now) }
{
    server_in(alloc, name, &other.server)?;
    Ok(())
}

fn other_contexts(
    alloc: Global,
    is_secure: bool,
    texts: &[ContextTexts],
) -> Result<Listed<ComparedContext>, CommandFault>
    ensures { Gives command_fault result (each (spec.other_context is_secure) texts.now) }
{
    let mut contexts = Vec::new(alloc);
    for texts in texts {
        let context = other_context(alloc, is_secure, texts)?;
        contexts.push(context)?;
    }
    Ok(Listed::from_vec(contexts))
}

fn other_context(
    alloc: Global,
    is_secure: bool,
    texts: &ContextTexts,
) -> Result<ComparedContext, CommandFault>
    ensures { Gives command_fault result (spec.other_context is_secure texts.now) }
{
    let web_app = descriptor_in(alloc, texts)?.into_web_app();
    realm_in(alloc, texts)?;
    Ok(other_with(alloc, is_secure, texts, web_app)?)
}

/// Returns the context of the other server with this descriptor.
fn other_with(
    alloc: Global,
    is_secure: bool,
    texts: &ContextTexts,
    web_app: WebApp,
) -> Result<ComparedContext, NoMemory>
    ensures { GivesAnswer result (spec.other_with is_secure texts.now web_app) }
{
    let path = Text::copy_of(alloc, texts.context.path.as_str())?;
    let file = Text::copy_of(alloc, texts.context.descriptor.as_str())?;
    let has_login = web_app.login.is_some();
    let constraints = constraints_over(alloc, is_secure, web_app.constraints)?;
    Ok(ComparedContext {
        path,
        file,
        has_login,
        constraints,
        rules: web_app.rules,
    })
}

/// Returns what differs between the contexts of two servers.
pub(crate) fn difference(
    alloc: Global,
    contexts: Listed<AuditedContext>,
    others: &[ComparedContext],
) -> Result<ServerDifference, NoMemory>
    ensures { GivesAnswer result (spec.difference contexts others.now) }
{
    let compared = compared_contexts(alloc, contexts)?;
    server_difference(alloc, compared.as_slice(), others)
}

fn compared_contexts(
    alloc: Global,
    contexts: Listed<AuditedContext>,
) -> Result<Listed<ComparedContext>, NoMemory>
    ensures { GivesAnswer result (map spec.compared contexts) }
{
    let mut compared = Vec::new(alloc);
    for context in contexts.into_vec() {
        compared.push(compared_context(context))?;
    }
    Ok(Listed::from_vec(compared))
}

fn compared_context(context: AuditedContext) -> ComparedContext
    ensures { result ≡ spec.compared context }
{
    let source = context.source;
    ComparedContext {
        path: source.path,
        file: source.file,
        has_login: context.has_login,
        constraints: context.constraints,
        rules: context.rules,
    }
}

/// Returns the difference in a form: JSON, or text for every other one.
pub(crate) fn written(
    alloc: Global,
    format: Format,
    found: &ServerDifference,
) -> Result<Text, NoMemory>
    ensures { GivesAnswer result (spec.written format found.now) }
{
    match format {
        Format::Text => difference_text(alloc, found),
        Format::Json => difference_json(alloc, found),
        Format::Html => difference_text(alloc, found),
        Format::Keys => difference_text(alloc, found),
    }
}

/// Returns the number of the opened differences and of the contexts that only one server has, if the kinds list
/// `opened`.
pub(crate) fn opened_count(kinds: Option<&str>, found: &ServerDifference) -> u64
    ensures { result ≡ spec.opened_count (option_copied kinds.entry) found.now }
{
    match kinds {
        Some(kinds) => opened_among(kinds, found),
        None => 0,
    }
}

fn opened_among(kinds: &str, found: &ServerDifference) -> u64
    ensures { result ≡ spec.opened_among kinds.now found.now }
{
    if lists_kind(kinds, "opened") {
        opened_or_of_one(found)
    } else {
        0
    }
}

fn opened_or_of_one(found: &ServerDifference) -> u64
    ensures { result ≡ spec.opened_or_of_one found.now }
{
    (found.opened as u64).saturating_add(count_of_one(found.contexts.as_slice()) as u64)
}

/// Returns how many of the contexts only one of the servers has.
fn count_of_one(contexts: &[ContextDifference]) -> usize
    ensures { result ≡ count_by spec.is_of_one contexts.now }
{
    contexts.iter().filter(|context| is_of_one(context)).count()
}

#[tactic(auto, unfolding(crate::specs::ComparedServers::is_of_one))]
fn is_of_one(context: &ContextDifference) -> bool
    ensures { result ≡ spec.is_of_one context.now }
{
    context.before.is_none() || context.after.is_none()
}
