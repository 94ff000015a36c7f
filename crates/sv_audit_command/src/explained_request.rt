//! The explanation of one request to the contexts of a server.

ghost use Rattle.std.specs.Prelude.{◌≡◌, ◌++◌, OnOk, option_copied};
ghost use Rattle.std.specs.Option.{option_to_list};
ghost use Rattle.sv_text.specs.Gives.{Gives, GivesAnswer};
ghost use Rattle.sv_explanation.specs.Text.{explanation_text};
ghost use Rattle.sv_program.specs.CommandFault.{command_fault};
ghost use Rattle.sv_report.specs.Folded.{folded};
ghost use Rattle.sv_audit_command.specs.ExplainedRequest as spec;

use crate::access_options::{AccessOptions, Asked};
use crate::viewer::caller_in;
use std::alloc::Global;
use sv_audited_contexts::{AuditedContext, Source};
use sv_explanation::{Asked as Request, Explanation, SiteContext, explain, explanation_text};
use sv_policy::ExplainFault;
use sv_program::{CommandFault, quoted};
use sv_report::folded;
use sv_text::{Listed, NoMemory, Text};

/// Explains the request with this target, by the caller that is asked for.
///
/// # Errors
/// [`CommandFault::Method`] if the method is not a token, or [`CommandFault::NoMemory`].
pub(crate) fn explained(
    alloc: Global,
    contexts: Listed<AuditedContext>,
    target: &str,
    options: &AccessOptions<'_>,
) -> Result<Text, CommandFault>
    ensures { Gives command_fault result (spec.explained options.now target.now contexts) }
{
    let sites = sites_of(alloc, contexts, options.viewer)?;
    let request = Request {
        method: method_of(options),
        target,
    };
    explained_at(alloc, sites.as_slice(), &request)
}

/// Returns the method of the request, which is GET if the options name none.
fn method_of<'a>(options: &AccessOptions<'a>) -> &'a str
    ensures { result.now ≡ spec.method_of options.now }
{
    options.method.unwrap_or("GET")
}

/// Returns the contexts whose descriptors are kept, as the caller meets them.
fn sites_of(
    alloc: Global,
    contexts: Listed<AuditedContext>,
    asked: Option<Asked<'_>>,
) -> Result<Listed<SiteContext>, NoMemory>
    ensures { GivesAnswer result (spec.sites_of asked.entry contexts) }
{
    let mut sites = Vec::new(alloc);
    for context in contexts.into_vec() {
        push_site(&mut sites, alloc, context, asked)?;
    }
    Ok(Listed::from_vec(sites))
}

fn push_site(
    sites: &mut Vec<SiteContext>,
    alloc: Global,
    context: AuditedContext,
    asked: Option<Asked<'_>>,
) -> Result<(), NoMemory>
    ensures { OnOk result (sites.new.items ≡ sites.old.items ++ option_to_list (spec.site_of asked.entry context)) }
{
    let caller = caller_in(alloc, asked, &context.realm)?;
    let AuditedContext {
        source,
        constraints,
        descriptor,
        surroundings,
        ..
    } = context;
    let Some(descriptor) = descriptor else {
        return Ok(());
    };
    let Source { path, file, lines } = source;
    sites.push(SiteContext {
        path,
        file,
        descriptor,
        constraints,
        lines: lines.constraints,
        caller,
        files: surroundings.files,
    })?;
    Ok(())
}

fn explained_at(
    alloc: Global,
    sites: &[SiteContext],
    request: &Request<'_>,
) -> Result<Text, CommandFault>
    ensures { Gives command_fault result (spec.explained_at sites.now request.now.method.now request.now.target.now) }
{
    match explain(alloc, sites, request) {
        Ok(explanation) => Ok(sentences(alloc, request, &explanation)?),
        Err(fault) => Err(fault_of(alloc, request.method, fault)?),
    }
}

/// Returns the explanation in sentences, in lines of at most 100 characters.
fn sentences(
    alloc: Global,
    request: &Request<'_>,
    explanation: &Explanation,
) -> Result<Text, NoMemory>
    ensures { GivesAnswer result (folded (explanation_text request.now.method.now request.now.target.now explanation.now)) }
{
    let text = explanation_text(alloc, request, explanation)?;
    folded(alloc, text.as_str())
}

fn fault_of(alloc: Global, method: &str, fault: ExplainFault) -> Result<CommandFault, NoMemory>
    ensures { GivesAnswer result (spec.fault_of method.now fault) }
{
    match fault {
        ExplainFault::BadMethod => Ok(CommandFault::Method(quoted(alloc, method)?)),
        ExplainFault::NoSuchUser => Ok(CommandFault::User(quoted(alloc, "")?)),
        ExplainFault::NoMemory => Ok(CommandFault::NoMemory),
    }
}
