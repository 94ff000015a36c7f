//! Errors and failures of dispatches, stored in the exchange for the response.

ghost use Rattle.std.specs.Prelude.{◌≡◌, None, IfOk};
ghost use Rattle.sv_dispatch.specs.Did.{Did, lasting, seen};
ghost use Rattle.sv_dispatch.specs.Seen.{field_of};
ghost use Rattle.sv_tree.specs.Endings.{error_status, errs, errs_with, fails, faults, is_away_for, is_missing, is_not_allowed};
ghost use Rattle.sv_tree.specs.SiteOfDescriptor.{site_of};
ghost use Rattle.sv_message.specs.Phrases.{phrase_of};

use crate::machine::Machine;
use crate::parts::ErrorField;
use crate::plain_answer::phrase_of;
use std::alloc::Global;
use sv_text::{NoMemory, Text};
use sv_tree::{
    DispatchFault, Finished, INTERNAL_SERVER_ERROR, LEAST_ERROR, MAX_ERROR, METHOD_NOT_ALLOWED,
    NOT_FOUND, Resource, SERVICE_UNAVAILABLE, Site,
};

/// Ends a dispatch in an error. Within an include the error is ignored, and the dispatch counts as done.
pub(crate) fn err<M: Machine>(
    machine: &mut M,
    site: &Site,
    resource: Resource,
    status: u16,
    text: Text,
    field: ErrorField,
) -> Result<Finished, NoMemory>
    ensures { Did M.state M.frame M.ran (errs (site_of site.now) resource status text (field_of field)) machine.old machine.new (seen result) }
{
    if machine.is_within_include() {
        return Ok(Finished::Done);
    }
    let Ok(()) = machine.keep_error(status, text.as_str(), site.name_of(resource), field) else {
        return Err(NoMemory);
    };
    Ok(Finished::Error(status, text))
}

/// Ends a dispatch in an error whose text is the reason phrase of its status.
fn err_with<M: Machine>(
    alloc: Global,
    machine: &mut M,
    site: &Site,
    resource: Resource,
    status: u16,
    field: ErrorField,
) -> Result<Finished, NoMemory>
    ensures { Did M.state M.frame M.ran (errs_with (site_of site.now) resource status (field_of field)) machine.old machine.new (seen result) }
{
    if machine.is_within_include() {
        return Ok(Finished::Done);
    }
    let Ok(text) = phrase(alloc, status) else {
        return Err(NoMemory);
    };
    err(machine, site, resource, status, text, field)
}

/// Ends a dispatch in a 404 error: nothing is found at the path, or the servlet is gone.
pub(crate) fn missing<M: Machine>(
    alloc: Global,
    machine: &mut M,
    site: &Site,
    resource: Resource,
) -> Result<Finished, NoMemory>
    ensures { Did M.state M.frame M.ran (is_missing (site_of site.now) resource) machine.old machine.new (seen result) }
{
    err_with(
        alloc,
        machine,
        site,
        resource,
        NOT_FOUND,
        ErrorField::Nothing,
    )
}

/// Ends a dispatch in a 405 error: the file servlet does not serve the path by this method.
pub(crate) fn not_allowed<M: Machine>(
    alloc: Global,
    machine: &mut M,
    site: &Site,
    resource: Resource,
) -> Result<Finished, NoMemory>
    ensures { Did M.state M.frame M.ran (is_not_allowed (site_of site.now) resource) machine.old machine.new (seen result) }
{
    err_with(
        alloc,
        machine,
        site,
        resource,
        METHOD_NOT_ALLOWED,
        ErrorField::Allow,
    )
}

/// Ends a dispatch in a 503 error: the servlet is unavailable for this many more seconds.
pub(crate) fn away_for<M: Machine>(
    alloc: Global,
    machine: &mut M,
    site: &Site,
    resource: Resource,
    seconds: u64,
) -> Result<Finished, NoMemory>
    ensures { Did M.state M.frame M.ran (is_away_for (site_of site.now) resource seconds) machine.old machine.new (seen result) }
{
    let field = ErrorField::RetryAfter(seconds);
    err_with(alloc, machine, site, resource, SERVICE_UNAVAILABLE, field)
}

/// Ends a dispatch in a failure.
pub(crate) fn fail<M: Machine>(
    machine: &mut M,
    site: &Site,
    resource: Resource,
    kind: Text,
    text: Text,
) -> Result<Finished, NoMemory>
    ensures { Did M.state M.frame M.ran (fails (site_of site.now) resource kind text) machine.old machine.new (seen result) }
{
    let name = site.name_of(resource);
    let Ok(()) = machine.keep_error(
        INTERNAL_SERVER_ERROR,
        text.as_str(),
        name,
        ErrorField::Nothing,
    ) else {
        return Err(NoMemory);
    };
    Ok(Finished::Failed(kind, text))
}

/// Ends a dispatch in a failure that the container itself raises.
pub(crate) fn fault<M: Machine>(
    alloc: Global,
    machine: &mut M,
    site: &Site,
    resource: Resource,
    fault: DispatchFault,
) -> Result<Finished, NoMemory>
    ensures { Did M.state M.frame M.ran (faults (site_of site.now) resource fault) machine.old machine.new (seen result) }
{
    let Ok(kind) = Text::copy_of(alloc, fault.name()) else {
        return Err(NoMemory);
    };
    let Ok(text) = Text::copy_of(alloc, fault.name()) else {
        return Err(NoMemory);
    };
    fail(machine, site, resource, kind, text)
}

/// Returns the status for the error code of a servlet: the code if it is an error status, 500 for any other.
pub(crate) fn error_status(code: u16) -> u16
    ensures { result ≡ error_status code }
{
    if LEAST_ERROR <= code && code <= MAX_ERROR {
        code
    } else {
        INTERNAL_SERVER_ERROR
    }
}

/// Turns the end of a dispatch into the result of a turn: the servlet gets no further turn.
pub(crate) fn lasting(finished: Result<Finished, NoMemory>) -> Result<Option<Finished>, NoMemory>
    ensures { result ≡ lasting finished }
{
    match finished {
        Ok(finished) => Ok(Some(finished)),
        Err(refusal) => Err(refusal),
    }
}

// Returns the reason phrase of an error's status.
fn phrase(alloc: Global, status: u16) -> Result<Text, NoMemory>
    ensures { IfOk result (λ text. text ≡ phrase_of status) }
{
    Text::copy_of(alloc, phrase_of(status))
}
