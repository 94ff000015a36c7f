//! The explanation of a request.

ghost use Rattle.std.specs.Prelude.{◌≡◌, IfOk, IfSome, IsTrue, option_and_then, slice_get};
ghost use Rattle.std.specs.List.{list_all};
ghost use Rattle.std.specs.Option.{option_copied};
ghost use Rattle.httparse.specs.Grammar.{is_uri_byte};
ghost use Rattle.sv_mapping.specs.Pattern.{is_at_or_below};
ghost use Rattle.sv_message.specs.TargetForm.{FitsForm, path_of, with_slash};
ghost use Rattle.sv_message.specs.declared.target.TargetForm.TheVariants.{Absolute};
ghost use Rattle.sv_policy.specs.Explanation.{is_token};
ghost use Rattle.sv_policy.specs.Fault.{explain_fault};
ghost use Rattle.sv_text.specs.Gives.{Gives, GivesAnswer};
ghost use Rattle.sv_uri.specs.Canonical.{canonical};
ghost use Rattle.sv_explanation.specs.Explanation as spec;

use crate::explanation::{Explanation, ServedRequest};
use crate::heads::is_too_long;
use crate::site_context::{Asked, SiteContext};
use crate::treatments::treatment;
use std::alloc::Global;
use sv_mapping::{context_place, path_within};
use sv_message::{SCHEME_LEN, TargetForm, target_form};
use sv_policy::ExplainFault;
use sv_text::{NoMemory, Text};
use sv_uri::canon;
use sv_uri::fault::CanonFault;
use sv_uri::path::Canon;
use sv_wire::WireFault;

/// Explains what the server does with a request. The target may be in any form. The rest of the request is taken to be
/// well-formed, and to be made by the caller of its context, if there is one.
///
/// # Errors
/// [`ExplainFault::BadMethod`] if the method is not a token.
/// [`ExplainFault::NoMemory`] if memory runs out.
pub fn explain(
    alloc: Global,
    contexts: &[SiteContext],
    asked: &Asked<'_>,
) -> Result<Explanation, ExplainFault>
    ensures { Gives explain_fault result (spec.explanation contexts.now asked.now.method.now asked.now.target.now) }
{
    if !is_token(asked.method) {
        return Err(ExplainFault::BadMethod);
    }
    Ok(explanation_of(alloc, contexts, asked.method, asked.target)?)
}

/// Returns whether the text is a token, as every method is (RFC 9110, sections 5.6.2 and 9.1).
fn is_token(text: &str) -> bool
    ensures { result ≡ is_token text.now }
{
    http_header::is_token(text.as_bytes())
}

fn explanation_of(
    alloc: Global,
    contexts: &[SiteContext],
    method: &str,
    target: &str,
) -> Result<Explanation, NoMemory>
    ensures { GivesAnswer result (spec.explanation_of contexts.now method.now target.now) }
{
    if is_too_long(method, target) {
        return Ok(Explanation::Unread(WireFault::HeadTooLarge));
    }
    if !is_writable(target.as_bytes()) {
        return Ok(Explanation::Unread(WireFault::BadHead));
    }
    let target = target.as_bytes();
    match target_form(method.as_bytes(), target) {
        TargetForm::Origin => at_target(alloc, contexts, method, target),
        TargetForm::Absolute(len) => {
            let path = path_in(alloc, target, len)?;
            at_target(alloc, contexts, method, path.as_slice())
        }
        TargetForm::Star => Ok(Explanation::OfServer),
        TargetForm::Unknown => Ok(Explanation::Unread(WireFault::BadTarget)),
    }
}

/// Returns whether a request line can hold the target.
fn is_writable(target: &[u8]) -> bool
    ensures { result ≡ spec.is_writable target.now }
{
    !target.is_empty() && are_visible(target)
}

fn are_visible(target: &[u8]) -> bool
    ensures { result ≡ list_all is_uri_byte target.now }
{
    target.iter().all(|b| *b > b' ' && *b != 127)
}

/// Returns the path of a target in absolute form, whose authority has this length in bytes.
fn path_in(alloc: Global, target: &[u8], len: usize) -> Result<Vec<u8>, NoMemory>
    requires { FitsForm (Absolute len) target.now }
    ensures { IfOk result (λ path. path.items ≡ path_of target.now) }
{
    let behind = &target[SCHEME_LEN..];
    path_after(alloc, &behind[len..])
}

/// Returns the path after an authority. A slash is added if it does not begin with one.
fn path_after(alloc: Global, behind: &[u8]) -> Result<Vec<u8>, NoMemory>
    ensures { IfOk result (λ path. path.items ≡ with_slash behind.now) }
{
    let mut path = Vec::new(alloc);
    if !behind.starts_with(b"/") {
        path.push(b'/')?;
    }
    path.extend_from_slice(behind)?;
    Ok(path)
}

/// Explains a request for a target that is a path with an optional query.
fn at_target(
    alloc: Global,
    contexts: &[SiteContext],
    method: &str,
    target: &[u8],
) -> Result<Explanation, NoMemory>
    ensures { GivesAnswer result (spec.at_canon contexts.now method.now (canonical target.now)) }
{
    let canonical = match canon(alloc, target) {
        Ok(canonical) => canonical,
        Err(CanonFault::Path(fault)) => return Ok(Explanation::BadPath(fault)),
        Err(CanonFault::NoMemory) => return Err(NoMemory),
    };
    at_path(alloc, contexts, method, canonical)
}

/// Explains a request for a canonical path.
fn at_path(
    alloc: Global,
    contexts: &[SiteContext],
    method: &str,
    canon: Canon,
) -> Result<Explanation, NoMemory>
    ensures { GivesAnswer result (spec.in_context method.now canon (option_and_then (slice_get contexts.now) (spec.context_place contexts.now canon.path))) }
{
    match context_of(contexts, canon.path.as_str()) {
        Some(context) => Ok(Explanation::InContext(served(alloc, context, method, canon)?)),
        None => Ok(Explanation::NoContext(canon.path)),
    }
}

fn context_of<'a>(contexts: &'a [SiteContext], path: &str) -> Option<&'a SiteContext>
    ensures chosen { option_copied result ≡ option_and_then (slice_get contexts.now) (spec.context_place contexts.now path.now) }
    ensures above { IfSome result (λ context. IsTrue (is_at_or_below context.now.path path.now)) }
{
    match context_place(contexts, path) {
        Some(place) => contexts.get(place),
        None => None,
    }
}

/// Explains a request in the context that serves its path.
fn served(
    alloc: Global,
    context: &SiteContext,
    method: &str,
    canon: Canon,
) -> Result<ServedRequest, NoMemory>
    requires { IsTrue (is_at_or_below context.now.path canon.path) }
    ensures { GivesAnswer result (spec.served method.now canon context.now) }
{
    let Canon { path, query } = canon;
    let within = Canon {
        path: Text::copy_of(alloc, path_within(context.path.as_str(), path.as_str()))?,
        query,
    };
    Ok(ServedRequest {
        canonical: path,
        context: Text::copy_of(alloc, context.path.as_str())?,
        file: Text::copy_of(alloc, context.file.as_str())?,
        treatment: treatment(alloc, context, method, &within)?,
        path: within.path,
    })
}
