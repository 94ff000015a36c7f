//! The explanation of a request.

ghost use Rattle.std.specs.Prelude.{◌≡◌, IsTrue, map};
ghost use Rattle.std.specs.Option.{option_copied, option_map};
ghost use Rattle.sv_text.specs.Gives.{Gives, GivesAnswer};
ghost use Rattle.sv_mapping.specs.Pattern.{is_at_or_below};
ghost use Rattle.sv_policy.specs.Context.{policy};
ghost use Rattle.sv_policy.specs.Explanation as spec;
ghost use Rattle.sv_policy.specs.Fault.{explain_fault};

use crate::explain_fault::ExplainFault;
use crate::explained_context::{ContextPolicy, HasPolicy, context_of};
use crate::explanation::{Explanation, HiddenCause};
use std::alloc::Global;
use sv_constraints::OwnedDecision;
use sv_mapping::{is_protected, path_within};
use sv_realm::{Caller, Realm};
use sv_text::{NoMemory, Text};
use sv_uri::canon;
use sv_uri::fault::CanonFault;

/// Explains how a request with this method and target would be handled, for the named user of its context or without a
/// caller.
///
/// The target is any bytes, read as a path with an optional query. A method may have any length. No password is needed
/// for a named user. The time is linear in the contexts and their users; the constraints are not iterated over.
///
/// # Errors
/// [`ExplainFault::BadMethod`] if the method is not a token; this is checked before the target.
/// [`ExplainFault::NoSuchUser`] if the realm of the context of the target does not have the user.
/// [`ExplainFault::NoMemory`] if memory runs out.
pub fn explain_request<C: HasPolicy>(
    alloc: Global,
    contexts: &[C],
    method: &str,
    target: &[u8],
    user: Option<&str>,
) -> Result<Explanation, ExplainFault>
    ensures { Gives explain_fault result (spec.explanation
        (map (λ context. policy (C.path_of context) (C.standing_of context) (C.users_of context)) contexts.now)
        method.now target.now (option_copied user.entry)) }
{
    if !is_token(method) {
        return Err(ExplainFault::BadMethod);
    }
    let canonical = match canon(alloc, target) {
        Ok(canonical) => canonical,
        Err(CanonFault::Path(fault)) => return Ok(Explanation::Refused(fault)),
        Err(CanonFault::NoMemory) => return Err(ExplainFault::NoMemory),
    };
    match context_of(contexts, canonical.path.as_str()) {
        Some(context) => explain_within(alloc, context, method, canonical.path.as_str(), user),
        None => Ok(Explanation::Hidden(HiddenCause::NoContext)),
    }
}

/// Explains a request as [`explain_request`] does, for contexts that are not deployed.
///
/// # Errors
/// Those of [`explain_request`].
pub fn explain_parts(
    alloc: Global,
    contexts: &[ContextPolicy],
    method: &str,
    target: &[u8],
    user: Option<&str>,
) -> Result<Explanation, ExplainFault>
    ensures { Gives explain_fault result (spec.explanation contexts.now method.now target.now (option_copied user.entry)) }
{
    explain_request(alloc, contexts, method, target, user)
}

/// Explains a request for a path that this context serves.
fn explain_within<C: HasPolicy>(
    alloc: Global,
    context: &C,
    method: &str,
    path: &str,
    user: Option<&str>,
) -> Result<Explanation, ExplainFault>
    requires { IsTrue (is_at_or_below (C.path_of context.now) path.now) }
    ensures { Gives explain_fault result (spec.explanation_within
        (policy (C.path_of context.now) (C.standing_of context.now) (C.users_of context.now)) method.now path.now (option_copied user.entry)) }
{
    let Some(caller) = caller_as(context.users(), user) else {
        return Err(ExplainFault::NoSuchUser);
    };
    let path = path_within(context.context_path(), path);
    if is_protected(path) {
        return Ok(Explanation::Hidden(HiddenCause::Protected));
    }
    Ok(decided(alloc, context, method, path, caller)?)
}

/// Returns the caller with the name of the user, or no caller if no user is named. Returns none if the realm lacks the
/// user.
fn caller_as<'a>(realm: &'a Realm, user: Option<&str>) -> Option<Option<&'a Caller>>
    ensures { option_map option_copied result ≡ spec.caller_as realm.now (option_copied user.entry) }
{
    match user {
        Some(name) => Some(Some(realm.find(name)?)),
        None => Some(None),
    }
}

/// Returns the decision of the current constraints of the context.
fn decided<C: HasPolicy>(
    alloc: Global,
    context: &C,
    method: &str,
    path: &str,
    caller: Option<&Caller>,
) -> Result<Explanation, NoMemory>
    ensures { GivesAnswer result (spec.decided (policy (C.path_of context.now) (C.standing_of context.now) (C.users_of context.now))
        method.now path.now (option_copied caller.entry)) }
{
    let decided = context.policy().decide(method, path, caller);
    Ok(Explanation::Decided {
        context: Text::copy_of(alloc, context.context_path())?,
        path: Text::copy_of(alloc, path)?,
        decision: OwnedDecision::copy_of(alloc, decided.decision)?,
    })
}

/// Returns whether the text is a token, as every method is (RFC 9110, sections 5.6.2 and 9.1).
fn is_token(text: &str) -> bool
    ensures { result ≡ spec.is_token text.now }
{
    http_header::is_token(text.as_bytes())
}
