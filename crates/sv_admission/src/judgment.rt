//! The outcome of a message.

ghost use Rattle.std.specs.Prelude.{◌≡◌, OnOk, OnErr, is_some};
ghost use Rattle.std.specs.Option.{option_copied};
ghost use Rattle.sv_constraints.specs.Verdict.{verdict};
ghost use Rattle.sv_login.specs.Login.{login};
ghost use Rattle.sv_login.specs.Outcome.{login_outcome, verdict_outcome};
ghost use Rattle.sv_text.specs.Gives.{GivesAnswer};
ghost use Rattle.sv_exchange.specs.Asked.{asked_in};
ghost use Rattle.sv_admission.specs.Held.{caller_held};
ghost use Rattle.sv_admission.specs.Judged.{content_type, left_by_login, outcome_of, post_in};

use std::alloc::Global;
use sv_constraints::OwnedDecision;
use sv_descriptor::WebApp;
use sv_exchange::Request;
use sv_login::{Outcome, login_step};
use sv_mapping::is_protected;
use sv_message::Field;
use sv_policy::Policy;
use sv_realm::{Caller, Realm};
use sv_session::Sessions;
use sv_text::NoMemory;

/// Decides the outcome of a request that holds this session, by the current policy. A login that passes changes the
/// sessions.
///
/// # Errors
/// `NoMemory` if an allocation fails.
pub(crate) fn judge(
    alloc: Global,
    app: &WebApp,
    policy: &Policy,
    users: &Realm,
    request: &Request<'_>,
    held: Option<u64>,
    sessions: &mut Sessions,
) -> Result<Outcome, NoMemory>
    ensures outcome { GivesAnswer result (outcome_of app.now policy.now users.now (asked_in request.now) held sessions.old.store) }
    ensures left { OnOk result (sessions.new.store ≡ left_by_login app.now users.now (asked_in request.now) held sessions.old.store) }
{
    if is_protected(request.canon.path.as_str()) {
        return Ok(Outcome::Protected);
    }
    let caller = caller_held(users, held, sessions);
    if app.login.is_none() {
        return decided(alloc, app, policy, request, caller);
    }
    let login = login_outcome(alloc, users, request, held, sessions)?;
    match login {
        Some(outcome) => Ok(outcome),
        None => decided(alloc, app, policy, request, caller),
    }
}

// Returns the user who is logged in to the held session, if any.
pub(crate) fn caller_held<'a>(
    users: &'a Realm,
    held: Option<u64>,
    sessions: &Sessions,
) -> Option<&'a Caller>
    ensures { option_copied result ≡ caller_held users.now held sessions.now.store }
{
    let user = sessions.caller(held?)?;
    users.caller(user)
}

// Returns the outcome of the request's login step, or none if the request is no login.
fn login_outcome(
    alloc: Global,
    users: &Realm,
    request: &Request<'_>,
    held: Option<u64>,
    sessions: &mut Sessions,
) -> Result<Option<Outcome>, NoMemory>
    ensures outcome { let asked = asked_in request.now in
        GivesAnswer result (login_outcome (login users.now (post_in asked) held asked.words asked.moment sessions.old.store).0) }
    ensures left { let asked = asked_in request.now in
        OnOk result (sessions.new.store ≡ (login users.now (post_in asked) held asked.words asked.moment sessions.old.store).1) }
    ensures no_memory { OnErr result (sessions.new.store ≡ sessions.old.store) }
{
    let login = login_step(
        alloc,
        request.canon,
        request.message.method.as_str(),
        content_type(request.message.fields.as_slice()),
        request.message.body.as_slice(),
        request.words,
        request.moment,
        held,
        sessions,
        users,
    )?;
    Ok(Outcome::of_login(login))
}

// Returns the outcome that the constraints decide.
#[inline(always)]
fn decided(
    alloc: Global,
    app: &WebApp,
    policy: &Policy,
    request: &Request<'_>,
    caller: Option<&Caller>,
) -> Result<Outcome, NoMemory>
    ensures { let asked = asked_in request.now in GivesAnswer result (verdict_outcome (is_some app.now.login)
        (verdict policy.now.constraints policy.now.rules asked.message.method asked.canon.path (option_copied caller.entry))) }
{
    let method = request.message.method.as_str();
    let decided = policy.decide(method, request.canon.path.as_str(), caller);
    let decision = OwnedDecision::copy_of(alloc, decided.decision)?;
    Ok(Outcome::of_decision(decision, app.login.is_some()))
}

// Returns the content type of the body, if any.
fn content_type(fields: &[Field]) -> Option<&[u8]>
    ensures { option_copied result ≡ content_type fields.now }
{
    let field = fields.iter().find(|field| field.is_named("content-type"))?;
    Some(field.value.as_bytes())
}
