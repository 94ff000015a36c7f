//! The sessions after a message is judged and before it is answered.

ghost use Rattle.std.specs.Prelude.{◌≡◌, IfOk, None, Some, bytes_eq, codes};
ghost use Rattle.std.specs.Option.{option_copied};
ghost use Rattle.sv_session.specs.Store.{Store};
ghost use Rattle.sv_text.specs.Gives.{GivesAnswer};
ghost use Rattle.sv_exchange.specs.Asked.{asked_in};
ghost use Rattle.sv_admission.specs.Seen.{seen};
ghost use Rattle.sv_admission.specs.Settled as spec;

use crate::judgment::caller_held;
use std::alloc::Global;
use sv_exchange::{HeldSession, Request};
use sv_login::Outcome;
use sv_message::{Message, Rare};
use sv_realm::{Caller, Realm};
use sv_session::{Event, SessionFault, Sessions};
use sv_text::{NoMemory, Text};
use sv_tree::sent_to;

/// The session of a message, whether the message opened or renamed it, and the event of doing so.
#[derive(Drop)]
pub(crate) struct Settled {
    pub session: Option<u64>,
    pub is_renewed: bool,
    pub event: Option<Event>,
}

impl Settled {
    fn unchanged(session: Option<u64>) -> Settled
        ensures { (store : Store) → seen store result ≡ spec.unchanged session store }
    {
        Settled {
            session,
            is_renewed: false,
            event: None,
        }
    }

    fn renewed(held: Option<u64>, number: u64) -> Settled
        ensures { (store : Store) → seen store result ≡ spec.renewed held number store }
    {
        let event = match held {
            Some(_) => Event::SessionIdChanged(number),
            None => Event::SessionCreated(number),
        };
        Settled {
            session: Some(number),
            is_renewed: true,
            event: Some(event),
        }
    }
}

/// Settles the sessions for a request of this outcome, which holds this session (Jakarta Servlet 6.0, sections 7.1 and
/// 13.6.3). If a GET is sent to the login page, its target is saved.
///
/// # Errors
/// `NoMemory` if an allocation fails.
pub(crate) fn settle(
    alloc: Global,
    context_path: &str,
    request: &Request<'_>,
    held: Option<u64>,
    outcome: &Outcome,
    sessions: &mut Sessions,
) -> Result<Settled, NoMemory>
    ensures { IfOk result (λ settled. seen sessions.new.store settled
        ≡ spec.settled_by context_path.now (asked_in request.now) held outcome.now sessions.old.store) }
{
    match outcome {
        Outcome::LoggedIn { number, .. } => Ok(Settled::renewed(held, *number)),
        Outcome::SentToLogin(_) => interrupt(alloc, context_path, request, held, sessions),
        Outcome::Protected => Ok(Settled::unchanged(held)),
        Outcome::LoginFailed => Ok(Settled::unchanged(held)),
        Outcome::NoSession => Ok(Settled::unchanged(held)),
        Outcome::Entered => Ok(Settled::unchanged(held)),
        Outcome::NoLogin(_) => Ok(Settled::unchanged(held)),
        Outcome::Denied(_) => Ok(Settled::unchanged(held)),
    }
}

// Saves the target of a GET.
fn interrupt(
    alloc: Global,
    context_path: &str,
    request: &Request<'_>,
    held: Option<u64>,
    sessions: &mut Sessions,
) -> Result<Settled, NoMemory>
    ensures { IfOk result (λ settled. seen sessions.new.store settled
        ≡ spec.interrupted context_path.now (asked_in request.now) held sessions.old.store) }
{
    if !is_get(request.message) {
        return Ok(Settled::unchanged(held));
    }
    let target = sent_to(
        alloc,
        context_path,
        request.canon.path.as_str(),
        request.canon,
    )?;
    save_in(request, target, held, sessions)
}

fn is_get(message: &Message) -> bool
    ensures { result ≡ bytes_eq message.now.method (codes "GET") }
{
    message.method.as_str() == "GET"
}

// Saves the target in the held session, or in a new one if none is held and one can be opened.
fn save_in(
    request: &Request<'_>,
    target: Text,
    held: Option<u64>,
    sessions: &mut Sessions,
) -> Result<Settled, NoMemory>
    ensures { IfOk result (λ settled. seen sessions.new.store settled ≡ spec.saved_in (asked_in request.now) target held sessions.old.store) }
{
    match held {
        Some(number) => {
            sessions.save(number, target);
            Ok(Settled::unchanged(Some(number)))
        }
        None => open_with(request, target, sessions),
    }
}

// Opens a session, if one can be opened, and saves the target in it.
fn open_with(
    request: &Request<'_>,
    target: Text,
    sessions: &mut Sessions,
) -> Result<Settled, NoMemory>
    ensures { IfOk result (λ settled. seen sessions.new.store settled ≡ spec.saved_in (asked_in request.now) target None sessions.old.store) }
{
    match sessions.open(request.words, request.moment) {
        Ok(number) => {
            sessions.save(number, target);
            Ok(Settled::renewed(None, number))
        }
        Err(SessionFault::NoMemory) => Err(NoMemory),
        Err(SessionFault::TooMany) => Ok(Settled::unchanged(None)),
        Err(SessionFault::SerialSpent) => Ok(Settled::unchanged(None)),
        Err(SessionFault::NoSuch) => Ok(Settled::unchanged(None)),
        Err(SessionFault::TooLarge) => Ok(Settled::unchanged(None)),
    }
}

/// Returns the session with which a request is answered.
///
/// # Errors
/// `NoMemory` if an allocation fails.
pub(crate) fn session_of(
    alloc: Global,
    users: &Realm,
    settled: &Settled,
    sessions: &Sessions,
) -> Result<Option<HeldSession>, NoMemory>
    ensures { GivesAnswer result (spec.session_of users.now (seen sessions.now.store settled.now)) }
{
    let Some(number) = settled.session else {
        return Ok(None);
    };
    let caller = copied(alloc, caller_held(users, settled.session, sessions))?;
    Ok(Some(HeldSession {
        number,
        is_renewed: settled.is_renewed,
        caller,
    }))
}

fn copied(alloc: Global, caller: Option<&Caller>) -> Result<Rare<Caller>, NoMemory>
    ensures { GivesAnswer result (option_copied caller.entry) }
{
    match caller {
        Some(caller) => Rare::some(alloc, Caller::copy_of(alloc, caller)?),
        None => Ok(Rare::none()),
    }
}
