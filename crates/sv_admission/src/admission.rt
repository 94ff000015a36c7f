//! The admission of a message to its context, before any component is called.

ghost use Rattle.std.specs.Prelude.{OnOk, ◌≡◌};
ghost use Rattle.sv_admission.specs.Admission as spec;
ghost use Rattle.sv_exchange.specs.Asked.{asked_in};
ghost use Rattle.sv_admission.specs.Held.{accessed, session_held};
ghost use Rattle.sv_text.specs.Gives.{GivesAnswer};

use crate::answer::{Answer, concluded};
use crate::judgment::judge;
use crate::sessions::{session_of, settle};
use std::alloc::Global;
use sv_exchange::{HeldSession, Request};
use sv_journal::Entry;
use sv_login::held;
use sv_policy::Policy;
use sv_realm::Realm;
use sv_session::{Event, Sessions};
use sv_text::NoMemory;
use sv_tree::Site;

/// The admission of a message to its context, before any component is called.
#[derive(Drop)]
pub struct Admission {
    /// The journal entry of the message.
    pub entry: Entry,
    /// The answer to the message.
    pub answer: Answer,
    /// The session with which the message is answered.
    pub session: Option<HeldSession>,
    /// The event that listeners receive before any other, if the message opened or renamed the session.
    pub event: Option<Event>,
}

/// Judges a request in its context. The session that its cookies name is accessed. Hidden folders are checked first,
/// then logins, then the current constraints of the policy (Jakarta Servlet 6.0, sections 7.6, 10.5, 13.6.3 and 13.8).
/// If a GET is sent to the login page, its target is saved.
///
/// # Errors
/// `NoMemory` if an allocation fails; the sessions may already have changed.
pub fn admit(
    alloc: Global,
    site: &Site,
    policy: &Policy,
    users: &Realm,
    request: &Request<'_>,
    sessions: &mut Sessions,
) -> Result<Admission, NoMemory>
    ensures admission { GivesAnswer result (spec.admission site.now policy.now users.now (asked_in request.now) sessions.old.store) }
    ensures sessions { OnOk result (sessions.new.store ≡ (spec.settled_in site.now policy.now users.now (asked_in request.now) sessions.old.store).store) }
{
    let held = access(site, request, sessions);
    let app = site.descriptor().web_app();
    let outcome = judge(alloc, app, policy, users, request, held, sessions)?;
    let settled = settle(
        alloc,
        site.context_path(),
        request,
        held,
        &outcome,
        sessions,
    )?;
    let session = session_of(alloc, users, &settled, sessions)?;
    let (entry, answer) = concluded(alloc, site, request.canon.path.as_str(), outcome)?;
    Ok(Admission {
        entry,
        answer,
        session,
        event: settled.event,
    })
}

// Returns the session that the request's cookies name, if any, and accesses it.
fn access(site: &Site, request: &Request<'_>, sessions: &mut Sessions) -> Option<u64>
    ensures held { result ≡ session_held site.now.app (asked_in request.now) sessions.old.store }
    ensures accessed { sessions.new.store ≡ accessed result request.now.moment sessions.old.store }
{
    let name = site.descriptor().web_app().session.cookie.name.as_str();
    let held = held(request.message.fields.as_slice(), name, sessions);
    if let Some(number) = held {
        sessions.touch(number, request.moment);
    }
    held
}
