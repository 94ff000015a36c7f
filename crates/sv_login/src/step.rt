//! The login step.

ghost use Rattle.std.specs.List.{ends_with};
ghost use Rattle.std.specs.Option.{option_copied};
ghost use Rattle.std.specs.Prelude.{OnErr, OnOk, Some, codes, cond, ◌&&◌, ◌==◌, ◌≡◌};
ghost use Rattle.std.specs.Str.{bytes_eq};
ghost use Rattle.sv_login.specs.Login.{has_no_session, login};
ghost use Rattle.sv_login.specs.Post.{post_of};
ghost use Rattle.sv_login.specs.Session.{logged_in, saved_target, session_number};
ghost use Rattle.sv_login.specs.declared.step.LoginOutcome.TheVariants as outcomes;
ghost use Rattle.sv_text.specs.Gives.{GivesAnswer};

use crate::credentials::Credentials;
use crate::login_session::renewed;
use std::alloc::Global;
use sv_realm::Realm;
use sv_session::{SessionFault, Sessions};
use sv_text::{NoMemory, Text};
use sv_uri::path::Canon;

/// Performs the login step of a request (Jakarta Servlet 6.0, section 13.6.3). `canon` has its path within the context.
/// The caller must check that the context has form login.
///
/// A login post is a `POST` whose path ends in `/j_security_check`. Its credentials are the first `j_username` and the
/// first `j_password` of a form body. If either is missing, the outcome is `WrongUser`; an empty one is checked like any
/// other. The credentials are checked before the session is looked up. If the session with the number `held` is live,
/// it gets a new id from the two random words. Otherwise a session is opened at the time `now`, in seconds. The session
/// then holds the caller, and its saved target is removed.
///
/// # Errors
/// [`NoMemory`] if memory runs out. The sessions are unchanged.
pub fn login_step(
    alloc: Global,
    canon: &Canon,
    method: &str,
    content_type: Option<&[u8]>,
    body: &[u8],
    words: (u64, u64),
    now: u64,
    held: Option<u64>,
    sessions: &mut Sessions,
    realm: &Realm,
) -> Result<LoginOutcome, NoMemory>
    ensures outcome { let post = post_of method.now canon.now.path (option_copied content_type.entry) body.now in
        GivesAnswer result (login realm.now post held words now sessions.old.store).0 }
    ensures left { let post = post_of method.now canon.now.path (option_copied content_type.entry) body.now in
        OnOk result (sessions.new ≡ record sessions.old { store = (login realm.now post held words now sessions.old.store).1 }) }
    ensures no_memory { OnErr result (sessions.new ≡ sessions.old) }
{
    if !is_login(method, canon.path.as_bytes()) {
        return Ok(LoginOutcome::NotLogin);
    }
    let credentials = Credentials::of_body(alloc, method, content_type, body)?;
    let Some(user) = credentials.user(realm) else {
        return Ok(LoginOutcome::WrongUser);
    };
    enter(sessions, held, user, words, now)
}

fn is_login(method: &str, path: &[u8]) -> bool
    ensures { result ≡ (bytes_eq method.now (codes "POST") && ends_with (λ a b. a == b) path.now (codes "/j_security_check")) }
{
    method == "POST" && path.ends_with(b"/j_security_check")
}

/// Logs in a user of the realm.
fn enter(
    sessions: &mut Sessions,
    held: Option<u64>,
    user: u32,
    words: (u64, u64),
    now: u64,
) -> Result<LoginOutcome, NoMemory>
    ensures outcome { GivesAnswer result (cond (has_no_session held sessions.old.store) outcomes.NoSession
        (outcomes.Passed (session_number held sessions.old.store) (saved_target held words now sessions.old.store))) }
    ensures left { OnOk result (sessions.new ≡ record sessions.old {
      store = cond (has_no_session held sessions.old.store) sessions.old.store (logged_in (Some user) held words now sessions.old.store);
    }) }
    ensures no_memory { OnErr result (sessions.new ≡ sessions.old) }
{
    match renewed(sessions, held, words, now) {
        Ok(number) => {
            let target = sessions.take_saved(number);
            sessions.enter_caller(number, Some(user));
            Ok(LoginOutcome::Passed { number, target })
        }
        Err(SessionFault::NoMemory) => Err(NoMemory),
        Err(_) => Ok(LoginOutcome::NoSession),
    }
}

/// The outcome of a login step (Jakarta Servlet 6.0, section 13.6.3). All but `Passed` leave the sessions unchanged.
#[derive(Drop)]
pub enum LoginOutcome {
    /// The request is not a login post, and is handled like any other.
    NotLogin,
    /// A name or a password is missing, no user has the name, or the password does not fit the user.
    WrongUser,
    /// The name and the password fit, but the live session cannot get a new id, or there is none and none can be
    /// opened.
    NoSession,
    /// The login passed.
    Passed {
        /// The number of the session that holds the caller.
        number: u64,
        /// The target saved in the session, if any, to which the client is sent. It was removed from the session.
        target: Option<Text>,
    },
}
