//! Queries on the session and the caller of a request.

ghost use Rattle.std.specs.List.{list_any};
ghost use Rattle.std.specs.Option.{option_and_then, option_copied, option_map};
ghost use Rattle.std.specs.Prelude.{bytes_eq, ◌≡◌};
ghost use Rattle.sv_exchange.specs.Beginning.{renewed_cookie};
ghost use Rattle.sv_exchange.specs.Sessions.{context_cookie_path, cookie_of, cookie_path, is_in_role};
ghost use Rattle.sv_text.specs.Gives.{GivesAnswer};

use crate::exchange::Exchange;
use std::alloc::Global;
use sv_message::{Cookie, CookieSettings, Rare};
use sv_realm::Caller;
use sv_session::{Attribute, Sessions};
use sv_text::{NoMemory, Text};
use sv_uri::location;

impl Exchange {
    ghost use Rattle.sv_exchange.specs.Sessions.{has_session, session_attributes_of, session_id_of, session_of, session_value};

    /// Returns the number of the request's session, if it is alive (Jakarta Servlet 6.0, section 7.1).
    pub fn session(&self) -> Option<u64>
        ensures { result ≡ session_of self.now }
    {
        let number = self.session?;
        let _id = self.sessions.id(number)?;
        Some(number)
    }

    /// Returns the id of the request's session, as in its cookie, if it is alive (Jakarta Servlet 6.0, section 7.1).
    pub fn session_id(&self) -> Option<&str>
        ensures { option_copied result ≡ session_id_of self.now }
    {
        let number = self.session?;
        self.sessions.id(number)
    }

    /// Returns the name of the context's session cookie, which is case-sensitive (Jakarta Servlet 6.0, section 7.1.1).
    pub fn session_cookie_name(&self) -> &str
        ensures { result.now ≡ self.now.cookie_settings.name }
    {
        self.cookie_settings.name.as_str()
    }

    /// Returns the value of the attribute of the request's session with the name, which is case-sensitive. Returns
    /// `None` if there is no such attribute, or no session (Jakarta Servlet 6.0, section 7.4).
    pub fn session_get(&self, name: &str) -> Option<&str>
        ensures { option_copied result ≡ session_value name.now self.now }
    {
        let number = self.session()?;
        self.sessions.get(number, name)
    }

    /// Returns the attributes of the request's session, as names with values, in the order of their first setting.
    /// There are none without a session (Jakarta Servlet 6.0, section 7.4).
    pub fn session_attributes(&self) -> &[Attribute]
        ensures { result.now ≡ session_attributes_of self.now }
    {
        match self.session() {
            Some(number) => self.sessions.attributes(number),
            None => &[],
        }
    }

    /// Returns the authenticated caller, until `logout` or the end of the session (Jakarta Servlet 6.0, section 13.3).
    pub fn caller(&self) -> Option<&Caller>
        ensures { option_copied result ≡ self.now.caller }
    {
        self.caller.get()
    }

    /// Returns whether the caller has the role, which is case-sensitive (Jakarta Servlet 6.0, section 13.3). Every
    /// authenticated caller has the role `**`, and none has `*`.
    pub fn is_user_in_role(&self, role: &str) -> bool
        ensures { result ≡ is_in_role role.now self.now.caller }
    {
        match self.caller.get() {
            Some(caller) => role == "**"
                || (role != "*" && names_role(caller.roles.as_slice(), role)),
            None => false,
        }
    }

    // Returns whether the request's session is alive.
    pub(crate) fn has_session(&self) -> bool
        ensures { result ≡ has_session self.now }
    {
        self.session().is_some()
    }
}

fn names_role(roles: &[Text], role: &str) -> bool
    ensures { result ≡ list_any (λ own. bytes_eq own role.now) roles.now }
{
    roles.iter().any(|own| own.as_str() == role)
}

/// Returns the number and the caller of the session that a request holds.
pub(crate) fn parts_of(held: Option<HeldSession>) -> (Option<u64>, Rare<Caller>)
    ensures number { result.0 ≡ option_map (λ session. session.number) held }
    ensures caller { result.1 ≡ option_and_then (λ session. session.caller) held }
{
    match held {
        Some(held) => (Some(held.number), held.caller),
        None => (None, Rare::none()),
    }
}

/// Returns the cookie of the session that a request holds, if the request's own message opened or renamed it.
pub(crate) fn held_cookie(
    alloc: Global,
    settings: &CookieSettings,
    context_path: &str,
    sessions: &Sessions,
    held: &Option<HeldSession>,
) -> Result<Rare<Cookie>, NoMemory>
    ensures { GivesAnswer result (option_and_then (renewed_cookie settings.now context_path.now sessions.now.store) held.now) }
{
    match held {
        Some(held) => renewed_cookie(alloc, settings, context_path, sessions, held),
        None => Ok(Rare::none()),
    }
}

fn renewed_cookie(
    alloc: Global,
    settings: &CookieSettings,
    context_path: &str,
    sessions: &Sessions,
    held: &HeldSession,
) -> Result<Rare<Cookie>, NoMemory>
    ensures { GivesAnswer result (renewed_cookie settings.now context_path.now sessions.now.store held.now) }
{
    if !held.is_renewed {
        return Ok(Rare::none());
    }
    match sessions.id(held.number) {
        Some(id) => {
            let id = Text::copy_of(alloc, id)?;
            let cookie = cookie_of(alloc, settings, context_path, id)?;
            Rare::some(alloc, cookie)
        }
        None => Ok(Rare::none()),
    }
}

/// Returns the cookie of the session with the id.
pub(crate) fn cookie_of(
    alloc: Global,
    settings: &CookieSettings,
    context_path: &str,
    id: Text,
) -> Result<Cookie, NoMemory>
    ensures { GivesAnswer result (cookie_of settings.now context_path.now id) }
{
    Ok(Cookie {
        name: Text::copy_of(alloc, settings.name.as_str())?,
        id,
        path: cookie_path(alloc, &settings.path, context_path)?,
        http_only: settings.http_only,
        max_age: settings.max_age,
    })
}

// Returns the path under which the client sends the cookie back.
fn cookie_path(alloc: Global, path: &Option<Text>, context_path: &str) -> Result<Text, NoMemory>
    ensures { GivesAnswer result (cookie_path path.now context_path.now) }
{
    match path {
        Some(path) => Text::copy_of(alloc, path.as_str()),
        None => context_cookie_path(alloc, context_path),
    }
}

// Returns the path of a context, as it is written in a cookie.
fn context_cookie_path(alloc: Global, context_path: &str) -> Result<Text, NoMemory>
    ensures { GivesAnswer result (context_cookie_path context_path.now) }
{
    if context_path.is_empty() {
        Text::copy_of(alloc, "/")
    } else {
        Ok(Text::from_string(location(alloc, context_path)?))
    }
}

/// The session that a request holds when its exchange begins (Jakarta Servlet 6.0, section 7.1).
#[derive(Drop)]
pub struct HeldSession {
    pub number: u64,
    /// Whether the request's own message opened or renamed the session, so that the response sets its cookie.
    pub is_renewed: bool,
    /// The caller that the session holds.
    pub caller: Rare<Caller>,
}
