//! Calls of components that change the session of a request.

ghost use Rattle.std.specs.Prelude.{◌≡◌, ◌++◌, ◌∷◌, ◌<◌, [], map};
ghost use Rattle.sv_text.specs.Gives.{GivesAnswer};
ghost use Rattle.sv_exchange.specs.Sessions.{ending_events};

use crate::events::{ending_events, push};
use crate::exchange::Exchange;
use crate::exchange_fault::ExchangeFault;
use crate::session_queries::cookie_of;
use sv_message::Rare;
use sv_session::Event;
use sv_text::Text;

impl Exchange {
    ghost use Rattle.sv_exchange.specs.Changing.{Reaches, Does, Logout, SessionEnd, SessionOpen, SessionRemove, SessionSet, answer};

    /// Opens a session and reports `SessionCreated`. The response sets its cookie. Nothing changes if the request
    /// already has a session that is alive (Jakarta Servlet 6.0, section 7.2). The call is never ignored. The faults
    /// are `Committed`, `TooManySessions`, `SerialSpent` and `NoMemory`, in that order; nothing changes on a fault.
    pub fn session_open(&mut self) -> Result<bool, ExchangeFault>
        ensures does { Does SessionOpen result self.old self.new }
        ensures reached { Reaches self.old self.new }
    {
        self.do_session_open()
    }

    /// Sets the value of the session attribute with the name, which is case-sensitive, or adds one. Reports
    /// `AttributeReplaced` or `AttributeAdded` (Jakarta Servlet 6.0, section 7.4). The call is never ignored. The
    /// faults are `NoSession`, `TooLarge` if a limit of sv_session would be exceeded, and `NoMemory`, in that order;
    /// nothing changes on a fault.
    pub fn session_set(&mut self, name: &str, value: &str) -> Result<bool, ExchangeFault>
        ensures does { Does (SessionSet name.now value.now) result self.old self.new }
        ensures reached { Reaches self.old self.new }
    {
        self.do_session_set(name, value)
    }

    /// Removes the session attribute with the name, which is case-sensitive, and reports `AttributeRemoved`. Nothing
    /// changes if there is none (Jakarta Servlet 6.0, section 7.4). The call is never ignored. The faults are
    /// `NoSession`, then `NoMemory`; nothing changes on a fault.
    pub fn session_remove(&mut self, name: &str) -> Result<bool, ExchangeFault>
        ensures does { Does (SessionRemove name.now) result self.old self.new }
        ensures reached { Reaches self.old self.new }
    {
        self.do_session_remove(name)
    }

    /// Ends the session and removes the caller. Unless the response is committed, also drops the session cookie.
    /// Reports `SessionDestroyed`, then `AttributeRemoved` for each attribute, in the order of their first setting
    /// (Jakarta Servlet 6.0, sections 7.5 and 11.3). The call is never ignored. The faults are `NoSession`, then
    /// `NoMemory`; nothing changes on a fault.
    pub fn session_end(&mut self) -> Result<bool, ExchangeFault>
        ensures does { Does SessionEnd result self.old self.new }
        ensures reached { Reaches self.old self.new }
    {
        self.do_session_end()
    }

    /// Removes the caller from the request and from its session, which stays open. Nothing changes if there is no
    /// caller (Jakarta Servlet 6.0, section 13.3). The call is never ignored and never fails.
    pub fn logout(&mut self) -> Result<bool, ExchangeFault>
        ensures does { Does Logout result self.old self.new }
        ensures answered { result ≡ answer Logout self.old }
        ensures reached { Reaches self.old self.new }
    {
        self.do_logout()
    }

    fn do_session_open(&mut self) -> Result<bool, ExchangeFault>
        ensures { Does SessionOpen result self.old self.new }
    {
        if self.has_session() {
            return Ok(true);
        }
        if self.committed {
            return Err(ExchangeFault::Committed);
        }
        let id = self.sessions.next_id(self.words)?;
        let path = self.context_path.as_str();
        let cookie = cookie_of(self.alloc, &self.cookie_settings, path, id)?;
        let cookie = Rare::some(self.alloc, cookie)?;
        self.events.reserve(1)?;
        let number = self.sessions.open(self.words, self.moment)?;
        self.session = Some(number);
        self.cookie = cookie;
        push(&mut self.events, Event::SessionCreated(number));
        Ok(true)
    }

    fn do_session_set(&mut self, name: &str, value: &str) -> Result<bool, ExchangeFault>
        ensures { Does (SessionSet name.now value.now) result self.old self.new }
    {
        let Some(number) = self.session() else {
            return Err(ExchangeFault::NoSession);
        };
        if let Some(fault) = self.sessions.setting_fault(number, name, value) {
            return Err(ExchangeFault::from(fault));
        }
        let told = Text::copy_of(self.alloc, name)?;
        self.events.reserve(1)?;
        let event = match self.sessions.set(number, name, value)? {
            Some(_) => Event::AttributeReplaced(number, told),
            None => Event::AttributeAdded(number, told),
        };
        push(&mut self.events, event);
        Ok(true)
    }

    fn do_session_remove(&mut self, name: &str) -> Result<bool, ExchangeFault>
        ensures { Does (SessionRemove name.now) result self.old self.new }
    {
        let Some(number) = self.session() else {
            return Err(ExchangeFault::NoSession);
        };
        if self.sessions.get(number, name).is_none() {
            return Ok(true);
        }
        let told = Text::copy_of(self.alloc, name)?;
        self.events
            .push_back(Event::AttributeRemoved(number, told))?;
        let _removed = self.sessions.remove(number, name);
        Ok(true)
    }

    fn do_session_end(&mut self) -> Result<bool, ExchangeFault>
        ensures { Does SessionEnd result self.old self.new }
    {
        let Some(number) = self.session() else {
            return Err(ExchangeFault::NoSession);
        };
        let mut events = ending_events(self.alloc, number, self.sessions.attributes(number))?;
        self.events.append(&mut events)?;
        let _ended = self.sessions.end(number);
        self.session = None;
        self.caller = Rare::none();
        if !self.committed {
            self.cookie = Rare::none();
        }
        Ok(true)
    }

    fn do_logout(&mut self) -> Result<bool, ExchangeFault>
        ensures does { Does Logout result self.old self.new }
        ensures answered { result ≡ answer Logout self.old }
    {
        if self.caller.get().is_none() {
            return Ok(true);
        }
        if let Some(number) = self.session() {
            let _was_there = self.sessions.enter_caller(number, None);
        }
        self.caller = Rare::none();
        Ok(true)
    }
}
