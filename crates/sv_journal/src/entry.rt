//! The entries of the journal, and their texts.

ghost use Rattle.std.specs.Prelude.{◌≡◌, ◌+◌, ◌<◌, ◌^◌, Some};
ghost use Rattle.sv_text.specs.Gives.{GivesAnswer};
ghost use Rattle.sv_journal.specs.Entry.{called_filter, called_servlet, entry_text, heard};

use crate::answer::Answer;
use crate::calls::{CallName, Component};
use crate::refusal_cause::RefusalCause;
use std::alloc::Global;
use std::fmt;
use sv_constraints::OwnedWhy;
use sv_session::Event;
use sv_text::{NoMemory, Text};
use sv_uri::shown_context;

/// An entry of the journal. The first text of most is the context path, empty for the root context. Printed as one line
/// without a line end.
#[derive(Debug, Drop)]
pub enum Entry {
    /// A message entered its context: the context path, and the path in the context.
    Entered(Text, Text),
    /// A message was sent to the login page: the context path, and why.
    SentToLogin(Text, OwnedWhy),
    /// The container itself answered a message.
    Refused(RefusalCause),
    /// The container answered a message as if nothing were at its path.
    Hidden(RefusalCause),
    /// A listener was notified of an event: the context path, the number of the listener from 1, and the event.
    Told(Text, usize, Event),
    /// A component was called: the context path, the component, the call, and its answer; `None` for `after` and
    /// `destroy`.
    Called(Text, Component, CallName, Option<Answer>),
}

impl Entry {
    ghost use Rattle.std.specs.Prelude.{Option};
    ghost use Rattle.sv_journal.specs.declared.answer.Answer.{Answer as AnswerData};

    /// Returns the entry of an event for the listener at `place`, counted from 0.
    pub fn told(
        alloc: Global,
        context: &str,
        place: usize,
        event: &Event,
    ) -> Result<Entry, NoMemory>
        requires { place + 1 < 2 ^ 64 }
        ensures { GivesAnswer result (heard context.now place event.now) }
    {
        Ok(Entry::Told(
            Text::copy_of(alloc, context)?,
            place + 1,
            Event::copy_of(alloc, event)?,
        ))
    }

    /// Returns the entry of a call of a servlet. Fails if the answer ran out of memory.
    #[inline(always)]
    pub fn of_servlet(
        alloc: Global,
        context: &str,
        name: &str,
        call: CallName,
        answer: Result<Option<Answer>, NoMemory>,
    ) -> Result<Entry, NoMemory>
        ensures { (known : Option AnswerData) → GivesAnswer answer known → GivesAnswer result (called_servlet context.now name.now call known) }
    {
        Ok(Entry::Called(
            Text::copy_of(alloc, context)?,
            Component::Servlet(Text::copy_of(alloc, name)?),
            call,
            answer?,
        ))
    }

    /// Returns the entry of a call of a filter. Fails if the answer ran out of memory.
    pub fn of_filter(
        alloc: Global,
        context: &str,
        name: &str,
        call: CallName,
        answer: Result<Option<Answer>, NoMemory>,
    ) -> Result<Entry, NoMemory>
        ensures { (known : Option AnswerData) → GivesAnswer answer known → GivesAnswer result (called_filter context.now name.now call known) }
    {
        Ok(Entry::Called(
            Text::copy_of(alloc, context)?,
            Component::Filter(Text::copy_of(alloc, name)?),
            call,
            answer?,
        ))
    }
}

impl fmt::Display for Entry {
    ghost output = { λ entry. Some (entry_text entry) };

    fn fmt<W: fmt::Write>(&self, f: &mut fmt::Formatter<W>) -> fmt::Result {
        match self {
            Entry::Entered(context, path) => {
                let context = shown_context(context.as_str());
                write!(f, "entered {context} {path}")
            }
            Entry::SentToLogin(context, why) => {
                let context = shown_context(context.as_str());
                write!(f, "login {context} {why}")
            }
            Entry::Refused(cause) => write!(f, "refused {cause}"),
            Entry::Hidden(cause) => write!(f, "hidden {cause}"),
            Entry::Told(context, listener, event) => {
                let context = shown_context(context.as_str());
                write!(f, "told {context} {listener} {event}")
            }
            Entry::Called(context, component, call, Some(answer)) => {
                let context = shown_context(context.as_str());
                write!(f, "called {context} {component} {call} {answer}")
            }
            Entry::Called(context, component, call, None) => {
                let context = shown_context(context.as_str());
                write!(f, "called {context} {component} {call}")
            }
        }
    }
}
