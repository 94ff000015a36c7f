//! Entries, as the rows of tables write them.

use std::alloc::Global;
use sv_constraints::{Cause, OwnedWhy};
use sv_journal::{Answer, CallName, Entry, RefusalCause};
use sv_rows::cell;
use sv_session::Event;
use sv_text::{NoMemory, Text};
use sv_uri::fault::PathFault;
use sv_wire::WireFault;

/// Returns the entry of a row: what happened, the context path, and the content of the entry.
pub fn entry(alloc: Global, row: &str) -> Result<Entry, NoMemory> {
    let (context, what) = (cell(row, 1), cell(row, 2));
    match cell(row, 0) {
        "entered" => entered(alloc, context, what),
        "login" => sent_to_login(alloc, row),
        "refused" => Ok(Entry::Refused(cause(alloc, what)?)),
        "hidden" => Ok(Entry::Hidden(cause(alloc, what)?)),
        "told" => {
            let event = event(alloc, what, cell(row, 3).parse::<u64>().unwrap_or(0))?;
            Entry::told(alloc, context, 0, &event)
        }
        call => called(alloc, context, call, answer(alloc, what, cell(row, 3))),
    }
}

fn entered(alloc: Global, context: &str, path: &str) -> Result<Entry, NoMemory> {
    Ok(Entry::Entered(Text::copy_of(alloc, context)?, Text::copy_of(alloc, path)?))
}

fn sent_to_login(alloc: Global, row: &str) -> Result<Entry, NoMemory> {
    let why = OwnedWhy {
        pattern: match cell(row, 2) {
            "-" => None,
            pattern => Some(Text::copy_of(alloc, pattern)?),
        },
        number: cell(row, 3).parse::<u64>().ok(),
        cause: Cause::NeedsCaller,
    };
    Ok(Entry::SentToLogin(Text::copy_of(alloc, cell(row, 1))?, why))
}

fn called(
    alloc: Global,
    context: &str,
    call: &str,
    answer: Result<Option<Answer>, NoMemory>,
) -> Result<Entry, NoMemory> {
    match call {
        "servlet init" => Entry::of_servlet(alloc, context, "who", CallName::Init, answer),
        "service" => Entry::of_servlet(alloc, context, "who", CallName::Service(0), answer),
        "servlet destroy" => Entry::of_servlet(alloc, context, "who", CallName::Destroy, answer),
        "filter init" => Entry::of_filter(alloc, context, "f1", CallName::Init, answer),
        "before" => Entry::of_filter(alloc, context, "f1", CallName::Before, answer),
        "after" => Entry::of_filter(alloc, context, "f1", CallName::After, answer),
        _ => Entry::of_filter(alloc, context, "f1", CallName::Destroy, answer),
    }
}

fn answer(alloc: Global, name: &str, carried: &str) -> Result<Option<Answer>, NoMemory> {
    match name {
        "Forward" => Ok(Some(Answer::Forward(Text::copy_of(alloc, carried)?))),
        "Include" => Ok(Some(Answer::Include(Text::copy_of(alloc, carried)?))),
        "Failed" => Ok(Some(Answer::Failed(Some(Text::copy_of(alloc, carried)?)))),
        "Error" => Ok(Some(Answer::Error(carried.parse::<u16>().unwrap_or(0)))),
        other => Ok(plain_answer(other)),
    }
}

fn plain_answer(name: &str) -> Option<Answer> {
    match name {
        "Ready" => Some(Answer::Ready),
        "Pass" => Some(Answer::Pass),
        "Stop" => Some(Answer::Stop),
        "Done" => Some(Answer::Done),
        "InitFailed" => Some(Answer::Failed(None)),
        "Unavailable" => Some(Answer::Unavailable),
        "NoMemory" => Some(Answer::NoMemory),
        _ => None,
    }
}

fn event(alloc: Global, name: &str, number: u64) -> Result<Event, NoMemory> {
    match name {
        "AttributeAdded" => Ok(Event::AttributeAdded(number, Text::copy_of(alloc, "n")?)),
        "AttributeReplaced" => Ok(Event::AttributeReplaced(number, Text::copy_of(alloc, "n")?)),
        "AttributeRemoved" => Ok(Event::AttributeRemoved(number, Text::copy_of(alloc, "n")?)),
        other => Ok(plain_event(other, number)),
    }
}

fn plain_event(name: &str, number: u64) -> Event {
    match name {
        "ContextInitialized" => Event::ContextInitialized,
        "ContextDestroyed" => Event::ContextDestroyed,
        "RequestInitialized" => Event::RequestInitialized,
        "RequestDestroyed" => Event::RequestDestroyed,
        "SessionCreated" => Event::SessionCreated(number),
        "SessionDestroyed" => Event::SessionDestroyed(number),
        _ => Event::SessionIdChanged(number),
    }
}

/// Returns the cause of this name.
pub fn cause(alloc: Global, name: &str) -> Result<RefusalCause, NoMemory> {
    match name {
        "Denied" => Ok(RefusalCause::Denied(why(alloc)?)),
        "NoLogin" => Ok(RefusalCause::NoLogin(why(alloc)?)),
        other => Ok(plain_cause(other)),
    }
}

fn why(alloc: Global) -> Result<OwnedWhy, NoMemory> {
    Ok(OwnedWhy {
        pattern: Some(Text::copy_of(alloc, "/a/*")?),
        number: Some(2),
        cause: Cause::NeedsCaller,
    })
}

fn plain_cause(name: &str) -> RefusalCause {
    match name {
        "BadHead" => RefusalCause::Wire(WireFault::BadHead),
        "BadTarget" => RefusalCause::Wire(WireFault::BadTarget),
        "Fragment" => RefusalCause::Path(PathFault::Fragment),
        "Climbs" => RefusalCause::Path(PathFault::Climbs),
        "Star" => RefusalCause::Star,
        "NoContext" => RefusalCause::NoContext,
        "Protected" => RefusalCause::Protected,
        "LoggedIn" => RefusalCause::LoggedIn,
        "LoginFailed" => RefusalCause::LoginFailed,
        _ => RefusalCause::NoSession,
    }
}
