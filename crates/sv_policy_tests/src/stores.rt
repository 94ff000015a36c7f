//! The sessions of a context, as the rows write them.

use std::alloc::Global;
use sv_session::Sessions;
use sv_text::{NoMemory, Text};

/// Returns sessions, at most `limit`, after these calls: `open`, `end NUMBER`, `enter NUMBER CALLER` and `save NUMBER
/// TARGET`. All random words are 0, so that an id is its serial number.
pub fn sessions_after(alloc: Global, limit: usize, calls: &str) -> Result<Sessions, NoMemory> {
    let mut sessions = Sessions::new(alloc, limit, 60);
    for call in calls.split(';') {
        make(alloc, &mut sessions, call)?;
    }
    Ok(sessions)
}

fn make(alloc: Global, sessions: &mut Sessions, call: &str) -> Result<(), NoMemory> {
    let mut words = call.split_whitespace();
    let name = words.next().unwrap_or("");
    let number = number(words.next().unwrap_or(""));
    let text = words.next().unwrap_or("");
    match name {
        "open" => {
            let Ok(_) = sessions.open((0, 0), 0) else {
                return Err(NoMemory);
            };
        }
        "end" => {
            sessions.end(number);
        }
        "enter" => {
            sessions.enter_caller(number, text.parse::<u32>().ok());
        }
        "save" => {
            sessions.save(number, Text::copy_of(alloc, text)?);
        }
        _ => {}
    }
    Ok(())
}

/// Returns the number that a text gives, or 0 if it gives none.
pub fn number(text: &str) -> u64 {
    text.parse::<u64>().unwrap_or(0)
}
