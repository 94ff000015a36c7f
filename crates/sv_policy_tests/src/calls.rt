//! Calls on the sessions of a context, as the rows write them.

use std::alloc::Global;
use sv_rows::unescaped;
use sv_session::{EndedSession, SessionFault, Sessions};
use sv_text::{NoMemory, Text};

/// Returns the word of a call at this place, counted from 0.
fn word(call: &str, place: usize) -> &str {
    call.split_whitespace().nth(place).unwrap_or("")
}

/// Returns the number at this place of a call, or 0 if there is none.
fn number(call: &str, place: usize) -> u64 {
    word(call, place).parse::<u64>().unwrap_or(0)
}

/// Returns the text at this place of a call, with its escapes read. `""` is the empty text.
fn text(alloc: Global, call: &str, place: usize) -> Result<Text, NoMemory> {
    let word = word(call, place);
    let bytes = unescaped(alloc, if word == "\"\"" { "" } else { word })?;
    Text::copy_of(alloc, str::from_utf8(bytes.as_slice()).unwrap_or(""))
}

/// Makes the call that the first word names, and returns its answer.
pub fn answer(alloc: Global, sessions: &mut Sessions, call: &str) -> Result<String, NoMemory> {
    match word(call, 0) {
        "crowd" => crowded(alloc, sessions, call),
        "fill" => filled(alloc, sessions, call),
        "set" => set(alloc, sessions, call),
        "save" => saved(alloc, sessions, call),
        "get" | "remove" | "find" => named(alloc, sessions, call),
        "open" | "rename" | "id" | "least" | "judged" => identity(alloc, sessions, call),
        "touch" | "expire" | "end" => ending(alloc, sessions, call),
        "count" => counted(alloc, sessions, call),
        "ends" => all_ended(alloc, sessions),
        _ => login(alloc, sessions, call),
    }
}

/// The calls `open TIME [WORD WORD]`, `rename NUMBER [WORD WORD]`, `id NUMBER`, `least` and `judged`. The words are
/// random words.
fn identity(alloc: Global, sessions: &mut Sessions, call: &str) -> Result<String, NoMemory> {
    let words = (number(call, 2), number(call, 3));
    match word(call, 0) {
        "open" => told_number(alloc, sessions.open(words, number(call, 1))),
        "rename" => match sessions.rename(number(call, 1), words) {
            Ok(()) => Ok(String::from_str(alloc, "ok")?),
            Err(fault) => told_fault(alloc, fault),
        },
        "id" => told_text(alloc, sessions.id(number(call, 1))),
        "judged" => told_some(alloc, Some(sessions.judged())),
        _ => told_some(alloc, sessions.least()),
    }
}

/// The calls `touch NUMBER TIME`, `expire TIME` and `end NUMBER`.
fn ending(alloc: Global, sessions: &mut Sessions, call: &str) -> Result<String, NoMemory> {
    match word(call, 0) {
        "touch" => told_flag(alloc, sessions.touch(number(call, 1), number(call, 2))),
        "expire" => told_ended(alloc, sessions.expire(number(call, 1))),
        _ => told_ended(alloc, sessions.end(number(call, 1))),
    }
}

/// The call `ends`: each session that ends when all end, and the `-` after them.
fn all_ended(alloc: Global, sessions: &mut Sessions) -> Result<String, NoMemory> {
    let count = sessions.count();
    let mut ended = sessions.end_all();
    let mut told = String::new(alloc);
    for _ in 0..count {
        told.push_str(told_ended(alloc, ended.next())?.as_str())?;
        told.push_str(", ")?;
    }
    told.push_str(told_ended(alloc, ended.next())?.as_str())?;
    Ok(told)
}

/// The call `count TIME JUDGED`: an expiry after this number of records was judged. The new number comes last in the
/// answer.
fn counted(alloc: Global, sessions: &mut Sessions, call: &str) -> Result<String, NoMemory> {
    let counted = sessions.expire_counted(number(call, 1), number(call, 2));
    let mut told = told_ended(alloc, counted.ended)?;
    told.push_str(format!(in alloc; " {}", counted.judged)?.as_str())?;
    Ok(told)
}

/// The calls `get NUMBER NAME`, `remove NUMBER NAME` and `find ID`.
fn named(alloc: Global, sessions: &mut Sessions, call: &str) -> Result<String, NoMemory> {
    let key = text(alloc, call, if word(call, 0) == "find" { 1 } else { 2 })?;
    match word(call, 0) {
        "get" => told_text(alloc, sessions.get(number(call, 1), key.as_str())),
        "remove" => told_value(alloc, sessions.remove(number(call, 1), key.as_str())),
        _ => told_some(alloc, sessions.find(key.as_bytes())),
    }
}

/// The call `save NUMBER TARGET`.
fn saved(alloc: Global, sessions: &mut Sessions, call: &str) -> Result<String, NoMemory> {
    let target = text(alloc, call, 2)?;
    told_flag(alloc, sessions.save(number(call, 1), target))
}

/// The calls `enter NUMBER CALLER` (`none` for no caller), `caller NUMBER` and `take NUMBER`.
fn login(alloc: Global, sessions: &mut Sessions, call: &str) -> Result<String, NoMemory> {
    match word(call, 0) {
        "enter" => {
            let caller = word(call, 2).parse::<u32>().ok();
            told_flag(alloc, sessions.enter_caller(number(call, 1), caller))
        }
        "caller" => told_some(alloc, sessions.caller(number(call, 1)).map(u64::from)),
        _ => told_value(alloc, sessions.take_saved(number(call, 1))),
    }
}

/// The call `set NUMBER NAME VALUE`.
fn set(alloc: Global, sessions: &mut Sessions, call: &str) -> Result<String, NoMemory> {
    let (name, value) = (text(alloc, call, 2)?, text(alloc, call, 3)?);
    told_set(
        alloc,
        sessions.set(number(call, 1), name.as_str(), value.as_str()),
    )
}

/// The call `fill NUMBER COUNT`: sets this number of attributes, named `a0`, `a1` and so on, to the value `v`. Returns
/// the last answer.
fn filled(alloc: Global, sessions: &mut Sessions, call: &str) -> Result<String, NoMemory> {
    let mut last = String::new(alloc);
    for place in 0..number(call, 2) {
        let name = format!(in alloc; "a{place}")?;
        last = told_set(alloc, sessions.set(number(call, 1), name.as_str(), "v"))?;
    }
    Ok(last)
}

/// The call `crowd COUNT TIME`: opens this number of sessions. Returns the last answer.
fn crowded(alloc: Global, sessions: &mut Sessions, call: &str) -> Result<String, NoMemory> {
    let mut last = Err(SessionFault::NoSuch);
    for _ in 0..number(call, 1) {
        last = sessions.open((0, 0), number(call, 2));
    }
    told_number(alloc, last)
}

fn told_fault(alloc: Global, fault: SessionFault) -> Result<String, NoMemory> {
    Ok(format!(in alloc; "{fault}")?)
}

fn told_flag(alloc: Global, flag: bool) -> Result<String, NoMemory> {
    Ok(String::from_str(alloc, if flag { "yes" } else { "no" })?)
}

fn told_text(alloc: Global, text: Option<&str>) -> Result<String, NoMemory> {
    Ok(String::from_str(alloc, text.unwrap_or("-"))?)
}

fn told_value(alloc: Global, value: Option<Text>) -> Result<String, NoMemory> {
    match value {
        Some(value) => told_text(alloc, Some(value.as_str())),
        None => told_text(alloc, None),
    }
}

fn told_some(alloc: Global, number: Option<u64>) -> Result<String, NoMemory> {
    match number {
        Some(number) => Ok(format!(in alloc; "{number}")?),
        None => told_text(alloc, None),
    }
}

fn told_number(alloc: Global, number: Result<u64, SessionFault>) -> Result<String, NoMemory> {
    match number {
        Ok(number) => told_some(alloc, Some(number)),
        Err(fault) => told_fault(alloc, fault),
    }
}

/// Returns `new`, or `was` and the old value, or the fault.
fn told_set(alloc: Global, old: Result<Option<Text>, SessionFault>) -> Result<String, NoMemory> {
    match old {
        Ok(None) => Ok(String::from_str(alloc, "new")?),
        Ok(Some(old)) => Ok(format!(in alloc; "was {}", old.as_str())?),
        Err(fault) => told_fault(alloc, fault),
    }
}

/// Returns the number of the session that ended, followed by its attributes in order, or `-` if none ended.
fn told_ended(alloc: Global, ended: Option<EndedSession>) -> Result<String, NoMemory> {
    let Some(ended) = ended else {
        return told_text(alloc, None);
    };
    let mut told = told_some(alloc, Some(ended.number))?;
    for attribute in ended.attributes.as_slice() {
        let (name, value) = (attribute.name.as_str(), attribute.value.as_str());
        told.push_str(format!(in alloc; " {name}={value}")?.as_str())?;
    }
    Ok(told)
}
