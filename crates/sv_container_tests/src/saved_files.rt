//! A context that is written and read.

use std::alloc::Global;
use sv_constraints::{Auth, Collection, Constraint, Methods, Transport};
use sv_lifecycle::SuspendedContext;
use sv_mapping::Pattern;
use sv_realm::{Realm, User};
use sv_rows::{Asks, Draft, Strays, cell, hold};
use sv_saved_sessions::{
    ReadingFault, SaveFault, SavedContext, file_key, read_context, write_context,
};
use sv_session::Sessions;
use sv_streams::MemoryStream;
use sv_text::{Bytes, Listed, NoMemory, Text};

/// The columns: what happens to the file; what is read.
const FILES: &str = r#"
same     | /shop at 5: ann; /a/*; 2 of 3; cart=7
cut      | foreign
changed  | foreign
other    | foreign
"#;

#[test]
fn what_was_written_is_read(rt: HostRuntime) -> Result<(), Strays> {
    hold(&rt, &[FILES], &Files)
}

/// Answers with what is read of a file.
struct Files;

impl Asks for Files {
    const QUESTION: usize = 1;

    fn answer(&self, alloc: Global, row: &str, answer: &mut Vec<u8>) -> Result<(), NoMemory> {
        let key = file_key(&[7; 32]);
        let file = file(alloc, &key)?;
        let mut bytes = file.written();
        let mut changed = Vec::new(alloc);
        changed.extend_from_slice(bytes)?;
        let what = cell(row, 0);
        if what == "cut" {
            bytes = &bytes[..bytes.len().saturating_sub(1)];
        }
        if what == "changed" {
            if let Some(byte) = changed.get_mut(30) {
                *byte ^= 1;
            }
            bytes = changed.as_slice();
        }
        let read = if what == "other" {
            read_context(alloc, bytes, &file_key(&[8; 32]))
        } else {
            read_context(alloc, bytes, &key)
        };
        let mut draft = Draft::new(alloc);
        match read {
            Ok(saved) => tell(&mut draft, &saved),
            Err(ReadingFault::Foreign) => draft.add("foreign"),
            Err(ReadingFault::Damaged) => draft.add("damaged"),
            Err(ReadingFault::NoMemory) => return Err(NoMemory),
        }
        draft.add_to(answer)
    }
}

fn tell(draft: &mut Draft, saved: &SavedContext) {
    draft.add(saved.context.path.as_str());
    draft.add(" at ");
    draft.add_shown(&saved.moment);
    draft.add(": ");
    if let Some(account) = saved.context.users.account(0) {
        draft.add(account.caller.name.as_str());
    }
    draft.add("; ");
    for constraint in saved.context.constraints.as_slice() {
        for collection in constraint.collections.as_slice() {
            for pattern in collection.patterns.as_slice() {
                draft.add(pattern.text());
            }
        }
    }
    draft.add("; ");
    draft.add_shown(&saved.context.sessions.count());
    draft.add(" of ");
    draft.add_shown(&saved.context.sessions.serial());
    draft.add("; ");
    if let Some(session) = saved.context.sessions.after(1) {
        for attribute in session.attributes.as_slice() {
            draft.add(attribute.name.as_str());
            draft.add("=");
            draft.add(attribute.value.as_str());
        }
    }
}

fn file(alloc: Global, key: &[u8; 32]) -> Result<MemoryStream, NoMemory> {
    let mut stream = MemoryStream::new(alloc, Vec::new(alloc), 1000, 0);
    let context = context(alloc)?;
    match write_context(alloc, &mut stream, key, 5, &context) {
        Ok(()) => Ok(stream),
        Err(SaveFault::NoMemory) => Err(NoMemory),
        Err(_) => Err(NoMemory),
    }
}

fn context(alloc: Global) -> Result<SuspendedContext, NoMemory> {
    let mut users = Vec::new(alloc);
    users.push(User {
        name: Text::copy_of(alloc, "ann")?,
        salt: Bytes::copy_of(alloc, b"salt")?,
        digest: Bytes::copy_of(alloc, b"digest")?,
        roles: Listed::from_vec(Vec::new(alloc)),
    })?;
    let Ok(pattern) = Pattern::parse(alloc, "/a/*") else {
        return Err(NoMemory);
    };
    let mut patterns = Vec::new(alloc);
    patterns.push(pattern)?;
    let mut collections = Vec::new(alloc);
    collections.push(Collection {
        patterns: Listed::from_vec(patterns),
        methods: Methods::All,
    })?;
    let mut constraints = Vec::new(alloc);
    constraints.push(Constraint {
        number: 4,
        collections: Listed::from_vec(collections),
        auth: Auth::Absent,
        transport: Transport::Confidential,
    })?;
    Ok(SuspendedContext {
        path: Text::copy_of(alloc, "/shop")?,
        users: Realm::from_users(alloc, users)?,
        declared: Listed::from_vec(Vec::new(alloc)),
        constraints: Listed::from_vec(constraints),
        greatest: 4,
        sessions: sessions(alloc)?,
    })
}

fn sessions(alloc: Global) -> Result<Sessions, NoMemory> {
    let mut sessions = Sessions::new(alloc, 10, 60);
    for number in 1..4 {
        let Ok(_) = sessions.open((number, number), 2) else {
            return Err(NoMemory);
        };
    }
    let Ok(_) = sessions.set(3, "cart", "7") else {
        return Err(NoMemory);
    };
    let _ended = sessions.end(2);
    Ok(sessions)
}
