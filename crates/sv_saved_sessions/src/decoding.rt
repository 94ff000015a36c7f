//! Reading the values of a context from the front of bytes.

ghost use Rattle.std.specs.Prelude.{◌≡◌, Option, List, ℕ, None, Some, if◌then◌else◌};
ghost use Rattle.sv_mapping.specs.Pattern.{is_pattern};
ghost use Rattle.sv_saved_sessions.specs.Reading.{Gives, attribute_at, auth_at, caller_at, collection_at, constraint_at, items_at, list_at, methods_at, option_at, pattern_at, session_at, text_at, texts_at, transport_at, user_at, users_at};

use crate::cursor::{Cursor, text_of};
use crate::reading_fault::ReadingFault;
use std::alloc::Global;
use sv_constraints::{Auth, Collection, Constraint, Methods, Transport};
use sv_mapping::{Pattern, PatternFault};
use sv_realm::{MAX_USERS, Realm, User};
use sv_session::{Attribute, StoredSession};
use sv_text::{Listed, Text};

/// A type whose values a file holds.
pub(crate) trait Saved: Drop {
    /// What is read from the front of bytes.
    ghost at: { List ℕ → Option (Self × List ℕ) };

    /// Reads a value.
    fn read(alloc: Global, cursor: &mut Cursor<'_>) -> Result<Self, ReadingFault>
        ensures { Gives result cursor.new (at cursor.old) };
}

/// Reads a list.
#[tactic(auto, unfolding(crate::specs::Reading::list_at))]
pub(crate) fn list<T: Saved>(
    alloc: Global,
    cursor: &mut Cursor<'_>,
) -> Result<Listed<T>, ReadingFault>
    ensures { Gives result cursor.new (list_at T.at cursor.old) }
{
    let count = cursor.number()?;
    items(alloc, count, cursor)
}

/// Reads so many values.
fn items<T: Saved>(
    alloc: Global,
    count: u64,
    cursor: &mut Cursor<'_>,
) -> Result<Listed<T>, ReadingFault>
    ensures { Gives result cursor.new (items_at T.at count cursor.old) }
{
    let mut items = Vec::new(alloc);
    for _ in 0..count {
        let item = T::read(alloc, cursor)?;
        let Ok(()) = items.push(item) else {
            return Err(ReadingFault::NoMemory);
        };
    }
    Ok(Listed::from_vec(items))
}

/// Reads an option.
#[tactic(auto, unfolding(crate::specs::Reading::option_at))]
fn option<T: Saved>(alloc: Global, cursor: &mut Cursor<'_>) -> Result<Option<T>, ReadingFault>
    ensures { Gives result cursor.new (option_at T.at cursor.old) }
{
    let tag = cursor.byte()?;
    if tag == 0 {
        return Ok(None);
    }
    if tag == 1 {
        let value = T::read(alloc, cursor)?;
        return Ok(Some(value));
    }
    Err(ReadingFault::Damaged)
}

impl Saved for Text {
    ghost use Rattle.sv_saved_sessions.specs.Reading.{text_at};

    ghost at = { text_at };

    fn read(alloc: Global, cursor: &mut Cursor<'_>) -> Result<Text, ReadingFault> {
        cursor.text(alloc)
    }
}

/// Reads a list of texts.
#[tactic(auto, unfolding(crate::specs::Reading::texts_at))]
fn texts(alloc: Global, cursor: &mut Cursor<'_>) -> Result<Listed<Text>, ReadingFault>
    ensures { Gives result cursor.new (texts_at cursor.old) }
{
    list(alloc, cursor)
}

impl Saved for User {
    ghost use Rattle.sv_saved_sessions.specs.Reading.{user_at};

    ghost at = { user_at };

    #[tactic(auto, unfolding(crate::specs::Reading::user_at))]
    fn read(alloc: Global, cursor: &mut Cursor<'_>) -> Result<User, ReadingFault> {
        let name = cursor.text(alloc)?;
        let salt = cursor.bytes(alloc)?;
        let digest = cursor.bytes(alloc)?;
        let roles = texts(alloc, cursor)?;
        Ok(User {
            name,
            salt,
            digest,
            roles,
        })
    }
}

impl Saved for Attribute {
    ghost use Rattle.sv_saved_sessions.specs.Reading.{attribute_at};

    ghost at = { attribute_at };

    #[tactic(auto, unfolding(crate::specs::Reading::attribute_at))]
    fn read(alloc: Global, cursor: &mut Cursor<'_>) -> Result<Attribute, ReadingFault> {
        let name = cursor.text(alloc)?;
        let value = cursor.text(alloc)?;
        Ok(Attribute { name, value })
    }
}

/// Reads the number of a caller.
#[tactic(auto, unfolding(crate::specs::Reading::caller_at))]
fn caller(cursor: &mut Cursor<'_>) -> Result<u32, ReadingFault>
    ensures { Gives result cursor.new (caller_at cursor.old) }
{
    let number = cursor.number()?;
    if number > u32::MAX as u64 {
        return Err(ReadingFault::Damaged);
    }
    Ok(number as u32)
}

impl Saved for Pattern {
    ghost use Rattle.sv_saved_sessions.specs.Reading.{pattern_at};

    ghost at = { pattern_at };

    #[tactic(auto, unfolding(crate::specs::Reading::pattern_at))]
    fn read(alloc: Global, cursor: &mut Cursor<'_>) -> Result<Pattern, ReadingFault> {
        let text = cursor.text(alloc)?;
        pattern_of(alloc, text.as_str())
    }
}

/// Returns the pattern of a text.
fn pattern_of(alloc: Global, text: &str) -> Result<Pattern, ReadingFault>
    ensures { (after : List ℕ) → Gives result after (if is_pattern text.now then Some (text.now, after) else None) }
{
    match Pattern::parse(alloc, text) {
        Ok(pattern) => Ok(pattern),
        Err(PatternFault::BadPattern) => Err(ReadingFault::Damaged),
        Err(PatternFault::NoMemory) => Err(ReadingFault::NoMemory),
    }
}

/// Reads the methods of a collection.
#[tactic(auto, unfolding(crate::specs::Reading::methods_at))]
fn methods(alloc: Global, cursor: &mut Cursor<'_>) -> Result<Methods, ReadingFault>
    ensures { Gives result cursor.new (methods_at cursor.old) }
{
    let tag = cursor.byte()?;
    if tag == 0 {
        return Ok(Methods::All);
    }
    if tag == 1 {
        let names = texts(alloc, cursor)?;
        return Ok(Methods::Only(names));
    }
    if tag == 2 {
        let names = texts(alloc, cursor)?;
        return Ok(Methods::Except(names));
    }
    Err(ReadingFault::Damaged)
}

impl Saved for Collection {
    ghost use Rattle.sv_saved_sessions.specs.Reading.{collection_at};

    ghost at = { collection_at };

    #[tactic(auto, unfolding(crate::specs::Reading::collection_at))]
    fn read(alloc: Global, cursor: &mut Cursor<'_>) -> Result<Collection, ReadingFault> {
        let patterns = list::<Pattern>(alloc, cursor)?;
        let methods = methods(alloc, cursor)?;
        Ok(Collection { patterns, methods })
    }
}

/// Reads an authorization constraint.
#[tactic(auto, unfolding(crate::specs::Reading::auth_at))]
fn auth(alloc: Global, cursor: &mut Cursor<'_>) -> Result<Auth, ReadingFault>
    ensures { Gives result cursor.new (auth_at cursor.old) }
{
    let tag = cursor.byte()?;
    if tag == 0 {
        return Ok(Auth::Absent);
    }
    if tag == 1 {
        let names = texts(alloc, cursor)?;
        return Ok(Auth::Roles(names));
    }
    Err(ReadingFault::Damaged)
}

/// Reads a user data constraint.
#[tactic(auto, unfolding(crate::specs::Reading::transport_at))]
fn transport(cursor: &mut Cursor<'_>) -> Result<Transport, ReadingFault>
    ensures { Gives result cursor.new (transport_at cursor.old) }
{
    let tag = cursor.byte()?;
    if tag == 0 {
        return Ok(Transport::Absent);
    }
    if tag == 1 {
        return Ok(Transport::Plain);
    }
    if tag == 2 {
        return Ok(Transport::Integral);
    }
    if tag == 3 {
        return Ok(Transport::Confidential);
    }
    Err(ReadingFault::Damaged)
}

impl Saved for Constraint {
    ghost use Rattle.sv_saved_sessions.specs.Reading.{constraint_at};

    ghost at = { constraint_at };

    #[tactic(auto, unfolding(crate::specs::Reading::constraint_at))]
    fn read(alloc: Global, cursor: &mut Cursor<'_>) -> Result<Constraint, ReadingFault> {
        let number = cursor.number()?;
        let collections = list::<Collection>(alloc, cursor)?;
        let auth = auth(alloc, cursor)?;
        let transport = transport(cursor)?;
        Ok(Constraint {
            number,
            collections,
            auth,
            transport,
        })
    }
}

/// Reads the caller of a session.
#[tactic(auto, unfolding(crate::specs::Reading::option_at))]
fn optional_caller(cursor: &mut Cursor<'_>) -> Result<Option<u32>, ReadingFault>
    ensures { Gives result cursor.new (option_at caller_at cursor.old) }
{
    let tag = cursor.byte()?;
    if tag == 0 {
        return Ok(None);
    }
    if tag == 1 {
        let number = caller(cursor)?;
        return Ok(Some(number));
    }
    Err(ReadingFault::Damaged)
}

/// Reads a session.
#[tactic(auto, unfolding(crate::specs::Reading::session_at))]
pub(crate) fn session(alloc: Global, cursor: &mut Cursor<'_>) -> Result<StoredSession, ReadingFault>
    ensures { Gives result cursor.new (session_at cursor.old) }
{
    let number = cursor.number()?;
    let id = cursor.text(alloc)?;
    let last_access = cursor.number()?;
    let caller = optional_caller(cursor)?;
    let saved = option::<Text>(alloc, cursor)?;
    let attributes = list::<Attribute>(alloc, cursor)?;
    Ok(StoredSession {
        number,
        id,
        last_access,
        caller,
        saved,
        attributes: attributes.into_vec(),
    })
}

/// Reads the users of a realm.
#[tactic(auto, unfolding(crate::specs::Reading::users_at))]
pub(crate) fn realm(alloc: Global, cursor: &mut Cursor<'_>) -> Result<Realm, ReadingFault>
    ensures { Gives result cursor.new (users_at cursor.old) }
{
    let users = list::<User>(alloc, cursor)?.into_vec();
    if users.len() > MAX_USERS {
        return Err(ReadingFault::Damaged);
    }
    Ok(Realm::from_users(alloc, users)?)
}
