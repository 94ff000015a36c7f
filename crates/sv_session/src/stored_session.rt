//! A session as stored.

ghost use Rattle.std.specs.Prelude.{◌≡◌, ◌<◌, [], IfOk, IfSome, None, OnErr, OnOk, Some, length, position};
ghost use Rattle.std.specs.Option.{option_copied};
ghost use Rattle.sv_session.specs.Attributes.{is_named, names_one, value_named, with_named, without_named};
ghost use Rattle.sv_session.specs.Calls.{ended, is_too_large, session_opened};
ghost use Rattle.sv_text.specs.Gives.{GivesAnswer};

use crate::due::Due;
use crate::ended_sessions::EndedSession;
use crate::id::id_of;
use crate::limits::{MAX_ATTRIBUTE_NAME_BYTES, MAX_ATTRIBUTES, MAX_VALUE_BYTES};
use crate::slot::Attribute;
use std::alloc::Global;
use std::marker::Model;
use std::mem;
use sv_text::{Listed, NoMemory, Text};

/// A session as stored. Contracts see a `Session`.
#[derive(Drop)]
pub struct StoredSession {
    /// The serial that the session was opened with.
    pub number: u64,
    /// The id that clients send, which is 48 hexadecimal digits.
    pub id: Text,
    /// The time of the last access, in seconds.
    pub last_access: u64,
    /// The number of the caller in the realm, if any.
    pub caller: Option<u32>,
    /// The target of the request that a login interrupted, if any.
    pub saved: Option<Text>,
    /// The attributes, in the order in which they were first set.
    pub attributes: Vec<Attribute>,
}

impl Model for StoredSession {
    ghost use Rattle.sv_session.specs.Store.{Session};

    ghost Value = { Session };

    ghost view = { λ k. record {
      number = k.number;
      id = k.id;
      last_access = k.last_access;
      caller = k.caller;
      saved = k.saved;
      attributes = k.attributes.items;
    } };
}

impl StoredSession {
    /// Opens a session at the time `now`, in seconds, with the serial as its number.
    pub(crate) fn open(
        alloc: Global,
        words: (u64, u64),
        serial: u64,
        now: u64,
    ) -> Result<StoredSession, NoMemory>
        ensures { IfOk result (λ kept. kept ≡ session_opened words serial now) }
    {
        Ok(StoredSession {
            number: serial,
            id: id_of(alloc, words, serial)?,
            last_access: now,
            caller: None,
            saved: None,
            attributes: Vec::new(alloc),
        })
    }

    /// Copies a session.
    ///
    /// # Errors
    /// [`NoMemory`].
    pub fn copy_of(alloc: Global, session: &StoredSession) -> Result<StoredSession, NoMemory>
        ensures { GivesAnswer result session.now }
    {
        Ok(StoredSession {
            number: session.number,
            id: Text::copy_of(alloc, session.id.as_str())?,
            last_access: session.last_access,
            caller: session.caller,
            saved: copied_text(alloc, &session.saved)?,
            attributes: copied_attributes(alloc, session.attributes.as_slice())?,
        })
    }

    /// Returns the session's number.
    pub(crate) fn number(&self) -> u64
        ensures { result ≡ self.now.number }
    {
        self.number
    }

    /// Returns the session's id.
    pub(crate) fn id(&self) -> &str
        ensures { result.now ≡ self.now.id }
    {
        self.id.as_str()
    }

    /// Gives the session another id.
    pub(crate) fn rename(&mut self, id: Text)
        ensures { self.new ≡ record self.old { id = id } }
    {
        self.id = id;
    }

    /// Returns the record that the expiry queue keeps for the session.
    pub(crate) fn due(&self) -> Due
        ensures { result ≡ record { last_access = self.now.last_access; number = self.now.number } }
    {
        Due {
            last_access: self.last_access,
            number: self.number,
        }
    }

    /// Records an access at the time `now`, in seconds.
    pub(crate) fn touch(&mut self, now: u64)
        ensures { self.new ≡ record self.old { last_access = now } }
    {
        self.last_access = now;
    }

    /// Returns the number of the session's caller in the realm, if any.
    pub(crate) fn caller(&self) -> Option<u32>
        ensures { result ≡ self.now.caller }
    {
        self.caller
    }

    /// Sets the session's caller, or clears it.
    pub(crate) fn enter_caller(&mut self, caller: Option<u32>)
        ensures { self.new ≡ record self.old { caller = caller } }
    {
        self.caller = caller;
    }

    /// Saves the target of the request that a login interrupted.
    pub(crate) fn save(&mut self, target: Text)
        ensures { self.new ≡ record self.old { saved = Some target } }
    {
        self.saved = Some(target);
    }

    /// Removes the saved target and returns it.
    pub(crate) fn take_saved(&mut self) -> Option<Text>
        ensures taken { result ≡ self.old.saved }
        ensures left { self.new ≡ record self.old { saved = None } }
    {
        self.saved.take()
    }

    /// Returns whether the name or the value is too long, or the session has the maximum number of attributes but none
    /// of this name.
    pub(crate) fn is_too_large(&self, name: &str, value: &str) -> bool
        ensures { result ≡ is_too_large name.now value.now self.now.attributes }
    {
        name.len() > MAX_ATTRIBUTE_NAME_BYTES
            || value.len() > MAX_VALUE_BYTES
            || (self.attributes.len() >= MAX_ATTRIBUTES && !self.has(name))
    }

    /// Returns whether the session has an attribute of this name.
    fn has(&self, name: &str) -> bool
        ensures { result ≡ names_one name.now self.now.attributes }
    {
        self.attributes
            .iter()
            .any(|attribute| attribute.name.as_str() == name)
    }

    /// Returns the value of the attribute of this name.
    pub(crate) fn value(&self, name: &str) -> Option<&str>
        ensures { option_copied result ≡ value_named name.now self.now.attributes }
    {
        let attribute = self
            .attributes
            .iter()
            .find(|attribute| attribute.name.as_str() == name)?;
        Some(attribute.value.as_str())
    }

    /// Sets the attribute of this name and returns its previous value. If memory runs out, nothing changes.
    pub(crate) fn set_value(
        &mut self,
        alloc: Global,
        name: &str,
        value: &str,
    ) -> Result<Option<Text>, NoMemory>
        ensures value { IfOk result (λ old. old ≡ value_named name.now self.old.attributes) }
        ensures set { OnOk result (self.new ≡ record self.old { attributes = with_named name.now value.now self.old.attributes }) }
        ensures refused { OnErr result (self.new ≡ self.old) }
    {
        let value = Text::copy_of(alloc, value)?;
        match self.place(name) {
            Some(place) => Ok(Some(mem::replace(&mut self.attributes[place].value, value))),
            None => {
                let name = Text::copy_of(alloc, name)?;
                self.attributes.push(Attribute { name, value })?;
                Ok(None)
            }
        }
    }

    /// Removes the attribute of this name and returns its value.
    pub(crate) fn remove_value(&mut self, name: &str) -> Option<Text>
        ensures value { result ≡ value_named name.now self.old.attributes }
        ensures left { self.new ≡ record self.old { attributes = without_named name.now self.old.attributes } }
    {
        let place = self.place(name)?;
        let Attribute { name: _, value } = self.attributes.remove(place);
        Some(value)
    }

    /// Ends the session and returns it for its listeners. Its id, saved target and attributes are removed.
    pub(crate) fn end(&mut self, alloc: Global) -> EndedSession
        ensures told { result ≡ ended self.old }
        ensures left { self.new ≡ record self.old { id = []; saved = None; attributes = [] } }
    {
        let attributes = mem::replace(&mut self.attributes, Vec::new(alloc));
        self.id = Text::from_string(String::new(alloc));
        self.saved = None;
        EndedSession {
            number: self.number,
            attributes: Listed::from_vec(attributes),
        }
    }

    /// Returns the index of the attribute of this name.
    fn place(&self, name: &str) -> Option<usize>
        ensures place { result ≡ position (is_named name.now) self.now.attributes }
        ensures bound { IfSome result (λ place. place < length self.now.attributes) }
    {
        self.attributes
            .iter()
            .position(|attribute| attribute.name.as_str() == name)
    }
}

fn copied_text(alloc: Global, text: &Option<Text>) -> Result<Option<Text>, NoMemory>
    ensures { GivesAnswer result text.now }
{
    match text {
        Some(text) => Ok(Some(Text::copy_of(alloc, text.as_str())?)),
        None => Ok(None),
    }
}

fn copied_attributes(alloc: Global, attributes: &[Attribute]) -> Result<Vec<Attribute>, NoMemory>
    ensures { IfOk result (λ copies. copies.items ≡ attributes.now) }
{
    let mut copies = Vec::with_capacity(alloc, attributes.len())?;
    for attribute in attributes {
        copies.push(Attribute {
            name: Text::copy_of(alloc, attribute.name.as_str())?,
            value: Text::copy_of(alloc, attribute.value.as_str())?,
        })?;
    }
    Ok(copies)
}
