//! Appending the values of a context to bytes. If memory runs out, the bytes may end with a part of the value.

ghost use Rattle.std.specs.Prelude.{◌≡◌, ◌++◌, ◌<◌, ◌^◌, List, ℕ, [], ◌∷◌, OnOk, IfSome, length};
ghost use Rattle.std.specs.List.{AllByRecursion, flat_map};
ghost use Rattle.sv_realm.specs.Account.{user_of};
ghost use Rattle.sv_saved_sessions.specs.Content.{attribute_bytes, auth_bytes, methods_bytes, texts_bytes, transport_bytes, user_bytes};
ghost use Rattle.sv_saved_sessions.specs.Encoding.{list_bytes, number_bytes, optional_bytes, text_bytes};
ghost use Rattle.sv_saved_sessions.specs.Saved.{AreAll, AreMethods, AreTexts, IsAuth, IsByteString, IsNumber, IsText, IsUser};

use sv_constraints::{Auth, Collection, Constraint, Methods, Transport};
use sv_mapping::Pattern;
use sv_realm::Account;
use sv_session::{Attribute, StoredSession};
use sv_text::{NoMemory, Text};

/// A type whose values are written to a file.
pub(crate) trait Written {
    /// The bytes of a value.
    ghost bytes: { Self → List ℕ };

    /// What lets a value be read again.
    ghost fits: { Self → Type 0 };

    /// Appends a value.
    fn append(&self, out: &mut Vec<u8>) -> Result<(), NoMemory>
        ensures written { OnOk result (out.new.items ≡ out.old.items ++ bytes self.now) }
        ensures fits { OnOk result (fits self.now) };
}

/// Appends a number.
pub(crate) fn append_number(out: &mut Vec<u8>, number: u64) -> Result<(), NoMemory>
    ensures written { OnOk result (out.new.items ≡ out.old.items ++ number_bytes number) }
    ensures fits { IsNumber number }
{
    Ok(out.extend_from_slice(&number.to_be_bytes())?)
}

/// Appends a byte string.
fn append_bytes(out: &mut Vec<u8>, bytes: &[u8]) -> Result<(), NoMemory>
    ensures written { OnOk result (out.new.items ≡ out.old.items ++ text_bytes bytes.now) }
    ensures fits { OnOk result (IsByteString bytes.now) }
{
    append_number(out, bytes.len() as u64)?;
    Ok(out.extend_from_slice(bytes)?)
}

/// Appends a text.
pub(crate) fn append_text(out: &mut Vec<u8>, text: &str) -> Result<(), NoMemory>
    ensures written { OnOk result (out.new.items ≡ out.old.items ++ text_bytes text.now) }
    ensures fits { OnOk result (IsText text.now) }
{
    append_bytes(out, text.as_bytes())?;
    Ok(())
}

/// Appends a list.
pub(crate) fn append_list<T: Written>(out: &mut Vec<u8>, items: &[T]) -> Result<(), NoMemory>
    requires { length items.now < 2 ^ 64 }
    ensures written { OnOk result (out.new.items ≡ out.old.items ++ list_bytes T.bytes items.now) }
    ensures fits { OnOk result (AreAll T.fits items.now) }
{
    append_number(out, items.len() as u64)?;
    append_items(out, items)
}

/// Appends values one after another.
fn append_items<T: Written>(out: &mut Vec<u8>, items: &[T]) -> Result<(), NoMemory>
    ensures written { OnOk result (out.new.items ≡ out.old.items ++ flat_map T.bytes items.now) }
    ensures fits { OnOk result (AllByRecursion T.fits items.now) }
{
    for item in items {
        item.append(out)?;
    }
    Ok(())
}

impl Written for Text {
    ghost use Rattle.sv_saved_sessions.specs.Encoding.{text_bytes};
    ghost use Rattle.sv_saved_sessions.specs.Saved.{IsText};

    ghost bytes = { text_bytes };

    ghost fits = { IsText };

    fn append(&self, out: &mut Vec<u8>) -> Result<(), NoMemory> {
        append_text(out, self.as_str())
    }
}

/// Appends a list of texts.
fn append_texts(out: &mut Vec<u8>, texts: &[Text]) -> Result<(), NoMemory>
    ensures written { OnOk result (out.new.items ≡ out.old.items ++ texts_bytes texts.now) }
    ensures fits { OnOk result (AreTexts texts.now) }
{
    append_list(out, texts)
}

/// Appends the user of an account.
pub(crate) fn append_account(out: &mut Vec<u8>, account: &Account) -> Result<(), NoMemory>
    ensures written { OnOk result (out.new.items ≡ out.old.items ++ user_bytes (user_of account.now)) }
    ensures fits { OnOk result (IsUser (user_of account.now)) }
{
    append_text(out, account.caller.name.as_str())?;
    append_bytes(out, account.salt.as_slice())?;
    append_bytes(out, account.digest.as_slice())?;
    append_texts(out, account.caller.roles.as_slice())
}

impl Written for Pattern {
    ghost use Rattle.sv_saved_sessions.specs.Encoding.{text_bytes};
    ghost use Rattle.sv_saved_sessions.specs.Saved.{IsPatternText};

    ghost bytes = { text_bytes };

    ghost fits = { IsPatternText };

    fn append(&self, out: &mut Vec<u8>) -> Result<(), NoMemory> {
        append_text(out, self.text())
    }
}

/// Appends the methods of a collection.
fn append_methods(out: &mut Vec<u8>, methods: &Methods) -> Result<(), NoMemory>
    ensures written { OnOk result (out.new.items ≡ out.old.items ++ methods_bytes methods.now) }
    ensures fits { OnOk result (AreMethods methods.now) }
{
    match methods {
        Methods::All => Ok(out.push(0)?),
        Methods::Only(names) => {
            out.push(1)?;
            append_texts(out, names.as_slice())
        }
        Methods::Except(names) => {
            out.push(2)?;
            append_texts(out, names.as_slice())
        }
    }
}

impl Written for Collection {
    ghost use Rattle.sv_saved_sessions.specs.Content.{collection_bytes};
    ghost use Rattle.sv_saved_sessions.specs.Saved.{IsCollection};

    ghost bytes = { collection_bytes };

    ghost fits = { IsCollection };

    fn append(&self, out: &mut Vec<u8>) -> Result<(), NoMemory> {
        append_list(out, self.patterns.as_slice())?;
        append_methods(out, &self.methods)
    }
}

/// Appends an authorization constraint.
fn append_auth(out: &mut Vec<u8>, auth: &Auth) -> Result<(), NoMemory>
    ensures written { OnOk result (out.new.items ≡ out.old.items ++ auth_bytes auth.now) }
    ensures fits { OnOk result (IsAuth auth.now) }
{
    match auth {
        Auth::Absent => Ok(out.push(0)?),
        Auth::Roles(names) => {
            out.push(1)?;
            append_texts(out, names.as_slice())
        }
    }
}

/// Appends a user data constraint.
fn append_transport(out: &mut Vec<u8>, transport: Transport) -> Result<(), NoMemory>
    ensures { OnOk result (out.new.items ≡ out.old.items ++ transport_bytes transport) }
{
    Ok(out.push(transport_byte(transport))?)
}

/// Returns the byte of a user data constraint.
fn transport_byte(transport: Transport) -> u8
    ensures { transport_bytes transport ≡ result ∷ [] }
{
    match transport {
        Transport::Absent => 0,
        Transport::Plain => 1,
        Transport::Integral => 2,
        Transport::Confidential => 3,
    }
}

impl Written for Constraint {
    ghost use Rattle.sv_saved_sessions.specs.Content.{constraint_bytes};
    ghost use Rattle.sv_saved_sessions.specs.Saved.{IsConstraint};

    ghost bytes = { constraint_bytes };

    ghost fits = { IsConstraint };

    fn append(&self, out: &mut Vec<u8>) -> Result<(), NoMemory> {
        append_number(out, self.number)?;
        append_list(out, self.collections.as_slice())?;
        append_auth(out, &self.auth)?;
        append_transport(out, self.transport)?;
        Ok(())
    }
}

impl Written for Attribute {
    ghost use Rattle.sv_saved_sessions.specs.Content.{attribute_bytes};
    ghost use Rattle.sv_saved_sessions.specs.Saved.{IsAttribute};

    ghost bytes = { attribute_bytes };

    ghost fits = { IsAttribute };

    fn append(&self, out: &mut Vec<u8>) -> Result<(), NoMemory> {
        append_text(out, self.name.as_str())?;
        append_text(out, self.value.as_str())
    }
}

/// Appends the caller of a session.
fn append_caller(out: &mut Vec<u8>, caller: Option<u32>) -> Result<(), NoMemory>
    ensures written { OnOk result (out.new.items ≡ out.old.items ++ optional_bytes number_bytes caller) }
    ensures fits { IfSome caller (λ number. number < 2 ^ 32) }
{
    match caller {
        None => Ok(out.push(0)?),
        Some(number) => {
            out.push(1)?;
            append_number(out, number as u64)
        }
    }
}

/// Appends the saved target of a session.
fn append_saved(out: &mut Vec<u8>, saved: &Option<Text>) -> Result<(), NoMemory>
    ensures written { OnOk result (out.new.items ≡ out.old.items ++ optional_bytes text_bytes saved.now) }
    ensures fits { OnOk result (IfSome saved.now IsText) }
{
    match saved {
        None => Ok(out.push(0)?),
        Some(target) => {
            out.push(1)?;
            append_text(out, target.as_str())
        }
    }
}

impl Written for StoredSession {
    ghost use Rattle.sv_saved_sessions.specs.Content.{session_bytes};
    ghost use Rattle.sv_saved_sessions.specs.Saved.{IsSession};

    ghost bytes = { session_bytes };

    ghost fits = { IsSession };

    fn append(&self, out: &mut Vec<u8>) -> Result<(), NoMemory> {
        append_number(out, self.number)?;
        append_text(out, self.id.as_str())?;
        append_number(out, self.last_access)?;
        append_caller(out, self.caller)?;
        append_saved(out, &self.saved)?;
        append_list(out, self.attributes.as_slice())?;
        Ok(())
    }
}
