//! The options of a command as words.

ghost use Rattle.std.specs.Prelude.{◌≡◌, ◌∷◌, ◌++◌, ◌≤◌, ◌&&◌, ℕ, List, All, IfErr, IfOk, IfSome, length, map, not, string_bytes};
ghost use Rattle.sv_arguments.specs.Given.{AreAllOf, AreOf, IsFirst, IsNext, IsSplit};
ghost use Rattle.sv_arguments.specs.OptionFault.{IsLone, IsRefused, IsWrong};
ghost use Rattle.sv_arguments.specs.Options.{AreProper, HasUnfit, IsProper, IsValue};
ghost use Rattle.sv_arguments.specs.Settings.{Keyed, Setting, given_rival, is_given, setting_words, values, words_of};
ghost use Rattle.sv_arguments.specs.Values.{Finds, IsAddress, IsCount, IsDescriptor, IsGiven, IsName, Says};

use crate::audit_options::unfit_named;
use crate::count::{address_in, count_in, descriptor_in};
use crate::key::Key;
use crate::option_fault::OptionFault;
use crate::option_set::OptionSet;
use std::net::SocketAddr;
use sv_audit_command::Format;

/// The server file of a command, and its options as words: the options of its set in any order, each at most once,
/// each with a value of it and with the option that it needs, no two that exclude each other, and with another server no
/// form that a report on differences does not have.
#[derive(Clone, Copy)]
pub(crate) struct Given<'a> {
    /// The name of the server file.
    pub(crate) config: &'a str,
    pub(crate) set: OptionSet,
    pub(crate) words: &'a [String],
}

impl<'a> Given<'a> {
    /// Parses the arguments: the name of the server file, followed by options.
    ///
    /// # Errors
    /// The first fault, from the left, or else an option without the one that it needs, or a form that another server
    /// excludes.
    pub(crate) fn parse(
        set: OptionSet,
        arguments: &'a [String],
    ) -> Result<Given<'a>, OptionFault<'a>>
        ensures it { IfOk result (λ given. (given.set ≡ set) × (map string_bytes arguments.now ≡ given.config.now ∷ map string_bytes given.words.now)
            × (settings : List Setting) × AreAllOf set (map string_bytes given.words.now) settings) }
        ensures fault { IfErr result (IsRefused set (map string_bytes arguments.now)) }
    {
        let Some((config, words)) = arguments.split_first() else {
            return Err(OptionFault::NoServer);
        };
        let mut rest = words;
        while let Some((word, after)) = rest.split_first() {
            let done = before(words, rest);
            let others = rest_behind(set, done, word.as_str(), after)?;
            rest = others;
        }
        if let Some((key, needed)) = lone_option(set, words) {
            return Err(OptionFault::Alone(key, needed));
        }
        if let Some(form) = unfit_form(set, words) {
            return Err(OptionFault::Unfit(form));
        }
        Ok(Given {
            config: config.as_str(),
            set,
            words,
        })
    }

    /// Returns the word after an option.
    pub(crate) fn value(&self, key: Key) -> Option<&'a str>
        ensures { (settings : List Setting) → AreOf self.now.set (map string_bytes self.now.words.now) settings → Says IsName (values key settings) result }
    {
        value_in(self.set, self.words, key)
    }

    /// Returns whether an option is given.
    pub(crate) fn has(&self, key: Key) -> bool
        ensures { (settings : List Setting) → AreOf self.now.set (map string_bytes self.now.words.now) settings → IsGiven (values key settings) result }
    {
        value_in(self.set, self.words, key).is_some()
    }

    /// Returns the address after an option whose values are addresses.
    pub(crate) fn address(&self, key: Key) -> Option<SocketAddr>
        ensures { (settings : List Setting) → AreOf self.now.set (map string_bytes self.now.words.now) settings
            → ((word : List ℕ) → IsValue key word → (address : SocketAddr) × IsAddress word address) → Says IsAddress (values key settings) result }
    {
        let word = self.value(key)?;
        address_in(word)
    }

    /// Returns the number after an option whose values are numbers from 1 to the limit.
    pub(crate) fn count(&self, key: Key, limit: u32) -> Option<u32>
        ensures { (settings : List Setting) → AreOf self.now.set (map string_bytes self.now.words.now) settings
            → ((word : List ℕ) → IsValue key word → (count : ℕ) × IsCount limit word count) → Says (IsCount limit) (values key settings) result }
    {
        let word = self.value(key)?;
        count_in(word, limit)
    }

    /// Returns the number of a descriptor after an option whose values are such numbers.
    pub(crate) fn descriptor(&self, key: Key) -> Option<u32>
        ensures { (settings : List Setting) → AreOf self.now.set (map string_bytes self.now.words.now) settings
            → ((word : List ℕ) → IsValue key word → (number : ℕ) × IsDescriptor word number) → Says IsDescriptor (values key settings) result }
    {
        let word = self.value(key)?;
        descriptor_in(word)
    }
}

/// Returns the words before the rest.
fn before<'a>(words: &'a [String], rest: &[String]) -> &'a [String]
    requires { length rest.now ≤ length words.now }
    ensures { (front : List (List ℕ)) → map string_bytes words.now ≡ front ++ map string_bytes rest.now → map string_bytes result.now ≡ front }
{
    let (front, _) = words.split_at(words.len() - rest.len());
    front
}

/// Reads the option that begins with this word and follows these, and returns the remaining words.
fn rest_behind<'a>(
    set: OptionSet,
    done: &'a [String],
    word: &'a str,
    after: &'a [String],
) -> Result<&'a [String], OptionFault<'a>>
    ensures it { IfOk result (λ rest. (settings : List Setting) → AreOf set (map string_bytes done.now) settings
        → IsNext set settings (word.now ∷ map string_bytes after.now) (map string_bytes rest.now)) }
    ensures shorter { IfOk result (λ rest. length rest.now ≤ length after.now) }
    ensures fault { IfErr result (λ fault. (settings : List Setting) → AreOf set (map string_bytes done.now) settings
        → IsWrong set settings (word.now ∷ map string_bytes after.now) fault) }
{
    let Some(key) = set.key(word) else {
        return Err(OptionFault::Unknown(word));
    };
    if value_in(set, done, key).is_some() {
        return Err(OptionFault::Twice(key));
    }
    if let Some(rival) = rival_in(set, done, key) {
        return Err(OptionFault::Excluded(key, rival));
    }
    if !key.takes_word() {
        return Ok(after);
    }
    let Some((value, rest)) = after.split_first() else {
        return Err(OptionFault::NoValue(key));
    };
    let value = value.as_str();
    if !key.is_value(value) {
        return Err(OptionFault::BadValue(key, value));
    }
    Ok(rest)
}

/// Returns the first of the options that exclude this one and that is among these words.
fn rival_in(set: OptionSet, words: &[String], key: Key) -> Option<Key>
    ensures { (settings : List Setting) → AreOf set (map string_bytes words.now) settings → result ≡ given_rival settings key }
{
    for other in key.rivals() {
        if is_among(set, words, *other) {
            return Some(*other);
        }
    }
    None
}

/// Returns the first option among these words, in the order of the help, without the one that it needs, and that one.
fn lone_option(set: OptionSet, words: &[String]) -> Option<(Key, Key)>
    ensures { (settings : List Setting) → AreOf set (map string_bytes words.now) settings → Finds (IsLone set settings) result }
{
    match set {
        OptionSet::Run => lone_run_option(words),
        OptionSet::Audit => lone_audit_option(words),
    }
}

fn lone_run_option(words: &[String]) -> Option<(Key, Key)>
    ensures { (settings : List Setting) → AreOf OptionSet.Run (map string_bytes words.now) settings → Finds (IsLone OptionSet.Run settings) result }
{
    if lacks(OptionSet::Run, words, Key::AccessLogFormat, Key::AccessLog) {
        return Some((Key::AccessLogFormat, Key::AccessLog));
    }
    if lacks(OptionSet::Run, words, Key::SessionsEvery, Key::Sessions) {
        return Some((Key::SessionsEvery, Key::Sessions));
    }
    if lacks(OptionSet::Run, words, Key::EndAllSessions, Key::Sessions) {
        return Some((Key::EndAllSessions, Key::Sessions));
    }
    None
}

fn lone_audit_option(words: &[String]) -> Option<(Key, Key)>
    ensures { (settings : List Setting) → AreOf OptionSet.Audit (map string_bytes words.now) settings → Finds (IsLone OptionSet.Audit settings) result }
{
    if lacks(OptionSet::Audit, words, Key::Method, Key::Path) {
        return Some((Key::Method, Key::Path));
    }
    None
}

/// Returns whether an option is among these words, and the one that it needs is not.
fn lacks(set: OptionSet, words: &[String], key: Key, needed: Key) -> bool
    ensures { (settings : List Setting) → AreOf set (map string_bytes words.now) settings
        → result ≡ not (is_given settings needed) && is_given settings key }
{
    !is_among(set, words, needed) && is_among(set, words, key)
}

/// Returns the form among these words, if a report on differences does not have it, and another server is among them.
fn unfit_form(set: OptionSet, words: &[String]) -> Option<Format>
    ensures { (settings : List Setting) → AreOf set (map string_bytes words.now) settings → Finds (HasUnfit settings) result }
{
    if !is_among(set, words, Key::Diff) {
        return None;
    }
    let Some(name) = value_in(set, words, Key::Format) else {
        return None;
    };
    unfit_named(name)
}

/// Returns whether an option is among these words.
fn is_among(set: OptionSet, words: &[String], key: Key) -> bool
    ensures { (settings : List Setting) → AreOf set (map string_bytes words.now) settings → result ≡ is_given settings key }
{
    value_in(set, words, key).is_some()
}

/// Returns the word after the first option of this key.
fn value_in<'a>(set: OptionSet, words: &'a [String], key: Key) -> Option<&'a str>
    ensures { (settings : List Setting) → map string_bytes words.now ≡ words_of settings → All (IsProper set) settings → IsFirst (values key settings) result }
{
    let mut rest = words;
    while let Some((word, after)) = rest.split_first() {
        let word = word.as_str();
        let (value, others) = value_behind(set, word, after)?;
        if word == key.word() {
            return Some(value);
        }
        rest = others;
    }
    None
}

/// Returns the word after an option, and the remaining words. The word after an option that takes none is empty.
fn value_behind<'a>(
    set: OptionSet,
    word: &str,
    after: &'a [String],
) -> Option<(&'a str, &'a [String])>
    ensures split { (key : Key) (value : List ℕ) (rest : List (List ℕ)) → word.now ∷ map string_bytes after.now ≡ setting_words (Keyed key value) ++ rest
        → IsProper set (Keyed key value) → IsSplit string_bytes value rest result }
    ensures shorter { IfSome result (λ found. length found.1.now ≤ length after.now) }
{
    let key = set.key(word)?;
    if key.takes_word() {
        let (value, others) = after.split_first()?;
        Some((value.as_str(), others))
    } else {
        Some(("", after))
    }
}
