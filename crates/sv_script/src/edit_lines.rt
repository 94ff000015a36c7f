//! The lines that edit the constraints of a context.

ghost use Rattle.std.specs.Prelude.{◌≡◌};
ghost use Rattle.sv_script.specs.Editing as spec;
ghost use Rattle.sv_text.specs.Gives.{GivesAnswer};

use crate::fields::{at_blank, number, text_of};
use crate::line::ScriptLine;
use crate::names::{NameKind, names_of};
use std::alloc::Global;
use sv_constraints::{Auth, Collection, Methods, Transport};
use sv_mapping::{Pattern, PatternFault};
use sv_policy::{Edit, NewConstraint};
use sv_text::{Listed, NoMemory, Text};

/// Reads the rest of an `append` line after its blank: a context, a pattern, methods and roles.
pub(crate) fn appending(alloc: Global, rest: &[u8]) -> Result<Option<ScriptLine>, NoMemory>
    ensures { GivesAnswer result (spec.appending rest.now) }
{
    let Some((context, rest)) = at_blank(rest) else {
        return Ok(None);
    };
    let Some(path) = path_of(alloc, context)? else {
        return Ok(None);
    };
    let Some(addition) = addition_of(alloc, rest)? else {
        return Ok(None);
    };
    Ok(Some(ScriptLine::Edit(path, Edit::Append(addition))))
}

/// Reads the rest of a `withdraw` line after its blank: a context and a number.
pub(crate) fn withdrawing(alloc: Global, rest: &[u8]) -> Result<Option<ScriptLine>, NoMemory>
    ensures { GivesAnswer result (spec.withdrawing rest.now) }
{
    let Some((context, rest)) = at_blank(rest) else {
        return Ok(None);
    };
    let Some(number) = number(rest) else {
        return Ok(None);
    };
    let Some(path) = path_of(alloc, context)? else {
        return Ok(None);
    };
    Ok(Some(ScriptLine::Edit(path, Edit::Withdraw(number))))
}

// Returns the path of a context as written in a script: `/` is also the root.
fn path_of(alloc: Global, context: &[u8]) -> Result<Option<Text>, NoMemory>
    ensures { GivesAnswer result (spec.path_of context.now) }
{
    let Some(path) = text_of(context) else {
        return Ok(None);
    };
    Ok(Some(Text::copy_of(alloc, shown_path(path))?))
}

// Returns the path that a text shows.
fn shown_path(text: &str) -> &str
    ensures { result.now ≡ spec.shown_path text.now }
{
    if text == "/" { "" } else { text }
}

// Reads a constraint of one pattern: the pattern, methods and roles.
fn addition_of(alloc: Global, text: &[u8]) -> Result<Option<NewConstraint>, NoMemory>
    ensures { GivesAnswer result (spec.addition_of text.now) }
{
    let Some((pattern, rest)) = at_blank(text) else {
        return Ok(None);
    };
    let Some((methods, roles)) = at_blank(rest) else {
        return Ok(None);
    };
    let Some(auth) = auth_of(alloc, roles)? else {
        return Ok(None);
    };
    let Some(collection) = collection_of(alloc, pattern, methods)? else {
        return Ok(None);
    };
    let mut collections = Vec::new(alloc);
    collections.push(collection)?;
    Ok(Some(NewConstraint {
        collections: Listed::from_vec(collections),
        auth,
        transport: Transport::Absent,
    }))
}

// Returns a collection of one pattern and its methods.
fn collection_of(
    alloc: Global,
    pattern: &[u8],
    methods: &[u8],
) -> Result<Option<Collection>, NoMemory>
    ensures { GivesAnswer result (spec.collection_of pattern.now methods.now) }
{
    let Some(methods) = methods_of(alloc, methods)? else {
        return Ok(None);
    };
    let Some(pattern) = pattern_of(alloc, pattern)? else {
        return Ok(None);
    };
    let mut patterns = Vec::new(alloc);
    patterns.push(pattern)?;
    Ok(Some(Collection {
        patterns: Listed::from_vec(patterns),
        methods,
    }))
}

fn pattern_of(alloc: Global, text: &[u8]) -> Result<Option<Pattern>, NoMemory>
    ensures { GivesAnswer result (spec.pattern_of text.now) }
{
    let Some(text) = text_of(text) else {
        return Ok(None);
    };
    match Pattern::parse(alloc, text) {
        Ok(pattern) => Ok(Some(pattern)),
        Err(PatternFault::BadPattern) => Ok(None),
        Err(PatternFault::NoMemory) => Err(NoMemory),
    }
}

// Reads methods: `*` for all, `!` and names for all but these, names for only these.
fn methods_of(alloc: Global, text: &[u8]) -> Result<Option<Methods>, NoMemory>
    ensures { GivesAnswer result (spec.methods_of text.now) }
{
    if text == b"*".as_slice() {
        return Ok(Some(Methods::All));
    }
    match text.split_first() {
        Some((b'!', omitted)) => {
            Ok(names_of(alloc, NameKind::Method, omitted)?.map(Methods::Except))
        }
        _ => Ok(names_of(alloc, NameKind::Method, text)?.map(Methods::Only)),
    }
}

// Reads roles: `open` for everyone, `nobody` for no role, names for these roles.
fn auth_of(alloc: Global, text: &[u8]) -> Result<Option<Auth>, NoMemory>
    ensures { GivesAnswer result (spec.auth_of text.now) }
{
    if text == b"open".as_slice() {
        Ok(Some(Auth::Absent))
    } else if text == b"nobody".as_slice() {
        Ok(Some(Auth::Roles(Listed::from_vec(Vec::new(alloc)))))
    } else {
        Ok(names_of(alloc, NameKind::Role, text)?.map(Auth::Roles))
    }
}

/// The maximum length of the name of a role, in bytes.
pub const MAX_ROLE_BYTES: usize = 64;
