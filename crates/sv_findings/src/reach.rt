//! Whether requests reach a pattern.

ghost use Rattle.std.specs.Prelude.{◌≡◌, slice_get};
ghost use Rattle.std.specs.Option.{option_copied};
ghost use Rattle.sv_mapping.specs.Form.{form_seen};
ghost use Rattle.sv_text.specs.Gives.{GivesAnswer};
ghost use Rattle.sv_findings.specs.Reach as spec;

use std::alloc::Global;
use std::marker::Model;
use sv_audit::form_of;
use sv_mapping::{ContextIndex, Form, is_protected};
use sv_text::{NoMemory, Text};

/// Whether requests reach a pattern of a context.
#[derive(Drop)]
pub enum Reach {
    /// Some may.
    Reached,
    /// None does: all paths of the pattern are in folders that are never served (Jakarta Servlet 6.0, section 10.5).
    Hidden,
    /// None does: all targets of the pattern belong to the context with this path, or to contexts below it (section
    /// 12.1).
    Elsewhere(Text),
    /// None does: the pattern is the best match of no canonical path (sections 3.5.2 and 12.1).
    Unmatched,
}

/// Returns whether requests reach a pattern of the context with this path, given the paths of all contexts. The context
/// of a request is chosen before its path is compared with hidden folders.
///
/// # Errors
/// `NoMemory` if memory runs out.
pub fn reach_of(
    alloc: Global,
    contexts: &[Text],
    context: &str,
    pattern: &str,
) -> Result<Reach, NoMemory>
    ensures { GivesAnswer result (spec.reach_of contexts.now context.now pattern.now) }
{
    Reaches::of(alloc, contexts, context)?.reach(alloc, pattern)
}

/// The patterns of a context beside others, for questions on the reach of many patterns. Contracts see the paths of all
/// contexts, and that of this one.
#[derive(Drop)]
pub struct Reaches<'a> {
    index: ContextIndex,
    contexts: &'a [Text],
    context: &'a str,
}

impl<'a> Model for Reaches<'a> {
    ghost use Rattle.std.specs.Prelude.{◌≡◌, ℕ, List};

    ghost Value = { List (List ℕ) × List ℕ };

    ghost view = { λ reaches. (reaches.contexts.now, reaches.context.now) };

    ghost invariant = { λ reaches. reaches.index ≡ reaches.contexts.now };
}

impl<'a> Reaches<'a> {
    /// Takes the paths of all contexts, and that of the context with the patterns.
    ///
    /// # Errors
    /// `NoMemory` if memory runs out.
    pub fn of(
        alloc: Global,
        contexts: &'a [Text],
        context: &'a str,
    ) -> Result<Reaches<'a>, NoMemory>
        ensures { GivesAnswer result (contexts.now, context.now) }
    {
        let index = ContextIndex::of(alloc, contexts)?;
        Ok(Reaches {
            index,
            contexts,
            context,
        })
    }

    /// Returns the path of the context.
    pub fn context(&self) -> &str
        ensures { result.now ≡ self.now.1 }
    {
        self.context
    }

    /// Returns whether the context serves a target with this canonical path.
    pub fn serves(&self, path: &str) -> bool
        ensures { result ≡ spec.serves self.now.0 self.now.1 path.now }
    {
        match chosen_path(&self.index, self.contexts, path) {
            Some(chosen) => chosen == self.context,
            None => false,
        }
    }

    /// Returns whether requests reach a pattern.
    ///
    /// # Errors
    /// `NoMemory` if memory runs out.
    pub fn reach(&self, alloc: Global, pattern: &str) -> Result<Reach, NoMemory>
        ensures { GivesAnswer result (spec.reach_of self.now.0 self.now.1 pattern.now) }
    {
        reach_by(alloc, &self.index, self.contexts, self.context, pattern)
    }

    /// Returns whether some requests may reach a pattern.
    ///
    /// # Errors
    /// `NoMemory` if memory runs out.
    pub fn is_reached(&self, alloc: Global, pattern: &str) -> Result<bool, NoMemory>
        ensures { GivesAnswer result (spec.is_reached self.now.0 self.now.1 pattern.now) }
    {
        let reach = self.reach(alloc, pattern)?;
        Ok(has_requests(&reach))
    }
}

fn has_requests(reach: &Reach) -> bool
    ensures { result ≡ spec.has_requests reach.now }
{
    matches!(reach, Reach::Reached)
}

fn reach_by(
    alloc: Global,
    index: &ContextIndex,
    contexts: &[Text],
    context: &str,
    pattern: &str,
) -> Result<Reach, NoMemory>
    ensures { index.now ≡ contexts.now → GivesAnswer result (spec.reach_of contexts.now context.now pattern.now) }
{
    match front_of(form_of(pattern)) {
        Some(front) => reach_below(alloc, index, contexts, context, front),
        None => Ok(Reach::Reached),
    }
}

/// Returns the front of all paths of a pattern, unless it matches paths everywhere, or the root of the context.
fn front_of<'a>(form: Form<'a>) -> Option<&'a str>
    ensures { option_copied result ≡ spec.front_of (form_seen form.entry) }
{
    match form {
        Form::Root => None,
        Form::Default => None,
        Form::Extension(_) => None,
        Form::Prefix(prefix) => unless_root(prefix),
        Form::Exact(text) => unless_root(text),
    }
}

fn unless_root(text: &str) -> Option<&str>
    ensures { option_copied result ≡ spec.unless_root text.now }
{
    if text == "/" { None } else { Some(text) }
}

fn reach_below(
    alloc: Global,
    index: &ContextIndex,
    contexts: &[Text],
    context: &str,
    front: &str,
) -> Result<Reach, NoMemory>
    ensures { index.now ≡ contexts.now → GivesAnswer result (spec.reach_below contexts.now context.now front.now) }
{
    let mut path = Text::copy_of(alloc, context)?;
    path.push_str(alloc, front)?;
    match chosen_path(index, contexts, path.as_str()) {
        Some(chosen) => reach_against(alloc, context, front, chosen),
        None => Ok(own_reach(front)),
    }
}

/// Returns the context path that is chosen for a path.
fn chosen_path<'a>(index: &ContextIndex, contexts: &'a [Text], path: &str) -> Option<&'a str>
    ensures { index.now ≡ contexts.now → option_copied result ≡ spec.chosen_path contexts.now path.now }
{
    match index.place(path) {
        Some(place) => text_at(contexts, place),
        None => None,
    }
}

fn text_at(texts: &[Text], place: usize) -> Option<&str>
    ensures { option_copied result ≡ slice_get texts.now place }
{
    match texts.get(place) {
        Some(text) => Some(text.as_str()),
        None => None,
    }
}

fn reach_against(alloc: Global, context: &str, front: &str, chosen: &str) -> Result<Reach, NoMemory>
    ensures { GivesAnswer result (spec.reach_against context.now front.now chosen.now) }
{
    if context.len() < chosen.len() {
        return Ok(Reach::Elsewhere(Text::copy_of(alloc, chosen)?));
    }
    Ok(own_reach(front))
}

/// Returns whether requests reach a pattern whose paths belong to the context, by their front.
fn own_reach(front: &str) -> Reach
    ensures { result ≡ spec.own_reach front.now }
{
    if is_protected(front) {
        Reach::Hidden
    } else {
        Reach::Reached
    }
}
