//! Contexts that are found by their paths, and the handling of a message by one of them.

ghost use Rattle.std.specs.Prelude.{◌≡◌, ◌≢◌, ◌<◌, ℕ, true, Err, IfErr, IfOk, IfSome, IsTrue, List, Some, length, map, position, slice_get};
ghost use Rattle.sv_mapping.specs.Chosen.{is_chosen};
ghost use Rattle.sv_run.specs.Output.{Adds};
ghost use Rattle.sv_journal.specs.declared.entry.Entry.{Entry};
ghost use Rattle.sv_mapping.specs.Pattern.{is_at_or_below};
ghost use Rattle.sv_policy.specs.declared.edit_fault.EditFault.TheVariants as fault;
ghost use Rattle.sv_run.specs.Breaking.{BreaksAnswer, Given};
ghost use Rattle.sv_run.specs.Contexts.{theory_of};
ghost use Rattle.sv_run.specs.Editing.{EditsIn, place_with};
ghost use Rattle.sv_run.specs.Effect.{Effect, noting};
ghost use Rattle.sv_run.specs.Events.{AltersAll, ExpiresAll, MovesAll};
ghost use Rattle.sv_run.specs.Items.{Responds};
ghost use Rattle.sv_run.specs.Messages.{Within};

use crate::context::{Context, Words, expire_all};
use crate::edits::place_of;
use crate::output::Output;
use crate::reply::Reply;
use std::alloc::Global;
use std::marker::Model;
use sv_journal::Journal;
use sv_mapping::{ContextIndex, HasContextPath};
use sv_message::Message;
use sv_policy::{Edit, EditFault};
use sv_text::NoMemory;
use sv_uri::path::Canon;
use sv_wire::DateText;

/// Contexts in order, with an index of their paths. Contracts see only the list of contexts.
#[derive(Drop)]
pub(crate) struct Indexed<C: HasContextPath> {
    contexts: Vec<C>,
    index: ContextIndex,
}

impl<C: HasContextPath> Model for Indexed<C> {
    ghost use Rattle.std.specs.Prelude.{◌≡◌, List, map};

    ghost Value = { List C };

    ghost view = { λ indexed. indexed.contexts.items };

    ghost invariant = { λ indexed. indexed.index ≡ map C.path_of indexed.contexts.items };
}

impl<C: HasContextPath> Indexed<C> {
    /// Creates an indexed list of contexts from the contexts in order and the index of their paths.
    pub(crate) fn new(contexts: Vec<C>, index: ContextIndex) -> Indexed<C>
        requires { index ≡ map C.path_of contexts.items }
        ensures { result ≡ contexts.items }
    {
        Indexed { contexts, index }
    }

    /// Returns the contexts in order.
    pub(crate) fn as_slice(&self) -> &[C]
        ensures { result.now ≡ self.now }
    {
        self.contexts.as_slice()
    }

    /// Returns the contexts in order, and drops the index.
    pub(crate) fn into_vec(self) -> Vec<C>
        ensures { result.items ≡ self }
    {
        let Indexed { contexts, .. } = self;
        contexts
    }

    /// Returns the place of the context for a path, as [`context_place`](sv_mapping::context_place) finds it. The
    /// time does not depend on the number of contexts.
    pub(crate) fn place(&self, path: &str) -> Option<usize>
        ensures chosen { result ≡ position (λ context. is_chosen (map C.path_of self.now) path.now (C.path_of context)) self.now }
        ensures bound { IfSome result (λ place. place < length self.now) }
        ensures above { IfSome result (λ place. (context : C) → slice_get self.now place ≡ Some context → IsTrue (is_at_or_below (C.path_of context) path.now)) }
    {
        self.index.place(path)
    }
}

impl<C: Context> Indexed<C> {
    /// Ends the sessions that have expired at `moment`, context by context.
    #[inline(always)]
    pub(crate) fn expire_all(&mut self, alloc: Global, moment: u64, journal: &mut Journal)
        ensures expires { (told : List Entry) × ExpiresAll C.conduct self.old moment told self.new
            × (journal.new.whole ≡ true → journal.new ≡ noting told journal.old) }
        ensures moves { MovesAll C.conduct self.old self.new }
    {
        expire_all(alloc, self.contexts.as_mut_slice(), moment, journal);
    }

    /// Edits the constraints of the first context that has the path, or fails with `NoSuch` if none has it.
    pub(crate) fn edit<W: Words>(
        &mut self,
        alloc: Global,
        path: &str,
        edit: &Edit,
    ) -> Result<u64, EditFault>
        ensures edits { result ≢ Err fault.NoMemory
            → EditsIn (theory_of C.path_of C.conduct W.draws) (place_with (theory_of C.path_of C.conduct W.draws) self.old path.now) self.old edit.now result self.new }
        ensures refused { result ≡ Err fault.NoMemory → self.new ≡ self.old }
        ensures alters { AltersAll C.conduct self.old self.new }
    {
        let Some(place) = place_of(self.contexts.as_slice(), path) else {
            return Err(EditFault::NoSuch);
        };
        self.contexts[place].edit(alloc, edit)
    }

    /// Lets the context at a place handle a message, and appends its response to the output.
    pub(crate) fn handle_at<W: Words>(
        &mut self,
        alloc: Global,
        place: usize,
        date: &DateText,
        message: &mut Message,
        canon: &Canon,
        words: (u64, u64),
        output: &mut Output,
    ) -> Result<(), NoMemory>
        requires there { place < length self.old }
        requires serves { (context : C) → slice_get self.old place ≡ Some context → IsTrue (is_at_or_below (C.path_of context) canon.now.path) }
        ensures responds { IfOk result (λ _. (effect : Effect C)
            × Responds (theory_of C.path_of C.conduct W.draws) date.now (Within place canon.now) message.old words self.old effect self.new
            × Adds output.old effect output.new) }
        ensures breaks { IfErr result (λ _. (given : List (Given C))
            × BreaksAnswer (theory_of C.path_of C.conduct W.draws) date.now (Within place canon.now) message.old words self.old given self.new) }
        ensures moves { MovesAll C.conduct self.old self.new }
    {
        let reply = Reply::to(alloc, place, &self.contexts[place], message, output)?;
        let context = &mut self.contexts[place];
        let response = context.handle(
            alloc,
            message,
            canon,
            date.moment(),
            words,
            &mut output.journal,
        )?;
        let sent = reply.send(&response, date, output);
        context.recycle(response);
        sent
    }
}
