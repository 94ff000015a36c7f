//! The host of a container's contexts, which handles the events of their connections.

ghost use Rattle.std.specs.Prelude.{◌≡◌, ◌⊎◌, [], List, None, IfErr, IfOk, IsSome, false, map};
ghost use Rattle.sv_run.specs.Accesses.{logged};
ghost use Rattle.sv_run.specs.Host.{LogsSo, StepsSo, opening, state_of};
ghost use Rattle.sv_run.specs.Output.{Adds, growth_of};
ghost use Rattle.sv_journal.specs.Journal.{new_journal};
ghost use Rattle.sv_journal.specs.declared.entry.Entry.{Entry};
ghost use Rattle.sv_run.specs.Breaking.{BreaksPiece, DoesNothing, Given};
ghost use Rattle.sv_run.specs.Connections.{awaited_in};
ghost use Rattle.sv_run.specs.Contexts.{theory_of};
ghost use Rattle.sv_run.specs.Editing.{EditsContext};
ghost use Rattle.sv_run.specs.Effect.{Effect, shown};
ghost use Rattle.sv_run.specs.Events.{Accepts, AltersAll, BreaksOff, ExpiresAll, Happens, MovesAll, TakesPiece, fault_of, moment_after, raised};
ghost use Rattle.sv_run.specs.Seen.{happening_of};
ghost use Rattle.sv_run.specs.State.{settled_at};

use crate::access::Access;
use crate::connections::Connections;
use crate::context::{Context, Words};
use crate::edits::told_of;
use crate::faults::{fault_of, moment_after};
use crate::happening::{Happening, Reaction};
use crate::indexed_contexts::Indexed;
use crate::items::take_items;
use crate::output::Output;
use crate::spare::Spare;
use crate::step_fault::StepFault;
use std::alloc::Global;
use sv_journal::Journal;
use sv_mapping::{ContextIndex, HasContextPath};
use sv_policy::Edit;
use sv_text::NoMemory;
use sv_wire::{Awaited, DateText, Item};

/// Contexts and their connections, with a source of random words.
#[derive(Drop)]
pub struct Host<C: HasContextPath, W> {
    alloc: Global,
    stopped: bool,
    date: DateText,
    contexts: Indexed<C>,
    words: W,
    connections: Connections,
    // The items of the last piece, which are unspecified after its event. The next piece reuses their memory.
    items: Vec<Item>,
    spare: Spare,
    logs: bool,
    // The accesses of the last event, if a log wants them.
    accesses: Vec<Access>,
}

impl<C: HasContextPath, W> Host<C, W> {
    /// Creates a host of the contexts in order, with the index of their paths, before any event: no connection is
    /// known, and the time is 0. No log wants accesses. It does not allocate.
    pub fn new(alloc: Global, contexts: Vec<C>, index: ContextIndex, words: W) -> Host<C, W>
        requires { index ≡ map C.path_of contexts.items }
        ensures state { state_of result ≡ opening contexts.items words }
        ensures logs { result.logs ≡ false }
    {
        Host {
            alloc,
            stopped: false,
            date: DateText::at(0),
            contexts: Indexed::new(contexts, index),
            words,
            connections: Connections::new(alloc),
            items: Vec::new(alloc),
            spare: Spare::new(alloc),
            logs: false,
            accesses: Vec::new(alloc),
        }
    }

    /// Sets whether a log wants the accesses of later events.
    pub fn set_logs(&mut self, logs: bool)
        ensures { self.new ≡ record self.old { logs = logs } }
    {
        self.logs = logs;
    }

    /// Returns the accesses of the last event, in the order of their responses; none if no log wants them, or if the
    /// event had a fault.
    pub fn accesses(&self) -> &[Access]
        ensures { result.now ≡ self.now.accesses.items }
    {
        self.accesses.as_slice()
    }

    /// Returns whether an event ran out of memory.
    pub fn is_stopped(&self) -> bool
        ensures { result ≡ (state_of self.now).stopped }
    {
        self.stopped
    }

    /// Returns the time, in seconds since 1970: the greatest of the events so far.
    pub fn moment(&self) -> u64
        ensures { result ≡ (state_of self.now).moment }
    {
        self.date.moment()
    }

    /// Raises the time to a moment, in seconds since 1970, as an event of that time would. No session expires.
    pub fn raise_moment(&mut self, moment: u64)
        ensures state { state_of self.new ≡ record (state_of self.old) { moment = raised (state_of self.old).moment moment } }
        ensures logs { self.new.logs ≡ self.old.logs }
        ensures accesses { self.new.accesses ≡ self.old.accesses }
    {
        let raised = moment_after(self.date.moment(), Happening::Tick { moment });
        self.date.set(raised);
    }

    /// Returns what is awaited of a connection: nothing if it has closed or is not known.
    #[inline(always)]
    pub fn awaits(&self, connection: u64) -> Awaited
        ensures { result ≡ awaited_in (state_of self.now).connections connection }
    {
        self.connections.awaits(connection)
    }

    /// Returns the contexts in order.
    pub fn contexts(&self) -> &[C]
        ensures { result.now ≡ (state_of self.now).world.contexts }
    {
        self.contexts.as_slice()
    }
}

impl<C: Context, W: Words> Host<C, W> {
    /// Handles an event: raises the time, ends the sessions that have expired, and lets the event happen (RFC 9112,
    /// section 9; Jakarta Servlet 6.0, sections 7.5 and 13.8). The time to find a connection or the context of a
    /// request does not depend on their number.
    ///
    /// # Errors
    /// The first [`StepFault`] that applies. After any fault but `NoMemory`, nothing has changed. After `NoMemory`,
    /// each later event is refused as `Stopped`. The reaction to the event is lost, the expired sessions have ended,
    /// and the event broke off. A context that was given no message of the event is then as it was after its expired
    /// sessions ended.
    pub fn step(&mut self, happening: Happening) -> Result<Reaction, StepFault>
        ensures steps { StepsSo (theory_of C.path_of C.conduct W.draws) (state_of self.old) (happening_of happening.entry) result (state_of self.new) }
        ensures logs { LogsSo (theory_of C.path_of C.conduct W.draws) self.old.logs (state_of self.old) (happening_of happening.entry) result (state_of self.new) self.new.accesses.items }
        ensures kept { self.new.logs ≡ self.old.logs }
        ensures alters { AltersAll C.conduct (state_of self.old).world.contexts (state_of self.new).world.contexts }
    {
        self.accesses.clear();
        if self.stopped {
            return Err(StepFault::Stopped);
        }
        if let Some(fault) = fault_of(&self.connections, happening) {
            return Err(fault);
        }
        match self.accept(happening) {
            Ok(reaction) => Ok(reaction),
            Err(_) => {
                self.stopped = true;
                Err(StepFault::NoMemory)
            }
        }
    }

    // Handles an event that can only fail by running out of memory.
    fn accept(&mut self, happening: Happening) -> Result<Reaction, NoMemory>
        requires runs { (state_of self.old).stopped ≡ false }
        requires fits { fault_of (state_of self.old).connections (happening_of happening) ≡ None }
        ensures accepts { IfOk result (λ reaction. (effect : Effect C)
            × Accepts (theory_of C.path_of C.conduct W.draws) (state_of self.old) (happening_of happening.entry) effect (state_of self.new)
            × (reaction ≡ shown effect) × (self.new.accesses.items ≡ logged self.old.logs effect.accesses)) }
        ensures kept { self.new.logs ≡ self.old.logs }
        ensures refused { IfErr result (λ _. self.new.accesses ≡ self.old.accesses) }
        ensures breaks { IfErr result (λ _. (told : List Entry) × (contexts : List C) × (given : List (Given C))
            × ExpiresAll C.conduct (state_of self.old).world.contexts (moment_after (state_of self.old).moment (happening_of happening.entry)) told contexts
            × BreaksOff (theory_of C.path_of C.conduct W.draws)
            (settled_at (moment_after (state_of self.old).moment (happening_of happening.entry)) contexts (state_of self.old))
            (happening_of happening.entry) given (state_of self.new).world) }
        ensures moves { IfErr result (λ _. MovesAll C.conduct (state_of self.old).world.contexts (state_of self.new).world.contexts) }
        ensures alters { AltersAll C.conduct (state_of self.old).world.contexts (state_of self.new).world.contexts }
    {
        let mut output = self.output();
        let moment = moment_after(self.date.moment(), happening);
        self.date.set(moment);
        self.contexts
            .expire_all(self.alloc, moment, &mut output.journal);
        if !output.journal.whole() {
            return Err(NoMemory);
        }
        let Ok(()) = self.happen(happening, &mut output) else {
            return Err(NoMemory);
        };
        let (reaction, accesses) = output.into_parts();
        self.accesses = accesses;
        Ok(reaction)
    }

    // Returns the empty output of an event.
    fn output(&self) -> Output
        ensures { growth_of result ≡ record { sends = []; closes = false; journal = new_journal; edited = None; logs = self.now.logs; accesses = [] } }
    {
        let room = self.spare.take_room(self.alloc);
        Output::new(
            self.alloc,
            room,
            self.spare.take_journal(self.alloc),
            self.logs,
        )
    }

    /// Reclaims the memory of an earlier event's bytes and journal, which the caller no longer needs. Later events
    /// reuse it. Only small buffers are kept.
    pub fn recycle(&self, room: Vec<u8>, journal: Journal) {
        self.spare.keep(room, journal);
    }

    // Lets the event itself happen, at its time.
    fn happen(&mut self, happening: Happening, output: &mut Output) -> Result<(), NoMemory>
        requires fits { fault_of (state_of self.old).connections (happening_of happening) ≡ None }
        requires unclosed { output.old.closes ≡ false }
        ensures happens { IfOk result (λ _. (effect : Effect C)
            × Happens (theory_of C.path_of C.conduct W.draws) (state_of self.old) (happening_of happening.entry) effect (state_of self.new)
            × Adds output.old effect output.new) }
        ensures breaks { IfErr result (λ _. (given : List (Given C))
            × BreaksOff (theory_of C.path_of C.conduct W.draws) (state_of self.old) (happening_of happening.entry) given (state_of self.new).world) }
        ensures moves { IfErr result (λ _. MovesAll C.conduct (state_of self.old).world.contexts (state_of self.new).world.contexts) }
        ensures alters { AltersAll C.conduct (state_of self.old).world.contexts (state_of self.new).world.contexts }
        ensures kept { (self.new.logs ≡ self.old.logs) × (self.new.accesses ≡ self.old.accesses) }
    {
        match happening {
            Happening::Opened { connection } => self.connections.open(connection),
            Happening::Piece {
                connection,
                bytes,
                ..
            } => self.take_piece(connection, bytes, output),
            Happening::Ended { connection } => {
                self.connections.forget(connection);
                output.closes = true;
                Ok(())
            }
            Happening::Lost { connection } => {
                self.connections.forget(connection);
                Ok(())
            }
            Happening::Tick { .. } => Ok(()),
            Happening::Edit { context, edit } => self.edit(context, edit, output),
        }
    }

    // Edits the constraints of the context that has the path.
    fn edit(&mut self, path: &str, edit: &Edit, output: &mut Output) -> Result<(), NoMemory>
        ensures edits { IfOk result (λ _. (effect : Effect C)
            × EditsContext (theory_of C.path_of C.conduct W.draws) (state_of self.old) path.now edit.now effect (state_of self.new)
            × Adds output.old effect output.new) }
        ensures refused { IfErr result (λ _. (state_of self.new).world ≡ (state_of self.old).world) }
        ensures moves { IfErr result (λ _. MovesAll C.conduct (state_of self.old).world.contexts (state_of self.new).world.contexts) }
        ensures alters { AltersAll C.conduct (state_of self.old).world.contexts (state_of self.new).world.contexts }
        ensures kept { (self.new.logs ≡ self.old.logs) × (self.new.accesses ≡ self.old.accesses) }
    {
        let Ok(told) = told_of(self.contexts.edit::<W>(self.alloc, path, edit)) else {
            return Err(NoMemory);
        };
        output.tell_edited::<C>(told);
        Ok(())
    }

    // Reads a piece of a connection and handles the items that it completes. After an item that closes the connection,
    // nothing more is read.
    fn take_piece(&mut self, number: u64, piece: &[u8], output: &mut Output) -> Result<(), NoMemory>
        requires known { IsSome ((state_of self.old).connections.held number) }
        requires unclosed { output.old.closes ≡ false }
        ensures takes { IfOk result (λ _. (effect : Effect C)
            × TakesPiece (theory_of C.path_of C.conduct W.draws) (state_of self.old) number piece.now effect (state_of self.new)
            × Adds output.old effect output.new) }
        ensures breaks { IfErr result (λ _. (given : List (Given C))
            × (DoesNothing (state_of self.old).world given (state_of self.new).world
            ⊎ BreaksPiece (theory_of C.path_of C.conduct W.draws) (state_of self.old) number piece.now given (state_of self.new).world)) }
        ensures moves { MovesAll C.conduct (state_of self.old).world.contexts (state_of self.new).world.contexts }
        ensures kept { (self.new.logs ≡ self.old.logs) × (self.new.accesses ≡ self.old.accesses) }
    {
        self.connections.feed(number, piece, &mut self.items)?;
        take_items::<C, W>(
            self.alloc,
            &mut self.contexts,
            &mut self.words,
            &self.date,
            &mut self.items,
            output,
        )?;
        if !output.closes {
            return Ok(());
        }
        self.connections.close(number);
        Ok(())
    }
}

impl<C: HasContextPath, W: Drop> Host<C, W> {
    /// Returns the contexts in order. It does not allocate.
    pub fn into_contexts(self) -> Vec<C>
        ensures { result.items ≡ (state_of self).world.contexts }
    {
        let Host { contexts, .. } = self;
        contexts.into_vec()
    }
}
