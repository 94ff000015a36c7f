//! The output of an event so far.

ghost use Rattle.std.specs.Prelude.{◌≡◌, ◌++◌, ◌∷◌, OnOk, false, [], None};
ghost use Rattle.sv_run.specs.Output.{Adds, growth_of, reaction_in};
ghost use Rattle.sv_journal.specs.Journal.{new_journal};
ghost use Rattle.sv_run.specs.Effect.{editing};

use crate::access::Access;
use crate::happening::Reaction;
use std::alloc::Global;
use sv_journal::Journal;
use sv_message::Segments;
use sv_policy::EditFault;
use sv_text::NoMemory;

/// A growing reaction with the accesses of its messages, if a log wants them, and a buffer for its bytes with unspecified
/// contents.
#[derive(Drop)]
pub struct Output {
    pub(crate) room: Vec<u8>,
    pub(crate) sends: Segments,
    pub(crate) closes: bool,
    pub(crate) journal: Journal,
    pub(crate) edited: Option<Result<u64, EditFault>>,
    pub(crate) logs: bool,
    pub(crate) accesses: Vec<Access>,
}

impl Output {
    /// Creates an empty output with a buffer and an empty journal. It does not allocate.
    pub fn new(alloc: Global, room: Vec<u8>, journal: Journal, logs: bool) -> Output
        requires { journal ≡ new_journal }
        ensures { growth_of result ≡ record { sends = []; closes = false; journal = new_journal; edited = None; logs = logs; accesses = [] } }
    {
        Output {
            room,
            sends: Segments::new(alloc),
            closes: false,
            journal,
            edited: None,
            logs,
            accesses: Vec::new(alloc),
        }
    }

    /// Reports the answer to an edit. If an answer is present already, that one stays.
    pub(crate) fn tell_edited<C>(&mut self, answer: Result<u64, EditFault>)
        ensures { Adds {Context = C} self.old (editing answer) self.new }
    {
        self.edited = self.edited.or(Some(answer));
    }

    /// Adds the access of a message.
    pub(crate) fn log(&mut self, access: Access) -> Result<(), NoMemory>
        ensures { OnOk result (growth_of self.new ≡ record (growth_of self.old) { accesses = self.old.accesses.items ++ access ∷ [] }) }
    {
        self.accesses.push(access)?;
        Ok(())
    }

    /// Returns the finished reaction, and the accesses.
    pub fn into_parts(self) -> (Reaction, Vec<Access>)
        ensures reaction { result.0 ≡ reaction_in (growth_of self) }
        ensures accesses { result.1.items ≡ self.accesses.items }
    {
        let Output {
            sends,
            closes,
            journal,
            edited,
            accesses,
            ..
        } = self;
        let reaction = Reaction {
            sends,
            closes,
            journal,
            edited,
        };
        (reaction, accesses)
    }
}
