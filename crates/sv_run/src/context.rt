//! The traits that a container requires of a context and of a source of random words.

ghost use Rattle.http.specs.StatusCode.{IsStatusCode};
ghost use Rattle.std.specs.Prelude.{Err, IfErr, IfOk, IsTrue, List, true, ℕ, ◌≡◌};
ghost use Rattle.sv_journal.specs.declared.entry.Entry.{Entry};
ghost use Rattle.sv_mapping.specs.Pattern.{is_at_or_below};
ghost use Rattle.sv_policy.specs.declared.edit_fault.EditFault.TheVariants as fault;
ghost use Rattle.sv_run.specs.Contexts.{Conduct, request_of};
ghost use Rattle.sv_run.specs.Effect.{noting};
ghost use Rattle.sv_run.specs.Events.{ExpiresAll, MovesAll};
ghost use Rattle.sv_run.specs.Lawful.{EditsAlone, IsMotion, KeepsPath};

use std::alloc::Global;
use sv_journal::Journal;
use sv_mapping::HasContextPath;
use sv_message::{Message, Response};
use sv_policy::{Edit, EditFault};
use sv_text::NoMemory;
use sv_uri::path::Canon;

/// A deployed context, which handles requests. The laws of runs refer to its behavior, its [`conduct`](crate).
pub trait Context: HasContextPath + Sized {
    ghost conduct: { Conduct Self };

    /// Handles a message whose target has the canonical path `canon`, which the context serves. `moment` is the
    /// container's time, and `words` are the random words of this message. The context may move parts out of the
    /// message, so that it need not copy them; the message is unspecified afterwards.
    ///
    /// # Errors
    /// `NoMemory` if an allocation fails or a component runs out of memory. The handling is cut short, and the context
    /// can then only be undeployed.
    fn handle(
        &mut self,
        alloc: Global,
        message: &mut Message,
        canon: &Canon,
        moment: u64,
        words: (u64, u64),
        journal: &mut Journal,
    ) -> Result<Response, NoMemory>
        requires { IsTrue (is_at_or_below (Self.path_of self.old) canon.now.path) }
        ensures handles { IfOk result (λ response. (entries : List Entry)
            × conduct.Handles (record {
              context = self.old;
              request = request_of message.old canon.now moment words;
              entries = entries;
              response = response;
              after = self.new;
            })
            × (journal.new ≡ noting entries journal.old)) }
        ensures status { IfOk result (λ response. IsStatusCode response.status) }
        ensures cut_short { IfErr result (λ _. conduct.CutsShort self.old (request_of message.old canon.now moment words) self.new) }
        ensures moves { conduct.Moves self.old self.new };

    /// Returns the number of the user who is logged in to the session that a message's cookies name, if any.
    fn caller(&self, message: &Message) -> Option<u32>
        ensures { result ≡ conduct.caller_of self.now message.now };

    /// Reclaims the memory of a response that has been written.
    fn recycle(&mut self, response: Response)
        ensures { self.new ≡ self.old };

    /// Ends the sessions that have expired at `moment`. It allocates only for the journal, and ends the sessions even
    /// if the journal runs out of memory.
    fn expire(&mut self, alloc: Global, moment: u64, journal: &mut Journal)
        ensures expires { (told : List Entry) × conduct.Expires self.old moment told self.new
            × (journal.new.whole ≡ true → journal.new ≡ noting told journal.old) }
        ensures moves { conduct.Moves self.old self.new };

    /// Edits the constraints, and returns the number of the constraint that was appended or withdrawn. The constraints
    /// then in force decide the next request. The edit calls no component and notifies no listener.
    ///
    /// # Errors
    /// The first [`EditFault`] that applies. The context is unchanged.
    fn edit(&mut self, alloc: Global, edit: &Edit) -> Result<u64, EditFault>
        ensures edits { conduct.Edits self.old edit.now result self.new }
        ensures refused { result ≡ Err fault.NoMemory → self.new ≡ self.old };

    ghost is_motion: { IsMotion conduct };

    ghost keeps_path: { KeepsPath Self.path_of conduct };

    ghost edits_alone: { EditsAlone Self.path_of conduct };
}

/// A source of random words.
pub trait Words {
    ghost draws: { Self → ℕ × ℕ → Self → Type 0 };

    /// Returns the next pair of words. It does not allocate.
    fn pair(&mut self) -> (u64, u64)
        ensures { draws self.old result self.new };
}

/// Ends the sessions that have expired at `moment`, context by context. It allocates only for the journal, and ends the
/// sessions even if the journal runs out of memory.
#[inline(always)]
pub fn expire_all<C: Context>(alloc: Global, contexts: &mut [C], moment: u64, journal: &mut Journal)
    ensures expires { (told : List Entry) × ExpiresAll C.conduct contexts.old moment told contexts.new
        × (journal.new.whole ≡ true → journal.new ≡ noting told journal.old) }
    ensures moves { MovesAll C.conduct contexts.old contexts.new }
{
    for place in 0..contexts.len() {
        contexts[place].expire(alloc, moment, journal);
    }
}
