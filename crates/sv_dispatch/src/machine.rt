//! The elementary steps of a dispatch: one method for each step of the model.

use crate::parts::ErrorField;
use bytes::Bytes;
use sv_component::{Gate, Standing, Step};
use sv_mapping::Kind;
use sv_text::NoMemory;
use sv_tree::Chosen;
use sv_uri::path::Canon;

/// The exchange of a request, with the components of its context and their journal. The contracts of all functions that
/// make a dispatch (`Did state frame ran ..` of `dispatch_by` and what it calls) hold of every machine: they speak only of
/// its state, its frame and the runs of its calls. So the recursion over turns and nested dispatches is proved without
/// the steps of servlets, filters and listeners, and only `Running` relates those steps to the calls.
pub(crate) trait Machine: Sized {
    ghost use Rattle.std.specs.Prelude.{◌≡◌, ◌<◌, List, Some, false, length};
    ghost use Rattle.sv_component.specs.Runs.{Record};
    ghost use Rattle.sv_dispatch.specs.Did.{Did, Frame, seen};
    ghost use Rattle.sv_dispatch.specs.Seen.{IsHere, field_of, offers};
    ghost use Rattle.sv_exchange.specs.Changing.{SetHeader, SetStatus};
    ghost use Rattle.sv_exchange.specs.Dispatches.{is_within_include};
    ghost use Rattle.sv_tree.specs.Seen.{chosen_seen};
    ghost use Rattle.sv_tree.specs.Asking.{asks};
    ghost use Rattle.sv_tree.specs.Does.{becomes, leaves, makes, tries};
    ghost use Rattle.sv_tree.specs.Endings.{keeps};
    ghost use Rattle.sv_tree.specs.Files.{emptied};
    ghost use Rattle.sv_tree.specs.Filters.{after_of, before_of};
    ghost use Rattle.sv_tree.specs.Site.{begun_by};
    ghost use Rattle.sv_tree.specs.State.{State, away_for, counted, is_full, on_exchange, standing_at};
    ghost use Rattle.sv_tree.specs.Tree.{destroys, service_of};

    /// The state that dispatches see and change.
    ghost state: { Self → State };

    /// The part that dispatches do not change.
    ghost frame: { Self → Frame };

    /// These calls led from one machine to another, and each was made and logged.
    ghost ran: { Self → List Record → Self → Type 0 };

    fn is_committed(&self) -> bool
        ensures { result ≡ (state self.now).exchange.committed };

    /// Returns whether an include is active, at any depth.
    fn is_within_include(&self) -> bool
        ensures { result ≡ is_within_include (state self.now).exchange };

    /// Returns whether the request has used up its calls.
    fn is_full(&self) -> bool
        ensures { result ≡ is_full (state self.now) };

    fn moment(&self) -> u64
        ensures { result ≡ (state self.now).exchange.moment };

    fn method(&self) -> &str
        ensures { result.now ≡ (state self.now).exchange.method };

    /// Returns the state of the servlet at the exchange's time.
    fn standing(&self, place: usize) -> Standing
        requires { place < (frame self.now).servlets }
        ensures { result ≡ standing_at (state self.now).exchange.moment place (state self.now).standings };

    /// Begins a dispatch.
    fn enter(&mut self, kind: Kind, chosen: &Chosen, canon: &Canon) -> Result<(), NoMemory>
        ensures { Did state frame ran (tries (on_exchange (begun_by (chosen_seen chosen.now) kind canon.now))) self.old self.new (seen result) };

    /// Ends the innermost dispatch.
    fn leave(&mut self)
        requires { 0 < length (state self.old).exchange.dispatches }
        ensures { Did state frame ran leaves self.old self.new (Some tt) };

    /// Counts a call.
    fn count(&mut self)
        requires { is_full (state self.old) ≡ false }
        ensures { Did state frame ran (becomes counted) self.old self.new (Some tt) };

    /// Stores an error for the response.
    fn keep_error(
        &mut self,
        status: u16,
        text: &str,
        servlet: &str,
        field: ErrorField,
    ) -> Result<(), NoMemory>
        ensures { Did state frame ran (keeps (record { status = status; text = text.now; servlet = Some servlet.now; field = field_of field }))
            self.old self.new (seen result) };

    fn set_status(&mut self, status: u16) -> Result<(), NoMemory>
        ensures { Did state frame ran (makes (SetStatus status)) self.old self.new (seen result) };

    fn set_header(&mut self, name: &str, value: &str) -> Result<(), NoMemory>
        ensures { Did state frame ran (makes (SetHeader name.now value.now)) self.old self.new (seen result) };

    /// Writes the bytes if the body has room for them, and returns whether it has.
    fn offer(&mut self, bytes: &Bytes) -> Result<bool, NoMemory>
        ensures { Did state frame ran (offers bytes.now) self.old self.new (seen result) };

    /// Discards the body written so far, unless the response is committed.
    fn empty(&mut self)
        ensures { Did state frame ran (becomes (on_exchange emptied)) self.old self.new (Some tt) };

    fn before(&mut self, place: usize) -> Result<Gate, NoMemory>
        requires { place < (frame self.old).filters }
        ensures { Did state frame ran (asks (frame self.old).listeners (before_of place)) self.old self.new (seen result) };

    /// Returns `false` if the filter ran out of memory.
    fn after(&mut self, place: usize) -> Result<bool, NoMemory>
        requires { place < (frame self.old).filters }
        ensures { Did state frame ran (asks (frame self.old).listeners (after_of place)) self.old self.new (seen result) };

    fn service(&mut self, place: usize, turn: u32) -> Result<Step, NoMemory>
        requires there { place < (frame self.old).servlets }
        requires here { IsHere place (state self.old) }
        ensures { Did state frame ran (asks (frame self.old).listeners (service_of place turn)) self.old self.new (seen result) };

    /// Destroys the servlet, which is then gone.
    fn retire(&mut self, place: usize) -> Result<(), NoMemory>
        requires there { place < (frame self.old).servlets }
        requires here { IsHere place (state self.old) }
        ensures { Did state frame ran (destroys place) self.old self.new (seen result) };

    /// Makes the servlet unavailable for this many seconds from the exchange's time.
    fn away(&mut self, place: usize, seconds: u32)
        requires there { place < (frame self.old).servlets }
        requires here { IsHere place (state self.old) }
        ensures { Did state frame ran (becomes (away_for place seconds)) self.old self.new (Some tt) };
}
