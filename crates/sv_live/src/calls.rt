//! Calls of components by index. The journal takes an entry after each call.

ghost use Rattle.sv_component.specs.Steps.{steps_of};
ghost use Rattle.std.specs.Prelude.{length};
ghost use Rattle.sv_component.specs.Runs.{Moves, Runs};
ghost use Rattle.sv_listeners.specs.Telling.{told};
ghost use Rattle.sv_live.specs.Calls.{destroyed, init_record};
ghost use Rattle.sv_live.specs.World.{HasSameCounts, IsPlaceIn, world};

use crate::live::Parts;
use std::alloc::Global;
use sv_component::{Config, Event, Filter, Init, Listener, Servlet, init_answer};
use sv_journal::{CallName, Entry, Journal, Place};

impl<S: Servlet, F: Filter, L: Listener> Parts<S, F, L> {
    /// Notifies each listener of the event.
    pub fn tell(&mut self, alloc: Global, context: &str, event: &Event, journal: &mut Journal)
        ensures made { Runs (steps_of S.servlet_step F.filter_step L.listener_step)
            (world context.now self.old journal.old) (told event.now (length self.old.listeners.items)) (world context.now self.new journal.new) }
        ensures counts { HasSameCounts self.old self.new }
    {
        sv_listeners::tell(
            alloc,
            context,
            self.listeners.as_mut_slice(),
            event,
            journal,
        );
    }

    /// Initializes the component at this place.
    pub fn init(
        &mut self,
        alloc: Global,
        context: &str,
        place: Place,
        config: &Config,
        journal: &mut Journal,
    ) -> Init
        requires { IsPlaceIn self.old place }
        ensures moves { Moves (steps_of S.servlet_step F.filter_step L.listener_step)
            (world context.now self.old journal.old) (init_record place config.now result) (world context.now self.new journal.new) }
        ensures counts { HasSameCounts self.old self.new }
    {
        match place {
            Place::Filter(place) => {
                let named = &mut self.filters[place];
                let answer = named.component.init(alloc, config);
                let noted = Ok(Some(init_answer(answer)));
                let name = named.name.as_str();
                journal.note(Entry::of_filter(alloc, context, name, CallName::Init, noted));
                answer
            }
            Place::Servlet(place) => {
                let named = &mut self.servlets[place];
                let answer = named.component.init(alloc, config);
                let noted = Ok(Some(init_answer(answer)));
                let name = named.name.as_str();
                journal.note(Entry::of_servlet(alloc, context, name, CallName::Init, noted));
                answer
            }
        }
    }

    /// Destroys the component at this place.
    pub(crate) fn destroy(
        &mut self,
        alloc: Global,
        context: &str,
        place: Place,
        journal: &mut Journal,
    )
        requires { IsPlaceIn self.old place }
        ensures moves { Moves (steps_of S.servlet_step F.filter_step L.listener_step)
            (world context.now self.old journal.old) (destroyed place) (world context.now self.new journal.new) }
        ensures counts { HasSameCounts self.old self.new }
    {
        match place {
            Place::Filter(place) => {
                let named = &mut self.filters[place];
                named.component.destroy();
                let name = named.name.as_str();
                journal.note(Entry::of_filter(alloc, context, name, CallName::Destroy, Ok(None)));
            }
            Place::Servlet(place) => {
                let named = &mut self.servlets[place];
                named.component.destroy();
                let name = named.name.as_str();
                journal.note(Entry::of_servlet(alloc, context, name, CallName::Destroy, Ok(None)));
            }
        }
    }
}
