//! Initializing the components of a context.

ghost use Rattle.sv_component.specs.Steps.{steps_of};
ghost use Rattle.std.specs.Prelude.{◌≡◌, ◌+◌, ◌<◌, length, map, replicate, slice_set, if◌then◌else◌};
ghost use Rattle.std.specs.List.{All};
ghost use Rattle.sv_descriptor.specs.declared.web_app.WebApp.{WebApp};
ghost use Rattle.sv_lifecycle.specs.Begins.{Begins, HasStanding, with_answer};
ghost use Rattle.sv_lifecycle.specs.Calls.{config_at, is_ready, lets_go_on};
ghost use Rattle.sv_live.specs.World.{HasSameCounts, IsPlaceIn};
ghost use Rattle.sv_component.specs.declared.standing.Standing.TheVariants as standings;

use crate::plan::Plan;
use std::alloc::Global;
use sv_component::{Filter, Init, Listener, Servlet, Standing};
use sv_journal::Journal;
use sv_live::{Parts, Place};

/// A component whose `init` was called, with the result. The contract of a start lists them.
#[derive(Clone, Copy)]
pub struct Answered {
    /// The component.
    pub place: Place,
    /// The result of its `init`.
    pub answer: Init,
}

/// The progress of a start.
#[derive(Clone, Copy)]
pub(crate) struct Begun {
    /// The number of initialized components, which come first in the plan's order.
    pub initialised: usize,
    /// The component that stopped the start, if any.
    pub stopper: Option<Answered>,
}

/// Initializes the components in the plan's order, until one stops the start or the journal breaks.
pub(crate) fn begin_all<S: Servlet, F: Filter, L: Listener>(
    alloc: Global,
    parts: &mut Parts<S, F, L>,
    plan: &mut Plan,
    journal: &mut Journal,
) -> Begun
    requires there { All (IsPlaceIn parts.old) plan.old.order.items }
    requires configs { length plan.old.configs.items ≡ length plan.old.order.items }
    requires standings { plan.old.standings.items ≡ replicate (length parts.old.servlets.items) standings.Serving }
    ensures begins { (app : WebApp) → plan.old.configs.items ≡ map (config_at app) plan.old.order.items
        → Begins (steps_of S.servlet_step F.filter_step L.listener_step) app parts.old plan.old journal.old result parts.new plan.new journal.new }
    ensures counts { HasSameCounts parts.old parts.new }
{
    let mut initialised = 0;
    for step in 0..plan.order.len() {
        if !journal.whole() {
            return Begun {
                initialised,
                stopper: None,
            };
        }
        let place = plan.order[step];
        let answer = parts.init(
            alloc,
            plan.context.as_str(),
            place,
            &plan.configs[step],
            journal,
        );
        if !lets_go_on(place, answer) {
            return Begun {
                initialised,
                stopper: Some(Answered { place, answer }),
            };
        }
        initialised = plan.keep(initialised, place, answer);
    }
    Begun {
        initialised,
        stopper: None,
    }
}

// Returns whether the start continues after this result.
fn lets_go_on(place: Place, answer: Init) -> bool
    ensures { result ≡ lets_go_on place answer }
{
    match answer {
        Init::Ready => true,
        Init::Unavailable => match place {
            Place::Servlet(_) => true,
            Place::Filter(_) => false,
        },
        Init::Failed => false,
        Init::NoMemory => false,
    }
}

impl Plan {
    // Moves an initialized component to the end of those before it, and marks an unavailable servlet as gone. Returns
    // the number of initialized components.
    fn keep(&mut self, initialised: usize, place: Place, answer: Init) -> usize
        requires room { initialised < length self.old.order.items }
        requires there { HasStanding (length self.old.standings.items) place }
        ensures count { result ≡ (if is_ready answer then initialised + 1 else initialised) }
        ensures order { self.new.order.items ≡ (if is_ready answer then slice_set self.old.order.items initialised place else self.old.order.items) }
        ensures standings { self.new.standings.items ≡ with_answer self.old.standings.items place answer }
        ensures configs { self.new.configs ≡ self.old.configs }
        ensures context { self.new.context ≡ self.old.context }
    {
        match answer {
            Init::Ready => {
                self.order[initialised] = place;
                initialised + 1
            }
            Init::Unavailable => {
                match place {
                    Place::Servlet(servlet) => self.standings[servlet] = Standing::Gone,
                    Place::Filter(_) => {}
                }
                initialised
            }
            Init::Failed => initialised,
            Init::NoMemory => initialised,
        }
    }
}
