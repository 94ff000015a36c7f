//! Starting a context.

ghost use Rattle.sv_component.specs.Steps.{steps_of};
ghost use Rattle.std.specs.Prelude.{◌≡◌};
ghost use Rattle.sv_descriptor.specs.declared.web_app.WebApp.{WebApp as AppData};
ghost use Rattle.sv_lifecycle.specs.Fit.{Fits};
ghost use Rattle.sv_lifecycle.specs.Plan.{IsPlan};
ghost use Rattle.sv_lifecycle.specs.Starting.{Starts, code_at, code_of};

use crate::begin::{Answered, begin_all};
use crate::fit::fits;
use crate::plan::Plan;
use crate::start_fault::StartFault;
use std::alloc::Global;
use sv_component::{Event, Filter, Init, Listener, Servlet};
use sv_descriptor::Descriptor;
use sv_journal::{Journal, StartCode};
use sv_live::{Live, Parts, Place, end_all};
use sv_session::Sessions;

/// Starts a context. The listeners are notified first, then the filters are initialized in descriptor order, and then
/// the servlets in load-on-startup order (Jakarta Servlet 6.0, sections 2.3.1, 6.2.1 and 14.4). A start that fails
/// after its first call is undone.
///
/// # Errors
/// [`StartCode`] with all components.
pub fn start<S: Servlet, F: Filter, L: Listener>(
    alloc: Global,
    context: &str,
    parts: Parts<S, F, L>,
    descriptor: &Descriptor,
    journal: &mut Journal,
) -> Result<Live<S, F, L>, StartFault<S, F, L>>
    ensures { Starts (steps_of S.servlet_step F.filter_step L.listener_step) context.now descriptor.now parts journal.old result journal.new }
{
    let app = descriptor.web_app();
    if !fits(app, &parts) {
        return Err(StartFault {
            code: StartCode::PartsMismatch,
            parts,
        });
    }
    if !journal.whole() {
        return Err(StartFault {
            code: StartCode::NoMemory,
            parts,
        });
    }
    match Plan::of(alloc, context, app) {
        Ok(plan) => run(alloc, parts, plan, journal),
        Err(_) => Err(StartFault {
            code: StartCode::NoMemory,
            parts,
        }),
    }
}

// Starts the components of a plan, or undoes the start.
fn run<S: Servlet, F: Filter, L: Listener>(
    alloc: Global,
    parts: Parts<S, F, L>,
    plan: Plan,
    journal: &mut Journal,
) -> Result<Live<S, F, L>, StartFault<S, F, L>>
    requires { (app : AppData) × Fits app parts × IsPlan plan.context app plan }
    ensures { (app : AppData) → Fits app parts → IsPlan plan.context app plan
        → Starts (steps_of S.servlet_step F.filter_step L.listener_step) plan.context app parts journal.old result journal.new }
{
    let mut parts = parts;
    let mut plan = plan;
    parts.tell(
        alloc,
        plan.context.as_str(),
        &Event::ContextInitialized,
        journal,
    );
    let begun = begin_all(alloc, &mut parts, &mut plan, journal);
    let Plan {
        context,
        mut order,
        standings,
        ..
    } = plan;
    order.truncate(begun.initialised);
    if begun.stopper.is_none() && journal.whole() {
        return Ok(Live::new(context, parts, order, standings));
    }
    let mut no_sessions = Sessions::new(alloc, 0, 0);
    end_all(
        alloc,
        context.as_str(),
        &mut parts,
        order.as_slice(),
        &mut no_sessions,
        journal,
    );
    let code = code_of(begun.stopper, journal.whole());
    Err(StartFault { code, parts })
}

// Returns the reason for an undone start: that of the component that stopped it, unless the journal is broken.
fn code_of(stopper: Option<Answered>, whole: bool) -> StartCode
    ensures { result ≡ code_of stopper whole }
{
    match stopper {
        Some(Answered { place, answer }) if whole => code_at(place, answer),
        Some(_) => StartCode::NoMemory,
        None => StartCode::NoMemory,
    }
}

// Returns the reason for a start that the component at a place stopped with this result.
fn code_at(place: Place, answer: Init) -> StartCode
    ensures { result ≡ code_at place answer }
{
    match answer {
        Init::NoMemory => StartCode::NoMemory,
        Init::Ready => StartCode::InitFailed(place),
        Init::Unavailable => StartCode::InitFailed(place),
        Init::Failed => StartCode::InitFailed(place),
    }
}
