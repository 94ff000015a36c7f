//! A dispatch over a started context.

ghost use Rattle.sv_component.specs.Steps.{steps_of};
ghost use Rattle.std.specs.Prelude.{◌≡◌, OnOk, false, length, true};
ghost use Rattle.sv_dispatch.specs.Did.{seen};
ghost use Rattle.sv_dispatch.specs.Dispatched.{Dispatched, Refused};
ghost use Rattle.sv_tree.specs.SiteOfDescriptor.{site_of};

use crate::dispatcher::dispatch_by;
use crate::live_machine::Running;
use std::alloc::Global;
use sv_component::{Exchange, Filter, Listener, Servlet};
use sv_journal::Journal;
use sv_live::Live;
use sv_mapping::Kind;
use sv_text::NoMemory;
use sv_tree::{Finished, MAX_NESTING, Site};
use sv_uri::path::Canon;

/// Dispatches an exchange to a path within the context: the filters, then the servlet or the file servlet, and the
/// dispatches that they request (Jakarta Servlet 6.0, chapters 6 and 9). Each call of a component is logged in the
/// journal, and the listeners are then notified of its session events (section 11.3). An error or a failure of the
/// dispatch is stored in the exchange. The context must have as many servlets, filters and listeners as the site's
/// descriptor, as it does if it was started with it.
///
/// # Errors
/// `NoMemory` if memory runs out or the journal breaks: calls that were made are not undone, and the current dispatches
/// stay open. If the journal was broken before, nothing is called, and nothing changes.
pub fn dispatch<'a, S: Servlet, F: Filter, L: Listener>(
    alloc: Global,
    live: &'a mut Live<S, F, L>,
    exchange: &'a mut Exchange,
    site: &mut Site,
    kind: Kind,
    canon: &Canon,
    journal: &'a mut Journal,
) -> Result<Finished, NoMemory>
    requires servlets { length live.old.parts.servlets.items ≡ length site.old.app.servlets }
    requires filters { length live.old.parts.filters.items ≡ length site.old.app.filters }
    requires listeners { length live.old.parts.listeners.items ≡ length site.old.app.listeners }
    ensures does { Dispatched (steps_of S.servlet_step F.filter_step L.listener_step) (site_of site.old) kind canon.now
        live.old exchange.old journal.old (seen result) live.new exchange.new journal.new }
    ensures broken { journal.old.whole ≡ false → Refused live.old exchange.old journal.old (seen result) live.new exchange.new journal.new }
    ensures whole { OnOk result (journal.new.whole ≡ true) }
    ensures site { site.new ≡ site.old }
{
    if !journal.whole() {
        return Err(NoMemory);
    }
    let mut machine = Running::over(alloc, live, exchange, journal);
    run(&mut machine, site, kind, canon)
}

// Runs the dispatch. The contract of `dispatch_by` holds of any machine. This one states it for a started context, and
// that the machine still holds the values lent to it.
fn run<S: Servlet, F: Filter, L: Listener>(
    machine: &mut Running<'_, S, F, L>,
    site: &mut Site,
    kind: Kind,
    canon: &Canon,
) -> Result<Finished, NoMemory>
    requires servlets { length machine.old.live.now.parts.servlets.items ≡ length site.old.app.servlets }
    requires filters { length machine.old.live.now.parts.filters.items ≡ length site.old.app.filters }
    requires listeners { length machine.old.live.now.parts.listeners.items ≡ length site.old.app.listeners }
    requires whole { machine.old.journal.now.whole ≡ true }
    ensures made { Dispatched (steps_of S.servlet_step F.filter_step L.listener_step) (site_of site.old) kind canon.now
        machine.old.live.now machine.old.exchange.now machine.old.journal.now (seen result)
        machine.new.live.now machine.new.exchange.now machine.new.journal.now }
    ensures whole { OnOk result (machine.new.journal.now.whole ≡ true) }
    ensures live { machine.new.live.ghost_name ≡ machine.old.live.ghost_name }
    ensures exchange { machine.new.exchange.ghost_name ≡ machine.old.exchange.ghost_name }
    ensures journal { machine.new.journal.ghost_name ≡ machine.old.journal.ghost_name }
    ensures site { site.new ≡ site.old }
{
    dispatch_by(machine.alloc, machine, site, MAX_NESTING - 1, kind, canon)
}

impl<'a, S, F, L> Running<'a, S, F, L> {
    // Creates the machine over these parts.
    fn over(
        alloc: Global,
        live: &'a mut Live<S, F, L>,
        exchange: &'a mut Exchange,
        journal: &'a mut Journal,
    ) -> Running<'a, S, F, L>
        ensures live { (result.live.ghost_name ≡ live.entry.ghost_name) × (result.live.now ≡ live.old) }
        ensures exchange { (result.exchange.ghost_name ≡ exchange.entry.ghost_name) × (result.exchange.now ≡ exchange.old) }
        ensures journal { (result.journal.ghost_name ≡ journal.entry.ghost_name) × (result.journal.now ≡ journal.old) }
    {
        Running {
            alloc,
            live,
            exchange,
            journal,
        }
    }
}
