//! Responses to requests.

ghost use Rattle.sv_component.specs.Steps.{steps_of};
ghost use Rattle.std.specs.Prelude.{◌≡◌, OnOk, false, length, true};
ghost use Rattle.sv_dispatch.specs.Did.{seen};
ghost use Rattle.sv_dispatch.specs.Dispatched.{Refused};
ghost use Rattle.sv_dispatch.specs.ServedBy.{ServedBy};
ghost use Rattle.sv_tree.specs.SiteOfDescriptor.{site_of};
ghost use Rattle.sv_tree.specs.Served.{Served, Settled};

use crate::live_dispatch::dispatch;
use crate::pages::show_kept;
use std::alloc::Global;
use sv_component::{Exchange, Filter, Listener, Servlet};
use sv_journal::Journal;
use sv_live::Live;
use sv_mapping::Kind;
use sv_text::NoMemory;
use sv_tree::{Finished, INTERNAL_SERVER_ERROR, Site};
use sv_uri::path::Canon;

/// Answers a request by a dispatch of this kind to a path within the context. An error or failure is answered by its
/// page if there is one, or in plain text; a committed response is truncated (Jakarta Servlet 6.0, sections 9.5 and
/// 10.9). Each call of a component is logged in the journal. The context must have as many servlets, filters and
/// listeners as the site's descriptor, as it does if it was started with it.
///
/// # Errors
/// `NoMemory` if memory runs out or the journal breaks: calls that were made are not undone, and the current dispatches
/// stay open. If the journal was broken before, nothing is called, and nothing changes.
#[inline(always)]
pub fn serve<S: Servlet, F: Filter, L: Listener>(
    alloc: Global,
    live: &mut Live<S, F, L>,
    exchange: &mut Exchange,
    site: &mut Site,
    kind: Kind,
    canon: &Canon,
    journal: &mut Journal,
) -> Result<(), NoMemory>
    requires servlets { length live.old.parts.servlets.items ≡ length site.old.app.servlets }
    requires filters { length live.old.parts.filters.items ≡ length site.old.app.filters }
    requires listeners { length live.old.parts.listeners.items ≡ length site.old.app.listeners }
    ensures does { ServedBy (steps_of S.servlet_step F.filter_step L.listener_step) (Served (site_of site.old) kind canon.now)
        live.old exchange.old journal.old (seen result) live.new exchange.new journal.new }
    ensures broken { journal.old.whole ≡ false → Refused live.old exchange.old journal.old (seen result) live.new exchange.new journal.new }
    ensures whole { OnOk result (journal.new.whole ≡ true) }
    ensures site { site.new ≡ site.old }
{
    let Ok(finished) = dispatch(alloc, live, exchange, site, kind, canon, journal) else {
        return Err(NoMemory);
    };
    settle(alloc, live, exchange, site, &finished, journal)
}

// Completes the response after a dispatch: answers its error or failure, if any.
fn settle<S: Servlet, F: Filter, L: Listener>(
    alloc: Global,
    live: &mut Live<S, F, L>,
    exchange: &mut Exchange,
    site: &mut Site,
    finished: &Finished,
    journal: &mut Journal,
) -> Result<(), NoMemory>
    requires servlets { length live.old.parts.servlets.items ≡ length site.old.app.servlets }
    requires filters { length live.old.parts.filters.items ≡ length site.old.app.filters }
    requires listeners { length live.old.parts.listeners.items ≡ length site.old.app.listeners }
    requires whole { journal.old.whole ≡ true }
    ensures does { ServedBy (steps_of S.servlet_step F.filter_step L.listener_step) (Settled (site_of site.old) finished.now)
        live.old exchange.old journal.old (seen result) live.new exchange.new journal.new }
    ensures whole { OnOk result (journal.new.whole ≡ true) }
    ensures site { site.new ≡ site.old }
{
    match finished {
        Finished::Done => Ok(()),
        Finished::Error(status, _) => show_kept(
            alloc, live, exchange, site, *status, None, journal,
        ),
        Finished::Failed(kind, _) => show_kept(
            alloc,
            live,
            exchange,
            site,
            INTERNAL_SERVER_ERROR,
            Some(kind.as_str()),
            journal,
        ),
    }
}
