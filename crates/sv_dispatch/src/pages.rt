//! Error pages.

ghost use Rattle.sv_component.specs.Steps.{steps_of};
ghost use Rattle.std.specs.Prelude.{◌≡◌, OnOk, Some, false, length, true};
ghost use Rattle.std.specs.Option.{option_copied};
ghost use Rattle.sv_dispatch.specs.Did.{seen};
ghost use Rattle.sv_dispatch.specs.Dispatched.{Refused};
ghost use Rattle.sv_dispatch.specs.ServedBy.{Alone, ServedBy};
ghost use Rattle.sv_tree.specs.SiteOfDescriptor.{site_of};
ghost use Rattle.sv_text.specs.Gives.{GivesAnswer};
ghost use Rattle.sv_tree.specs.Served.{Pages, Shown, Shows, ShowsError, kept_field};

use crate::live_dispatch::dispatch;
use crate::plain_answer::{phrase_of, plain, plain_unless_committed, reset};
use std::alloc::Global;
use sv_component::{Exchange, Filter, Listener, Servlet};
use sv_exchange::{KeptError, KeptField};
use sv_journal::Journal;
use sv_live::Live;
use sv_mapping::Kind;
use sv_text::{NoMemory, Text};
use sv_tree::{Finished, Site};
use sv_uri::path::Canon;

/// The parts of an error that its response needs: the status, and the header field if any.
#[derive(Drop)]
pub(crate) struct Sought {
    pub(crate) status: u16,
    pub(crate) field: Option<KeptField>,
}

/// Answers an error of this status that no dispatch raised: by its page if there is one, or in plain text. A committed
/// response is truncated after its last flush. The page sees the status and its phrase. The context must have as many
/// servlets, filters and listeners as the site's descriptor, as it does if it was started with it.
///
/// # Errors
/// `NoMemory` if memory runs out or the journal breaks: calls that were made are not undone. If the journal was broken
/// before, nothing is called, and nothing changes.
pub fn show_error<S: Servlet, F: Filter, L: Listener>(
    alloc: Global,
    live: &mut Live<S, F, L>,
    exchange: &mut Exchange,
    site: &mut Site,
    status: u16,
    page: Option<&Canon>,
    journal: &mut Journal,
) -> Result<(), NoMemory>
    requires servlets { length live.old.parts.servlets.items ≡ length site.old.app.servlets }
    requires filters { length live.old.parts.filters.items ≡ length site.old.app.filters }
    requires listeners { length live.old.parts.listeners.items ≡ length site.old.app.listeners }
    ensures does { ServedBy (steps_of S.servlet_step F.filter_step L.listener_step) (ShowsError (site_of site.old) status (option_copied page.entry))
        live.old exchange.old journal.old (seen result) live.new exchange.new journal.new }
    ensures broken { journal.old.whole ≡ false → Refused live.old exchange.old journal.old (seen result) live.new exchange.new journal.new }
    ensures whole { OnOk result (journal.new.whole ≡ true) }
    ensures site { site.new ≡ site.old }
{
    if !journal.whole() {
        return Err(NoMemory);
    }
    let Ok(()) = exchange.keep_error(status, phrase_of(status), None, None) else {
        return Err(NoMemory);
    };
    if exchange.committed() {
        exchange.break_off();
        return Ok(());
    }
    let sought = Sought {
        status,
        field: None,
    };
    show(alloc, live, exchange, site, &sought, page, journal)
}

/// Answers the stored error, by the page for its status and, for a failure, its kind. A committed response is truncated
/// after its last flush.
pub(crate) fn show_kept<S: Servlet, F: Filter, L: Listener>(
    alloc: Global,
    live: &mut Live<S, F, L>,
    exchange: &mut Exchange,
    site: &mut Site,
    status: u16,
    kind: Option<&str>,
    journal: &mut Journal,
) -> Result<(), NoMemory>
    requires servlets { length live.old.parts.servlets.items ≡ length site.old.app.servlets }
    requires filters { length live.old.parts.filters.items ≡ length site.old.app.filters }
    requires listeners { length live.old.parts.listeners.items ≡ length site.old.app.listeners }
    requires whole { journal.old.whole ≡ true }
    ensures does { ServedBy (steps_of S.servlet_step F.filter_step L.listener_step) (Shows (site_of site.old) status (option_copied kind.entry))
        live.old exchange.old journal.old (seen result) live.new exchange.new journal.new }
    ensures whole { OnOk result (journal.new.whole ≡ true) }
    ensures site { site.new ≡ site.old }
{
    if exchange.committed() {
        exchange.break_off();
        return Ok(());
    }
    let Ok(page) = site.page(alloc, status, kind) else {
        return Err(NoMemory);
    };
    let Ok(field) = kept_field(alloc, exchange.kept()) else {
        return Err(NoMemory);
    };
    let sought = Sought { status, field };
    show(alloc, live, exchange, site, &sought, page.as_ref(), journal)
}

// Answers an error by its page, or in plain text if there is none.
fn show<S: Servlet, F: Filter, L: Listener>(
    alloc: Global,
    live: &mut Live<S, F, L>,
    exchange: &mut Exchange,
    site: &mut Site,
    sought: &Sought,
    page: Option<&Canon>,
    journal: &mut Journal,
) -> Result<(), NoMemory>
    requires servlets { length live.old.parts.servlets.items ≡ length site.old.app.servlets }
    requires filters { length live.old.parts.filters.items ≡ length site.old.app.filters }
    requires listeners { length live.old.parts.listeners.items ≡ length site.old.app.listeners }
    requires whole { journal.old.whole ≡ true }
    ensures does { ServedBy (steps_of S.servlet_step F.filter_step L.listener_step) (Pages (site_of site.old) sought.now.status sought.now.field (option_copied page.entry))
        live.old exchange.old journal.old (seen result) live.new exchange.new journal.new }
    ensures whole { OnOk result (journal.new.whole ≡ true) }
    ensures site { site.new ≡ site.old }
{
    match page {
        Some(page) => show_page(alloc, live, exchange, site, sought, page, journal),
        None => plain(alloc, exchange, sought.status, sought.field.as_ref()),
    }
}

// Answers an error by its page.
fn show_page<S: Servlet, F: Filter, L: Listener>(
    alloc: Global,
    live: &mut Live<S, F, L>,
    exchange: &mut Exchange,
    site: &mut Site,
    sought: &Sought,
    page: &Canon,
    journal: &mut Journal,
) -> Result<(), NoMemory>
    requires servlets { length live.old.parts.servlets.items ≡ length site.old.app.servlets }
    requires filters { length live.old.parts.filters.items ≡ length site.old.app.filters }
    requires listeners { length live.old.parts.listeners.items ≡ length site.old.app.listeners }
    requires whole { journal.old.whole ≡ true }
    ensures does { ServedBy (steps_of S.servlet_step F.filter_step L.listener_step) (Pages (site_of site.old) sought.now.status sought.now.field (Some page.now))
        live.old exchange.old journal.old (seen result) live.new exchange.new journal.new }
    ensures whole { OnOk result (journal.new.whole ≡ true) }
    ensures site { site.new ≡ site.old }
{
    let Ok(()) = reset(exchange, sought.status, sought.field.as_ref()) else {
        return Err(NoMemory);
    };
    let Ok(finished) = dispatch(alloc, live, exchange, site, Kind::Error, page, journal) else {
        return Err(NoMemory);
    };
    shown(alloc, exchange, sought, &finished)
}

// Completes the response after an error page. If the page ends in an error itself, the first error is answered in plain
// text, or a committed response is truncated.
fn shown(
    alloc: Global,
    exchange: &mut Exchange,
    sought: &Sought,
    finished: &Finished,
) -> Result<(), NoMemory>
    ensures { Alone (Shown sought.now.status sought.now.field finished.now) exchange.old exchange.new (seen result) }
{
    match finished {
        Finished::Done => Ok(()),
        Finished::Error(_, _) => plain_unless_committed(
            alloc,
            exchange,
            sought.status,
            sought.field.as_ref(),
        ),
        Finished::Failed(_, _) => plain_unless_committed(
            alloc,
            exchange,
            sought.status,
            sought.field.as_ref(),
        ),
    }
}

// Returns a copy of the stored error's header field, if any.
fn kept_field(alloc: Global, kept: Option<&KeptError>) -> Result<Option<KeptField>, NoMemory>
    ensures { GivesAnswer result (kept_field (option_copied kept.entry)) }
{
    match kept {
        Some(kept) => copied(alloc, &kept.field),
        None => Ok(None),
    }
}

fn copied(alloc: Global, field: &Option<KeptField>) -> Result<Option<KeptField>, NoMemory>
    ensures { GivesAnswer result field.now }
{
    match field {
        Some(field) => Ok(Some(KeptField {
            name: Text::copy_of(alloc, field.name.as_str())?,
            value: Text::copy_of(alloc, field.value.as_str())?,
        })),
        None => Ok(None),
    }
}
