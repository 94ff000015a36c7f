//! Parts of a machine's steps: changes of the exchange, and results of components.

ghost use Rattle.std.specs.Option.{option_copied};
ghost use Rattle.std.specs.Prelude.{IfOk, None, OnErr, OnOk, Some, is_ok, ◌≡◌};
ghost use Rattle.sv_dispatch.specs.Did.{seen};
ghost use Rattle.sv_dispatch.specs.Running.{done_seen, gate_seen, made_seen, offer_seen, step_seen};
ghost use Rattle.sv_dispatch.specs.Seen.{field_of};
ghost use Rattle.sv_exchange.specs.Keeping.{with_kept};
ghost use Rattle.sv_live.specs.Calling.{unless_broken};
ghost use Rattle.sv_tree.specs.Files.{emptied};
ghost use Rattle.sv_tree.specs.Seen.{chosen_seen};
ghost use Rattle.sv_tree.specs.Site.{begun_by, emptied_for};
ghost use Rattle.sv_tree.specs.State.{moment_after};

use std::alloc::Global;
use sv_component::{Exchange, Gate, Step};
use sv_exchange::{ExchangeFault, KeptField};
use sv_journal::Journal;
use sv_mapping::Kind;
use sv_text::{NoMemory, Text};
use sv_tree::Chosen;
use sv_uri::path::Canon;

/// Begins a dispatch to a path that is split this way.
pub(crate) fn enter(
    exchange: &mut Exchange,
    kind: Kind,
    chosen: &Chosen,
    canon: &Canon,
) -> Result<(), NoMemory>
    ensures entered { OnOk result (exchange.new ≡ begun_by (chosen_seen chosen.now) kind canon.now exchange.old) }
    ensures refused { OnErr result (exchange.new ≡ exchange.old) }
{
    let path = canon.path.as_str();
    let query = shown(&canon.query);
    let Ok(()) = exchange.enter(kind, path, chosen.servlet_path, chosen.path_info, query) else {
        return Err(NoMemory);
    };
    empty_for(exchange, kind);
    Ok(())
}

// Empties the body for a forward (Jakarta Servlet 6.0, section 9.4).
fn empty_for(exchange: &mut Exchange, kind: Kind)
    ensures { exchange.new ≡ emptied_for kind exchange.old }
{
    match kind {
        Kind::Forward => exchange.clear(),
        Kind::Request => {}
        Kind::Include => {}
        Kind::Error => {}
    }
}

/// Discards the body written so far, unless the response is committed.
pub(crate) fn empty(exchange: &mut Exchange)
    ensures { exchange.new ≡ emptied exchange.old }
{
    if !exchange.committed() {
        exchange.clear();
    }
}

/// Stores an error for the response.
pub(crate) fn keep_error(
    alloc: Global,
    exchange: &mut Exchange,
    status: u16,
    text: &str,
    servlet: &str,
    field: ErrorField,
) -> Result<(), NoMemory>
    ensures kept { OnOk result (exchange.new ≡ with_kept
        (record { status = status; text = text.now; servlet = Some servlet.now; field = field_of field }) exchange.old) }
    ensures refused { OnErr result (exchange.new ≡ exchange.old) }
{
    let Ok(field) = kept_field(alloc, field) else {
        return Err(NoMemory);
    };
    exchange.keep_error(status, text, Some(servlet), field)
}

// Returns the header field of an error.
fn kept_field(alloc: Global, field: ErrorField) -> Result<Option<KeptField>, NoMemory>
    ensures { IfOk result (λ kept. kept ≡ field_of field) }
{
    match field {
        ErrorField::Nothing => Ok(None),
        ErrorField::Allow => named(alloc, "allow", "GET, HEAD"),
        ErrorField::RetryAfter(seconds) => {
            let text = format!(in alloc; "{seconds}")?;
            named(alloc, "retry-after", text.as_str())
        }
    }
}

fn named(alloc: Global, name: &str, value: &str) -> Result<Option<KeptField>, NoMemory>
    ensures { IfOk result (λ kept. kept ≡ Some (record { name = name.now; value = value.now })) }
{
    Ok(Some(KeptField {
        name: Text::copy_of(alloc, name)?,
        value: Text::copy_of(alloc, value)?,
    }))
}

// Returns the text, if any.
fn shown(text: &Option<Text>) -> Option<&str>
    ensures { option_copied result ≡ text.now }
{
    match text {
        Some(text) => Some(text.as_str()),
        None => None,
    }
}

/// Returns a servlet's step, or `NoMemory` if the servlet ran out of memory.
pub(crate) fn step_of(step: Step) -> Result<Step, NoMemory>
    ensures { seen result ≡ step_seen step }
{
    match step {
        Step::NoMemory => Err(NoMemory),
        Step::Done => Ok(Step::Done),
        Step::Forward(path) => Ok(Step::Forward(path)),
        Step::Include(path) => Ok(Step::Include(path)),
        Step::Error(code, text) => Ok(Step::Error(code, text)),
        Step::Failed(kind, text) => Ok(Step::Failed(kind, text)),
        Step::Unavailable(seconds) => Ok(Step::Unavailable(seconds)),
    }
}

/// Returns a filter's gate, or `NoMemory` if the filter ran out of memory.
pub(crate) fn gate_of(gate: Gate) -> Result<Gate, NoMemory>
    ensures { seen result ≡ gate_seen gate }
{
    match gate {
        Gate::NoMemory => Err(NoMemory),
        Gate::Pass => Ok(Gate::Pass),
        Gate::Stop => Ok(Gate::Stop),
        Gate::Failed(kind, text) => Ok(Gate::Failed(kind, text)),
    }
}

/// Returns `true`, or `NoMemory` if the filter ran out of memory.
pub(crate) fn done_of(done: Result<(), NoMemory>) -> Result<bool, NoMemory>
    ensures { seen result ≡ done_seen done }
{
    match done {
        Ok(()) => Ok(true),
        Err(refusal) => Err(refusal),
    }
}

/// Returns the result, or `NoMemory` if the journal is broken.
pub(crate) fn unless_broken<A: Drop>(
    journal: &Journal,
    answered: Result<A, NoMemory>,
) -> Result<A, NoMemory>
    ensures { seen result ≡ unless_broken journal.now None (seen answered) }
{
    if journal.whole() {
        answered
    } else {
        Err(NoMemory)
    }
}

/// Returns `NoMemory` if the end of a servlet was not logged.
pub(crate) fn retired(whole: bool) -> Result<(), NoMemory>
    ensures { is_ok result ≡ whole }
{
    if whole { Ok(()) } else { Err(NoMemory) }
}

/// Converts the result of a change of the exchange. Any fault except `NoMemory` is ignored: the exchange is unchanged.
///
/// # Errors
/// `NoMemory` if the change ran out of memory.
pub fn made(answered: Result<bool, ExchangeFault>) -> Result<(), NoMemory>
    ensures { seen result ≡ made_seen answered }
{
    match answered {
        Ok(_) => Ok(()),
        Err(ExchangeFault::NoMemory) => Err(NoMemory),
        Err(_) => Ok(()),
    }
}

/// Returns whether the body had room for the bytes.
pub(crate) fn offer(answered: Result<bool, ExchangeFault>) -> Result<bool, NoMemory>
    ensures { seen result ≡ offer_seen answered }
{
    match answered {
        Ok(_) => Ok(true),
        Err(ExchangeFault::NoMemory) => Err(NoMemory),
        Err(_) => Ok(false),
    }
}

/// Returns the time this many seconds later, at most `u64::MAX`.
pub(crate) fn moment_after(moment: u64, seconds: u64) -> u64
    ensures { result ≡ moment_after moment seconds }
{
    moment.saturating_add(seconds)
}

/// The header field of an error that the container raises (RFC 9110, sections 10.2.1 and 10.2.3).
#[derive(Clone, Copy, Debug, PartialEq, Eq)]
pub(crate) enum ErrorField {
    /// No field.
    Nothing,
    /// `allow`, with the methods that the file servlet supports.
    Allow,
    /// `retry-after`, with the number of seconds until the servlet is available again.
    RetryAfter(u64),
}
