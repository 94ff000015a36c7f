//! The lines of an event.

ghost use Rattle.std.specs.Prelude.{◌≡◌, ◌-◌, IfOk, length, option_copied, option_map, string_bytes};
ghost use Rattle.sv_access_log.specs.Answered as spec;
ghost use Rattle.sv_journal.specs.Entry.{entry_text};
ghost use Rattle.sv_text.specs.Gives.{GivesAnswer};

use crate::access_source::AccessSource;
use crate::circumstances::{Circumstances, LogFormat, borrowed, push_line};
use httpdate::HttpDate;
use std::alloc::Global;
use sv_journal::Entry;
use sv_run::Access;
use sv_text::{NoMemory, Text};

/// What the lines of an event have in common.
#[derive(Drop)]
pub(crate) struct Scene {
    pub(crate) format: LogFormat,
    pub(crate) date: HttpDate,
    pub(crate) address: Option<Text>,
    /// The microseconds that the first message took.
    pub(crate) first_micros: u64,
    /// The microseconds that each later message took.
    pub(crate) later_micros: u64,
}

/// Returns the lines of the last event of a handler, with this journal.
pub(crate) fn event_lines<R: AccessSource>(
    alloc: Global,
    source: &R,
    journal: &[Entry],
    scene: &Scene,
) -> Result<String, NoMemory>
    ensures { IfOk result (λ text. string_bytes text ≡ spec.event_lines (R.answered source.now) journal.now scene.now) }
{
    let mut text = String::new(alloc);
    let mut micros = scene.first_micros;
    let mut rest = source.accesses();
    while let Some((access, later)) = rest.split_first() {
        let outcome = entry_text_of(alloc, outcome_of(journal, rest))?;
        let around = circumstances(alloc, source, scene, access, outcome, micros)?;
        push_line(&mut text, scene.format, access, &around)?;
        micros = scene.later_micros;
        rest = later;
    }
    Ok(text)
}

// Returns the entry that says what became of the first of the last accesses.
fn outcome_of<'a>(journal: &'a [Entry], accesses: &[Access]) -> Option<&'a Entry>
    ensures { option_copied result ≡ spec.outcome_of journal.now accesses.now }
{
    journal.get(entries_before(journal.len(), accesses))
}

// Returns how many of the entries precede those of the last accesses.
fn entries_before(entries: usize, accesses: &[Access]) -> usize
    ensures { result ≡ entries - spec.entries_of accesses.now }
{
    accesses.iter().fold(entries, |left, access| left.saturating_sub(access.entries))
}

fn entry_text_of(alloc: Global, entry: Option<&Entry>) -> Result<Option<Text>, NoMemory>
    ensures { GivesAnswer result (option_map entry_text (option_copied entry.entry)) }
{
    match entry {
        None => Ok(None),
        Some(entry) => Ok(Some(Text::from_string(format!(in alloc; "{entry}")?))),
    }
}

fn circumstances<R: AccessSource>(
    alloc: Global,
    source: &R,
    scene: &Scene,
    access: &Access,
    outcome: Option<Text>,
    micros: u64,
) -> Result<Circumstances, NoMemory>
    ensures { GivesAnswer result (spec.shown_around (R.answered source.now) scene.now access.now outcome micros) }
{
    Ok(Circumstances {
        date: scene.date,
        address: copied(alloc, borrowed(&scene.address))?,
        user: copied(alloc, user_of(source, access))?,
        context: copied(alloc, context_of(source, access))?,
        outcome,
        micros,
    })
}

fn copied(alloc: Global, text: Option<&str>) -> Result<Option<Text>, NoMemory>
    ensures { GivesAnswer result (option_copied text.entry) }
{
    match text {
        None => Ok(None),
        Some(text) => Ok(Some(Text::copy_of(alloc, text)?)),
    }
}

fn user_of<'a, R: AccessSource>(source: &'a R, access: &Access) -> Option<&'a str>
    ensures { option_copied result ≡ spec.user_of (R.answered source.now) access.now }
{
    let context = access.context?;
    let number = access.caller?;
    source.user_name(context, number)
}

fn context_of<'a, R: AccessSource>(source: &'a R, access: &Access) -> Option<&'a str>
    ensures { option_copied result ≡ spec.context_of (R.answered source.now) access.now }
{
    let context = access.context?;
    source.context_path(context)
}
