//! The command `check`: reads everything that `run` reads, and reports what a start would meet.

ghost use Rattle.std.specs.Prelude.{◌≡◌, ◌++◌, ℕ, List, Some, IfErr, IfOk, OnOk, codes, flat_map, length, string_bytes};
ghost use Rattle.sv.specs.CheckCommand as spec;
ghost use Rattle.sv_text.specs.Gives.{GivesAnswer};

use std::alloc::Global;
use std::fmt;
use std::io::Write;
use sv_container::MAX_CONTEXTS;
use sv_deployments::{CheckedContext, CheckedServer, ContextCounts, FolderStore, read_checked};
use sv_journal::NewCode;
use sv_program::{CommandFault, Detail, FileStore, print_text};
use sv_text::{NoMemory, Text};
use sv_uri::shown_context;

/// Reads the server file of this name and everything else that [`run`](crate::run_command::run) reads. Opens no socket
/// and calls no component. Writes `ok` and a line for each context, in the order of the server file, with the numbers
/// of its components, constraints, users and files, or that there are no contexts. If there are faults, it writes their lines instead: of each context
/// the first fault of its descriptor, of its users file, of its folder and of its classes, then that of a context beyond
/// the last one that a container may have.
///
/// # Errors
/// [`CommandFault::File`] or [`CommandFault::Server`] for the server file, with nothing written; [`CommandFault::Faults`]
/// with the number of faults, which are written; [`CommandFault::Output`], after which a part may have been written; or
/// [`CommandFault::NoMemory`], with nothing written.
pub fn check<S: FileStore + FolderStore, W: Write>(
    alloc: Global,
    store: &mut S,
    writer: &mut W,
    config: &str,
) -> Result<(), CommandFault>
    ensures run { spec.Checks S.gives_text S.gives_files config.now result store.old store.new (W.contents writer.old) (W.contents writer.new) }
    ensures untouched { IfErr result (λ fault. spec.IsBeforeReport fault → writer.new ≡ writer.old) }
{
    let server = read_checked(alloc, store, config)?;
    let report = report_on(alloc, server)?;
    write_report(writer, &report)
}

/// The report of a check.
#[derive(Drop)]
pub struct CheckReport {
    /// Its text.
    pub text: Text,
    /// The number of faults in it.
    pub faults: u64,
}

/// Returns the report on the contexts of a server.
fn report_on(alloc: Global, server: CheckedServer) -> Result<CheckReport, NoMemory>
    ensures { IfOk result (spec.IsReport server) }
{
    let CheckedServer { faults, contexts } = server;
    let mut faults = faults.into_vec();
    add_refused(alloc, &mut faults, contexts.as_slice())?;
    let text = text_of(alloc, faults.as_slice(), contexts.as_slice())?;
    Ok(CheckReport {
        text: Text::from_string(text),
        faults: faults.len() as u64,
    })
}

/// Adds the fault of a context beyond the last one that a container may have.
fn add_refused(
    alloc: Global,
    faults: &mut Vec<CommandFault>,
    contexts: &[CheckedContext],
) -> Result<(), NoMemory>
    ensures { OnOk result (faults.new.items ≡ faults.old.items ++ spec.refused contexts.now) }
{
    let Some(context) = contexts.get(MAX_CONTEXTS) else {
        return Ok(());
    };
    let context = Text::copy_of(alloc, context.path.as_str())?;
    faults.push(CommandFault::Start {
        code: NewCode::TooManyContexts,
        context,
    })?;
    Ok(())
}

fn text_of(
    alloc: Global,
    faults: &[CommandFault],
    contexts: &[CheckedContext],
) -> Result<String, NoMemory>
    ensures { IfOk result (λ text. spec.IsText faults.now contexts.now (string_bytes text)) }
{
    if faults.is_empty() {
        count_lines(alloc, contexts)
    } else {
        fault_lines(alloc, faults)
    }
}

/// Returns the lines of the faults.
fn fault_lines(alloc: Global, faults: &[CommandFault]) -> Result<String, NoMemory>
    ensures { IfOk result (λ text. spec.AreLines faults.now (string_bytes text)) }
{
    let mut text = String::new(alloc);
    for fault in faults {
        push_fault(alloc, &mut text, fault)?;
    }
    Ok(text)
}

fn push_fault(alloc: Global, text: &mut String, fault: &CommandFault) -> Result<(), NoMemory>
    ensures { OnOk result ((own : List ℕ) × spec.AreLinesOf fault.now own × (string_bytes text.new ≡ string_bytes text.old ++ own)) }
{
    let line = format!(in alloc; "{fault}\n")?;
    let detail = second_line(alloc, fault.detail())?;
    text.push_str(line.as_str())?;
    text.push_str(detail.as_str())?;
    Ok(())
}

fn second_line(alloc: Global, detail: Option<Detail<'_>>) -> Result<Text, NoMemory>
    ensures { GivesAnswer result (spec.second_line detail.entry) }
{
    match detail {
        Some(detail) => Ok(Text::from_string(format!(in alloc; "{detail}\n")?)),
        None => Text::copy_of(alloc, ""),
    }
}

/// Returns the line `ok` and the lines of the contexts.
fn count_lines(alloc: Global, contexts: &[CheckedContext]) -> Result<String, NoMemory>
    ensures { IfOk result (λ text. string_bytes text ≡ codes "ok\n" ++ spec.context_lines contexts.now) }
{
    let mut text = String::new(alloc);
    text.push_str("ok\n")?;
    if contexts.is_empty() {
        text.push_str("no contexts\n")?;
        return Ok(text);
    }
    push_contexts(alloc, &mut text, contexts)?;
    Ok(text)
}

fn push_contexts(
    alloc: Global,
    text: &mut String,
    contexts: &[CheckedContext],
) -> Result<(), NoMemory>
    ensures { OnOk result (string_bytes text.new ≡ string_bytes text.old ++ flat_map spec.context_line contexts.now) }
{
    for context in contexts {
        let line = context_line(alloc, context)?;
        text.push_str(line.as_str())?;
    }
    Ok(())
}

fn context_line(alloc: Global, context: &CheckedContext) -> Result<Text, NoMemory>
    ensures { GivesAnswer result (spec.context_line context.now) }
{
    match &context.counts {
        Some(counts) => {
            let path = shown_context(context.path.as_str());
            let counts = counts_text(alloc, counts)?;
            let counts = counts.as_str();
            Ok(Text::from_string(format!(in alloc; "{path}: {counts}\n")?))
        }
        None => Text::copy_of(alloc, ""),
    }
}

fn counts_text(alloc: Global, counts: &ContextCounts) -> Result<Text, NoMemory>
    ensures { GivesAnswer result (spec.counts_text counts.now) }
{
    let components = components_text(alloc, counts)?;
    let rules = rules_text(alloc, counts)?;
    let files = files_text(alloc, counts)?;
    let (components, rules, files) = (components.as_str(), rules.as_str(), files.as_str());
    Ok(Text::from_string(format!(in alloc; "{components}, {rules}, {files}")?))
}

fn components_text(alloc: Global, counts: &ContextCounts) -> Result<Text, NoMemory>
    ensures { GivesAnswer result (spec.components_text counts.now) }
{
    let servlets = number_of(counts.servlets, "servlet");
    let filters = number_of(counts.filters, "filter");
    let listeners = number_of(counts.listeners, "listener");
    Ok(Text::from_string(format!(in alloc; "{servlets}, {filters}, {listeners}")?))
}

fn rules_text(alloc: Global, counts: &ContextCounts) -> Result<Text, NoMemory>
    ensures { GivesAnswer result (spec.rules_text counts.now) }
{
    let constraints = number_of(counts.constraints, CONSTRAINT);
    let users = number_of(counts.users, "user");
    Ok(Text::from_string(format!(in alloc; "{constraints}, {users}")?))
}

fn files_text(alloc: Global, counts: &ContextCounts) -> Result<Text, NoMemory>
    ensures { GivesAnswer result (spec.files_text counts.now) }
{
    let files = number_of(counts.files, "file");
    let bytes = number_of(counts.bytes, "byte");
    Ok(Text::from_string(format!(in alloc; "{files} of {bytes}")?))
}

/// The noun for a security constraint.
const CONSTRAINT: &str = "security constraint";

/// A number of things. Its text is the number and the noun, which has an `s` unless the number is one.
#[derive(Clone, Copy)]
struct Counted {
    number: usize,
    noun: &'static str,
}

fn number_of(number: usize, noun: &'static str) -> Counted
    ensures { spec.counted result.number result.noun.now ≡ spec.counted number noun.now }
{
    Counted { number, noun }
}

impl fmt::Display for Counted {
    ghost output = { λ counted. Some (spec.counted counted.number counted.noun.now) };

    fn fmt<W: fmt::Write>(&self, f: &mut fmt::Formatter<W>) -> fmt::Result {
        if self.number == 1 {
            write!(f, "{} {}", self.number, self.noun)
        } else {
            write!(f, "{} {}s", self.number, self.noun)
        }
    }
}

/// Writes the report.
///
/// # Errors
/// [`CommandFault::Output`], or [`CommandFault::Faults`] if the report is written and has faults.
fn write_report<W: Write>(writer: &mut W, report: &CheckReport) -> Result<(), CommandFault>
    ensures { spec.IsWritten report.now result (W.contents writer.old) (W.contents writer.new) }
{
    print_text(writer, report.text.as_str())?;
    if report.faults > 0 {
        return Err(CommandFault::Faults(report.faults));
    }
    Ok(())
}

/// Contexts are refused as a container refuses them, if their paths differ.
pub fn contexts_are_refused_as_by_a_container()
    ensures { spec.RefusesAsContainer }
{}
