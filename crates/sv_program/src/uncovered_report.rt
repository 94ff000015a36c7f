//! The report on uncovered methods: those that the security constraints of a server's contexts leave uncovered.

ghost use Rattle.std.specs.Prelude.{◌≡◌, ◌++◌, flat_map, IfOk, OnOk};
ghost use Rattle.std.specs.String.{string_bytes};
ghost use Rattle.sv_policy.specs.Gaps.{gaps};
ghost use Rattle.sv_text.specs.Gives.{Gives, GivesAnswer};
ghost use Rattle.sv_program.specs.CommandFault.{command_fault};
ghost use Rattle.sv_program.specs.Uncovered as spec;

use crate::command_fault::CommandFault;
use crate::configuration::{ContextTexts, descriptor_in};
use std::alloc::Global;
use sv_constraints::Methods;
use sv_descriptor::Descriptor;
use sv_policy::{Gap, Policy};
use sv_text::{NoMemory, Text};
use sv_uri::shown_context;

/// Returns the lines that the command `uncovered` prints for contexts whose descriptors have these texts. Each pattern
/// that leaves methods uncovered has one line, and the patterns of a context are in the order of their bytes.
///
/// # Errors
/// The first fault of the descriptors, in order: [`CommandFault::File`] or [`CommandFault::Descriptor`]. Or
/// [`CommandFault::NoMemory`].
pub fn uncovered_lines(alloc: Global, texts: &[ContextTexts]) -> Result<Text, CommandFault>
    ensures { Gives command_fault result (spec.uncovered_lines texts.now) }
{
    let mut lines = String::new(alloc);
    for texts in texts {
        let more = context_lines(alloc, texts)?;
        lines.push_str(more.as_str())?;
    }
    Ok(Text::from_string(lines))
}

/// Returns the lines of a context.
fn context_lines(alloc: Global, texts: &ContextTexts) -> Result<Text, CommandFault>
    ensures { Gives command_fault result (spec.context_lines texts.now) }
{
    let descriptor = descriptor_in(alloc, texts)?;
    let gaps = gaps_of(alloc, descriptor)?;
    Ok(gap_lines(alloc, texts.context.path.as_str(), gaps.as_slice())?)
}

/// Returns the gaps in a context's constraints.
fn gaps_of(alloc: Global, descriptor: Descriptor) -> Result<Vec<Gap>, NoMemory>
    ensures { IfOk result (λ found. found.items ≡ gaps descriptor.constraints) }
{
    let web_app = descriptor.into_web_app();
    Policy::compile(alloc, web_app.constraints.into_vec(), web_app.rules)?.uncovered(alloc)
}

/// Returns the lines that the command `uncovered` prints for gaps in the context at this path.
///
/// # Errors
/// Out of memory.
pub fn gap_lines(alloc: Global, path: &str, gaps: &[Gap]) -> Result<Text, NoMemory>
    ensures { GivesAnswer result (flat_map (spec.gap_line path.now) gaps.now) }
{
    let mut lines = String::new(alloc);
    for gap in gaps {
        push_gap(&mut lines, path, gap)?;
    }
    Ok(Text::from_string(lines))
}

fn push_gap(lines: &mut String, path: &str, gap: &Gap) -> Result<(), NoMemory>
    ensures { OnOk result (string_bytes lines.new ≡ string_bytes lines.old ++ spec.gap_line path.now gap.now) }
{
    lines.push_str("uncovered context=")?;
    lines.push_str(shown_context(path))?;
    lines.push_str(" pattern=")?;
    lines.push_str(gap.pattern.text())?;
    lines.push_str(" methods=")?;
    push_methods(lines, &gap.methods)?;
    lines.push_str("\n")?;
    Ok(())
}

/// Appends methods: `*` for all, their names, or `!` and the names of those that are left out.
pub(crate) fn push_methods(line: &mut String, methods: &Methods) -> Result<(), NoMemory>
    ensures { OnOk result (string_bytes line.new ≡ string_bytes line.old ++ spec.methods_text methods.now) }
{
    match methods {
        Methods::All => Ok(line.push_str("*")?),
        Methods::Only(names) => push_names(line, names.as_slice()),
        Methods::Except(names) => push_omission(line, names.as_slice()),
    }
}

fn push_omission(line: &mut String, names: &[Text]) -> Result<(), NoMemory>
    ensures { OnOk result (string_bytes line.new ≡ string_bytes line.old ++ spec.omission_text names.now) }
{
    if names.is_empty() {
        line.push_str("*")?;
        return Ok(());
    }
    line.push_str("!")?;
    push_names(line, names)
}

/// Appends names, separated by commas.
pub(crate) fn push_names(line: &mut String, names: &[Text]) -> Result<(), NoMemory>
    ensures { OnOk result (string_bytes line.new ≡ string_bytes line.old ++ spec.names_text names.now) }
{
    let Some((name, others)) = names.split_first() else {
        return Ok(());
    };
    line.push_str(name.as_str())?;
    push_others(line, others)
}

/// Appends names, each after a comma.
fn push_others(line: &mut String, others: &[Text]) -> Result<(), NoMemory>
    ensures { OnOk result (string_bytes line.new ≡ string_bytes line.old ++ spec.others_text others.now) }
{
    for other in others {
        line.push_str(",")?;
        line.push_str(other.as_str())?;
    }
    Ok(())
}
