//! The keys of findings.

ghost use Rattle.std.specs.Prelude.{◌≡◌, ◌++◌, OnOk, string_bytes};
ghost use Rattle.std.specs.List.{flat_map};
ghost use Rattle.sv_text.specs.Gives.{GivesAnswer};
ghost use Rattle.sv_report.specs.Keys as spec;

use crate::parts::push_all;
use crate::report::{ContextReport, ReportedFinding};
use std::alloc::Global;
use sv_text::{NoMemory, Text};

/// Returns the keys of the findings of contexts, one a line, as a file of accepted findings lists them.
///
/// # Errors
/// `NoMemory` if memory runs out.
pub fn keys_text(alloc: Global, contexts: &[ContextReport]) -> Result<Text, NoMemory>
    ensures { GivesAnswer result (spec.keys_text contexts.now) }
{
    let mut text = String::new(alloc);
    for context in contexts {
        push_keys(&mut text, context.findings.as_slice())?;
    }
    Ok(Text::from_string(text))
}

fn push_keys(text: &mut String, findings: &[ReportedFinding]) -> Result<(), NoMemory>
    ensures { OnOk result (string_bytes text.new ≡ string_bytes text.old ++ flat_map spec.key_line findings.now) }
{
    for finding in findings {
        push_all(text, &[finding.key.as_str(), "\n"])?;
    }
    Ok(())
}
