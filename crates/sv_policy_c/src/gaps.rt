//! The methods that a descriptor leaves uncovered.

ghost use Rattle.sv_policy_c.specs.Uncovered as spec;
ghost use Rattle.sv_program.specs.CommandFault.{command_fault};
ghost use Rattle.sv_text.specs.Gives.{Gives, GivesAnswer};

use std::alloc::Global;
use sv_descriptor::ContextEntry;
use sv_program::{CommandFault, ContextTexts, Unavailable, uncovered_lines};
use sv_text::{NoMemory, Text};

/// Returns the lines that `sv uncovered` prints for a server with one context, of this path and with this descriptor.
///
/// # Errors
/// The descriptor's first fault, [`CommandFault::Descriptor`], or [`CommandFault::NoMemory`].
pub fn uncovered(alloc: Global, path: &str, descriptor: &str) -> Result<Text, CommandFault>
    ensures { Gives command_fault result (spec.uncovered_in path.now descriptor.now) }
{
    let texts = [texts_of(alloc, path, descriptor)?];
    uncovered_lines(alloc, &texts)
}

/// Returns the texts of this context.
fn texts_of(alloc: Global, path: &str, descriptor: &str) -> Result<ContextTexts, NoMemory>
    ensures { GivesAnswer result (spec.texts_of path.now descriptor.now) }
{
    Ok(ContextTexts {
        context: ContextEntry {
            path: Text::copy_of(alloc, path)?,
            descriptor: Text::from_string(String::new(alloc)),
            files: Text::from_string(String::new(alloc)),
            users: None,
        },
        descriptor: Ok(Text::copy_of(alloc, descriptor)?),
        users: Err(Unavailable::Missing),
    })
}
