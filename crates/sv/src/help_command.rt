//! The command `help`: prints the usage of each command, or of one, and the manual in other forms.

ghost use Rattle.std.specs.Prelude.{◌≡◌, ◌≢◌, IfErr};
ghost use Rattle.sv.specs.Printed.{Shows};
ghost use Rattle.sv.specs.Help.{help_text, manual_text};
ghost use Rattle.sv_program.specs.CommandFault.{UnlessNoMemory};
ghost use Rattle.sv_text.specs.Gives.{GivesAnswer};

use std::alloc::Global;
use std::io::Write;
use sv_arguments::{Manual, Topic};
use sv_manual::{Form, command_page, commands_page, completion_page, config_page};
use sv_program::{CommandFault, print_text};
use sv_text::{NoMemory, Text};

/// Writes the usage and the description of the command, or those of all commands.
///
/// # Errors
/// [`CommandFault::NoMemory`], with nothing written; [`CommandFault::Output`], after which a part may have been written.
pub fn help<W: Write>(
    alloc: Global,
    writer: &mut W,
    topic: Option<Topic>,
) -> Result<(), CommandFault>
    ensures run { UnlessNoMemory result (Shows (help_text topic) result (W.contents writer.old) (W.contents writer.new)) }
    ensures untouched { IfErr result (λ fault. fault ≢ CommandFault.Output → writer.new ≡ writer.old) }
{
    let text = help_on(alloc, topic)?;
    print_text(writer, text.as_str())
}

#[tactic(auto, unfolding(crate::specs::Help::help_text))]
fn help_on(alloc: Global, topic: Option<Topic>) -> Result<Text, NoMemory>
    ensures { GivesAnswer result (help_text topic) }
{
    match topic {
        Some(topic) => command_page(alloc, Form::Help, topic.name()),
        None => commands_page(alloc, Form::Help),
    }
}

/// Writes this manual.
///
/// # Errors
/// [`CommandFault::NoMemory`], with nothing written; [`CommandFault::Output`], after which a part may have been written.
pub fn print_manual<W: Write>(
    alloc: Global,
    writer: &mut W,
    manual: Manual,
) -> Result<(), CommandFault>
    ensures run { UnlessNoMemory result (Shows (manual_text manual) result (W.contents writer.old) (W.contents writer.new)) }
    ensures untouched { IfErr result (λ fault. fault ≢ CommandFault.Output → writer.new ≡ writer.old) }
{
    let text = manual_page(alloc, manual)?;
    print_text(writer, text.as_str())
}

#[tactic(auto, unfolding(crate::specs::Help::manual_text))]
fn manual_page(alloc: Global, manual: Manual) -> Result<Text, NoMemory>
    ensures { GivesAnswer result (manual_text manual) }
{
    match manual {
        Manual::Commands => commands_page(alloc, Form::Roff),
        Manual::CommandsMarkdown => commands_page(alloc, Form::Markdown),
        Manual::Completion => completion_page(alloc),
        Manual::Keys => config_page(alloc, Form::Help),
        Manual::KeysPage => config_page(alloc, Form::Roff),
        Manual::KeysMarkdown => config_page(alloc, Form::Markdown),
    }
}
