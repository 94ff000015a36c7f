//! The command `uncovered`: the methods that the security constraints of a server leave uncovered.

ghost use Rattle.std.specs.Prelude.{◌≡◌, ◌≢◌, map, IfErr};
ghost use Rattle.sv_text.specs.Gives.{GivesAnswer};
ghost use Rattle.sv_program.specs.Printed.{FindsText, Prints};
ghost use Rattle.sv_program.specs.UncoveredCommand as spec;

use crate::command_fault::CommandFault;
use crate::configuration::ContextTexts;
use crate::configuration_files::{read_contexts, read_server_file};
use crate::disk::FileStore;
use crate::output::print_text;
use crate::uncovered_report::uncovered_lines;
use std::alloc::Global;
use std::io::Write;
use sv_descriptor::ContextEntry;
use sv_text::{Listed, NoMemory, Text};

/// Reads the server file of this name, then the descriptor of each of its contexts, and writes the lines that
/// [`uncovered_lines`] returns. Names in the server file are relative to its folder. No other file is read.
///
/// # Errors
/// The first fault: [`CommandFault::File`] or [`CommandFault::Server`] for the server file, then
/// [`CommandFault::File`] or [`CommandFault::Descriptor`] for the descriptors in order, or [`CommandFault::NoMemory`].
/// After [`CommandFault::Output`] a part of the lines may have been written, after any other fault none.
pub fn uncovered<S: FileStore, W: Write>(
    alloc: Global,
    store: &mut S,
    writer: &mut W,
    config: &str,
) -> Result<(), CommandFault>
    ensures run { Prints (spec.IsReported S.gives_text config.now) result store.old store.new (W.contents writer.old) (W.contents writer.new) }
    ensures untouched { IfErr result (λ fault. fault ≢ CommandFault.Output → writer.new ≡ writer.old) }
{
    let text = text_of(alloc, store, config)?;
    print_text(writer, text.as_str())
}

/// Returns the lines for the server, from the files that the store gives.
fn text_of<S: FileStore>(alloc: Global, store: &mut S, config: &str) -> Result<Text, CommandFault>
    ensures { FindsText (spec.IsReported S.gives_text config.now) result store.old store.new }
{
    let server = read_server_file(alloc, store, config)?;
    let contexts = without_users(alloc, server.contexts)?;
    let texts = read_contexts(alloc, store, config, contexts)?;
    uncovered_lines(alloc, texts.as_slice())
}

/// Removes the users files from the contexts.
fn without_users(
    alloc: Global,
    contexts: Listed<ContextEntry>,
) -> Result<Listed<ContextEntry>, NoMemory>
    ensures { GivesAnswer result (map spec.without_users contexts) }
{
    let mut bare = Vec::new(alloc);
    for context in contexts.into_vec() {
        bare.push(ContextEntry {
            users: None,
            ..context
        })?;
    }
    Ok(Listed::from_vec(bare))
}
