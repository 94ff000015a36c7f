//! The command `first`: the decision of the example policy on the first request of a stream.

ghost use Rattle.std.specs.Prelude.{◌≡◌, ◌≢◌, map, take, string_bytes, option_copied, IfOk, IfErr, IfSome};
ghost use Rattle.sv_wire.specs.Items.{first_item};
ghost use Rattle.sv_program.specs.Arguments.{Names};
ghost use Rattle.sv_program.specs.FirstLine.{first_options, item_line, message_line, decision_line, refused_line, IsFirstLine, IsReadFault, RunsFirst};

use crate::command_fault::CommandFault;
use crate::example_policy::example_constraints;
use crate::limits::MAX_INPUT_BYTES;
use crate::output::print_line;
use std::alloc::Global;
use std::fmt::Display;
use std::io::{ErrorKind, Read, Write};
use sv_constraints::{Rules, decide_plain};
use sv_message::{Message, Target};
use sv_text::{Listed, NoMemory};
use sv_uri::canon;
use sv_uri::fault::CanonFault;
use sv_wire::{Inbox, Item};

/// Returns whether these options of the command deny uncovered methods. The option is `deny` or absent; for any other
/// options the result is none.
pub fn denies_uncovered(options: &[String]) -> Option<bool>
    ensures { Names first_options (map string_bytes options.now) result }
{
    let Some((option, rest)) = options.split_first() else {
        return Some(false);
    };
    if rest.is_empty() && option.as_str() == "deny" {
        Some(true)
    } else {
        None
    }
}

/// Reads at most `MAX_INPUT_BYTES` bytes from `reader`, and writes the line that `first_line` returns for them, with a
/// line feed.
///
/// # Errors
/// [`CommandFault::Input`] or [`CommandFault::NoMemory`], after which nothing was written; [`CommandFault::Output`],
/// after which a part may have been written.
pub fn first<R: Read + Drop, W: Write>(
    alloc: Global,
    reader: R,
    writer: &mut W,
    deny_uncovered: bool,
) -> Result<(), CommandFault>
    ensures run { RunsFirst deny_uncovered result (R.remaining reader) (W.contents writer.old) (W.contents writer.new) }
    ensures untouched { IfErr result (λ fault. fault ≢ CommandFault.Output → writer.new ≡ writer.old) }
{
    let input = read_input(alloc, reader)?;
    let line = first_line(alloc, input.as_slice(), deny_uncovered)?;
    print_line(writer, line.as_str())
}

fn read_input<R: Read + Drop>(alloc: Global, reader: R) -> Result<Vec<u8>, CommandFault>
    ensures front { IfOk result (λ input. IfSome (R.remaining reader) (λ bytes. input.items ≡ take 65536 bytes)) }
    ensures faults { IfErr result IsReadFault }
{
    let mut input = Vec::new(alloc);
    match reader.take(MAX_INPUT_BYTES).read_to_end(&mut input) {
        Ok(_) => Ok(input),
        Err(error) if error.kind() == ErrorKind::OutOfMemory => Err(CommandFault::NoMemory),
        Err(_) => Err(CommandFault::Input),
    }
}

/// Returns the line that the command `first` prints for a stream of these bytes. It is the decision of the example
/// policy on the first request, or `refused cause=NAME` if that request is refused before a decision. If the stream
/// contains no complete request, it is `none`.
pub fn first_line(alloc: Global, input: &[u8], deny_uncovered: bool) -> Result<String, NoMemory>
    ensures { IfOk result (λ line. IsFirstLine input.now deny_uncovered (string_bytes line)) }
{
    let mut inbox = Inbox::new(alloc);
    let mut items = Vec::new(alloc);
    inbox.feed(input, &mut items)?;
    item_line(alloc, first_item(items.as_slice()), deny_uncovered)
}

/// Returns the first item that is not a `Continue`.
fn first_item(items: &[Item]) -> Option<&Item>
    ensures { option_copied result ≡ first_item items.now }
{
    for item in items {
        if !matches!(item, Item::Continue) {
            return Some(item);
        }
    }
    None
}

fn item_line(alloc: Global, item: Option<&Item>, deny_uncovered: bool) -> Result<String, NoMemory>
    ensures { IfOk result (λ line. string_bytes line ≡ item_line (option_copied item.entry) deny_uncovered) }
{
    match item {
        None | Some(Item::Continue) => Ok(String::from_str(alloc, "none")?),
        Some(Item::Refuse(fault)) => refused_line(alloc, fault),
        Some(Item::Message(message)) => message_line(alloc, message, deny_uncovered),
    }
}

fn message_line(alloc: Global, message: &Message, deny_uncovered: bool) -> Result<String, NoMemory>
    ensures { IfOk result (λ line. string_bytes line ≡ message_line message.now deny_uncovered) }
{
    let Target::Path(target) = &message.target else {
        return refused_line(alloc, &"Star");
    };
    match canon(alloc, target.as_slice()) {
        Ok(canonical) => decision_line(
            alloc,
            message.method.as_str(),
            canonical.path.as_str(),
            deny_uncovered,
        ),
        Err(CanonFault::Path(fault)) => refused_line(alloc, &fault),
        Err(CanonFault::NoMemory) => Err(NoMemory),
    }
}

fn decision_line(
    alloc: Global,
    method: &str,
    path: &str,
    deny_uncovered: bool,
) -> Result<String, NoMemory>
    ensures { IfOk result (λ line. string_bytes line ≡ decision_line method.now path.now deny_uncovered) }
{
    let policy = example_constraints(alloc)?;
    let rules = Rules {
        declared: Listed::from_vec(Vec::new(alloc)),
        deny_uncovered,
    };
    let decision = decide_plain(policy.as_slice(), &rules, method, path, None);
    Ok(format!(in alloc; "{decision}")?)
}

fn refused_line<D: Display>(alloc: Global, cause: &D) -> Result<String, NoMemory>
    ensures { IfSome (D.output cause.now) (λ name. IfOk result (λ line. string_bytes line ≡ refused_line name)) }
{
    Ok(format!(in alloc; "refused cause={cause}")?)
}
