//! The second line about arguments that name no command: what is wrong with them, and how to get help.

ghost use Rattle.std.specs.Prelude.{◌≡◌, ◌++◌, IfOk, codes, map, option_copied, string_bytes};
ghost use Rattle.sv_arguments.specs.Command.{NameNothing};
ghost use Rattle.sv_arguments.specs.Laws.{AreAllKeys, AreOwnKeys, HaveOneLine, ManualHasCommands, ManualHasOptions, ManualHasUsages, TakeTheirWords, TakesManuals};
ghost use Rattle.sv_arguments.specs.Near.{near};
ghost use Rattle.sv_arguments.specs.AuditOptions.{IsAudit};
ghost use Rattle.sv_arguments.specs.AuditWords.{format_name};
ghost use Rattle.sv_arguments.specs.RunOptions.{IsAsked};
ghost use Rattle.sv_arguments.specs.Settings.{key_word, option_words};
ghost use Rattle.sv_arguments.specs.Usage as spec;
ghost use Rattle.sv_arguments.specs.declared.audit_options.AuditOptions.{AuditOptions};
ghost use Rattle.sv_arguments.specs.declared.run_options.RunOptions.{RunOptions};
ghost use Rattle.sv_program.specs.Shown as shown;
ghost use Rattle.sv_text.specs.Gives.{GivesAnswer};

use crate::audit_options::{AuditOptions, format_word};
use crate::control_usage::control_detail;
use crate::help_usage::help_detail;
use crate::key::Key;
use crate::near::nearest;
use crate::option_fault::OptionFault;
use crate::option_set::OptionSet;
use crate::plain::{lacks_line, plain_line};
use crate::run_options::RunOptions;
use crate::topic::Topic;
use crate::unknown_names::{hint, unknown_command};
use std::alloc::Global;
use sv_audit_command::Format;
use sv_program::quoted;
use sv_text::{NoMemory, Text};

/// The options of `run`, in the order of its help.
const RUN_OPTIONS: [&str; 13] = [
    "--control",
    "--journal",
    "--access-log",
    "--access-log-format",
    "--sessions",
    "--sessions-every",
    "--end-all-sessions",
    "--listen",
    "--same-seed",
    "--connections",
    "--idle-seconds",
    "--held-mebibytes",
    "--signal-descriptor",
];

/// The options of `audit`, in the order of its help.
const AUDIT_OPTIONS: [&str; 11] = [
    "--secure",
    "--format",
    "--as",
    "--role",
    "--fail-on",
    "--accept",
    "--lines",
    "--unknown-files",
    "--path",
    "--method",
    "--diff",
];

/// Returns the line that says what is wrong with arguments that name no command, without a line feed. It shows a word
/// of the arguments as a TOML basic string of at most 80 characters, so that no control character is printed. For
/// arguments that name a command the line says nothing.
///
/// # Errors
/// [`NoMemory`].
pub fn usage_detail(alloc: Global, arguments: &[String]) -> Result<Text, NoMemory>
    ensures { IfOk result (λ line. NameNothing (map string_bytes arguments.now) → spec.IsUsageLine (map string_bytes arguments.now) line) }
{
    let Some((word, rest)) = arguments.split_first() else {
        return Text::copy_of(
            alloc,
            "  no command is given; \"sv help\" lists the commands",
        );
    };
    match Topic::called(word.as_str()) {
        None => unknown_command(alloc, word.as_str()),
        Some(Topic::Run) => run_detail(alloc, rest),
        Some(Topic::Audit) => audit_detail(alloc, rest),
        Some(Topic::Ctl) => control_detail(alloc, rest),
        Some(Topic::Help) => help_detail(alloc, word.as_str(), rest),
        Some(topic) => plain_line(alloc, topic, rest),
    }
}

/// Returns the line about these arguments of `run`.
fn run_detail(alloc: Global, arguments: &[String]) -> Result<Text, NoMemory>
    ensures { IfOk result (λ line. ((options : RunOptions) → IsAsked (map string_bytes arguments.now) options → ⊥) → spec.IsOptionLine OptionSet.Run (map string_bytes arguments.now) line) }
{
    match RunOptions::parse(arguments) {
        Ok(_) => lacks_line(alloc, Topic::Run),
        Err(fault) => option_fault_line(alloc, OptionSet::Run, fault),
    }
}

/// Returns the line about these arguments of `audit`.
fn audit_detail(alloc: Global, arguments: &[String]) -> Result<Text, NoMemory>
    ensures { IfOk result (λ line. ((options : AuditOptions) → IsAudit (map string_bytes arguments.now) options → ⊥) → spec.IsOptionLine OptionSet.Audit (map string_bytes arguments.now) line) }
{
    match AuditOptions::parse(arguments) {
        Ok(_) => lacks_line(alloc, Topic::Audit),
        Err(fault) => option_fault_line(alloc, OptionSet::Audit, fault),
    }
}

fn unknown_option(alloc: Global, set: OptionSet, word: &str) -> Result<Text, NoMemory>
    ensures { GivesAnswer result (spec.unknown_option set word.now) }
{
    let name = near_option(alloc, set, word)?;
    let hint = hint(alloc, name, set.listing())?;
    let front = set.no_option();
    let word = quoted(alloc, word)?;
    Ok(Text::from_string(format!(in alloc; "{front}{word}; {hint}")?))
}

fn near_option(alloc: Global, set: OptionSet, word: &str) -> Result<Option<&'static str>, NoMemory>
    ensures { IfOk result (λ found. option_copied found ≡ near (option_words set) word.now) }
{
    match set {
        OptionSet::Run => near_run_option(alloc, word),
        OptionSet::Audit => near_audit_option(alloc, word),
    }
}

fn near_run_option(alloc: Global, word: &str) -> Result<Option<&'static str>, NoMemory>
    ensures { IfOk result (λ found. option_copied found ≡ near (option_words OptionSet.Run) word.now) }
{
    nearest(alloc, &RUN_OPTIONS, word)
}

fn near_audit_option(alloc: Global, word: &str) -> Result<Option<&'static str>, NoMemory>
    ensures { IfOk result (λ found. option_copied found ≡ near (option_words OptionSet.Audit) word.now) }
{
    nearest(alloc, &AUDIT_OPTIONS, word)
}

fn option_fault_line(
    alloc: Global,
    set: OptionSet,
    fault: OptionFault<'_>,
) -> Result<Text, NoMemory>
    ensures { GivesAnswer result (spec.option_fault_line set fault.entry) }
{
    match fault {
        OptionFault::NoServer => lacks_line(alloc, set.topic()),
        OptionFault::Unknown(word) => unknown_option(alloc, set, word),
        OptionFault::Twice(key) => twice_line(alloc, key),
        OptionFault::Excluded(key, other) => excluded_line(alloc, key, other),
        OptionFault::NoValue(key) => needs_line(alloc, key),
        OptionFault::BadValue(key, value) => bad_value_line(alloc, key, value),
        OptionFault::Alone(key, other) => alone_line(alloc, key, other),
        OptionFault::Unfit(form) => unfit_line(alloc, form),
    }
}

fn twice_line(alloc: Global, key: Key) -> Result<Text, NoMemory>
    ensures { GivesAnswer result (codes "  " ++ key_word key ++ codes " is given twice") }
{
    let word = key.word();
    Ok(Text::from_string(format!(in alloc; "  {word} is given twice")?))
}

fn excluded_line(alloc: Global, key: Key, other: Key) -> Result<Text, NoMemory>
    ensures { GivesAnswer result (codes "  " ++ key_word key ++ codes " cannot be given with " ++ key_word other) }
{
    let (word, earlier) = (key.word(), other.word());
    Ok(Text::from_string(format!(in alloc; "  {word} cannot be given with {earlier}")?))
}

fn needs_line(alloc: Global, key: Key) -> Result<Text, NoMemory>
    ensures { GivesAnswer result (spec.needs_line key) }
{
    let (word, value) = (key.word(), key.value_name());
    Ok(Text::from_string(format!(in alloc; "  {word} needs {value}")?))
}

fn bad_value_line(alloc: Global, key: Key, value: &str) -> Result<Text, NoMemory>
    ensures { GivesAnswer result (spec.needs_line key ++ codes ", not " ++ shown.quoted value.now) }
{
    let needs = needs_line(alloc, key)?;
    let value = quoted(alloc, value)?;
    Ok(Text::from_string(format!(in alloc; "{needs}, not {value}")?))
}

fn alone_line(alloc: Global, key: Key, other: Key) -> Result<Text, NoMemory>
    ensures { GivesAnswer result (codes "  " ++ key_word key ++ codes " needs " ++ key_word other) }
{
    let (word, needed) = (key.word(), other.word());
    Ok(Text::from_string(format!(in alloc; "  {word} needs {needed}")?))
}

fn unfit_line(alloc: Global, form: Format) -> Result<Text, NoMemory>
    ensures { GivesAnswer result (codes "  --format " ++ format_name form ++ codes " cannot be given with --diff") }
{
    let name = format_word(form);
    Ok(Text::from_string(format!(in alloc; "  --format {name} cannot be given with --diff")?))
}

/// Arguments that name no command have only one second line.
pub fn wrong_arguments_have_one_line()
    ensures { HaveOneLine }
{}

/// A command without options is named with as many words as the line about its arguments says, and no word of a manual
/// is one that `help` does not take.
pub fn commands_take_their_words()
    ensures words { TakeTheirWords }
    ensures manuals { TakesManuals }
{}

/// The manual has the commands of the program with their usages, and exactly their options.
pub fn the_manual_is_of_this_program()
    ensures commands { ManualHasCommands }
    ensures usages { ManualHasUsages }
    ensures options { ManualHasOptions }
    ensures all_keys { AreAllKeys }
    ensures own_keys { AreOwnKeys }
{}
