//! The command that the program's arguments name.

ghost use Rattle.std.specs.Prelude.{◌≡◌, ◌↔◌, [], ◌∷◌, true, IfSome, IsSome, codes, map, string_bytes};
ghost use Rattle.sv_arguments.specs.Command.{AreWordsOf, AskAbout, AskForHelp, IsManualAfter, IsNamed};
ghost use Rattle.sv_arguments.specs.Laws.{NameOne};
ghost use Rattle.sv_arguments.specs.Topics.{IsCalled};
ghost use Rattle.sv_arguments.specs.Values.{Finds};
ghost use Rattle.sv_program.specs.Arguments.{Names, name_words};

use crate::audit_options::AuditOptions;
use crate::manual::Manual;
use crate::question::Question;
use crate::run_options::RunOptions;
use crate::service::Service;
use crate::topic::{Topic, is_help_option};
use sv_control_words::ControlRequest;
use sv_program::denies_uncovered;

/// A command of the program.
#[derive(Clone, Copy)]
pub enum Command<'a> {
    /// `first [deny]`: prints the decision of the example policy on the first request on standard input.
    First {
        /// Whether uncovered methods are denied (Jakarta Servlet 6.0, section 13.8.4.2).
        deny_uncovered: bool,
    },
    /// `policy CONFIG METHOD TARGET [USER]`: prints the decision of a server's container on a request.
    Policy(Question<'a>),
    /// `uncovered CONFIG`: prints the methods that the constraints of a server's contexts leave uncovered.
    Uncovered {
        /// The name of the server file.
        config: &'a str,
    },
    /// `audit CONFIG [OPTION ..]`: prints who may reach what in a server's contexts. [`AuditOptions::parse`] lists the
    /// options.
    Audit(AuditOptions<'a>),
    /// `check CONFIG`: reads everything that `run` reads, and prints what the contexts have or which faults they have.
    Check {
        /// The name of the server file.
        config: &'a str,
    },
    /// `replay CONFIG`: runs the script on standard input on a server's container, and prints the results.
    Replay {
        /// The name of the server file.
        config: &'a str,
    },
    /// `serve CONFIG N`: serves N connections, one after another.
    Serve(Service<'a>),
    /// `run CONFIG [OPTION ..]`: serves any number of connections, many at once. [`RunOptions::parse`] lists the
    /// options.
    Run(RunOptions<'a>),
    /// `ctl SOCKET WORD ..`: sends a line to the server at a control socket, and prints its reply.
    Ctl(ControlRequest<'a>),
    /// `selftest CONFIG`: sends one request to a server's container over its own connection, and prints the first line
    /// of the response.
    SelfTest {
        /// The name of the server file.
        config: &'a str,
    },
    /// `help [COMMAND]`: prints the usage of each command, or of one.
    Help(Option<Topic>),
    /// `help --format FORMAT`, `help config [--format FORMAT]`: prints the manual in a form.
    Manual(Manual),
    /// `version`: prints the program's name and version.
    Version,
}

impl<'a> Command<'a> {
    /// Parses the arguments, without the program's own name. Returns none if they name no command.
    ///
    /// `-h` and `--help` mean `help`, and `--version` means `version`. `COMMAND -h` and `COMMAND --help` mean
    /// `help COMMAND`, so a server file of one of these names must be written `./-h` or `./--help` if it is the only
    /// argument of `uncovered`, `audit`, `check`, `replay`, `run` or `selftest`.
    pub fn parse(arguments: &'a [String]) -> Option<Command<'a>>
        ensures { Finds (IsNamed (map string_bytes arguments.now)) result }
    {
        match help_in(arguments) {
            Some(about) => Some(Command::Help(about)),
            None => command_in(arguments),
        }
    }
}

/// Returns the command whose words the arguments are, other than `help`.
fn command_in(arguments: &[String]) -> Option<Command<'_>>
    ensures { Finds (AreWordsOf (map string_bytes arguments.now)) result }
{
    let (word, rest) = arguments.split_first()?;
    let Some(topic) = Topic::called(word.as_str()) else {
        return None;
    };
    match topic {
        Topic::First => {
            let deny_uncovered = denies_uncovered(rest)?;
            Some(Command::First { deny_uncovered })
        }
        Topic::Policy => Some(Command::Policy(Question::parse(rest)?)),
        Topic::Uncovered => {
            let config = config_in(rest)?;
            Some(Command::Uncovered { config })
        }
        Topic::Audit => audit_in(rest),
        Topic::Check => {
            let config = config_in(rest)?;
            Some(Command::Check { config })
        }
        Topic::Replay => {
            let config = config_in(rest)?;
            Some(Command::Replay { config })
        }
        Topic::Serve => Some(Command::Serve(Service::parse(rest)?)),
        Topic::Run => run_in(rest),
        Topic::Ctl => ctl_in(rest),
        Topic::SelfTest => {
            let config = config_in(rest)?;
            Some(Command::SelfTest { config })
        }
        Topic::Help => manual_in(word.as_str(), rest),
        Topic::Version => alone(rest, Command::Version),
    }
}

/// Returns the topic of the help that the arguments ask for, if they do. No topic means all commands.
fn help_in(arguments: &[String]) -> Option<Option<Topic>>
    ensures { Finds (AskForHelp (map string_bytes arguments.now)) result }
{
    let (word, rest) = arguments.split_first()?;
    let Some((next, more)) = rest.split_first() else {
        return if asks_for_all(word.as_str()) {
            Some(None)
        } else {
            None
        };
    };
    if !more.is_empty() {
        return None;
    }
    match topic_in(word.as_str(), next.as_str()) {
        Some(topic) => Some(Some(topic)),
        None => None,
    }
}

fn asks_for_all(word: &str) -> bool
    ensures { result ≡ true ↔ IsCalled word.now Topic.Help }
{
    word == "help" || is_help_option(word)
}

/// Returns the command that two words ask about.
fn topic_in(word: &str, next: &str) -> Option<Topic>
    ensures { Finds (AskAbout word.now next.now) result }
{
    if is_help_option(next) {
        return Topic::named(word);
    }
    if word == "help" {
        return Topic::named(next);
    }
    None
}

/// Returns the only argument, the name of the server file.
fn config_in(arguments: &[String]) -> Option<&str>
    ensures { Names name_words (map string_bytes arguments.now) result }
{
    let (config, rest) = arguments.split_first()?;
    if rest.is_empty() {
        Some(config.as_str())
    } else {
        None
    }
}

/// Returns the command `run` with the options in its arguments, or none.
fn run_in(arguments: &[String]) -> Option<Command<'_>>
    ensures { Finds (AreWordsOf (codes "run" ∷ map string_bytes arguments.now)) result }
{
    match RunOptions::parse(arguments) {
        Ok(options) => Some(Command::Run(options)),
        Err(_) => None,
    }
}

/// Returns the command `audit` with the options in its arguments, or none.
fn audit_in(arguments: &[String]) -> Option<Command<'_>>
    ensures { Finds (AreWordsOf (codes "audit" ∷ map string_bytes arguments.now)) result }
{
    match AuditOptions::parse(arguments) {
        Ok(options) => Some(Command::Audit(options)),
        Err(_) => None,
    }
}

/// Returns the command `ctl` with its request in its arguments, or none.
fn ctl_in(arguments: &[String]) -> Option<Command<'_>>
    ensures { Finds (AreWordsOf (codes "ctl" ∷ map string_bytes arguments.now)) result }
{
    match ControlRequest::parse(arguments) {
        Some(request) => Some(Command::Ctl(request)),
        None => None,
    }
}

/// Returns the manual that the arguments after a word ask for. Only `help` has arguments.
fn manual_in<'a>(word: &str, arguments: &[String]) -> Option<Command<'a>>
    ensures { Finds (IsManualAfter (word.now ∷ map string_bytes arguments.now)) result }
{
    if word != "help" {
        return None;
    }
    match Manual::named(arguments) {
        Some(manual) => Some(Command::Manual(manual)),
        None => None,
    }
}

/// Returns the command if it has no arguments.
fn alone<'a>(arguments: &[String], command: Command<'a>) -> Option<Command<'a>>
    ensures it { IfSome result (λ found. (found ≡ command.entry) × (map string_bytes arguments.now ≡ [])) }
    ensures some { map string_bytes arguments.now ≡ [] → IsSome result }
{
    if arguments.is_empty() {
        Some(command)
    } else {
        None
    }
}

/// Arguments name only one command, or help on only one topic.
pub fn arguments_name_one_command()
    ensures { NameOne }
{}
