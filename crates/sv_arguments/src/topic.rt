//! The commands of the program, as topics of help.

ghost use Rattle.std.specs.Prelude.{◌≡◌, ◌↔◌, true};
ghost use Rattle.sv_arguments.specs.Topics.{IsCalled, IsHelpOption, topic_name};
ghost use Rattle.sv_arguments.specs.Values.{Finds};

/// A command of the program, as a topic of help.
#[derive(Clone, Copy)]
pub enum Topic {
    /// The command `first`.
    First,
    /// The command `policy`.
    Policy,
    /// The command `uncovered`.
    Uncovered,
    /// The command `audit`.
    Audit,
    /// The command `check`.
    Check,
    /// The command `replay`.
    Replay,
    /// The command `serve`.
    Serve,
    /// The command `run`.
    Run,
    /// The command `ctl`.
    Ctl,
    /// The command `selftest`.
    SelfTest,
    /// The command `help`.
    Help,
    /// The command `version`.
    Version,
}

/// All topics, in the order in which `help` lists them.
pub const TOPICS: [Topic; 12] = [
    Topic::First,
    Topic::Policy,
    Topic::Uncovered,
    Topic::Audit,
    Topic::Check,
    Topic::Replay,
    Topic::Serve,
    Topic::Run,
    Topic::Ctl,
    Topic::SelfTest,
    Topic::Help,
    Topic::Version,
];

impl Topic {
    /// Returns the command of this name, or none if no command has it.
    pub fn named(word: &str) -> Option<Topic>
        ensures { Finds (λ topic. word.now ≡ topic_name topic) result }
    {
        for topic in TOPICS {
            if word == topic.name() {
                return Some(topic);
            }
        }
        None
    }

    /// Returns the command that the word calls, or none. A command is called by its name; `-h` and `--help` call `help`,
    /// and `--version` calls `version`.
    pub fn called(word: &str) -> Option<Topic>
        ensures { Finds (IsCalled word.now) result }
    {
        if is_help_option(word) {
            return Some(Topic::Help);
        }
        if word == "--version" {
            return Some(Topic::Version);
        }
        Topic::named(word)
    }

    /// Returns the name of the command.
    pub fn name(self) -> &'static str
        ensures { result.now ≡ topic_name self }
    {
        match self {
            Topic::First => "first",
            Topic::Policy => "policy",
            Topic::Uncovered => "uncovered",
            Topic::Audit => "audit",
            Topic::Check => "check",
            Topic::Replay => "replay",
            Topic::Serve => "serve",
            Topic::Run => "run",
            Topic::Ctl => "ctl",
            Topic::SelfTest => "selftest",
            Topic::Help => "help",
            Topic::Version => "version",
        }
    }
}

/// Returns whether the word is an option that asks for help.
pub fn is_help_option(word: &str) -> bool
    ensures { result ≡ true ↔ IsHelpOption word.now }
{
    word == "--help" || word == "-h"
}
