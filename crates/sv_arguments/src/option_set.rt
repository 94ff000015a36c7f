//! The commands that have options.

ghost use Rattle.std.specs.Prelude.{◌≡◌};
ghost use Rattle.sv_arguments.specs.Settings.{IsKey};
ghost use Rattle.sv_arguments.specs.Usage.{no_option, options_listing, set_topic};
ghost use Rattle.sv_arguments.specs.Values.{Finds};

use crate::key::Key;
use crate::topic::Topic;

/// The options of a command.
#[derive(Clone, Copy)]
pub(crate) enum OptionSet {
    /// Those of `run`.
    Run,
    /// Those of `audit`.
    Audit,
}

impl OptionSet {
    /// Returns the option of this word, or none if the command has no such option.
    pub(crate) fn key(self, word: &str) -> Option<Key>
        ensures { Finds (IsKey self word.now) result }
    {
        match self {
            OptionSet::Run => run_key(word),
            OptionSet::Audit => audit_key(word),
        }
    }

    /// Returns the command.
    pub(crate) fn topic(self) -> Topic
        ensures { result ≡ set_topic self }
    {
        match self {
            OptionSet::Run => Topic::Run,
            OptionSet::Audit => Topic::Audit,
        }
    }

    /// Returns the beginning of the line about a word that is not an option of the command.
    pub(crate) fn no_option(self) -> &'static str
        ensures { result.now ≡ no_option self }
    {
        match self {
            OptionSet::Run => "  run has no option ",
            OptionSet::Audit => "  audit has no option ",
        }
    }

    /// Returns the hint where the options are listed.
    pub(crate) fn listing(self) -> &'static str
        ensures { result.now ≡ options_listing self }
    {
        match self {
            OptionSet::Run => "\"sv help run\" lists the options",
            OptionSet::Audit => "\"sv help audit\" lists the options",
        }
    }
}

fn run_key(word: &str) -> Option<Key>
    ensures { Finds (IsKey OptionSet.Run word.now) result }
{
    if word == "--control" {
        return Some(Key::Control);
    }
    if word == "--journal" {
        return Some(Key::Journal);
    }
    if word == "--access-log" {
        return Some(Key::AccessLog);
    }
    if word == "--access-log-format" {
        return Some(Key::AccessLogFormat);
    }
    if word == "--sessions" {
        return Some(Key::Sessions);
    }
    if word == "--sessions-every" {
        return Some(Key::SessionsEvery);
    }
    if word == "--end-all-sessions" {
        return Some(Key::EndAllSessions);
    }
    if word == "--listen" {
        return Some(Key::Listen);
    }
    if word == "--same-seed" {
        return Some(Key::SameSeed);
    }
    if word == "--connections" {
        return Some(Key::Connections);
    }
    if word == "--idle-seconds" {
        return Some(Key::IdleSeconds);
    }
    if word == "--held-mebibytes" {
        return Some(Key::HeldMebibytes);
    }
    if word == "--signal-descriptor" {
        return Some(Key::SignalDescriptor);
    }
    None
}

fn audit_key(word: &str) -> Option<Key>
    ensures { Finds (IsKey OptionSet.Audit word.now) result }
{
    if word == "--secure" {
        return Some(Key::Secure);
    }
    if word == "--format" {
        return Some(Key::Format);
    }
    if word == "--as" {
        return Some(Key::As);
    }
    if word == "--role" {
        return Some(Key::Role);
    }
    if word == "--fail-on" {
        return Some(Key::FailOn);
    }
    if word == "--accept" {
        return Some(Key::Accept);
    }
    if word == "--lines" {
        return Some(Key::Lines);
    }
    if word == "--unknown-files" {
        return Some(Key::UnknownFiles);
    }
    if word == "--path" {
        return Some(Key::Path);
    }
    if word == "--method" {
        return Some(Key::Method);
    }
    if word == "--diff" {
        return Some(Key::Diff);
    }
    None
}
