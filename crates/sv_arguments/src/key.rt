//! The options of the commands.

ghost use Rattle.std.specs.Prelude.{◌≡◌, ◌↔◌, true};
ghost use Rattle.sv_arguments.specs.Options.{IsValue};
ghost use Rattle.sv_arguments.specs.Settings.{key_word, rivals, takes_word, value_name};

use crate::audit_options::format_named;
use crate::count::{address_in, count_in, descriptor_in};
use crate::run_options::access_log_format_named;
use sv_audit_command::are_kinds;

/// Maximum value of `--connections`.
pub(crate) const MAX_CONNECTIONS: u32 = 1024;

/// Maximum value of `--idle-seconds`: a day.
pub(crate) const MAX_IDLE_SECONDS: u32 = 86_400;

/// Maximum value of `--sessions-every`: a day.
pub(crate) const MAX_SESSIONS_EVERY: u32 = 86_400;

/// Maximum value of `--held-mebibytes`: a tebibyte.
pub(crate) const MAX_HELD_MEBIBYTES: u32 = 1_048_576;

/// An option of a command. No two have the same word.
#[derive(Clone, Copy)]
pub enum Key {
    /// `--control SOCKET`: the name of the control socket file, for queries and for stopping the server.
    Control,
    /// `--journal FILE`: the name of the file to which the journal is appended.
    Journal,
    /// `--access-log FILE`: the name of the file to which the access log is appended.
    AccessLog,
    /// `--access-log-format FORMAT`: the form of the lines of the access log.
    AccessLogFormat,
    /// `--sessions FOLDER`: the name of the folder in which sessions outlive a restart.
    Sessions,
    /// `--sessions-every SECONDS`: the seconds from one writing of the sessions to the next, while the server runs.
    SessionsEvery,
    /// `--end-all-sessions`: the sessions in that folder end.
    EndAllSessions,
    /// `--listen ADDRESS:PORT`: the address that the server listens on.
    Listen,
    /// `--same-seed`: random words are derived only from the server file's seed.
    SameSeed,
    /// `--connections N`: maximum number of connections that are served at once.
    Connections,
    /// `--idle-seconds N`: idle timeout of a connection, in seconds.
    IdleSeconds,
    /// `--held-mebibytes N`: maximum number of mebibytes that all connections hold together.
    HeldMebibytes,
    /// `--signal-descriptor N`: the number of the descriptor at which the signals of the process are read.
    SignalDescriptor,
    /// `--secure`: requests arrive over a connection whose transport is guaranteed.
    Secure,
    /// `--format FORMAT`: the form of the report.
    Format,
    /// `--as USER`: the user who sends the requests.
    As,
    /// `--role ROLE`: the role of a caller who sends the requests.
    Role,
    /// `--fail-on KINDS`: the kinds of findings with which the command fails.
    FailOn,
    /// `--accept FILE`: the name of the file of accepted findings.
    Accept,
    /// `--lines FILE`: the name of the file of the lines on which the constraints of an imported descriptor begin.
    Lines,
    /// `--unknown-files`: contexts without a folder may have files that are not known.
    UnknownFiles,
    /// `--path TARGET`: the target of the request that is explained.
    Path,
    /// `--method METHOD`: the method of that request.
    Method,
    /// `--diff OTHER`: the name of the server file that is compared with the first.
    Diff,
}

impl Key {
    /// Returns the word of the option.
    pub(crate) fn word(self) -> &'static str
        ensures { result.now ≡ key_word self }
    {
        match self {
            Key::Control => "--control",
            Key::Journal => "--journal",
            Key::AccessLog => "--access-log",
            Key::AccessLogFormat => "--access-log-format",
            Key::Sessions => "--sessions",
            Key::SessionsEvery => "--sessions-every",
            Key::EndAllSessions => "--end-all-sessions",
            Key::Listen => "--listen",
            Key::SameSeed => "--same-seed",
            Key::Connections => "--connections",
            Key::IdleSeconds => "--idle-seconds",
            Key::HeldMebibytes => "--held-mebibytes",
            Key::SignalDescriptor => "--signal-descriptor",
            Key::Secure => "--secure",
            Key::Format => "--format",
            Key::As => "--as",
            Key::Role => "--role",
            Key::FailOn => "--fail-on",
            Key::Accept => "--accept",
            Key::Lines => "--lines",
            Key::UnknownFiles => "--unknown-files",
            Key::Path => "--path",
            Key::Method => "--method",
            Key::Diff => "--diff",
        }
    }

    /// Returns what the option needs after its word, for a message.
    pub(crate) fn value_name(self) -> &'static str
        ensures { result.now ≡ value_name self }
    {
        match self {
            Key::Control => "SOCKET",
            Key::Journal => "FILE",
            Key::AccessLog => "FILE",
            Key::AccessLogFormat => "combined or json",
            Key::Sessions => "FOLDER",
            Key::SessionsEvery => "a number from 1 to 86400",
            Key::EndAllSessions => "nothing",
            Key::Listen => "an address and a port, as 127.0.0.1:8080",
            Key::SameSeed => "nothing",
            Key::Connections => "a number from 1 to 1024",
            Key::IdleSeconds => "a number from 1 to 86400",
            Key::HeldMebibytes => "a number from 1 to 1048576",
            Key::SignalDescriptor => "a number from 3 to 1048575",
            Key::Secure => "nothing",
            Key::Format => "text, json, html or keys",
            Key::As => "USER",
            Key::Role => "ROLE",
            Key::FailOn => "any, or kinds that \"sv help audit\" lists, joined by commas",
            Key::Accept => "FILE",
            Key::Lines => "FILE",
            Key::UnknownFiles => "nothing",
            Key::Path => "TARGET",
            Key::Method => "METHOD",
            Key::Diff => "a server file",
        }
    }

    /// Returns whether a word follows the option's own.
    pub(crate) fn takes_word(self) -> bool
        ensures { result ≡ takes_word self }
    {
        match self {
            Key::Control => true,
            Key::Journal => true,
            Key::AccessLog => true,
            Key::AccessLogFormat => true,
            Key::Sessions => true,
            Key::SessionsEvery => true,
            Key::EndAllSessions => false,
            Key::Listen => true,
            Key::SameSeed => false,
            Key::Connections => true,
            Key::IdleSeconds => true,
            Key::HeldMebibytes => true,
            Key::SignalDescriptor => true,
            Key::Secure => false,
            Key::Format => true,
            Key::As => true,
            Key::Role => true,
            Key::FailOn => true,
            Key::Accept => true,
            Key::Lines => true,
            Key::UnknownFiles => false,
            Key::Path => true,
            Key::Method => true,
            Key::Diff => true,
        }
    }

    /// Returns the options that cannot be given with this one, in the order of the help.
    pub(crate) fn rivals(self) -> &'static [Key]
        ensures { result.now ≡ rivals self }
    {
        match self {
            Key::Control => &[],
            Key::Journal => &[],
            Key::AccessLog => &[],
            Key::AccessLogFormat => &[],
            Key::Sessions => &[],
            Key::SessionsEvery => &[],
            Key::EndAllSessions => &[],
            Key::Listen => &[],
            Key::SameSeed => &[],
            Key::Connections => &[],
            Key::IdleSeconds => &[],
            Key::HeldMebibytes => &[],
            Key::SignalDescriptor => &[],
            Key::Secure => &[],
            Key::Format => &[Key::Path],
            Key::As => &[Key::Role, Key::Diff],
            Key::Role => &[Key::As, Key::Diff],
            Key::FailOn => &[Key::Path],
            Key::Accept => &[Key::Path, Key::Diff],
            Key::Lines => &[Key::Diff],
            Key::UnknownFiles => &[Key::Diff],
            Key::Path => &[Key::Format, Key::FailOn, Key::Accept, Key::Diff],
            Key::Method => &[Key::Diff],
            Key::Diff => &[
                Key::As,
                Key::Role,
                Key::Accept,
                Key::Lines,
                Key::UnknownFiles,
                Key::Path,
                Key::Method,
            ],
        }
    }

    /// Returns whether the word is a value of the option, which takes a word.
    pub(crate) fn is_value(self, word: &str) -> bool
        requires { takes_word self ≡ true }
        ensures { result ≡ true ↔ IsValue self word.now }
    {
        match self {
            Key::Control => true,
            Key::Journal => true,
            Key::AccessLog => true,
            Key::AccessLogFormat => access_log_format_named(word).is_some(),
            Key::Sessions => true,
            Key::SessionsEvery => count_in(word, MAX_SESSIONS_EVERY).is_some(),
            Key::EndAllSessions => word.is_empty(),
            Key::Listen => address_in(word).is_some(),
            Key::SameSeed => word.is_empty(),
            Key::Connections => count_in(word, MAX_CONNECTIONS).is_some(),
            Key::IdleSeconds => count_in(word, MAX_IDLE_SECONDS).is_some(),
            Key::HeldMebibytes => count_in(word, MAX_HELD_MEBIBYTES).is_some(),
            Key::SignalDescriptor => descriptor_in(word).is_some(),
            Key::Secure => word.is_empty(),
            Key::Format => format_named(word).is_some(),
            Key::As => true,
            Key::Role => true,
            Key::FailOn => are_kinds(word),
            Key::Accept => true,
            Key::Lines => true,
            Key::UnknownFiles => word.is_empty(),
            Key::Path => true,
            Key::Method => true,
            Key::Diff => true,
        }
    }
}
