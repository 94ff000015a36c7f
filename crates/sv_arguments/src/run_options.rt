//! The arguments of the command `run`.

ghost use Rattle.std.specs.Prelude.{IfErr, IfOk, List, map, string_bytes};
ghost use Rattle.sv_arguments.specs.Given.{AreOf};
ghost use Rattle.sv_arguments.specs.Laws.{AskForOne};
ghost use Rattle.sv_arguments.specs.OptionFault.{IsRefused};
ghost use Rattle.sv_arguments.specs.RunOptions.{IsAsked};
ghost use Rattle.sv_arguments.specs.RunWords.{IsAccessLogFormat};
ghost use Rattle.sv_arguments.specs.Settings.{Setting, values};
ghost use Rattle.sv_arguments.specs.Values.{Finds, SaysOr};

use crate::given::Given;
use crate::key::{Key, MAX_CONNECTIONS, MAX_HELD_MEBIBYTES, MAX_IDLE_SECONDS, MAX_SESSIONS_EVERY};
use crate::option_fault::OptionFault;
use crate::option_set::OptionSet;
use std::net::SocketAddr;

/// The form of the lines of an access log.
#[derive(Clone, Copy)]
pub enum AccessLogFormat {
    /// The combined log format, which other servers write, too.
    Combined,
    /// An object of JSON in each line.
    Json,
}

/// A server, and the options of its run.
#[derive(Clone, Copy)]
pub struct RunOptions<'a> {
    /// The name of the server file.
    pub config: &'a str,
    /// The name of the control socket file, for queries and for stopping the server, if there is one.
    pub control: Option<&'a str>,
    /// The name of the file to which the journal is appended, if there is one.
    pub journal: Option<&'a str>,
    /// The name of the file to which the access log is appended, if there is one.
    pub access_log: Option<&'a str>,
    /// The form of the lines of the access log.
    pub access_log_format: AccessLogFormat,
    /// The name of the folder in which sessions outlive a restart, if there is one.
    pub sessions: Option<&'a str>,
    /// The seconds from one writing of the sessions to the next while the server runs, or none if they are written only
    /// at the end.
    pub sessions_every: Option<u32>,
    /// Whether the sessions in that folder end.
    pub end_all_sessions: bool,
    /// The address that the server listens on, or none for 127.0.0.1 with the server file's port.
    pub listen: Option<SocketAddr>,
    /// Whether random words are derived only from the server file's seed.
    pub same_seed: bool,
    /// Maximum number of connections that are served at once, or none for the default.
    pub connections: Option<u32>,
    /// Idle timeout of a connection in seconds, or none for the default.
    pub idle_seconds: Option<u32>,
    /// Maximum number of mebibytes that all connections hold together, or none for the default.
    pub held_mebibytes: Option<u32>,
    /// The number of the descriptor at which the signals of the process are read, if there is one.
    pub signal_descriptor: Option<u32>,
}

impl<'a> RunOptions<'a> {
    /// Parses the arguments: the name of the server file, followed by options in any order, each at most once. The
    /// options are `--control SOCKET`, `--journal FILE`, `--access-log FILE`, `--access-log-format FORMAT` (`combined` or
    /// `json`; `combined` without it), which needs `--access-log`, `--sessions FOLDER`, `--sessions-every SECONDS` (1 to
    /// 86,400) and `--end-all-sessions`, which need `--sessions`, `--listen ADDRESS:PORT`, `--same-seed`, `--connections N` (1 to 1,024), `--idle-seconds N` (1 to
    /// 86,400), `--held-mebibytes N` (1 to 1,048,576) and `--signal-descriptor N` (3 to 1,048,575).
    ///
    /// # Errors
    /// The first fault, from the left, or else the first option, in this order, without the one that it needs.
    pub fn parse(arguments: &'a [String]) -> Result<RunOptions<'a>, OptionFault<'a>>
        ensures it { IfOk result (IsAsked (map string_bytes arguments.now)) }
        ensures fault { IfErr result (IsRefused OptionSet.Run (map string_bytes arguments.now)) }
    {
        let given = Given::parse(OptionSet::Run, arguments)?;
        Ok(RunOptions {
            config: given.config,
            control: given.value(Key::Control),
            journal: given.value(Key::Journal),
            access_log: given.value(Key::AccessLog),
            access_log_format: access_log_format_in(&given),
            sessions: given.value(Key::Sessions),
            sessions_every: given.count(Key::SessionsEvery, MAX_SESSIONS_EVERY),
            end_all_sessions: given.has(Key::EndAllSessions),
            listen: given.address(Key::Listen),
            same_seed: given.has(Key::SameSeed),
            connections: given.count(Key::Connections, MAX_CONNECTIONS),
            idle_seconds: given.count(Key::IdleSeconds, MAX_IDLE_SECONDS),
            held_mebibytes: given.count(Key::HeldMebibytes, MAX_HELD_MEBIBYTES),
            signal_descriptor: given.descriptor(Key::SignalDescriptor),
        })
    }
}

/// Returns the form of the lines of the access log.
fn access_log_format_in(given: &Given<'_>) -> AccessLogFormat
    ensures { (settings : List Setting) → AreOf given.now.set (map string_bytes given.now.words.now) settings
        → SaysOr AccessLogFormat.Combined IsAccessLogFormat (values Key.AccessLogFormat settings) result }
{
    match given.value(Key::AccessLogFormat) {
        Some(name) => access_log_format_named(name).unwrap_or(AccessLogFormat::Combined),
        None => AccessLogFormat::Combined,
    }
}

/// Returns the form of this name.
pub(crate) fn access_log_format_named(name: &str) -> Option<AccessLogFormat>
    ensures { Finds (IsAccessLogFormat name.now) result }
{
    match name {
        "combined" => Some(AccessLogFormat::Combined),
        "json" => Some(AccessLogFormat::Json),
        _ => None,
    }
}

/// Arguments have only one meaning.
pub fn arguments_ask_for_one_thing()
    ensures { AskForOne }
{}
