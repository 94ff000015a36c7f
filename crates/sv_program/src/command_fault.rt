//! Faults that end a command early, with their lines on standard error and their exit statuses.

ghost use Rattle.std.specs.Prelude.{◌≡◌, ◌++◌, Some};
ghost use Rattle.sv_program.specs.CommandFault.{fault_line, fault_text, key_text, status_of};
ghost use Rattle.sv_program.specs.FaultDetail.{IsFaultDetail};
ghost use Rattle.sv_program.specs.FaultLine.{line_text, shown_text};

use crate::detail::{Detail, files_detail, socket_detail, start_detail};
use crate::file_fault::FileFault;
use crate::file_place::FilePlace;
use crate::refusal::Refusal;
use crate::socket_fault::SocketFault;
use crate::unavailable::{Unavailable, UnavailableEntry};
use std::alloc::{AllocError, AllocFailed};
use std::error::Error;
use std::fmt;
use sv_files::FilesFault;
use sv_journal::NewCode;
use sv_text::{NoMemory, Text};
use sv_uri::shown_context;

/// A fault that ends a command early. Its text is the line that the program writes on standard error. Standard output
/// may have been written before `Output`, `Start`, `Socket`, `Script`, `Findings`, `Faults` and `NoMemory`. Before any other fault
/// it is unwritten.
#[derive(Drop)]
pub enum CommandFault {
    /// Standard input could not be read: `sv: file stdin`, status 1.
    Input,
    /// Standard output could not be written: `sv: file stdout`, status 1. A part of the output may have been written.
    Output,
    /// A file of this name is not available: `sv: file NAME`, status 1. The name is the one in the arguments or in the
    /// server file, or `random` for the system's random source.
    File(Text, Unavailable),
    /// A directory of static files is not available: `sv: file NAME`, status 1.
    Folder {
        /// The name of the directory in the server file.
        name: Text,
        /// What of the directory is not available.
        entry: UnavailableEntry,
    },
    /// The server file does not have the required format: `sv: server CODE KEY`, status 1.
    Server(FileFault),
    /// The deployment descriptor of the context does not have the required format: `sv: descriptor CONTEXT CODE KEY`,
    /// status 1.
    Descriptor {
        /// The context path.
        context: Text,
        /// The first fault of the file.
        fault: FileFault,
    },
    /// The users file of the context does not have the required format: `sv: users CONTEXT CODE KEY`, status 1.
    Users {
        /// The context path.
        context: Text,
        /// The first fault of the file.
        fault: FileFault,
    },
    /// The program has no such class for a component of its kind: `sv: class NAME`, status 1.
    Class {
        /// The class.
        name: Text,
        /// Where the descriptor names the class.
        place: FilePlace,
        /// The classes that the program has.
        known: Text,
    },
    /// The files of the context are refused: `sv: files CONTEXT CODE`, status 1.
    Files {
        /// The context path.
        context: Text,
        /// The reason.
        fault: FilesFault,
        /// The path of the file that has a path that no target can name, or too many bytes.
        path: Option<Text>,
    },
    /// The container does not start: `sv: start CODE CONTEXT`, status 1.
    Start {
        /// The reason.
        code: NewCode,
        /// The context path that goes with the reason.
        context: Text,
    },
    /// A socket is not available, or failed: `sv: socket`, status 1.
    Socket(SocketFault),
    /// A line of a script is malformed, or requests something that the container refuses: `sv: script LINE`, status 2.
    Script {
        /// The number of the line, from 1.
        line: u64,
    },
    /// The context has no user of this name: `sv: user`, status 2. The name is a TOML basic string.
    User(Text),
    /// No context knows the role of this name: `sv: role`, status 2. The name is a TOML basic string.
    Role(Text),
    /// The text is not a method: `sv: method`, status 2. It is a TOML basic string.
    Method(Text),
    /// A server at a control socket did not do what it was asked for: `sv: refused`, status 1.
    Refused(Refusal),
    /// Memory ran out: `sv: no memory`, status 3.
    NoMemory,
    /// A report was written, and has this number of findings that must not be there: `sv: findings NUMBER`, status 4.
    Findings(u64),
    /// A report was written, and has this number of faults of configuration files: `sv: faults NUMBER`, status 1.
    Faults(u64),
}

impl CommandFault {
    /// Returns the exit status of a program that ends with this fault.
    pub fn status(&self) -> u8
        ensures { result ≡ status_of self.now }
    {
        match self {
            CommandFault::Input
            | CommandFault::Output
            | CommandFault::File(_, _)
            | CommandFault::Folder { .. }
            | CommandFault::Server(_)
            | CommandFault::Descriptor { .. }
            | CommandFault::Users { .. }
            | CommandFault::Class { .. }
            | CommandFault::Files { .. }
            | CommandFault::Start { .. }
            | CommandFault::Socket(_)
            | CommandFault::Refused(_)
            | CommandFault::Faults(_) => 1,
            CommandFault::Script { .. }
            | CommandFault::User(_)
            | CommandFault::Role(_)
            | CommandFault::Method(_) => 2,
            CommandFault::NoMemory => 3,
            CommandFault::Findings(_) => 4,
        }
    }
}

impl CommandFault {
    /// Returns the second line on standard error, which says why the first one is printed. Only [`CommandFault::NoMemory`]
    /// has none.
    pub fn detail(&self) -> Option<Detail<'_>>
        ensures { IsFaultDetail self.now result }
    {
        match self {
            CommandFault::File(name, why) => Some(Detail::Named(name.as_str(), *why)),
            CommandFault::Folder { name, entry } => Some(Detail::Entry(
                name.as_str(),
                entry.path.as_str(),
                entry.why,
            )),
            CommandFault::Server(fault) => Some(Detail::Line(fault.detail())),
            CommandFault::Descriptor { fault, .. } => Some(Detail::Line(fault.detail())),
            CommandFault::Users { fault, .. } => Some(Detail::Line(fault.detail())),
            CommandFault::Class { place, known, .. } => {
                Some(Detail::Classes(place.text(), known.as_str()))
            }
            CommandFault::Files { fault, path, .. } => Some(files_detail(path, *fault)),
            CommandFault::Start { code, .. } => Some(start_detail(*code)),
            CommandFault::Socket(fault) => Some(socket_detail(*fault)),
            CommandFault::Script { .. } => Some(Detail::Sentence(SCRIPT_REASON)),
            CommandFault::User(shown) => Some(Detail::User(shown.as_str())),
            CommandFault::Role(shown) => Some(Detail::Role(shown.as_str())),
            CommandFault::Method(shown) => Some(Detail::Method(shown.as_str())),
            CommandFault::Refused(refusal) => Some(Detail::Sentence(refusal.text())),
            CommandFault::Input => Some(Detail::Sentence(INPUT_REASON)),
            CommandFault::Output => Some(Detail::Sentence(OUTPUT_REASON)),
            CommandFault::NoMemory => None,
            CommandFault::Findings(_) => Some(Detail::Sentence(FINDINGS_REASON)),
            CommandFault::Faults(_) => Some(Detail::Sentence(FAULTS_REASON)),
        }
    }
}

/// Why a command ends without its input.
const INPUT_REASON: &str = "standard input cannot be read";

/// Why a command ends before its output is complete.
const OUTPUT_REASON: &str = "standard output cannot be written, and may be incomplete";

/// Why a command fails after a report with findings.
const FINDINGS_REASON: &str = "the report shows them; --fail-on names their kinds";

/// Why a command fails after a report with faults.
const FAULTS_REASON: &str = "the report shows them";

/// Why a script ends at a line.
const SCRIPT_REASON: &str = "the line is malformed, or the container refuses what it requests";

impl fmt::Display for CommandFault {
    ghost output = { λ fault. Some (fault_line fault) };

    fn fmt<W: fmt::Write>(&self, f: &mut fmt::Formatter<W>) -> fmt::Result {
        self.line().fmt(f)
    }
}

impl CommandFault {
    /// Returns the line on standard error.
    fn line(&self) -> Line<'_>
        ensures { line_text result ≡ fault_line self.now }
    {
        match self {
            CommandFault::Input => plain("sv: file stdin"),
            CommandFault::Output => plain("sv: file stdout"),
            CommandFault::File(name, _) => named("sv: file ", name.as_str()),
            CommandFault::Folder { name, .. } => named("sv: file ", name.as_str()),
            CommandFault::Server(fault) => Line {
                front: "sv: server",
                place: "",
                end: LineEnd::Shown(numbered(fault)),
            },
            CommandFault::Descriptor { context, fault } => Line {
                front: "sv: descriptor ",
                place: shown_context(context.as_str()),
                end: LineEnd::Shown(numbered(fault)),
            },
            CommandFault::Users { context, fault } => Line {
                front: "sv: users ",
                place: shown_context(context.as_str()),
                end: LineEnd::Shown(numbered(fault)),
            },
            CommandFault::Class { name, .. } => named("sv: class ", name.as_str()),
            CommandFault::Files { context, fault, .. } => Line {
                front: "sv: files ",
                place: shown_context(context.as_str()),
                end: LineEnd::Number(u64::from(fault.number())),
            },
            CommandFault::Start { code, context } => Line {
                front: "sv: start",
                place: "",
                end: LineEnd::Shown(Shown {
                    code: code.number(),
                    key: shown_context(context.as_str()),
                }),
            },
            CommandFault::Socket(_) => plain("sv: socket"),
            CommandFault::Script { line } => Line {
                front: "sv: script",
                place: "",
                end: LineEnd::Number(*line),
            },
            CommandFault::User(_) => plain("sv: user"),
            CommandFault::Role(_) => plain("sv: role"),
            CommandFault::Method(_) => plain("sv: method"),
            CommandFault::Refused(_) => plain("sv: refused"),
            CommandFault::NoMemory => plain("sv: no memory"),
            CommandFault::Findings(number) => Line {
                front: "sv: findings",
                place: "",
                end: LineEnd::Number(*number),
            },
            CommandFault::Faults(number) => Line {
                front: "sv: faults",
                place: "",
                end: LineEnd::Number(*number),
            },
        }
    }
}

/// A line on standard error.
#[derive(Clone, Copy)]
struct Line<'a> {
    front: &'static str,
    /// The name of a file or a class, or the path of a context, after the front.
    place: &'a str,
    /// The end of the line.
    end: LineEnd<'a>,
}

/// The end of a line on standard error.
#[derive(Clone, Copy)]
enum LineEnd<'a> {
    Nothing,
    /// A space and a number.
    Number(u64),
    /// A space, a number and a word.
    Shown(Shown<'a>),
}

/// Returns a line with only this text.
fn plain(text: &'static str) -> Line<'static>
    ensures { line_text result ≡ text.now }
{
    named(text, "")
}

/// Returns the line of a text followed by a name.
fn named<'a>(front: &'static str, name: &'a str) -> Line<'a>
    ensures { line_text result ≡ front.now ++ name.now }
{
    Line {
        front,
        place: name,
        end: LineEnd::Nothing,
    }
}

impl fmt::Display for Line<'_> {
    ghost output = { λ line. Some (line_text line) };

    fn fmt<W: fmt::Write>(&self, f: &mut fmt::Formatter<W>) -> fmt::Result {
        match &self.end {
            LineEnd::Nothing => write!(f, "{}{}", self.front, self.place),
            LineEnd::Number(number) => write!(f, "{}{} {number}", self.front, self.place),
            LineEnd::Shown(shown) => write!(f, "{}{} {shown}", self.front, self.place),
        }
    }
}

/// A number and a word: the fault of a configuration file with its key, or the fault of a start with its context.
#[derive(Clone, Copy)]
struct Shown<'a> {
    code: u8,
    key: &'a str,
}

impl fmt::Display for Shown<'_> {
    ghost output = { λ shown. Some (shown_text shown) };

    fn fmt<W: fmt::Write>(&self, f: &mut fmt::Formatter<W>) -> fmt::Result {
        write!(f, "{} {}", self.code, self.key)
    }
}

/// Returns the number and the key of a fault.
fn numbered(fault: &FileFault) -> Shown<'_>
    ensures { shown_text result ≡ fault_text fault.now.found.fault }
{
    Shown {
        code: fault.fault().code.number(),
        key: shown_key(fault),
    }
}

/// Returns the key of a fault, or `-` if it is empty.
fn shown_key(fault: &FileFault) -> &str
    ensures { result.now ≡ key_text fault.now.found.fault.key }
{
    if fault.fault().key.as_str().is_empty() {
        "-"
    } else {
        fault.key()
    }
}

impl fmt::Debug for CommandFault {
    fn fmt<W: fmt::Write>(&self, f: &mut fmt::Formatter<W>) -> fmt::Result {
        fmt::Display::fmt(self, f)
    }
}

impl Error for CommandFault {}

impl From<NoMemory> for CommandFault {
    ghost use Rattle.sv_program.specs.declared.command_fault.CommandFault.TheVariants.{NoMemory};

    ghost from_gives = { λ _ fault. fault ≡ NoMemory };

    fn from(_: NoMemory) -> CommandFault {
        CommandFault::NoMemory
    }
}

impl From<AllocError> for CommandFault {
    ghost use Rattle.sv_program.specs.declared.command_fault.CommandFault.TheVariants.{NoMemory};

    ghost from_gives = { λ _ fault. fault ≡ NoMemory };

    fn from(_: AllocError) -> CommandFault {
        CommandFault::NoMemory
    }
}

impl<T: Drop> From<AllocFailed<T>> for CommandFault {
    ghost use Rattle.sv_program.specs.declared.command_fault.CommandFault.TheVariants.{NoMemory};

    ghost from_gives = { λ _ fault. fault ≡ NoMemory };

    fn from(_: AllocFailed<T>) -> CommandFault {
        CommandFault::NoMemory
    }
}
