//! The second line of a fault.

ghost use Rattle.std.specs.Prelude.{◌≡◌, ◌++◌, Some, codes};
ghost use Rattle.sv_program.specs.Detail as spec;
ghost use Rattle.sv_program.specs.FaultDetail.{files_reason, socket_reason, start_reason};

use crate::socket_fault::SocketFault;
use crate::unavailable::Unavailable;
use std::fmt;
use std::net::SocketAddr;
use sv_files::FilesFault;
use sv_journal::{NewCode, Place, StartCode};
use sv_text::Text;

/// The second line of a fault. It is printed without its line feed.
#[derive(Clone, Copy)]
pub enum Detail<'a> {
    /// The line of a fault of a configuration file: `  FILE:LINE: PROBLEM: VALUE`. The number of the line is left out if
    /// it is not known, and the value if it is secret or the problem is not about a value.
    Line(&'a str),
    /// The file of this name is not available: `  NAME: REASON`. An empty name is told in words.
    Named(&'a str, Unavailable),
    /// The directory of this name, or the entry at this path within it, is not available: `  NAMEPATH: REASON`.
    Entry(&'a str, &'a str, Unavailable),
    /// The static file at this path is refused: `  PATH: REASON`.
    StaticFile(&'a str, &'static str),
    /// The address is not available: `  ADDRESS: REASON`.
    Address(SocketAddr, Unavailable),
    /// The component whose `init` failed: `  servlet PLACE of its descriptor: init failed`. The place counts the
    /// servlets, or the filters, from 1.
    Component(Place),
    /// The place at which an unknown class is named, and the classes that the program has:
    /// `  PLACE: the program has CLASSES`.
    Classes(&'a str, &'a str),
    /// The context has no such user. The name is a TOML basic string.
    User(&'a str),
    /// No context knows such a role. The name is a TOML basic string.
    Role(&'a str),
    /// The text is not a method. It is a TOML basic string.
    Method(&'a str),
    /// A sentence.
    Sentence(&'a str),
}

impl fmt::Display for Detail<'_> {
    ghost output = { λ detail. Some (spec.detail_text detail) };

    fn fmt<W: fmt::Write>(&self, f: &mut fmt::Formatter<W>) -> fmt::Result {
        match self {
            Detail::Line(line) => write!(f, "{line}"),
            Detail::Named(name, why) if name.is_empty() => {
                write!(f, "  an empty name: {}", why.text())
            }
            Detail::Named(name, why) => write!(f, "  {name}: {}", why.text()),
            Detail::Entry(name, path, why) => write!(f, "  {name}{path}: {}", why.text()),
            Detail::StaticFile(path, reason) => write!(f, "  {path}: {reason}"),
            Detail::Address(address, why) => write!(f, "  {address}: {}", why.text()),
            Detail::Component(place) => write!(
                f,
                "  {} {} of its descriptor: init failed",
                kind_of(*place),
                number_of(*place)
            ),
            Detail::Classes(place, classes) => write!(f, "  {place}: the program has {classes}"),
            Detail::User(shown) => write!(f, "  the context has no user {shown}"),
            Detail::Role(shown) => write!(f, "  no context knows the role {shown}"),
            Detail::Method(shown) => write!(f, "  the method is not a token: {shown}"),
            Detail::Sentence(sentence) => write!(f, "  {sentence}"),
        }
    }
}

/// Returns the word for the kind of the component at this place.
fn kind_of(place: Place) -> &'static str
    ensures { result.now ≡ spec.place_kind place }
{
    match place {
        Place::Servlet(_) => "servlet",
        Place::Filter(_) => "filter",
    }
}

/// Returns the number of the place among those of its kind, from 1.
fn number_of(place: Place) -> u128
    ensures { result ≡ spec.place_number place }
{
    match place {
        Place::Servlet(place) => place as u128 + 1,
        Place::Filter(place) => place as u128 + 1,
    }
}

/// Returns the second line for static files that are refused, because of the file at this path if there is one.
pub(crate) fn files_detail(path: &Option<Text>, fault: FilesFault) -> Detail<'_>
    ensures { spec.detail_text result ≡ codes "  " ++ spec.with_path path.now (files_reason fault) }
{
    match path {
        Some(path) => Detail::StaticFile(path.as_str(), files_reason(fault)),
        None => Detail::Sentence(files_reason(fault)),
    }
}

/// Returns why static files are refused, in words.
fn files_reason(fault: FilesFault) -> &'static str
    ensures { result.now ≡ files_reason fault }
{
    match fault {
        FilesFault::BadPath => "no request target can name this path",
        FilesFault::Duplicate => "two files have the same path",
        FilesFault::TooMany => "there are more than 10,000 files",
        FilesFault::TooLarge => "the file has more than 1,048,576 bytes",
        FilesFault::NoMemory => "memory ran out",
    }
}

/// Returns the second line for a container that does not start.
pub(crate) fn start_detail(code: NewCode) -> Detail<'static>
    ensures { spec.detail_text result ≡ codes "  " ++ start_reason code }
{
    match code {
        NewCode::Start(StartCode::InitFailed(place)) => Detail::Component(place),
        NewCode::Start(StartCode::PartsMismatch) => {
            Detail::Sentence("its components are not those of its descriptor")
        }
        NewCode::Start(StartCode::NoMemory) => Detail::Sentence("memory ran out"),
        NewCode::DuplicateContext => Detail::Sentence("another context has this path"),
        NewCode::TooManyContexts => Detail::Sentence("there are more than 64 contexts"),
    }
}

/// Returns the second line for a socket that is not available or failed.
pub(crate) fn socket_detail(fault: SocketFault) -> Detail<'static>
    ensures { spec.detail_text result ≡ codes "  " ++ socket_reason fault }
{
    match fault {
        SocketFault::Address(address, why) => Detail::Address(address, why),
        SocketFault::Accept => Detail::Sentence("no connection can be accepted"),
        SocketFault::Connection => {
            Detail::Sentence("the connection of the program to itself failed")
        }
        SocketFault::Poll => Detail::Sentence("the system reports no more events of connections"),
    }
}
