//! The answers of the file servlet.

ghost use Rattle.std.specs.Prelude.{◌≡◌};
ghost use Rattle.sv_files.specs.Answer as spec;

use bytes::Bytes;
use sv_mapping::Kind;
use sv_text::Text;

/// The file servlet's answer to a path (Jakarta Servlet 6.0, sections 10.10 and 12.2).
#[derive(Drop)]
pub enum FileAnswer<'a> {
    /// The bytes of the path's file.
    File(&'a Bytes),
    /// The path of a folder's welcome file or welcome servlet. The client is redirected to it.
    Welcome(Text),
    /// The path is a folder's. The client is redirected to it with `/` added.
    Slash,
    /// Nothing was found.
    Missing,
    /// A file, folder or welcome path was found, but the request's method is neither `GET` nor `HEAD`.
    Method,
}

/// Returns the answer to a dispatch of this kind, given the answer to a `GET` request from a client.
pub(crate) fn answer_to<'a>(kind: Kind, method: &str, found: FileAnswer<'a>) -> FileAnswer<'a>
    ensures { spec.answer_seen result ≡ spec.answer_to kind method.now (spec.answer_seen found.entry) }
{
    match kind {
        Kind::Request => allowed(method, found),
        Kind::Forward | Kind::Include | Kind::Error => file_alone(found),
    }
}

fn allowed<'a>(method: &str, found: FileAnswer<'a>) -> FileAnswer<'a>
    ensures { spec.answer_seen result ≡ spec.allowed method.now (spec.answer_seen found.entry) }
{
    if is_reading(method) {
        return found;
    }
    match found {
        FileAnswer::Missing => FileAnswer::Missing,
        _ => FileAnswer::Method,
    }
}

fn is_reading(method: &str) -> bool
    ensures { result ≡ spec.is_reading method.now }
{
    method == "GET" || method == "HEAD"
}

fn file_alone<'a>(found: FileAnswer<'a>) -> FileAnswer<'a>
    ensures { spec.answer_seen result ≡ spec.file_alone (spec.answer_seen found.entry) }
{
    match found {
        FileAnswer::File(bytes) => FileAnswer::File(bytes),
        _ => FileAnswer::Missing,
    }
}
