//! Results of the file servlet.

ghost use Rattle.std.specs.Prelude.{◌≡◌, ◌++◌, IfOk, codes};
ghost use Rattle.sv_files.specs.Answer.{answer_seen};
ghost use Rattle.sv_tree.specs.FileServlet as spec;
ghost use Rattle.sv_tree.specs.Seen.{found_seen};
ghost use Rattle.sv_text.specs.Gives.{GivesAnswer};

use crate::redirect::sent_to;
use bytes::Bytes;
use std::alloc::Global;
use sv_files::{FileAnswer, content_type_of};
use sv_text::{NoMemory, Text};
use sv_uri::path::Canon;

/// The result of the file servlet for a path (Jakarta Servlet 6.0, sections 10.10 and 12.2).
#[derive(Drop)]
pub enum FileFound<'a> {
    /// A file: its content type and its bytes, which are borrowed from the site.
    File {
        /// The content type, by the extension of the path.
        content_type: &'static str,
        /// The content of the file.
        bytes: &'a Bytes,
    },
    /// The value of the Location field that redirects the client to a welcome file or to a folder.
    Redirect(Text),
    /// The file servlet serves nothing at the path.
    Missing,
    /// The file servlet serves the path, but the request's method is neither `GET` nor `HEAD`.
    NotAllowed,
}

/// Converts the file servlet's answer to a canonical path, adding the content type of a file and the location of a
/// redirect.
pub(crate) fn answered<'a>(
    alloc: Global,
    context_path: &str,
    canon: &Canon,
    answer: &FileAnswer<'a>,
) -> Result<FileFound<'a>, NoMemory>
    ensures { IfOk result (λ found. found_seen found ≡ spec.answered context_path.now canon.now (answer_seen answer.now)) }
{
    let location = match answer {
        FileAnswer::File(bytes) => {
            return Ok(FileFound::File {
                content_type: content_type_of(canon.path.as_str()),
                bytes,
            });
        }
        FileAnswer::Missing => return Ok(FileFound::Missing),
        FileAnswer::Method => return Ok(FileFound::NotAllowed),
        FileAnswer::Welcome(path) => sent_to(alloc, context_path, path.as_str(), canon)?,
        FileAnswer::Slash => sent_to_folder(alloc, context_path, canon)?,
    };
    Ok(FileFound::Redirect(location))
}

fn sent_to_folder(alloc: Global, context_path: &str, canon: &Canon) -> Result<Text, NoMemory>
    ensures { GivesAnswer result (spec.sent_to context_path.now (canon.now.path ++ codes "/") canon.now.query) }
{
    let mut folder = String::from_str(alloc, canon.path.as_str())?;
    folder.push_str("/")?;
    sent_to(alloc, context_path, folder.as_str(), canon)
}
