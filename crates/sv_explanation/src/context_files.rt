//! The static files of a context.

ghost use Rattle.std.specs.Prelude.{◌≡◌, IfOk, map};
ghost use Rattle.std.specs.Result.{result_ok};
ghost use Rattle.sv_files.specs.Answer.{answer_seen};
ghost use Rattle.sv_files.specs.Fault.{files_of};
ghost use Rattle.sv_text.specs.Gives.{GivesAnswer};
ghost use Rattle.sv_explanation.specs.ContextFiles as spec;

use crate::servlets::mapped_patterns;
use crate::site_context::SiteContext;
use bytes::Bytes;
use std::alloc::Global;
use sv_descriptor::Descriptor;
use sv_files::{File, FileAnswer, Files, FilesFault};
use sv_mapping::Kind;
use sv_text::{NoMemory, Text};

/// Returns the files of a context, if they are known.
pub fn known_files(alloc: Global, context: &SiteContext) -> Result<Option<Files>, NoMemory>
    ensures { GivesAnswer result (spec.known_files context.now) }
{
    match &context.files {
        None => Ok(None),
        Some(paths) => files_with(alloc, paths.as_slice()),
    }
}

/// Returns the files with these paths, or none if no context has such files.
fn files_with(alloc: Global, paths: &[Text]) -> Result<Option<Files>, NoMemory>
    ensures { GivesAnswer result (spec.files_with paths.now) }
{
    let files = listed_files(alloc, paths)?;
    match Files::from_list(alloc, files) {
        Ok(files) => Ok(Some(files)),
        Err(FilesFault::BadPath) => Ok(None),
        Err(FilesFault::Duplicate) => Ok(None),
        Err(FilesFault::TooMany) => Ok(None),
        Err(FilesFault::TooLarge) => Ok(None),
        Err(FilesFault::NoMemory) => Err(NoMemory),
    }
}

fn listed_files(alloc: Global, paths: &[Text]) -> Result<Vec<File>, NoMemory>
    ensures { IfOk result (λ files. files.items ≡ map spec.file_with paths.now) }
{
    let mut files = Vec::with_capacity(alloc, paths.len())?;
    for path in paths {
        files.push(file_with(alloc, path.as_str())?)?;
    }
    Ok(files)
}

fn file_with(alloc: Global, path: &str) -> Result<File, NoMemory>
    ensures { GivesAnswer result (spec.file_with path.now) }
{
    Ok(File {
        path: Text::copy_of(alloc, path)?,
        bytes: Bytes::new(),
    })
}

/// Returns the file servlet's answer to a dispatch of this kind to a path within the context.
pub fn answer_in<'a>(
    alloc: Global,
    descriptor: &Descriptor,
    files: &'a Files,
    path: &str,
    method: &str,
    kind: Kind,
) -> Result<FileAnswer<'a>, NoMemory>
    ensures { IfOk result (λ answer. answer_seen answer ≡ spec.answer_in descriptor.now files.now path.now method.now kind) }
{
    let app = descriptor.web_app();
    let patterns = mapped_patterns(alloc, app.servlet_mappings.as_slice())?;
    let welcome = app.welcome_files.as_slice();
    files.answer(alloc, path, method, kind, welcome, patterns.as_slice())
}
