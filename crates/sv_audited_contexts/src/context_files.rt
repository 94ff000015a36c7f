//! The static files of a context, as an audit uses them.

ghost use Rattle.std.specs.Prelude.{◌≡◌, find, option_and_then, option_copied};
ghost use Rattle.std.specs.Str.{bytes_eq};
ghost use Rattle.sv_program.specs.CommandFault.{command_fault};
ghost use Rattle.sv_program.specs.declared.command_fault.CommandFault.TheVariants as fault;
ghost use Rattle.sv_text.specs.Gives.{Gives, GivesAnswer};
ghost use Rattle.sv_uri.specs.Canonical.{canonical};
ghost use Rattle.sv_audited_contexts.specs.ContextFiles as spec;

use crate::descriptor_lines::text_of;
use std::alloc::Global;
use sv_deployments::FolderFiles;
use sv_descriptor::FormLogin;
use sv_files::File;
use sv_findings::LoginPage;
use sv_program::{CommandFault, UnavailableEntry};
use sv_text::{Listed, NoMemory, Text};
use sv_uri::canon;
use sv_uri::fault::CanonFault;

/// What an audit uses of the static files of a context.
#[derive(Drop)]
pub struct ContextFiles {
    /// The paths of the files, if they are known.
    pub paths: Option<Listed<Text>>,
    /// The login page, if it is one of the files, and a text.
    pub login_page: Option<LoginPage>,
}

/// Returns what an audit uses of the files in the folder of this name. An empty name means no folder: then there are no
/// files, unless there may be unknown ones, so that it is not known what answers where no servlet does.
///
/// # Errors
/// [`CommandFault::Folder`] if the folder has a name and is not available, or [`CommandFault::NoMemory`].
pub fn files_in(
    alloc: Global,
    has_unknown: bool,
    name: &str,
    found: &FolderFiles,
    login: &Option<FormLogin>,
) -> Result<ContextFiles, CommandFault>
    ensures { Gives command_fault result (spec.files_in has_unknown name.now found.now login.now) }
{
    if name.is_empty() {
        return Ok(files_without_folder(alloc, has_unknown, login)?);
    }
    match found {
        Ok(files) => Ok(files_of(alloc, files.as_slice(), login)?),
        Err(entry) => Err(folder_fault(alloc, name, entry)?),
    }
}

/// Returns what an audit uses of the files of a context without a folder.
fn files_without_folder(
    alloc: Global,
    has_unknown: bool,
    login: &Option<FormLogin>,
) -> Result<ContextFiles, NoMemory>
    ensures { GivesAnswer result (spec.used_of (spec.files_without_folder has_unknown) login.now) }
{
    if has_unknown {
        Ok(ContextFiles {
            paths: None,
            login_page: None,
        })
    } else {
        files_of(alloc, &[], login)
    }
}

/// Returns the fault of the folder of this name, of which this entry is not available.
fn folder_fault(
    alloc: Global,
    name: &str,
    entry: &UnavailableEntry,
) -> Result<CommandFault, NoMemory>
    ensures { GivesAnswer result (fault.Folder name.now entry.now) }
{
    Ok(CommandFault::Folder {
        name: Text::copy_of(alloc, name)?,
        entry: UnavailableEntry {
            path: Text::copy_of(alloc, entry.path.as_str())?,
            why: entry.why,
        },
    })
}

fn files_of(
    alloc: Global,
    files: &[File],
    login: &Option<FormLogin>,
) -> Result<ContextFiles, NoMemory>
    ensures { GivesAnswer result (spec.files_of files.now login.now) }
{
    Ok(ContextFiles {
        paths: Some(paths_of(alloc, files)?),
        login_page: login_page_in(alloc, files, login)?,
    })
}

fn paths_of(alloc: Global, files: &[File]) -> Result<Listed<Text>, NoMemory>
    ensures { GivesAnswer result (spec.paths_of files.now) }
{
    let mut paths = Vec::with_capacity(alloc, files.len())?;
    for file in files {
        paths.push(Text::copy_of(alloc, file.path.as_str())?)?;
    }
    Ok(Listed::from_vec(paths))
}

/// Returns the login page, if it is among the files.
fn login_page_in(
    alloc: Global,
    files: &[File],
    login: &Option<FormLogin>,
) -> Result<Option<LoginPage>, NoMemory>
    ensures { GivesAnswer result (spec.login_page_in files.now login.now) }
{
    match login {
        Some(pages) => page_of(alloc, files, pages.login_page.text()),
        None => Ok(None),
    }
}

/// Returns the page at this location within the context.
fn page_of(alloc: Global, files: &[File], location: &str) -> Result<Option<LoginPage>, NoMemory>
    ensures { GivesAnswer result (option_and_then (spec.page_at files.now) (spec.path_in (canonical location.now))) }
{
    match canon(alloc, location.as_bytes()) {
        Ok(canon) => page_at(alloc, files, canon.path),
        Err(CanonFault::Path(_)) => Ok(None),
        Err(CanonFault::NoMemory) => Err(NoMemory),
    }
}

fn page_at(alloc: Global, files: &[File], path: Text) -> Result<Option<LoginPage>, NoMemory>
    ensures { GivesAnswer result (spec.page_at files.now path) }
{
    match text_at(files, path.as_str()) {
        Some(text) => Ok(Some(LoginPage {
            path,
            text: Text::copy_of(alloc, text)?,
        })),
        None => Ok(None),
    }
}

/// Returns the text of the file with this path, if there is one, and it is a text.
fn text_at<'a>(files: &'a [File], path: &str) -> Option<&'a str>
    ensures { option_copied result ≡ spec.text_at files.now path.now }
{
    match file_at(files, path) {
        Some(file) => text_of(file.bytes.as_slice()),
        None => None,
    }
}

fn file_at<'a>(files: &'a [File], path: &str) -> Option<&'a File>
    ensures { option_copied result ≡ find (λ file. bytes_eq file.path path.now) files.now }
{
    files.iter().find(|file| file.path.as_str() == path)
}
