//! The command `audit`: reads the configuration files of a server, and writes who may reach what.

ghost use Rattle.std.specs.Prelude.{◌≡◌, IfErr};
ghost use Rattle.sv_audit_command.specs.AuditCommand as spec;

use crate::access_options::AccessOptions;
use crate::audit_report::{Report, report_on};
use crate::further_files::read_further;
use std::alloc::Global;
use std::io::Write;
use sv_deployments::{FolderStore, read_folders};
use sv_program::{CommandFault, FileStore, print_text, read_contexts, read_server_file};

/// Reads the server file of this name, then the descriptor and the users file of each of its contexts, then the folders
/// of their static files, then the accepting file and the file of lines, then the other server file with the descriptor
/// and the users file of each of its contexts, and writes who may reach what (Jakarta Servlet 6.0, section 13.8). Names
/// in a server file are relative to its folder. Nothing else is read. A context without a folder has no files, or its
/// files are not known: then no findings follow from them. A file of lines locates the constraints of the first context:
/// its first line names their file, and the next ones are the lines on which they begin in it.
///
/// # Errors
/// The first fault: [`CommandFault::File`] or [`CommandFault::Server`] for the server file, then
/// [`CommandFault::File`], [`CommandFault::Descriptor`], [`CommandFault::Users`] or [`CommandFault::Folder`] for the
/// contexts in order, then [`CommandFault::File`] for the accepting file and the file of lines, then
/// [`CommandFault::User`] if no context has the user, [`CommandFault::Role`] if none knows the role, or
/// [`CommandFault::NoMemory`]. A context knows a role that it declares, that a constraint names or that a user has. After
/// [`CommandFault::Findings`] the report is written: it has this number of findings of the kinds that must not be there,
/// and which are not accepted. After [`CommandFault::Output`] a part of the report may have been written, after any other
/// fault none.
pub fn audit<S: FileStore + FolderStore, W: Write>(
    alloc: Global,
    store: &mut S,
    writer: &mut W,
    config: &str,
    options: &AccessOptions<'_>,
) -> Result<(), CommandFault>
    ensures run { spec.Audits (spec.IsAudited S.gives_text S.gives_files options.now config.now) result store.old store.new (W.contents writer.old) (W.contents writer.new) }
    ensures untouched { IfErr result (λ fault. spec.IsBeforeOutput fault → writer.new ≡ writer.old) }
{
    let report = report_from(alloc, store, config, options)?;
    write_report(writer, &report)
}

/// Returns the report on the server, from the files that the store gives.
fn report_from<S: FileStore + FolderStore>(
    alloc: Global,
    store: &mut S,
    config: &str,
    options: &AccessOptions<'_>,
) -> Result<Report, CommandFault>
    ensures { spec.FindsReport (spec.IsAudited S.gives_text S.gives_files options.now config.now) result store.old store.new }
{
    let server = read_server_file(alloc, store, config)?;
    let texts = read_contexts(alloc, store, config, server.contexts)?;
    let found = read_folders(alloc, store, config, texts)?;
    let files = read_further(alloc, store, options)?;
    report_on(alloc, found.as_slice(), &files, options)
}

/// Writes the report.
///
/// # Errors
/// [`CommandFault::Output`], or [`CommandFault::Findings`] if the report is written and has findings that must not be
/// there.
fn write_report<W: Write>(writer: &mut W, report: &Report) -> Result<(), CommandFault>
    ensures { spec.IsWritten report.now result (W.contents writer.old) (W.contents writer.new) }
{
    print_text(writer, report.text.as_str())?;
    if report.count > 0 {
        return Err(CommandFault::Findings(report.count));
    }
    Ok(())
}
