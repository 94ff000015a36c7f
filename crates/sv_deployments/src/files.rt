//! The static files of a context.

ghost use Rattle.std.specs.Prelude.{◌≡◌, Err, MatchOption};
ghost use Rattle.sv_text.specs.Gives.{Gives};
ghost use Rattle.sv_files.specs.Fault.{list_fault};
ghost use Rattle.sv_program.specs.CommandFault.{command_fault};
ghost use Rattle.sv_deployments.specs.FilesFault.{path_for, refusal, served_files};

use std::alloc::Global;
use sv_files::{File, Files, FilesFault, first_bad_path, first_large_path};
use sv_program::CommandFault;
use sv_text::{Listed, Text};

/// Creates the static files of the context at this path from the list.
///
/// # Errors
/// [`CommandFault::Files`] with the fault of the list, or [`CommandFault::NoMemory`].
pub fn files_of(alloc: Global, path: &str, listed: Listed<File>) -> Result<Files, CommandFault>
    ensures { Gives command_fault result (served_files path.now listed) }
{
    let files = listed.into_vec();
    let bad = first_bad_path(alloc, files.as_slice())?;
    let large = first_large_path(alloc, files.as_slice())?;
    match Files::from_list(alloc, files) {
        Ok(files) => Ok(files),
        Err(fault) => refused(alloc, path, fault, Faulty { bad, large }),
    }
}

// The paths of files that a list may be refused for.
#[derive(Drop)]
struct Faulty {
    bad: Option<Text>,
    large: Option<Text>,
}

impl Faulty {
    // Returns the path of the file that has the fault, if one has it.
    fn path_for(self, fault: FilesFault) -> Option<Text>
        ensures { result ≡ path_for self.bad self.large fault }
    {
        match fault {
            FilesFault::BadPath => self.bad,
            FilesFault::TooLarge => self.large,
            FilesFault::Duplicate | FilesFault::TooMany | FilesFault::NoMemory => None,
        }
    }
}

// Returns the fault of files that are refused, or of running out of memory.
fn refused<T>(
    alloc: Global,
    path: &str,
    fault: FilesFault,
    faulty: Faulty,
) -> Result<T, CommandFault>
    ensures { MatchOption (list_fault fault) (result ≡ Err CommandFault.NoMemory)
        (λ found. Gives command_fault result (Err (refusal path.now faulty.bad faulty.large found))) }
{
    if fault == FilesFault::NoMemory {
        return Err(CommandFault::NoMemory);
    }
    Err(CommandFault::Files {
        context: Text::copy_of(alloc, path)?,
        fault,
        path: faulty.path_for(fault),
    })
}
