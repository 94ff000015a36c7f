//! The reasons why the program ends early, each with its line on standard error and its exit status.

ghost use Rattle.std.specs.Prelude.{◌≡◌, Some, codes, map, string_bytes};
ghost use Rattle.std.specs.IoError.{error_kind};
ghost use Rattle.sv.specs.ProgramFault.{IsProgramDetail, IsUnread, IsUsage, IsUsageFault, program_fault_line, program_status};

use std::alloc::Global;
use std::io::ErrorKind;
use std::{fmt, io};
use sv_arguments::usage_detail;
use sv_program::{CommandFault, Detail};
use sv_text::{NoMemory, Text};

/// Why the program ended early. Its text is the line that it writes on standard error.
#[derive(Drop)]
pub enum ProgramFault {
    /// The arguments name no command, or one of them is not UTF-8: `sv: usage`, status 2. Nothing was read or written.
    /// The text is the second line, which says what is wrong.
    Usage(Text),
    /// The command ended with this fault: its line and its status.
    Command(CommandFault),
}

impl ProgramFault {
    /// Returns the fault of arguments that name no command, with the line of [`usage_detail`]: out of memory if memory
    /// ran out for that line.
    pub fn of_usage(alloc: Global, arguments: &[String]) -> ProgramFault
        ensures { IsUsage (map string_bytes arguments.now) result }
    {
        match usage_detail(alloc, arguments) {
            Ok(line) => ProgramFault::Usage(line),
            Err(NoMemory) => ProgramFault::Command(CommandFault::NoMemory),
        }
    }

    /// Returns the fault of arguments that could not be read: out of memory if that was the error or if memory ran out
    /// for the second line, and otherwise [`ProgramFault::Usage`].
    pub fn of_arguments(alloc: Global, error: io::Error) -> ProgramFault
        ensures { IsUnread (error_kind error) result }
    {
        match error.kind() {
            ErrorKind::OutOfMemory => ProgramFault::Command(CommandFault::NoMemory),
            _ => unread(alloc),
        }
    }

    /// Returns the exit status of the program that ends with this fault.
    pub fn status(&self) -> u8
        ensures { result ≡ program_status self.now }
    {
        match self {
            ProgramFault::Usage(_) => 2,
            ProgramFault::Command(fault) => fault.status(),
        }
    }

    /// Returns the second line on standard error, if there is one.
    pub fn detail(&self) -> Option<Detail<'_>>
        ensures { IsProgramDetail self.now result }
    {
        match self {
            ProgramFault::Usage(line) => Some(Detail::Line(line.as_str())),
            ProgramFault::Command(fault) => fault.detail(),
        }
    }
}

fn unread(alloc: Global) -> ProgramFault
    ensures { IsUsageFault (λ line. line ≡ codes "  an argument is not UTF-8") result }
{
    match Text::copy_of(alloc, "  an argument is not UTF-8") {
        Ok(line) => ProgramFault::Usage(line),
        Err(NoMemory) => ProgramFault::Command(CommandFault::NoMemory),
    }
}

impl fmt::Display for ProgramFault {
    ghost output = { λ fault. Some (program_fault_line fault) };

    fn fmt<W: fmt::Write>(&self, f: &mut fmt::Formatter<W>) -> fmt::Result {
        match self {
            ProgramFault::Usage(_) => f.write_str("sv: usage"),
            ProgramFault::Command(fault) => fault.fmt(f),
        }
    }
}

impl From<CommandFault> for ProgramFault {
    ghost use Rattle.sv.specs.declared.program_fault.ProgramFault.TheVariants.{Command};

    ghost from_gives = { λ fault ended. ended ≡ Command fault };

    fn from(fault: CommandFault) -> ProgramFault {
        ProgramFault::Command(fault)
    }
}
