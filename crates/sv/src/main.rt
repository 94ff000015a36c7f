//! The program `sv`: its arguments and commands, its standard streams and its exit status.
#![tactic(auto)]

mod asked_container;
mod check_command;
mod ctl_command;
mod execution;
mod gaps;
mod help_command;
mod policy_command;
mod program_fault;
mod replay_command;
mod run_command;
mod saver;
mod saving_container;
mod self_test_command;
mod serve_command;
mod server_start;
mod session_files;
mod session_name;
mod session_save;
mod site;
mod texts;

use execution::carry_out;
use program_fault::ProgramFault;
use std::net::Net;
use std::process::ExitCode;
use std::random::RandomSource;
use std::rt::{Env, Files};
use std::time::Clock;
use std::{env, io};
use sv_arguments::Command;
use sv_program::{CommandFault, Disk, report_fault};

fn main(rt: HostRuntime) -> ExitCode {
    match run(&rt) {
        Ok(()) => ExitCode::SUCCESS,
        Err(fault) => report_fault(&rt, &fault, fault.detail(), fault.status()),
    }
}

/// Runs the command that the arguments name. Arguments that cannot be read name no command; if memory ran out for them,
/// that is the fault.
fn run<
    R: Env
        + Files
        + Net
        + Clock
        + RandomSource
        + Input
        + Print
        + Eprint
        + AllocGlobal
        + Clone
        + Drop,
>(rt: &R) -> Result<(), ProgramFault> {
    let all = match env::args(rt) {
        Ok(all) => all,
        Err(error) => return Err(ProgramFault::of_arguments(rt.alloc(), error)),
    };
    let arguments: Vec<String> = all.skip(1).collect(rt.alloc()).map_err(CommandFault::from)?;
    let Some(command) = Command::parse(arguments.as_slice()) else {
        return Err(ProgramFault::of_usage(rt.alloc(), arguments.as_slice()));
    };
    carry_out(
        command,
        rt.alloc(),
        &mut Disk::new(rt),
        rt,
        rt.reader(),
        &mut io::writer(rt),
    )?;
    Ok(())
}
