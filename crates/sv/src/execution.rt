//! Runs a command.

ghost use Rattle.sv_component.specs.Steps.{steps_of};
ghost use Rattle.std.specs.Prelude.{◌≡◌, IfErr};
ghost use Rattle.sv.specs.Execution.{IsBefore, ReadsFiles, RunsCommand, ServesNothing};

use crate::check_command::check;
use crate::ctl_command::ctl;
use crate::help_command::{help, print_manual};
use crate::policy_command::policy;
use crate::replay_command::replay;
use crate::run_command::run;
use crate::self_test_command::self_test;
use crate::serve_command::serve;
use crate::texts::VERSION;
use std::alloc::Global;
use std::io::{Read, Write};
use std::net::Net;
use std::random::RandomSource;
use std::rt::Files;
use std::time::Clock;
use sv_arguments::Command;
use sv_audit_command::audit;
use sv_component::{Filter, Listener, Servlet};
use sv_deployments::{FolderStore, ProgramFilter, ProgramListener, ProgramServlet};
use sv_program::{CommandFault, FileStore, first, print_text, uncovered};
use sv_streams::{ReadSource, WriteSink};

/// Runs the command. Its parameters are a store of files and folders, a host with a network, a clock, random bytes,
/// files and standard error, a reader and a writer. They are those of the system or substitutes. Each command
/// documents what it reads and writes and what a fault leaves.
pub fn carry_out<
    S: FileStore + FolderStore,
    H: Net + Clock + RandomSource + Files + Eprint,
    R: Read + Drop,
    W: Write,
>(
    command: Command<'_>,
    alloc: Global,
    store: &mut S,
    host: &H,
    reader: R,
    writer: &mut W,
) -> Result<(), CommandFault>
    ensures run { RunsCommand (steps_of ⟦<ProgramServlet as Servlet>⟧.servlet_step ⟦<ProgramFilter as Filter>⟧.filter_step ⟦<ProgramListener as Listener>⟧.listener_step)
        S.gives_text S.gives_files command.entry result store.old store.new (R.remaining reader) (W.contents writer.old) (W.contents writer.new) }
    ensures untouched { ServesNothing command.entry → IfErr result (λ fault. IsBefore command.entry fault → writer.new ≡ writer.old) }
{
    match command {
        Command::First { deny_uncovered } => first(alloc, reader, writer, deny_uncovered),
        Command::Policy(question) => policy(alloc, store, writer, &question),
        Command::Uncovered { config } => uncovered(alloc, store, writer, config),
        Command::Audit(options) => audit(alloc, store, writer, options.config, &options.access),
        Command::Check { config } => check(alloc, store, writer, config),
        Command::Replay { config } => replay_streams(alloc, store, reader, writer, config),
        Command::Serve(service) => {
            let count = service.connections.value();
            serve(alloc, store, host, writer, service.config, count)
        }
        Command::Run(options) => run(alloc, store, host, writer, &options),
        Command::Ctl(request) => ctl(alloc, host, writer, &request),
        Command::SelfTest { config } => self_test(alloc, store, host, writer, config),
        Command::Help(topic) => help(alloc, writer, topic),
        Command::Manual(manual) => print_manual(alloc, writer, manual),
        Command::Version => print_text(writer, VERSION),
    }
}

/// Replays the script from a reader, and writes the output to a writer.
fn replay_streams<S: FileStore + FolderStore, R: Read + Drop, W: Write>(
    alloc: Global,
    store: &mut S,
    reader: R,
    writer: &mut W,
    config: &str,
) -> Result<(), CommandFault>
    ensures { ReadsFiles S.gives_text S.gives_files config.now result store.old store.new }
{
    let mut script = ReadSource::new(reader);
    let mut output = WriteSink::new(writer);
    replay(alloc, store, &mut script, &mut output, config)
}
