//! The command `policy`: explains what a server would do with a request.

ghost use Rattle.sv_component.specs.Steps.{steps_of};
ghost use Rattle.std.specs.Prelude.{◌≡◌, ◌≢◌, [], ◌∷◌, ◌++◌, IfErr};
ghost use Rattle.std.specs.Option.{option_copied};
ghost use Rattle.sv_container.specs.Container.{state_of};
ghost use Rattle.sv_container.specs.Explaining.{explanation_of};
ghost use Rattle.sv_policy.specs.Text.{explanation_text};
ghost use Rattle.sv_program.specs.CommandFault.{UnlessNoMemory};
ghost use Rattle.sv_text.specs.Gives.{GivesAnswer};
ghost use Rattle.sv.specs.Policy as spec;
ghost use Rattle.sv.specs.Printed.{Shows};

use std::alloc::Global;
use std::io::Write;
use sv_arguments::Question;
use sv_component::{Filter, Listener, Servlet};
use sv_container::{
    Container, ExplainFault, Explanation, containers_explain_what_was_deployed, start,
};
use sv_deployments::{
    Configuration, FolderStore, ProgramFilter, ProgramListener, ProgramServlet, read_deployments,
};
use sv_program::{CommandFault, FileStore, print_line, quoted};
use sv_text::NoMemory;

/// Reads the server file of the question and all files that it names, and starts a container with them. Asks the
/// container what would happen to the request, shuts it down, and writes the line of the explanation.
///
/// # Errors
/// The first fault: those of [`read_deployments`]; then [`CommandFault::Start`]; then [`CommandFault::Method`]; then,
/// for a target that has a context, [`CommandFault::User`]; or [`CommandFault::NoMemory`]. After
/// [`CommandFault::Output`] a part of the line may have been written; after any other fault, nothing.
pub fn policy<S: FileStore + FolderStore, W: Write>(
    alloc: Global,
    store: &mut S,
    writer: &mut W,
    question: &Question<'_>,
) -> Result<(), CommandFault>
    ensures run { spec.RunsPolicy (steps_of ⟦<ProgramServlet as Servlet>⟧.servlet_step ⟦<ProgramFilter as Filter>⟧.filter_step ⟦<ProgramListener as Listener>⟧.listener_step)
        S.gives_text S.gives_files question.now result store.old store.new (W.contents writer.old) (W.contents writer.new) }
    ensures untouched { IfErr result (λ fault. fault ≢ CommandFault.Output → writer.new ≡ writer.old) }
{
    let Configuration {
        seed,
        deployments,
        ..
    } = match read_deployments(alloc, store, question.config) {
        Ok(configuration) => configuration,
        Err(fault) => return Err(fault),
    };
    containers_explain_what_was_deployed::<ProgramServlet, ProgramFilter, ProgramListener>();
    match start(alloc, deployments, seed.as_slice()) {
        Ok(container) => answer(alloc, container, writer, question),
        Err(fault) => Err(fault),
    }
}

// Writes the container's explanation, and shuts the container down.
fn answer<S: Servlet, F: Filter, L: Listener, D: Drop, W: Write>(
    alloc: Global,
    container: Container<S, F, L, D>,
    writer: &mut W,
    question: &Question<'_>,
) -> Result<(), CommandFault>
    ensures answers { UnlessNoMemory result (spec.Ends (spec.line_of question.now (explanation_of (state_of container).world.contexts
        question.now.method.now question.now.target.now (option_copied question.now.user)))
        result (W.contents writer.old) (W.contents writer.new)) }
    ensures untouched { IfErr result (λ fault. fault ≢ CommandFault.Output → writer.new ≡ writer.old) }
{
    let explained = container.explain(question.method, question.target.as_bytes(), question.user);
    container.shutdown().let_go();
    match explained {
        Ok(explanation) => print_explanation(alloc, &explanation, writer),
        Err(fault) => Err(fault_of(alloc, question, fault)?),
    }
}

fn print_explanation<W: Write>(
    alloc: Global,
    explanation: &Explanation,
    writer: &mut W,
) -> Result<(), CommandFault>
    ensures shows { UnlessNoMemory result (Shows (explanation_text explanation.now ++ 10 ∷ []) result (W.contents writer.old) (W.contents writer.new)) }
    ensures untouched { IfErr result (λ fault. fault ≢ CommandFault.Output → writer.new ≡ writer.old) }
{
    let line = format!(in alloc; "{explanation}")?;
    print_line(writer, line.as_str())
}

// Returns the fault for a question that has no explanation.
fn fault_of(
    alloc: Global,
    question: &Question<'_>,
    fault: ExplainFault,
) -> Result<CommandFault, NoMemory>
    ensures { GivesAnswer result (spec.fault_of question.now fault) }
{
    match fault {
        ExplainFault::BadMethod => Ok(CommandFault::Method(quoted(alloc, question.method)?)),
        ExplainFault::NoSuchUser => {
            let name = question.user.unwrap_or("");
            Ok(CommandFault::User(quoted(alloc, name)?))
        }
        ExplainFault::NoMemory => Ok(CommandFault::NoMemory),
    }
}
