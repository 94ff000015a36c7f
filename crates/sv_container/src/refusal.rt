//! Checks that refuse deployments before the first call.

ghost use Rattle.std.specs.Prelude.{◌≡◌, false, [], IfOk, MatchOption, MatchResult};
ghost use Rattle.sv_container.specs.Paths.{ArePermitted, Forbids, IsRepeatedFirst};
ghost use Rattle.sv_context.specs.Several.{paths_of};
ghost use Rattle.sv_descriptor.specs.Names.{repeats};

use crate::container::MAX_CONTEXTS;
use crate::new_fault::NewFault;
use std::alloc::Global;
use sv_descriptor::Names;
use sv_journal::{NewCode, StartCode};
use sv_lifecycle::Deployment;
use sv_text::{NoMemory, Text};

/// The reason why nothing is started, and the context path that goes with it.
#[derive(Drop)]
pub(crate) struct Refusal {
    pub(crate) code: NewCode,
    pub(crate) context: Text,
}

impl Refusal {
    /// Returns the refusal for running out of memory.
    pub(crate) fn no_memory(alloc: Global) -> Refusal
        ensures code { result.code ≡ NewCode.Start StartCode.NoMemory }
        ensures context { result.context ≡ [] }
    {
        Refusal {
            code: NewCode::Start(StartCode::NoMemory),
            context: no_path(alloc),
        }
    }

    /// Returns the fault, with the deployments for the caller.
    pub(crate) fn of<S, F, L>(self, deployments: Vec<Deployment<S, F, L>>) -> NewFault<S, F, L>
        ensures { result ≡ record { code = self.code; context = self.context; deployments = deployments } }
    {
        let Refusal { code, context } = self;
        NewFault {
            code,
            context,
            deployments,
        }
    }
}

/// Returns the empty path. It does not allocate.
pub(crate) fn no_path(alloc: Global) -> Text
    ensures { result ≡ [] }
{
    Text::from_string(String::new(alloc))
}

/// Refuses deployments whose context paths are not permitted.
pub(crate) fn permit<S, F, L>(
    alloc: Global,
    deployments: &[Deployment<S, F, L>],
) -> Result<(), Refusal>
    ensures { MatchResult result (λ _. ArePermitted (paths_of deployments.now))
        (λ refusal. Forbids refusal.code (paths_of deployments.now) refusal.context) }
{
    match first_repeated(alloc, deployments) {
        Ok(Some(context)) => Err(Refusal {
            code: NewCode::DuplicateContext,
            context,
        }),
        Ok(None) => limit(alloc, deployments),
        Err(_) => Err(Refusal::no_memory(alloc)),
    }
}

// Refuses more deployments than a container may have.
fn limit<S, F, L>(alloc: Global, deployments: &[Deployment<S, F, L>]) -> Result<(), Refusal>
    requires { repeats (paths_of deployments.now) ≡ false }
    ensures { MatchResult result (λ _. ArePermitted (paths_of deployments.now))
        (λ refusal. Forbids refusal.code (paths_of deployments.now) refusal.context) }
{
    let Some(deployment) = deployments.get(MAX_CONTEXTS) else {
        return Ok(());
    };
    match Text::copy_of(alloc, deployment.path.as_str()) {
        Ok(context) => Err(Refusal {
            code: NewCode::TooManyContexts,
            context,
        }),
        Err(_) => Err(Refusal::no_memory(alloc)),
    }
}

// Returns the first context path that repeats an earlier one, if any.
fn first_repeated<S, F, L>(
    alloc: Global,
    deployments: &[Deployment<S, F, L>],
) -> Result<Option<Text>, NoMemory>
    ensures { IfOk result (λ found. MatchOption found (repeats (paths_of deployments.now) ≡ false)
        (λ path. IsRepeatedFirst (paths_of deployments.now) path)) }
{
    let mut names = Names::new(alloc);
    for deployment in deployments {
        let path = deployment.path.as_str();
        if !names.enter(path)? {
            return Ok(Some(Text::copy_of(alloc, path)?));
        }
    }
    Ok(None)
}
