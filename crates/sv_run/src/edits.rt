//! The context that an edit of constraints names, and the answer to the edit.

ghost use Rattle.std.specs.Prelude.{◌≡◌, ◌≢◌, Err, IfSome, MatchResult, bytes_eq, length, position, ◌<◌};
ghost use Rattle.sv_policy.specs.declared.edit_fault.EditFault.TheVariants as fault;

use sv_mapping::HasContextPath;
use sv_policy::EditFault;
use sv_text::NoMemory;

// Returns the place of the first context that has the path.
pub(crate) fn place_of<C: HasContextPath>(contexts: &[C], path: &str) -> Option<usize>
    ensures place { result ≡ position (λ context. bytes_eq path.now (C.path_of context)) contexts.now }
    ensures bound { IfSome result (λ place. place < length contexts.now) }
{
    contexts.iter().position(|context| has_path(context, path))
}

fn has_path<C: HasContextPath>(context: &C, path: &str) -> bool
    ensures { result ≡ bytes_eq path.now (C.path_of context.now) }
{
    path == context.context_path()
}

// Returns the answer to report, or `NoMemory` if the edit ran out of memory, which is no answer.
pub(crate) fn told_of(answer: Result<u64, EditFault>) -> Result<Result<u64, EditFault>, NoMemory>
    ensures { MatchResult result (λ told. (told ≡ answer) × (answer ≢ Err fault.NoMemory)) (λ _. answer ≡ Err fault.NoMemory) }
{
    match answer {
        Ok(number) => Ok(Ok(number)),
        Err(EditFault::NoSuch) => Ok(Err(EditFault::NoSuch)),
        Err(EditFault::TooMany) => Ok(Err(EditFault::TooMany)),
        Err(EditFault::NumberSpent) => Ok(Err(EditFault::NumberSpent)),
        Err(EditFault::NoMemory) => Err(NoMemory),
    }
}
