//! Theorems about copies of sessions and files of suspended contexts, each the contract of a function with an empty body.

ghost use Rattle.sv_saved_sessions.specs.Copying.{CopiesAreOrderly, CopiesStoodInTheStore};
ghost use Rattle.sv_saved_sessions.specs.Laws.{FileNamesContext};

/// No two contexts or times have the same file, except for what a file does not keep. So what
/// [`read_context`](crate::read_context) reads of a file is what [`write_context`](crate::write_context) wrote.
pub fn a_written_context_is_read()
    ensures { FileNamesContext }
{}

/// Copies that [`copy_sessions`](crate::copy_sessions) makes a part at a time, while the store changes between the parts,
/// hold only sessions that stood in the store, each as it was at the time of its part, and none twice: they are in the
/// order of their numbers.
pub fn a_copied_session_stood_in_the_store()
    ensures stood { CopiesStoodInTheStore }
    ensures order { CopiesAreOrderly }
{}
