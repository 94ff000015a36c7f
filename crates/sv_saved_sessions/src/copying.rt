//! Copies of the sessions of a store, made a part at a time.

ghost use Rattle.std.specs.Prelude.{◌≡◌, IfOk, IsErrOf, OnOk};
ghost use Rattle.sv_saved_sessions.specs.Copying.{CanFollowAll, next_part, part_after, with_copies};
ghost use Rattle.sv_session.specs.Restoring.{CanFollow, with_last, with_used};

use std::alloc::Global;
use sv_session::{RestoreFault, Sessions, StoredSession};

/// Copies the next sessions of a store after those that were copied before: at most `count`, in the order of their
/// numbers, from the first above `after`. The serials that the store has used count as used among the copies, too.
/// Returns the number of the last session of the part, or `after` if the part is empty, if sessions with higher numbers
/// are left. Returns `None` if all have been copied.
///
/// # Errors
/// [`RestoreFault::Unfit`] if a session cannot follow the copies, or [`RestoreFault::NoMemory`]. Some sessions may have
/// been copied.
pub fn copy_sessions(
    alloc: Global,
    store: &Sessions,
    after: u64,
    count: usize,
    copies: &mut Sessions,
) -> Result<Option<u64>, RestoreFault>
    ensures copied { OnOk result (copies.new ≡ record copies.old { store = with_copies (part_after after count store.now.store) store.now.store.serial copies.old.store }) }
    ensures next { IfOk result (λ next. next ≡ next_part after count store.now.store) }
    ensures unfit { IsErrOf result RestoreFault.Unfit
        → CanFollowAll (with_used store.now.store.serial copies.old.store) (part_after after count store.now.store) → ⊥ }
{
    copies.use_serials(store.serial());
    let mut last = after;
    for _ in 0..count {
        let Some(session) = store.after(last) else {
            return Ok(None);
        };
        copy_session(alloc, session, copies)?;
        last = session.number;
    }
    let next = if store.after(last).is_some() {
        Some(last)
    } else {
        None
    };
    Ok(next)
}

/// Copies a session after the copies.
fn copy_session(
    alloc: Global,
    session: &StoredSession,
    copies: &mut Sessions,
) -> Result<(), RestoreFault>
    ensures copied { OnOk result (copies.new ≡ record copies.old { store = with_last session.now copies.old.store }) }
    ensures unfit { IsErrOf result RestoreFault.Unfit → CanFollow copies.old.store session.now → ⊥ }
{
    let Ok(copy) = StoredSession::copy_of(alloc, session) else {
        return Err(RestoreFault::NoMemory);
    };
    copies.restore(copy)
}
