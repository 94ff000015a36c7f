//! Reading the content of a file. The sessions are restored one after another.

ghost use Rattle.std.specs.Prelude.{◌≡◌, ℕ, [], IfOk, IsErrOf, length};
ghost use Rattle.sv_lifecycle.specs.declared.suspended_context.SuspendedContext.{SuspendedContext};
ghost use Rattle.sv_saved_sessions.specs.Content.{content};
ghost use Rattle.sv_saved_sessions.specs.File.{GivesContext, IsContent};
ghost use Rattle.sv_saved_sessions.specs.Saved.{CanBeSaved};
ghost use Rattle.sv_saved_sessions.specs.Reading.{ReadsParts, Restores, RestoresItems, RestoresSession, session_items_at, sessions_at};

use crate::cursor::Cursor;
use crate::decoding::session;
use crate::head::Head;
use crate::reading_fault::ReadingFault;
use crate::saved_context::SavedContext;
use std::alloc::Global;
use sv_session::{RestoreFault, Sessions, StoredSession};

/// Reads the sessions, in which the serials up to one have been used.
fn sessions(alloc: Global, serial: u64, cursor: &mut Cursor<'_>) -> Result<Sessions, ReadingFault>
    ensures { Restores serial result cursor.new (sessions_at cursor.old) }
{
    let count = cursor.number()?;
    let Some(mut sessions) = Sessions::used_up_to(alloc, serial) else {
        return Err(ReadingFault::Damaged);
    };
    restore_items(alloc, count, cursor, &mut sessions)?;
    let _serial = sessions.serial();
    Ok(sessions)
}

/// Reads so many sessions into an empty store.
fn restore_items(
    alloc: Global,
    count: u64,
    cursor: &mut Cursor<'_>,
    sessions: &mut Sessions,
) -> Result<(), ReadingFault>
    requires { sessions.old.store.sessions ≡ [] }
    ensures { RestoresItems sessions.old result sessions.new cursor.new (session_items_at count cursor.old) }
{
    for _ in 0..count {
        let session = session(alloc, cursor)?;
        restore(session, sessions)?;
    }
    Ok(())
}

/// Restores a session after the others.
fn restore(session: StoredSession, sessions: &mut Sessions) -> Result<(), ReadingFault>
    ensures { RestoresSession sessions.old session result sessions.new }
{
    match sessions.restore(session) {
        Ok(()) => Ok(()),
        Err(RestoreFault::NoMemory) => Err(ReadingFault::NoMemory),
        Err(RestoreFault::Unfit) => Err(ReadingFault::Damaged),
    }
}

/// Reads all of the bytes as a head and sessions.
fn parts(alloc: Global, bytes: &[u8]) -> Result<SavedContext, ReadingFault>
    ensures { ReadsParts result bytes.now }
{
    let mut cursor = Cursor::new(bytes);
    let head = Head::read(alloc, &mut cursor)?;
    let sessions = sessions(alloc, head.serial, &mut cursor)?;
    if !cursor.is_at_end() {
        return Err(ReadingFault::Damaged);
    }
    Ok(head.with(sessions))
}

/// Reads all of the bytes as the content of a file.
///
/// # Errors
/// [`ReadingFault::Damaged`] if they are the content of no file, or [`ReadingFault::NoMemory`].
pub(crate) fn read_content(alloc: Global, bytes: &[u8]) -> Result<SavedContext, ReadingFault>
    ensures found { IfOk result (λ saved. IsContent bytes.now saved) }
    ensures only { (moment : ℕ) (context : SuspendedContext) → CanBeSaved moment context → bytes.now ≡ content moment context → GivesContext result moment context }
    ensures fault { IsErrOf result ReadingFault.Foreign → ⊥ }
{
    parts(alloc, bytes)
}
