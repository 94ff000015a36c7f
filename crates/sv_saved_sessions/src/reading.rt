//! Reading the file of a suspended context.

ghost use Rattle.std.specs.Prelude.{◌≡◌, ◌++◌, ℕ, IfOk, IsErrOf, MatchOption};
ghost use Rattle.sv_lifecycle.specs.declared.suspended_context.SuspendedContext.{SuspendedContext};
ghost use Rattle.sv_saved_sessions.specs.File.{GivesContext, IsAuthentic, IsFile, file_of, signed};
ghost use Rattle.sv_saved_sessions.specs.Saved.{CanBeSaved};

use crate::hmac::{CODE_BYTES, hmac_sha256_of};
use crate::reading_fault::ReadingFault;
use crate::restoring::read_content;
use crate::saved_context::SavedContext;
use std::alloc::Global;
use sv_realm::same_bytes;

/// Reads the file of a suspended context. The code at its end is compared before anything else is read, and always to
/// its end, so that the time taken does not show how much of a guess was right.
///
/// # Errors
/// [`ReadingFault::Foreign`] if the last 32 bytes are not the code of those before them, [`ReadingFault::Damaged`] if the
/// bytes are the file of no context, or [`ReadingFault::NoMemory`].
pub fn read_context(
    alloc: Global,
    bytes: &[u8],
    key: &[u8; 32],
) -> Result<SavedContext, ReadingFault>
    // The bytes are the file of the result.
    ensures found { IfOk result (λ saved. IsFile key.now bytes.now saved) }
    // The context of a file is read, unless memory runs out.
    ensures only { (moment : ℕ) (context : SuspendedContext) → CanBeSaved moment context → bytes.now ≡ file_of key.now moment context → GivesContext result moment context }
    ensures foreign { IsErrOf result ReadingFault.Foreign → IsAuthentic key.now bytes.now → ⊥ }
    ensures damaged { IsErrOf result ReadingFault.Damaged → IsAuthentic key.now bytes.now }
{
    let Some(content) = signed_content(bytes, key) else {
        return Err(ReadingFault::Foreign);
    };
    read_content(alloc, content)
}

/// Returns the bytes before the code, if the code is theirs.
fn signed_content<'a>(bytes: &'a [u8], key: &[u8; 32]) -> Option<&'a [u8]>
    ensures { MatchOption result (IsAuthentic key.now bytes.now → ⊥) (λ content. bytes.now ≡ signed key.now content.now) }
{
    if bytes.len() < CODE_BYTES {
        return None;
    }
    let (content, code) = bytes.split_at(bytes.len() - CODE_BYTES);
    if same_bytes(&hmac_sha256_of(key, content), code) {
        Some(content)
    } else {
        None
    }
}
