//! Writing the content of a file before its sessions.

ghost use Rattle.std.specs.Prelude.{◌≡◌, ◌<◌, ◌≤◌, ◌^◌, ◌++◌, IfSome, MatchOption, OnOk, length, slice_get};
ghost use Rattle.std.specs.List.{AllByRecursion, flat_map};
ghost use Rattle.sv_realm.specs.declared.realm.TheConstants.{MAX_USERS};
ghost use Rattle.sv_saved_sessions.specs.Content.{magic_line, user_bytes};
ghost use Rattle.sv_saved_sessions.specs.Encoding.{list_bytes, number_bytes, text_bytes};
ghost use Rattle.sv_saved_sessions.specs.Saved.{AreAll, CanBeSaved, IsSession, IsText, IsUser};
ghost use Rattle.sv_saved_sessions.specs.Saving.{Passes, head_bytes, suspended};
ghost use Rattle.sv_session.specs.Restoring.{CanBeRestored};

use crate::cursor::MAGIC_LINE;
use crate::encoding::{append_account, append_number, append_text};
use crate::pieces::Pieces;
use crate::save_fault::SaveFault;
use crate::saved_head::SavedHead;
use sv_realm::{MAX_USERS, Realm};
use sv_session::Sessions;
use sv_streams::Sink;
use sv_text::NoMemory;

/// Returns the number of users of a realm, or `None` if there are more than a realm can have.
pub(crate) fn count_of(users: &Realm) -> Option<u32>
    ensures { MatchOption result (MAX_USERS < length users.now) (λ count. (count ≡ length users.now) × (count ≤ MAX_USERS)) }
{
    for count in 0..MAX_USERS as u32 + 1 {
        if users.account(count).is_none() {
            return Some(count);
        }
    }
    None
}

/// Adds the content before the first session.
pub(crate) fn put_head<O: Sink>(
    pieces: &mut Pieces,
    sink: &mut O,
    moment: u64,
    count: u32,
    head: &SavedHead<'_>,
    sessions: &Sessions,
) -> Result<(), SaveFault>
    requires count { count ≡ length head.now.users.now }
    requires known { count ≤ MAX_USERS }
    ensures passes { Passes O.makes (head_bytes moment head.now sessions.now.store) pieces.old sink.old result pieces.new sink.new }
    ensures saved { OnOk result (AllByRecursion IsSession sessions.now.store.sessions → CanBeSaved moment (suspended head.now sessions.now)) }
{
    put_begin(pieces, sink, moment, head.path)?;
    put_users(pieces, sink, count, head.users)?;
    pieces.put_list(sink, head.declared)?;
    pieces.put_list(sink, head.constraints)?;
    pieces.put_number(sink, head.greatest)?;
    put_numbers(pieces, sink, sessions)?;
    Ok(())
}

/// Adds the first line, the path and the time.
fn put_begin<O: Sink>(
    pieces: &mut Pieces,
    sink: &mut O,
    moment: u64,
    path: &str,
) -> Result<(), SaveFault>
    ensures passes { Passes O.makes (magic_line ++ (text_bytes path.now ++ number_bytes moment)) pieces.old sink.old result pieces.new sink.new }
    ensures fits { OnOk result (IsText path.now) }
{
    let Ok(()) = append_begin(&mut pieces.buffer, moment, path) else {
        return Err(SaveFault::NoMemory);
    };
    pieces.flush_if_full(sink)
}

/// Appends the first line, the path and the time.
fn append_begin(out: &mut Vec<u8>, moment: u64, path: &str) -> Result<(), NoMemory>
    ensures written { OnOk result (out.new.items ≡ out.old.items ++ (magic_line ++ (text_bytes path.now ++ number_bytes moment))) }
    ensures fits { OnOk result (IsText path.now) }
{
    out.extend_from_slice(MAGIC_LINE)?;
    append_text(out, path)?;
    append_number(out, moment)?;
    Ok(())
}

/// Adds the users.
fn put_users<O: Sink>(
    pieces: &mut Pieces,
    sink: &mut O,
    count: u32,
    users: &Realm,
) -> Result<(), SaveFault>
    requires { count ≡ length users.now }
    ensures passes { Passes O.makes (list_bytes user_bytes users.now) pieces.old sink.old result pieces.new sink.new }
    ensures fits { OnOk result (AreAll IsUser users.now) }
{
    pieces.put_number(sink, count as u64)?;
    put_accounts(pieces, sink, count, users)?;
    Ok(())
}

/// Adds the users, one after another.
fn put_accounts<O: Sink>(
    pieces: &mut Pieces,
    sink: &mut O,
    count: u32,
    users: &Realm,
) -> Result<(), SaveFault>
    requires { count ≡ length users.now }
    ensures passes { Passes O.makes (flat_map user_bytes users.now) pieces.old sink.old result pieces.new sink.new }
    ensures fits { OnOk result (AllByRecursion IsUser users.now) }
{
    for number in 0..count {
        put_user(pieces, sink, users, number)?;
    }
    Ok(())
}

/// Adds the user of a number.
fn put_user<O: Sink>(
    pieces: &mut Pieces,
    sink: &mut O,
    users: &Realm,
    number: u32,
) -> Result<(), SaveFault>
    requires { number < length users.now }
    ensures passes { IfSome (slice_get users.now number) (λ user. Passes O.makes (user_bytes user) pieces.old sink.old result pieces.new sink.new) }
    ensures fits { IfSome (slice_get users.now number) (λ user. OnOk result (IsUser user)) }
{
    let Some(account) = users.account(number) else {
        unreachable!()
    };
    let Ok(()) = append_account(&mut pieces.buffer, account) else {
        return Err(SaveFault::NoMemory);
    };
    pieces.flush_if_full(sink)
}

/// Adds the serial and the number of the sessions.
fn put_numbers<O: Sink>(
    pieces: &mut Pieces,
    sink: &mut O,
    sessions: &Sessions,
) -> Result<(), SaveFault>
    ensures passes { Passes O.makes (number_bytes sessions.now.store.serial ++ number_bytes (length sessions.now.store.sessions)) pieces.old sink.old result pieces.new sink.new }
    ensures fits { OnOk result ((length sessions.now.store.sessions < 2 ^ 64) × CanBeRestored sessions.now.store) }
{
    pieces.put_number(sink, sessions.serial())?;
    pieces.put_number(sink, sessions.count() as u64)?;
    Ok(())
}
