//! Writing the file of a context, also a part at a time.

ghost use Rattle.std.specs.Prelude.{◌≡◌, ◌<◌, IsErrOf, MatchResult, OnOk, length};
ghost use Rattle.sv_realm.specs.declared.realm.TheConstants.{MAX_USERS};
ghost use Rattle.sv_saved_sessions.specs.File.{file_of};
ghost use Rattle.sv_saved_sessions.specs.Saved.{CanBeSaved};
ghost use Rattle.sv_saved_sessions.specs.Saving.{Finishes, GoesOn, IsUpTo, WritesFront, suspended};

use crate::pieces::Pieces;
use crate::save_fault::SaveFault;
use crate::saved_head::SavedHead;
use crate::writing::{count_of, put_head};
use std::alloc::Global;
use sv_lifecycle::SuspendedContext;
use sv_session::Sessions;
use sv_streams::Sink;

/// The file of a context that is being written, a part of the sessions at a time. Pieces of at least 64 KiB are written
/// as they are made, so that the file is never in memory as a whole. The sessions must not change until it is finished.
#[derive(Drop)]
pub struct FileWriter {
    pub(crate) pieces: Pieces,
    // The number of the session that was added last, or 0.
    pub(crate) last: u64,
}

impl FileWriter {
    /// Begins the file of a context that was suspended at a time, in seconds. Adds all but the sessions.
    ///
    /// # Errors
    /// [`SaveFault::WriteFailed`] or [`SaveFault::NoMemory`], after a front of the file was written.
    /// [`SaveFault::TooManyUsers`] if there are more users than a realm can have; nothing was written.
    pub fn begin<O: Sink>(
        alloc: Global,
        sink: &mut O,
        key: &[u8; 32],
        moment: u64,
        head: SavedHead<'_>,
        sessions: &Sessions,
    ) -> Result<FileWriter, SaveFault>
        ensures begun { MatchResult result
            (λ writer. IsUpTo O.makes key.now moment (suspended head.entry sessions.now) 0 sink.old writer sink.new)
            (λ fault. WritesFront O.makes (file_of key.now moment (suspended head.entry sessions.now)) sink.old (Err fault) sink.new) }
        ensures refused { IsErrOf result SaveFault.TooManyUsers → MAX_USERS < length head.entry.users.now }
    {
        let Some(count) = count_of(head.users) else {
            return Err(SaveFault::TooManyUsers);
        };
        let _order = sessions.serial();
        let mut pieces = Pieces::new(alloc, key);
        put_head(&mut pieces, sink, moment, count, &head, sessions)?;
        Ok(FileWriter { pieces, last: 0 })
    }

    /// Adds the next sessions, at most `count`. Returns whether all have been added.
    ///
    /// # Errors
    /// [`SaveFault::WriteFailed`] or [`SaveFault::NoMemory`], after a front of the file was written. The file cannot be
    /// continued.
    pub fn go_on<O: Sink>(
        &mut self,
        sink: &mut O,
        sessions: &Sessions,
        count: usize,
    ) -> Result<bool, SaveFault>
        ensures { GoesOn O.makes sessions.now.store count self.old sink.old result self.new sink.new }
    {
        let _order = sessions.serial();
        for _ in 0..count {
            let Some(session) = sessions.after(self.last) else {
                return Ok(true);
            };
            self.pieces.put(sink, session)?;
            self.last = session.number;
        }
        Ok(sessions.after(self.last).is_none())
    }

    /// Writes the rest of the file after all sessions have been added.
    ///
    /// # Errors
    /// [`SaveFault::WriteFailed`], after a front of the file was written.
    pub fn finish<O: Sink>(self, sink: &mut O) -> Result<(), SaveFault>
        ensures { Finishes O.makes self sink.old result sink.new }
    {
        let FileWriter { pieces, last: _ } = self;
        pieces.finish(sink)
    }
}

/// Writes the file of a context that was suspended at a time, in seconds. Pieces of at least 64 KiB are written as they
/// are made, so that the file is never in memory as a whole.
///
/// # Errors
/// [`SaveFault::WriteFailed`] or [`SaveFault::NoMemory`], after a front of the file was written.
/// [`SaveFault::TooManyUsers`] if there are more users than a realm can have; nothing was written.
pub fn write_context<O: Sink>(
    alloc: Global,
    sink: &mut O,
    key: &[u8; 32],
    moment: u64,
    context: &SuspendedContext,
) -> Result<(), SaveFault>
    ensures written { WritesFront O.makes (file_of key.now moment context.now) sink.old result sink.new }
    // So that it can be read again.
    ensures saved { OnOk result (CanBeSaved moment context.now) }
    ensures refused { IsErrOf result SaveFault.TooManyUsers → MAX_USERS < length context.now.users }
{
    let head = SavedHead::of(context);
    let mut writer = FileWriter::begin(alloc, sink, key, moment, head, &context.sessions)?;
    writer.go_on(sink, &context.sessions, context.sessions.count())?;
    writer.finish(sink)
}
