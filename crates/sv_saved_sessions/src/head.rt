//! The content of a file before its sessions.

ghost use Rattle.std.specs.Prelude.{◌≡◌};
ghost use Rattle.sv_saved_sessions.specs.Reading.{Gives, context_of, head_at};

use crate::cursor::Cursor;
use crate::decoding::{list, realm};
use crate::reading_fault::ReadingFault;
use crate::saved_context::SavedContext;
use std::alloc::Global;
use sv_constraints::Constraint;
use sv_lifecycle::SuspendedContext;
use sv_realm::Realm;
use sv_session::Sessions;
use sv_text::{Listed, Text};

/// The content of a file before its sessions.
#[derive(Drop)]
pub(crate) struct Head {
    pub(crate) path: Text,
    pub(crate) moment: u64,
    pub(crate) users: Realm,
    pub(crate) declared: Listed<Constraint>,
    pub(crate) constraints: Listed<Constraint>,
    pub(crate) greatest: u64,
    pub(crate) serial: u64,
}

impl Head {
    /// Reads the content before the sessions.
    #[tactic(auto, unfolding(crate::specs::Reading::head_at))]
    pub(crate) fn read(alloc: Global, cursor: &mut Cursor<'_>) -> Result<Head, ReadingFault>
        ensures { Gives result cursor.new (head_at cursor.old) }
    {
        cursor.magic()?;
        let path = cursor.text(alloc)?;
        let moment = cursor.number()?;
        let users = realm(alloc, cursor)?;
        let declared = list::<Constraint>(alloc, cursor)?;
        let constraints = list::<Constraint>(alloc, cursor)?;
        let greatest = cursor.number()?;
        let serial = cursor.number()?;
        Ok(Head {
            path,
            moment,
            users,
            declared,
            constraints,
            greatest,
            serial,
        })
    }

    /// Adds the sessions.
    pub(crate) fn with(self, sessions: Sessions) -> SavedContext
        ensures { result ≡ record {
          moment = self.moment;
          context = record { path = self.path; users = self.users; declared = self.declared; constraints = self.constraints; greatest = self.greatest; sessions = sessions };
        } }
    {
        SavedContext {
            moment: self.moment,
            context: SuspendedContext {
                path: self.path,
                users: self.users,
                declared: self.declared,
                constraints: self.constraints,
                greatest: self.greatest,
                sessions,
            },
        }
    }
}
