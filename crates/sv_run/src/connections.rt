//! The known connections of a container, by their numbers.

ghost use Rattle.std.specs.Prelude.{◌≡◌, List, ℕ, None, IfOk, IsSome, OnOk, is_some};
ghost use Rattle.sv_run.specs.HostConnections.{FeedsOne};
ghost use Rattle.sv_run.specs.Connections.{awaited_in, connections_of, forgotten, no_connections, opened, with_held};
ghost use Rattle.sv_wire.specs.Inbox.{Held, spent_for_good};

use std::alloc::Global;
use std::collections::HashMap;
use std::marker::Model;
use sv_text::NoMemory;
use sv_wire::{Awaited, Inbox, Item};

/// The known connections, each with its inbox. The time of a look-up does not depend on their number.
#[derive(Drop)]
pub struct Connections {
    alloc: Global,
    inboxes: HashMap<u64, Inbox>,
    // Spares the look-up of a connection that is asked about after its piece was read.
    latest: Option<Latest>,
}

/// What is awaited of the connection whose piece was read last.
#[derive(Clone, Copy, Debug, Drop)]
pub(crate) struct Latest {
    number: u64,
    awaited: Awaited,
}

impl Model for Connections {
    ghost use Rattle.std.specs.Prelude.{ℕ, List};
    ghost use Rattle.sv_run.specs.HostConnections.{IsAwaited};
    ghost use Rattle.sv_run.specs.Connections.{connections_of};
    ghost use Rattle.sv_wire.specs.Inbox.{Held};

    ghost Value = { List (ℕ × Held) };

    ghost view = { λ connections. connections.inboxes.entries };

    ghost invariant = { λ connections. IsAwaited (connections_of connections.inboxes.entries) connections.latest };
}

impl Connections {
    /// Returns an empty collection. It does not allocate.
    pub fn new(alloc: Global) -> Connections
        ensures { connections_of result ≡ no_connections }
    {
        Connections {
            alloc,
            inboxes: HashMap::new(alloc),
            latest: None,
        }
    }

    /// Returns the number of known connections.
    pub fn len(&self) -> usize
        ensures { result ≡ (connections_of self.now).known }
    {
        self.inboxes.len()
    }

    /// Returns whether a connection is known.
    pub fn is_known(&self, number: u64) -> bool
        ensures { result ≡ is_some ((connections_of self.now).held number) }
    {
        self.inboxes.contains_key(&number)
    }

    /// Returns what is awaited of a connection: nothing if it is not known.
    #[inline(always)]
    pub fn awaits(&self, number: u64) -> Awaited
        ensures { result ≡ awaited_in (connections_of self.now) number }
    {
        if let Some(latest) = self.latest {
            if latest.number == number {
                return latest.awaited;
            }
        }
        self.look_up(number)
    }

    // Looks up what is awaited of a connection.
    fn look_up(&self, number: u64) -> Awaited
        ensures { result ≡ awaited_in (connections_of self.now) number }
    {
        match self.inboxes.get(&number) {
            Some(inbox) => inbox.awaits(),
            None => Awaited::Nothing,
        }
    }

    /// Adds a connection, which is known from then on.
    ///
    /// # Errors
    /// `NoMemory` if an allocation fails. The connections are then unspecified, and their container is stopped.
    pub fn open(&mut self, number: u64) -> Result<(), NoMemory>
        requires { (connections_of self.old).held number ≡ None }
        ensures { IfOk result (λ _. connections_of self.new ≡ opened number (connections_of self.old)) }
    {
        self.latest = None;
        self.inboxes.insert(number, Inbox::new(self.alloc))?;
        Ok(())
    }

    /// Removes a connection, which is then no longer known.
    pub fn forget(&mut self, number: u64)
        requires { IsSome ((connections_of self.old).held number) }
        ensures { connections_of self.new ≡ forgotten number (connections_of self.old) }
    {
        self.latest = None;
        self.inboxes.remove(&number);
    }

    /// Reads a piece of a connection. The list then holds the items that the piece completes, in order, in place of its
    /// previous items.
    ///
    /// # Errors
    /// `NoMemory` if an allocation fails. The connections are then unspecified, and their container is stopped.
    #[inline(always)]
    pub fn feed(&mut self, number: u64, piece: &[u8], items: &mut Vec<Item>) -> Result<(), NoMemory>
        requires { IsSome ((connections_of self.old).held number) }
        ensures { OnOk result (FeedsOne (connections_of self.old) number piece.now items.new.items (connections_of self.new)) }
    {
        match self.inboxes.get_mut(&number) {
            Some(inbox) => {
                let fed = inbox.feed(piece, items);
                let awaited = inbox.awaits();
                self.latest = Some(Latest { number, awaited });
                fed
            }
            None => unreachable!(),
        }
    }

    /// Stops reading from a connection. It stays known until its input ends or it is lost.
    pub fn close(&mut self, number: u64)
        requires { IsSome ((connections_of self.old).held number) }
        ensures { connections_of self.new ≡ with_held number spent_for_good (connections_of self.old) }
    {
        self.latest = None;
        match self.inboxes.get_mut(&number) {
            Some(inbox) => {
                inbox.end();
            }
            None => unreachable!(),
        }
    }
}
