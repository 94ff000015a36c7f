//! The clients of the control socket, each at a place of its own.

use crate::control_client::ControlClient;
use crate::limits::MAX_CONTROL_CLIENTS;
use std::alloc::Global;
use std::marker::Model;

/// The clients of the control socket. Each has a place below [`MAX_CONTROL_CLIENTS`], by which the system reports it.
/// Contracts see the number of places that have been used.
#[derive(Drop)]
pub(crate) struct ControlClients {
    places: Vec<Option<ControlClient>>,
}

impl Model for ControlClients {
    ghost use Rattle.std.specs.Prelude.{ℕ, ◌≤◌, vec_len};
    ghost use Rattle.sv_readiness.specs.declared.limits.TheConstants.{MAX_CONTROL_CLIENTS};

    ghost Value = { ℕ };

    ghost view = { λ c. vec_len c.places };

    ghost invariant = { λ c. vec_len c.places ≤ MAX_CONTROL_CLIENTS };
}

impl ControlClients {
    ghost use Rattle.std.specs.Prelude.{◌≡◌, ◌≤◌, ◌<◌};
    ghost use Rattle.sv_readiness.specs.declared.limits.TheConstants.{MAX_CONTROL_CLIENTS};

    /// Returns no clients.
    pub fn new(alloc: Global) -> ControlClients
        ensures { result ≡ 0 }
    {
        ControlClients {
            places: Vec::new(alloc),
        }
    }

    /// Returns the number of places that have been used.
    pub fn len(&self) -> usize
        ensures { result ≡ self.now }
    {
        self.places.len()
    }

    /// Returns a free place. If none is free, that of the client whose time ends first.
    pub fn place(&self) -> usize
        ensures { result < MAX_CONTROL_CLIENTS }
    {
        if let Some(place) = self.places.iter().position(|place| place.is_none()) {
            return place;
        }
        if self.places.len() < MAX_CONTROL_CLIENTS {
            return self.places.len();
        }
        self.first_to_end()
    }

    // Returns the place of the client whose time ends first.
    fn first_to_end(&self) -> usize
        ensures { result < MAX_CONTROL_CLIENTS }
    {
        let mut found = 0;
        let mut least = u64::MAX;
        for place in 0..self.places.len() {
            if let Some(client) = &self.places[place]
                && client.until() < least
            {
                found = place;
                least = client.until();
            }
        }
        found
    }

    /// Puts a client at a place. A client that was there is dropped. Without memory for one more, the client is dropped.
    pub fn put(&mut self, place: usize, client: ControlClient) {
        if place < self.places.len() {
            self.places[place] = Some(client);
        } else if self.places.len() < MAX_CONTROL_CLIENTS {
            let _ = self.places.push(Some(client));
        }
    }

    /// Takes the client from a place, if there is one.
    pub fn take(&mut self, place: usize) -> Option<ControlClient> {
        self.places.get_mut(place)?.take()
    }

    /// Whether the time of the client at a place has ended.
    pub fn is_due(&self, place: usize, now: u64) -> bool {
        match self.places.get(place) {
            Some(Some(client)) => client.until() <= now,
            _ => false,
        }
    }
}
