//! The number of requests.

use std::alloc::{AllocError, Global};
use std::cell::Cell;
use std::rc::Rc;
use sv_web::{Event, Listener};

/// A request count that a listener and a servlet share.
#[derive(Drop)]
pub struct Visits {
    heard: Rc<Cell<u64>>,
}

impl Visits {
    /// Creates a count of 0.
    pub fn new(alloc: Global) -> Result<Visits, AllocError> {
        Ok(Visits {
            heard: Rc::new(alloc, Cell::new(0))?,
        })
    }

    /// Returns the same count again.
    pub fn shared(&self) -> Result<Visits, AllocError> {
        Ok(Visits {
            heard: Rc::clone(&self.heard)?,
        })
    }

    /// Returns the number of requests since the start.
    pub fn count(&self) -> u64 {
        self.heard.get()
    }
}

impl Listener for Visits {
    fn hear(&mut self, event: &Event) {
        if let Event::RequestInitialized = event {
            self.heard.set(self.heard.get().saturating_add(1));
        }
    }
}
