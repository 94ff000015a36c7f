//! Growing texts.

use std::alloc::Global;
use std::fmt;
use sv_text::NoMemory;

/// A growing text, which reports at its end if memory ran out. The calls that add to it need no error handling.
#[derive(Drop)]
pub struct Draft {
    text: Vec<u8>,
    is_whole: bool,
}

impl Draft {
    /// Returns the empty text.
    pub fn new(alloc: Global) -> Draft {
        Draft {
            text: Vec::new(alloc),
            is_whole: true,
        }
    }

    /// Returns whether nothing has been added.
    pub fn is_empty(&self) -> bool {
        self.text.is_empty()
    }

    /// Notes that memory ran out.
    pub fn fail(&mut self) {
        self.is_whole = false;
    }

    /// Adds a text.
    pub fn add(&mut self, text: &str) {
        self.add_bytes(text.as_bytes());
    }

    /// Adds bytes.
    pub fn add_bytes(&mut self, bytes: &[u8]) {
        if self.text.extend_from_slice(bytes).is_err() {
            self.fail();
        }
    }

    /// Adds a value as it is displayed.
    pub fn add_shown<T: fmt::Display>(&mut self, shown: &T) {
        match format!(in *self.text.allocator(); "{shown}") {
            Ok(text) => self.add(text.as_str()),
            Err(_) => self.fail(),
        }
    }

    /// Returns the text.
    ///
    /// # Errors
    /// Memory ran out.
    pub fn finish(self) -> Result<Vec<u8>, NoMemory> {
        if self.is_whole {
            Ok(self.text)
        } else {
            Err(NoMemory)
        }
    }
    /// Adds the text to another one.
    ///
    /// # Errors
    /// Memory ran out.
    pub fn add_to(self, text: &mut Vec<u8>) -> Result<(), NoMemory> {
        if self.is_whole && text.extend_from_slice(self.text.as_slice()).is_ok() {
            Ok(())
        } else {
            Err(NoMemory)
        }
    }
}
