//! Locations of pages within a context.

ghost use Rattle.std.specs.Prelude.{◌≡◌, IsTrue};
ghost use Rattle.sv_text.specs.Gives.{GivesAnswer};
ghost use Rattle.sv_uri.specs.Canonical.{begins_with_slash};
ghost use Rattle.sv_descriptor.specs.Location as spec;

use crate::fault::{FaultCode, LocatedReadFault, refuse};
use crate::text::TextSchema;
use std::alloc::Global;
use std::marker::Model;
use sv_text::{NoMemory, Text};
use sv_uri::canon;
use sv_uri::fault::CanonFault;

/// The location of a page within a context: a text that begins with `/` and has a canonical path, with or without a
/// query (Jakarta Servlet 6.0 section 3.5.2). Contracts see the text.
#[derive(Drop)]
pub struct Location {
    text: Text,
}

impl Model for Location {
    ghost use Rattle.std.specs.Prelude.{ℕ, List, IsTrue};
    ghost use Rattle.sv_descriptor.specs.Location.{is_location};

    ghost Value = { List ℕ };

    ghost view = { λ location. location.text };

    ghost invariant = { λ location. IsTrue (is_location location.text) };
}

impl Location {
    /// Parses a location. Returns `None` if the text has no canonical path.
    pub fn parse(alloc: Global, text: &str) -> Result<Option<Location>, NoMemory>
        ensures { GivesAnswer result (spec.parsed text.now) }
    {
        if !is_location(alloc, text)? {
            return Ok(None);
        }
        Ok(Some(Location {
            text: Text::copy_of(alloc, text)?,
        }))
    }

    /// Returns the text that was parsed.
    pub fn text(&self) -> &str
        ensures value { result.now ≡ self.now }
        ensures canonical { IsTrue (spec.is_location result.now) }
        ensures begins { IsTrue (begins_with_slash result.now) }
    {
        self.text.as_str()
    }
}

/// The location of a page.
#[derive(Clone, Copy)]
pub struct PageLocation;

impl TextSchema for PageLocation {
    type Output = Location;

    ghost reads = { λ _. spec.location };

    fn read(&self, alloc: Global, key: &str, text: &str) -> Result<Location, LocatedReadFault> {
        match Location::parse(alloc, text)? {
            Some(location) => Ok(location),
            None => refuse(alloc, FaultCode::BadValue, key),
        }
    }
}

#[tactic(auto, unfolding(crate::specs::Location::is_location))]
fn is_location(alloc: Global, text: &str) -> Result<bool, NoMemory>
    ensures { GivesAnswer result (spec.is_location text.now) }
{
    match canon(alloc, text.as_bytes()) {
        Ok(_) => Ok(true),
        Err(CanonFault::Path(_)) => Ok(false),
        Err(CanonFault::NoMemory) => Err(NoMemory),
    }
}
