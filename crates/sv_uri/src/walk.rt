//! The names of a path that its dot segments leave, from the first segment to the last.

ghost use Rattle.std.specs.Prelude.{◌≡◌, ℕ, if◌then◌else◌, List, [], ◌∷◌, ◌++◌, IfOk, All, IsUtf8};
ghost use Rattle.std.specs.List.{flat_map};
ghost use Rattle.std.specs.Str.{byte};
ghost use Rattle.std.specs.Cow.{cow_slice_items};
ghost use Rattle.sv_text.specs.Gives.{GivesAnswer};
ghost use Rattle.sv_uri.specs.DotSegments as spec;
ghost use Rattle.sv_uri.specs.Walked.{shown, HasSeen};

use crate::name::Name;
use crate::segment::{is_parent, is_same};
use smallvec::SmallVec;
use std::alloc::Global;
use std::borrow::CowSlice;
use sv_text::{NoMemory, Text};

fn is_idle(name: &[u8]) -> bool
    ensures { result ≡ spec.is_idle name.now }
{
    name.is_empty() || is_same(name)
}

/// The number of names that a walk holds without heap memory.
const FEW: usize = 4;

/// The names that remain of the segments entered so far.
#[derive(Drop)]
pub(crate) struct Walk<'a> {
    pub(crate) names: SmallVec<Name<'a>, FEW>,
    pub(crate) climbs: bool,
    pub(crate) is_open: bool,
}

impl<'a> Walk<'a> {
    /// Creates a walk before the first segment.
    pub(crate) fn new(alloc: Global) -> Walk<'a>
        ensures { HasSeen result [] }
    {
        Walk {
            names: SmallVec::new(alloc),
            climbs: false,
            is_open: false,
        }
    }

    /// Enters the name of the next segment.
    pub(crate) fn enter(&mut self, name: CowSlice<'a, u8, Global>) -> Result<(), NoMemory>
        ensures { IfOk result (λ _. (seen : List (List ℕ))
            → HasSeen self.old seen → HasSeen self.new (seen ++ cow_slice_items name.entry ∷ [])) }
    {
        let bytes = name.as_slice();
        if is_parent(bytes) {
            self.climbs |= self.names.pop().is_none();
            self.is_open = true;
        } else if is_idle(bytes) {
            self.is_open = true;
        } else {
            self.names.push(Name { bytes: name })?;
            self.is_open = false;
        }
        Ok(())
    }

    /// Returns the path of the remaining names, with a slash before each. It ends in a slash if the last segment was
    /// empty, `.` or `..`.
    pub(crate) fn path(&self, alloc: Global) -> Result<Text, NoMemory>
        requires { All IsUtf8 (shown self.now.names.items) }
        ensures { GivesAnswer result (flat_map (λ name. byte "/" ∷ name)
            (shown self.now.names.items ++ (if self.now.is_open then [] ∷ [] else []))) }
    {
        let mut path = joined(alloc, self.names.as_slice())?;
        if self.is_open {
            path.push_str(alloc, "/")?;
        }
        Ok(path)
    }
}

// Returns the length of all names, with a slash before each and one at the end.
fn room_of(names: &[Name<'_>]) -> usize {
    let mut room: usize = 1;
    for name in names {
        room = room.saturating_add(name.bytes.len()).saturating_add(1);
    }
    room
}

// Joins the names, with a slash before each.
fn joined(alloc: Global, names: &[Name<'_>]) -> Result<Text, NoMemory>
    requires { All IsUtf8 (shown names.now) }
    ensures { GivesAnswer result (flat_map (λ name. byte "/" ∷ name) (shown names.now)) }
{
    let mut path = Text::with_room(alloc, room_of(names))?;
    for name in names {
        path.push_str(alloc, "/")?;
        path.push_str(alloc, name.as_str())?;
    }
    Ok(path)
}
