//! Theorems about access tables, each the contract of a function that only calls other theorems.

ghost use Rattle.sv_audit.specs.Examples.{CanonicalIsReadBack, ExamplesAreRight};
ghost use Rattle.sv_audit.specs.Narrower.{NarrowerAreComplete, NarrowerAreSound};
ghost use Rattle.sv_audit.specs.Reading.{NumbersAreRight, ServedPathsAreRooted, TablesAreRight};
ghost use Rattle.sv_audit.specs.Representatives.{EachPathIsRepresented, EachPathIsResembled};
ghost use Rattle.sv_audit.specs.Secure.{OnlyTransportChanges};
ghost use Rattle.sv_audit.specs.Visitors.{EffectiveIsMet, LettingInIsExact, SameCallersAreExact};

use sv_mapping::laws::{best_exists, best_is_a_match};
use sv_policy::best_is_of_texts;
use sv_uri::laws::{canonical_has_shape, location_is_read_back};

/// For every path that is empty or begins with a slash, every method and every caller, a table has exactly one cell, and
/// it says what the constraints decide. The number in the cell is that of the constraint that decides the request of
/// the caller whose table it is: a given one, or one who has just what the cell asks for.
pub fn tables_are_right()
    ensures answers { TablesAreRight }
    ensures numbers { NumbersAreRight }
{
    best_exists();
    best_is_a_match();
    best_is_of_texts();
}

/// Dropping the transport requirements changes only decisions about the transport, and no decision is about it
/// afterwards.
pub fn only_transport_changes()
    ensures { OnlyTransportChanges }
{}

/// Each path that a context serves is, within the context, a path that the tables speak of: it begins with a slash.
pub fn served_paths_are_rooted()
    ensures { ServedPathsAreRooted }
{}

/// The location of an example leads to it. It begins with a slash, is at or below none of the paths of other contexts and
/// in no hidden folder, and has the pattern as its best match, or none. The location of each path that a request can have
/// leads to it.
pub fn examples_are_right()
    ensures right { ExamplesAreRight }
    ensures reachable { CanonicalIsReadBack }
{
    canonical_has_shape();
    location_is_read_back();
}

/// If a pattern matches a path whose best match is another one, that one is among the narrower patterns. Each narrower
/// pattern is chosen before the pattern at some path that both match.
pub fn narrower_patterns_are_exact()
    ensures complete { NarrowerAreComplete }
    ensures sound { NarrowerAreSound }
{
    best_is_a_match();
}

/// Each path that is empty or begins with a slash has a representative with the same best match.
pub fn each_path_is_represented()
    ensures { EachPathIsRepresented }
{}

/// Each path that begins with a slash has such a representative that resembles it: it is in no other folder, it is hidden
/// only if the path is, and in each context requests can have it if they can have the path. It is the path itself, or none
/// of the paths that are taken.
pub fn each_path_is_resembled()
    ensures { EachPathIsResembled }
{
    canonical_has_shape();
    location_is_read_back();
}

/// The effective access decides the fate of every visitor. Accesses have the same callers exactly if they decide alike
/// for every visitor, and one lets others in exactly if some visitor passes by it and not by the one before.
pub fn visitors_are_decided()
    ensures effective { EffectiveIsMet }
    ensures callers { SameCallersAreExact }
    ensures letting { LettingInIsExact }
{}
