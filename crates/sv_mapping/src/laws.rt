//! The laws of the best match. Each is the contract of an empty function.

ghost use Rattle.std.specs.Prelude.{◌≡◌};
ghost use Rattle.sv_mapping.specs.BestMatch.{BestExists, BestIsAMatch, BestIsUnique, BestStandsFirst};
ghost use Rattle.sv_mapping.specs.Chosen.{IsFoundWhereServed, IsUnique};
ghost use Rattle.sv_mapping.specs.MatchOrder.{BestIsFirstTried, BestOfOthers};
ghost use Rattle.sv_mapping.specs.Places.{BestIsLookedUp};
ghost use Rattle.sv_mapping.specs.declared.pattern.TheConstants.{MAX_PATTERN_BYTES};

/// There is a best match exactly if a pattern matches the path.
pub fn best_exists()
    ensures { BestExists }
{}

/// The best match is one of the patterns, and it matches the path.
pub fn best_is_a_match()
    ensures { BestIsAMatch }
{}

/// Two patterns of a list that both match a path best have the same text.
pub fn best_is_unique()
    ensures { BestIsUnique }
{}

/// For a path that begins with a slash, the best match is the first pattern found by trying the exact pattern for the
/// path, its prefixes from the longest to the shortest, its extension, and the default pattern.
pub fn best_is_first_tried()
    ensures { BestIsFirstTried }
{}

/// For a path that does not begin with a slash, the best match is the first pattern found by trying `/*` if the path is
/// empty, then its extension, then the default pattern.
pub fn best_of_others()
    ensures { BestOfOthers }
{}

/// The place of the best match is the least place of its text.
pub fn best_stands_first()
    ensures { BestStandsFirst }
{}

/// The limits of this crate, as numbers.
pub fn limits_are_as_stated()
    ensures pattern { MAX_PATTERN_BYTES ≡ 1024 }
{}

/// The chosen context paths of a list for a path are equal.
pub fn the_chosen_context_path_is_unique()
    ensures { IsUnique }
{}

/// A path has a context exactly if some context path of the list serves it.
pub fn a_context_is_found_where_one_serves()
    ensures { IsFoundWhereServed }
{}

/// The place of the best match is that of the exact pattern for the path, or else that of its longest prefix pattern,
/// or else that of its extension pattern, or else that of the default pattern.
pub fn best_is_looked_up()
    ensures { BestIsLookedUp }
{
    best_is_first_tried();
    best_of_others();
    best_stands_first();
}
