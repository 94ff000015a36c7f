//! Theorems about findings, each the contract of a function that only calls other theorems.

ghost use Rattle.std.specs.Prelude.{◌≡◌};
ghost use Rattle.sv_findings.specs.declared.asked_folders.TheConstants.{MAX_ASKED_FOLDERS};
ghost use Rattle.sv_findings.specs.declared.unserved.TheConstants.{MAX_SERVED_PATTERNS};
ghost use Rattle.sv_findings.specs.Reach.{ElsewhereIsForeign, HiddenIsProtected, ServedIsReached};
ghost use Rattle.sv_findings.specs.FindingLaws.{AskedNeedIsFound, BestDecides, DeadIsFound, FindingsAreRight, HeadIsFound, NeedIsFound, OpenedIsFound, OverruledIsFound, OverruledIsRemovable, ReadingIsFound, SearchedIsFound, UncoveredIsFound, UnreachedIsFound, UnservedIsFound};

use sv_mapping::laws::{best_exists, best_is_a_match, best_is_unique};
use sv_uri::laws::canonical_has_shape;

/// Each finding of constraints and their table is right. With each of the opened methods everyone passes, although a
/// constraint with an authorization constraint covers it. The methods of an uncovered finding pass at each path of its
/// pattern, since they are uncovered. Methods that are read otherwise are uncovered at their prefix pattern. A
/// constraint covers one of them at a pattern that is tried later, and a request without a caller does not pass if that
/// pattern decides. If GET and HEAD differ, their accesses are as reported, and there is a visitor whose fate differs
/// with them: whether requests pass, lead to a login or are denied. Without a login configuration nobody can log in. A
/// dead constraint covers no request, and a dead pattern is the best match of no canonical path. Without an overruled
/// constraint each request at one of its patterns is decided alike, over a plain and over a secure connection, by the
/// constraints with their transport requirements. An
/// unreached pattern is hidden or belongs to another context, and at no path that an unserved one matches is there a
/// servlet, a file that requests reach, or a folder that holds one. The login page refers to what it needs,
/// directly or from a folder in which a GET without a caller leads to a login, and a request without a caller does not
/// pass there. An unknown role is named and not declared, an unheld one is named and no user has it, and an
/// unused one is declared and not named.
pub fn findings_are_right()
    ensures { FindingsAreRight }
{
    canonical_has_shape();
}

/// No method is missed that a constraint opens to everyone at a pattern that requests meet, and another one restricts.
/// Unless uncovered methods are denied, none is missed at such a pattern of the constraints at which another method is
/// covered, and none at such a prefix pattern that is not open to everyone at a pattern that is tried later and matches
/// some canonical path. No
/// difference between GET and HEAD for some visitor at such a pattern is missed, no pattern that decides nothing, and
/// none that no request reaches. No constraint is missed without which each request at its patterns is decided alike, if
/// few constraints and methods are at each of them. No path is missed that a reference of the login page means directly,
/// and that a request without a caller may not get. If a relative reference means such a path in the folder of a pattern at
/// which a GET without a caller leads to a login, it has a finding, unless there are too many such folders.
pub fn findings_are_complete()
    ensures opened { OpenedIsFound }
    ensures uncovered { UncoveredIsFound }
    ensures readings { ReadingIsFound }
    ensures heads { HeadIsFound }
    ensures dead { DeadIsFound }
    ensures overruled { OverruledIsFound }
    ensures unreached { UnreachedIsFound }
    ensures needs { NeedIsFound }
    ensures asked_needs { AskedNeedIsFound }
{
    best_is_a_match();
}

/// Of what [`unsearched_of`](crate::unsearched_of) does not report none is missed: no constraint without which each request at
/// its patterns is decided alike, and no pattern at which nothing answers.
pub fn searched_findings_are_complete()
    ensures overruled { SearchedIsFound }
    ensures unserved { UnservedIsFound }
{}

/// Without an overruled constraint, whose number no other one has, each request is decided alike: it passes, needs a
/// login or is denied, over a plain and over a secure connection.
pub fn overruled_constraints_change_nothing()
    ensures { OverruledIsRemovable }
{
    canonical_has_shape();
    best_exists();
    best_is_unique();
}

/// The best match of the path of a request decides something, so no finding on requests is lost with the patterns that
/// decide nothing.
pub fn best_patterns_decide()
    ensures { BestDecides }
{
    canonical_has_shape();
}

/// Each path that a hidden pattern matches is protected. A target belongs to another context if its path within this one
/// is matched by a pattern that is elsewhere. If the context serves a target and its path is not protected, each pattern
/// that matches the path is reached.
pub fn reach_is_right()
    ensures hidden { HiddenIsProtected }
    ensures elsewhere { ElsewhereIsForeign }
    ensures reached { ServedIsReached }
{}

/// The limits of this crate as numbers.
pub fn limits_are_as_stated()
    ensures served { MAX_SERVED_PATTERNS ≡ 2000 }
    ensures asked { MAX_ASKED_FOLDERS ≡ 200 }
{}
