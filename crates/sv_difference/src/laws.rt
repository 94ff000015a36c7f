//! Theorems about differences and reports, each the contract of a function that only calls other theorems.

ghost use Rattle.sv_difference.specs.CompleteLaws.{ReportsAreComplete};
ghost use Rattle.sv_difference.specs.DifferenceLaws.{DifferencesAreComplete, DifferencesAreRight, NoneExactlyIfSame};
ghost use Rattle.sv_difference.specs.ExampleLaws.{ReportedExamplesAreChanged, SameOutcomesAreUnchanged, SameOutcomesHaveNoDifferences};
ghost use Rattle.sv_difference.specs.ServerLaws.{LoginsChangeOutcomes, ReportedDifferencesAreRight, UnchangedHaveSameOutcomes};

use sv_audit::{
    each_path_is_resembled, examples_are_right, served_paths_are_rooted, tables_are_right,
};
use sv_mapping::laws::{a_context_is_found_where_one_serves, the_chosen_context_path_is_unique};
use sv_policy::best_is_of_texts;

/// Each difference of two configurations at some paths is right: it is at one of the paths, which has both of its rows, it
/// has methods, and its accesses say what the constraints decide on all requests with a path of both rows and one of the
/// methods. There is a visitor whose fate with all of them differs. Its kind says whether some visitor passes only after,
/// or only before.
pub fn differences_are_right()
    ensures { DifferencesAreRight }
{
    tables_are_right();
    best_is_of_texts();
}

/// No difference is missed at the rows of the paths: a request that passes, leads to a login or is denied before, and does
/// not so after, for some visitor, has the rows and the method of a difference. If the paths have the rows of each path,
/// there is no difference exactly if there is no such request.
pub fn differences_are_complete()
    ensures complete { DifferencesAreComplete }
    ensures exact { NoneExactlyIfSame }
{
    tables_are_right();
    best_is_of_texts();
}

/// If a report says that nothing differs, each request of each visitor has the same outcome with both servers: the same
/// context serves it or none does, it logs in, it is for a hidden folder, or it passes, leads to a login or is denied.
pub fn unchanged_have_same_outcomes()
    ensures { UnchangedHaveSameOutcomes }
{
    best_is_of_texts();
    differences_are_complete();
    each_path_is_resembled();
    examples_are_right();
    served_paths_are_rooted();
    the_chosen_context_path_is_unique();
    a_context_is_found_where_one_serves();
}

/// No request is missed by a report: if a visitor's request has another outcome before than after, the report tells of it.
/// One of the servers gives the request to a context. And only one server has this context, or only one of both contexts
/// has a login configuration, or one of its differences has the rows of the path and the method.
pub fn reports_are_complete()
    ensures { ReportsAreComplete }
{
    best_is_of_texts();
    differences_are_complete();
    each_path_is_resembled();
    examples_are_right();
    served_paths_are_rooted();
    the_chosen_context_path_is_unique();
    a_context_is_found_where_one_serves();
}

/// If each request of each visitor has the same outcome with both servers, the report names no difference at any context
/// path. It says that nothing differs, if each context path is empty, or a canonical path that does not end with a slash.
/// Then each context serves some request: one for its own path.
pub fn same_outcomes_are_unchanged()
    ensures differences { SameOutcomesHaveNoDifferences }
    ensures report { SameOutcomesAreUnchanged }
{
    differences_are_right();
    the_chosen_context_path_is_unique();
}

/// Each difference of a report says what the constraints of both contexts decide. There is a visitor for whom each of
/// its requests has another outcome before than after, if the contexts serve the request, it does not log in, and it is
/// not for a hidden folder. If only one of two contexts with the same path has a login configuration, requests log in only
/// there.
pub fn reported_differences_are_right()
    ensures differences { ReportedDifferencesAreRight }
    ensures logins { LoginsChangeOutcomes }
{
    differences_are_right();
}

/// The example that a report names for a difference shows it. It is the target of a request that both servers give to the
/// context, and that is for no hidden folder. There is a visitor for whom each request for it, with a method of the
/// difference, has another outcome before than after, unless it logs in; and there is such a method.
pub fn reported_examples_are_changed()
    ensures { ReportedExamplesAreChanged }
{
    differences_are_right();
}
