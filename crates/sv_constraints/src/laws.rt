//! Theorems about the verdict, and the limits as numbers, each the contract of a function with an empty body.

ghost use Rattle.std.specs.Prelude.{◌≡◌};
ghost use Rattle.sv_constraints.specs.Laws.{FindingsDecide, FindingsOfOneMore, JustOneCaseHolds, LeastOfOneMore, OnlyTheBestPatternDecides};

use crate::constraint::{MAX_METHOD_BYTES, MAX_PATTERNS_OF_CONSTRAINT};

/// Exactly one of the eight cases of the verdict holds, and it gives the verdict.
pub fn just_one_case_holds()
    ensures { JustOneCaseHolds }
{}

/// The verdict depends only on the best pattern and the constraints that cover the method there.
pub fn only_the_best_pattern_decides()
    ensures { OnlyTheBestPatternDecides }
{}

/// The least number of the constraints that pass a test, and all findings, can be computed by adding one constraint at
/// a time.
pub fn one_more_is_found()
    ensures least { LeastOfOneMore }
    ensures found { FindingsOfOneMore }
{}

/// The findings for the constraints that cover a request at its best pattern give the verdict.
pub fn findings_decide()
    ensures { FindingsDecide }
{}

/// States the limits as numbers. Definitions and code cite only the constants, so a change to a constant would change
/// both.
pub fn limits_are_as_stated()
    ensures method { MAX_METHOD_BYTES ≡ 15 }
    ensures patterns { MAX_PATTERNS_OF_CONSTRAINT ≡ 64 }
{}
