//! Theorems about best matches and gaps, each the contract of a function that at most calls other theorems.

ghost use Rattle.std.specs.Prelude.{◌≡◌};
ghost use Rattle.sv_policy.specs.Gaps.{GapsAreExact, GapsRise};
ghost use Rattle.sv_policy.specs.MergedLaws.{RisingHasTheTexts, RisingIsAlone, RisingRises, UncoveredIsExact, UncoveredRises};
ghost use Rattle.sv_policy.specs.Patterns.{BestIsOfTexts};
ghost use Rattle.sv_policy.specs.declared.edit.TheConstants.{MAX_CONSTRAINTS};

use sv_mapping::laws::best_is_unique;

/// Patterns with the same texts have the same best match for each path, whatever their order and number.
pub fn best_is_of_texts()
    ensures { BestIsOfTexts }
{
    best_is_unique();
}

/// A gap contains a method exactly if a constraint lists its pattern and none covers the method there.
pub fn gaps_are_exact()
    ensures { GapsAreExact }
{
    rising_is_in_order();
    uncovered_methods_are_exact();
}

/// The patterns of the gaps are strictly ascending by bytes, and so are the method names in each gap. No gap is written
/// as all methods: a gap without exceptions has an empty list of them.
pub fn gaps_rise()
    ensures { GapsRise }
{
    rising_is_in_order();
    uncovered_methods_are_exact();
}

/// The limits of this crate as numbers.
pub fn limits_are_as_stated()
    ensures constraints { MAX_CONSTRAINTS ≡ 1000 }
{}

/// Sorting texts by bytes gives a strictly ascending list of the same texts, and no other list is strictly ascending
/// and has the same texts.
pub fn rising_is_in_order()
    ensures rises { RisingRises }
    ensures texts { RisingHasTheTexts }
    ensures alone { RisingIsAlone }
{}

/// The uncovered methods at a pattern are exactly those that no constraint covers there, and the listed names are
/// strictly ascending.
pub fn uncovered_methods_are_exact()
    ensures exact { UncoveredIsExact }
    ensures rises { UncoveredRises }
{}
