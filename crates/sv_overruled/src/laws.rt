//! Theorems about this crate, each the contract of a function.

ghost use Rattle.std.specs.Prelude.{◌≡◌};
ghost use Rattle.sv_overruled.specs.declared.overruled.TheConstants.{MAX_COMPARED_AT_PATTERN};

/// The limit of this crate as a number.
pub fn limits_are_as_stated()
    ensures { MAX_COMPARED_AT_PATTERN ≡ 16 }
{}
