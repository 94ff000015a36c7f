//! The laws of canonical paths. Each is the contract of an empty function.

ghost use Rattle.sv_uri.specs.Laws.{ClimbsByFronts, CanonicalIsItsOwn};
ghost use Rattle.sv_uri.specs.LocationField.{LocationIsReadBack};
ghost use Rattle.sv_uri.specs.Shape.{CanonicalHasShape};

/// A path climbs exactly if some front of its segments has more `..` than other names.
pub fn climbs_by_fronts()
    ensures { ClimbsByFronts }
{}

/// A canonical path without `%`, `?`, `#` and `;` is its own canonical path, without a query.
pub fn canonical_is_its_own()
    ensures { CanonicalIsItsOwn }
{}

/// A canonical path begins with `/`. Only its last segment may be empty, none is `.` or `..`, and it has no control and
/// no backslash.
pub fn canonical_has_shape()
    ensures { CanonicalHasShape }
{}

/// Reading the location of a canonical path gives the same path, without a query.
pub fn location_is_read_back()
    ensures { LocationIsReadBack }
{}
