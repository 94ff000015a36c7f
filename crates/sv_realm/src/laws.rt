//! Theorems about realms, each the contract of a function with an empty body.

ghost use Rattle.std.specs.Prelude.{◌≡◌};
ghost use Rattle.sv_realm.specs.Laws.{ChecksTheNamed, FindsTheFirst, FitsByWholeDigest, MissesNone};
ghost use Rattle.sv_realm.specs.declared.realm.TheConstants.{MAX_USERS};

/// The caller found by a name has that name and is found again by their number, and no earlier user has the name. If no
/// caller is found, no user has the name.
pub fn the_first_user_of_a_name_counts()
    ensures found { FindsTheFirst }
    ensures missed { MissesNone }
{}

/// A caller passes the check exactly if they are the caller found by the name and the password fits the user with their
/// number.
pub fn a_checked_caller_is_the_named_one()
    ensures { ChecksTheNamed }
{}

/// A digest that does not have the 32 bytes of SHA-256 fits no password.
pub fn a_digest_that_fits_is_whole()
    ensures { FitsByWholeDigest }
{}

/// The limits of this crate as numbers.
pub fn limits_are_as_stated()
    ensures users { MAX_USERS ≡ 1000 }
{}
