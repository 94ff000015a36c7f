//! Theorems about reading a stream, each the contract of a function with an empty body.

ghost use Rattle.std.specs.Prelude.{◌≡◌};
ghost use Rattle.sv_wire.specs.Laws.{BodiesAreWithinTheLimit, OpenHeadsAreShort, ReadingsAreUnique, ReadingsExist, ReadingsJoin, ReadingsSplitAtACut};
ghost use Rattle.sv_wire.specs.Storage.{OpenTextsAreShort};

use crate::limits::{
    MAX_BODY_LEN, MAX_FIELD_LINES, MAX_HEAD_LEN, MAX_SIZE_LINE_LEN, MAX_TRAILER_LEN,
};

/// Pins the limits to numbers. Definitions and code cite the constants, so a changed constant would change both.
pub fn limits_are_as_stated()
    ensures head { MAX_HEAD_LEN ≡ 65536 }
    ensures field_lines { MAX_FIELD_LINES ≡ 128 }
{}

/// A reading continues with the reading of its rest and the bytes that follow, unless it has ended.
pub fn readings_join()
    ensures { ReadingsJoin }
{}

/// Every stream has a reading, up to double negation, whichever head is owed.
pub fn readings_exist()
    ensures { ReadingsExist }
{}

/// A stream has at most one reading.
pub fn readings_are_unique()
    ensures { ReadingsAreUnique }
{}

/// The reading of a stream that is cut in two is a reading of the first part. If that has not ended, it continues with a
/// reading of its rest and the second part.
pub fn readings_split_at_a_cut()
    ensures { ReadingsSplitAtACut }
{}

/// A head that has no end yet is shorter than the limit. The invariant of an inbox says that the head it holds has no
/// end.
pub fn open_heads_are_short()
    ensures { OpenHeadsAreShort }
{}

/// The body of every message is within the limit, if the head that is owed at the start, if any, gives no greater
/// length.
pub fn bodies_are_within_the_limit()
    ensures { BodiesAreWithinTheLimit }
{}

/// Pins the limits to numbers. Definitions and code cite the constants, so a changed constant would change both.
pub fn limits_of_bodies_are_as_stated()
    ensures body { MAX_BODY_LEN ≡ 1048576 }
    ensures size_line { MAX_SIZE_LINE_LEN ≡ 256 }
    ensures trailer { MAX_TRAILER_LEN ≡ 8192 }
{}

/// Besides the bytes of the body, a reader holds fewer bytes than a trailer section may have, for every input. Its
/// invariant says that its machine is fit.
pub fn open_texts_are_short()
    ensures { OpenTextsAreShort }
{}
