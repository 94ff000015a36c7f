//! The laws of this crate, each the contract of a function with an empty body.

ghost use Rattle.std.specs.Prelude.{◌≡◌};
ghost use Rattle.sv_listening.specs.SocketLaws.{PartsAreWhatIsRead};

use crate::limits::{
    MAX_ANSWER_BYTES, MAX_SELF_TEST_ACCEPTS, REPLY_SECONDS, SELF_TEST_SECONDS, SERVE_IDLE_SECONDS,
    STOP_SECONDS,
};
use sv_streams::Stream;

/// The limits of this crate as numbers.
pub fn limits_are_as_stated()
    ensures idle { SERVE_IDLE_SECONDS ≡ 5 }
    ensures test { SELF_TEST_SECONDS ≡ 5 }
    ensures reply { REPLY_SECONDS ≡ 10 }
    ensures stop { STOP_SECONDS ≡ 20 }
    ensures accepts { MAX_SELF_TEST_ACCEPTS ≡ 1000 }
    ensures answer { MAX_ANSWER_BYTES ≡ 8388608 }
{}

/// A stream that is read in parts neither loses nor changes bytes. The bytes that it returns and then keeps are those
/// that it kept before and that the stream below gave. Its writes are those of the stream below. In each part, only
/// line ends follow an empty line.
pub fn parts_are_what_is_read<S: Stream>()
    ensures { PartsAreWhatIsRead S.makes }
{}
