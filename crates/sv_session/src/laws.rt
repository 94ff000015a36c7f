//! Theorems about the sessions of a context, each the contract of a function with an empty body.

ghost use Rattle.std.specs.Prelude.{◌≡◌};
ghost use Rattle.sv_session.specs.Laws.{
  CallersAreEntered,
  CallsLeaveNoneExpired,
  CallsLeaveOrder,
  EachIdHasTheNextSerial,
  EmptyIsOrderly,
  ExpiryEndsNoneAgain,
  ExpiryEndsTheExpired,
  ExpiryEndsWhereNoneHasExpired,
  ExpiryJudgesAtMostOneMore,
  HoldersAreFound,
  IdNamesItsSession,
  IdsOfSerialsDiffer,
  MovesGiveNoCaller,
  MovesJoin,
  MovesLeaveNoneExpired,
  MovesLeaveOrder,
  NoIdIsGivenTwice,
  NoneFollowsTheGreatest,
  OpenedHasNotExpired,
  TouchedHasNotExpired,
};

use crate::limits::{GREATEST_SERIAL, MAX_ATTRIBUTE_NAME_BYTES, MAX_ATTRIBUTES, MAX_VALUE_BYTES};

/// The limits as numbers. Definitions and code both use the constants, so this contract is what fixes their values.
pub fn limits_are_as_stated()
    ensures attributes { MAX_ATTRIBUTES ≡ 64 }
    ensures name { MAX_ATTRIBUTE_NAME_BYTES ≡ 64 }
    ensures value { MAX_VALUE_BYTES ≡ 4096 }
    ensures serial { GREATEST_SERIAL ≡ 18446744073709551615 }
{}

/// No two ids that a context gives are the same, for any calls and any random words.
pub fn no_id_is_given_twice()
    ensures { NoIdIsGivenTwice }
{}

/// From any store, each id that calls give is made with the next serial. So the ids differ, also from those that earlier
/// calls gave, if the serials go on.
pub fn each_id_has_the_next_serial()
    ensures next { EachIdHasTheNextSerial }
    ensures differ { IdsOfSerialsDiffer }
{}

/// Each live session is found by its own id, after any calls.
pub fn an_id_names_its_session()
    ensures { IdNamesItsSession }
{}

/// After the greatest serial, no session is opened or renamed.
pub fn no_serial_follows_the_greatest()
    ensures { NoneFollowsTheGreatest }
{}

/// The sessions are in the order of their numbers, and no number is above the serial. This holds initially and after
/// each call.
pub fn sessions_stay_in_order()
    ensures empty { EmptyIsOrderly }
    ensures call { CallsLeaveOrder }
{}

/// A session that is opened or accessed at a time has not expired at that time.
pub fn an_accessed_session_has_not_expired()
    ensures opened { OpenedHasNotExpired }
    ensures touched { TouchedHasNotExpired }
{}

/// If no session has expired at a time, none has expired after a call at that time.
pub fn no_call_leaves_an_expired_session()
    ensures { CallsLeaveNoneExpired }
{}

/// `expire` ends no session exactly if none has expired. Called until it ends none, it ends exactly the expired
/// sessions, by deadline and then by number. Called again at the same time, it ends none.
pub fn expiry_ends_exactly_the_expired_sessions()
    ensures none { ExpiryEndsWhereNoneHasExpired }
    ensures all { ExpiryEndsTheExpired }
    ensures again { ExpiryEndsNoneAgain }
{}

/// An expiry judges one record if there is a session, and none otherwise. A count at the maximum stays there.
pub fn expiry_judges_at_most_one_more()
    ensures { ExpiryJudgesAtMostOneMore }
{}

/// A session gets a caller only by the call that enters one. In an orderly store, the session that holds a caller is
/// the one found by its number, so [`Sessions::caller`](crate::Sessions::caller) returns this caller.
pub fn callers_are_entered()
    ensures entered { CallersAreEntered }
    ensures found { HoldersAreFound }
{}

/// Whatever components do to the sessions at a time, the order is kept. No session has expired if none had before, and
/// each session's caller is one that it had before. Successive changes are also one change.
pub fn components_keep_the_sessions()
    ensures joins { MovesJoin }
    ensures order { MovesLeaveOrder }
    ensures unexpired { MovesLeaveNoneExpired }
    ensures callers { MovesGiveNoCaller }
{}
