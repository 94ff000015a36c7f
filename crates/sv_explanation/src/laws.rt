//! The laws of explanations, each the contract of a function that at most cites laws of lower crates.

ghost use Rattle.std.specs.Prelude.{◌≡◌};
ghost use Rattle.sv_explanation.specs.FileLaws.{FilesAnswerAsExplained, PagesAreMissingAsExplained};
ghost use Rattle.sv_explanation.specs.HeadLaws.{LongHeadsAreRefused, OtherHeadsEnd};
ghost use Rattle.sv_explanation.specs.Laws.{CallersCanLogIn, CoveringIsExact, DecidingIsListed, LoginPostsAreExplained, OutcomesAreTheServers, PatternsAreBest};

use crate::statuses::{FORBIDDEN, FOUND, METHOD_NOT_ALLOWED, NOT_FOUND, SERVICE_UNAVAILABLE};

/// The explanation of each message that is no login post names the outcome that the server's definition gives.
pub fn outcomes_are_the_servers()
    ensures { OutcomesAreTheServers }
{}

/// In a context without a login configuration the constraints decide as on a request without a caller.
pub fn callers_can_log_in()
    ensures { CallersCanLogIn }
{}

/// A message is explained as a login post exactly if it is one, its context has form login, and its path is not hidden.
pub fn login_posts_are_explained()
    ensures { LoginPostsAreExplained }
{}

/// The pattern of an explanation is the best match of the path among the patterns of all constraints.
pub fn patterns_are_best()
    ensures { PatternsAreBest }
{}

/// The constraints that are listed as covering are those that cover the method at the best pattern.
pub fn covering_is_exact()
    ensures { CoveringIsExact }
{}

/// The constraint that decides, if any, is one of those that are listed as covering.
pub fn deciding_is_listed()
    ensures { DecidingIsListed }
{}

/// If no servlet takes a path, the explanation is that of the file servlet's answer, whatever the bytes of the files are.
pub fn files_answer_as_explained()
    ensures { FilesAnswerAsExplained }
{}

/// A page is explained as missing exactly if neither a servlet nor a file answers at its path, whatever the bytes of the
/// files are.
pub fn pages_are_missing_as_explained()
    ensures { PagesAreMissingAsExplained }
{}

/// A method and a target are explained as a head that is too large only if the server refuses each of their heads for
/// this fault.
pub fn long_heads_are_refused()
    ensures { LongHeadsAreRefused }
{}

/// If they are explained in any other way, one of their heads ends within its limit.
pub fn other_heads_end()
    ensures { OtherHeadsEnd }
{}

/// The values of this crate's constants, which both the definitions and the code use.
pub fn limits_are_as_stated()
    ensures found { FOUND ≡ 302 }
    ensures forbidden { FORBIDDEN ≡ 403 }
    ensures not_found { NOT_FOUND ≡ 404 }
    ensures not_allowed { METHOD_NOT_ALLOWED ≡ 405 }
    ensures unavailable { SERVICE_UNAVAILABLE ≡ 503 }
{}
