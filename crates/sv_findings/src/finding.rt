//! What constraints leave open by mistake, or state without effect.

use sv_audit::Access;
use sv_constraints::Methods;
use sv_text::Text;

/// A part of security constraints that probably says something else than was meant. The variants are in the order in
/// which findings are listed.
#[derive(Drop)]
pub enum Finding {
    /// A pattern, the methods that everyone may use there although a constraint with an authorization constraint covers
    /// them, too, and the numbers of a constraint without and of one with an authorization constraint that both cover one
    /// of the methods (Jakarta Servlet 6.0, section 13.8.1). The names of the methods are in ascending byte order.
    Opened(Text, Methods, u64, u64),
    /// The methods that everyone may use at a pattern, since constraints cover only other methods there (section
    /// 13.8.4).
    Uncovered(Text, Methods),
    /// A prefix pattern, the methods that everyone may use there since no constraint covers them, and an extension
    /// pattern or `/` at which one of them is not open to everyone. A server that takes a pattern only if its constraints
    /// cover the method decides otherwise.
    ReadOtherwise(Text, Methods, Text),
    /// A pattern at which some visitor fares differently with GET and with HEAD, with the access of GET and that of HEAD.
    /// Without a login configuration nobody can log in (section 13.6).
    HeadDiffers(Text, Access, Access),
    /// The number of a constraint that covers no request: another pattern is chosen before each of its patterns (section
    /// 12.1), as `/*` before `/` and the exact pattern `/v/` before `/v//*`, or no canonical path matches it (section
    /// 3.5.2).
    Dead(u64),
    /// The number of a constraint, and one of its patterns that decides no request. Others of its patterns may.
    DeadPattern(u64, Text),
    /// The number of a constraint without which each request is decided alike, also over a secure connection: at each of
    /// its patterns, constraints with other numbers decide alike (section 13.8.1).
    Overruled(u64),
    /// The number of a constraint, and one of its patterns whose paths are all hidden (section 10.5), or all belong to
    /// another context (section 12.1). No request reaches it.
    Unreached(u64, Text),
    /// The number of a constraint, and one of its patterns at which no servlet and no file answers.
    Unserved(u64, Text),
    /// The number of a constraint, and one of its patterns that has a percent sign. Patterns are compared with decoded
    /// paths, so it matches only targets that are escaped twice.
    Escaped(u64, Text),
    /// A path within the context that the login page refers to, and that a request without a caller may not get. The page
    /// is the answer to requests that need a login (section 13.6.3), so its references also count in their folders.
    LoginNeeds(Text),
    /// The number of a constraint, and a role that it names and the descriptor does not declare.
    UnknownRole(u64, Text),
    /// A role that constraints name and no user has.
    UnheldRole(Text),
    /// A role that the descriptor declares and no constraint names.
    UnusedRole(Text),
}
