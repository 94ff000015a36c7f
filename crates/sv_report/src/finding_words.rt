//! Findings in words: the kind of each, what it is, and what to write.

ghost use Rattle.std.specs.Prelude.{◌≡◌};
ghost use Rattle.sv_text.specs.Gives.{GivesAnswer};
ghost use Rattle.sv_report.specs.FindingWords as spec;

use crate::escaped::escaped;
use crate::parts::joined;
use crate::places::number_text;
use crate::words::{methods_text, shown_pattern, who_text};
use std::alloc::Global;
use sv_audit::Access;
use sv_constraints::Methods;
use sv_findings::{Finding, Unsearched};
use sv_text::{NoMemory, Text};

/// Returns the name of the kind of a finding, by which options and files of accepted findings name it.
pub fn kind_name(finding: &Finding) -> &'static str
    ensures { result.now ≡ spec.kind_name finding.now }
{
    match finding {
        Finding::Opened(_, _, _, _) => "open",
        Finding::Uncovered(_, _) => "uncovered",
        Finding::ReadOtherwise(_, _, _) => "read-otherwise",
        Finding::HeadDiffers(_, _, _) => "head-differs",
        Finding::Dead(_) => "dead",
        Finding::DeadPattern(_, _) => "dead-pattern",
        Finding::Overruled(_) => "overruled",
        Finding::Unreached(_, _) => "unreached",
        Finding::Unserved(_, _) => "unserved",
        Finding::Escaped(_, _) => "escaped",
        Finding::LoginNeeds(_) => "login-needs",
        Finding::UnknownRole(_, _) => "unknown-role",
        Finding::UnheldRole(_) => "unheld-role",
        Finding::UnusedRole(_) => "unused-role",
    }
}

/// Returns what a finding is. A login is possible only with a login configuration.
pub fn problem_text(alloc: Global, has_login: bool, finding: &Finding) -> Result<Text, NoMemory>
    ensures { GivesAnswer result (spec.problem_text has_login finding.now) }
{
    match finding {
        Finding::Opened(pattern, methods, opening, guarded) => {
            opened_text(alloc, pattern.as_str(), methods, *opening, *guarded)
        }
        Finding::Uncovered(pattern, methods) => { uncovered_text(alloc, pattern.as_str(), methods) }
        Finding::ReadOtherwise(pattern, methods, other) => {
            read_text(alloc, pattern.as_str(), methods, other.as_str())
        }
        Finding::HeadDiffers(pattern, get, head) => {
            head_text(alloc, has_login, pattern.as_str(), get, head)
        }
        Finding::Dead(number) => dead_text(alloc, *number),
        Finding::DeadPattern(number, pattern) => {
            pattern_of(alloc, *number, " covers no request at ", pattern.as_str())
        }
        Finding::Overruled(number) => overruled_text(alloc, *number),
        Finding::Unreached(number, pattern) => {
            pattern_of(alloc, *number, " covers no request at ", pattern.as_str())
        }
        Finding::Unserved(_, pattern) => unserved_text(alloc, pattern.as_str()),
        Finding::Escaped(number, pattern) => {
            pattern_of(alloc, *number, " has a percent sign in ", pattern.as_str())
        }
        Finding::LoginNeeds(path) => login_text(alloc, path.as_str()),
        Finding::UnknownRole(number, role) => unknown_role_text(alloc, *number, role.as_str()),
        Finding::UnheldRole(role) => role_text(alloc, "no user has the role ", role.as_str()),
        Finding::UnusedRole(role) => {
            role_text(alloc, "no constraint names the role ", role.as_str())
        }
    }
}

fn opened_text(
    alloc: Global,
    pattern: &str,
    methods: &Methods,
    opening: u64,
    guarded: u64,
) -> Result<Text, NoMemory>
    ensures { GivesAnswer result (spec.opened_text pattern.now methods.now opening guarded) }
{
    let opening = number_text(alloc, opening)?;
    let guarded = number_text(alloc, guarded)?;
    let pattern = shown_pattern(alloc, pattern)?;
    let methods = methods_text(alloc, methods)?;
    joined(
        alloc,
        &[
            "constraint ",
            opening.as_str(),
            " opens to everyone what constraint ",
            guarded.as_str(),
            " restricts at ",
            pattern.as_str(),
            ": ",
            methods.as_str(),
        ],
    )
}

fn uncovered_text(alloc: Global, pattern: &str, methods: &Methods) -> Result<Text, NoMemory>
    ensures { GivesAnswer result (spec.uncovered_text pattern.now methods.now) }
{
    let pattern = shown_pattern(alloc, pattern)?;
    let methods = methods_text(alloc, methods)?;
    joined(
        alloc,
        &["uncovered at ", pattern.as_str(), ": ", methods.as_str()],
    )
}

fn read_text(alloc: Global, pattern: &str, methods: &Methods, other: &str) -> Result<Text, NoMemory>
    ensures { GivesAnswer result (spec.read_text pattern.now methods.now other.now) }
{
    let pattern = shown_pattern(alloc, pattern)?;
    let methods = methods_text(alloc, methods)?;
    let other = shown_pattern(alloc, other)?;
    joined(
        alloc,
        &[
            "Tomcat decides by ",
            other.as_str(),
            " what is uncovered at ",
            pattern.as_str(),
            ": ",
            methods.as_str(),
        ],
    )
}

fn head_text(
    alloc: Global,
    has_login: bool,
    pattern: &str,
    get: &Access,
    head: &Access,
) -> Result<Text, NoMemory>
    ensures { GivesAnswer result (spec.head_text has_login pattern.now get.now head.now) }
{
    let pattern = shown_pattern(alloc, pattern)?;
    let get = who_text(alloc, has_login, get)?;
    let head = who_text(alloc, has_login, head)?;
    joined(
        alloc,
        &[
            "GET and HEAD differ at ",
            pattern.as_str(),
            ": GET ",
            get.as_str(),
            "; HEAD ",
            head.as_str(),
        ],
    )
}

fn dead_text(alloc: Global, number: u64) -> Result<Text, NoMemory>
    ensures { GivesAnswer result (spec.dead_text number) }
{
    let number = number_text(alloc, number)?;
    joined(
        alloc,
        &["constraint ", number.as_str(), " covers no request"],
    )
}

fn overruled_text(alloc: Global, number: u64) -> Result<Text, NoMemory>
    ensures { GivesAnswer result (spec.overruled_text number) }
{
    let number = number_text(alloc, number)?;
    joined(
        alloc,
        &[
            "constraint ",
            number.as_str(),
            " changes nothing: the others at its patterns decide each request alike",
        ],
    )
}

/// Returns a constraint, words, and one of its patterns.
#[tactic(auto, unfolding(crate::specs::FindingWords::pattern_of))]
fn pattern_of(alloc: Global, number: u64, words: &str, pattern: &str) -> Result<Text, NoMemory>
    ensures { GivesAnswer result (spec.pattern_of number words.now pattern.now) }
{
    let number = number_text(alloc, number)?;
    let pattern = shown_pattern(alloc, pattern)?;
    joined(
        alloc,
        &["constraint ", number.as_str(), words, pattern.as_str()],
    )
}

fn unserved_text(alloc: Global, pattern: &str) -> Result<Text, NoMemory>
    ensures { GivesAnswer result (spec.unserved_text pattern.now) }
{
    let pattern = shown_pattern(alloc, pattern)?;
    joined(alloc, &["nothing answers at ", pattern.as_str()])
}

fn login_text(alloc: Global, path: &str) -> Result<Text, NoMemory>
    ensures { GivesAnswer result (spec.login_text path.now) }
{
    let path = escaped(alloc, path)?;
    joined(
        alloc,
        &[
            "the login page needs ",
            path.as_str(),
            ", which not everyone may GET",
        ],
    )
}

fn unknown_role_text(alloc: Global, number: u64, role: &str) -> Result<Text, NoMemory>
    ensures { GivesAnswer result (spec.unknown_role_text number role.now) }
{
    let number = number_text(alloc, number)?;
    let role = escaped(alloc, role)?;
    joined(
        alloc,
        &[
            "constraint ",
            number.as_str(),
            " names the undeclared role ",
            role.as_str(),
        ],
    )
}

fn role_text(alloc: Global, words: &str, role: &str) -> Result<Text, NoMemory>
    ensures { GivesAnswer result (spec.role_text words.now role.now) }
{
    let role = escaped(alloc, role)?;
    joined(alloc, &[words, role.as_str()])
}

/// Returns what to write in the descriptor.
pub fn remedy(finding: &Finding) -> &'static str
    ensures { result.now ≡ spec.remedy finding.now }
{
    match finding {
        Finding::Opened(_, _, _, _) => {
            "Name roles in both, or take the pattern out of one of them."
        }
        Finding::Uncovered(_, _) => "Cover all methods there, or set deny-uncovered-http-methods.",
        Finding::ReadOtherwise(_, _, _) => {
            "Cover all methods at the prefix, so that both decide alike."
        }
        Finding::HeadDiffers(_, _, _) => "Name both GET and HEAD, or neither, in each collection.",
        Finding::Dead(_) => {
            "No path matches its patterns, or others are chosen before them. Change them, or remove it."
        }
        Finding::DeadPattern(_, _) => {
            "No path matches it, or another pattern is chosen before it. Change it, or remove it."
        }
        Finding::Overruled(_) => {
            "Remove it alone and audit again, or say what it should restrict."
        }
        Finding::Unreached(_, _) => {
            "Its paths are hidden, or belong to another context. Remove the pattern."
        }
        Finding::Unserved(_, _) => {
            "No servlet or file has such a path. Remove or correct the pattern, or add the file."
        }
        Finding::Escaped(_, _) => {
            "Patterns are compared with decoded paths. Write the character itself."
        }
        Finding::LoginNeeds(_) =>
            "Let everyone GET it, or begin the reference with / and name a file that everyone may GET.",
        Finding::UnknownRole(_, _) => "Declare it in a security-role, or correct the name.",
        Finding::UnheldRole(_) => "Give it to a user, or correct the name in the constraints.",
        Finding::UnusedRole(_) => "Name it in a constraint, or remove its security-role.",
    }
}

/// Returns which findings are not looked for in a context that is too large, and why.
pub fn unsearched_text(kind: &Unsearched) -> &'static str
    ensures { result.now ≡ spec.unsearched_text kind.now }
{
    match kind {
        Unsearched::Overruled => {
            "overruled constraints, since a pattern has more than 16 constraints or 16 named methods"
        }
        Unsearched::Unserved => "unserved patterns, since there are more than 2000 patterns",
    }
}

/// Returns the name of the kind of findings that are not looked for. It is that of [`kind_name`].
pub fn unsearched_name(kind: &Unsearched) -> &'static str
    ensures { result.now ≡ spec.unsearched_name kind.now }
{
    match kind {
        Unsearched::Overruled => "overruled",
        Unsearched::Unserved => "unserved",
    }
}

/// Returns the word that begins the lines of a finding.
pub fn heading(is_accepted: bool) -> &'static str
    ensures { result.now ≡ spec.heading is_accepted }
{
    if is_accepted { "accepted" } else { "finding" }
}
