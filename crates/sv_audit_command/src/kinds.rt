//! Words that list kinds of findings.

ghost use Rattle.std.specs.Prelude.{◌≡◌, ◌↔◌, true};
ghost use Rattle.sv_audit_command.specs.Kinds as spec;

/// Returns whether the word is `any`, or kinds of findings joined by commas.
#[tactic(auto, unfolding(crate::specs::Kinds::AreKinds))]
pub fn are_kinds(word: &str) -> bool
    ensures { result ≡ true ↔ spec.AreKinds word.now }
{
    name_kinds(word)
}

fn name_kinds(word: &str) -> bool
    ensures { result ≡ spec.are_kinds word.now }
{
    word == "any" || are_all_kinds(word.as_bytes())
}

fn are_all_kinds(word: &[u8]) -> bool
    ensures { result ≡ spec.are_all_kinds word.now }
{
    word.split(|byte| *byte == b',').all(is_kind)
}

fn is_kind(part: &[u8]) -> bool
    ensures { result ≡ spec.is_kind part.now }
{
    is_kind_of_access(part) || is_kind_of_pattern(part) || is_kind_of_role(part)
}

/// Returns whether the text names what lets everyone in. In a list of kinds both words mean both.
fn is_opening(part: &[u8]) -> bool
    ensures { result ≡ spec.is_opening part.now }
{
    part == "open".as_bytes() || part == "opened".as_bytes()
}

fn is_kind_of_access(part: &[u8]) -> bool
    ensures { result ≡ spec.is_kind_of_access part.now }
{
    is_opening(part)
        || part == "uncovered".as_bytes()
        || part == "read-otherwise".as_bytes()
        || part == "head-differs".as_bytes()
        || part == "login-needs".as_bytes()
}

fn is_kind_of_pattern(part: &[u8]) -> bool
    ensures { result ≡ spec.is_kind_of_pattern part.now }
{
    part == "dead".as_bytes()
        || part == "dead-pattern".as_bytes()
        || part == "overruled".as_bytes()
        || part == "unreached".as_bytes()
        || part == "unserved".as_bytes()
        || part == "escaped".as_bytes()
}

fn is_kind_of_role(part: &[u8]) -> bool
    ensures { result ≡ spec.is_kind_of_role part.now }
{
    part == "unknown-role".as_bytes()
        || part == "unheld-role".as_bytes()
        || part == "unused-role".as_bytes()
}

/// Returns whether the word is `any`, or lists the kind between commas.
pub(crate) fn lists_kind(word: &str, kind: &str) -> bool
    ensures { result ≡ spec.lists_kind word.now kind.now }
{
    word == "any"
        || has_part(word.as_bytes(), kind.as_bytes())
        || lists_opening(word.as_bytes(), kind.as_bytes())
}

fn has_part(word: &[u8], kind: &[u8]) -> bool
    ensures { result ≡ spec.has_part word.now kind.now }
{
    word.split(|byte| *byte == b',').any(|part| part == kind)
}

/// Returns whether the kind lets everyone in, and the word lists such a kind.
fn lists_opening(word: &[u8], kind: &[u8]) -> bool
    ensures { result ≡ spec.lists_opening word.now kind.now }
{
    is_opening(kind) && word.split(|byte| *byte == b',').any(is_opening)
}
