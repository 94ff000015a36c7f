//! The context of a request.

ghost use Rattle.std.specs.Prelude.{◌≡◌, List, IfSome, IsTrue, map};
ghost use Rattle.std.specs.Option.{option_copied, option_map};
ghost use Rattle.sv_mapping.specs.Pattern.{is_at_or_below};
ghost use Rattle.sv_policy.specs.Context.{context_of, policy};
ghost use Rattle.sv_policy.specs.Compiled.{Standing};
ghost use Rattle.sv_realm.specs.declared.account.User.{User};

use crate::policy::Policy;
use sv_mapping::{HasContextPath, context_place};
use sv_realm::Realm;
use sv_text::Text;

/// A context whose decisions can be explained.
pub trait HasPolicy: HasContextPath {
    ghost standing_of: { Self → Standing };

    ghost users_of: { Self → List User };

    /// Returns the policy of the current constraints of the context.
    fn policy(&self) -> &Policy
        ensures { result.now ≡ standing_of self.now };

    /// Returns the users that may be callers.
    fn users(&self) -> &Realm
        ensures { result.now ≡ users_of self.now };
}

/// The parts of a context that explain its decisions.
#[derive(Drop)]
pub struct ContextPolicy {
    /// The context path: empty for the root context, and otherwise a path that begins with `/` and does not end in one.
    pub path: Text,
    /// The policy of the current constraints of the context.
    pub policy: Policy,
    /// The users that may be callers.
    pub realm: Realm,
}

impl HasContextPath for ContextPolicy {
    ghost path_of = { λ context. context.path };

    fn context_path(&self) -> &str {
        self.path.as_str()
    }
}

impl HasPolicy for ContextPolicy {
    ghost standing_of = { λ context. context.policy };

    ghost users_of = { λ context. context.realm };

    fn policy(&self) -> &Policy {
        &self.policy
    }

    fn users(&self) -> &Realm {
        &self.realm
    }
}

/// Returns the context of a path: among those whose context path serves it, the one with the longest, and the first of
/// equal ones.
pub fn context_of<'a, C: HasPolicy>(contexts: &'a [C], path: &str) -> Option<&'a C>
    ensures chosen { option_map (λ context. policy (C.path_of context) (C.standing_of context) (C.users_of context)) (option_copied result)
        ≡ context_of (map (λ context. policy (C.path_of context) (C.standing_of context) (C.users_of context)) contexts.now) path.now }
    ensures above { IfSome result (λ context. IsTrue (is_at_or_below (C.path_of context.now) path.now)) }
{
    match context_place(contexts, path) {
        Some(place) => contexts.get(place),
        None => None,
    }
}
