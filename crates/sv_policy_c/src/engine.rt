//! The contents of a handle: the policy of one context, and the caller.

ghost use Rattle.std.specs.Prelude.{◌≡◌, IfOk, IfErr, Err, Ok, None, Some};
ghost use Rattle.sv_policy.specs.Fault.{explain_fault};
ghost use Rattle.sv_policy.specs.declared.explain_fault.ExplainFault.TheVariants.{BadMethod};
ghost use Rattle.sv_policy_c.specs.Engine as spec;
ghost use Rattle.sv_descriptor.specs.Fault.{fault};
ghost use Rattle.sv_text.specs.Gives.{Gives, GivesAnswer};

use std::alloc::Global;
use std::str;
use sv_descriptor::{ReadFault, read_descriptor};
use sv_mapping::HasContextPath;
use sv_policy::{ExplainFault, Explanation, HasPolicy, Policy, explain_request};
use sv_realm::{Realm, User};
use sv_text::{Bytes, Listed, NoMemory, Text, copied_texts};

/// The policy of one context, and the caller.
#[derive(Drop)]
pub struct Engine {
    /// The context path: empty for the root context, or a path that begins with `/` and does not end with it.
    pub path: Text,
    /// The policy of the descriptor's constraints.
    pub policy: Policy,
    /// The roles of the caller, or none without a caller.
    pub caller: Option<Listed<Text>>,
}

impl Engine {
    /// Reads the descriptor of the context at this path. The engine has no caller.
    ///
    /// # Errors
    /// The first fault of the descriptor, or [`ReadFault::NoMemory`].
    pub fn read(alloc: Global, path: &str, descriptor: &str) -> Result<Engine, ReadFault>
        ensures { Gives fault result (spec.engine_of path.now descriptor.now) }
    {
        let web_app = read_descriptor(alloc, descriptor)?.into_web_app();
        let policy = Policy::compile(alloc, web_app.constraints.into_vec(), web_app.rules)?;
        Ok(Engine {
            path: Text::copy_of(alloc, path)?,
            policy,
            caller: None,
        })
    }

    /// Returns the decision on a request of the caller with this method and this target.
    ///
    /// # Errors
    /// [`ExplainFault::BadMethod`], or [`ExplainFault::NoMemory`].
    pub fn explain(
        &self,
        alloc: Global,
        method: &str,
        target: &[u8],
    ) -> Result<Explanation, ExplainFault>
        ensures { Gives explain_fault result (spec.explained self.now method.now target.now) }
    {
        let realm = Realm::from_users(alloc, users_of(alloc, &self.caller)?)?;
        let asked = [Asked {
            engine: self,
            realm,
        }];
        let user = match &self.caller {
            Some(_) => Some("caller"),
            None => None,
        };
        explain_request(alloc, &asked, method, target, user)
    }
}

/// Returns the users of the realm: one with the caller's roles, if there is a caller.
fn users_of(alloc: Global, caller: &Option<Listed<Text>>) -> Result<Vec<User>, NoMemory>
    ensures { IfOk result (λ users. users.items ≡ spec.users_of caller.now) }
{
    let mut users = Vec::new(alloc);
    if let Some(roles) = caller {
        users.push(User {
            name: Text::copy_of(alloc, "caller")?,
            salt: Bytes::from_vec(Vec::new(alloc)),
            digest: Bytes::from_vec(Vec::new(alloc)),
            roles: copied_texts(alloc, roles.as_slice())?,
        })?;
    }
    Ok(users)
}

/// The context and its user.
#[derive(Drop)]
struct Asked<'a> {
    engine: &'a Engine,
    realm: Realm,
}

impl<'a> HasContextPath for Asked<'a> {
    ghost path_of = { λ asked. asked.engine.now.path };

    fn context_path(&self) -> &str {
        self.engine.path.as_str()
    }
}

impl<'a> HasPolicy for Asked<'a> {
    ghost standing_of = { λ asked. asked.engine.now.policy };

    ghost users_of = { λ asked. asked.realm };

    fn policy(&self) -> &Policy {
        &self.engine.policy
    }

    fn users(&self) -> &Realm {
        &self.realm
    }
}
