//! The caller of a request.

ghost use Rattle.std.specs.Prelude.{◌≡◌, if◌then◌else◌, option_copied};
ghost use Rattle.sv_text.specs.Gives.{GivesAnswer};
ghost use Rattle.sv_explanation.specs.Callers as spec;
ghost use Rattle.sv_explanation.specs.declared.explanation.JudgedCaller.TheVariants as callers;

use crate::explanation::JudgedCaller;
use crate::site_context::{AskedCaller, SiteContext};
use std::alloc::Global;
use sv_realm::Caller;
use sv_text::{NoMemory, Text};

/// Returns the caller of a request in a context. There is none if the context does not have the user that is asked for,
/// or no login configuration.
pub fn caller_of(context: &SiteContext) -> Option<&Caller>
    ensures { option_copied result ≡ spec.caller_of context.now }
{
    match &context.caller {
        AskedCaller::Nobody => None,
        AskedCaller::Known(caller) => if can_log_in(context) {
            Some(caller)
        } else {
            None
        },
        AskedCaller::Unknown(_) => None,
    }
}

/// Returns what an explanation says about the caller.
pub fn judged_caller(alloc: Global, context: &SiteContext) -> Result<JudgedCaller, NoMemory>
    ensures { GivesAnswer result (spec.judged_caller context.now) }
{
    match &context.caller {
        AskedCaller::Nobody => Ok(JudgedCaller::Nobody),
        AskedCaller::Known(caller) => named(alloc, can_log_in(context), caller.name.as_str()),
        AskedCaller::Unknown(name) => {
            Ok(JudgedCaller::NoSuchUser(Text::copy_of(alloc, name.as_str())?))
        }
    }
}

fn named(alloc: Global, can_log_in: bool, name: &str) -> Result<JudgedCaller, NoMemory>
    ensures { GivesAnswer result (if can_log_in then callers.Named name.now else callers.NoLogin name.now) }
{
    let name = Text::copy_of(alloc, name)?;
    if can_log_in {
        return Ok(JudgedCaller::Named(name));
    }
    Ok(JudgedCaller::NoLogin(name))
}

/// Returns whether the context has a login configuration, without which nobody can log in.
fn can_log_in(context: &SiteContext) -> bool
    ensures { result ≡ spec.can_log_in context.now }
{
    context.descriptor.web_app().login.is_some()
}
