//! What becomes of a request in its context.

ghost use Rattle.std.specs.Prelude.{◌≡◌, ◌++◌, Some, codes};
ghost use Rattle.sv_constraints.specs.Verdict.{verdict};
ghost use Rattle.sv_explanation.specs.Callers as callers;
ghost use Rattle.sv_explanation.specs.Pages as pages;
ghost use Rattle.sv_explanation.specs.declared.explanation.Answer.TheVariants as answers;
ghost use Rattle.sv_explanation.specs.declared.statuses.TheConstants as declared;
ghost use Rattle.sv_explanation.specs.declared.explanation.Treatment.TheVariants as treatments;
ghost use Rattle.sv_text.specs.Gives.{GivesAnswer};
ghost use Rattle.sv_uri.specs.LocationField as field;
ghost use Rattle.sv_explanation.specs.Treatment as spec;

use crate::callers::{caller_of, judged_caller};
use crate::context_files::known_files;
use crate::entries::enters;
use crate::explanation::{Answer, JudgedRequest, LoginAnswers, Treatment};
use crate::listing::listed_on;
use crate::pages::{error_page, forwarded_page};
use crate::site_context::SiteContext;
use crate::statuses::{FORBIDDEN, NOT_FOUND, SERVICE_UNAVAILABLE};
use std::alloc::Global;
use sv_constraints::{OwnedDecision, decide_plain};
use sv_descriptor::{Descriptor, FormLogin};
use sv_files::Files;
use sv_mapping::is_protected;
use sv_text::{NoMemory, Text};
use sv_uri::location;
use sv_uri::path::Canon;

/// Returns what becomes of a request with this method and this path within the context, with the query of its target.
pub fn treatment(
    alloc: Global,
    context: &SiteContext,
    method: &str,
    canon: &Canon,
) -> Result<Treatment, NoMemory>
    ensures { GivesAnswer result (spec.treatment context.now method.now canon.now) }
{
    let files = known_files(alloc, context)?;
    treatment_with(alloc, context, &files, method, canon)
}

/// Returns what becomes of the request, given the files of the context if they are known.
fn treatment_with(
    alloc: Global,
    context: &SiteContext,
    files: &Option<Files>,
    method: &str,
    canon: &Canon,
) -> Result<Treatment, NoMemory>
    ensures { GivesAnswer result (spec.treatment_with context.now files.now method.now canon.now) }
{
    if is_protected(canon.path.as_str()) {
        let page = error_page(alloc, &context.descriptor, files, NOT_FOUND)?;
        return Ok(Treatment::Hidden(page));
    }
    match &context.descriptor.web_app().login {
        None => judged_alone(alloc, context, files, method, canon),
        Some(pages) => by_login(alloc, context, files, method, canon, pages),
    }
}

fn by_login(
    alloc: Global,
    context: &SiteContext,
    files: &Option<Files>,
    method: &str,
    canon: &Canon,
    pages: &FormLogin,
) -> Result<Treatment, NoMemory>
    ensures { GivesAnswer result (spec.by_login context.now files.now method.now canon.now (Some pages.now)) }
{
    if is_post(method, canon.path.as_str()) {
        let answers = login_answers(alloc, context, files, pages)?;
        return Ok(Treatment::LoginPost(answers));
    }
    judged_alone(alloc, context, files, method, canon)
}

fn judged_alone(
    alloc: Global,
    context: &SiteContext,
    files: &Option<Files>,
    method: &str,
    canon: &Canon,
) -> Result<Treatment, NoMemory>
    ensures { GivesAnswer result (treatments.Judged (spec.judged context.now files.now method.now canon.now)) }
{
    Ok(Treatment::Judged(judged(alloc, context, files, method, canon)?))
}

/// Returns whether this is a login post.
fn is_post(method: &str, path: &str) -> bool
    ensures { result ≡ spec.is_post method.now path.now }
{
    method == "POST" && path.as_bytes().ends_with(b"/j_security_check")
}

/// Returns the answers to a login post.
fn login_answers(
    alloc: Global,
    context: &SiteContext,
    files: &Option<Files>,
    pages: &FormLogin,
) -> Result<LoginAnswers, NoMemory>
    ensures { GivesAnswer result (spec.login_answers context.now files.now pages.now) }
{
    let descriptor = &context.descriptor;
    Ok(LoginAnswers {
        root: root_of(alloc, context.path.as_str())?,
        failure_page: forwarded_page(alloc, descriptor, files, pages.error_page.text())?,
        unavailable_page: error_page(alloc, descriptor, files, SERVICE_UNAVAILABLE)?,
    })
}

/// Returns the location of the root of a context.
fn root_of(alloc: Global, context_path: &str) -> Result<Text, NoMemory>
    ensures { GivesAnswer result (field.location context_path.now ++ codes "/") }
{
    let mut root = location(alloc, context_path)?;
    root.push_str("/")?;
    Ok(Text::from_string(root))
}

/// Returns the decision of the constraints, and what follows from it.
fn judged(
    alloc: Global,
    context: &SiteContext,
    files: &Option<Files>,
    method: &str,
    canon: &Canon,
) -> Result<JudgedRequest, NoMemory>
    ensures { GivesAnswer result (spec.judged context.now files.now method.now canon.now) }
{
    let decision = decided(alloc, context, method, canon.path.as_str())?;
    let answer = answer(alloc, context, files, method, canon, &decision)?;
    let constraints = listed_on(alloc, context, &decision.why().pattern, method)?;
    Ok(JudgedRequest {
        caller: judged_caller(alloc, context)?,
        constraints,
        decision,
        answer,
    })
}

fn decided(
    alloc: Global,
    context: &SiteContext,
    method: &str,
    path: &str,
) -> Result<OwnedDecision, NoMemory>
    ensures { GivesAnswer result (verdict context.now.constraints context.now.descriptor.rules method.now path.now (callers.caller_of context.now)) }
{
    let rules = &context.descriptor.web_app().rules;
    let caller = caller_of(context);
    let decision = decide_plain(context.constraints.as_slice(), rules, method, path, caller);
    OwnedDecision::copy_of(alloc, decision)
}

/// Returns the answer to a request that the constraints decide.
fn answer(
    alloc: Global,
    context: &SiteContext,
    files: &Option<Files>,
    method: &str,
    canon: &Canon,
    decision: &OwnedDecision,
) -> Result<Answer, NoMemory>
    ensures { GivesAnswer result (spec.answer context.now files.now method.now canon.now decision.now) }
{
    match decision {
        OwnedDecision::Open(_) => enters(alloc, context, files, method, canon),
        OwnedDecision::Login(_) => login_answer(alloc, &context.descriptor, files, method),
        OwnedDecision::Denied(_) => denied(alloc, &context.descriptor, files),
    }
}

fn denied(alloc: Global, descriptor: &Descriptor, files: &Option<Files>) -> Result<Answer, NoMemory>
    ensures { GivesAnswer result (answers.Denied (pages.error_page descriptor.now files.now declared.FORBIDDEN)) }
{
    Ok(Answer::Denied(error_page(alloc, descriptor, files, FORBIDDEN)?))
}

/// Returns the answer if a login is needed.
fn login_answer(
    alloc: Global,
    descriptor: &Descriptor,
    files: &Option<Files>,
    method: &str,
) -> Result<Answer, NoMemory>
    ensures { GivesAnswer result (spec.login_answer descriptor.now files.now method.now descriptor.now.login) }
{
    match &descriptor.web_app().login {
        None => Ok(Answer::NoLogin(error_page(alloc, descriptor, files, FORBIDDEN)?)),
        Some(pages) => Ok(Answer::LoginPage {
            page: forwarded_page(alloc, descriptor, files, pages.login_page.text())?,
            is_saved: method == "GET",
        }),
    }
}
