//! The answer to a message, and its journal entry.

ghost use Rattle.std.specs.Option.{option_copied, option_map};
ghost use Rattle.std.specs.Prelude.{None, unwrap_or, ◌≡◌};
ghost use Rattle.sv_admission.specs.Answer.{answer_to, error_with, page_at, root_of};
ghost use Rattle.sv_login.specs.OutcomeEntry.{outcome_entry};
ghost use Rattle.sv_text.specs.Gives.{GivesAnswer};

use std::alloc::Global;
use sv_descriptor::FormLogin;
use sv_journal::{Entry, RefusalCause};
use sv_login::Outcome;
use sv_message::{Apart, Rare};
use sv_text::{NoMemory, Text};
use sv_tree::{NOT_FOUND, SERVICE_UNAVAILABLE, Site};
use sv_uri::fault::CanonFault;
use sv_uri::path::Canon;
use sv_uri::{canon, location};

/// The answer to a message.
#[derive(Drop)]
pub enum Answer {
    /// The filters and the servlet or the file servlet answer it.
    Entered,
    /// The message is forwarded to a page of form login (Jakarta Servlet 6.0, section 13.6.3).
    Page(Apart<Canon>),
    /// An error of this status, with its page if the context has one (section 10.9).
    Error(u16, Rare<Canon>),
    /// A redirect to this location, which the client fetches by GET (RFC 9110, section 15.4.4).
    SeeOther(Text),
}

/// Returns the journal entry of a message with this path and outcome, and its answer.
///
/// # Errors
/// `NoMemory` if an allocation fails.
pub(crate) fn concluded(
    alloc: Global,
    site: &Site,
    path: &str,
    outcome: Outcome,
) -> Result<(Entry, Answer), NoMemory>
    ensures { GivesAnswer result (outcome_entry site.now.context_path path.now outcome, answer_to site.now outcome) }
{
    let login = &site.descriptor().web_app().login;
    match outcome {
        Outcome::Protected => {
            let answer = error_with(alloc, site, NOT_FOUND)?;
            Ok((Entry::Hidden(RefusalCause::Protected), answer))
        }
        Outcome::LoggedIn { target, .. } => {
            let location = target_or_root(alloc, site, target)?;
            let entry = Entry::Refused(RefusalCause::LoggedIn);
            Ok((entry, Answer::SeeOther(location)))
        }
        Outcome::LoginFailed => {
            let page = page_at(alloc, login_error_page(login))?;
            let entry = Entry::Refused(RefusalCause::LoginFailed);
            Ok((entry, Answer::Page(page)))
        }
        Outcome::NoSession => {
            let answer = error_with(alloc, site, SERVICE_UNAVAILABLE)?;
            Ok((Entry::Refused(RefusalCause::NoSession), answer))
        }
        Outcome::Entered => {
            let context = Text::copy_of(alloc, site.context_path())?;
            let path = Text::copy_of(alloc, path)?;
            Ok((Entry::Entered(context, path), Answer::Entered))
        }
        Outcome::SentToLogin(why) => {
            let page = page_at(alloc, login_page(login))?;
            let context = Text::copy_of(alloc, site.context_path())?;
            Ok((Entry::SentToLogin(context, why), Answer::Page(page)))
        }
        Outcome::NoLogin(why) => {
            let answer = error_with(alloc, site, FORBIDDEN)?;
            Ok((Entry::Refused(RefusalCause::NoLogin(why)), answer))
        }
        Outcome::Denied(why) => {
            let answer = error_with(alloc, site, FORBIDDEN)?;
            Ok((Entry::Refused(RefusalCause::Denied(why)), answer))
        }
    }
}

fn error_with(alloc: Global, site: &Site, status: u16) -> Result<Answer, NoMemory>
    ensures { GivesAnswer result (error_with site.now status) }
{
    match site.page(alloc, status, None)? {
        Some(page) => Ok(Answer::Error(status, Rare::some(alloc, page)?)),
        None => Ok(Answer::Error(status, Rare::none())),
    }
}

// Returns the saved target, or the root of the context if none was saved.
fn target_or_root(alloc: Global, site: &Site, target: Option<Text>) -> Result<Text, NoMemory>
    ensures { GivesAnswer result (unwrap_or target (root_of site.now.context_path)) }
{
    match target {
        Some(target) => Ok(target),
        None => root_of(alloc, site.context_path()),
    }
}

fn root_of(alloc: Global, context_path: &str) -> Result<Text, NoMemory>
    ensures { GivesAnswer result (root_of context_path.now) }
{
    let mut root = location(alloc, context_path)?;
    root.push_str("/")?;
    Ok(Text::from_string(root))
}

fn login_page(login: &Option<FormLogin>) -> Option<&str>
    ensures { option_copied result ≡ option_map (λ pages. pages.login_page) login.now }
{
    match login {
        Some(pages) => Some(pages.login_page.text()),
        None => None,
    }
}

fn login_error_page(login: &Option<FormLogin>) -> Option<&str>
    ensures { option_copied result ≡ option_map (λ pages. pages.error_page) login.now }
{
    match login {
        Some(pages) => Some(pages.error_page.text()),
        None => None,
    }
}

// Returns the path and the query of a page of form login, or the root if there is no valid page.
fn page_at(alloc: Global, page: Option<&str>) -> Result<Apart<Canon>, NoMemory>
    ensures { GivesAnswer result (page_at (option_copied page.entry)) }
{
    let page = canon_at(alloc, page)?;
    Apart::new(alloc, page)
}

fn canon_at(alloc: Global, page: Option<&str>) -> Result<Canon, NoMemory>
    ensures { GivesAnswer result (page_at (option_copied page.entry)) }
{
    let Some(page) = page else {
        return root(alloc);
    };
    match canon(alloc, page.as_bytes()) {
        Ok(read) => Ok(read),
        Err(CanonFault::Path(_)) => root(alloc),
        Err(CanonFault::NoMemory) => Err(NoMemory),
    }
}

fn root(alloc: Global) -> Result<Canon, NoMemory>
    ensures { GivesAnswer result (page_at None) }
{
    let path = Text::copy_of(alloc, "/")?;
    Ok(Canon { path, query: None })
}

/// The client is redirected, and fetches the location by GET (RFC 9110, section 15.4.4).
pub const SEE_OTHER: u16 = 303;

/// The message is denied (RFC 9110, section 15.5.4).
pub const FORBIDDEN: u16 = 403;
