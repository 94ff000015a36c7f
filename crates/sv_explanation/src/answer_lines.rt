//! What the server answers, in sentences.

ghost use Rattle.std.specs.Prelude.{◌≡◌, ◌∷◌, [], codes};
ghost use Rattle.sv_report.specs.Parts.{joined};
ghost use Rattle.sv_text.specs.Gives.{GivesAnswer};
ghost use Rattle.sv_explanation.specs.AnswerLines as spec;
ghost use Rattle.sv_explanation.specs.declared.explanation.Answer.TheVariants as answers;

use crate::explanation::{Answer, LoginAnswers};
use crate::page::{ForwardedPage, Page};
use crate::responder::Responder;
use crate::responder_lines::responder_lines;
use crate::statuses::{FORBIDDEN, NOT_FOUND, SERVICE_UNAVAILABLE};
use std::alloc::Global;
use sv_report::escaped::escaped;
use sv_report::{names_text, number_text};
use sv_text::{NoMemory, Text};

/// Returns the sentences on the answer to a request that the constraints decide.
pub fn answer_lines(alloc: Global, answer: &Answer) -> Result<Text, NoMemory>
    ensures { GivesAnswer result (spec.answer_lines answer.now) }
{
    match answer {
        Answer::Enters { filters, responder } => {
            entry_lines(alloc, filters.as_slice(), responder)
        }
        Answer::LoginPage { page, is_saved } => login_lines_of(alloc, page, *is_saved),
        Answer::NoLogin(page) => no_login_lines(alloc, page),
        Answer::Denied(page) => error_line(alloc, FORBIDDEN, page),
    }
}

fn entry_lines(alloc: Global, filters: &[Text], responder: &Responder) -> Result<Text, NoMemory>
    ensures { GivesAnswer result (spec.answer_lines (answers.Enters filters.now responder.now)) }
{
    let filters = filters_line(alloc, filters)?;
    let responder = responder_lines(alloc, responder)?;
    let text = [filters.as_str(), responder.as_str()].concat(alloc)?;
    Ok(Text::from_string(text))
}

/// Returns the sentence on the filters that a request passes first.
fn filters_line(alloc: Global, filters: &[Text]) -> Result<Text, NoMemory>
    ensures { GivesAnswer result (spec.filters_line filters.now) }
{
    if filters.is_empty() {
        return Text::copy_of(alloc, "");
    }
    let names = names_text(alloc, filters)?;
    let text = ["Filters that are called first: ", names.as_str(), ".\n"].concat(alloc)?;
    Ok(Text::from_string(text))
}

fn login_lines_of(alloc: Global, page: &ForwardedPage, is_saved: bool) -> Result<Text, NoMemory>
    ensures { GivesAnswer result (spec.answer_lines (answers.LoginPage page.now is_saved)) }
{
    let page = login_page_lines(alloc, page)?;
    let text = [page.as_str(), saving_line(is_saved)].concat(alloc)?;
    Ok(Text::from_string(text))
}

/// Returns the sentences on the answer to a request that is forwarded to a login page.
fn login_page_lines(alloc: Global, shown: &ForwardedPage) -> Result<Text, NoMemory>
    ensures { GivesAnswer result (spec.login_page_lines shown.now) }
{
    let page = escaped(alloc, shown.page.location.as_str())?;
    if shown.page.is_missing {
        let lead = "The request is forwarded to the login page ";
        return missing_page_lines(alloc, lead, page.as_str(), &shown.not_found);
    }
    let text = [
        "The server answers 200 with the login page ",
        page.as_str(),
        ".\n",
    ]
    .concat(alloc)?;
    Ok(Text::from_string(text))
}

/// Returns a sentence that ends with the name of a page, and those on the answer since the page is missing.
fn missing_page_lines(
    alloc: Global,
    lead: &str,
    page: &str,
    not_found: &Option<Page>,
) -> Result<Text, NoMemory>
    ensures { GivesAnswer result (joined (lead.now ∷ page.now ∷ codes ".\n" ∷ spec.unshown_lines not_found.now ∷ [])) }
{
    let unshown = unshown_lines(alloc, not_found)?;
    let text = [lead, page, ".\n", unshown.as_str()].concat(alloc)?;
    Ok(Text::from_string(text))
}

/// Returns the sentences on the answer to a request that is forwarded to a page that is missing.
fn unshown_lines(alloc: Global, not_found: &Option<Page>) -> Result<Text, NoMemory>
    ensures { GivesAnswer result (spec.unshown_lines not_found.now) }
{
    let answer = answers_with(alloc, NOT_FOUND, not_found)?;
    let text = [MISSING_LINE, "The server then ", answer.as_str()].concat(alloc)?;
    Ok(Text::from_string(text))
}

fn saving_line(is_saved: bool) -> &'static str
    ensures { result.now ≡ spec.saving_line is_saved }
{
    if is_saved {
        "It saves the target for after the login, if a session is available.\n"
    } else {
        "It saves no target, since the method is not GET.\n"
    }
}

fn no_login_lines(alloc: Global, page: &Option<Page>) -> Result<Text, NoMemory>
    ensures { GivesAnswer result (spec.no_login_lines page.now) }
{
    let error = error_line(alloc, FORBIDDEN, page)?;
    let text = ["The context has no login configuration.\n", error.as_str()].concat(alloc)?;
    Ok(Text::from_string(text))
}

/// Returns the sentences on the answers to a login post.
pub fn login_lines(alloc: Global, answers: &LoginAnswers) -> Result<Text, NoMemory>
    ensures { GivesAnswer result (spec.login_lines answers.now) }
{
    let unavailable = answers_with(alloc, SERVICE_UNAVAILABLE, &answers.unavailable_page)?;
    let failure = failure_lines(alloc, &answers.failure_page)?;
    let text = [
        "The request is a login post.\n",
        "If the name and the password fit, the server answers 303 with the saved target or ",
        answers.root.as_str(),
        ".\nIf they fit and no session is available, it ",
        unavailable.as_str(),
        failure.as_str(),
    ]
    .concat(alloc)?;
    Ok(Text::from_string(text))
}

/// Returns the sentences on the answer to a login post whose name and password do not fit.
fn failure_lines(alloc: Global, shown: &ForwardedPage) -> Result<Text, NoMemory>
    ensures { GivesAnswer result (spec.failure_lines shown.now) }
{
    let page = escaped(alloc, shown.page.location.as_str())?;
    if shown.page.is_missing {
        let lead = "If they do not fit, the request is forwarded to the login error page ";
        return missing_page_lines(alloc, lead, page.as_str(), &shown.not_found);
    }
    let lead = "If they do not fit, it answers 200 with the login error page ";
    let text = [lead, page.as_str(), ".\n"].concat(alloc)?;
    Ok(Text::from_string(text))
}

/// Returns the sentences on an error, with its page if there is one.
pub fn error_line(alloc: Global, status: u16, page: &Option<Page>) -> Result<Text, NoMemory>
    ensures { GivesAnswer result (spec.error_line status page.now) }
{
    let answer = answers_with(alloc, status, page)?;
    let text = ["The server ", answer.as_str()].concat(alloc)?;
    Ok(Text::from_string(text))
}

fn answers_with(alloc: Global, status: u16, page: &Option<Page>) -> Result<Text, NoMemory>
    ensures { GivesAnswer result (spec.answers_with status page.now) }
{
    let status = number_text(alloc, u64::from(status))?;
    match page {
        None => answers_alone(alloc, status.as_str()),
        Some(page) => answers_by(alloc, status.as_str(), page),
    }
}

fn answers_alone(alloc: Global, status: &str) -> Result<Text, NoMemory>
    ensures { GivesAnswer result (joined (codes "answers " ∷ status.now ∷ codes ".\n" ∷ [])) }
{
    let text = ["answers ", status, ".\n"].concat(alloc)?;
    Ok(Text::from_string(text))
}

fn answers_by(alloc: Global, status: &str, page: &Page) -> Result<Text, NoMemory>
    ensures { GivesAnswer result (spec.answers_by status.now page.now) }
{
    let location = escaped(alloc, page.location.as_str())?;
    if page.is_missing {
        return answers_without(alloc, status, location.as_str());
    }
    let text = [
        "answers ",
        status,
        " with the error page ",
        location.as_str(),
        ".\n",
    ]
    .concat(alloc)?;
    Ok(Text::from_string(text))
}

fn answers_without(alloc: Global, status: &str, location: &str) -> Result<Text, NoMemory>
    ensures { GivesAnswer result (joined (codes "answers " ∷ status.now ∷ codes " without the error page " ∷ location.now ∷ codes ".\n" ∷ spec.missing_line ∷ [])) }
{
    let text = [
        "answers ",
        status,
        " without the error page ",
        location,
        ".\n",
        MISSING_LINE,
    ]
    .concat(alloc)?;
    Ok(Text::from_string(text))
}

/// Why a page is not shown.
const MISSING_LINE: &str = "There is no such page: neither a servlet nor a file has its path.\n";
