//! What answers a request that enters, in sentences.

ghost use Rattle.std.specs.Prelude.{◌≡◌, ◌∷◌, [], codes};
ghost use Rattle.sv_report.specs.Parts.{joined};
ghost use Rattle.sv_text.specs.Gives.{GivesAnswer};
ghost use Rattle.sv_explanation.specs.AnswerLines as spec;
ghost use Rattle.sv_explanation.specs.declared.responder.Responder.TheVariants as responders;

use crate::answer_lines::error_line;
use crate::page::Page;
use crate::responder::{MatchedServlet, Responder};
use crate::statuses::{FOUND, METHOD_NOT_ALLOWED, NOT_FOUND};
use std::alloc::Global;
use sv_report::escaped::escaped;
use sv_report::{number_text, shown_pattern};
use sv_text::{NoMemory, Text};

/// Returns the sentences on what answers a request that enters.
pub fn responder_lines(alloc: Global, responder: &Responder) -> Result<Text, NoMemory>
    ensures { GivesAnswer result (spec.responder_lines responder.now) }
{
    match responder {
        Responder::Servlet(servlet) => matched_line(alloc, servlet),
        Responder::Files => Text::copy_of(alloc, "The request enters, and files answer it.\n"),
        Responder::File(path) => file_line(alloc, path.as_str()),
        Responder::Folder(location) => folder_lines(alloc, location.as_str()),
        Responder::Welcome { page, location } => {
            welcome_lines(alloc, page.as_str(), location.as_str())
        }
        Responder::Missing(page) => missing_lines(alloc, page),
        Responder::NotAllowed(page) => not_allowed_lines(alloc, page),
    }
}

fn matched_line(alloc: Global, servlet: &MatchedServlet) -> Result<Text, NoMemory>
    ensures { GivesAnswer result (spec.responder_lines (responders.Servlet servlet.now)) }
{
    let name = escaped(alloc, servlet.name.as_str())?;
    let pattern = shown_pattern(alloc, servlet.pattern.as_str())?;
    servlet_line(alloc, name.as_str(), pattern.as_str())
}

fn servlet_line(alloc: Global, name: &str, pattern: &str) -> Result<Text, NoMemory>
    ensures { GivesAnswer result (spec.servlet_line name.now pattern.now) }
{
    let text = [
        "The request enters the servlet ",
        name,
        ", by its pattern ",
        pattern,
        ".\n",
    ]
    .concat(alloc)?;
    Ok(Text::from_string(text))
}

fn file_line(alloc: Global, path: &str) -> Result<Text, NoMemory>
    ensures { GivesAnswer result (spec.file_line path.now) }
{
    let path = escaped(alloc, path)?;
    let text = [
        "The request enters, and the server answers 200 with the file ",
        path.as_str(),
        ".\n",
    ]
    .concat(alloc)?;
    Ok(Text::from_string(text))
}

fn folder_lines(alloc: Global, location: &str) -> Result<Text, NoMemory>
    ensures { GivesAnswer result (spec.folder_lines location.now) }
{
    let redirect = redirect_line(alloc, location)?;
    let text = [
        "The request enters, and its path is that of a folder.\n",
        redirect.as_str(),
    ]
    .concat(alloc)?;
    Ok(Text::from_string(text))
}

fn welcome_lines(alloc: Global, page: &str, location: &str) -> Result<Text, NoMemory>
    ensures { GivesAnswer result (spec.welcome_lines page.now location.now) }
{
    let page = escaped(alloc, page)?;
    let redirect = redirect_line(alloc, location)?;
    let text = [
        "The request enters, and the welcome file of its folder is ",
        page.as_str(),
        ".\n",
        redirect.as_str(),
    ]
    .concat(alloc)?;
    Ok(Text::from_string(text))
}

/// Returns the sentence on a redirect to a location.
fn redirect_line(alloc: Global, location: &str) -> Result<Text, NoMemory>
    ensures { GivesAnswer result (spec.redirect_line location.now) }
{
    let status = number_text(alloc, u64::from(FOUND))?;
    let location = escaped(alloc, location)?;
    shown_redirect_line(alloc, status.as_str(), location.as_str())
}

fn shown_redirect_line(alloc: Global, status: &str, location: &str) -> Result<Text, NoMemory>
    ensures { GivesAnswer result (joined (codes "The server answers " ∷ status.now ∷ codes " with the location " ∷ location.now ∷ codes ".\n" ∷ [])) }
{
    let text = [
        "The server answers ",
        status,
        " with the location ",
        location,
        ".\n",
    ]
    .concat(alloc)?;
    Ok(Text::from_string(text))
}

fn missing_lines(alloc: Global, page: &Option<Page>) -> Result<Text, NoMemory>
    ensures { GivesAnswer result (spec.responder_lines (responders.Missing page.now)) }
{
    let error = error_line(alloc, NOT_FOUND, page)?;
    let text = [
        "The request enters, and neither a servlet nor a file has its path.\n",
        error.as_str(),
    ]
    .concat(alloc)?;
    Ok(Text::from_string(text))
}

fn not_allowed_lines(alloc: Global, page: &Option<Page>) -> Result<Text, NoMemory>
    ensures { GivesAnswer result (spec.responder_lines (responders.NotAllowed page.now)) }
{
    let error = error_line(alloc, METHOD_NOT_ALLOWED, page)?;
    let text = [
        "The request enters, and files answer only GET and HEAD.\n",
        error.as_str(),
    ]
    .concat(alloc)?;
    Ok(Text::from_string(text))
}
