//! What answers a request that enters.

ghost use Rattle.std.specs.Prelude.{◌≡◌, ◌++◌, [], codes, map, slice_index_or};
ghost use Rattle.sv_files.specs.Answer.{answer_seen};
ghost use Rattle.sv_text.specs.Gives.{GivesAnswer};
ghost use Rattle.sv_explanation.specs.Entries as spec;
ghost use Rattle.sv_explanation.specs.declared.responder.Responder.TheVariants as responders;

use crate::context_files::answer_in;
use crate::explanation::Answer;
use crate::pages::error_page;
use crate::responder::{MatchedServlet, Responder};
use crate::servlets::servlet_at;
use crate::site_context::SiteContext;
use crate::statuses::{METHOD_NOT_ALLOWED, NOT_FOUND};
use std::alloc::Global;
use sv_chain::chain_plain;
use sv_descriptor::{Descriptor, FilterEntry};
use sv_files::{FileAnswer, Files};
use sv_mapping::Kind;
use sv_text::{Listed, NoMemory, Text};
use sv_uri::location;
use sv_uri::path::Canon;

/// Returns the answer to a request that enters, given the files of the context if they are known.
pub fn enters(
    alloc: Global,
    context: &SiteContext,
    files: &Option<Files>,
    method: &str,
    canon: &Canon,
) -> Result<Answer, NoMemory>
    ensures { GivesAnswer result (spec.enters context.now files.now method.now canon.now) }
{
    let mappings = context.descriptor.web_app().servlet_mappings.as_slice();
    let servlet = servlet_at(alloc, mappings, canon.path.as_str())?;
    enters_with(alloc, context, files, method, canon, servlet)
}

/// Returns the answer to a request that enters, given the servlet that takes its path.
fn enters_with(
    alloc: Global,
    context: &SiteContext,
    files: &Option<Files>,
    method: &str,
    canon: &Canon,
    servlet: Option<MatchedServlet>,
) -> Result<Answer, NoMemory>
    ensures { GivesAnswer result (spec.enters_with context.now files.now method.now canon.now servlet) }
{
    let path = canon.path.as_str();
    let filters = filters_before(alloc, &context.descriptor, path, name_of(&servlet))?;
    let responder = responder_with(alloc, context, files, method, canon, servlet)?;
    Ok(Answer::Enters { filters, responder })
}

/// Returns the name that filter mappings know a servlet by.
fn name_of(servlet: &Option<MatchedServlet>) -> &str
    ensures { result.now ≡ spec.name_of servlet.now }
{
    match servlet {
        None => "default",
        Some(servlet) => servlet.name.as_str(),
    }
}

/// Returns the names of the filters that a request passes before a servlet, in order.
fn filters_before(
    alloc: Global,
    descriptor: &Descriptor,
    path: &str,
    servlet: &str,
) -> Result<Listed<Text>, NoMemory>
    ensures { GivesAnswer result (spec.filters_before descriptor.now path.now servlet.now) }
{
    let places = chain_plain(alloc, descriptor, path, servlet, Kind::Request)?;
    let filters = descriptor.web_app().filters.as_slice();
    names_at(alloc, filters, places.as_slice())
}

/// Returns the names of the filters at these places.
fn names_at(
    alloc: Global,
    filters: &[FilterEntry],
    places: &[usize],
) -> Result<Listed<Text>, NoMemory>
    ensures { GivesAnswer result (map (λ place. slice_index_or (map (λ filter. filter.filter_name) filters.now) place []) places.now) }
{
    let mut names = Vec::with_capacity(alloc, places.len())?;
    for place in places {
        names.push(Text::copy_of(alloc, name_at(filters, *place))?)?;
    }
    Ok(Listed::from_vec(names))
}

fn name_at(filters: &[FilterEntry], place: usize) -> &str
    ensures { result.now ≡ slice_index_or (map (λ filter. filter.filter_name) filters.now) place [] }
{
    match filters.get(place) {
        Some(filter) => filter.filter_name.as_str(),
        None => "",
    }
}

fn responder_with(
    alloc: Global,
    context: &SiteContext,
    files: &Option<Files>,
    method: &str,
    canon: &Canon,
    servlet: Option<MatchedServlet>,
) -> Result<Responder, NoMemory>
    ensures { GivesAnswer result (spec.responder_with context.now files.now method.now canon.now servlet) }
{
    match servlet {
        None => file_responder(alloc, context, files, method, canon),
        Some(servlet) => Ok(Responder::Servlet(servlet)),
    }
}

/// Returns what answers where no servlet takes the path.
fn file_responder(
    alloc: Global,
    context: &SiteContext,
    files: &Option<Files>,
    method: &str,
    canon: &Canon,
) -> Result<Responder, NoMemory>
    ensures { GivesAnswer result (spec.file_responder context.now files.now method.now canon.now) }
{
    match files {
        None => Ok(Responder::Files),
        Some(known) => {
            let path = canon.path.as_str();
            let answer = answer_in(
                alloc,
                &context.descriptor,
                known,
                path,
                method,
                Kind::Request,
            )?;
            responder_by(alloc, context, files, canon, &answer)
        }
    }
}

/// Returns what answers by the answer of the file servlet.
fn responder_by(
    alloc: Global,
    context: &SiteContext,
    files: &Option<Files>,
    canon: &Canon,
    answer: &FileAnswer<'_>,
) -> Result<Responder, NoMemory>
    ensures { GivesAnswer result (spec.responder_by context.now files.now canon.now (answer_seen answer.now)) }
{
    let descriptor = &context.descriptor;
    match answer {
        FileAnswer::File(_) => Ok(Responder::File(Text::copy_of(alloc, canon.path.as_str())?)),
        FileAnswer::Welcome(page) => welcome(alloc, context, page.as_str(), canon),
        FileAnswer::Slash => folder(alloc, context, canon),
        FileAnswer::Missing => {
            Ok(Responder::Missing(error_page(alloc, descriptor, files, NOT_FOUND)?))
        }
        FileAnswer::Method => {
            let page = error_page(alloc, descriptor, files, METHOD_NOT_ALLOWED)?;
            Ok(Responder::NotAllowed(page))
        }
    }
}

fn welcome(
    alloc: Global,
    context: &SiteContext,
    page: &str,
    canon: &Canon,
) -> Result<Responder, NoMemory>
    ensures { GivesAnswer result (responders.Welcome page.now (spec.redirect context.now.path page.now canon.now.query)) }
{
    Ok(Responder::Welcome {
        page: Text::copy_of(alloc, page)?,
        location: redirect(alloc, context.path.as_str(), page, &canon.query)?,
    })
}

fn folder(alloc: Global, context: &SiteContext, canon: &Canon) -> Result<Responder, NoMemory>
    ensures { GivesAnswer result (responders.Folder (spec.redirect context.now.path (canon.now.path ++ codes "/") canon.now.query)) }
{
    let path = [canon.path.as_str(), "/"].concat(alloc)?;
    let location = redirect(alloc, context.path.as_str(), path.as_str(), &canon.query)?;
    Ok(Responder::Folder(location))
}

/// Returns the location of a redirect to a path within a context, with the query of the request.
fn redirect(
    alloc: Global,
    context_path: &str,
    path: &str,
    query: &Option<Text>,
) -> Result<Text, NoMemory>
    ensures { GivesAnswer result (spec.redirect context_path.now path.now query.now) }
{
    let whole = [context_path, path].concat(alloc)?;
    let mut text = location(alloc, whole.as_str())?;
    if let Some(query) = query {
        text.push_str("?")?;
        text.push_str(query.as_str())?;
    }
    Ok(Text::from_string(text))
}
