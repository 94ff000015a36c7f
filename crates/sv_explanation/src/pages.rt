//! Whether the pages of a context are there.

ghost use Rattle.std.specs.Prelude.{◌≡◌};
ghost use Rattle.sv_files.specs.Answer.{answer_seen};
ghost use Rattle.sv_text.specs.Gives.{GivesAnswer};
ghost use Rattle.sv_uri.specs.Canonical.{canonical};
ghost use Rattle.sv_explanation.specs.Pages as spec;

use crate::context_files::answer_in;
use crate::page::{ForwardedPage, Page};
use crate::servlets::is_unmapped;
use crate::statuses::NOT_FOUND;
use std::alloc::Global;
use sv_descriptor::Descriptor;
use sv_error_pages::page_for;
use sv_files::{FileAnswer, Files};
use sv_mapping::Kind;
use sv_text::{NoMemory, Text};
use sv_uri::canon;
use sv_uri::fault::CanonFault;

/// Returns a page to which the container forwards a request, given the files of the context if they are known.
pub fn forwarded_page(
    alloc: Global,
    descriptor: &Descriptor,
    files: &Option<Files>,
    location: &str,
) -> Result<ForwardedPage, NoMemory>
    ensures { GivesAnswer result (spec.forwarded_page descriptor.now files.now location.now) }
{
    Ok(ForwardedPage {
        page: page_at(alloc, descriptor, files, Kind::Forward, location)?,
        not_found: error_page(alloc, descriptor, files, NOT_FOUND)?,
    })
}

/// Returns the page for an error that the container raises.
pub fn error_page(
    alloc: Global,
    descriptor: &Descriptor,
    files: &Option<Files>,
    status: u16,
) -> Result<Option<Page>, NoMemory>
    ensures { GivesAnswer result (spec.error_page descriptor.now files.now status) }
{
    match page_for(descriptor, status, None) {
        Some(location) => {
            let page = page_at(alloc, descriptor, files, Kind::Error, location)?;
            Ok(Some(page))
        }
        None => Ok(None),
    }
}

fn page_at(
    alloc: Global,
    descriptor: &Descriptor,
    files: &Option<Files>,
    kind: Kind,
    location: &str,
) -> Result<Page, NoMemory>
    ensures { GivesAnswer result (spec.page_at descriptor.now files.now kind location.now) }
{
    Ok(Page {
        is_missing: is_missing(alloc, descriptor, files, kind, location)?,
        location: Text::copy_of(alloc, location)?,
    })
}

/// Returns whether the page at a location is known to be missing.
fn is_missing(
    alloc: Global,
    descriptor: &Descriptor,
    files: &Option<Files>,
    kind: Kind,
    location: &str,
) -> Result<bool, NoMemory>
    ensures { GivesAnswer result (spec.is_missing descriptor.now files.now kind location.now) }
{
    match files {
        None => Ok(false),
        Some(files) => is_vacant_at(alloc, descriptor, files, kind, location),
    }
}

fn is_vacant_at(
    alloc: Global,
    descriptor: &Descriptor,
    files: &Files,
    kind: Kind,
    location: &str,
) -> Result<bool, NoMemory>
    ensures { GivesAnswer result (spec.is_vacant_at descriptor.now kind files.now (canonical location.now)) }
{
    match canon(alloc, location.as_bytes()) {
        Ok(canon) => is_vacant(alloc, descriptor, files, kind, canon.path.as_str()),
        Err(CanonFault::Path(_)) => Ok(false),
        Err(CanonFault::NoMemory) => Err(NoMemory),
    }
}

/// Returns whether neither a servlet nor a file answers a dispatch of this kind to the path.
fn is_vacant(
    alloc: Global,
    descriptor: &Descriptor,
    files: &Files,
    kind: Kind,
    path: &str,
) -> Result<bool, NoMemory>
    ensures { GivesAnswer result (spec.is_vacant descriptor.now kind files.now path.now) }
{
    let mappings = descriptor.web_app().servlet_mappings.as_slice();
    if !is_unmapped(mappings, path) {
        return Ok(false);
    }
    let answer = answer_in(alloc, descriptor, files, path, "GET", kind)?;
    Ok(is_nothing(&answer))
}

fn is_nothing(answer: &FileAnswer<'_>) -> bool
    ensures { result ≡ spec.is_nothing (answer_seen answer.now) }
{
    match answer {
        FileAnswer::File(_) => false,
        FileAnswer::Welcome(_) => false,
        FileAnswer::Slash => false,
        FileAnswer::Missing => true,
        FileAnswer::Method => false,
    }
}
