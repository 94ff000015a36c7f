//! The choice among the error pages of a descriptor.

ghost use Rattle.std.specs.Prelude.{◌≡◌, IfSome, IsTrue};
ghost use Rattle.std.specs.Option.{option_and_then, option_copied};
ghost use Rattle.sv_descriptor.specs.Location.{is_location};
ghost use Rattle.sv_error_pages.specs.Choice as spec;

use sv_descriptor::{Descriptor, ErrorPage, PageFor};

/// Returns the page for an error, as its path within the context, with or without a query. It has a canonical path. The
/// first page for the fault's kind is chosen, otherwise the first for the status, otherwise the first for all other
/// errors. An error that is no fault has no kind. Kinds are case-sensitive.
pub fn page_for<'a>(descriptor: &'a Descriptor, status: u16, kind: Option<&str>) -> Option<&'a str>
    ensures place { option_copied result ≡ spec.page_for descriptor.now.error_pages status (option_copied kind.entry) }
    ensures canonical { IfSome result (λ page. IsTrue (is_location page.now)) }
{
    let pages = descriptor.web_app().error_pages.as_slice();
    Some(chosen(pages, status, kind)?.location.text())
}

fn chosen<'a>(pages: &'a [ErrorPage], status: u16, kind: Option<&str>) -> Option<&'a ErrorPage>
    ensures { option_copied result ≡ spec.chosen pages.now status (option_copied kind.entry) }
{
    if let Some(page) = page_for_fault(pages, kind) {
        return Some(page);
    }
    match page_for_status(pages, status) {
        Some(page) => Some(page),
        None => page_for_any(pages),
    }
}

fn page_for_fault<'a>(pages: &'a [ErrorPage], kind: Option<&str>) -> Option<&'a ErrorPage>
    ensures { option_copied result ≡ option_and_then (λ name. spec.first_page (spec.is_for_kind name) pages.now) (option_copied kind.entry) }
{
    match kind {
        Some(kind) => page_for_kind(pages, kind),
        None => None,
    }
}

fn page_for_kind<'a>(pages: &'a [ErrorPage], kind: &str) -> Option<&'a ErrorPage>
    ensures { option_copied result ≡ spec.first_page (spec.is_for_kind kind.now) pages.now }
{
    pages.iter().find(|page| is_for_kind(&page.page_for, kind))
}

fn page_for_status(pages: &[ErrorPage], status: u16) -> Option<&ErrorPage>
    ensures { option_copied result ≡ spec.first_page (spec.is_for_status status) pages.now }
{
    pages
        .iter()
        .find(|page| is_for_status(&page.page_for, status))
}

fn page_for_any(pages: &[ErrorPage]) -> Option<&ErrorPage>
    ensures { option_copied result ≡ spec.first_page spec.is_for_any pages.now }
{
    pages.iter().find(|page| is_for_any(&page.page_for))
}

fn is_for_kind(page_for: &PageFor, kind: &str) -> bool
    ensures { result ≡ spec.is_for_kind kind.now page_for.now }
{
    match page_for {
        PageFor::Exception(name) => name.as_str() == kind,
        PageFor::Status(_) | PageFor::Any => false,
    }
}

fn is_for_status(page_for: &PageFor, wanted: u16) -> bool
    ensures { result ≡ spec.is_for_status wanted page_for.now }
{
    match page_for {
        PageFor::Status(status) => *status == wanted,
        PageFor::Exception(_) | PageFor::Any => false,
    }
}

fn is_for_any(page_for: &PageFor) -> bool
    ensures { result ≡ spec.is_for_any page_for.now }
{
    match page_for {
        PageFor::Any => true,
        PageFor::Status(_) | PageFor::Exception(_) => false,
    }
}
