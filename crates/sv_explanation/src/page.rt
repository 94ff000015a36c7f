//! The pages of a context.

use sv_text::Text;

/// A page of a context, to which a request is dispatched (Jakarta Servlet 6.0, sections 9.4, 10.9.2 and 13.6.3).
#[derive(Drop)]
pub struct Page {
    /// Its location within the context, with or without a query.
    pub location: Text,
    /// Whether it is known to be missing: the files of the context are known, no servlet's pattern matches its path, and
    /// no file has its path. A missing error page leaves the status as it is, with a plain body (section 10.9.2).
    pub is_missing: bool,
}

/// A page of form login, to which the container forwards a request (section 13.6.3).
#[derive(Drop)]
pub struct ForwardedPage {
    /// The page. The status is 200 if it is there, and 404 if it is missing.
    pub page: Page,
    /// The error page for 404, which is shown if the page is missing.
    pub not_found: Option<Page>,
}
