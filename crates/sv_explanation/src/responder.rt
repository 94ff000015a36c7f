//! What answers a request that enters.

use crate::page::Page;
use sv_text::Text;

/// What answers a request that enters its context, after the filters (Jakarta Servlet 6.0, sections 10.10, 12.1 and
/// 12.2).
#[derive(Drop)]
pub enum Responder {
    /// This servlet. Its status is its own.
    Servlet(MatchedServlet),
    /// Files, which are not known.
    Files,
    /// The file of this path within the context. The status is 200 (RFC 9110, section 15.3.1).
    File(Text),
    /// The path is that of a folder, without a slash at its end. The status is 302 (RFC 9110, section 15.4.3), with this
    /// location.
    Folder(Text),
    /// A welcome file or a servlet in the folder of the path (section 10.10). The status is 302.
    Welcome {
        /// Its path within the context.
        page: Text,
        /// The location of the redirect.
        location: Text,
    },
    /// Neither a servlet nor a file has the path. The status is 404 (RFC 9110, section 15.5.5), with this error page.
    Missing(Option<Page>),
    /// A file, a folder or a welcome file is there, and the method is neither GET nor HEAD. The status is 405 (RFC 9110,
    /// section 15.5.6), with this error page.
    NotAllowed(Option<Page>),
}

/// A servlet that takes a path.
#[derive(Drop)]
pub struct MatchedServlet {
    /// The name of the servlet.
    pub name: Text,
    /// Its pattern that is the best match of the path.
    pub pattern: Text,
}
