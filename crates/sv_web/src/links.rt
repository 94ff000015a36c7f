//! Links within a context.

ghost use Rattle.std.specs.Prelude.{◌≡◌, ◌++◌, IfOk, string_bytes};
ghost use Rattle.sv_text.specs.Gives.{GivesAnswer};
ghost use Rattle.sv_web.specs.Linking.{link_to};

use std::alloc::Global;
use sv_component::Exchange;
use sv_text::{NoMemory, Text};
use sv_uri::location;

/// Returns the location of a path in the request's context, for [`redirect`](crate::redirect) and for links in a page
/// (Jakarta Servlet 6.0, section 3.5). It is the context path followed by the path. Every byte that a URI's path cannot
/// contain is escaped (RFC 3986, section 2.1), and so are `?`, `#`, `;` and `%`. A query is appended to the result. In
/// a page, the result must be escaped by [`escape_html`](crate::escape_html), like any text.
///
/// # Errors
/// [`NoMemory`]: out of memory.
pub fn link_to(alloc: Global, exchange: &Exchange, path: &str) -> Result<Text, NoMemory>
    ensures { GivesAnswer result (link_to path.now exchange.now) }
{
    let whole = whole_path(alloc, exchange.context_path(), path)?;
    Ok(Text::from_string(location(alloc, whole.as_str())?))
}

// Returns the context path followed by the path.
fn whole_path(alloc: Global, context_path: &str, path: &str) -> Result<String, NoMemory>
    ensures { IfOk result (λ whole. string_bytes whole ≡ context_path.now ++ path.now) }
{
    let mut whole = String::from_str(alloc, context_path)?;
    whole.push_str(path)?;
    Ok(whole)
}
