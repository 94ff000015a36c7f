//! Locations of redirects within a context.

ghost use Rattle.std.specs.Prelude.{◌≡◌, ◌++◌, IfOk, string_bytes};
ghost use Rattle.sv_text.specs.Gives.{GivesAnswer};
ghost use Rattle.sv_tree.specs.FileServlet as spec;

use std::alloc::Global;
use sv_text::{NoMemory, Text};
use sv_uri::location;
use sv_uri::path::Canon;

/// Returns the value of a Location field (RFC 9110, section 10.2.2) for a path within a context, with the query of the
/// request target.
pub fn sent_to(
    alloc: Global,
    context_path: &str,
    path: &str,
    canon: &Canon,
) -> Result<Text, NoMemory>
    ensures { GivesAnswer result (spec.sent_to context_path.now path.now canon.now.query) }
{
    let mut text = location(alloc, whole_path(alloc, context_path, path)?.as_str())?;
    if let Some(query) = &canon.query {
        text.push_str("?")?;
        text.push_str(query.as_str())?;
    }
    Ok(Text::from_string(text))
}

fn whole_path(alloc: Global, context_path: &str, path: &str) -> Result<String, NoMemory>
    ensures { IfOk result (λ whole. string_bytes whole ≡ context_path.now ++ path.now) }
{
    let mut whole = String::from_str(alloc, context_path)?;
    whole.push_str(path)?;
    Ok(whole)
}
