//! Context paths.

ghost use Rattle.std.specs.Prelude.{◌≡◌};
ghost use Rattle.sv_text.specs.Gives.{GivesAnswer};
ghost use Rattle.sv_descriptor.specs.ContextPath as spec;

use crate::fault::{FaultCode, LocatedReadFault, refuse};
use crate::text::TextSchema;
use std::alloc::Global;
use sv_text::{NoMemory, Text};
use sv_uri::canon;
use sv_uri::fault::CanonFault;

/// A context path: empty, or a canonical path that does not end in `/`.
#[derive(Clone, Copy)]
pub struct ContextPath;

impl TextSchema for ContextPath {
    type Output = Text;

    ghost reads = { λ _. spec.context_path };

    fn read(&self, alloc: Global, key: &str, text: &str) -> Result<Text, LocatedReadFault> {
        if !is_context_path(alloc, text)? {
            return refuse(alloc, FaultCode::BadValue, key);
        }
        Ok(Text::copy_of(alloc, text)?)
    }
}

fn is_context_path(alloc: Global, text: &str) -> Result<bool, NoMemory>
    ensures { GivesAnswer result (spec.is_context_path text.now) }
{
    if text.is_empty() {
        return Ok(true);
    }
    Ok(is_canonical(alloc, text)? && !text.ends_with('/'))
}

#[tactic(auto, unfolding(crate::specs::ContextPath::is_canonical))]
fn is_canonical(alloc: Global, text: &str) -> Result<bool, NoMemory>
    ensures { GivesAnswer result (spec.is_canonical text.now) }
{
    match canon(alloc, text.as_bytes()) {
        Ok(canon) => Ok(canon.path.as_str() == text && canon.query.is_none()),
        Err(CanonFault::Path(_)) => Ok(false),
        Err(CanonFault::NoMemory) => Err(NoMemory),
    }
}
