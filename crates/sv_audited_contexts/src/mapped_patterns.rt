//! The URL patterns of servlets.

ghost use Rattle.std.specs.Prelude.{◌≡◌, ◌++◌, OnOk};
ghost use Rattle.sv_text.specs.Gives.{GivesAnswer};
ghost use Rattle.sv_audited_contexts.specs.ServletPatterns as spec;

use std::alloc::Global;
use sv_descriptor::ServletMapping;
use sv_mapping::Pattern;
use sv_text::{Listed, NoMemory, Text};

/// Copies the texts of the patterns of servlet mappings, in order.
///
/// # Errors
/// `NoMemory` if memory runs out.
pub fn servlet_patterns(
    alloc: Global,
    mappings: &[ServletMapping],
) -> Result<Listed<Text>, NoMemory>
    ensures { GivesAnswer result (spec.mapped_patterns mappings.now) }
{
    let mut texts = Vec::new(alloc);
    for mapping in mappings {
        push_texts_of(&mut texts, alloc, mapping.url_patterns.as_slice())?;
    }
    Ok(Listed::from_vec(texts))
}

fn push_texts_of(texts: &mut Vec<Text>, alloc: Global, patterns: &[Pattern]) -> Result<(), NoMemory>
    ensures { OnOk result (texts.new.items ≡ texts.old.items ++ patterns.now) }
{
    for pattern in patterns {
        texts.push(Text::copy_of(alloc, pattern.text())?)?;
    }
    Ok(())
}
