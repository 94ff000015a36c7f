//! Texts of parts.

ghost use Rattle.std.specs.Prelude.{◌≡◌, ◌++◌, OnOk, string_bytes};
ghost use Rattle.std.specs.List.{flat_map};
ghost use Rattle.sv_text.specs.Gives.{GivesAnswer};

use std::alloc::Global;
use sv_text::{NoMemory, Text};

/// Appends texts, one after another.
pub fn push_all(text: &mut String, parts: &[&str]) -> Result<(), NoMemory>
    ensures { OnOk result (string_bytes text.new ≡ string_bytes text.old ++ flat_map (λ part. part.now) parts.now) }
{
    for part in parts {
        text.push_str(*part)?;
    }
    Ok(())
}

/// Joins texts.
pub fn joined(alloc: Global, parts: &[&str]) -> Result<Text, NoMemory>
    ensures { GivesAnswer result (flat_map (λ part. part.now) parts.now) }
{
    let mut text = String::new(alloc);
    push_all(&mut text, parts)?;
    Ok(Text::from_string(text))
}
