//! Texts in byte order, and copies of texts.

ghost use Rattle.std.specs.Prelude.{◌≡◌, IfOk, map};
ghost use Rattle.sv_policy.specs.Uncovered.{rising};
ghost use Rattle.sv_text.specs.Gives.{GivesAnswer};

use std::alloc::Global;
use std::collections::BTreeSet;
use sv_text::{Listed, NoMemory, Text};

/// Returns the texts in ascending byte order, without duplicates.
///
/// # Errors
/// `NoMemory` if memory runs out.
pub fn sorted<'a>(alloc: Global, texts: &[&'a str]) -> Result<Vec<&'a str>, NoMemory>
    ensures { IfOk result (λ ordered. map (λ text. text.now) ordered.items ≡ rising (map (λ text. text.now) texts.now)) }
{
    let mut set = BTreeSet::new(alloc);
    for text in texts {
        set.insert(*text)?;
    }
    Ok(set.iter().copied().collect(alloc)?)
}

/// Copies texts, in order.
///
/// # Errors
/// `NoMemory` if memory runs out.
pub fn copied_texts(alloc: Global, texts: &[&str]) -> Result<Listed<Text>, NoMemory>
    ensures { GivesAnswer result (map (λ text. text.now) texts.now) }
{
    let mut copies = Vec::with_capacity(alloc, texts.len())?;
    for text in texts {
        copies.push(Text::copy_of(alloc, *text)?)?;
    }
    Ok(Listed::from_vec(copies))
}
