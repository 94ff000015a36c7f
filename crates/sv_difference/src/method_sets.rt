//! Methods that are in two sets.

ghost use Rattle.std.specs.Prelude.{◌≡◌, ◌++◌, OnOk, filter, not};
ghost use Rattle.sv_constraints.specs.Covering as covering;
ghost use Rattle.sv_constraints.specs.declared.constraint.Methods.TheVariants as variant;
ghost use Rattle.sv_policy.specs.Uncovered as uncovered;
ghost use Rattle.sv_text.specs.Gives.{GivesAnswer};
ghost use Rattle.sv_difference.specs.Differences as spec;

use std::alloc::Global;
use sv_constraints::{Methods, lists};
use sv_policy::copied_methods;
use sv_text::{Listed, NoMemory, Text, copied_texts};

/// Returns the methods that are in both sets.
pub(crate) fn meet(alloc: Global, methods: &Methods, others: &Methods) -> Result<Methods, NoMemory>
    ensures { GivesAnswer result (spec.meet methods.now others.now) }
{
    match methods {
        Methods::All => copied_methods(alloc, others),
        Methods::Only(names) => meet_only(alloc, names.as_slice(), others),
        Methods::Except(names) => meet_except(alloc, names.as_slice(), others),
    }
}

/// Returns the listed methods that are in the other set.
fn meet_only(alloc: Global, names: &[Text], others: &Methods) -> Result<Methods, NoMemory>
    ensures { GivesAnswer result (spec.meet (variant.Only names.now) others.now) }
{
    match others {
        Methods::All => Ok(Methods::Only(copied_texts(alloc, names)?)),
        Methods::Only(others) => Ok(Methods::Only(listed(alloc, names, others.as_slice())?)),
        Methods::Except(others) => Ok(Methods::Only(unlisted(alloc, names, others.as_slice())?)),
    }
}

/// Returns the methods that are not listed and in the other set.
fn meet_except(alloc: Global, names: &[Text], others: &Methods) -> Result<Methods, NoMemory>
    ensures { GivesAnswer result (spec.meet (variant.Except names.now) others.now) }
{
    match others {
        Methods::All => Ok(Methods::Except(copied_texts(alloc, names)?)),
        Methods::Only(others) => Ok(Methods::Only(unlisted(alloc, others.as_slice(), names)?)),
        Methods::Except(others) => Ok(Methods::Except(all_of(alloc, names, others.as_slice())?)),
    }
}

/// Copies the texts that are among the others.
fn listed(alloc: Global, texts: &[Text], others: &[Text]) -> Result<Listed<Text>, NoMemory>
    ensures { GivesAnswer result (filter (covering.lists others.now) texts.now) }
{
    let mut copies = Vec::new(alloc);
    for text in texts {
        if lists(others, text.as_str()) {
            copies.push(Text::copy_of(alloc, text.as_str())?)?;
        }
    }
    Ok(Listed::from_vec(copies))
}

/// Copies the texts that are not among the others.
fn unlisted(alloc: Global, texts: &[Text], others: &[Text]) -> Result<Listed<Text>, NoMemory>
    ensures { GivesAnswer result (filter (λ text. not (covering.lists others.now text)) texts.now) }
{
    let mut copies = Vec::new(alloc);
    push_unlisted(&mut copies, alloc, texts, others)?;
    Ok(Listed::from_vec(copies))
}

/// Copies the texts, and those of the others that are not among them.
fn all_of(alloc: Global, texts: &[Text], others: &[Text]) -> Result<Listed<Text>, NoMemory>
    ensures { GivesAnswer result (texts.now ++ filter (λ text. not (covering.lists texts.now text)) others.now) }
{
    let mut copies = copied_texts(alloc, texts)?.into_vec();
    push_unlisted(&mut copies, alloc, others, texts)?;
    Ok(Listed::from_vec(copies))
}

/// Appends copies of the texts that are not among the others.
fn push_unlisted(
    copies: &mut Vec<Text>,
    alloc: Global,
    texts: &[Text],
    others: &[Text],
) -> Result<(), NoMemory>
    ensures { OnOk result (copies.new.items ≡ copies.old.items ++ filter (λ text. not (covering.lists others.now text)) texts.now) }
{
    for text in texts {
        if !lists(others, text.as_str()) {
            copies.push(Text::copy_of(alloc, text.as_str())?)?;
        }
    }
    Ok(())
}

/// Returns whether there are any methods in the set.
pub(crate) fn has_methods(methods: &Methods) -> bool
    ensures { result ≡ uncovered.has_methods methods.now }
{
    match methods {
        Methods::All => true,
        Methods::Only(names) => !names.as_slice().is_empty(),
        Methods::Except(_) => true,
    }
}
