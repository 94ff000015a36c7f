//! What answers the paths of a row, in words.

ghost use Rattle.std.specs.Prelude.{◌≡◌, ◌++◌, [], IfOk, codes, map};
ghost use Rattle.std.specs.List.{flat_map};
ghost use Rattle.sv_text.specs.Gives.{GivesAnswer};
ghost use Rattle.sv_report.specs.AnswerWords as spec;

use crate::escaped::escaped;
use crate::parts::{joined, push_all};
use crate::report::{Answers, ReportedRow};
use std::alloc::Global;
use sv_text::{NoMemory, Text};

/// Returns what answers the paths of a row, separated by commas: each servlet, then files. If that is not listed, it is
/// what answers the example and `, ..`, or nothing without an example.
///
/// # Errors
/// `NoMemory` if memory runs out.
pub fn answers_text(alloc: Global, row: &ReportedRow) -> Result<Text, NoMemory>
    ensures { GivesAnswer result (spec.answers_text row.now.example row.now.servlet row.now.answers) }
{
    match &row.answers {
        None => example_answer(alloc, &row.example, &row.servlet),
        Some(answers) => all_answers(alloc, answers),
    }
}

/// Returns what answers an example, if there is one, as one of several answers.
fn example_answer(
    alloc: Global,
    example: &Option<Text>,
    servlet: &Option<Text>,
) -> Result<Text, NoMemory>
    ensures { GivesAnswer result (spec.answers_text example.now servlet.now None) }
{
    match example {
        None => Text::copy_of(alloc, ""),
        Some(_path) => one_of_several(alloc, servlet),
    }
}

fn one_of_several(alloc: Global, servlet: &Option<Text>) -> Result<Text, NoMemory>
    ensures { GivesAnswer result (spec.answers_text (Some []) servlet.now None) }
{
    let servlet = servlet_text(alloc, servlet)?;
    joined(alloc, &[servlet.as_str(), ", .."])
}

fn all_answers(alloc: Global, answers: &Answers) -> Result<Text, NoMemory>
    ensures { GivesAnswer result (spec.listed [] (spec.answer_texts answers.now)) }
{
    let texts = answer_texts(alloc, answers)?;
    listed(alloc, "", texts.as_slice())
}

/// Returns what answers paths of a row other than its example, or all answers if it has no example.
pub fn elsewhere_text(alloc: Global, row: &ReportedRow) -> Result<Text, NoMemory>
    ensures { GivesAnswer result (spec.elsewhere_text row.now.example row.now.servlet row.now.answers) }
{
    let Some(answers) = &row.answers else {
        return Text::copy_of(alloc, "");
    };
    let texts = answer_texts(alloc, answers)?;
    match &row.example {
        None => listed(alloc, "answered by ", texts.as_slice()),
        Some(_path) => other_answers(alloc, texts, &row.servlet),
    }
}

/// Returns the answers among these texts but that of an example.
fn other_answers(
    alloc: Global,
    mut texts: Vec<Text>,
    servlet: &Option<Text>,
) -> Result<Text, NoMemory>
    ensures { GivesAnswer result (spec.listed (codes "elsewhere by ") (spec.other_texts (spec.servlet_text servlet.now) texts.items)) }
{
    let servlet = servlet_text(alloc, servlet)?;
    remove(&mut texts, servlet.as_str());
    listed(alloc, "elsewhere by ", texts.as_slice())
}

fn remove(texts: &mut Vec<Text>, one: &str)
    ensures { texts.new.items ≡ spec.other_texts one.now texts.old.items }
{
    texts.retain(|text| text.as_str() != one);
}

/// Returns the texts of all answers: of each servlet, then of files.
fn answer_texts(alloc: Global, answers: &Answers) -> Result<Vec<Text>, NoMemory>
    ensures { IfOk result (λ texts. texts.items ≡ spec.answer_texts answers.now) }
{
    let mut texts = servlet_texts(alloc, answers.servlets.as_slice())?;
    if answers.has_files {
        texts.push(Text::copy_of(alloc, "files")?)?;
    }
    Ok(texts)
}

fn servlet_texts(alloc: Global, names: &[Text]) -> Result<Vec<Text>, NoMemory>
    ensures { IfOk result (λ texts. texts.items ≡ map (λ name. spec.servlet_text (Some name)) names.now) }
{
    let mut texts = Vec::new(alloc);
    for name in names {
        texts.push(named_servlet(alloc, name.as_str())?)?;
    }
    Ok(texts)
}

/// Returns texts, separated by commas, after these words, or nothing without texts.
fn listed(alloc: Global, words: &str, texts: &[Text]) -> Result<Text, NoMemory>
    ensures { GivesAnswer result (spec.listed words.now texts.now) }
{
    let Some((text, others)) = texts.split_first() else {
        return Text::copy_of(alloc, "");
    };
    let others = after_commas(alloc, others)?;
    joined(alloc, &[words, text.as_str(), others.as_str()])
}

fn after_commas(alloc: Global, texts: &[Text]) -> Result<Text, NoMemory>
    ensures { GivesAnswer result (flat_map (λ other. codes ", " ++ other) texts.now) }
{
    let mut list = String::new(alloc);
    for text in texts {
        push_all(&mut list, &[", ", text.as_str()])?;
    }
    Ok(Text::from_string(list))
}

/// Returns what answers a path: a servlet, or files.
pub fn servlet_text(alloc: Global, servlet: &Option<Text>) -> Result<Text, NoMemory>
    ensures { GivesAnswer result (spec.servlet_text servlet.now) }
{
    match servlet {
        None => Text::copy_of(alloc, "files"),
        Some(name) => named_servlet(alloc, name.as_str()),
    }
}

fn named_servlet(alloc: Global, name: &str) -> Result<Text, NoMemory>
    ensures { GivesAnswer result (spec.servlet_text (Some name.now)) }
{
    let name = escaped(alloc, name)?;
    joined(alloc, &["servlet ", name.as_str()])
}
