//! The lines of a descriptor on which its elements begin: security constraints and declared roles.
//!
//! The TOML reader gives no places. So a descriptor is cut into parts before each line that begins with
//! `[[security-constraint]]` or `[[security-role]]`, and each part is read as a TOML document of its own. The number of
//! an element follows from the counts of the documents before it. An element that begins a part has the line of the part.

ghost use Rattle.std.specs.Prelude.{◌≡◌, ◌++◌, ◌<◌, ◌≤◌, ◌^◌, ◌∷◌, IfOk, OnOk, drop, length, map, take, option_copied, option_map};
ghost use Rattle.std.specs.List.{concat, count_by, flat_map, position};
ghost use Rattle.sv_text.specs.Gives.{GivesAnswer};
ghost use Rattle.toml.specs.Data.{get_member};
ghost use Rattle.toml.specs.Parse.{parse_document};
ghost use Rattle.toml.specs.View.{table_view, view};
ghost use Rattle.sv_program.specs.FileLine as file_line;
ghost use Rattle.sv_program.specs.Offending.{items};
ghost use Rattle.sv_program.specs.Place.{ends_line};
ghost use Rattle.sv_audited_contexts.specs.DescriptorLines as spec;

use std::alloc::Global;
use sv_text::{Listed, NoMemory};
use toml::{Table, Value};

/// The lines of a file on which elements of a descriptor begin, from 1, as far as they are known.
#[derive(Drop)]
pub struct SourceLines {
    /// That of constraint n, at place n - 1.
    pub constraints: Listed<Option<u64>>,
    /// That of each declared role, in the order of the file.
    pub roles: Listed<Option<u64>>,
}

/// An element of a descriptor that has a line.
#[derive(Clone, Copy)]
pub enum Element {
    /// A security constraint.
    Constraint,
    /// A declared role.
    Role,
}

/// The elements of one kind in a document that is a part of a file.
#[derive(Clone, Copy)]
pub struct Elements {
    /// The line of the first, if the document begins with it.
    pub first: Option<u64>,
    /// Their number.
    pub count: usize,
}

/// A document that is a part of a file.
#[derive(Clone, Copy)]
pub struct Document {
    /// Its security constraints.
    pub constraints: Elements,
    /// Its declared roles.
    pub roles: Elements,
}

impl SourceLines {
    ghost use Rattle.std.specs.Prelude.{◌≡◌};
    ghost use Rattle.sv_audited_contexts.specs.DescriptorLines as spec;

    /// Returns the lines of a file of which none is known.
    pub(crate) fn unknown(alloc: Global) -> SourceLines
        ensures { result ≡ spec.no_lines }
    {
        SourceLines {
            constraints: Listed::from_vec(Vec::new(alloc)),
            roles: Listed::from_vec(Vec::new(alloc)),
        }
    }
}

/// Returns the lines of a descriptor on which its constraints and declared roles begin. The time is proportional to its
/// size.
///
/// An element has a known line if the line begins with `[[security-constraint]]` or `[[security-role]]`, and the text from
/// each such line up to the next is a TOML document of its own, as far as this element. There are no lines of constraints
/// if these documents lack one of the descriptor, and likewise for roles.
///
/// # Errors
/// `NoMemory` if memory runs out.
pub fn source_lines(alloc: Global, text: &str) -> Result<SourceLines, NoMemory>
    ensures { GivesAnswer result (spec.source_lines text.now) }
{
    let text = text.as_bytes();
    let whole = document_of(alloc, text, 1)?;
    let parts = parts_of(alloc, text)?;
    let documents = documents_of(alloc, parts.as_slice())?;
    Ok(SourceLines {
        constraints: element_lines(alloc, documents.as_slice(), whole, Element::Constraint)?,
        roles: element_lines(alloc, documents.as_slice(), whole, Element::Role)?,
    })
}

/// Cuts a text before each line that begins an element.
fn parts_of(alloc: Global, text: &[u8]) -> Result<Vec<&[u8]>, NoMemory>
    ensures { IfOk result (λ parts. map (λ part. part.now) parts.items ≡ spec.parts_of text.now) }
{
    let mut parts = Vec::new(alloc);
    let mut start = 0;
    let mut at = 0;
    while at < text.len() {
        let end = at + first_line_length(&text[at..]);
        if is_header(&text[at..end]) {
            parts.push(&text[start..at])?;
            start = at;
        }
        at = end;
    }
    parts.push(&text[start..])?;
    Ok(parts)
}

/// Returns the length of the first line of a text that is not empty, with its line feed.
fn first_line_length(text: &[u8]) -> usize
    requires { 0 < length text.now }
    ensures more { 0 < result }
    ensures within { result ≤ length text.now }
    ensures first { spec.lines_of text.now ≡ take result text.now ∷ spec.lines_of (drop result text.now) }
{
    match line_end(text) {
        Some(at) => at + 1,
        None => text.len(),
    }
}

/// Returns the place of the first line feed.
fn line_end(text: &[u8]) -> Option<usize>
    ensures { result ≡ position ends_line text.now }
{
    text.iter().position(|byte| ends_line(*byte))
}

fn ends_line(byte: u8) -> bool
    ensures { result ≡ ends_line byte }
{
    byte == b'\n'
}

fn is_header(line: &[u8]) -> bool
    ensures { result ≡ spec.is_header line.now }
{
    begins(Element::Constraint, line) || begins(Element::Role, line)
}

/// Returns whether a text begins with such an element.
fn begins(element: Element, text: &[u8]) -> bool
    ensures { result ≡ spec.begins element text.now }
{
    match element {
        Element::Constraint => text.starts_with(b"[[security-constraint]]"),
        Element::Role => text.starts_with(b"[[security-role]]"),
    }
}

/// Reads the parts of a file as documents, up to the first part that is none.
fn documents_of(alloc: Global, parts: &[&[u8]]) -> Result<Vec<Document>, NoMemory>
    requires { length (concat (map (λ part. part.now) parts.now)) < 2 ^ 63 }
    ensures { IfOk result (λ documents. documents.items ≡ spec.documents_from 1 (map (λ part. part.now) parts.now)) }
{
    let mut documents = Vec::new(alloc);
    let mut line = 1;
    for part in parts {
        let Some(document) = document_of(alloc, *part, line)? else {
            return Ok(documents);
        };
        documents.push(document)?;
        line += line_count(*part);
    }
    Ok(documents)
}

/// Returns the number of line feeds in a text.
fn line_count(text: &[u8]) -> u64
    ensures value { result ≡ count_by ends_line text.now }
    ensures within { result ≤ length text.now }
{
    text.iter().filter(|byte| ends_line(**byte)).count() as u64
}

/// Reads a part of a file that begins on this line, if it is a TOML document.
fn document_of(alloc: Global, text: &[u8], line: u64) -> Result<Option<Document>, NoMemory>
    ensures { GivesAnswer result (spec.document_of line text.now) }
{
    match table_of(alloc, text)? {
        Some(table) => Ok(Some(document_in(&table, text, line))),
        None => Ok(None),
    }
}

fn document_in(table: &Table, text: &[u8], line: u64) -> Document
    ensures { result ≡ spec.document_in line text.now (table_view table.now) }
{
    Document {
        constraints: elements_in(Element::Constraint, table, text, line),
        roles: elements_in(Element::Role, table, text, line),
    }
}

fn elements_in(element: Element, table: &Table, text: &[u8], line: u64) -> Elements
    ensures { result ≡ spec.elements_in element line text.now (table_view table.now) }
{
    Elements {
        first: if begins(element, text) {
            Some(line)
        } else {
            None
        },
        count: count_in(element, table),
    }
}

/// Returns the number of elements in the table of a file.
fn count_in(element: Element, table: &Table) -> usize
    ensures { result ≡ spec.count_in element (table_view table.now) }
{
    match member(table, key(element)) {
        Some(value) => items_of(value).len(),
        None => 0,
    }
}

fn key(element: Element) -> &'static str
    ensures { result.now ≡ spec.key element }
{
    match element {
        Element::Constraint => "security-constraint",
        Element::Role => "security-role",
    }
}

fn member<'a>(table: &'a Table, key: &str) -> Option<&'a Value>
    ensures { option_map (λ value. view value.now) result ≡ get_member key.now (table_view table.now) }
{
    table.get(key)
}

/// Returns the items of a list; any other value has none.
fn items_of(value: &Value) -> &[Value]
    ensures { map view result.now ≡ items (view value.now) }
{
    match value.as_array() {
        Some(items) => items.as_slice(),
        None => &[],
    }
}

/// Returns the table of these bytes, if they are a TOML document.
fn table_of(alloc: Global, bytes: &[u8]) -> Result<Option<Table>, NoMemory>
    ensures { IfOk result (λ table. option_map table_view table ≡ file_line.table_of bytes.now) }
{
    match text_of(bytes) {
        Some(text) => parsed(alloc, text),
        None => Ok(None),
    }
}

fn parsed(alloc: Global, text: &str) -> Result<Option<Table>, NoMemory>
    ensures { IfOk result (λ table. option_map table_view table ≡ parse_document text.now) }
{
    match toml::table_from_str(alloc, text) {
        Ok(table) => Ok(Some(table)),
        Err(error) if error.is_memory() => Err(NoMemory),
        Err(_) => Ok(None),
    }
}

/// Returns the bytes as a text, if they are UTF-8.
pub fn text_of(bytes: &[u8]) -> Option<&str>
    ensures { option_copied result ≡ file_line.text_of bytes.now }
{
    match str::from_utf8(bytes) {
        Ok(text) => Some(text),
        Err(_) => None,
    }
}

/// Returns the lines of the elements of the whole file, if the documents have all of them.
fn element_lines(
    alloc: Global,
    documents: &[Document],
    whole: Option<Document>,
    element: Element,
) -> Result<Listed<Option<u64>>, NoMemory>
    ensures { GivesAnswer result (spec.if_all (option_map (λ document. (spec.elements_of element document).count) whole) (flat_map (spec.lines_in element) documents.now)) }
{
    let Some(whole) = whole else {
        return Ok(Listed::from_vec(Vec::new(alloc)));
    };
    let lines = lines_of(alloc, documents, element)?;
    if lines.len() == elements_of(element, &whole).count {
        Ok(Listed::from_vec(lines))
    } else {
        Ok(Listed::from_vec(Vec::new(alloc)))
    }
}

/// Returns the lines of the elements of documents, in order.
fn lines_of(
    alloc: Global,
    documents: &[Document],
    element: Element,
) -> Result<Vec<Option<u64>>, NoMemory>
    ensures { IfOk result (λ lines. lines.items ≡ flat_map (spec.lines_in element) documents.now) }
{
    let mut lines = Vec::new(alloc);
    for document in documents {
        push_lines(&mut lines, elements_of(element, document))?;
    }
    Ok(lines)
}

fn elements_of(element: Element, document: &Document) -> Elements
    ensures { result ≡ spec.elements_of element document.now }
{
    match element {
        Element::Constraint => document.constraints,
        Element::Role => document.roles,
    }
}

fn push_lines(lines: &mut Vec<Option<u64>>, elements: Elements) -> Result<(), NoMemory>
    ensures { OnOk result (lines.new.items ≡ lines.old.items ++ spec.lines_with elements.first elements.count) }
{
    for number in 0..elements.count {
        lines.push(line_at(elements.first, number))?;
    }
    Ok(())
}

/// Returns the line of the element of this number in a document, from 0.
fn line_at(first: Option<u64>, number: usize) -> Option<u64>
    ensures { result ≡ spec.line_at first number }
{
    if number == 0 { first } else { None }
}

/// Each line that is found is the one on which the constraint or role of its place begins: documents that have together
/// exactly those before it are before the line, and a document that begins with one begins on it.
pub fn a_located_element_begins_there()
    ensures { spec.LinesAreRight }
{}
