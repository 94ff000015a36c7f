//! The texts of responses.

use http::{HeaderName, HeaderValue};
use std::alloc::Global;
use sv_message::{Body, Cookie, Pieces, Rare, Response, Segments};
use sv_rows::{Asks, cell, unescaped};
use sv_text::{Bytes, Listed, NoMemory, Text};
use sv_wire::{DateText, Field, send_response, write_response};

/// Answers with the text of a response, which is appended to a word that the output already holds.
pub struct Responses;

impl Asks for Responses {
    const QUESTION: usize = 5;

    fn answer(&self, alloc: Global, row: &str, answer: &mut Vec<u8>) -> Result<(), NoMemory> {
        let response = response_of(alloc, row)?;
        let written = written(alloc, &response, cell(row, 4))?;
        answer.extend_from_slice(written.as_slice().strip_prefix(b"before ").unwrap_or(b"?"))?;
        Ok(())
    }
}

/// Returns a word, followed by the text of the response if its status can be written. What is sent has the same bytes.
fn written(alloc: Global, response: &Response, manner: &str) -> Result<Vec<u8>, NoMemory> {
    let (part, rest) = manner.split_once(' ').unwrap_or((manner, ""));
    let (after, moment) = rest.split_once(' ').unwrap_or((rest, ""));
    let moment = moment.parse::<u64>().unwrap_or(0);
    let room = b"what it held before".to_vec(alloc)?;
    let mut output = b"before ".to_vec(alloc)?;
    if response.has_status_code() {
        let (is_head, keeps) = (part == "head", after == "keep");
        let date = DateText::at(moment);
        write_response(response, is_head, keeps, &date, room, &mut output)?;
        let mut sent = Segments::from_vec(b"before ".to_vec(alloc)?);
        let room = b"what it held before".to_vec(alloc)?;
        send_response(response, is_head, keeps, &date, room, &mut sent)?;
        if sent.copied(alloc)?.as_slice() != output.as_slice() {
            return Ok(b"before what is sent differs".to_vec(alloc)?);
        }
    }
    Ok(output)
}

/// Returns the response of a row.
fn response_of(alloc: Global, row: &str) -> Result<Response, NoMemory> {
    let body = body_of(alloc, cell(row, 3))?;
    let cookie = cookie_of(alloc, cell(row, 2))?;
    let fields = fields_of(alloc, cell(row, 1))?;
    Ok(Response {
        status: cell(row, 0).parse::<u16>().unwrap_or(0),
        fields: Listed::from_vec(fields),
        cookie,
        body,
    })
}

/// Returns the body of a cell. A body in pieces begins with `flushed` or `broken`, the version of the client and a
/// colon, and its pieces are separated by `/`. Any other cell is a whole body.
fn body_of(alloc: Global, cell: &str) -> Result<Body, NoMemory> {
    let (words, pieces) = cell.split_once(": ").unwrap_or(("", cell));
    let (ending, version) = words.split_once(' ').unwrap_or(("", ""));
    if !matches!(ending, "flushed" | "broken") {
        return Ok(Body::Whole(Segments::from_vec(unescaped(alloc, cell)?)));
    }
    Ok(Body::Flushed {
        pieces: pieces_of(alloc, pieces)?,
        chunked: version == "1.1",
        broken: ending == "broken",
    })
}

/// Returns the pieces of a text, separated by `/`. The last one was not flushed.
fn pieces_of(alloc: Global, text: &str) -> Result<Pieces, NoMemory> {
    let mut flushed = Vec::new(alloc);
    let (front, rest) = text.rsplit_once('/').unwrap_or(("", text));
    for piece in front.split('/') {
        flushed.push(Bytes::from_vec(unescaped(alloc, piece)?))?;
    }
    Ok(Pieces::of(flushed, Segments::from_vec(unescaped(alloc, rest)?)))
}

/// Returns the fields of a cell, ignoring lines that are not fields.
fn fields_of(alloc: Global, cell: &str) -> Result<Vec<Field>, NoMemory> {
    let mut fields = Vec::new(alloc);
    for line in cell.split("\\n") {
        if let Some(field) = field_of(alloc, line)? {
            fields.push(field)?;
        }
    }
    Ok(fields)
}

/// Returns the field of a line, if it is one.
fn field_of(alloc: Global, line: &str) -> Result<Option<Field>, NoMemory> {
    let (name, value) = line.split_once(": ").unwrap_or((line, ""));
    let value = unescaped(alloc, value)?;
    let Ok(name) = HeaderName::from_bytes(alloc, name.as_bytes()) else {
        return Ok(None);
    };
    let Ok(value) = HeaderValue::from_bytes(alloc, value.as_slice()) else {
        return Ok(None);
    };
    Ok(Some(Field { name, value }))
}

/// Returns the cookie of a cell, if it has one: `NAME=ID at PATH`, then the maximum age in seconds, and `HttpOnly` if
/// scripts cannot read it.
fn cookie_of(alloc: Global, cell: &str) -> Result<Rare<Cookie>, NoMemory> {
    let Some((name, rest)) = cell.split_once('=') else {
        return Ok(Rare::none());
    };
    let (id, rest) = rest.split_once(" at ").unwrap_or((rest, ""));
    let (path, words) = rest.split_once(' ').unwrap_or((rest, ""));
    let name = Text::copy_of(alloc, name)?;
    let id = Text::copy_of(alloc, id)?;
    let path = Text::copy_of(alloc, path)?;
    let cookie = Cookie {
        name,
        id,
        path,
        http_only: words.ends_with("HttpOnly"),
        max_age: first_word(words).parse::<u32>().ok(),
    };
    Rare::some(alloc, cookie)
}

fn first_word(words: &str) -> &str {
    match words.split_once(' ') {
        Some((first, _)) => first,
        None => words,
    }
}
