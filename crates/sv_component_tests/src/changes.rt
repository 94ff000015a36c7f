//! The effect of calls that change an exchange.

use crate::runs::{Sees, add_seen};
use std::alloc::Global;
use sv_exchange::Exchange;
use sv_message::{Body, Field, Response};
use sv_rows::{Asks, Draft, Strays, cell, hold};
use sv_text::NoMemory;
use sv_wire::{DateText, write_response};

/// The columns: calls; answer to the last one; status, fields and body of the response.
const STATUSES: &str = r#"
-- Jakarta Servlet 6.0, section 5.1: a status is set until the response is committed, and not within an include
status 404                     | done      | 404 | ""                | ""
status 200                     | done      | 200 | ""                | ""
status 599                     | done      | 599 | ""                | ""
status 404; status 403         | done      | 403 | ""                | ""
flush; status 404              | ignored   | 200 | ""                | 0\r\n\r\n
status 403; flush; status 404  | ignored   | 403 | ""                | 0\r\n\r\n
enter INCLUDE; status 404      | ignored   | 200 | ""                | ""
enter INCLUDE; enter FORWARD; status 404 | ignored | 200 | ""        | ""
visit INCLUDE; status 404      | done      | 404 | ""                | ""
enter FORWARD; status 404      | done      | 404 | ""                | ""
enter ERROR; status 404        | done      | 404 | ""                | ""
-- statuses that components may not set
status 0                       | ignored   | 200 | ""                | ""
status 100                     | ignored   | 200 | ""                | ""
status 199                     | ignored   | 200 | ""                | ""
status 205                     | ignored   | 200 | ""                | ""
status 304                     | ignored   | 200 | ""                | ""
status 600                     | ignored   | 200 | ""                | ""
status 65535                   | ignored   | 200 | ""                | ""
status 204                     | done      | 204 | ""                | ""
status 206                     | done      | 206 | ""                | ""
status 303                     | done      | 303 | ""                | ""
status 305                     | done      | 305 | ""                | ""
"#;

/// The same columns for fields.
const FIELDS: &str = r#"
-- Jakarta Servlet 6.0, section 5.2: set replaces the first of its name in place and removes the others, add adds
set X-A=1                      | done      | 200 | x-a: 1            | ""
add x=1; add y=2; add X=3; add x=4; set X=5 | done | 200 | x: 5, y: 2 | ""
add y=2; add x=1; set x=3; add y=4 | done  | 200 | y: 2, x: 3, y: 4  | ""
add x=1; set y=2               | done      | 200 | x: 1, y: 2        | ""
add x=1; add x=1               | done      | 200 | x: 1, x: 1        | ""
set a=                         | done      | 200 | a:\x20            | ""
add a=                         | done      | 200 | a:\x20            | ""
set a=1; set a=                | done      | 200 | a:\x20            | ""
set a=\x20 1\x20               | done      | 200 | a:\x20\x20 1\x20  | ""
set a=é                        | done      | 200 | a: é              | ""
set a=\t                       | done      | 200 | a: \t             | ""
set set-cookie=k=v             | done      | 200 | set-cookie: k=v   | ""
set location=/x                | done      | 200 | location: /x      | ""
set allow=GET                  | done      | 200 | allow: GET        | ""
set retry-after=1              | done      | 200 | retry-after: 1    | ""
flush; set a=1                 | ignored   | 200 | ""                | 0\r\n\r\n
flush; add a=1                 | ignored   | 200 | ""                | 0\r\n\r\n
set a=1; flush; set a=2        | ignored   | 200 | a: 1              | 0\r\n\r\n
enter INCLUDE; set a=1         | ignored   | 200 | ""                | ""
enter INCLUDE; add a=1         | ignored   | 200 | ""                | ""
enter FORWARD; set a=1         | done      | 200 | a: 1              | ""
enter FORWARD; add a=1         | done      | 200 | a: 1              | ""
-- fields that the server alone writes, in any case
set date=1                     | ignored   | 200 | ""                | ""
set Date=1                     | ignored   | 200 | ""                | ""
add DATE=1                     | ignored   | 200 | ""                | ""
set content-length=1           | ignored   | 200 | ""                | ""
add Content-Length=1           | ignored   | 200 | ""                | ""
set CONTENT-LENGTH=1           | ignored   | 200 | ""                | ""
set transfer-encoding=chunked  | ignored   | 200 | ""                | ""
add Transfer-Encoding=chunked  | ignored   | 200 | ""                | ""
set tRANSFER-eNCODING=chunked  | ignored   | 200 | ""                | ""
set connection=close           | ignored   | 200 | ""                | ""
set Connection=close           | ignored   | 200 | ""                | ""
add CONNECTION=close           | ignored   | 200 | ""                | ""
set dates=1                    | done      | 200 | dates: 1          | ""
-- RFC 9110, sections 5.1 and 5.5: names are tokens, values hold no line end; what is ignored is not judged
set a b=1                      | BadHeader | 200 | ""                | ""
add a:=1                       | BadHeader | 200 | ""                | ""
set =1                         | BadHeader | 200 | ""                | ""
set é=1                        | BadHeader | 200 | ""                | ""
set a=1\n2                     | BadHeader | 200 | ""                | ""
set a=1\r                      | BadHeader | 200 | ""                | ""
add a=\x00                     | BadHeader | 200 | ""                | ""
set a=\x7F                     | BadHeader | 200 | ""                | ""
set a=1; set a=1\n2            | BadHeader | 200 | a: 1              | ""
set date=1\n2                  | ignored   | 200 | ""                | ""
flush; set a b=1               | ignored   | 200 | ""                | 0\r\n\r\n
enter INCLUDE; add a=1\n2      | ignored   | 200 | ""                | ""
"#;

/// The same columns for bodies. A body of more than 100 bytes is shown by its length.
const BODIES: &str = r#"
-- a body is written whatever else is under way, and emptied for dispatches; behind a flush it leaves in chunks (RFC 9112, section 7.1)
write x                        | done      | 200 | ""                | x
write x; write                 | done      | 200 | ""                | x
write x; write yz              | done      | 200 | ""                | xyz
flush; write x                 | done      | 200 | ""                | 1\r\nx\r\n0\r\n\r\n
write x; flush; write yz       | done      | 200 | ""                | 1\r\nx\r\n2\r\nyz\r\n0\r\n\r\n
write x; flush; flush; write y; flush | done | 200 | ""              | 1\r\nx\r\n1\r\ny\r\n0\r\n\r\n
write 0123456789ab; flush      | done      | 200 | ""                | c\r\n0123456789ab\r\n0\r\n\r\n
write x; flush; clear; write y | done      | 200 | ""                | 1\r\nx\r\n1\r\ny\r\n0\r\n\r\n
write x; flush; reset; write y | done      | 200 | ""                | 1\r\nx\r\n1\r\ny\r\n0\r\n\r\n
enter INCLUDE; write x         | done      | 200 | ""                | x
visit INCLUDE; write x         | done      | 200 | ""                | x
flush                          | done      | 200 | ""                | 0\r\n\r\n
flush; flush                   | done      | 200 | ""                | 0\r\n\r\n
enter INCLUDE; flush           | done      | 200 | ""                | 0\r\n\r\n
enter INCLUDE; flush; status 404 | ignored | 200 | ""                | 0\r\n\r\n
status 404; set a=1; write x; clear | done | 404 | a: 1              | ""
status 404; set a=1; write x; reset | done | 404 | ""                | ""
status 404; flush; reset; status 403 | ignored | 404 | ""            | 0\r\n\r\n
-- at most 4 MiB, with what was flushed: a write that would pass them writes nothing
fill 4194304                   | done      | 200 | ""                | 4194304 bytes
fill 4194305                   | TooLarge  | 200 | ""                | ""
write ab; fill 4194303         | TooLarge  | 200 | ""                | ab
write ab; fill 4194302         | done      | 200 | ""                | 4194304 bytes
fill 4194304; write y          | TooLarge  | 200 | ""                | 4194304 bytes
fill 4194304; write            | done      | 200 | ""                | 4194304 bytes
flush; enter INCLUDE; fill 4194305 | TooLarge | 200 | ""             | 0\r\n\r\n
write ab; flush; fill 4194303  | TooLarge  | 200 | ""                | 2\r\nab\r\n0\r\n\r\n
write ab; flush; fill 4194302  | done      | 200 | ""                | 4194324 bytes
write ab; clear; fill 4194304  | done      | 200 | ""                | 4194304 bytes
-- bytes that have a further owner are written as others are
lend 4194304                   | done      | 200 | ""                | 4194304 bytes
lend 4194305                   | TooLarge  | 200 | ""                | ""
write ab; lend 4194303         | TooLarge  | 200 | ""                | ab
write ab; lend 3; write c      | done      | 200 | ""                | abxxxc
write ab; lend 20000; write c  | done      | 200 | ""                | 20003 bytes
lend 20000; lend 20000         | done      | 200 | ""                | 40000 bytes
write ab; lend 20000; clear    | done      | 200 | ""                | ""
write ab; lend 20000; flush; write c | done | 200 | ""               | 20021 bytes
"#;

#[test]
fn an_exchange_is_changed_by_its_calls(rt: HostRuntime) -> Result<(), Strays> {
    hold(&rt, &[STATUSES, FIELDS, BODIES], &Changes)
}

/// Answers with the answer to the last call of a row, and the response.
struct Changes;

impl Asks for Changes {
    const QUESTION: usize = 1;

    fn answer(&self, alloc: Global, row: &str, answer: &mut Vec<u8>) -> Result<(), NoMemory> {
        add_seen(alloc, row, cell(row, 0), self, answer)
    }
}

impl Sees for Changes {
    fn add_exchange(
        &self,
        _alloc: Global,
        _row: &str,
        said: &str,
        _exchange: &mut Exchange,
        seen: &mut Draft,
    ) {
        seen.add(said);
        seen.add(" | ");
    }

    fn add_response(&self, alloc: Global, response: &Response, seen: &mut Draft) {
        seen.add_shown(&response.status);
        seen.add(" | ");
        add_fields_and_body(alloc, seen, response);
    }
}

/// Adds the fields and the body of a response.
pub fn add_fields_and_body(alloc: Global, text: &mut Draft, response: &Response) {
    add_fields(text, response.fields.as_slice());
    text.add(" | ");
    match &response.body {
        Body::Whole(body) => match body.copied(alloc) {
            Ok(body) => add_body(text, body.as_slice()),
            Err(_) => text.fail(),
        },
        Body::Flushed { .. } => add_sent(alloc, text, response),
    }
}

/// Adds the bytes that are sent after the head of a response.
fn add_sent(alloc: Global, text: &mut Draft, response: &Response) {
    let room = Vec::new(alloc);
    let mut sent = Vec::new(alloc);
    if !response.has_status_code()
        || write_response(response, false, true, &DateText::at(0), room, &mut sent).is_err()
    {
        text.fail();
        return;
    }
    let sent = std::str::from_utf8(sent.as_slice()).unwrap_or("");
    let (_, body) = sent.split_once("\r\n\r\n").unwrap_or((sent, ""));
    add_body(text, body.as_bytes());
}

/// Adds fields, separated by commas.
fn add_fields(text: &mut Draft, fields: &[Field]) {
    let mut front = "";
    for field in fields {
        text.add(front);
        text.add(field.name.as_str());
        text.add(": ");
        text.add_bytes(field.value.as_bytes());
        front = ", ";
    }
}

/// Adds a body, or its length if it has more than 100 bytes.
fn add_body(text: &mut Draft, body: &[u8]) {
    if body.len() <= 100 {
        text.add_bytes(body);
    } else {
        text.add_shown(&body.len());
        text.add(" bytes");
    }
}
