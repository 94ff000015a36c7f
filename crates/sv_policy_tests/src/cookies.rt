//! The session that a request holds, from its Cookie fields.

use crate::stores::sessions_after;
use http_header::{HeaderName, HeaderValue};
use std::alloc::Global;
use sv_login::held;
use sv_message::Field;
use sv_rows::{Asks, Strays, cell, hold, unescaped};
use sv_session::Sessions;
use sv_text::NoMemory;

/// The sessions 1 and 2 are alive; 3 has ended.
const CALLS: &str = "open; open; open; end 3";

/// The columns: name of the cookie; fields of a request, separated by `&`; number of the held session, or `-` for none.
const ROWS: &str = r#"
-- one cookie, or none (RFC 6265, section 4.2.1)
JSESSIONID | Cookie: JSESSIONID=\{47*0}1                                        | 1
JSESSIONID | Host: h                                                            | -
JSESSIONID | Host: JSESSIONID=\{47*0}1                                          | -
JSESSIONID | COOKIE: JSESSIONID=\{47*0}2                                        | 2
-- among others, with blanks around it or none, and tabs
JSESSIONID | Cookie: a=b; JSESSIONID=\{47*0}2; c=d                              | 2
JSESSIONID | Cookie: a=b;JSESSIONID=\{47*0}2;c=d                                | 2
JSESSIONID | Cookie: a=b;\t \tJSESSIONID=\{47*0}2\t ;;c=d;                      | 2
JSESSIONID | Cookie: ;;JSESSIONID=\{47*0}1                                      | 1
-- a comma parts no cookies
JSESSIONID | Cookie: a=b, JSESSIONID=\{47*0}1                                   | -
JSESSIONID | Cookie: JSESSIONID=\{47*0}1, a=b                                   | -
-- without `=` it is no cookie; an empty name and an empty value are none of ours
JSESSIONID | Cookie: JSESSIONID                                                 | -
JSESSIONID | Cookie: JSESSIONID; JSESSIONID=\{47*0}1                            | 1
JSESSIONID | Cookie: =\{47*0}1                                                  | -
JSESSIONID | Cookie: JSESSIONID=                                                | -
JSESSIONID | Cookie: \{47*0}1                                                   | -
-- it is cut at the first `=`, and neither part is trimmed again
JSESSIONID | Cookie: JSESSIONID=\{47*0}1=                                       | -
JSESSIONID | Cookie: JSESSIONID==\{47*0}1                                       | -
JSESSIONID | Cookie: JSESSIONID= \{47*0}1                                       | -
JSESSIONID | Cookie: JSESSIONID =\{47*0}1                                       | -
-- quotes belong to the value
JSESSIONID | Cookie: JSESSIONID="\{47*0}1"                                      | -
-- names are compared with case, and whole
JSESSIONID | Cookie: jsessionid=\{47*0}1                                        | -
JSESSIONID | Cookie: XJSESSIONID=\{47*0}1; JSESSIONIDX=\{47*0}1                 | -
SID        | Cookie: JSESSIONID=\{47*0}1; SID=\{47*0}2                          | 2
"#;

/// The same columns.
const DOUBLES: &str = r#"
-- of several the first that is the id of a session that lives
JSESSIONID | Cookie: JSESSIONID=\{47*0}1; JSESSIONID=\{47*0}2                   | 1
JSESSIONID | Cookie: JSESSIONID=\{47*0}2; JSESSIONID=\{47*0}1                   | 2
JSESSIONID | Cookie: JSESSIONID=x; JSESSIONID=\{47*0}2                          | 2
JSESSIONID | Cookie: JSESSIONID=; JSESSIONID=\{47*0}2                           | 2
JSESSIONID | Cookie: JSESSIONID=\xff\xfe; JSESSIONID=\{47*0}1                   | 1
-- of several fields likewise, in their order
JSESSIONID | Cookie: JSESSIONID=\{47*0}2 & Cookie: JSESSIONID=\{47*0}1          | 2
JSESSIONID | Cookie: JSESSIONID=x & Cookie: a=b; JSESSIONID=\{47*0}1            | 1
JSESSIONID | Cookie: a=b & X: JSESSIONID=\{47*0}1 & Cookie: JSESSIONID=\{47*0}2 | 2
-- a session that has ended, one of another context, and a part of an id
JSESSIONID | Cookie: JSESSIONID=\{47*0}3                                        | -
JSESSIONID | Cookie: JSESSIONID=\{47*0}3; JSESSIONID=\{47*0}2                   | 2
JSESSIONID | Cookie: JSESSIONID=\{31*0}7\{15*0}1                                | -
JSESSIONID | Cookie: JSESSIONID=\{46*0}1                                        | -
JSESSIONID | Cookie: JSESSIONID=\{47*0}1\{47*0}1                                | -
"#;

#[test]
fn the_first_cookie_of_the_name_that_is_an_id_names_the_session(
    rt: HostRuntime,
) -> Result<(), Strays> {
    let sessions = sessions_after(rt.alloc(), 10, CALLS)?;
    hold(&rt, &[ROWS, DOUBLES], &Held(sessions))
}

/// Answers with the session that the fields of a row hold.
#[derive(Drop)]
struct Held(Sessions);

impl Asks for Held {
    const QUESTION: usize = 2;

    fn answer(&self, alloc: Global, row: &str, told: &mut Vec<u8>) -> Result<(), NoMemory> {
        let mut fields = Vec::new(alloc);
        for line in cell(row, 1).split('&') {
            fields.push(field(alloc, line.trim())?)?;
        }
        let text = match held(fields.as_slice(), cell(row, 0), &self.0) {
            Some(number) => format!(in alloc; "{number}")?,
            None => String::from_str(alloc, "-")?,
        };
        told.extend_from_slice(text.as_bytes())?;
        Ok(())
    }
}

fn field(alloc: Global, line: &str) -> Result<Field, NoMemory> {
    let (name, value) = line.split_once(": ").unwrap_or((line, ""));
    let value = unescaped(alloc, value)?;
    let Ok(name) = HeaderName::from_bytes(alloc, name.as_bytes()) else {
        return Err(NoMemory);
    };
    let Ok(value) = HeaderValue::from_bytes(alloc, value.as_slice()) else {
        return Err(NoMemory);
    };
    Ok(Field { name, value })
}
