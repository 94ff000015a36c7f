//! The session of an exchange, the error that it keeps, and the parameters of its request.

use crate::exchange_calls::answer_all;
use crate::exchange_requests::{Cookie, Request, STANDARD};
use std::alloc::Global;
use sv_rows::{Asks, Strays, cell, hold};
use sv_text::NoMemory;

/// The columns: session of the request, which is `none`, `held`, or `renewed` if the message opened or renamed it;
/// calls; their answers; cookie of the response, if there is one. A session has the caller ann with the role a, and the
/// attributes n and m.
const SESSIONS: &str = r#"
-- a session that is held, and its caller (Jakarta Servlet 6.0, sections 7.4, 7.5, 12.3 and 13.3)
held    | caller; logout; caller; session         | ann; true; -; 1
held    | get n; remove n; get n; remove n        | 1; true; -; true
held    | end; session; caller; get n; end        | true; -; -; -; NoSession
held    | role a; role b; role **; role *         | yes; no; yes; no
held    | logout; role a; role **; logout         | true; no; no; true
held    | open; session                           | true; 1
none    | get n; set n=1; remove n; logout        | -; NoSession; NoSession; true
-- a session is opened; the cookie is that of the last one that still lives, of the context's path
none    | open; session; caller; set n=2; get n   | true; 2; -; true; 2   | JSESSIONID=000000000000000000000000000000010000000000000002 /app HttpOnly
none    | open; end                               | true; true
-- section 5.1: the cookie is that of the first flush
none    | open; flush; end; open                  | true; true; true; Committed | JSESSIONID=000000000000000000000000000000010000000000000002 /app HttpOnly
none    | open; end; flush; open                  | true; true; true; Committed
renewed | flush; end; session                     | true; true; -         | JSESSIONID=000000000000000000000000000000000000000000000001 /app HttpOnly
renewed | end; flush; session                     | true; true; -
renewed | end; open; session                      | true; true; 2         | JSESSIONID=000000000000000000000000000000010000000000000002 /app HttpOnly
renewed | flush; open                             | true; true            | JSESSIONID=000000000000000000000000000000000000000000000001 /app HttpOnly
-- events, the oldest first; each is told once
held    | set n=2; set k=1; event; event; event   | true; true; AttributeReplaced 1 n; AttributeAdded 1 k; -
held    | remove n; end; event; event; event; event | true; true; AttributeRemoved 1 n; SessionDestroyed 1; AttributeRemoved 1 m; -
held    | set n=2; end; event; event; event; event | true; true; AttributeReplaced 1 n; SessionDestroyed 1; AttributeRemoved 1 n; AttributeRemoved 1 m
none    | open; event; event                      | true; SessionCreated 2; - | JSESSIONID=000000000000000000000000000000010000000000000002 /app HttpOnly
-- limits: two sessions, and names of 64 bytes
none    | open; end; open; session                | true; true; true; 3   | JSESSIONID=000000000000000000000000000000010000000000000003 /app HttpOnly
full    | open                                    | TooManySessions
held    | set xxxxxxxxxxxxxxxxxxxxxxxxxxxxxxxxxxxxxxxxxxxxxxxxxxxxxxxxxxxxxxxxx=1; set xxxxxxxxxxxxxxxxxxxxxxxxxxxxxxxxxxxxxxxxxxxxxxxxxxxxxxxxxxxxxxxx=1 | TooLarge; true
"#;

/// The columns: name and path of the session cookie; whether scripts are kept from reading it; its maximum age in
/// seconds. The columns for sessions follow.
const COOKIES: &str = r#"
-- Jakarta Servlet 6.0, section 7.1.1: each setting, for a session that is opened and for one that was renamed
SID        | -    | yes | -          | none    | open       | true       | SID=000000000000000000000000000000010000000000000002 /app HttpOnly
JSESSIONID | /    | yes | -          | none    | open       | true       | JSESSIONID=000000000000000000000000000000010000000000000002 / HttpOnly
JSESSIONID | -    | no  | -          | none    | open       | true       | JSESSIONID=000000000000000000000000000000010000000000000002 /app
JSESSIONID | -    | yes | 60         | none    | open       | true       | JSESSIONID=000000000000000000000000000000010000000000000002 /app HttpOnly 60
SID        | /x   | no  | 2147483647 | renewed | session    | 1          | SID=000000000000000000000000000000000000000000000001 /x 2147483647
SID        | /a%b | no  | 0          | renewed | end; open  | true; true | SID=000000000000000000000000000000010000000000000002 /a%b 0
-- a session that is held, and one that has ended, set none
SID        | /x   | no  | 60         | held    | session    | 1
SID        | /x   | no  | 60         | none    | open; end  | true; true
"#;

/// The columns for sessions. `keep` keeps an error with its status, its servlet (`-` for none) and its text.
/// `attribute` reads an attribute of the error page.
const ERRORS: &str = r#"
-- Jakarta Servlet 6.0, section 10.9.1; an error that is kept later changes nothing
none | keep 404 who Not Found; error; keep 500 other later; attribute jakarta.servlet.error.status_code  | done; done; done; 404
none | keep 404 who Not Found; error; keep 500 other later; attribute jakarta.servlet.error.message      | done; done; done; Not Found
none | keep 404 who Not Found; error; keep 500 other later; attribute jakarta.servlet.error.servlet_name | done; done; done; who
none | keep 404 who Not Found; error; attribute jakarta.servlet.error.request_uri                        | done; done; /app/a
none | keep 599 -; error; attribute jakarta.servlet.error.servlet_name                                   | done; done; -
none | keep 599 -; error; attribute jakarta.servlet.error.message; kept                                  | done; done; ; 599
none | keep 404 who Not Found; error; attribute jakarta.servlet.error.other                              | done; done; -
none | keep 404 who Not Found; forward; attribute jakarta.servlet.error.status_code                      | done; done; -
-- where no error was kept, and where another was
none | error; attribute jakarta.servlet.error.status_code; attribute jakarta.servlet.error.message       | done; -; -
none | kept; keep 404 - gone; keep 503 who away; kept                                                    | -; done; done; 503
-- calls are counted
none | count; count                                                                                      | 1; 2
"#;

#[test]
fn the_session_and_the_error_match_the_calls(rt: HostRuntime) -> Result<(), Strays> {
    hold(&rt, &[SESSIONS, ERRORS], &Sessions)
}

#[test]
fn a_session_cookie_follows_the_settings_of_its_context(rt: HostRuntime) -> Result<(), Strays> {
    hold(&rt, &[COOKIES], &Cookies)
}

/// Answers with the results of calls on a GET with this session and this cookie.
struct Cookies;

impl Asks for Cookies {
    const QUESTION: usize = 6;

    fn answer(&self, alloc: Global, row: &str, answer: &mut Vec<u8>) -> Result<(), NoMemory> {
        let request = Request {
            method: "GET",
            content_type: "",
            query: "",
            body: "",
            session: cell(row, 4),
            cookie: Cookie {
                name: cell(row, 0),
                path: cell(row, 1),
                http_only: cell(row, 2) == "yes",
                max_age: cell(row, 3),
            },
        };
        answer_all(alloc, request, cell(row, 5), answer)
    }
}

/// Answers with the results of calls on a GET with this session.
struct Sessions;

impl Asks for Sessions {
    const QUESTION: usize = 2;

    fn answer(&self, alloc: Global, row: &str, answer: &mut Vec<u8>) -> Result<(), NoMemory> {
        let request = Request {
            method: "GET",
            content_type: "",
            query: "",
            body: "",
            session: cell(row, 0),
            cookie: STANDARD,
        };
        answer_all(alloc, request, cell(row, 1), answer)
    }
}

/// The columns: method; Content-Type; query of the client; body; calls; their answers.
const PARAMETERS: &str = r#"
-- Jakarta Servlet 6.0, section 3.1: the query comes before the form
POST | application/x-www-form-urlencoded | n=1 | n=2 | parameter n | 1
POST | application/x-www-form-urlencoded | m=1 | n=2 | parameter n | 2
POST | Application/X-WWW-Form-Urlencoded ; charset=utf-8 | "" | n=2&n=3 | parameter n | 2
-- section 3.1.1: the body of a POST whose media type is that of a form
PUT  | application/x-www-form-urlencoded | "" | n=2 | parameter n | -
POST | text/plain                        | "" | n=2 | parameter n | -
POST | ""                                | "" | n=2 | parameter n | -
-- section 9.1.1: a dispatch's query comes before all others while it lasts
GET  | "" | n=1 | "" | forward n=4&m=5; include n=6; parameter n; parameter m | done; done; 6; 5
-- URL Standard, section 5.1: what names and values stand for; a name without a value has the empty one
GET  | "" | a+b=c+d%21%zz | "" | parameter a b | c d!%zz
GET  | "" | %6E=%C3%A9    | "" | parameter n   | é
GET  | "" | n&n=1         | "" | parameter n   | ""
GET  | "" | N=1           | "" | parameter n   | -
-- sections 3.1 and 9.1.1: all of them, in that order, each value with its name
POST | application/x-www-form-urlencoded | a=1&n=2 | n=3&&a | parameters | (a 1)(n 2)(n 3)(a )
PUT  | application/x-www-form-urlencoded | a=1&n=2 | n=3    | parameters | (a 1)(n 2)
GET  | "" | n=1 | "" | forward n=4&m=5; include n=6; parameters | done; done; (n 6)(n 4)(m 5)(n 1)
GET  | "" | %6E=%C3%A9+%zz | "" | parameters | (n é %zz)
"#;

#[test]
fn a_parameter_comes_from_the_innermost_query(rt: HostRuntime) -> Result<(), Strays> {
    hold(&rt, &[PARAMETERS], &Parameters)
}

/// Answers with the results of calls on a request without a session.
struct Parameters;

impl Asks for Parameters {
    const QUESTION: usize = 5;

    fn answer(&self, alloc: Global, row: &str, answer: &mut Vec<u8>) -> Result<(), NoMemory> {
        let request = Request {
            method: cell(row, 0),
            content_type: cell(row, 1),
            query: cell(row, 2),
            body: cell(row, 3),
            session: "none",
            cookie: STANDARD,
        };
        answer_all(alloc, request, cell(row, 4), answer)
    }
}
