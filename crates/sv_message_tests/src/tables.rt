//! The answers to calls, with enough memory.

use crate::calls::{Call, answer_all, answer_cookie, answer_link};
use crate::steps::answer_step;
use std::alloc::Global;
use sv_rows::{Asks, Draft, Strays, cell, hold, unescaped_text};
use sv_web::{NoMemory, escape_html};

/// The columns: text; page that shows it.
const TEXTS: &str = r#"
-- HTML Standard, sections 13.1.2.3, 13.1.4 and 13.5: what begins a tag, a reference, or ends a value in quotes, as a reference to that character
a < b > c && d        | a &lt; b &gt; c &amp;&amp; d
say "it's"            | say &quot;it&#39;s&quot;
&lt;                  | &amp;lt;
<b onclick='x("1")'>  | &lt;b onclick=&#39;x(&quot;1&quot;)&#39;&gt;
é € 😀 \\n\t;`=/       | é € 😀 \\n\t;`=/
""                    | ""
"#;

/// The columns: state before the call; name; value; path; age; other attributes; answer; status with the fields; body.
const COOKIES: &str = r#"
-- RFC 6265, section 4.1.1: a name and a value, and each attribute
open    | SID | 31d4d96e | -    | -  | ""                         | true  | 200 set-cookie: SID=31d4d96e | ""
open    | SID | 31d4d96e | /    | 60 | HttpOnly Secure Lax        | true  | 200 set-cookie: SID=31d4d96e; Path=/; Max-Age=60; HttpOnly; Secure; SameSite=Lax | ""
open    | n   | ""       | /a b | 0  | Strict                     | true  | 200 set-cookie: n=; Path=/a b; Max-Age=0; SameSite=Strict | ""
open    | n   | v        | -    | 4294967295 | Secure Everywhere  | true  | 200 set-cookie: n=v; Max-Age=4294967295; Secure; SameSite=None | ""
-- the first and the last byte of each range of a cookie-octet, and all marks of a token
open    | !#$%&'*+-.^_`~ | !#+-:<[]~ | -    | -  | ""             | true  | 200 set-cookie: !#$%&'*+-.^_`~=!#+-:<[]~ | ""
-- no value: a line feed, `;`, a quote, `,`, a blank, a backslash, what is not ASCII
open    | n   | a\nb:c   | -    | -  | ""                         | BadCookie | 200 | ""
open    | n   | a;Path=/ | -    | -  | ""                         | BadCookie | 200 | ""
open    | n   | a"b      | -    | -  | ""                         | BadCookie | 200 | ""
open    | n   | a,b      | -    | -  | ""                         | BadCookie | 200 | ""
open    | n   | a b      | -    | -  | ""                         | BadCookie | 200 | ""
open    | n   | a\\b     | -    | -  | ""                         | BadCookie | 200 | ""
open    | n   | a\x7fb   | -    | -  | ""                         | BadCookie | 200 | ""
open    | n   | é        | -    | -  | ""                         | BadCookie | 200 | ""
-- no name: the empty one, and what is no token (RFC 9110, section 5.6.2)
open    | ""  | v        | -    | -  | ""                         | BadCookie | 200 | ""
open    | a=b | v        | -    | -  | ""                         | BadCookie | 200 | ""
open    | a\rb | v       | -    | -  | ""                         | BadCookie | 200 | ""
-- no path: `;`, a control, and what begins otherwise, which clients pass over (RFC 6265, section 5.2.4)
open    | n   | v        | /;Secure | -  | ""                     | BadCookie | 200 | ""
open    | n   | v        | /a\nb | -  | ""                        | BadCookie | 200 | ""
open    | n   | v        | a    | -  | ""                         | BadCookie | 200 | ""
-- Jakarta Servlet 6.0, sections 5.2 and 9.3: what is ignored
flushed | n   | v        | -    | -  | ""                         | false | 200 | ""
include | n   | v        | -    | -  | ""                         | false | 200 | ""
"#;

/// The columns: state before the call; method; methods that the servlet answers; requested verb, or `-` if it is not
/// answered; status with the fields; body.
const METHODS: &str = r#"
-- Jakarta Servlet 6.0, section 2.1.1; RFC 9110, section 9.3.2: HEAD is as GET
open    | GET     | GET              | Get    | 200 | ""
open    | HEAD    | GET POST         | Get    | 200 | ""
open    | POST    | GET POST         | Post   | 200 | ""
open    | PUT     | PUT PATCH DELETE | Put    | 200 | ""
open    | PATCH   | PUT PATCH DELETE | Patch  | 200 | ""
open    | DELETE  | PUT PATCH DELETE | Delete | 200 | ""
-- RFC 9110, sections 9.3.7, 10.2.1 and 15.5.6
open    | OPTIONS | GET POST         | -      | 204 allow: GET, HEAD, POST, OPTIONS | ""
open    | DELETE  | GET              | -      | 405 allow: GET, HEAD, OPTIONS | ""
open    | HEAD    | PUT PATCH DELETE | -      | 405 allow: PUT, PATCH, DELETE, OPTIONS | ""
open    | GET     | ""               | -      | 405 allow: OPTIONS | ""
-- RFC 9110, section 9.1: a method is told with its case
open    | get     | GET              | -      | 405 allow: GET, HEAD, OPTIONS | ""
include | DELETE  | GET              | -      | 200 | ""
"#;

/// The columns: state before the call; media type (`text` and `html` have their own calls); content; answer; status
/// with the fields; body.
const SENDS: &str = r#"
-- RFC 9110, section 8.3; RFC 2046, section 4.1.2: the charset of a text
open    | application/json | {}      | sent      | 200 content-type: application/json | {}
open    | text             | é & b   | sent      | 200 content-type: text/plain; charset=utf-8 | é & b
open    | html             | <p>é    | sent      | 200 content-type: text/html; charset=utf-8 | <p>é
open    | text             | ""      | sent      | 200 content-type: text/plain; charset=utf-8 | ""
-- RFC 9110, section 5.5: no value of a field; then nothing is written
open    | a\r\nb: c        | {}      | BadHeader | 200 | ""
-- Jakarta Servlet 6.0, section 9.3: an include writes, and sets no field
include | html             | <p>     | sent      | 200 | <p>
"#;

/// The columns: state before the call; status, or `-` for 302 with a location that may be on another site; location;
/// answer; status with the fields; body.
const REDIRECTS: &str = r#"
-- RFC 9110, sections 10.2.2 and 15.4; RFC 3986, section 4.2: a path with one slash in front
open    | 301 | /              | true  | 301 location: / | ""
open    | 302 | /app/a?b=c#d   | true  | 302 location: /app/a?b=c#d | ""
open    | 303 | /%C3%A9/;a='(!*)' | true  | 303 location: /%C3%A9/;a='(!*)' | ""
open    | 307 | /a?to=//b      | true  | 307 location: /a?to=//b | ""
open    | 308 | /a@b:c[d]~     | true  | 308 location: /a@b:c[d]~ | ""
-- another site, or what a browser takes for one
open    | 302 | //evil         | BadLocation | 200 | ""
open    | 302 | /\\evil        | BadLocation | 200 | ""
open    | 302 | http://evil    | BadLocation | 200 | ""
open    | 302 | javascript:x   | BadLocation | 200 | ""
open    | 302 | a              | BadLocation | 200 | ""
open    | 302 | ""             | BadLocation | 200 | ""
-- RFC 3986, section 2: what no URI has
open    | 302 | /a b           | BadLocation | 200 | ""
open    | 302 | /a\r\nb:c      | BadLocation | 200 | ""
open    | 302 | /a\x00b        | BadLocation | 200 | ""
open    | 302 | /é             | BadLocation | 200 | ""
open    | 302 | /"<>^`{}       | BadLocation | 200 | ""
-- a place that may be of another site (RFC 9110, sections 4.2.1 and 4.2.2)
open    | -   | http://h/a     | true  | 302 location: http://h/a | ""
open    | -   | https://h:8443 | true  | 302 location: https://h:8443 | ""
open    | -   | /a             | true  | 302 location: /a | ""
open    | -   | //h            | BadLocation | 200 | ""
open    | -   | ftp://h        | BadLocation | 200 | ""
open    | -   | http://h/a b   | BadLocation | 200 | ""
-- Jakarta Servlet 6.0, sections 5.3 and 9.3: what is ignored
flushed | 302 | /a             | false | 200 | ""
include | -   | http://h/a     | false | 200 | ""
"#;

/// The columns: path in the context `/app`; its location.
const LINKS: &str = r#"
-- Jakarta Servlet 6.0, section 3.5; RFC 3986, sections 2.1, 3.3 and 3.4: what a path has not, and what would end or part it
/form           | /app/form
/               | /app/
""              | /app
/a b/é          | /app/a%20b/%C3%A9
/a?b#c;d%20e    | /app/a%3Fb%23c%3Bd%2520e
/<'"&@:=+,\\   | /app/%3C'%22&@:=+,%5C
"#;

/// The columns: fault with its code or kind, and its text; step.
const FAULTS: &str = r#"
-- Jakarta Servlet 6.0, sections 2.3.3 and 10.9
Error       | 404  | Not Found | Error  | 404 | Not Found
Failed      | Kind | a text    | Failed | Kind | a text
BadLocation | -    | -         | Failed | BadLocation | BadLocation
BadCookie   | -    | -         | Failed | BadCookie | BadCookie
TooLarge    | -    | -         | Failed | TooLarge | TooLarge
NoSession   | -    | -         | Failed | NoSession | NoSession
NoMemory    | -    | -         | NoMemory
"#;

/// The columns: header lines of the request, separated by `&`; name of a cookie; its value.
const SENT_COOKIES: &str = r#"
-- RFC 6265, sections 4.2.1 and 5.4: pairs with `; ` between them
Cookie: a=1; b=2                | b   | 2
Cookie: a=1; b=2                | a   | 1
Cookie: a=1                     | b   | -
Host: h                         | a   | -
-- the first of a name, in one field and in several, whatever other fields stand between
Cookie: a=1; a=2                | a   | 1
Cookie: b=1 & Host: a & Cookie: a=2; b=3 | b | 1
Cookie: b=1 & Accept: a=0 & Cookie: a=2  | a | 2
X-Cookie: a=1                   | a   | -
-- a pair is cut at its first `=`, and what has none is no cookie; a value may be empty
Cookie: a=1=2                   | a   | 1=2
Cookie: a; a=1                  | a   | 1
Cookie: a=                      | a   | ""
-- blanks stand around a pair and not within it; quotes belong to the value
Cookie: b=0 ;\ta=1\t;c=2       | a   | 1
Cookie: a= 1; b=2               | a   | \x201
Cookie: a =1                    | a   | -
Cookie: a="1"                   | a   | "1"
-- names are told with their case, and whole
Cookie: A=1; aa=2; xa=3         | a   | -
"#;

#[test]
fn a_page_shows_a_text(rt: HostRuntime) -> Result<(), Strays> {
    hold(&rt, &[TEXTS], &Texts)
}

#[test]
fn a_cookie_follows_the_grammar(rt: HostRuntime) -> Result<(), Strays> {
    hold(&rt, &[COOKIES], &Cookies)
}

#[test]
fn the_first_cookie_of_a_name_wins(rt: HostRuntime) -> Result<(), Strays> {
    hold(&rt, &[SENT_COOKIES], &SentCookies)
}

#[test]
fn a_request_uses_a_supported_method(rt: HostRuntime) -> Result<(), Strays> {
    hold(&rt, &[METHODS], &Methods)
}

#[test]
fn a_response_is_sent_with_its_content_type(rt: HostRuntime) -> Result<(), Strays> {
    hold(&rt, &[SENDS], &Sends)
}

#[test]
fn a_redirect_stays_on_its_site(rt: HostRuntime) -> Result<(), Strays> {
    hold(&rt, &[REDIRECTS], &Redirects)
}

#[test]
fn a_link_includes_the_context_path(rt: HostRuntime) -> Result<(), Strays> {
    hold(&rt, &[LINKS], &Links)
}

#[test]
fn a_fault_becomes_a_step(rt: HostRuntime) -> Result<(), Strays> {
    hold(&rt, &[FAULTS], &Faults)
}

/// Answers with the page of a text.
struct Texts;

impl Asks for Texts {
    const QUESTION: usize = 1;

    fn answer(&self, alloc: Global, row: &str, answer: &mut Vec<u8>) -> Result<(), NoMemory> {
        let mut told = Draft::new(alloc);
        let row = unescaped_text(alloc, row)?;
        match escape_html(alloc, cell(row.as_str(), 0)) {
            Ok(page) => told.add(page.as_str()),
            Err(_) => told.fail(),
        }
        told.add_to(answer)
    }
}

/// Answers with the result of setting a cookie in the response to a GET.
struct Cookies;

impl Asks for Cookies {
    const QUESTION: usize = 6;

    fn answer(&self, alloc: Global, row: &str, answer: &mut Vec<u8>) -> Result<(), NoMemory> {
        let row = unescaped_text(alloc, row)?;
        answer_all(alloc, "GET", Call::SetCookie, row.as_str(), answer)
    }
}

/// Answers with a cookie of a request.
struct SentCookies;

impl Asks for SentCookies {
    const QUESTION: usize = 2;

    fn answer(&self, alloc: Global, row: &str, answer: &mut Vec<u8>) -> Result<(), NoMemory> {
        let row = unescaped_text(alloc, row)?;
        answer_cookie(alloc, cell(row.as_str(), 0), cell(row.as_str(), 1), answer)
    }
}

/// Answers with the verb that is read from a request.
struct Methods;

impl Asks for Methods {
    const QUESTION: usize = 3;

    fn answer(&self, alloc: Global, row: &str, answer: &mut Vec<u8>) -> Result<(), NoMemory> {
        answer_all(alloc, cell(row, 1), Call::AskedVerb, row, answer)
    }
}

/// Answers with the result of sending content in response to a GET.
struct Sends;

impl Asks for Sends {
    const QUESTION: usize = 3;

    fn answer(&self, alloc: Global, row: &str, answer: &mut Vec<u8>) -> Result<(), NoMemory> {
        let row = unescaped_text(alloc, row)?;
        answer_all(alloc, "GET", Call::Send, row.as_str(), answer)
    }
}

/// Answers with the result of redirecting a GET.
struct Redirects;

impl Asks for Redirects {
    const QUESTION: usize = 3;

    fn answer(&self, alloc: Global, row: &str, answer: &mut Vec<u8>) -> Result<(), NoMemory> {
        let row = unescaped_text(alloc, row)?;
        answer_all(alloc, "GET", Call::Redirect, row.as_str(), answer)
    }
}

/// Answers with the location of a path.
struct Links;

impl Asks for Links {
    const QUESTION: usize = 1;

    fn answer(&self, alloc: Global, row: &str, answer: &mut Vec<u8>) -> Result<(), NoMemory> {
        let row = unescaped_text(alloc, row)?;
        answer_link(alloc, cell(row.as_str(), 0), answer)
    }
}

/// Answers with the step of a fault.
struct Faults;

impl Asks for Faults {
    const QUESTION: usize = 3;

    fn answer(&self, alloc: Global, row: &str, answer: &mut Vec<u8>) -> Result<(), NoMemory> {
        answer_step(alloc, row, answer)
    }
}
