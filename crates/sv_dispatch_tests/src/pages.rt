//! Answers to requests, with their error pages.

use crate::rows::Answers;
use sv_rows::{Strays, hold};

// The first four columns of the tables are those in `chains`. Then for each request: the entries, the status with the
// fields, and the body.

/// Error pages and plain answers.
const PAGES: &str = r#"
-- Jakarta Servlet 6.0, section 10.9.2: the page of the failure's kind, else that of the status, else that of all errors; of several the first
bad Fail kind=K /bad; k Script does=write:k /k; s Script does=write:s /s; g Script does=write:g /g | - | page - /g; page 500 /s; page K /k | GET /bad | servlet bad service 0 Failed K, servlet k service 0 Done | 500 | k
bad Fail kind=K /bad; k Script does=write:k /k; s Script does=write:s /s; g Script does=write:g /g | - | page - /g; page 500 /s; page L /k | GET /bad | servlet bad service 0 Failed K, servlet s service 0 Done | 500 | s
bad Fail kind=K /bad; k Script does=write:k /k; s Script does=write:s /s; g Script does=write:g /g | - | page - /g; page 404 /s; page L /k | GET /bad | servlet bad service 0 Failed K, servlet g service 0 Done | 500 | g
e Err code=404 /e; s Script does=write:s /s; t Script does=write:t /t | - | page 404 /s; page 404 /t | GET /e | servlet e service 0 Error 404, servlet s service 0 Done | 404 | s
e Err code=700 /e; s Script does=write:s /s | - | page 500 /s | GET /e | servlet e service 0 Error 700, servlet s service 0 Done | 500 | s
-- section 6.2.5: the filters of an error page are those of its kind; status, fields and body of the failure go
e Script does=write:x,set:x-a=1,status:202,error:404 /e; p Script does=write:p /p | f Mark; f: /* ERROR | page 404 /p | GET /e | servlet e service 0 Error 404, filter f before Pass, servlet p service 0 Done, filter f after | 404, x-mark: f | p
-- section 10.9.1: what a page is told; its location may have a query
e Err code=404 /e; p Script does=tell:@jakarta.servlet.error.status_code,tell:@jakarta.servlet.error.message,tell:@jakarta.servlet.error.request_uri,tell:@jakarta.servlet.error.servlet_name,tell:?n /p | - | page 404 /p?n=1; context /app | GET /e?n=2 | servlet e service 0 Error 404, servlet p service 0 Done | 404 | 404 error /app/e e 1\x20
g Go path=/f /g; f Fail kind=K /f; p Script does=tell:@jakarta.servlet.error.status_code,tell:@jakarta.servlet.error.message,tell:@jakarta.servlet.error.request_uri,tell:@jakarta.servlet.error.servlet_name /p | - | page K /p | GET /g | servlet g service 0 Forward /f, servlet f service 0 Failed K, servlet p service 0 Done | 500 | 500 failed /g f\x20
-- section 5.5: a committed answer has no page, and breaks off behind what was flushed last, without its end (RFC 9112, section 7.1)
e Script does=write:x,flush,error:404 /e; p Script does=write:p /p | - | page 404 /p | GET /e | servlet e service 0 Error 404 | 200 | 1\r\nx\r\n
e Script does=write:x,flush,write:y,fail:K /e; p Script does=write:p /p | - | page K /p | GET /e | servlet e service 0 Failed K | 200 | 1\r\nx\r\n
s Script does=write:x,flush,write:y,forward:/a /s; a Who /a | - | - | GET /s | servlet s service 0 Forward /a | 200 | 1\r\nx\r\n
e Err code=404 /e; p Script does=write:p,flush,error:500 /p | - | page 404 /p | GET /e | servlet e service 0 Error 404, servlet p service 0 Error 500 | 404 | 1\r\np\r\n
-- an error within an include ends the include alone (section 9.3)
s Script does=write:x,flush,include:/e then=write:z /s; e Err code=404 /e | - | - | GET /s | servlet s service 0 Include /e, servlet e service 0 Error 404, servlet s service 1 Done | 200 | 1\r\nx\r\n1\r\nz\r\n0\r\n\r\n
-- RFC 9110, sections 10.2.1 and 10.2.3: the field that goes with the error, in front of those of its page, and of the first error
- | - | file /x t | PUT /x | "" | 405, allow: GET, HEAD, content-type: text/plain | 405 Method Not Allowed\n
p Script does=set:x-a=1,write:p /p | - | page 405 /p; file /x t | PUT /x | servlet p service 0 Done | 405, allow: GET, HEAD, x-a: 1 | p
p Gone seconds=5 /p | - | page 405 /p; file /x t | PUT /x | servlet p service 0 Unavailable | 405, allow: GET, HEAD, content-type: text/plain | 405 Method Not Allowed\n
-- sessions stay, with their cookies, and no session is to be had among 1,000
k Keep /k | - | sessions 1000 | GET /k | servlet k service 0 Error 503 | 503, content-type: text/plain | 503 Service Unavailable\n
k Keep /k; p Script does=tell:@jakarta.servlet.error.message,tell:@jakarta.servlet.error.servlet_name /p | - | sessions 1000; page 503 /p | GET /k; GET /k #1000 | servlet k service 0 Error 503, servlet p service 0 Done | 503 | full k\x20 | servlet k service 0 Done | 200, content-type: text/plain | n=1\n
k Keep /k | - | sessions 999 | GET /k; GET /k | servlet k service 0 Done | 200, content-type: text/plain, cookie 0000000000000000000000000000000100000000000003e8 / | n=1\n | servlet k service 0 Error 503 | 503, content-type: text/plain | 503 Service Unavailable\n
s Script does=open,error:404 /s | - | - | GET /s | servlet s service 0 Error 404 | 404, content-type: text/plain, cookie 000000000000000000000000000000010000000000000001 / | 404 Not Found\n
"#;

/// Errors without a dispatch. The status follows `!`.
const REFUSED: &str = r#"
-- Jakarta Servlet 6.0, section 10.9.2: the page of the status, else that of all errors, else the plain answer; never that of a kind
- | - | - | GET /x !403; GET /x !404 | "" | 403, content-type: text/plain | 403 Forbidden\n | "" | 404, content-type: text/plain | 404 Not Found\n
k Script does=write:k /k; s Script does=write:s /s; g Script does=write:g /g | - | page K /k; page - /g; page 403 /s | GET /x !403; GET /x !503 | servlet s service 0 Done | 403 | s | servlet g service 0 Done | 503 | g
k Script does=write:k /k | - | page K /k | GET /x !503 | "" | 503, content-type: text/plain | 503 Service Unavailable\n
-- section 10.9.1: the page is told of it; there is no servlet in which it arose, and no path of the client was split
p Script does=tell:@jakarta.servlet.error.status_code,tell:@jakarta.servlet.error.message,tell:@jakarta.servlet.error.servlet_name,tell:@jakarta.servlet.error.request_uri,tell:kind,tell:path /p | f Mark; g Mark; f: /* ERROR; g: /* | page 403 /p; context /app | GET /x !403 | filter f before Pass, servlet p service 0 Done, filter f after | 403, x-mark: f | 403 Forbidden - /app/x ERROR /p\x20
p Go path=/q /p; q Script does=tell:@jakarta.servlet.forward.request_uri,tell:@jakarta.servlet.forward.servlet_path,tell:@jakarta.servlet.forward.path_info,tell:@jakarta.servlet.error.status_code /q | - | page 403 /p | GET /x !403 | servlet p service 0 Forward /q, servlet q service 0 Done | 403 | /x - - 403\x20
-- a page that ends in an error gives way to the plain answer
e Err code=404 /e; f Fail kind=K /f; k Script does=write:k /k | - | page 403 /e; page 404 /k; page 503 /f; page K /k | GET /x !403; GET /x !503 | servlet e service 0 Error 404 | 403, content-type: text/plain | 403 Forbidden\n | servlet f service 0 Failed K | 503, content-type: text/plain | 503 Service Unavailable\n
-- the page's own status and fields stand, and a file is one by any method
p Script does=status:200,set:x-a=1,write:p /p | - | page 403 /p | GET /x !403 | servlet p service 0 Done | 200, x-a: 1 | p
- | - | page 403 /WEB-INF/no.txt; file /WEB-INF/no.txt no | POST /x !403 | "" | 403, content-type: text/plain | no
"#;

#[test]
fn errors_are_answered_by_their_pages_or_plainly(rt: HostRuntime) -> Result<(), Strays> {
    hold(&rt, &[PAGES, REFUSED], &Answers)
}
