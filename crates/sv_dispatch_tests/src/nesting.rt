//! Dispatches that servlets request.

use crate::rows::Dispatches;
use sv_rows::{Strays, hold};

// The columns of the tables are those in `chains`.

/// Forwards, includes, and their limits.
const NESTED: &str = r#"
-- Jakarta Servlet 6.0, section 9.3: an include writes into the answer of its includer, who is called for its next turn
n Nest path=/i.txt /n | - | file /i.txt x | GET /n; POST /n | servlet n service 0 Include /i.txt, servlet n service 1 Done | Done | 200, content-type: text/plain | a1\nxc2\n | servlet n service 0 Include /i.txt, servlet n service 1 Done | Done | 200, content-type: text/plain | a3\nxc4\n
s Script does=include:/a then=set:x-a=1 /s; a Script does=status:404,set:x-b=1,write:y /a | - | - | GET /s | servlet s service 0 Include /a, servlet a service 0 Done, servlet s service 1 Done | Done | 200, x-a: 1 | y
s Script does=include:/g /s; g Go path=/a /g; a Script does=status:404,set:x-b=1,write:y /a | - | - | GET /s | servlet s service 0 Include /g, servlet g service 0 Forward /a, servlet a service 0 Done, servlet s service 1 Done | Done | 200 | y
s Script does=write:x,flush,include:/a then=write:y /s; a Who /a | - | - | GET /s | servlet s service 0 Include /a, servlet a service 0 Done, servlet s service 1 Done | Done | 200 | 1\r\nx\r\na\r\ncaller -\ny\r\n0\r\n\r\n
-- section 9.4: a forward finds an empty body, and the fields and the status as they were
s Script does=write:x,set:x-a=1,status:202,forward:/a /s; a Script does=write:y /a | - | - | GET /s | servlet s service 0 Forward /a, servlet a service 0 Done | Done | 202, x-a: 1 | y
s Script does=write:x,include:/g then=write:z /s; g Script does=write:w,forward:/a /g; a Script does=write:y /a | - | - | GET /s | servlet s service 0 Include /g, servlet g service 0 Forward /a, servlet a service 0 Done, servlet s service 1 Done | Done | 200 | yz
g Go path=/i.txt /g | - | file /i.txt x | POST /g; GET /g | servlet g service 0 Forward /i.txt | Done | 200, content-type: text/plain | x | servlet g service 0 Forward /i.txt | Done | 200, content-type: text/plain | x
-- a forward of a committed answer; that comes before a path that cannot be read
s Script does=write:x,flush,forward:/a /s; a Who /a | - | - | GET /s | servlet s service 0 Forward /a | Failed Committed Committed in s | 200 | 1\r\nx\r\n0\r\n\r\n
s Script does=flush,forward:a /s | - | - | GET /s | servlet s service 0 Forward a | Failed Committed Committed in s | 200 | 0\r\n\r\n
s Script does=flush,include:a /s | - | - | GET /s | servlet s service 0 Include a | Failed BadDispatchPath BadDispatchPath in s | 200 | 0\r\n\r\n
g Go path=/s /g; s Script does=flush,forward:/a /s | f Mark; f: /* FORWARD | - | GET /g | servlet g service 0 Forward /s, filter f before Pass, servlet s service 0 Forward /a, filter f after | Failed Committed Committed in s | 200, x-mark: f | 0\r\n\r\n
-- section 9.1: a path in the context, which begins with a slash and can be read
s Go path=a /s        | - | - | GET /s | servlet s service 0 Forward a | Failed BadDispatchPath BadDispatchPath in s | 200 | ""
s Go /s               | - | - | GET /s | servlet s service 0 Forward\x20 | Failed BadDispatchPath BadDispatchPath in s | 200 | ""
s Go path=/../x /s    | - | - | GET /s | servlet s service 0 Forward /../x | Failed BadDispatchPath BadDispatchPath in s | 200 | ""
s Go path=/a#b /s     | - | - | GET /s | servlet s service 0 Forward /a#b | Failed BadDispatchPath BadDispatchPath in s | 200 | ""
s Nest path=/%zz /s   | - | - | GET /s | servlet s service 0 Include /%zz | Failed BadDispatchPath BadDispatchPath in s | 200, content-type: text/plain | a1\n
-- dispatches stand at most 16 deep
loop Go path=/loop /loop | - | - | GET /loop | \{15*servlet loop service 0 Forward /loop, }servlet loop service 0 Forward /loop | Failed DispatchLimit DispatchLimit in loop | 200 | ""
n Script does=include:/n /n | - | - | GET /n | \{15*servlet n service 0 Include /n, }servlet n service 0 Include /n | Failed DispatchLimit DispatchLimit in n | 200 | ""
-- a request has at most 1,024 calls of before and service; after, destroy and files are not counted
t Script does=include:/u then=include:/u /t; u Paths /u | - | - | GET /t | 1024 entries | Failed DispatchLimit DispatchLimit in t | 200 | 9216 bytes
t Script does=include:/u then=include:/u /t; u Script does=write:u /u | f Mark; f: /* REQUEST INCLUDE | - | GET /t | 1366 entries | Failed DispatchLimit DispatchLimit in t | 200, x-mark: f | 341 bytes
t Script does=include:/u then=include:/u /t; u Script does=write:u /u | f Mark; f: /u INCLUDE | - | GET /t | 1365 entries | Failed DispatchLimit DispatchLimit in u | 200 | 341 bytes
t Script does=include:/x then=include:/x /t | - | file /x a | GET /t | 1024 entries | Failed DispatchLimit DispatchLimit in t | 200 | 1024 bytes
t Script does=include:/g then=include:/g /t; g Gone /g | - | - | GET /t | 1025 entries | Failed DispatchLimit DispatchLimit in t | 200 | ""
"#;

/// Errors and failures, and the servlets that they are kept for.
const ERRORS: &str = r#"
-- Jakarta Servlet 6.0, section 10.9: codes from 400 to 599; any other counts as 500
a Err code=399 /a; b Err code=400 /b; c Err code=599 /c; d Err code=600 /d | - | - | GET /a; GET /b | servlet a service 0 Error 399 | Error 500 error in a | 200 | "" | servlet b service 0 Error 400 | Error 400 error in b | 200 | ""
a Err code=399 /a; b Err code=400 /b; c Err code=599 /c; d Err code=600 /d | - | - | GET /c; GET /d | servlet c service 0 Error 599 | Error 599 error in c | 200 | "" | servlet d service 0 Error 600 | Error 500 error in d | 200 | ""
a Err /a; f Fail /f  | - | - | GET /a; GET /f | servlet a service 0 Error 0 | Error 500 error in a | 200 | "" | servlet f service 0 Failed\x20 | Failed  failed in f | 200 | ""
-- an include swallows an error, and goes on; a failure leaves through all includes
g Go path=/n /g; n Nest path=/e /n; e Fail kind=K /e  | - | - | GET /g | servlet g service 0 Forward /n, servlet n service 0 Include /e, servlet e service 0 Failed K | Failed K failed in e | 200, content-type: text/plain | a1\n
n Nest path=/m /n; m Script does=include:/e then=write:m /m; e Fail kind=K /e | - | - | GET /n | servlet n service 0 Include /m, servlet m service 0 Include /e, servlet e service 0 Failed K | Failed K failed in e | 200, content-type: text/plain | a1\n
n Nest path=/m /n; m Script does=include:/e then=error:410 /m; e Err code=404 /e | - | - | GET /n | servlet n service 0 Include /m, servlet m service 0 Include /e, servlet e service 0 Error 404, servlet m service 1 Error 410, servlet n service 1 Done | Done | 200, content-type: text/plain | a1\nc2\n
n Script does=include:/e then=error:410 /n; e Err code=404 /e | - | - | GET /n | servlet n service 0 Include /e, servlet e service 0 Error 404, servlet n service 1 Error 410 | Error 410 e in n | 200 | ""
n Nest path=/g /n; g Go path=a /g | - | - | GET /n | servlet n service 0 Include /g, servlet g service 0 Forward a | Failed BadDispatchPath BadDispatchPath in g | 200, content-type: text/plain | a1\n
-- section 9.3: an include of what is not there fails; so does one of a folder, or of a path with a welcome file
n Nest path=/none /n | - | - | GET /n | servlet n service 0 Include /none | Failed MissingInclude MissingInclude in default | 200, content-type: text/plain | a1\n
n Nest path=/a /n  | - | welcome i; file /a/i x | GET /n | servlet n service 0 Include /a | Failed MissingInclude MissingInclude in default | 200, content-type: text/plain | a1\n
n Nest path=/a/ /n | - | welcome i; file /a/i x | GET /n | servlet n service 0 Include /a/ | Failed MissingInclude MissingInclude in default | 200, content-type: text/plain | a1\n
g Go path=/none /g | - | - | GET /g | servlet g service 0 Forward /none | Error 404 Not Found in default | 200 | ""
-- a file for which the body has no room
- | f Script does=fill:4194300; f: /* | file /x abcde; file /y abcd | GET /x; GET /y | filter f before Pass, filter f after | Failed TooLarge TooLarge in default | 200, content-type: application/octet-stream | 4194300 bytes | filter f before Pass, filter f after | Done | 200, content-type: application/octet-stream | 4194304 bytes
"#;

/// Servlets that become unavailable.
const STANDINGS: &str = r#"
-- Jakarta Servlet 6.0, section 2.3.3.2: for some seconds, with the field of RFC 9110, section 10.2.3
g Gone seconds=10 /g | - | - | GET /g @0; GET /g @4; GET /g @10 | servlet g service 0 Unavailable | Error 503 Service Unavailable in g, retry-after: 10 | 200 | "" | "" | Error 503 Service Unavailable in g, retry-after: 6 | 200 | "" | servlet g service 0 Unavailable | Error 503 Service Unavailable in g, retry-after: 10 | 200 | ""
g Gone seconds=0 /g  | - | - | GET /g @7; GET /g @7 | servlet g service 0 Unavailable | Error 503 Service Unavailable in g, retry-after: 0 | 200 | "" | servlet g service 0 Unavailable | Error 503 Service Unavailable in g, retry-after: 0 | 200 | ""
g Gone seconds=4294967295 /g; h Gone seconds=4294967296 /h | - | - | GET /g @7; GET /h @7; GET /g @4294967301 | servlet g service 0 Unavailable | Error 503 Service Unavailable in g, retry-after: 4294967295 | 200 | "" | servlet h service 0 Unavailable | Error 503 Service Unavailable in h, retry-after: 0 | 200 | "" | "" | Error 503 Service Unavailable in g, retry-after: 1 | 200 | ""
-- for good: destroyed once, and not found from then on
g Gone /g | - | - | GET /g; GET /g; GET /g | servlet g service 0 Unavailable, servlet g destroy | Error 404 Not Found in g | 200 | "" | "" | Error 404 Not Found in g | 200 | "" | "" | Error 404 Not Found in g | 200 | ""
-- within an include the error counts as done, and the servlet is out of service all the same
n Nest path=/g /n; g Gone seconds=5 /g | - | - | GET /n; GET /g | servlet n service 0 Include /g, servlet g service 0 Unavailable, servlet n service 1 Done | Done | 200, content-type: text/plain | a1\nc2\n | "" | Error 503 Service Unavailable in g, retry-after: 5 | 200 | ""
g Go path=/h /g; h Gone seconds=3 /h | - | - | GET /g @1; GET /g @2 | servlet g service 0 Forward /h, servlet h service 0 Unavailable | Error 503 Service Unavailable in h, retry-after: 3 | 200 | "" | servlet g service 0 Forward /h | Error 503 Service Unavailable in h, retry-after: 2 | 200 | ""
-- a servlet that goes out of service between its turns
s Script does=include:/s inside=away:7 then=write:x /s | - | - | GET /s | servlet s service 0 Include /s, servlet s service 0 Unavailable | Error 503 Service Unavailable in s, retry-after: 7 | 200 | ""
s Script does=include:/s inside=away: then=write:x /s | - | - | GET /s | servlet s service 0 Include /s, servlet s service 0 Unavailable, servlet s destroy | Error 404 Not Found in s | 200 | ""
s Script does=include:/g inside=away: then=write:x /s; g Go path=/h /g; h Script does=include:/s then=write:y /h | - | - | GET /s | servlet s service 0 Include /g, servlet g service 0 Forward /h, servlet h service 0 Include /s, servlet s service 0 Unavailable, servlet s destroy, servlet h service 1 Done | Error 404 Not Found in s | 200 | y
"#;

#[test]
fn dispatches_nest_and_end_as_they_are_asked(rt: HostRuntime) -> Result<(), Strays> {
    hold(&rt, &[NESTED, ERRORS, STANDINGS], &Dispatches)
}
