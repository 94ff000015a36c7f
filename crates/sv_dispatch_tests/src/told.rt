//! The values that components read in dispatches, and the answers of the file servlet.

use crate::rows::Dispatches;
use sv_rows::{Strays, hold};

// The columns of the tables are those in `chains`.

/// Paths, attributes and parameters. A script writes each value followed by a blank, or `-` if it is missing.
const TOLD: &str = r#"
-- Jakarta Servlet 6.0, section 9.4.2: a forward shows its own paths, and tells those of the client's request
g Go path=/t/i?b=2 /g/*; t Script does=tell:path,tell:servlet,tell:info,tell:query,tell:kind /t/* | - | context /app | GET /g/h?a=1 | servlet g service 0 Forward /t/i?b=2, servlet t service 0 Done | Done | 200 | /t/i /t /i b=2 FORWARD\x20
g Go path=/t/i?b=2 /g/*; t Script does=tell:@jakarta.servlet.forward.request_uri,tell:@jakarta.servlet.forward.context_path,tell:@jakarta.servlet.forward.servlet_path,tell:@jakarta.servlet.forward.path_info,tell:@jakarta.servlet.forward.query_string /t/* | - | context /app | GET /g/h?a=1 | servlet g service 0 Forward /t/i?b=2, servlet t service 0 Done | Done | 200 | /app/g/h /app /g /h a=1\x20
g Go path=/m /g/*; m Go path=/t?c=3 /m; t Script does=tell:@jakarta.servlet.forward.request_uri,tell:@jakarta.servlet.forward.servlet_path,tell:@jakarta.servlet.forward.query_string,tell:query /t | - | - | GET /g/h?a=1 | servlet g service 0 Forward /m, servlet m service 0 Forward /t?c=3, servlet t service 0 Done | Done | 200 | /g/h /g a=1 c=3\x20
g Go path=/t /g; t Script does=tell:query,tell:info,tell:@jakarta.servlet.forward.path_info,tell:@jakarta.servlet.forward.query_string,tell:@jakarta.servlet.include.request_uri /t | - | - | GET /g?a=1; GET /g | servlet g service 0 Forward /t, servlet t service 0 Done | Done | 200 | - - - a=1 -\x20 | servlet g service 0 Forward /t, servlet t service 0 Done | Done | 200 | - - - - -\x20
g Go path=/t /g; t Script does=tell:kind,tell:@jakarta.servlet.forward.request_uri,tell:@jakarta.servlet.forward.servlet_path,tell:@jakarta.servlet.error.request_uri /t | - | - | GET /g ERROR | servlet g service 0 Forward /t, servlet t service 0 Done | Done | 200 | FORWARD /g - /g\x20
-- section 9.3.1: an include goes on to show the paths of its includer, and tells its own until its end
n Script does=include:/t/i?b=2 then=tell:@jakarta.servlet.include.request_uri,tell:kind /n/*; t Script does=tell:path,tell:servlet,tell:info,tell:query,tell:kind /t/* | - | - | GET /n/h?a=1 | servlet n service 0 Include /t/i?b=2, servlet t service 0 Done, servlet n service 1 Done | Done | 200 | /n/h /n /h a=1 INCLUDE - REQUEST\x20
n Script does=include:/t/i?b=2 /n; t Script does=tell:@jakarta.servlet.include.request_uri,tell:@jakarta.servlet.include.context_path,tell:@jakarta.servlet.include.servlet_path,tell:@jakarta.servlet.include.path_info,tell:@jakarta.servlet.include.query_string /t/* | - | context /app | GET /n | servlet n service 0 Include /t/i?b=2, servlet t service 0 Done, servlet n service 1 Done | Done | 200 | /app/t/i /app /t /i b=2\x20
n Script does=include:/m then=tell:@jakarta.servlet.include.servlet_path /n; m Script does=include:/t then=tell:@jakarta.servlet.include.servlet_path /m; t Script does=tell:@jakarta.servlet.include.servlet_path /t | - | - | GET /n | servlet n service 0 Include /m, servlet m service 0 Include /t, servlet t service 0 Done, servlet m service 1 Done, servlet n service 1 Done | Done | 200 | /t /m -\x20
n Script does=include:/g /n; g Go path=/t /g; t Script does=tell:@jakarta.servlet.include.servlet_path,tell:@jakarta.servlet.forward.servlet_path,tell:path /t | - | - | GET /n | servlet n service 0 Include /g, servlet g service 0 Forward /t, servlet t service 0 Done, servlet n service 1 Done | Done | 200 | /g /n /t\x20
-- section 10.9.1: an error page shows its own paths
e Script does=tell:path,tell:kind,tell:@jakarta.servlet.error.request_uri,tell:@jakarta.servlet.error.status_code /e | - | context /app | GET /e ERROR | servlet e service 0 Done | Done | 200 | /e ERROR /app/e -\x20
-- section 3.3: attributes of components last; the reserved ones are ignored
s Script does=attribute:k=v,attribute:jakarta.servlet.k=v,forward:/t /s; t Script does=tell:@k,tell:@jakarta.servlet.k /t | - | - | GET /s | servlet s service 0 Forward /t, servlet t service 0 Done | Done | 200 | v -\x20
n Script does=include:/t then=tell:@k /n; t Script does=attribute:k=v /t | - | - | GET /n | servlet n service 0 Include /t, servlet t service 0 Done, servlet n service 1 Done | Done | 200 | v\x20
-- sections 3.1 and 9.1.1: the query of the innermost dispatch first, then those around it, the client's, and the form
k Script does=tell:?n /keep | - | - | POST /keep?n=1 n=2; POST /keep?m=1 n=2; GET /keep n=2 | servlet k service 0 Done | Done | 200 | 1\x20 | servlet k service 0 Done | Done | 200 | 2\x20 | servlet k service 0 Done | Done | 200 | -\x20
g Go path=/t?n=2 /g; t Script does=tell:?n,tell:?m,tell:?l /t | - | - | POST /g?n=1&m=3 m=4&l=5 | servlet g service 0 Forward /t?n=2, servlet t service 0 Done | Done | 200 | 2 3 5\x20
n Script does=tell:?n,include:/t?n=2 then=tell:?n /n; t Script does=tell:?n,include:/u?m=3 then=tell:?m /t; u Script does=tell:?n,tell:?m /u | - | - | GET /n?n=1 | servlet n service 0 Include /t?n=2, servlet t service 0 Include /u?m=3, servlet u service 0 Done, servlet t service 1 Done, servlet n service 1 Done | Done | 200 | 1 2 2 3 - 1\x20
"#;

/// The answers of the file servlet, if no servlet is mapped.
const FILES: &str = r#"
-- Jakarta Servlet 6.0, section 10.10: a folder, and its welcome file, to which a client is sent with the query
- | - | welcome index.html; file /a/index.html x | GET /a; GET /a/?q; PUT /a/index.html | "" | Done | 302, location: /a/ | "" | "" | Done | 302, location: /a/index.html?q | "" | "" | Error 405 Method Not Allowed in default, allow: GET, HEAD | 200 | ""
- | - | welcome index.html; file /a/index.html x | GET /b; HEAD /a/index.html; HEAD /a | "" | Error 404 Not Found in default | 200 | "" | "" | Done | 200, content-type: text/html | x | "" | Done | 302, location: /a/ | ""
- | - | welcome index.html; file /a/index.html x; context /app | GET /a?q=1; GET /a/?; POST /a | "" | Done | 302, location: /app/a/?q=1 | "" | "" | Done | 302, location: /app/a/index.html? | "" | "" | Error 405 Method Not Allowed in default, allow: GET, HEAD | 200 | ""
- | - | welcome i j; file /a/j x; file /a/k x | GET /a/; GET /; GET /a/k/ | "" | Done | 302, location: /a/j | "" | "" | Error 404 Not Found in default | 200 | "" | "" | Error 404 Not Found in default | 200 | ""
- | - | file /a x; file /a/b y | GET /a; GET /a/b | "" | Done | 302, location: /a/ | "" | "" | Done | 200, content-type: application/octet-stream | y
- | - | file /é/x t | GET /%C3%A9; GET /%C3%A9/x | "" | Done | 302, location: /%C3%A9/ | "" | "" | Done | 200, content-type: application/octet-stream | t
-- a welcome name that a servlet's pattern matches, other than the default pattern; files come first
w Who /a/w     | - | welcome i w; file /a/x t | GET /a/ | "" | Done | 302, location: /a/w | ""
w Who /a/i     | - | welcome i j; file /a/j t | GET /a/ | "" | Done | 302, location: /a/j | ""
w Who *.jsp    | - | welcome i.jsp; file /a/x t | GET /a/; GET /b/ | "" | Done | 302, location: /a/i.jsp | "" | "" | Done | 302, location: /b/i.jsp | ""
-- a dispatch that a component asked for finds files alone, by any method
g Go path=/a/ /g; h Go path=/a /h | - | welcome i; file /a/i x | GET /g; GET /h | servlet g service 0 Forward /a/ | Error 404 Not Found in default | 200 | "" | servlet h service 0 Forward /a | Error 404 Not Found in default | 200 | ""
- | - | welcome i; file /a/i x | GET /a/ ERROR; GET /a ERROR; POST /a/i ERROR | "" | Error 404 Not Found in default | 200 | "" | "" | Error 404 Not Found in default | 200 | "" | "" | Done | 200, content-type: application/octet-stream | x
-- a redirect empties what was not committed, and is ignored where it was; a file's type takes the place of another
- | f Script does=write:x,set:x-a=1 then=write:y; f: /* | file /a/i x | GET /a | filter f before Pass, filter f after | Done | 302, x-a: 1, location: /a/ | y
- | f Script does=write:x,flush; f: /* | file /a/i x | GET /a | filter f before Pass, filter f after | Done | 200 | 1\r\nx\r\n0\r\n\r\n
- | f Script does=write:x,set:Content-Type=text/plain; f: /* | file /a.css b | GET /a.css | filter f before Pass, filter f after | Done | 200, content-type: text/css | xb
- | f Script does=flush; f: /* | file /a.css b | GET /a.css; PUT /a.css | filter f before Pass, filter f after | Done | 200 | 1\r\nb\r\n0\r\n\r\n | filter f before Pass, filter f after | Error 405 Method Not Allowed in default, allow: GET, HEAD | 200 | 0\r\n\r\n
-- hidden folders are hidden from clients alone, and not by dispatches
- | - | file /WEB-INF/x.txt t | GET /WEB-INF/x.txt FORWARD; GET /WEB-INF/x.txt ERROR | "" | Done | 200, content-type: text/plain | t | "" | Done | 200, content-type: text/plain | t
"#;

#[test]
fn dispatches_tell_their_paths_and_find_files(rt: HostRuntime) -> Result<(), Strays> {
    hold(&rt, &[TOLD, FILES], &Dispatches)
}
