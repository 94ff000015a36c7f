//! The filters of dispatches.

use crate::rows::Dispatches;
use sv_rows::{Strays, hold};

// The columns of each table: servlets with class, parameters and patterns; filters with class and parameters, and their
// mappings; error pages, welcome files, files and other settings; requests. Then for each request: the entries, the
// result with the servlet of the kept error, the status with the fields, and the body.

/// The filters of a request, and their order.
const ORDERS: &str = r#"
-- Jakarta Servlet 6.0, section 6.2.4: the mappings by patterns first, then those by names, each in the order of the descriptor
- | f Mark; g Mark; g: *; f: /*; g: /x     | - | GET /x | filter f before Pass, filter g before Pass, filter g after, filter f after | Error 404 Not Found in default | 200, x-mark: f, x-mark: g | ""
-- section 12.2: the patterns of filters are those of servlets
d Who *.do | f Mark; f: *.do               | - | GET /x/y.do; GET /x.do/y | filter f before Pass, servlet d service 0 Done, filter f after | Done | 200, x-mark: f, content-type: text/plain | caller -\n | "" | Error 404 Not Found in default | 200 | ""
r Who ""  | f Mark; f: ""                  | - | GET /; GET /x | filter f before Pass, servlet r service 0 Done, filter f after | Done | 200, x-mark: f, content-type: text/plain | caller -\n | "" | Error 404 Not Found in default | 200 | ""
-- the file servlet has a name, and no call
- | f Mark; f: default                     | file /x t | GET /x | filter f before Pass, filter f after | Done | 200, x-mark: f, content-type: application/octet-stream | t
"#;

/// The kinds of dispatches that a mapping applies to.
const KINDS: &str = r#"
-- Jakarta Servlet 6.0, section 6.2.5: a mapping is for the kinds that it names, and for requests alone where it names none
a Script does=write:x /a | f Mark; g Mark; h Mark; i Mark; f: /* FORWARD; g: /* INCLUDE; h: /* ERROR; i: /* | - | GET /a; GET /a FORWARD | filter i before Pass, servlet a service 0 Done, filter i after | Done | 200, x-mark: i | x | filter f before Pass, servlet a service 0 Done, filter f after | Done | 200, x-mark: f | x
a Script does=write:x /a | f Mark; g Mark; h Mark; i Mark; f: /* FORWARD; g: /* INCLUDE; h: /* ERROR; i: /* | - | GET /a ERROR; GET /a INCLUDE | filter h before Pass, servlet a service 0 Done, filter h after | Done | 200, x-mark: h | x | filter g before Pass, servlet a service 0 Done, filter g after | Done | 200 | x
a Script does=write:x /a; g Go path=/a /g | f Mark; f: /* REQUEST FORWARD | - | GET /g | filter f before Pass, servlet g service 0 Forward /a, filter f before Pass, servlet a service 0 Done, filter f after, filter f after | Done | 200, x-mark: f, x-mark: f | x
a Go path=/x /a | f Mark; g Mark; g: *; f: /*; g: /x | - | GET /a | filter f before Pass, filter g before Pass, servlet a service 0 Forward /x, filter g after, filter f after | Error 404 Not Found in default | 200, x-mark: f, x-mark: g | ""
-- the path of a chain is the one that is dispatched, in an include too
n Script does=include:/i/x /n; i Script does=write:i /i/* | f Mark; g Mark; f: /i/x INCLUDE; g: /n INCLUDE | - | GET /n | servlet n service 0 Include /i/x, filter f before Pass, servlet i service 0 Done, filter f after, servlet n service 1 Done | Done | 200 | i
n Script does=include:/i/x /n; i Script does=write:i /i/* | f Mark; g Mark; f: i INCLUDE; g: n INCLUDE | - | GET /n | servlet n service 0 Include /i/x, filter f before Pass, servlet i service 0 Done, filter f after, servlet n service 1 Done | Done | 200 | i
-- a page hidden from clients, and reached by a forward through its filter
go Go path=/WEB-INF/page.html /go | mark Mark; mark: /* FORWARD | file /WEB-INF/page.html page | GET /go | servlet go service 0 Forward /WEB-INF/page.html, filter mark before Pass, filter mark after | Done | 200, x-mark: mark, content-type: text/html | page
"#;

/// Filters that do not pass.
const GATES: &str = r#"
-- Jakarta Servlet 6.0, section 6.2.1: a filter that answers is not asked how the servlet stands
g Gone /g | h Halt; h: /g FORWARD                | - | GET /g; GET /g FORWARD | servlet g service 0 Unavailable, servlet g destroy | Error 404 Not Found in g | 200 | "" | filter h before Stop | Done | 200, content-type: text/plain | halt\n
-- section 6.2.3: a filter that fails ends the dispatch, and is not called once more
a Who /a | x Script does=fail:K then=write:y; x: /*          | - | GET /a | filter x before Failed K | Failed K f in a | 200 | ""
a Who /a | x Script does=fail:K; f Mark; f: /*; x: /*        | - | GET /a | filter f before Pass, filter x before Failed K, filter f after | Failed K f in a | 200, x-mark: f | ""
a Who /a | x Script does=write:x,fail:K; f Mark; x: /*; f: /* | - | GET /a | filter x before Failed K | Failed K f in a | 200 | x
- | x Script does=fail:K; x: /*                              | - | GET /a | filter x before Failed K | Failed K f in default | 200 | ""
n Nest path=/a /n; a Who /a | x Script does=fail:K; f Mark; f: /*; x: /* INCLUDE | - | GET /n | filter f before Pass, servlet n service 0 Include /a, filter x before Failed K, filter f after | Failed K f in a | 200, x-mark: f, content-type: text/plain | a1\n
-- filters are closed whatever the end, and may write then
bad Fail kind=K /bad | f1 Mark; f2 Mark; f1: /*; f2: /* | page K /bad | GET /bad; GET /bad ERROR | filter f1 before Pass, filter f2 before Pass, servlet bad service 0 Failed K, filter f2 after, filter f1 after | Failed K failed in bad | 200, x-mark: f1, x-mark: f2 | "" | servlet bad service 0 Failed K | Failed K failed in bad | 200 | ""
e Err code=404 /e | f Script does=set:x-a=1 then=write:x; f: /* | - | GET /e | filter f before Pass, servlet e service 0 Error 404, filter f after | Error 404 error in e | 200, x-a: 1 | x
a Script does=write:a /a | f Script does=write:< then=write:>; g Script does=write:( then=write:); f: /*; g: /* | - | GET /a | filter f before Pass, filter g before Pass, servlet a service 0 Done, filter g after, filter f after | Done | 200 | <(a)>
a Who /a | f Script does=write:< then=write:>; h Halt; f: /*; h: /* | - | GET /a | filter f before Pass, filter h before Stop, filter f after | Done | 200, content-type: text/plain | <halt\n>
g Gone /g | f Mark; f: /* | - | GET /g; GET /g | filter f before Pass, servlet g service 0 Unavailable, servlet g destroy, filter f after | Error 404 Not Found in g | 200, x-mark: f | "" | filter f before Pass, filter f after | Error 404 Not Found in g | 200, x-mark: f | ""
"#;

#[test]
fn filters_are_called_in_the_order_of_their_mappings_and_closed(
    rt: HostRuntime,
) -> Result<(), Strays> {
    hold(&rt, &[ORDERS, KINDS, GATES], &Dispatches)
}
