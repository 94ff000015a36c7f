//! Sessions within dispatches.

use crate::rows::Dispatches;
use sv_rows::{Strays, hold};

// The columns of the tables are those in `chains`. In the third, `sessions` gives the number of open sessions, numbered
// from 1. A request holds the session after `#`, with the caller after `~`. The random words of each request are 0 and
// 1.

/// The session, its caller and its cookie.
const HELD: &str = r#"
-- Jakarta Servlet 6.0, section 7.2: a session is opened, its cookie is set, and it is held by later requests
k Keep /k | - | context /app | GET /k; GET /k #1; GET /k #2 | servlet k service 0 Done | Done | 200, content-type: text/plain, cookie 000000000000000000000000000000010000000000000001 /app | n=1\n | servlet k service 0 Done | Done | 200, content-type: text/plain | n=2\n | servlet k service 0 Done | Done | 200, content-type: text/plain, cookie 000000000000000000000000000000010000000000000002 /app | n=1\n
n Nest path=/k /n; k Keep /k | - | - | GET /n | servlet n service 0 Include /k, servlet k service 0 Done, servlet n service 1 Done | Done | 200, content-type: text/plain, cookie 000000000000000000000000000000010000000000000001 / | a1\nn=1\nc2\n
-- at most 1,000 sessions in a context; none behind a committed answer, but the one that is there
k Keep /k | - | sessions 1000 | GET /k; GET /k #1000 | servlet k service 0 Error 503 | Error 503 full in k | 200 | "" | servlet k service 0 Done | Done | 200, content-type: text/plain | n=1\n
k Keep /k | - | sessions 999 | GET /k; GET /k | servlet k service 0 Done | Done | 200, content-type: text/plain, cookie 0000000000000000000000000000000100000000000003e8 / | n=1\n | servlet k service 0 Error 503 | Error 503 full in k | 200 | ""
k Keep /k | f Script does=flush; f: /* | sessions 1 | GET /k; GET /k #1 | filter f before Pass, servlet k service 0 Error 503, filter f after | Error 503 full in k | 200 | 0\r\n\r\n | filter f before Pass, servlet k service 0 Done, filter f after | Done | 200 | 4\r\nn=1\n\r\n0\r\n\r\n
-- the number in the attribute: decimal digits, of which a greater one than the greatest counts as 0, as any other text does
k Keep /k; s Script does=put:n=x /s; t Script does=put:n=007 /t | - | sessions 1 | GET /s #1; GET /k #1; GET /t #1; GET /k #1 | servlet s service 0 Done | Done | 200 | "" | servlet k service 0 Done | Done | 200, content-type: text/plain | n=1\n | servlet t service 0 Done | Done | 200 | "" | servlet k service 0 Done | Done | 200, content-type: text/plain | n=8\n
k Keep /k; s Script does=put:n=18446744073709551615 /s; t Script does=put:n=18446744073709551616 /t | - | sessions 1 | GET /s #1; GET /k #1; GET /t #1; GET /k #1 | servlet s service 0 Done | Done | 200 | "" | servlet k service 0 Done | Done | 200, content-type: text/plain | n=18446744073709551615\n | servlet t service 0 Done | Done | 200 | "" | servlet k service 0 Done | Done | 200, content-type: text/plain | n=1\n
-- section 13.3: the caller, until a logout or the session's end
w Who /w; o Out /o; s Script does=include:/o then=forward:/w /s | - | sessions 1 | GET /w #1 ~ann; GET /s #1 ~ann | servlet w service 0 Done | Done | 200, content-type: text/plain | caller ann\n | servlet s service 0 Include /o, servlet o service 0 Done, servlet s service 1 Forward /w, servlet w service 0 Done | Done | 200, content-type: text/plain | caller -\n
w Who /w; b Bye /b; s Script does=include:/b then=forward:/w /s | - | sessions 1 | GET /s #1 ~ann; GET /w | servlet s service 0 Include /b, servlet b service 0 Done, servlet s service 1 Forward /w, servlet w service 0 Done | Done | 200, content-type: text/plain | caller -\n | servlet w service 0 Done | Done | 200, content-type: text/plain | caller -\n
"#;

/// The session events that listeners receive.
const HEARD: &str = r#"
-- Jakarta Servlet 6.0, section 11.3: behind the call, the oldest event first; ends in reverse, the rest in declared order
k Keep /k | - | listener; listener | GET /k; GET /k #1 | servlet k service 0 Done, 1 SessionCreated 1, 2 SessionCreated 1, 1 AttributeAdded 1 n, 2 AttributeAdded 1 n | Done | 200, content-type: text/plain, cookie 000000000000000000000000000000010000000000000001 / | n=1\n | servlet k service 0 Done, 1 AttributeReplaced 1 n, 2 AttributeReplaced 1 n | Done | 200, content-type: text/plain | n=2\n
k Keep /k; b Bye /b | - | listener; listener | GET /k; GET /b #1; GET /b #1 | servlet k service 0 Done, 1 SessionCreated 1, 2 SessionCreated 1, 1 AttributeAdded 1 n, 2 AttributeAdded 1 n | Done | 200, content-type: text/plain, cookie 000000000000000000000000000000010000000000000001 / | n=1\n | servlet b service 0 Done, 2 SessionDestroyed 1, 1 SessionDestroyed 1, 1 AttributeRemoved 1 n, 2 AttributeRemoved 1 n | Done | 200, content-type: text/plain | bye\n | servlet b service 0 Done | Done | 200, content-type: text/plain | bye\n
s Script does=open,put:a=1,put:b=2,put:a=3,take:b,take:c,end /s | - | listener | GET /s | servlet s service 0 Done, 1 SessionCreated 1, 1 AttributeAdded 1 a, 1 AttributeAdded 1 b, 1 AttributeReplaced 1 a, 1 AttributeRemoved 1 b, 1 SessionDestroyed 1, 1 AttributeRemoved 1 a | Done | 200 | ""
-- behind each call of each component, before the next call
n Nest path=/k /n; k Keep /k | - | listener | GET /n | servlet n service 0 Include /k, servlet k service 0 Done, 1 SessionCreated 1, 1 AttributeAdded 1 n, servlet n service 1 Done | Done | 200, content-type: text/plain, cookie 000000000000000000000000000000010000000000000001 / | a1\nn=1\nc2\n
a Who /a | f Script does=open then=end; f: /* | listener | GET /a | filter f before Pass, 1 SessionCreated 1, servlet a service 0 Done, filter f after, 1 SessionDestroyed 1 | Done | 200, content-type: text/plain | caller -\n
s Script does=include:/b then=forward:/k /s; b Bye /b; k Keep /k | - | listener; sessions 1 | GET /s #1 | servlet s service 0 Include /b, servlet b service 0 Done, 1 SessionDestroyed 1, servlet s service 1 Forward /k, servlet k service 0 Done, 1 SessionCreated 2, 1 AttributeAdded 2 n | Done | 200, content-type: text/plain, cookie 000000000000000000000000000000010000000000000002 / | n=1\n
-- whatever the call answers, and before a servlet is destroyed
s Script does=open,away: /s | - | listener | GET /s | servlet s service 0 Unavailable, 1 SessionCreated 1, servlet s destroy | Error 404 Not Found in s | 200, cookie 000000000000000000000000000000010000000000000001 / | ""
s Script does=open,fail:K /s | f Mark; f: /* | listener | GET /s | filter f before Pass, servlet s service 0 Failed K, 1 SessionCreated 1, filter f after | Failed K f in s | 200, x-mark: f, cookie 000000000000000000000000000000010000000000000001 / | ""
s Script does=open,error:410 /s | - | listener | GET /s | servlet s service 0 Error 410, 1 SessionCreated 1 | Error 410 e in s | 200, cookie 000000000000000000000000000000010000000000000001 / | ""
s Script does=open,forward:a /s | - | listener | GET /s | servlet s service 0 Forward a, 1 SessionCreated 1 | Failed BadDispatchPath BadDispatchPath in s | 200, cookie 000000000000000000000000000000010000000000000001 / | ""
a Who /a | x Script does=open,stop; x: /* | listener | GET /a | filter x before Stop, 1 SessionCreated 1 | Done | 200, cookie 000000000000000000000000000000010000000000000001 / | ""
"#;

#[test]
fn a_session_is_held_within_dispatches(rt: HostRuntime) -> Result<(), Strays> {
    hold(&rt, &[HELD, HEARD], &Dispatches)
}
