//! Requests without bodies, and the items that an inbox reads from them.

use std::alloc::Global;
use sv_wire::{Ended, Inbox};

/// The columns: stream; items; meaning of the end.
pub const ROWS: &str = r#"
-- RFC 9112, section 2.1: request line, fields, empty line
GET / HTTP/1.1\r\nHost: h\r\n\r\n                          | GET / 1.1 keep [host=h]                | Clean
GET /a/b?c=d HTTP/1.1\r\nHost: h\r\n\r\n                   | GET /a/b?c=d 1.1 keep [host=h]         | Clean
GET / HTTP/1.1\r\nHost: h\r\nA: b\r\na: C\r\n\r\n          | GET / 1.1 keep [host=h a=b a=C]        | Clean
GET / HTTP/1.0\r\n\r\n                                     | GET / 1.0 close []                     | Spent

-- section 2.2: a line may end in LF alone
GET / HTTP/1.1\nHost: h\n\n                                | GET / 1.1 keep [host=h]                | Clean
GET / HTTP/1.1\r\nHost: h\n\r\n                            | GET / 1.1 keep [host=h]                | Clean
GET / HTTP/1.1\nHost: h\r\n\n                              | GET / 1.1 keep [host=h]                | Clean
GET / HTTP/1.0\n\n                                         | GET / 1.0 close []                     | Spent

-- section 2.2: empty lines before a request line are dropped; a bare CR is no empty line
\r\nGET / HTTP/1.1\r\nHost: h\r\n\r\n                      | GET / 1.1 keep [host=h]                | Clean
\n\r\n\n\r\nGET / HTTP/1.1\r\nHost: h\r\n\r\n              | GET / 1.1 keep [host=h]                | Clean
GET / HTTP/1.1\r\nHost: h\r\n\r\n\r\n\r\n                  | GET / 1.1 keep [host=h]                | Clean
\r\n\r\n                                                   | ""                                     | Clean
\n                                                         | ""                                     | Clean
""                                                         | ""                                     | Clean
\r                                                         | ""                                     | Truncated
\r\n\r                                                     | ""                                     | Truncated
GET / HTTP/1.1\r\nHost: h\r\n\r\n\r                        | GET / 1.1 keep [host=h]                | Truncated
\rGET / HTTP/1.1\r\nHost: h\r\n\r\n                        | refuse BadHead                         | Spent
\r\r\nGET / HTTP/1.1\r\nHost: h\r\n\r\n                    | refuse BadHead                         | Spent
\r\n\rGET / HTTP/1.1\r\nHost: h\r\n\r\n                    | refuse BadHead                         | Spent

-- RFC 9110, section 9.1: a method is a token, and its case counts
get / HTTP/1.1\r\nHost: h\r\n\r\n                          | get / 1.1 keep [host=h]                | Clean
M-SEARCH / HTTP/1.1\r\nHost: h\r\n\r\n                     | M-SEARCH / 1.1 keep [host=h]           | Clean
!#$%&'*+-.^_`~ / HTTP/1.1\r\nHost: h\r\n\r\n               | !#$%&'*+-.^_`~ / 1.1 keep [host=h]     | Clean
A-METHOD-OF-MANY-LETTERS / HTTP/1.1\r\nHost: h\r\n\r\n     | A-METHOD-OF-MANY-LETTERS / 1.1 keep [host=h] | Clean
G(T / HTTP/1.1\r\nHost: h\r\n\r\n                          | refuse BadHead                         | Spent
G\xC3\xA9T / HTTP/1.1\r\nHost: h\r\n\r\n                   | refuse BadHead                         | Spent

-- RFC 9112, section 3: single spaces in the request line, and versions 1.0 and 1.1
GET  / HTTP/1.1\r\nHost: h\r\n\r\n                         | refuse BadHead                         | Spent
GET /  HTTP/1.1\r\nHost: h\r\n\r\n                         | refuse BadHead                         | Spent
GET / HTTP/1.1 \r\nHost: h\r\n\r\n                         | refuse BadHead                         | Spent
GET\t/ HTTP/1.1\r\nHost: h\r\n\r\n                         | refuse BadHead                         | Spent
\x20GET / HTTP/1.1\r\nHost: h\r\n\r\n                      | refuse BadHead                         | Spent
GET /\r\nHost: h\r\n\r\n                                   | refuse BadHead                         | Spent
GET / HTTP/1.2\r\nHost: h\r\n\r\n                          | refuse BadHead                         | Spent
GET / HTTP/2.0\r\nHost: h\r\n\r\n                          | refuse BadHead                         | Spent
GET / HTTP/0.9\r\nHost: h\r\n\r\n                          | refuse BadHead                         | Spent
GET / HTTP/1.10\r\nHost: h\r\n\r\n                         | refuse BadHead                         | Spent
GET / http/1.1\r\nHost: h\r\n\r\n                          | refuse BadHead                         | Spent
GET / HTTP/1.1\rHost: h\r\n\r\n                            | refuse BadHead                         | Spent
abc\r\n\r\n                                                | refuse BadHead                         | Spent

-- a target is visible bytes in UTF-8, and is handed on as it was sent
GET /a#b\\c HTTP/1.1\r\nHost: h\r\n\r\n                    | GET /a#b\\c 1.1 keep [host=h]          | Clean
GET //%zz/../;x HTTP/1.1\r\nHost: h\r\n\r\n                | GET //%zz/../;x 1.1 keep [host=h]      | Clean
GET /\xC3\xA9 HTTP/1.1\r\nHost: h\r\n\r\n                  | GET /\xC3\xA9 1.1 keep [host=h]        | Clean
GET /\xFF HTTP/1.1\r\nHost: h\r\n\r\n                      | refuse BadHead                         | Spent
GET /\x7F HTTP/1.1\r\nHost: h\r\n\r\n                      | refuse BadHead                         | Spent
GET /\x01 HTTP/1.1\r\nHost: h\r\n\r\n                      | refuse BadHead                         | Spent
GET /a b HTTP/1.1\r\nHost: h\r\n\r\n                       | refuse BadHead                         | Spent

-- section 5: field lines; values without the spaces and tabs around them
GET / HTTP/1.1\r\nHost: h\r\nA: \t b c \t \r\n\r\n         | GET / 1.1 keep [host=h a=b c]          | Clean
GET / HTTP/1.1\r\nHost:h\r\nA:b\r\n\r\n                    | GET / 1.1 keep [host=h a=b]            | Clean
GET / HTTP/1.1\r\nHost: h\r\nA:\r\nB: \t\r\n\r\n           | GET / 1.1 keep [host=h a= b=]          | Clean
GET / HTTP/1.1\r\nHost: h\r\nA: b\tc: d\r\n\r\n            | GET / 1.1 keep [host=h a=b\tc: d]      | Clean
GET / HTTP/1.1\r\nHost: h\r\nA: \xFF\xC3\r\n\r\n           | GET / 1.1 keep [host=h a=\xFF\xC3]     | Clean
GET / HTTP/1.1\r\nHost : h\r\n\r\n                         | refuse BadHead                         | Spent
GET / HTTP/1.1\r\n Host: h\r\n\r\n                         | refuse BadHead                         | Spent
GET / HTTP/1.1\r\nHost: h\r\nA: b\r\n c\r\n\r\n            | refuse BadHead                         | Spent
GET / HTTP/1.1\r\nHost: h\r\n: b\r\n\r\n                   | refuse BadHead                         | Spent
GET / HTTP/1.1\r\nHost: h\r\nA\r\n\r\n                     | refuse BadHead                         | Spent
GET / HTTP/1.1\r\nHost: h\r\nA B: c\r\n\r\n                | refuse BadHead                         | Spent
GET / HTTP/1.1\r\nHost: h\r\nA: b\x00\r\n\r\n              | refuse BadHead                         | Spent
GET / HTTP/1.1\r\nHost: h\r\nA: b\x7F\r\n\r\n              | refuse BadHead                         | Spent
GET / HTTP/1.1\r\nHost: h\r\nA: b\rc\r\n\r\n               | refuse BadHead                         | Spent

-- section 3.2: exactly one valid Host field in 1.1, at most one in 1.0
GET / HTTP/1.1\r\n\r\n                                     | refuse BadHost                         | Spent
GET / HTTP/1.1\r\nA: b\r\n\r\n                             | refuse BadHost                         | Spent
GET / HTTP/1.1\r\nHost: h\r\nHost: h\r\n\r\n               | refuse BadHost                         | Spent
GET / HTTP/1.1\r\nHost: h\r\nA: b\r\nhOST: g\r\n\r\n       | refuse BadHost                         | Spent
GET / HTTP/1.1\r\nHOST: h\r\n\r\n                          | GET / 1.1 keep [host=h]                | Clean
GET / HTTP/1.0\r\nHost: h\r\n\r\n                          | GET / 1.0 close [host=h]               | Spent
GET / HTTP/1.0\r\nHost: h\r\nHost: h\r\n\r\n               | refuse BadHost                         | Spent
GET / HTTP/1.0\r\nHost: a/b\r\n\r\n                        | refuse BadHost                         | Spent
GET / HTTP/1.1\r\nHost:\r\n\r\n                            | GET / 1.1 keep [host=]                 | Clean
GET / HTTP/1.1\r\nHost: a.example:8080\r\n\r\n             | GET / 1.1 keep [host=a.example:8080]   | Clean
GET / HTTP/1.1\r\nHost: [::1]:80\r\n\r\n                   | GET / 1.1 keep [host=[::1]:80]         | Clean
GET / HTTP/1.1\r\nHost: -._~%!$&'()*+,;=:[]\r\n\r\n        | GET / 1.1 keep [host=-._~%!$&'()*+,;=:[]] | Clean
GET / HTTP/1.1\r\nHost: azAZ09\r\n\r\n                     | GET / 1.1 keep [host=azAZ09]           | Clean
GET / HTTP/1.1\r\nHost: u@h\r\n\r\n                        | refuse BadHost                         | Spent
GET / HTTP/1.1\r\nHost: h/\r\n\r\n                         | refuse BadHost                         | Spent
GET / HTTP/1.1\r\nHost: h?\r\n\r\n                         | refuse BadHost                         | Spent
GET / HTTP/1.1\r\nHost: h#\r\n\r\n                         | refuse BadHost                         | Spent
GET / HTTP/1.1\r\nHost: a b\r\n\r\n                        | refuse BadHost                         | Spent
GET / HTTP/1.1\r\nHost: a\tb\r\n\r\n                       | refuse BadHost                         | Spent
GET / HTTP/1.1\r\nHost: "h"\r\n\r\n                        | refuse BadHost                         | Spent
GET / HTTP/1.1\r\nHost: a\\b\r\n\r\n                       | refuse BadHost                         | Spent
GET / HTTP/1.1\r\nHost: \xC3\xA9\r\n\r\n                   | refuse BadHost                         | Spent

-- section 3.2: a target in no form that is served
GET * HTTP/1.1\r\nHost: h\r\n\r\n                          | refuse BadTarget                       | Spent
CONNECT h:80 HTTP/1.1\r\nHost: h\r\n\r\n                   | refuse BadTarget                       | Spent
GET a HTTP/1.1\r\nHost: h\r\n\r\n                          | refuse BadTarget                       | Spent
GET ?q HTTP/1.0\r\n\r\n                                    | refuse BadTarget                       | Spent

-- section 9.3: a 1.1 connection goes on unless a Connection field holds the token close; a 1.0 connection does not
GET / HTTP/1.1\r\nHost: h\r\nConnection: close\r\n\r\n     | GET / 1.1 close [host=h connection=close] | Spent
GET / HTTP/1.1\r\nHost: h\r\nConnection: CloSe\r\n\r\n     | GET / 1.1 close [host=h connection=CloSe] | Spent
GET / HTTP/1.1\r\nHost: h\r\nConnection: a, close\r\n\r\n  | GET / 1.1 close [host=h connection=a, close] | Spent
GET / HTTP/1.1\r\nHost: h\r\nConnection: ,close\t,a\r\n\r\n | GET / 1.1 close [host=h connection=,close\t,a] | Spent
GET / HTTP/1.1\r\nHost: h\r\nConnection: a\r\nConnection: close\r\n\r\n | GET / 1.1 close [host=h connection=a connection=close] | Spent
GET / HTTP/1.1\r\nHost: h\r\nConnection: closed, xclose\r\n\r\n | GET / 1.1 keep [host=h connection=closed, xclose] | Clean
GET / HTTP/1.1\r\nHost: h\r\nConnection: keep-alive\r\n\r\n | GET / 1.1 keep [host=h connection=keep-alive] | Clean
GET / HTTP/1.1\r\nHost: h\r\nConnection:\r\n\r\n           | GET / 1.1 keep [host=h connection=]    | Clean
GET / HTTP/1.1\r\nHost: h\r\nClose: close\r\n\r\n          | GET / 1.1 keep [host=h close=close]    | Clean
GET / HTTP/1.0\r\nConnection: keep-alive\r\n\r\n           | GET / 1.0 close [connection=keep-alive] | Spent

-- of several faults in one head: unread head, Host, target, framing
GET * HTTP/1.2\r\n\r\n                                     | refuse BadHead                         | Spent
GET / HTTP/1.1\r\nHost: a b\r\nA\r\n\r\n                   | refuse BadHead                         | Spent
GET * HTTP/1.1\r\n\r\n                                     | refuse BadHost                         | Spent
GET / HTTP/1.1\r\nContent-Length: 3\r\n\r\n                | refuse BadHost                         | Spent
GET * HTTP/1.1\r\nHost: h\r\nContent-Length: 3\r\n\r\n     | refuse BadTarget                       | Spent

-- section 9.3.2: requests sent one behind another, and what follows one that ends the stream
GET /1 HTTP/1.1\r\nHost: h\r\n\r\nGET /2 HTTP/1.1\r\nHost: h\r\n\r\n | GET /1 1.1 keep [host=h], GET /2 1.1 keep [host=h] | Clean
GET /1 HTTP/1.1\nHost: h\n\n\r\n\nGET /2 HTTP/1.0\r\n\r\n  | GET /1 1.1 keep [host=h], GET /2 1.0 close [] | Spent
GET /1 HTTP/1.1\r\nHost: h\r\n\r\nGET /2 HTTP/1.1\r\n\r\n  | GET /1 1.1 keep [host=h], refuse BadHost | Spent
GET /1 HTTP/1.1\r\nHost: h\r\n\r\nGET /2 HTTP/1.1\r\nHost: h\r\n | GET /1 1.1 keep [host=h]         | Truncated
GET /1 HTTP/1.1\r\nHost: h\r\n\r\nx                        | GET /1 1.1 keep [host=h]               | Truncated
GET /1 HTTP/1.0\r\n\r\nGET /2 HTTP/1.1\r\nHost: h\r\n\r\n  | GET /1 1.0 close []                    | Spent
GET /1 HTTP/1.1\r\n\r\nGET /2 HTTP/1.1\r\nHost: h\r\n\r\n  | refuse BadHost                         | Spent
GET /1 HTTP/1.1\r\nHost: h\r\nConnection: close\r\n\r\nx   | GET /1 1.1 close [host=h connection=close] | Spent

-- a head that has not come whole is no item, however faulty it is
GET / HTTP/1.1\r\nHost: h\r\n                              | ""                                     | Truncated
GET / HTTP/1.1\r\nHost: h\r\n\r                            | ""                                     | Truncated
GET / HTTP/9\r\nx                                          | ""                                     | Truncated
\x00                                                       | ""                                     | Truncated
G                                                          | ""                                     | Truncated
"#;

#[test]
fn an_inbox_is_spent_after_its_end(rt: HostRuntime) {
    let mut inbox = Inbox::new(rt.alloc());
    assert!(rt; gives_nothing(rt.alloc(), &mut inbox, b"GET / HT"));
    assert!(rt; matches!(inbox.end(), Ended::Truncated));
    assert!(rt; gives_nothing(rt.alloc(), &mut inbox, b"GET / HTTP/1.1\r\nHost: h\r\n\r\n"));
    assert!(rt; matches!(inbox.end(), Ended::Spent));
    assert!(rt; matches!(inbox.end(), Ended::Spent));
}

/// Returns whether an inbox accepts a piece and reads no item from it.
fn gives_nothing(alloc: Global, inbox: &mut Inbox, piece: &[u8]) -> bool {
    let mut items = Vec::new(alloc);
    inbox.feed(piece, &mut items).is_ok() && items.is_empty()
}
