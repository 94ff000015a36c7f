//! Chunked bodies, and the items that an inbox reads from them.

use crate::streams::CHUNKED;
use sv_rows::{Strays, hold};

/// The columns: the bytes after a head with a chunked body; items; meaning of the end. `@` means the message without
/// its body.
const ROWS: &str = r#"
-- RFC 9112, section 7.1: chunks, each a size line, its bytes and CRLF, behind them a last chunk of size 0
0\r\n\r\n                                    | @                              | Clean
3\r\nabc\r\n0\r\n\r\n                        | @abc                           | Clean
3;a=b\r\nabc\r\n0\r\nX: y\r\n\r\n            | @abc                           | Clean
1\r\na\r\n2\r\nbc\r\n0\r\n\r\n               | @abc                           | Clean
1\r\na\r\n1\r\na\r\n1\r\na\r\n0\r\n\r\n      | @aaa                           | Clean
6\r\n\r\n0\r\n\r\r\n0\r\n\r\n                | @\r\n0\r\n\r                   | Clean
5\r\n\x00\xFF\x7F\n\r\r\n0\r\n\r\n           | @\x00\xFF\x7F\n\r              | Clean
0\r\n\r\nGET /2 HTTP/1.1\r\nHost: h\r\n\r\n  | @, GET /2 1.1 keep [host=h]    | Clean
1\r\nx\r\n0\r\n\r\n\r\n\nGET /2 HTTP/1.1\r\nHost: h\r\n\r\n | @x, GET /2 1.1 keep [host=h]   | Clean
1\r\nx\r\n0\r\n\r\n1\r\nx\r\n0\r\n\r\n       | @x, refuse BadHead             | Spent
0\r\n\r\n0\r\n\r\n                           | @, refuse BadHead              | Spent
3\r\nabc\r\n0\r\n\r\nx                       | @abc                           | Truncated

-- a size is 1 to 16 hexadecimal digits, in any case
a\r\n0123456789\r\n0\r\n\r\n                 | @0123456789                    | Clean
A\r\n0123456789\r\n0\r\n\r\n                 | @0123456789                    | Clean
0b\r\n0123456789a\r\n0\r\n\r\n               | @0123456789a                   | Clean
10\r\n0123456789abcdef\r\n0\r\n\r\n          | @0123456789abcdef              | Clean
1F\r\n0123456789abcdef0123456789abcde\r\n0\r\n\r\n | @0123456789abcdef0123456789abcde | Clean
0000000000000003\r\nabc\r\n0\r\n\r\n         | @abc                           | Clean
00\r\n\r\n                                   | @                              | Clean
0000000000000000\r\n\r\n                     | @                              | Clean
00000000000000003\r\n                        | refuse BadFraming              | Spent
00000000000000000\r\n                        | refuse BadFraming              | Spent
10000000000000000\r\n                        | refuse BadFraming              | Spent
FFFFFFFFFFFFFFFFF\r\n                        | refuse BadFraming              | Spent
g\r\n                                        | refuse BadFraming              | Spent
3g\r\n                                       | refuse BadFraming              | Spent
+3\r\nabc\r\n                                | refuse BadFraming              | Spent
-3\r\nabc\r\n                                | refuse BadFraming              | Spent
-0\r\n\r\n                                   | refuse BadFraming              | Spent
0x3\r\nabc\r\n                               | refuse BadFraming              | Spent
3.0\r\nabc\r\n                               | refuse BadFraming              | Spent
3,3\r\nabc\r\n                               | refuse BadFraming              | Spent
1_0\r\n0123456789abcdef\r\n                  | refuse BadFraming              | Spent
\x203\r\nabc\r\n                             | refuse BadFraming              | Spent
\t3\r\nabc\r\n                               | refuse BadFraming              | Spent
3 3\r\nabc\r\n                               | refuse BadFraming              | Spent
"3"\r\nabc\r\n                               | refuse BadFraming              | Spent
\xEF\xBC\x93\r\nabc\r\n                      | refuse BadFraming              | Spent
\x00\r\n                                     | refuse BadFraming              | Spent
\r\n                                         | refuse BadFraming              | Spent
\r\n3\r\nabc\r\n                             | refuse BadFraming              | Spent
;\r\n                                        | refuse BadFraming              | Spent
;a=b\r\nabc\r\n                              | refuse BadFraming              | Spent
abc                                          | ""                             | Truncated
xyz                                          | ""                             | Truncated
x\r                                          | ""                             | Truncated
""                                           | ""                             | Truncated

-- section 7.1.1: blanks and extensions behind the size, any bytes but CR and LF, are dropped
3 \r\nabc\r\n0\r\n\r\n                       | @abc                           | Clean
3\t \t\r\nabc\r\n0 \r\n\r\n                  | @abc                           | Clean
3;\r\nabc\r\n0;\r\n\r\n                      | @abc                           | Clean
3 ;a\r\nabc\r\n0\t;b=c\r\n\r\n               | @abc                           | Clean
3;a;b="c;d"\r\nabc\r\n0;x="\\""\r\n\r\n      | @abc                           | Clean
3;a = b\r\nabc\r\n0\r\n\r\n                  | @abc                           | Clean
3;\x00\x01\x7F\x80\xFF\r\nabc\r\n0\r\n\r\n   | @abc                           | Clean
3;5\r\nabc\r\n0;3\r\n\r\n                    | @abc                           | Clean
3 x\r\nabc\r\n                               | refuse BadFraming              | Spent
3 x;a\r\nabc\r\n                             | refuse BadFraming              | Spent
3\x0B\r\nabc\r\n                             | refuse BadFraming              | Spent
3\x00;a\r\nabc\r\n                           | refuse BadFraming              | Spent
3;a\rb\r\nabc\r\n                            | refuse BadFraming              | Spent
3;a\r\r\nabc\r\n                             | refuse BadFraming              | Spent
3;a="\r\n"\r\nabc\r\n0\r\n\r\n               | refuse BadFraming              | Spent

-- a size line ends with CRLF, at its first LF
3\nabc\r\n0\r\n\r\n                          | refuse BadFraming              | Spent
3;a\nabc\r\n0\r\n\r\n                        | refuse BadFraming              | Spent
3 \nabc\r\n0\r\n\r\n                         | refuse BadFraming              | Spent
3\r\r\nabc\r\n0\r\n\r\n                      | refuse BadFraming              | Spent
3\r abc\r\n0\r\n\r\n                         | refuse BadFraming              | Spent
\n                                           | refuse BadFraming              | Spent
0\n\r\n                                      | refuse BadFraming              | Spent
0\n\n                                        | refuse BadFraming              | Spent
3                                            | ""                             | Truncated
3\r                                          | ""                             | Truncated
3\rx                                         | ""                             | Truncated
3;a                                          | ""                             | Truncated

-- CRLF stands behind a chunk's bytes, and is judged where both bytes are there
3\r\n                                        | ""                             | Truncated
3\r\nab                                      | ""                             | Truncated
3\r\nabc                                     | ""                             | Truncated
3\r\nabc\r                                   | ""                             | Truncated
3\r\nabcx                                    | ""                             | Truncated
3\r\nabc\n                                   | ""                             | Truncated
3\r\nabc\r\n                                 | ""                             | Truncated
3\r\nabcxy                                   | refuse BadFraming              | Spent
3\r\nabc\rx                                  | refuse BadFraming              | Spent
3\r\nabcx\n                                  | refuse BadFraming              | Spent
3\r\nabc\n\r                                 | refuse BadFraming              | Spent
3\r\nabc\n\n                                 | refuse BadFraming              | Spent
3\r\nabc\r\r\n0\r\n\r\n                      | refuse BadFraming              | Spent
3\r\nabc\n0\r\n\r\n                          | refuse BadFraming              | Spent
3\r\nabc0\r\n\r\n                            | refuse BadFraming              | Spent
3\r\nabcd\r\n0\r\n\r\n                       | refuse BadFraming              | Spent
3\r\nab\r\n0\r\n\r\n                         | refuse BadFraming              | Spent
3\r\nabc\r\n\r\n0\r\n\r\n                    | refuse BadFraming              | Spent
3\r\nabc\r\nx\r\n                            | refuse BadFraming              | Spent
3\r\nabc\r\n3\r\nab                          | ""                             | Truncated

-- section 7.1.2: the trailer section is CRLF, or all through the first empty line, and is dropped
0\r\nX: y\r\n\r\n                            | @                              | Clean
0\r\nX: y\r\nZ: w\r\nX: y\r\n\r\n            | @                              | Clean
1\r\na\r\n0\r\nContent-Length: 5\r\n\r\n     | @a                             | Clean
0\r\nHost: a\r\nConnection: close\r\n\r\nGET /2 HTTP/1.1\r\nHost: h\r\n\r\n | @, GET /2 1.1 keep [host=h]    | Clean
0\r\nGET /2 HTTP/1.1\r\nHost: h\r\n\r\n      | @                              | Clean
0\r\nGET /2 HTTP/1.1\r\nHost: h\r\n\r\nGET /3 HTTP/1.1\r\nHost: h\r\n\r\n | @, GET /3 1.1 keep [host=h]    | Clean
0;a\r\nnot a field\r\n folded\r\n\r\n        | @                              | Clean
0\r\n\x00(\xFF\r\n\r\n                       | @                              | Clean
0\r\n3\r\nabc\r\n\r\n                        | @                              | Clean
0\r\n\r\r\n\r\n                              | @                              | Clean
0\r\n\nX\r\n\r\n                             | @                              | Clean
0\r\nX: y\n\nZ: w\n\r\n\r\n                  | @                              | Clean
0\r\nX: y\r\n\r\n\r\n                        | @                              | Clean
0                                            | ""                             | Truncated
0\r                                          | ""                             | Truncated
0\r\n                                        | ""                             | Truncated
0\r\n\r                                      | ""                             | Truncated
0\r\n\n                                      | ""                             | Truncated
0\r\nX: y\r\n                                | ""                             | Truncated
0\r\nX: y\r\n\r                              | ""                             | Truncated
0\r\nX: y\n\n                                | ""                             | Truncated
0\r\nX: y\n\r\n                              | ""                             | Truncated

-- the sizes so far are above 1,048,576 where a size line ends
100000\r\n                                   | ""                             | Truncated
100001                                       | ""                             | Truncated
100001\r                                     | ""                             | Truncated
100001\r\n                                   | refuse BodyTooLarge            | Spent
000000000100001;a\r\n                        | refuse BodyTooLarge            | Spent
FFFFFFFFFFFFFFFF\r\n                         | refuse BodyTooLarge            | Spent
1\r\nx\r\n100000\r\n                         | refuse BodyTooLarge            | Spent
1\r\nx\r\nFFFFFFFFFFFFFFFF\r\n               | refuse BodyTooLarge            | Spent
2\r\nxy\r\n8000000000000000\r\n              | refuse BodyTooLarge            | Spent
1\r\nx\r\nfffff\r\n                          | ""                             | Truncated
100001 x\r\n                                 | refuse BadFraming              | Spent
100001\n                                     | refuse BadFraming              | Spent
"#;

#[test]
fn a_body_in_chunks_gives_the_same_items_however_it_is_cut(rt: HostRuntime) -> Result<(), Strays> {
    hold(&rt, &[ROWS], &CHUNKED)
}
