//! The limits of heads and bodies: values just within and just beyond each.

use crate::counts::Counts;
use crate::streams::CHUNKED;
use sv_rows::{Strays, hold};

/// The columns: stream with repeated parts; its length; result of reading it, or the name of a fault that refuses it;
/// meaning of the end.
const ROWS: &str = r#"
-- the end of a head lies within its first 65,536 bytes
GET / HTTP/1.1\r\nHost: h\r\nA: \{65503*b}\r\n\r\n                          | 65535   | 1 read, 0 in bodies        | Clean
GET / HTTP/1.1\r\nHost: h\r\nA: \{65504*b}\r\n\r\n                          | 65536   | 1 read, 0 in bodies        | Clean
GET / HTTP/1.1\r\nHost: h\r\nA: \{65505*b}\r\n\r\n                          | 65537   | HeadTooLarge               | Spent
GET / HTTP/1.1\nHost: h\nA: \{65508*b}\n\n                                  | 65536   | 1 read, 0 in bodies        | Clean
GET / HTTP/1.1\nHost: h\nA: \{65509*b}\n\n                                  | 65537   | HeadTooLarge               | Spent
GET /\{65518*b} HTTP/1.0\r\n\r\n                                            | 65536   | 1 read, 0 in bodies        | Spent
GET /\{65519*b} HTTP/1.0\r\n\r\n                                            | 65537   | HeadTooLarge               | Spent
\r\nGET / HTTP/1.1\r\nHost: h\r\nA: \{65504*b}\r\n\r\n                      | 65538   | 1 read, 0 in bodies        | Clean
\r\nGET / HTTP/1.1\r\nHost: h\r\nA: \{65505*b}\r\n\r\n                      | 65539   | HeadTooLarge               | Spent
\{35000*\r\n}                                                               | 70000   | 0 read, 0 in bodies        | Clean
\{65535*b}                                                                  | 65535   | 0 read, 0 in bodies        | Truncated
\{65536*b}                                                                  | 65536   | HeadTooLarge               | Spent
GET /\{65530*b}                                                             | 65535   | 0 read, 0 in bodies        | Truncated
GET /\{65531*b}                                                             | 65536   | HeadTooLarge               | Spent
-- a body is no part of a head, and each head counts anew
POST / HTTP/1.1\r\nHost: h\r\nContent-Length: 3\r\nA: \{65484*b}\r\n\r\nabc | 65539   | 1 read, 3 in bodies        | Clean
POST / HTTP/1.1\r\nHost: h\r\nContent-Length: 3\r\nA: \{65485*b}\r\n\r\nabc | 65540   | HeadTooLarge               | Spent
POST / HTTP/1.1\r\nHost: h\r\nContent-Length: 9\r\n\r\n\{9*x}GET / HTTP/1.1\r\nHost: h\r\nA: \{65504*b}\r\n\r\n | 65592   | 2 read, 9 in bodies        | Clean
POST / HTTP/1.1\r\nHost: h\r\nContent-Length: 9\r\n\r\n\{9*x}GET / HTTP/1.1\r\nHost: h\r\nA: \{65505*b}\r\n\r\n | 65593   | HeadTooLarge               | Spent
-- the limit comes before what the head says
GET / HTTP/9.9\r\nA: \{65513*b}\r\n\r\n                                     | 65536   | BadHead                    | Spent
GET / HTTP/9.9\r\nA: \{65514*b}\r\n\r\n                                     | 65537   | HeadTooLarge               | Spent
-- a head has at most 128 field lines, which are counted where it ends
GET / HTTP/1.1\r\nHost: h\r\n\{127*A: b\r\n}\r\n                            | 789     | 1 read, 0 in bodies        | Clean
GET / HTTP/1.1\r\nHost: h\r\n\{128*A: b\r\n}\r\n                            | 795     | HeadTooLarge               | Spent
GET / HTTP/1.1\nHost: h\n\{127*A: b\n}\n                                    | 659     | 1 read, 0 in bodies        | Clean
GET / HTTP/1.1\nHost: h\n\{128*A: b\n}\n                                    | 664     | HeadTooLarge               | Spent
GET / HTTP/1.1\r\n\{128*A: b\r\n}\r\n                                       | 786     | BadHost                    | Spent
GET / HTTP/1.1\r\n\{129*A: b\r\n}\r\n                                       | 792     | HeadTooLarge               | Spent
GET / HTTP/1.1\r\n\{128*A\r\n}\r\n                                          | 402     | BadHead                    | Spent
GET / HTTP/1.1\r\n\{129*A\r\n}\r\n                                          | 405     | HeadTooLarge               | Spent
GET / HTTP/1.1\r\nHost: h\r\n\{200*A: b\r\n}                                | 1225    | 0 read, 0 in bodies        | Truncated
POST / HTTP/1.1\r\nHost: h\r\nContent-Length: 3\r\n\{126*A: b\r\n}\r\n\n\n\n | 806     | 1 read, 3 in bodies        | Clean
POST / HTTP/1.1\r\nHost: h\r\nContent-Length: 3\r\n\{127*A: b\r\n}\r\nabc   | 812     | HeadTooLarge               | Spent
-- a Host value, and the authority of an absolute form, have at most 255 bytes
GET / HTTP/1.1\r\nHost: \{255*h}\r\n\r\n                                    | 281     | 1 read, 0 in bodies        | Clean
GET / HTTP/1.1\r\nHost: \{256*h}\r\n\r\n                                    | 282     | BadHost                    | Spent
GET http://\{255*a}/ HTTP/1.1\r\nHost: h\r\n\r\n                            | 289     | 1 read, 0 in bodies        | Clean
GET http://\{256*a}/ HTTP/1.1\r\nHost: h\r\n\r\n                            | 290     | BadTarget                  | Spent
GET http://\{255*a} HTTP/1.1\r\nHost: h\r\n\r\n                             | 288     | 1 read, 0 in bodies        | Clean
GET http://\{256*a} HTTP/1.1\r\nHost: h\r\n\r\n                             | 289     | BadTarget                  | Spent
GET http://a/\{1000*b} HTTP/1.1\r\nHost: h\r\n\r\n                          | 1035    | 1 read, 0 in bodies        | Clean
GET http://a/ HTTP/1.1\r\nHost: \{256*h}\r\n\r\n                            | 290     | BadHost                    | Spent
-- a length has at most 18 digits
POST / HTTP/1.1\r\nHost: h\r\nContent-Length: \{17*0}3\r\n\r\nabc           | 67      | 1 read, 3 in bodies        | Clean
POST / HTTP/1.1\r\nHost: h\r\nContent-Length: \{18*0}3\r\n\r\nabc           | 68      | BadFraming                 | Spent
POST / HTTP/1.1\r\nHost: h\r\nContent-Length: \{18*9}\r\n\r\n               | 64      | BodyTooLarge               | Spent
POST / HTTP/1.1\r\nHost: h\r\nContent-Length: \{19*9}\r\n\r\n               | 65      | BadFraming                 | Spent
POST / HTTP/1.1\r\nHost: h\r\nContent-Length: \{1000*3, }3\r\n\r\nabc       | 3050    | 1 read, 3 in bodies        | Clean
POST / HTTP/1.1\r\nHost: h\r\nContent-Length: \{1000*3, }4\r\n\r\nabc       | 3050    | BadFraming                 | Spent
POST / HTTP/1.1\r\nHost: h\r\n\{127*Content-Length: 3\r\n}\r\nabc           | 2444    | 1 read, 3 in bodies        | Clean
POST / HTTP/1.1\r\nHost: h\r\nTransfer-Encoding: \{1000*, }chunked\r\n\r\n0\r\n\r\n | 2061    | 1 read, 0 in bodies        | Clean
POST / HTTP/1.1\r\nHost: h\r\nTransfer-Encoding: \{1000*gzip, }chunked\r\n\r\n | 6056    | UnknownCoding              | Spent
-- a body has at most 1,048,576 bytes
POST / HTTP/1.1\r\nHost: h\r\nContent-Length: 1048576\r\n\r\n\{1048575*x}   | 1048628 | 0 read, 0 in bodies        | Truncated
POST / HTTP/1.1\r\nHost: h\r\nContent-Length: 1048576\r\n\r\n\{1048576*x}   | 1048629 | 1 read, 1048576 in bodies  | Clean
POST / HTTP/1.1\r\nHost: h\r\nContent-Length: 1048576\r\n\r\n\{1048577*x}   | 1048630 | 1 read, 1048576 in bodies  | Truncated
POST / HTTP/1.1\r\nHost: h\r\nContent-Length: 1048577\r\n\r\n               | 53      | BodyTooLarge               | Spent
-- many requests one behind another
\{200*GET / HTTP/1.1\r\nHost: h\r\n\r\n}                                    | 5400    | 200 read, 0 in bodies      | Clean
\{200*POST / HTTP/1.1\r\nHost: h\r\nContent-Length: 3\r\n\r\nabc}           | 10000   | 200 read, 600 in bodies    | Clean
\{200*POST / HTTP/1.1\r\nHost: h\r\nTransfer-Encoding: chunked\r\n\r\n1\r\nx\r\n0\r\n\r\n} | 13400   | 200 read, 200 in bodies    | Clean
\{200*POST / HTTP/1.1\r\nHost: h\r\nContent-Length: 1\r\nExpect: 100-continue\r\n\r\nx} | 14000   | 200 read, 200 in bodies    | Clean
"#;

/// The same columns for the bytes after a head with a chunked body.
const CHUNK_ROWS: &str = r#"
-- a size line ends within 256 bytes
\{255*0}                                                                    | 255     | 0 read, 0 in bodies        | Truncated
\{256*0}                                                                    | 256     | BadFraming                 | Spent
\{255*x}                                                                    | 255     | 0 read, 0 in bodies        | Truncated
\{256*x}                                                                    | 256     | BadFraming                 | Spent
3;\{252*a}\r                                                                | 255     | 0 read, 0 in bodies        | Truncated
3;\{253*a}\r                                                                | 256     | BadFraming                 | Spent
3;\{252*a}\r\nabc\r\n0\r\n\r\n                                              | 266     | 1 read, 3 in bodies        | Clean
3;\{253*a}\r\nabc\r\n0\r\n\r\n                                              | 267     | BadFraming                 | Spent
3\{253* }\r\nabc\r\n0\r\n\r\n                                               | 266     | 1 read, 3 in bodies        | Clean
3\{254* }\r\nabc\r\n0\r\n\r\n                                               | 267     | BadFraming                 | Spent
3;\{252*a}\r\nabc\r\n3;\{252*b}\r\nabc\r\n0;\{252*c}\r\n\r\n                | 780     | 1 read, 6 in bodies        | Clean
1\r\nx\r\n\{255*0}                                                          | 261     | 0 read, 0 in bodies        | Truncated
1\r\nx\r\n\{256*0}                                                          | 262     | BadFraming                 | Spent
1\r\nx\r\n0;\{252*a}\r\n\r\n                                                | 264     | 1 read, 1 in bodies        | Clean
1\r\nx\r\n0;\{253*a}\r\n\r\n                                                | 265     | BadFraming                 | Spent
-- a size has at most 16 digits
\{16*0}\r\n\r\n                                                             | 20      | 1 read, 0 in bodies        | Clean
\{17*0}\r\n                                                                 | 19      | BadFraming                 | Spent
\{15*0}3\r\nabc\r\n\{16*0}\r\n\r\n                                          | 43      | 1 read, 3 in bodies        | Clean
\{16*0}3\r\n                                                                | 19      | BadFraming                 | Spent
\{16*F}                                                                     | 16      | 0 read, 0 in bodies        | Truncated
\{16*F}\r\n                                                                 | 18      | BodyTooLarge               | Spent
\{17*F}\r                                                                   | 18      | 0 read, 0 in bodies        | Truncated
\{17*F}\r\n                                                                 | 19      | BadFraming                 | Spent
-- the trailer section ends within 8,192 bytes
0\r\n\{8191*x}                                                              | 8194    | 0 read, 0 in bodies        | Truncated
0\r\n\{8192*x}                                                              | 8195    | HeadTooLarge               | Spent
0\r\n\{8188*x}\r\n\r                                                        | 8194    | 0 read, 0 in bodies        | Truncated
0\r\n\{8189*x}\r\n\r                                                        | 8195    | HeadTooLarge               | Spent
0\r\n\{8188*x}\r\n\r\n                                                      | 8195    | 1 read, 0 in bodies        | Clean
0\r\n\{8189*x}\r\n\r\n                                                      | 8196    | HeadTooLarge               | Spent
0\r\n\{1365*X: y\r\n}\r\n                                                   | 8195    | 1 read, 0 in bodies        | Clean
0\r\n\{1366*X: y\r\n}\r\n                                                   | 8201    | HeadTooLarge               | Spent
0\r\n\{4096*\r\r}                                                           | 8195    | HeadTooLarge               | Spent
0\r\n\{4096*\n\n}                                                           | 8195    | HeadTooLarge               | Spent
0;\{252*a}\r\n\{8188*x}\r\n\r\n                                             | 8448    | 1 read, 0 in bodies        | Clean
0\r\n\{8188*x}\r\n\r\nGET / HTTP/1.0\r\n\r\n                                | 8213    | 2 read, 0 in bodies        | Spent
-- the sizes of all chunks so far are at most 1,048,576
100000\r\n\{1048576*x}\r\n                                                  | 1048586 | 0 read, 0 in bodies        | Truncated
100000\r\n\{1048576*x}\r\n1\r                                               | 1048588 | 0 read, 0 in bodies        | Truncated
100000\r\n\{1048576*x}\r\n1\r\n                                             | 1048589 | BodyTooLarge               | Spent
100000\r\n\{1048576*x}\r\n\{16*F}\r\n                                       | 1048604 | BodyTooLarge               | Spent
100000\r\n\{1048576*x}\r\n0\r\n\r\n                                         | 1048591 | 1 read, 1048576 in bodies  | Clean
100000\r\n\{1048577*x}                                                      | 1048585 | 0 read, 0 in bodies        | Truncated
100000\r\n\{1048578*x}                                                      | 1048586 | BadFraming                 | Spent
fffff\r\n\{1048575*x}\r\n1\r\ny\r\n0\r\n\r\n                                | 1048595 | 1 read, 1048576 in bodies  | Clean
fffff\r\n\{1048575*x}\r\n2\r\n                                              | 1048587 | BodyTooLarge               | Spent
\{65536*10\r\n0123456789abcdef\r\n}0\r\n\r\n                                | 1441797 | 1 read, 1048576 in bodies  | Clean
\{65536*10\r\n0123456789abcdef\r\n}1\r\n                                    | 1441795 | BodyTooLarge               | Spent
\{10000*1;aaaaaaaaa\r\nx\r\n}0\r\n\r\n                                      | 160005  | 1 read, 10000 in bodies    | Clean
"#;

#[test]
fn the_limits_of_heads_and_bodies_hold_on_both_sides(rt: HostRuntime) -> Result<(), Strays> {
    hold(&rt, &[ROWS], &Counts { head: b"" })
}

#[test]
fn the_limits_of_bodies_in_chunks_hold_on_both_sides(rt: HostRuntime) -> Result<(), Strays> {
    hold(&rt, &[CHUNK_ROWS], &Counts { head: CHUNKED.head })
}
