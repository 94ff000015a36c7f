//! Requests with bodies, in every form of target, and the items that an inbox reads from them.

use crate::streams::PLAIN;
use crate::wire_items;
use sv_rows::{Strays, hold};

/// The columns: stream; items; meaning of the end.
const ROWS: &str = r#"
-- RFC 9112, section 2.2: LF alone may end the lines of a head, and what stands behind the first empty line is the body
POST / HTTP/1.1\nHost: h\nContent-Length: 3\n\nabc                         | POST / 1.1 keep [host=h content-length=3]abc   | Clean
POST / HTTP/1.1\nHost: h\nContent-Length: 3\n\n\nab                        | POST / 1.1 keep [host=h content-length=3]\nab  | Clean
POST / HTTP/1.1\r\nHost: h\r\nContent-Length: 3\r\n\nabc                   | POST / 1.1 keep [host=h content-length=3]abc   | Clean
POST / HTTP/1.1\nHost: h\nContent-Length: 3\n\r\nabc                       | POST / 1.1 keep [host=h content-length=3]abc   | Clean
POST / HTTP/1.1\r\nHost: h\r\nContent-Length: 4\r\n\r\n\r\n\r\n            | POST / 1.1 keep [host=h content-length=4]\r\n\r\n | Clean
POST / HTTP/1.1\r\nHost: h\r\nContent-Length: 3\r\r\n\r\nabc               | refuse BadHead                                 | Spent
POST / HTTP/1.1\r\nHost: h\r\nContent-Length: 3\r\n\r\r\n\r\n              | refuse BadHead                                 | Spent

-- section 2.2: empty lines between a body and the next request line are dropped
POST / HTTP/1.1\r\nHost: h\r\nContent-Length: 3\r\n\r\nabc\r\n             | POST / 1.1 keep [host=h content-length=3]abc   | Clean
POST / HTTP/1.1\r\nHost: h\r\nContent-Length: 3\r\n\r\nabc\n\r\n\n         | POST / 1.1 keep [host=h content-length=3]abc   | Clean
POST / HTTP/1.1\r\nHost: h\r\nContent-Length: 3\r\n\r\nabc\r               | POST / 1.1 keep [host=h content-length=3]abc   | Truncated
POST / HTTP/1.1\r\nHost: h\r\nContent-Length: 3\r\n\r\nabc\r\nGET /2 HTTP/1.1\r\nHost: h\r\n\r\n | POST / 1.1 keep [host=h content-length=3]abc, GET /2 1.1 keep [host=h] | Clean
POST / HTTP/1.1\r\nHost: h\r\nContent-Length: 3\r\n\r\nabc\rGET /2 HTTP/1.1\r\nHost: h\r\n\r\n | POST / 1.1 keep [host=h content-length=3]abc, refuse BadHead | Spent

-- sections 2.2 and 5.2: no blank line before the first field, and no obsolete folding
GET / HTTP/1.1\r\n \r\nHost: h\r\n\r\n                                     | refuse BadHead                                 | Spent
GET / HTTP/1.1\r\nHost: h\r\n \r\n\r\n                                     | refuse BadHead                                 | Spent
GET / HTTP/1.1\r\n\tHost: h\r\n\r\n                                        | refuse BadHead                                 | Spent
GET / HTTP/1.1\r\nHost:\r\n h\r\n\r\n                                      | refuse BadHead                                 | Spent
GET / HTTP/1.1\nHost: h\n\tg\n\n                                           | refuse BadHead                                 | Spent
POST / HTTP/1.1\r\nHost: h\r\nContent-Length:\r\n 3\r\n\r\nabc             | refuse BadHead                                 | Spent
POST / HTTP/1.1\r\nHost: h\r\nA: b\r\n Transfer-Encoding: chunked\r\n\r\n  | refuse BadHead                                 | Spent
POST / HTTP/1.1\r\nHost: h\r\nTransfer-Encoding: gzip,\r\n\tchunked\r\n\r\n | refuse BadHead                                 | Spent

-- section 2.3: a version is `HTTP/1.0` or `HTTP/1.1`, letter by letter
GET / HTTP/1\r\nHost: h\r\n\r\n                                            | refuse BadHead                                 | Spent
GET / HTTP/1.\r\nHost: h\r\n\r\n                                           | refuse BadHead                                 | Spent
GET / HTTP/11\r\nHost: h\r\n\r\n                                           | refuse BadHead                                 | Spent
GET / HTTP/1,1\r\nHost: h\r\n\r\n                                          | refuse BadHead                                 | Spent
GET / HTTP/01.1\r\nHost: h\r\n\r\n                                         | refuse BadHead                                 | Spent
GET / HTTP/1.01\r\nHost: h\r\n\r\n                                         | refuse BadHead                                 | Spent
GET / HTTP/1.1.1\r\nHost: h\r\n\r\n                                        | refuse BadHead                                 | Spent
GET / HTTP/1.1\t\r\nHost: h\r\n\r\n                                        | refuse BadHead                                 | Spent
GET / HTTP/3.0\r\nHost: h\r\n\r\n                                          | refuse BadHead                                 | Spent
GET / HTTP /1.1\r\nHost: h\r\n\r\n                                         | refuse BadHead                                 | Spent
GET / HTTPS/1.1\r\nHost: h\r\n\r\n                                         | refuse BadHead                                 | Spent
GET / Http/1.1\r\nHost: h\r\n\r\n                                          | refuse BadHead                                 | Spent
GET / \r\nHost: h\r\n\r\n                                                  | refuse BadHead                                 | Spent
GET /\r\n\r\n                                                              | refuse BadHead                                 | Spent
GET HTTP/1.1\r\nHost: h\r\n\r\n                                            | refuse BadHead                                 | Spent
PRI * HTTP/2.0\r\n\r\nSM\r\n\r\n                                           | refuse BadHead                                 | Spent

-- section 3.2 and RFC 3986, section 3.2: a host is of the unreserved bytes, `%`, `:`, brackets and sub-delims
GET / HTTP/1.1\r\nHost: h:\r\n\r\n                                         | GET / 1.1 keep [host=h:]                       | Clean
GET / HTTP/1.1\r\nHost: :80\r\n\r\n                                        | GET / 1.1 keep [host=:80]                      | Clean
GET / HTTP/1.1\r\nHost: a,b;c=d\r\n\r\n                                    | GET / 1.1 keep [host=a,b;c=d]                  | Clean
GET / HTTP/1.1\r\nHost:\t h \t\r\n\r\n                                     | GET / 1.1 keep [host=h]                        | Clean
GET / HTTP/1.1\r\nX-Host: g\r\nhost: h\r\n\r\n                             | GET / 1.1 keep [x-host=g host=h]               | Clean
GET / HTTP/1.1\r\nHost: h\r\nHost:\r\n\r\n                                 | refuse BadHost                                 | Spent
GET / HTTP/1.1\r\nHost:\r\nHost:\r\n\r\n                                   | refuse BadHost                                 | Spent
GET / HTTP/1.1\r\nX-Host: h\r\n\r\n                                        | refuse BadHost                                 | Spent
GET / HTTP/1.1\r\nHost: <h\r\n\r\n                                         | refuse BadHost                                 | Spent
GET / HTTP/1.1\r\nHost: h>\r\n\r\n                                         | refuse BadHost                                 | Spent
GET / HTTP/1.1\r\nHost: h^\r\n\r\n                                         | refuse BadHost                                 | Spent
GET / HTTP/1.1\r\nHost: h`\r\n\r\n                                         | refuse BadHost                                 | Spent
GET / HTTP/1.1\r\nHost: {h\r\n\r\n                                         | refuse BadHost                                 | Spent
GET / HTTP/1.1\r\nHost: h}\r\n\r\n                                         | refuse BadHost                                 | Spent
GET / HTTP/1.1\r\nHost: h\x7Cg\r\n\r\n                                     | refuse BadHost                                 | Spent
GET / HTTP/1.1\r\nHost: h\xA0\r\n\r\n                                      | refuse BadHost                                 | Spent
GET / HTTP/1.1\r\nHost: h\x0B\r\n\r\n                                      | refuse BadHead                                 | Spent
GET / HTTP/1.0\r\nHost:\r\n\r\n                                            | GET / 1.0 close [host=]                        | Spent
GET / HTTP/1.0\r\nHost: h\r\nHost:\r\n\r\n                                 | refuse BadHost                                 | Spent
GET / HTTP/1.0\r\nHost: u@h\r\n\r\n                                        | refuse BadHost                                 | Spent

-- section 3.2.2: the authority of an absolute form takes the place of the Host field's value, and an empty path is `/`
GET http://a/p HTTP/1.1\r\nHost: h\r\n\r\n                                 | GET /p 1.1 keep [host=a]                       | Clean
GET http://a HTTP/1.1\r\nHost: h\r\n\r\n                                   | GET / 1.1 keep [host=a]                        | Clean
GET http://a/ HTTP/1.1\r\nHost: h\r\n\r\n                                  | GET / 1.1 keep [host=a]                        | Clean
GET http://a?q HTTP/1.1\r\nHost: h\r\n\r\n                                 | GET /?q 1.1 keep [host=a]                      | Clean
GET http://a? HTTP/1.1\r\nHost: h\r\n\r\n                                  | GET /? 1.1 keep [host=a]                       | Clean
GET http://a?q/r HTTP/1.1\r\nHost: h\r\n\r\n                               | GET /?q/r 1.1 keep [host=a]                    | Clean
GET http://a/p?q/r?s HTTP/1.1\r\nHost: h\r\n\r\n                           | GET /p?q/r?s 1.1 keep [host=a]                 | Clean
GET http://a//p HTTP/1.1\r\nHost: h\r\n\r\n                                | GET //p 1.1 keep [host=a]                      | Clean
GET http://a/http://b/ HTTP/1.1\r\nHost: h\r\n\r\n                         | GET /http://b/ 1.1 keep [host=a]               | Clean
GET http://a/p#f HTTP/1.1\r\nHost: h\r\n\r\n                               | GET /p#f 1.1 keep [host=a]                     | Clean
GET http://a/\xC3\xA9 HTTP/1.1\r\nHost: h\r\n\r\n                          | GET /\xC3\xA9 1.1 keep [host=a]                | Clean
GET HTTP://a/p HTTP/1.1\r\nHost: h\r\n\r\n                                 | GET /p 1.1 keep [host=a]                       | Clean
GET hTTp://A.example:8080/P HTTP/1.1\r\nHost: h\r\n\r\n                    | GET /P 1.1 keep [host=A.example:8080]          | Clean
GET http://[::1]:80/p HTTP/1.1\r\nHost: h\r\n\r\n                          | GET /p 1.1 keep [host=[::1]:80]                | Clean
GET http://:80/p HTTP/1.1\r\nHost: h\r\n\r\n                               | GET /p 1.1 keep [host=:80]                     | Clean
GET http://-._~%!$&'()*+,;=:[]/p HTTP/1.1\r\nHost: h\r\n\r\n               | GET /p 1.1 keep [host=-._~%!$&'()*+,;=:[]]     | Clean
GET http://a/p HTTP/1.1\r\nHost:\r\n\r\n                                   | GET /p 1.1 keep [host=a]                       | Clean
GET http://a/p HTTP/1.1\r\nA: b\r\nHOST: h\r\nC: d\r\n\r\n                 | GET /p 1.1 keep [a=b host=a c=d]               | Clean
GET http://a/p HTTP/1.0\r\nHost: h\r\n\r\n                                 | GET /p 1.0 close [host=a]                      | Spent
GET http://a/p HTTP/1.0\r\nA: b\r\n\r\n                                    | GET /p 1.0 close [a=b]                         | Spent
OPTIONS http://a HTTP/1.1\r\nHost: h\r\n\r\n                               | OPTIONS / 1.1 keep [host=a]                    | Clean
POST http://a/p HTTP/1.1\r\nHost: h\r\nContent-Length: 1\r\n\r\nx          | POST /p 1.1 keep [host=a content-length=1]x    | Clean
GET http://a/p HTTP/1.1\r\n\r\n                                            | refuse BadHost                                 | Spent
GET http://a/p HTTP/1.1\r\nHost: a\r\nHost: a\r\n\r\n                      | refuse BadHost                                 | Spent
GET http://a/p HTTP/1.1\r\nHost: h/\r\n\r\n                                | refuse BadHost                                 | Spent
GET http:// HTTP/1.1\r\nHost: h\r\n\r\n                                    | refuse BadTarget                               | Spent
GET http:///p HTTP/1.1\r\nHost: h\r\n\r\n                                  | refuse BadTarget                               | Spent
GET http://?q HTTP/1.1\r\nHost: h\r\n\r\n                                  | refuse BadTarget                               | Spent
GET http://u@a/p HTTP/1.1\r\nHost: h\r\n\r\n                               | refuse BadTarget                               | Spent
GET http://a#f HTTP/1.1\r\nHost: h\r\n\r\n                                 | refuse BadTarget                               | Spent
GET http://a\\b/p HTTP/1.1\r\nHost: h\r\n\r\n                              | refuse BadTarget                               | Spent
GET http://\xC3\xA9/p HTTP/1.1\r\nHost: h\r\n\r\n                          | refuse BadTarget                               | Spent
GET http:/a HTTP/1.1\r\nHost: h\r\n\r\n                                    | refuse BadTarget                               | Spent
GET http:a HTTP/1.1\r\nHost: h\r\n\r\n                                     | refuse BadTarget                               | Spent
GET http HTTP/1.1\r\nHost: h\r\n\r\n                                       | refuse BadTarget                               | Spent
GET xhttp://a/p HTTP/1.1\r\nHost: h\r\n\r\n                                | refuse BadTarget                               | Spent
GET https://a/p HTTP/1.1\r\nHost: h\r\n\r\n                                | refuse BadTarget                               | Spent
GET ws://a/p HTTP/1.1\r\nHost: h\r\n\r\n                                   | refuse BadTarget                               | Spent
GET a.example:80 HTTP/1.1\r\nHost: h\r\n\r\n                               | refuse BadTarget                               | Spent

-- section 3.2.4: the asterisk form, with OPTIONS alone
OPTIONS * HTTP/1.1\r\nHost: h\r\n\r\n                                      | OPTIONS * 1.1 keep [host=h]                    | Clean
OPTIONS * HTTP/1.1\r\nHost:\r\nConnection: close\r\n\r\n                   | OPTIONS * 1.1 close [host= connection=close]   | Spent
OPTIONS * HTTP/1.0\r\n\r\n                                                 | OPTIONS * 1.0 close []                         | Spent
OPTIONS * HTTP/1.1\r\nHost: h\r\nContent-Length: 2\r\n\r\nab               | OPTIONS * 1.1 keep [host=h content-length=2]ab | Clean
OPTIONS * HTTP/1.1\r\n\r\n                                                 | refuse BadHost                                 | Spent
OPTIONS ** HTTP/1.1\r\nHost: h\r\n\r\n                                     | refuse BadTarget                               | Spent
OPTIONS *?q HTTP/1.1\r\nHost: h\r\n\r\n                                    | refuse BadTarget                               | Spent
OPTIONS */ HTTP/1.1\r\nHost: h\r\n\r\n                                     | refuse BadTarget                               | Spent
OPTIONS a HTTP/1.1\r\nHost: h\r\n\r\n                                      | refuse BadTarget                               | Spent
options * HTTP/1.1\r\nHost: h\r\n\r\n                                      | refuse BadTarget                               | Spent
GET * HTTP/1.1\r\nHost: h\r\n\r\n                                          | refuse BadTarget                               | Spent
HEAD * HTTP/1.1\r\nHost: h\r\n\r\n                                         | refuse BadTarget                               | Spent

-- section 5 and RFC 9110, section 5.5: control bytes in names and values, blanks before a colon
GET / HTTP/1.1\r\nHost: h\r\nA: \x01\r\n\r\n                               | refuse BadHead                                 | Spent
GET / HTTP/1.1\r\nHost: h\r\nA: b\x0Bc\r\n\r\n                             | refuse BadHead                                 | Spent
GET / HTTP/1.1\r\nHost: h\r\nA: b\x0C\r\n\r\n                              | refuse BadHead                                 | Spent
GET / HTTP/1.1\r\nHost: h\r\nA: b\x1Bc\r\n\r\n                             | refuse BadHead                                 | Spent
GET / HTTP/1.1\r\nHost: h\r\nA: b\x1F\r\n\r\n                              | refuse BadHead                                 | Spent
GET / HTTP/1.1\r\nHost: h\r\nA: b\x80c\r\n\r\n                             | GET / 1.1 keep [host=h a=b\x80c]               | Clean
GET / HTTP/1.1\r\nHost: h\r\nA\x00: b\r\n\r\n                              | refuse BadHead                                 | Spent
GET / HTTP/1.1\r\nHost: h\r\nA\x7F: b\r\n\r\n                              | refuse BadHead                                 | Spent
GET / HTTP/1.1\r\nHost: h\r\nA(: b\r\n\r\n                                 | refuse BadHead                                 | Spent
GET / HTTP/1.1\r\nHost: h\r\nA[: b\r\n\r\n                                 | refuse BadHead                                 | Spent
GET / HTTP/1.1\r\nHost: h\r\n\xC3\xA9: b\r\n\r\n                           | refuse BadHead                                 | Spent
GET /\x00 HTTP/1.1\r\nHost: h\r\n\r\n                                      | refuse BadHead                                 | Spent
GET /\x1F HTTP/1.1\r\nHost: h\r\n\r\n                                      | refuse BadHead                                 | Spent
GET /\t HTTP/1.1\r\nHost: h\r\n\r\n                                        | refuse BadHead                                 | Spent
G\x00T / HTTP/1.1\r\nHost: h\r\n\r\n                                       | refuse BadHead                                 | Spent
POST / HTTP/1.1\r\nHost: h\r\nContent-Length : 3\r\n\r\nabc                | refuse BadHead                                 | Spent
POST / HTTP/1.1\r\nHost: h\r\nTransfer-Encoding\t: chunked\r\n\r\n0\r\n\r\n | refuse BadHead                                 | Spent
POST / HTTP/1.1\r\nHost: h\r\nTransfer-Encoding: \x0Bchunked\r\n\r\n0\r\n\r\n | refuse BadHead                                 | Spent

-- section 6.2: a body has as many bytes as the length says, whatever they are
POST / HTTP/1.1\r\nHost: h\r\nContent-Length: 0\r\n\r\n                    | POST / 1.1 keep [host=h content-length=0]      | Clean
POST / HTTP/1.1\r\nHost: h\r\nContent-Length: 3\r\n\r\nabc                 | POST / 1.1 keep [host=h content-length=3]abc   | Clean
POST / HTTP/1.1\r\nHost: h\r\nContent-Length: 5\r\n\r\n\x00\xFF\x7F\n\r    | POST / 1.1 keep [host=h content-length=5]\x00\xFF\x7F\n\r | Clean
POST / HTTP/1.1\r\nHost: h\r\nCONTENT-lENGTH:3\t\r\n\r\nabc                | POST / 1.1 keep [host=h content-length=3]abc   | Clean
GET / HTTP/1.1\r\nHost: h\r\nContent-Length: 1\r\n\r\nx                    | GET / 1.1 keep [host=h content-length=1]x      | Clean
HEAD / HTTP/1.1\r\nHost: h\r\nContent-Length: 1\r\n\r\nx                   | HEAD / 1.1 keep [host=h content-length=1]x     | Clean
POST / HTTP/1.1\r\nHost: h\r\nContent-Length: 3\r\n\r\nab                  | ""                                             | Truncated
POST / HTTP/1.1\r\nHost: h\r\nContent-Length: 3\r\n\r\n                    | ""                                             | Truncated
POST / HTTP/1.1\r\nHost: h\r\nContent-Length: 3\r\n\r\nabcd                | POST / 1.1 keep [host=h content-length=3]abc   | Truncated
POST / HTTP/1.1\r\nHost: h\r\nContent-Length: 28\r\n\r\nGET /2 HTTP/1.1\r\nHost: h\r\n\r\n | POST / 1.1 keep [host=h content-length=28]GET /2 HTTP/1.1\r\nHost: h\r\n\r\n | Clean
POST / HTTP/1.0\r\nContent-Length: 2\r\n\r\nab                             | POST / 1.0 close [content-length=2]ab          | Spent
POST / HTTP/1.0\r\nContent-Length: 2\r\n\r\na                              | ""                                             | Truncated
POST / HTTP/1.0\r\nContent-Length: 2\r\n\r\nabGET / HTTP/1.0\r\n\r\n       | POST / 1.0 close [content-length=2]ab          | Spent

-- section 6.3: without a length and a coding there is no body
POST / HTTP/1.1\r\nHost: h\r\n\r\nabc                                      | POST / 1.1 keep [host=h]                       | Truncated
POST / HTTP/1.1\r\nHost: h\r\n\r\nabc\r\n\r\n                              | POST / 1.1 keep [host=h], refuse BadHead       | Spent
POST / HTTP/1.1\r\nHost: h\r\nTransfer_Encoding: chunked\r\n\r\n0\r\n\r\n  | POST / 1.1 keep [host=h transfer_encoding=chunked], refuse BadHead | Spent
POST / HTTP/1.1\r\nHost: h\r\nX-Content-Length: 3\r\n\r\nabc               | POST / 1.1 keep [host=h x-content-length=3]    | Truncated
POST / HTTP/1.1\r\nHost: h\r\nTE: chunked\r\nTrailer: X\r\n\r\n            | POST / 1.1 keep [host=h te=chunked trailer=X]  | Clean
POST / HTTP/1.0\r\n\r\nabc                                                 | POST / 1.0 close []                            | Spent

-- section 6.3: several lengths are one number, of 1 to 18 decimal digits
POST / HTTP/1.1\r\nHost: h\r\nContent-Length: 3, 3\r\n\r\nabc              | POST / 1.1 keep [host=h content-length=3, 3]abc | Clean
POST / HTTP/1.1\r\nHost: h\r\nContent-Length: 3, 03\r\n\r\nabc             | POST / 1.1 keep [host=h content-length=3, 03]abc | Clean
POST / HTTP/1.1\r\nHost: h\r\nContent-Length: 3,\t3 ,3\r\n\r\nabc          | POST / 1.1 keep [host=h content-length=3,\t3 ,3]abc | Clean
POST / HTTP/1.1\r\nHost: h\r\nContent-Length: 3\r\nContent-Length: 3\r\n\r\nabc | POST / 1.1 keep [host=h content-length=3 content-length=3]abc | Clean
POST / HTTP/1.1\r\nHost: h\r\nContent-Length: 3\r\nA: b\r\ncontent-length: 003, 3\r\n\r\nabc | POST / 1.1 keep [host=h content-length=3 a=b content-length=003, 3]abc | Clean
POST / HTTP/1.1\r\nHost: h\r\nContent-Length: 000000000000000003\r\n\r\nabc | POST / 1.1 keep [host=h content-length=000000000000000003]abc | Clean
POST / HTTP/1.1\r\nHost: h\r\nContent-Length: 000000000000000000\r\n\r\n   | POST / 1.1 keep [host=h content-length=000000000000000000] | Clean
POST / HTTP/1.1\r\nHost: h\r\nContent-Length: 0000000000000000003\r\n\r\nabc | refuse BadFraming                              | Spent
POST / HTTP/1.1\r\nHost: h\r\nContent-Length: 3, 4\r\n\r\nabc              | refuse BadFraming                              | Spent
POST / HTTP/1.1\r\nHost: h\r\nContent-Length: 3\r\nContent-Length: 4\r\n\r\nabc | refuse BadFraming                              | Spent
POST / HTTP/1.1\r\nHost: h\r\nContent-Length: 0\r\nContent-Length: 3\r\n\r\nabc | refuse BadFraming                              | Spent
POST / HTTP/1.1\r\nHost: h\r\nContent-Length: 3\r\nContent-Length:\r\n\r\nabc | refuse BadFraming                              | Spent
POST / HTTP/1.1\r\nHost: h\r\nContent-Length:\r\n\r\n                      | refuse BadFraming                              | Spent
POST / HTTP/1.1\r\nHost: h\r\nContent-Length: ,\r\n\r\n                    | refuse BadFraming                              | Spent
POST / HTTP/1.1\r\nHost: h\r\nContent-Length: 3,\r\n\r\nabc                | refuse BadFraming                              | Spent
POST / HTTP/1.1\r\nHost: h\r\nContent-Length: ,3\r\n\r\nabc                | refuse BadFraming                              | Spent
POST / HTTP/1.1\r\nHost: h\r\nContent-Length: 3, ,3\r\n\r\nabc             | refuse BadFraming                              | Spent
POST / HTTP/1.1\r\nHost: h\r\nContent-Length: +3\r\n\r\nabc                | refuse BadFraming                              | Spent
POST / HTTP/1.1\r\nHost: h\r\nContent-Length: -3\r\n\r\nabc                | refuse BadFraming                              | Spent
POST / HTTP/1.1\r\nHost: h\r\nContent-Length: -0\r\n\r\n                   | refuse BadFraming                              | Spent
POST / HTTP/1.1\r\nHost: h\r\nContent-Length: 0x3\r\n\r\nabc               | refuse BadFraming                              | Spent
POST / HTTP/1.1\r\nHost: h\r\nContent-Length: a\r\n\r\n                    | refuse BadFraming                              | Spent
POST / HTTP/1.1\r\nHost: h\r\nContent-Length: 3a\r\n\r\nabc                | refuse BadFraming                              | Spent
POST / HTTP/1.1\r\nHost: h\r\nContent-Length: 3.0\r\n\r\nabc               | refuse BadFraming                              | Spent
POST / HTTP/1.1\r\nHost: h\r\nContent-Length: 3e0\r\n\r\nabc               | refuse BadFraming                              | Spent
POST / HTTP/1.1\r\nHost: h\r\nContent-Length: 1_0\r\n\r\n0123456789        | refuse BadFraming                              | Spent
POST / HTTP/1.1\r\nHost: h\r\nContent-Length: 3 3\r\n\r\nabc               | refuse BadFraming                              | Spent
POST / HTTP/1.1\r\nHost: h\r\nContent-Length: 3;3\r\n\r\nabc               | refuse BadFraming                              | Spent
POST / HTTP/1.1\r\nHost: h\r\nContent-Length: "3"\r\n\r\nabc               | refuse BadFraming                              | Spent
POST / HTTP/1.1\r\nHost: h\r\nContent-Length: \xD9\xA3\r\n\r\nabc          | refuse BadFraming                              | Spent
POST / HTTP/1.1\r\nHost: h\r\nContent-Length: \xA03\r\n\r\nabc             | refuse BadFraming                              | Spent
POST / HTTP/1.0\r\nContent-Length: 3, 4\r\n\r\nabc                         | refuse BadFraming                              | Spent
GET / HTTP/1.1\r\nHost: h\r\nContent-Length: x\r\n\r\n                     | refuse BadFraming                              | Spent

-- a length above 1,048,576 is refused where the head ends
POST / HTTP/1.1\r\nHost: h\r\nContent-Length: 1048576\r\n\r\n              | ""                                             | Truncated
POST / HTTP/1.1\r\nHost: h\r\nContent-Length: 1048577\r\n\r\n              | refuse BodyTooLarge                            | Spent
POST / HTTP/1.1\r\nHost: h\r\nContent-Length: 1048577, 001048577\r\n\r\n   | refuse BodyTooLarge                            | Spent
POST / HTTP/1.1\r\nHost: h\r\nContent-Length: 999999999999999999\r\n\r\n   | refuse BodyTooLarge                            | Spent
POST / HTTP/1.0\r\nContent-Length: 1048577\r\n\r\n                         | refuse BodyTooLarge                            | Spent
POST / HTTP/1.1\r\nHost: h\r\nContent-Length: 1048576, 1048577\r\n\r\n     | refuse BadFraming                              | Spent
POST / HTTP/1.1\r\nHost: h\r\nContent-Length: 9999999999999999999\r\n\r\n  | refuse BadFraming                              | Spent
POST / HTTP/1.1\r\nHost: h\r\nContent-Length: 18446744073709551619\r\n\r\nabc | refuse BadFraming                              | Spent

-- sections 6.1 and 7: the codings of all lines, in any case, without empty members
POST / HTTP/1.1\r\nHost: h\r\nTransfer-Encoding: chunked\r\n\r\n0\r\n\r\n  | POST / 1.1 keep [host=h transfer-encoding=chunked] | Clean
POST / HTTP/1.1\r\nHost: h\r\ntRANSFER-eNCODING:cHUNKED\r\n\r\n0\r\n\r\n   | POST / 1.1 keep [host=h transfer-encoding=cHUNKED] | Clean
POST / HTTP/1.1\r\nHost: h\r\nTransfer-Encoding:\t CHUNKED \t\r\n\r\n0\r\n\r\n | POST / 1.1 keep [host=h transfer-encoding=CHUNKED] | Clean
POST / HTTP/1.1\r\nHost: h\r\nTransfer-Encoding: ,\t, chunked ,,\r\n\r\n0\r\n\r\n | POST / 1.1 keep [host=h transfer-encoding=,\t, chunked ,,] | Clean
POST / HTTP/1.1\r\nHost: h\r\nTransfer-Encoding:\r\nTransfer-Encoding: chunked\r\n\r\n0\r\n\r\n | POST / 1.1 keep [host=h transfer-encoding= transfer-encoding=chunked] | Clean
GET / HTTP/1.1\r\nHost: h\r\nTransfer-Encoding: chunked\r\n\r\n1\r\nx\r\n0\r\n\r\n | GET / 1.1 keep [host=h transfer-encoding=chunked]x | Clean
POST / HTTP/1.1\nHost: h\nTransfer-Encoding: chunked\n\n1\r\nx\r\n0\r\n\r\n | POST / 1.1 keep [host=h transfer-encoding=chunked]x | Clean
POST / HTTP/1.1\r\nHost: h\r\nTransfer-Encoding: gzip, chunked\r\n\r\n     | refuse UnknownCoding                           | Spent
POST / HTTP/1.1\r\nHost: h\r\nTransfer-Encoding: GZIP ,CHUNKED\r\n\r\n     | refuse UnknownCoding                           | Spent
POST / HTTP/1.1\r\nHost: h\r\nTransfer-Encoding: gzip\r\nTransfer-Encoding: chunked\r\n\r\n | refuse UnknownCoding                           | Spent
POST / HTTP/1.1\r\nHost: h\r\nTransfer-Encoding: gzip, gzip, chunked\r\n\r\n | refuse UnknownCoding                           | Spent
POST / HTTP/1.1\r\nHost: h\r\nTransfer-Encoding: ,gzip,,chunked,\r\n\r\n   | refuse UnknownCoding                           | Spent
POST / HTTP/1.1\r\nHost: h\r\nTransfer-Encoding: identity, chunked\r\n\r\n | refuse UnknownCoding                           | Spent
POST / HTTP/1.1\r\nHost: h\r\nTransfer-Encoding: gzip;q=1, chunked\r\n\r\n | refuse UnknownCoding                           | Spent
POST / HTTP/1.1\r\nHost: h\r\nTransfer-Encoding: xchunked, chunked\r\n\r\n | refuse UnknownCoding                           | Spent
POST / HTTP/1.1\r\nHost: h\r\nTransfer-Encoding: chunked, gzip\r\n\r\n     | refuse BadFraming                              | Spent
POST / HTTP/1.1\r\nHost: h\r\nTransfer-Encoding: chunked\r\nTransfer-Encoding: gzip\r\n\r\n | refuse BadFraming                              | Spent
POST / HTTP/1.1\r\nHost: h\r\nTransfer-Encoding: chunked, chunked\r\n\r\n  | refuse BadFraming                              | Spent
POST / HTTP/1.1\r\nHost: h\r\nTransfer-Encoding: chunked, Chunked\r\n\r\n  | refuse BadFraming                              | Spent
POST / HTTP/1.1\r\nHost: h\r\nTransfer-Encoding: chunked\r\nTransfer-Encoding: chunked\r\n\r\n0\r\n\r\n | refuse BadFraming                              | Spent
POST / HTTP/1.1\r\nHost: h\r\nTransfer-Encoding: gzip\r\n\r\n              | refuse BadFraming                              | Spent
POST / HTTP/1.1\r\nHost: h\r\nTransfer-Encoding: gzip, deflate\r\n\r\n     | refuse BadFraming                              | Spent
POST / HTTP/1.1\r\nHost: h\r\nTransfer-Encoding: chunked, gzip, chunked\r\n\r\n | refuse BadFraming                              | Spent
POST / HTTP/1.1\r\nHost: h\r\nTransfer-Encoding: gzip, chunked, chunked\r\n\r\n | refuse BadFraming                              | Spent
POST / HTTP/1.1\r\nHost: h\r\nTransfer-Encoding: chunked, chunked, gzip\r\n\r\n | refuse BadFraming                              | Spent
POST / HTTP/1.1\r\nHost: h\r\nTransfer-Encoding: chunked, gzip, gzip\r\n\r\n | refuse BadFraming                              | Spent
POST / HTTP/1.1\r\nHost: h\r\nTransfer-Encoding: gzip, chunked, gzip\r\n\r\n | refuse BadFraming                              | Spent
POST / HTTP/1.1\r\nHost: h\r\nTransfer-Encoding: identity\r\n\r\n          | refuse BadFraming                              | Spent
POST / HTTP/1.1\r\nHost: h\r\nTransfer-Encoding:\r\n\r\n                   | refuse BadFraming                              | Spent
POST / HTTP/1.1\r\nHost: h\r\nTransfer-Encoding: , ,\r\n\r\n               | refuse BadFraming                              | Spent
POST / HTTP/1.1\r\nHost: h\r\nTransfer-Encoding: chunked;q=1\r\n\r\n0\r\n\r\n | refuse BadFraming                              | Spent
POST / HTTP/1.1\r\nHost: h\r\nTransfer-Encoding: xchunked\r\n\r\n0\r\n\r\n | refuse BadFraming                              | Spent
POST / HTTP/1.1\r\nHost: h\r\nTransfer-Encoding: chunked x\r\n\r\n0\r\n\r\n | refuse BadFraming                              | Spent
POST / HTTP/1.1\r\nHost: h\r\nTransfer-Encoding: "chunked"\r\n\r\n0\r\n\r\n | refuse BadFraming                              | Spent
POST / HTTP/1.1\r\nHost: h\r\nTransfer-Encoding: chunked\xA0\r\n\r\n0\r\n\r\n | refuse BadFraming                              | Spent

-- section 6.1: no coding beside a length, and none in 1.0
POST / HTTP/1.1\r\nHost: h\r\nContent-Length: 3\r\nTransfer-Encoding: chunked\r\n\r\n0\r\n\r\n | refuse BadFraming                              | Spent
POST / HTTP/1.1\r\nHost: h\r\nTransfer-Encoding: chunked\r\nContent-Length: 3\r\n\r\n0\r\n\r\n | refuse BadFraming                              | Spent
POST / HTTP/1.1\r\nHost: h\r\nTransfer-Encoding: chunked\r\nContent-Length:\r\n\r\n0\r\n\r\n | refuse BadFraming                              | Spent
POST / HTTP/1.1\r\nHost: h\r\nTransfer-Encoding: chunked\r\nContent-Length: 1048577\r\n\r\n0\r\n\r\n | refuse BadFraming                              | Spent
POST / HTTP/1.1\r\nHost: h\r\nTransfer-Encoding: gzip, chunked\r\nContent-Length: 3\r\n\r\nabc | refuse BadFraming                              | Spent
POST / HTTP/1.1\r\nHost: h\r\nTransfer-Encoding:\r\nContent-Length: 3\r\n\r\nabc | refuse BadFraming                              | Spent
POST / HTTP/1.0\r\nTransfer-Encoding: chunked\r\n\r\n0\r\n\r\n             | refuse BadFraming                              | Spent
POST / HTTP/1.0\r\nTransfer-Encoding: gzip, chunked\r\n\r\n0\r\n\r\n       | refuse BadFraming                              | Spent
POST / HTTP/1.0\r\nTransfer-Encoding: identity\r\nContent-Length: 3\r\n\r\nabc | refuse BadFraming                              | Spent

-- RFC 9110, section 10.1.1: one `100-continue` in any case asks for a body that has a byte or comes in chunks
POST /p HTTP/1.1\r\nHost: h\r\nContent-Length: 2\r\nExpect: 100-continue\r\n\r\nab | continue, POST /p 1.1 keep [host=h content-length=2 expect=100-continue]ab | Clean
POST /p HTTP/1.1\r\nHost: h\r\nExpect:\t100-CONTINUE \r\nContent-Length: 2\r\n\r\nab | continue, POST /p 1.1 keep [host=h expect=100-CONTINUE content-length=2]ab | Clean
POST /p HTTP/1.1\r\nHost: h\r\nContent-Length: 2\r\nExpect: 100-continue\r\n\r\na | continue                                       | Truncated
POST /p HTTP/1.1\r\nHost: h\r\nContent-Length: 2\r\nExpect: 100-continue\r\n\r\n | continue                                       | Truncated
POST /p HTTP/1.1\r\nHost: h\r\nContent-Length: 2\r\nExpect: 100-continue\r\n\r | ""                                             | Truncated
POST /p HTTP/1.1\r\nHost: h\r\nContent-Length: 2\r\nExpect: 100-continue\r\n\r\n\r\n | continue, POST /p 1.1 keep [host=h content-length=2 expect=100-continue]\r\n | Clean
POST /p HTTP/1.1\r\nHost: h\r\nTransfer-Encoding: chunked\r\nExpect: 100-continue\r\n\r\n1\r\na\r\n0\r\nX: y\r\n\r\n | continue, POST /p 1.1 keep [host=h transfer-encoding=chunked expect=100-continue]a | Clean
POST /p HTTP/1.1\r\nHost: h\r\nTransfer-Encoding: chunked\r\nExpect: 100-continue\r\n\r\n0\r\n\r\n | continue, POST /p 1.1 keep [host=h transfer-encoding=chunked expect=100-continue] | Clean
POST /p HTTP/1.1\r\nHost: h\r\nTransfer-Encoding: chunked\r\nExpect: 100-continue\r\n\r\n1\r\na\r\n | continue                                       | Truncated
POST /p HTTP/1.1\r\nHost: h\r\nTransfer-Encoding: chunked\r\nExpect: 100-continue\r\n\r\ng\r\n | continue, refuse BadFraming                    | Spent
POST /p HTTP/1.1\r\nHost: h\r\nTransfer-Encoding: chunked\r\nExpect: 100-continue\r\n\r\n100001\r\n | continue, refuse BodyTooLarge                  | Spent
POST /p HTTP/1.1\r\nHost: h\r\nContent-Length: 2\r\nExpect: 100-continue\r\nConnection: close\r\n\r\nabGET | continue, POST /p 1.1 close [host=h content-length=2 expect=100-continue connection=close]ab | Spent
OPTIONS * HTTP/1.1\r\nHost: h\r\nContent-Length: 1\r\nExpect: 100-continue\r\n\r\nx | continue, OPTIONS * 1.1 keep [host=h content-length=1 expect=100-continue]x | Clean
POST /p HTTP/1.1\r\nHost: h\r\nContent-Length: 1\r\nExpect: 100-continue\r\n\r\nxPOST /q HTTP/1.1\r\nHost: h\r\nContent-Length: 1\r\nExpect: 100-continue\r\n\r\ny | continue, POST /p 1.1 keep [host=h content-length=1 expect=100-continue]x, continue, POST /q 1.1 keep [host=h content-length=1 expect=100-continue]y | Clean
POST /p HTTP/1.1\r\nHost: h\r\nContent-Length: 0\r\nExpect: 100-continue\r\n\r\n | POST /p 1.1 keep [host=h content-length=0 expect=100-continue] | Clean
GET /p HTTP/1.1\r\nHost: h\r\nExpect: 100-continue\r\n\r\n                 | GET /p 1.1 keep [host=h expect=100-continue]   | Clean
POST /p HTTP/1.1\r\nHost: h\r\nContent-Length: 2\r\nExpect: x\r\n\r\nab    | refuse BadExpect                               | Spent
GET /p HTTP/1.1\r\nHost: h\r\nExpect: x\r\n\r\n                            | refuse BadExpect                               | Spent
GET /p HTTP/1.1\r\nHost: h\r\nExpect:\r\n\r\n                              | refuse BadExpect                               | Spent
GET /p HTTP/1.1\r\nHost: h\r\nExpect: 100-continue, 100-continue\r\n\r\n   | refuse BadExpect                               | Spent
GET /p HTTP/1.1\r\nHost: h\r\nExpect: 100-continue\r\nExpect: 100-continue\r\n\r\n | refuse BadExpect                               | Spent
GET /p HTTP/1.1\r\nHost: h\r\nExpect: 100-continue\r\nExpect: x\r\n\r\n    | refuse BadExpect                               | Spent
GET /p HTTP/1.1\r\nHost: h\r\nExpect: 100-continue;a=b\r\n\r\n             | refuse BadExpect                               | Spent
GET /p HTTP/1.1\r\nHost: h\r\nExpect: 100-continues\r\n\r\n                | refuse BadExpect                               | Spent
GET /p HTTP/1.1\r\nHost: h\r\nExpect: 100 continue\r\n\r\n                 | refuse BadExpect                               | Spent
POST /p HTTP/1.0\r\nContent-Length: 2\r\nExpect: 100-continue\r\n\r\nab    | POST /p 1.0 close [content-length=2 expect=100-continue]ab | Spent
POST /p HTTP/1.0\r\nContent-Length: 2\r\nExpect: x\r\nExpect: y\r\n\r\nab  | POST /p 1.0 close [content-length=2 expect=x expect=y]ab | Spent

-- of several faults in one head: unread head, Host, target, framing, size of the body, expectation
OPTIONS * HTTP/1.2\r\nHost: h\r\nExpect: x\r\n\r\n                         | refuse BadHead                                 | Spent
GET http://u@a/ HTTP/1.1\r\nContent-Length: x\r\n\r\n                      | refuse BadHost                                 | Spent
GET http://u@a/ HTTP/1.1\r\nHost: h\r\nContent-Length: x\r\n\r\n           | refuse BadTarget                               | Spent
GET x HTTP/1.1\r\nHost: h\r\nContent-Length: 1048577\r\n\r\n               | refuse BadTarget                               | Spent
GET x HTTP/1.1\r\nHost: h\r\nExpect: x\r\n\r\n                             | refuse BadTarget                               | Spent
POST / HTTP/1.1\r\nHost: h\r\nContent-Length: x\r\nExpect: x\r\n\r\n       | refuse BadFraming                              | Spent
POST / HTTP/1.1\r\nHost: h\r\nTransfer-Encoding: gzip, chunked\r\nExpect: x\r\n\r\n | refuse UnknownCoding                           | Spent
POST / HTTP/1.1\r\nHost: h\r\nContent-Length: 1048577\r\nExpect: x\r\n\r\n | refuse BodyTooLarge                            | Spent
POST / HTTP/1.1\r\nHost: h\r\nContent-Length: 1048577\r\nExpect: 100-continue\r\n\r\n | refuse BodyTooLarge                            | Spent

-- section 9.3: after a message that closes nothing is read, its body is
POST / HTTP/1.1\r\nHost: h\r\nContent-Length: 2\r\nConnection: close\r\n\r\nab | POST / 1.1 close [host=h content-length=2 connection=close]ab | Spent
POST / HTTP/1.1\r\nHost: h\r\nContent-Length: 2\r\nConnection: close\r\n\r\na | ""                                             | Truncated
POST / HTTP/1.1\r\nHost: h\r\nContent-Length: 2\r\nConnection: close\r\n\r\nabGET /2 HTTP/1.1\r\nHost: h\r\n\r\n | POST / 1.1 close [host=h content-length=2 connection=close]ab | Spent
POST / HTTP/1.1\r\nHost: h\r\nTransfer-Encoding: chunked\r\nConnection: CLOSE\r\n\r\n1\r\nx\r\n0\r\n\r\nGET | POST / 1.1 close [host=h transfer-encoding=chunked connection=CLOSE]x | Spent
POST / HTTP/1.1\r\nHost: h\r\nConnection: keep-alive, Upgrade, cLose\r\n\r\nx | POST / 1.1 close [host=h connection=keep-alive, Upgrade, cLose] | Spent
GET / HTTP/1.1\r\nHost: h\r\nConnection: close x\r\n\r\n                   | GET / 1.1 keep [host=h connection=close x]     | Clean
GET / HTTP/1.1\r\nHost: h\r\nConnection: "close"\r\n\r\n                   | GET / 1.1 keep [host=h connection="close"]     | Clean
GET / HTTP/1.1\r\nHost: h\r\nProxy-Connection: close\r\n\r\n               | GET / 1.1 keep [host=h proxy-connection=close] | Clean

-- section 9.3.2: requests with and without bodies, one behind another
GET /who HTTP/1.1\r\nHost: h\r\n\r\nGET /who HTTP/1.1\r\nHost: h\r\nConnection: close\r\n\r\n | GET /who 1.1 keep [host=h], GET /who 1.1 close [host=h connection=close] | Spent
POST /1 HTTP/1.1\r\nHost: h\r\nContent-Length: 3\r\n\r\nabcGET /2 HTTP/1.1\r\nHost: h\r\n\r\n | POST /1 1.1 keep [host=h content-length=3]abc, GET /2 1.1 keep [host=h] | Clean
POST /1 HTTP/1.1\r\nHost: h\r\nContent-Length: 0\r\n\r\nGET /2 HTTP/1.1\r\nHost: h\r\n\r\n | POST /1 1.1 keep [host=h content-length=0], GET /2 1.1 keep [host=h] | Clean
POST /1 HTTP/1.1\r\nHost: h\r\nTransfer-Encoding: chunked\r\n\r\n1\r\nx\r\n0\r\n\r\nPOST /2 HTTP/1.1\r\nHost: h\r\nContent-Length: 1\r\n\r\nyGET /3 HTTP/1.0\r\n\r\n | POST /1 1.1 keep [host=h transfer-encoding=chunked]x, POST /2 1.1 keep [host=h content-length=1]y, GET /3 1.0 close [] | Spent
OPTIONS * HTTP/1.1\r\nHost: h\r\n\r\nGET * HTTP/1.1\r\nHost: h\r\n\r\n     | OPTIONS * 1.1 keep [host=h], refuse BadTarget  | Spent
POST /1 HTTP/1.1\r\nHost: h\r\nContent-Length: 1\r\n\r\nxPOST /2 HTTP/1.1\r\nHost: h\r\nContent-Length: y\r\n\r\n | POST /1 1.1 keep [host=h content-length=1]x, refuse BadFraming | Spent
POST /1 HTTP/1.1\r\nHost: h\r\nContent-Length: 1\r\n\r\nxPOST /2 HTTP/1.1\r\nHost: h\r\nContent-Length: 2\r\n\r\ny | POST /1 1.1 keep [host=h content-length=1]x    | Truncated
POST /1 HTTP/1.1\r\nHost: h\r\nContent-Length: 4, 5\r\n\r\nabcdGET /2 HTTP/1.1\r\nHost: h\r\n\r\n | refuse BadFraming                              | Spent
"#;

#[test]
fn a_stream_gives_the_same_items_however_it_is_cut(rt: HostRuntime) -> Result<(), Strays> {
    hold(&rt, &[wire_items::ROWS, ROWS], &PLAIN)
}
