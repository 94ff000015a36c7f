//! Responses and their texts.

use crate::responses::Responses;
use sv_rows::{Strays, hold};

/// The columns: status; fields separated by `\n`; session cookie with path, seconds and flag; body; how and when it is
/// written; text.
const ROWS: &str = r#"
-- RFC 9112, sections 4 and 5: status line, date, fields, length, empty line, body
200   | content-type: text/plain   | - | caller -\n   | whole close 0  | HTTP/1.1 200 OK\r\ndate: Thu, 01 Jan 1970 00:00:00 GMT\r\ncontent-type: text/plain\r\ncontent-length: 9\r\nconnection: close\r\n\r\ncaller -\n
200   | content-type: text/plain   | - | caller -\n   | whole keep 0   | HTTP/1.1 200 OK\r\ndate: Thu, 01 Jan 1970 00:00:00 GMT\r\ncontent-type: text/plain\r\ncontent-length: 9\r\n\r\ncaller -\n
200   | ""                         | - | ""           | whole keep 0   | HTTP/1.1 200 OK\r\ndate: Thu, 01 Jan 1970 00:00:00 GMT\r\ncontent-length: 0\r\n\r\n
200   | content-type: text/plain   | - | \{10000*x}    | whole keep 0   | HTTP/1.1 200 OK\r\ndate: Thu, 01 Jan 1970 00:00:00 GMT\r\ncontent-type: text/plain\r\ncontent-length: 10000\r\n\r\n\{10000*x}
200   | ""                         | - | \x00\xFF\r\n\r\n | whole keep 0   | HTTP/1.1 200 OK\r\ndate: Thu, 01 Jan 1970 00:00:00 GMT\r\ncontent-length: 6\r\n\r\n\x00\xFF\r\n\r\n
400   | content-type: text/plain   | - | 400 Bad Request\n | whole close 0  | HTTP/1.1 400 Bad Request\r\ndate: Thu, 01 Jan 1970 00:00:00 GMT\r\ncontent-type: text/plain\r\ncontent-length: 16\r\nconnection: close\r\n\r\n400 Bad Request\n
404   | content-type: text/plain   | - | 404 Not Found\n | whole keep 0   | HTTP/1.1 404 Not Found\r\ndate: Thu, 01 Jan 1970 00:00:00 GMT\r\ncontent-type: text/plain\r\ncontent-length: 14\r\n\r\n404 Not Found\n
413   | content-type: text/plain   | - | 413 Payload Too Large\n | whole close 0  | HTTP/1.1 413 Payload Too Large\r\ndate: Thu, 01 Jan 1970 00:00:00 GMT\r\ncontent-type: text/plain\r\ncontent-length: 22\r\nconnection: close\r\n\r\n413 Payload Too Large\n
599   | content-type: text/plain   | - | 599 \n       | whole keep 0   | HTTP/1.1 599 \r\ndate: Thu, 01 Jan 1970 00:00:00 GMT\r\ncontent-type: text/plain\r\ncontent-length: 5\r\n\r\n599 \n

-- fields stand in their order, names in lower case, values as they are
200   | x-b: 1\nx-a: 2\nx-b: 3     | - | ""           | whole keep 0   | HTTP/1.1 200 OK\r\ndate: Thu, 01 Jan 1970 00:00:00 GMT\r\nx-b: 1\r\nx-a: 2\r\nx-b: 3\r\ncontent-length: 0\r\n\r\n
200   | X-Mark: Mark\nETAG: "a, b" | - | ""           | whole keep 0   | HTTP/1.1 200 OK\r\ndate: Thu, 01 Jan 1970 00:00:00 GMT\r\nx-mark: Mark\r\netag: "a, b"\r\ncontent-length: 0\r\n\r\n
200   | x-a: \xC3\xA9\t\xFF        | - | ""           | whole keep 0   | HTTP/1.1 200 OK\r\ndate: Thu, 01 Jan 1970 00:00:00 GMT\r\nx-a: \xC3\xA9\t\xFF\r\ncontent-length: 0\r\n\r\n
302   | location: /a/index.html?q  | - | ""           | whole keep 0   | HTTP/1.1 302 Found\r\ndate: Thu, 01 Jan 1970 00:00:00 GMT\r\nlocation: /a/index.html?q\r\ncontent-length: 0\r\n\r\n
405   | allow: GET, HEAD\ncontent-type: text/plain | - | x            | whole keep 0   | HTTP/1.1 405 Method Not Allowed\r\ndate: Thu, 01 Jan 1970 00:00:00 GMT\r\nallow: GET, HEAD\r\ncontent-type: text/plain\r\ncontent-length: 1\r\n\r\nx
503   | content-type: text/plain\nretry-after: 10 | - | x            | whole close 0  | HTTP/1.1 503 Service Unavailable\r\ndate: Thu, 01 Jan 1970 00:00:00 GMT\r\ncontent-type: text/plain\r\nretry-after: 10\r\ncontent-length: 1\r\nconnection: close\r\n\r\nx

-- RFC 6265, section 4.1: the session cookie stands behind the fields
200   | x-mark: mark\ncontent-type: text/html | JSESSIONID=000000000000000000000000000000010000000000000001 at / HttpOnly | login\n      | whole keep 0   | HTTP/1.1 200 OK\r\ndate: Thu, 01 Jan 1970 00:00:00 GMT\r\nx-mark: mark\r\ncontent-type: text/html\r\nset-cookie: JSESSIONID=000000000000000000000000000000010000000000000001; Path=/; HttpOnly\r\ncontent-length: 6\r\n\r\nlogin\n
303   | location: /admin/x.txt?p=1 | JSESSIONID=000000000000000000000000000000020000000000000002 at / HttpOnly | ""           | whole keep 0   | HTTP/1.1 303 See Other\r\ndate: Thu, 01 Jan 1970 00:00:00 GMT\r\nlocation: /admin/x.txt?p=1\r\nset-cookie: JSESSIONID=000000000000000000000000000000020000000000000002; Path=/; HttpOnly\r\ncontent-length: 0\r\n\r\n
200   | ""                         | JSESSIONID=0123456789abcdef at /two HttpOnly | n=1\n        | whole close 0  | HTTP/1.1 200 OK\r\ndate: Thu, 01 Jan 1970 00:00:00 GMT\r\nset-cookie: JSESSIONID=0123456789abcdef; Path=/two; HttpOnly\r\ncontent-length: 4\r\nconnection: close\r\n\r\nn=1\n
200   | ""                         | JSESSIONID=a at /b%20c HttpOnly | ""           | head keep 0    | HTTP/1.1 200 OK\r\ndate: Thu, 01 Jan 1970 00:00:00 GMT\r\nset-cookie: JSESSIONID=a; Path=/b%20c; HttpOnly\r\ncontent-length: 0\r\n\r\n

-- RFC 6265, sections 4.1.2.2 and 4.1.2.6: Max-Age and HttpOnly stand where the cookie has them
200   | ""                         | SID=1 at /app | ""           | head keep 0    | HTTP/1.1 200 OK\r\ndate: Thu, 01 Jan 1970 00:00:00 GMT\r\nset-cookie: SID=1; Path=/app\r\ncontent-length: 0\r\n\r\n
200   | ""                         | SID=1 at /app 60 | ""        | head keep 0    | HTTP/1.1 200 OK\r\ndate: Thu, 01 Jan 1970 00:00:00 GMT\r\nset-cookie: SID=1; Path=/app; Max-Age=60\r\ncontent-length: 0\r\n\r\n
200   | ""                         | SID=1 at / 60 HttpOnly | ""  | head keep 0    | HTTP/1.1 200 OK\r\ndate: Thu, 01 Jan 1970 00:00:00 GMT\r\nset-cookie: SID=1; Path=/; Max-Age=60; HttpOnly\r\ncontent-length: 0\r\n\r\n
200   | ""                         | JSESSIONID=1 at / 0 HttpOnly | "" | head keep 0 | HTTP/1.1 200 OK\r\ndate: Thu, 01 Jan 1970 00:00:00 GMT\r\nset-cookie: JSESSIONID=1; Path=/; Max-Age=0; HttpOnly\r\ncontent-length: 0\r\n\r\n
200   | ""                         | a!#$%&'*+-.^_`~=1 at /b 2147483647 | "" | head keep 0 | HTTP/1.1 200 OK\r\ndate: Thu, 01 Jan 1970 00:00:00 GMT\r\nset-cookie: a!#$%&'*+-.^_`~=1; Path=/b; Max-Age=2147483647\r\ncontent-length: 0\r\n\r\n

-- RFC 9110, section 9.3.2: the answer to HEAD states the length of the body that is left out
200   | content-type: text/plain   | - | caller -\n   | head keep 784111777 | HTTP/1.1 200 OK\r\ndate: Sun, 06 Nov 1994 08:49:37 GMT\r\ncontent-type: text/plain\r\ncontent-length: 9\r\n\r\n
404   | content-type: text/plain   | - | 404 Not Found\n | head close 0   | HTTP/1.1 404 Not Found\r\ndate: Thu, 01 Jan 1970 00:00:00 GMT\r\ncontent-type: text/plain\r\ncontent-length: 14\r\nconnection: close\r\n\r\n
200   | ""                         | - | ""           | head keep 0    | HTTP/1.1 200 OK\r\ndate: Thu, 01 Jan 1970 00:00:00 GMT\r\ncontent-length: 0\r\n\r\n

-- RFC 9110, section 15.3.5: a response with status 204 has neither a length nor a body, and no other status is like it
204   | x-a: 1                     | - | left out     | whole keep 0   | HTTP/1.1 204 No Content\r\ndate: Thu, 01 Jan 1970 00:00:00 GMT\r\nx-a: 1\r\n\r\n
204   | ""                         | - | ""           | whole close 0  | HTTP/1.1 204 No Content\r\ndate: Thu, 01 Jan 1970 00:00:00 GMT\r\nconnection: close\r\n\r\n
204   | x-a: 1                     | JSESSIONID=a at / HttpOnly | left out     | head close 0   | HTTP/1.1 204 No Content\r\ndate: Thu, 01 Jan 1970 00:00:00 GMT\r\nx-a: 1\r\nset-cookie: JSESSIONID=a; Path=/; HttpOnly\r\nconnection: close\r\n\r\n
205   | ""                         | - | kept         | whole keep 0   | HTTP/1.1 205 Reset Content\r\ndate: Thu, 01 Jan 1970 00:00:00 GMT\r\ncontent-length: 4\r\n\r\nkept
304   | ""                         | - | kept         | whole keep 0   | HTTP/1.1 304 Not Modified\r\ndate: Thu, 01 Jan 1970 00:00:00 GMT\r\ncontent-length: 4\r\n\r\nkept
100   | ""                         | - | ""           | whole keep 0   | HTTP/1.1 100 Continue\r\ndate: Thu, 01 Jan 1970 00:00:00 GMT\r\ncontent-length: 0\r\n\r\n
999   | ""                         | - | kept         | whole keep 0   | HTTP/1.1 999 \r\ndate: Thu, 01 Jan 1970 00:00:00 GMT\r\ncontent-length: 4\r\n\r\nkept

-- RFC 9110, section 15: a status code has three digits, and another is written by no one
0     | ""                         | - | x            | whole keep 0   | ""
99    | ""                         | - | x            | whole keep 0   | ""
1000  | ""                         | - | x            | whole keep 0   | ""
65535 | ""                         | - | x            | whole keep 0   | ""

-- RFC 9110, section 15, and RFC 6585: each status has its phrase, and one that none defines the empty one
100 | "" | - | "" | head keep 0 | HTTP/1.1 100 Continue\r\ndate: Thu, 01 Jan 1970 00:00:00 GMT\r\ncontent-length: 0\r\n\r\n
101 | "" | - | "" | head keep 0 | HTTP/1.1 101 Switching Protocols\r\ndate: Thu, 01 Jan 1970 00:00:00 GMT\r\ncontent-length: 0\r\n\r\n
199 | "" | - | "" | head keep 0 | HTTP/1.1 199 \r\ndate: Thu, 01 Jan 1970 00:00:00 GMT\r\ncontent-length: 0\r\n\r\n
200 | "" | - | "" | head keep 0 | HTTP/1.1 200 OK\r\ndate: Thu, 01 Jan 1970 00:00:00 GMT\r\ncontent-length: 0\r\n\r\n
201 | "" | - | "" | head keep 0 | HTTP/1.1 201 Created\r\ndate: Thu, 01 Jan 1970 00:00:00 GMT\r\ncontent-length: 0\r\n\r\n
202 | "" | - | "" | head keep 0 | HTTP/1.1 202 Accepted\r\ndate: Thu, 01 Jan 1970 00:00:00 GMT\r\ncontent-length: 0\r\n\r\n
204 | "" | - | "" | head keep 0 | HTTP/1.1 204 No Content\r\ndate: Thu, 01 Jan 1970 00:00:00 GMT\r\n\r\n
205 | "" | - | "" | head keep 0 | HTTP/1.1 205 Reset Content\r\ndate: Thu, 01 Jan 1970 00:00:00 GMT\r\ncontent-length: 0\r\n\r\n
206 | "" | - | "" | head keep 0 | HTTP/1.1 206 Partial Content\r\ndate: Thu, 01 Jan 1970 00:00:00 GMT\r\ncontent-length: 0\r\n\r\n
299 | "" | - | "" | head keep 0 | HTTP/1.1 299 \r\ndate: Thu, 01 Jan 1970 00:00:00 GMT\r\ncontent-length: 0\r\n\r\n
300 | "" | - | "" | head keep 0 | HTTP/1.1 300 Multiple Choices\r\ndate: Thu, 01 Jan 1970 00:00:00 GMT\r\ncontent-length: 0\r\n\r\n
301 | "" | - | "" | head keep 0 | HTTP/1.1 301 Moved Permanently\r\ndate: Thu, 01 Jan 1970 00:00:00 GMT\r\ncontent-length: 0\r\n\r\n
302 | "" | - | "" | head keep 0 | HTTP/1.1 302 Found\r\ndate: Thu, 01 Jan 1970 00:00:00 GMT\r\ncontent-length: 0\r\n\r\n
303 | "" | - | "" | head keep 0 | HTTP/1.1 303 See Other\r\ndate: Thu, 01 Jan 1970 00:00:00 GMT\r\ncontent-length: 0\r\n\r\n
304 | "" | - | "" | head keep 0 | HTTP/1.1 304 Not Modified\r\ndate: Thu, 01 Jan 1970 00:00:00 GMT\r\ncontent-length: 0\r\n\r\n
306 | "" | - | "" | head keep 0 | HTTP/1.1 306 \r\ndate: Thu, 01 Jan 1970 00:00:00 GMT\r\ncontent-length: 0\r\n\r\n
307 | "" | - | "" | head keep 0 | HTTP/1.1 307 Temporary Redirect\r\ndate: Thu, 01 Jan 1970 00:00:00 GMT\r\ncontent-length: 0\r\n\r\n
308 | "" | - | "" | head keep 0 | HTTP/1.1 308 Permanent Redirect\r\ndate: Thu, 01 Jan 1970 00:00:00 GMT\r\ncontent-length: 0\r\n\r\n
400 | "" | - | "" | head keep 0 | HTTP/1.1 400 Bad Request\r\ndate: Thu, 01 Jan 1970 00:00:00 GMT\r\ncontent-length: 0\r\n\r\n
401 | "" | - | "" | head keep 0 | HTTP/1.1 401 Unauthorized\r\ndate: Thu, 01 Jan 1970 00:00:00 GMT\r\ncontent-length: 0\r\n\r\n
403 | "" | - | "" | head keep 0 | HTTP/1.1 403 Forbidden\r\ndate: Thu, 01 Jan 1970 00:00:00 GMT\r\ncontent-length: 0\r\n\r\n
404 | "" | - | "" | head keep 0 | HTTP/1.1 404 Not Found\r\ndate: Thu, 01 Jan 1970 00:00:00 GMT\r\ncontent-length: 0\r\n\r\n
405 | "" | - | "" | head keep 0 | HTTP/1.1 405 Method Not Allowed\r\ndate: Thu, 01 Jan 1970 00:00:00 GMT\r\ncontent-length: 0\r\n\r\n
406 | "" | - | "" | head keep 0 | HTTP/1.1 406 Not Acceptable\r\ndate: Thu, 01 Jan 1970 00:00:00 GMT\r\ncontent-length: 0\r\n\r\n
408 | "" | - | "" | head keep 0 | HTTP/1.1 408 Request Timeout\r\ndate: Thu, 01 Jan 1970 00:00:00 GMT\r\ncontent-length: 0\r\n\r\n
409 | "" | - | "" | head keep 0 | HTTP/1.1 409 Conflict\r\ndate: Thu, 01 Jan 1970 00:00:00 GMT\r\ncontent-length: 0\r\n\r\n
410 | "" | - | "" | head keep 0 | HTTP/1.1 410 Gone\r\ndate: Thu, 01 Jan 1970 00:00:00 GMT\r\ncontent-length: 0\r\n\r\n
411 | "" | - | "" | head keep 0 | HTTP/1.1 411 Length Required\r\ndate: Thu, 01 Jan 1970 00:00:00 GMT\r\ncontent-length: 0\r\n\r\n
412 | "" | - | "" | head keep 0 | HTTP/1.1 412 Precondition Failed\r\ndate: Thu, 01 Jan 1970 00:00:00 GMT\r\ncontent-length: 0\r\n\r\n
413 | "" | - | "" | head keep 0 | HTTP/1.1 413 Payload Too Large\r\ndate: Thu, 01 Jan 1970 00:00:00 GMT\r\ncontent-length: 0\r\n\r\n
414 | "" | - | "" | head keep 0 | HTTP/1.1 414 URI Too Long\r\ndate: Thu, 01 Jan 1970 00:00:00 GMT\r\ncontent-length: 0\r\n\r\n
415 | "" | - | "" | head keep 0 | HTTP/1.1 415 Unsupported Media Type\r\ndate: Thu, 01 Jan 1970 00:00:00 GMT\r\ncontent-length: 0\r\n\r\n
417 | "" | - | "" | head keep 0 | HTTP/1.1 417 Expectation Failed\r\ndate: Thu, 01 Jan 1970 00:00:00 GMT\r\ncontent-length: 0\r\n\r\n
426 | "" | - | "" | head keep 0 | HTTP/1.1 426 Upgrade Required\r\ndate: Thu, 01 Jan 1970 00:00:00 GMT\r\ncontent-length: 0\r\n\r\n
429 | "" | - | "" | head keep 0 | HTTP/1.1 429 Too Many Requests\r\ndate: Thu, 01 Jan 1970 00:00:00 GMT\r\ncontent-length: 0\r\n\r\n
431 | "" | - | "" | head keep 0 | HTTP/1.1 431 Request Header Fields Too Large\r\ndate: Thu, 01 Jan 1970 00:00:00 GMT\r\ncontent-length: 0\r\n\r\n
499 | "" | - | "" | head keep 0 | HTTP/1.1 499 \r\ndate: Thu, 01 Jan 1970 00:00:00 GMT\r\ncontent-length: 0\r\n\r\n
500 | "" | - | "" | head keep 0 | HTTP/1.1 500 Internal Server Error\r\ndate: Thu, 01 Jan 1970 00:00:00 GMT\r\ncontent-length: 0\r\n\r\n
501 | "" | - | "" | head keep 0 | HTTP/1.1 501 Not Implemented\r\ndate: Thu, 01 Jan 1970 00:00:00 GMT\r\ncontent-length: 0\r\n\r\n
502 | "" | - | "" | head keep 0 | HTTP/1.1 502 Bad Gateway\r\ndate: Thu, 01 Jan 1970 00:00:00 GMT\r\ncontent-length: 0\r\n\r\n
503 | "" | - | "" | head keep 0 | HTTP/1.1 503 Service Unavailable\r\ndate: Thu, 01 Jan 1970 00:00:00 GMT\r\ncontent-length: 0\r\n\r\n
504 | "" | - | "" | head keep 0 | HTTP/1.1 504 Gateway Timeout\r\ndate: Thu, 01 Jan 1970 00:00:00 GMT\r\ncontent-length: 0\r\n\r\n
505 | "" | - | "" | head keep 0 | HTTP/1.1 505 HTTP Version Not Supported\r\ndate: Thu, 01 Jan 1970 00:00:00 GMT\r\ncontent-length: 0\r\n\r\n
511 | "" | - | "" | head keep 0 | HTTP/1.1 511 Network Authentication Required\r\ndate: Thu, 01 Jan 1970 00:00:00 GMT\r\ncontent-length: 0\r\n\r\n
599 | "" | - | "" | head keep 0 | HTTP/1.1 599 \r\ndate: Thu, 01 Jan 1970 00:00:00 GMT\r\ncontent-length: 0\r\n\r\n
600 | "" | - | "" | head keep 0 | HTTP/1.1 600 \r\ndate: Thu, 01 Jan 1970 00:00:00 GMT\r\ncontent-length: 0\r\n\r\n
999 | "" | - | "" | head keep 0 | HTTP/1.1 999 \r\ndate: Thu, 01 Jan 1970 00:00:00 GMT\r\ncontent-length: 0\r\n\r\n

-- RFC 9110, section 5.6.7: a moment in seconds since 1970 has its date
-- the first seconds, minutes, hours and days
200 | "" | - | "" | head keep 0            | HTTP/1.1 200 OK\r\ndate: Thu, 01 Jan 1970 00:00:00 GMT\r\ncontent-length: 0\r\n\r\n
200 | "" | - | "" | head keep 1            | HTTP/1.1 200 OK\r\ndate: Thu, 01 Jan 1970 00:00:01 GMT\r\ncontent-length: 0\r\n\r\n
200 | "" | - | "" | head keep 59           | HTTP/1.1 200 OK\r\ndate: Thu, 01 Jan 1970 00:00:59 GMT\r\ncontent-length: 0\r\n\r\n
200 | "" | - | "" | head keep 60           | HTTP/1.1 200 OK\r\ndate: Thu, 01 Jan 1970 00:01:00 GMT\r\ncontent-length: 0\r\n\r\n
200 | "" | - | "" | head keep 3599         | HTTP/1.1 200 OK\r\ndate: Thu, 01 Jan 1970 00:59:59 GMT\r\ncontent-length: 0\r\n\r\n
200 | "" | - | "" | head keep 3600         | HTTP/1.1 200 OK\r\ndate: Thu, 01 Jan 1970 01:00:00 GMT\r\ncontent-length: 0\r\n\r\n
200 | "" | - | "" | head keep 86399        | HTTP/1.1 200 OK\r\ndate: Thu, 01 Jan 1970 23:59:59 GMT\r\ncontent-length: 0\r\n\r\n
200 | "" | - | "" | head keep 86400        | HTTP/1.1 200 OK\r\ndate: Fri, 02 Jan 1970 00:00:00 GMT\r\ncontent-length: 0\r\n\r\n
-- the example of RFC 9110, section 5.6.7
200 | "" | - | "" | head keep 784111777    | HTTP/1.1 200 OK\r\ndate: Sun, 06 Nov 1994 08:49:37 GMT\r\ncontent-length: 0\r\n\r\n
-- each month and each day of the week
200 | "" | - | "" | head keep 1672622401   | HTTP/1.1 200 OK\r\ndate: Mon, 02 Jan 2023 01:20:01 GMT\r\ncontent-length: 0\r\n\r\n
200 | "" | - | "" | head keep 1675390802   | HTTP/1.1 200 OK\r\ndate: Fri, 03 Feb 2023 02:20:02 GMT\r\ncontent-length: 0\r\n\r\n
200 | "" | - | "" | head keep 1677900003   | HTTP/1.1 200 OK\r\ndate: Sat, 04 Mar 2023 03:20:03 GMT\r\ncontent-length: 0\r\n\r\n
200 | "" | - | "" | head keep 1680668404   | HTTP/1.1 200 OK\r\ndate: Wed, 05 Apr 2023 04:20:04 GMT\r\ncontent-length: 0\r\n\r\n
200 | "" | - | "" | head keep 1683350405   | HTTP/1.1 200 OK\r\ndate: Sat, 06 May 2023 05:20:05 GMT\r\ncontent-length: 0\r\n\r\n
200 | "" | - | "" | head keep 1686118806   | HTTP/1.1 200 OK\r\ndate: Wed, 07 Jun 2023 06:20:06 GMT\r\ncontent-length: 0\r\n\r\n
200 | "" | - | "" | head keep 1688973607   | HTTP/1.1 200 OK\r\ndate: Mon, 10 Jul 2023 07:20:07 GMT\r\ncontent-length: 0\r\n\r\n
200 | "" | - | "" | head keep 1691569208   | HTTP/1.1 200 OK\r\ndate: Wed, 09 Aug 2023 08:20:08 GMT\r\ncontent-length: 0\r\n\r\n
200 | "" | - | "" | head keep 1693560009   | HTTP/1.1 200 OK\r\ndate: Fri, 01 Sep 2023 09:20:09 GMT\r\ncontent-length: 0\r\n\r\n
200 | "" | - | "" | head keep 1696206000   | HTTP/1.1 200 OK\r\ndate: Mon, 02 Oct 2023 00:20:00 GMT\r\ncontent-length: 0\r\n\r\n
200 | "" | - | "" | head keep 1698974401   | HTTP/1.1 200 OK\r\ndate: Fri, 03 Nov 2023 01:20:01 GMT\r\ncontent-length: 0\r\n\r\n
200 | "" | - | "" | head keep 1701483602   | HTTP/1.1 200 OK\r\ndate: Sat, 02 Dec 2023 02:20:02 GMT\r\ncontent-length: 0\r\n\r\n
-- the ends of years, leap days, and years by 100 and 400
200 | "" | - | "" | head keep 68169600     | HTTP/1.1 200 OK\r\ndate: Tue, 29 Feb 1972 00:00:00 GMT\r\ncontent-length: 0\r\n\r\n
200 | "" | - | "" | head keep 68256000     | HTTP/1.1 200 OK\r\ndate: Wed, 01 Mar 1972 00:00:00 GMT\r\ncontent-length: 0\r\n\r\n
200 | "" | - | "" | head keep 946684799    | HTTP/1.1 200 OK\r\ndate: Fri, 31 Dec 1999 23:59:59 GMT\r\ncontent-length: 0\r\n\r\n
200 | "" | - | "" | head keep 946684800    | HTTP/1.1 200 OK\r\ndate: Sat, 01 Jan 2000 00:00:00 GMT\r\ncontent-length: 0\r\n\r\n
200 | "" | - | "" | head keep 951782399    | HTTP/1.1 200 OK\r\ndate: Mon, 28 Feb 2000 23:59:59 GMT\r\ncontent-length: 0\r\n\r\n
200 | "" | - | "" | head keep 951782400    | HTTP/1.1 200 OK\r\ndate: Tue, 29 Feb 2000 00:00:00 GMT\r\ncontent-length: 0\r\n\r\n
200 | "" | - | "" | head keep 951868800    | HTTP/1.1 200 OK\r\ndate: Wed, 01 Mar 2000 00:00:00 GMT\r\ncontent-length: 0\r\n\r\n
200 | "" | - | "" | head keep 4107542399   | HTTP/1.1 200 OK\r\ndate: Sun, 28 Feb 2100 23:59:59 GMT\r\ncontent-length: 0\r\n\r\n
200 | "" | - | "" | head keep 4107542400   | HTTP/1.1 200 OK\r\ndate: Mon, 01 Mar 2100 00:00:00 GMT\r\ncontent-length: 0\r\n\r\n
200 | "" | - | "" | head keep 13574563199  | HTTP/1.1 200 OK\r\ndate: Mon, 28 Feb 2400 23:59:59 GMT\r\ncontent-length: 0\r\n\r\n
200 | "" | - | "" | head keep 13574563200  | HTTP/1.1 200 OK\r\ndate: Tue, 29 Feb 2400 00:00:00 GMT\r\ncontent-length: 0\r\n\r\n
-- behind the greatest numbers of 31 and 32 bits
200 | "" | - | "" | head keep 2147483648   | HTTP/1.1 200 OK\r\ndate: Tue, 19 Jan 2038 03:14:08 GMT\r\ncontent-length: 0\r\n\r\n
200 | "" | - | "" | head keep 4294967296   | HTTP/1.1 200 OK\r\ndate: Sun, 07 Feb 2106 06:28:16 GMT\r\ncontent-length: 0\r\n\r\n
-- the last second of the year 9999, which stands for every later moment
200 | "" | - | "" | head keep 253370764800 | HTTP/1.1 200 OK\r\ndate: Fri, 01 Jan 9999 00:00:00 GMT\r\ncontent-length: 0\r\n\r\n
200 | "" | - | "" | head keep 253402300798 | HTTP/1.1 200 OK\r\ndate: Fri, 31 Dec 9999 23:59:58 GMT\r\ncontent-length: 0\r\n\r\n
200 | "" | - | "" | head keep 253402300799 | HTTP/1.1 200 OK\r\ndate: Fri, 31 Dec 9999 23:59:59 GMT\r\ncontent-length: 0\r\n\r\n
200 | "" | - | "" | head keep 253402300800 | HTTP/1.1 200 OK\r\ndate: Fri, 31 Dec 9999 23:59:59 GMT\r\ncontent-length: 0\r\n\r\n
200 | "" | - | "" | head keep 18446744073709551615 | HTTP/1.1 200 OK\r\ndate: Fri, 31 Dec 9999 23:59:59 GMT\r\ncontent-length: 0\r\n\r\n
"#;

/// The same columns for bodies in pieces.
const PIECES: &str = r#"
-- RFC 9112, sections 6.1 and 7.1: chunks in place of a length, each with its size in hexadecimal, and the last one with an empty trailer
200 | content-type: text/plain | - | flushed 1.1: one\n/two\n | whole keep 0 | HTTP/1.1 200 OK\r\ndate: Thu, 01 Jan 1970 00:00:00 GMT\r\ncontent-type: text/plain\r\ntransfer-encoding: chunked\r\n\r\n4\r\none\n\r\n4\r\ntwo\n\r\n0\r\n\r\n
200 | "" | - | flushed 1.1: \{9*x}/\{10*x}/\{15*x}/\{16*x} | whole keep 0 | HTTP/1.1 200 OK\r\ndate: Thu, 01 Jan 1970 00:00:00 GMT\r\ntransfer-encoding: chunked\r\n\r\n9\r\n\{9*x}\r\na\r\n\{10*x}\r\nf\r\n\{15*x}\r\n10\r\n\{16*x}\r\n0\r\n\r\n
200 | "" | - | flushed 1.1: \{255*x}/\{256*y}/\{43981*z} | whole keep 0 | HTTP/1.1 200 OK\r\ndate: Thu, 01 Jan 1970 00:00:00 GMT\r\ntransfer-encoding: chunked\r\n\r\nff\r\n\{255*x}\r\n100\r\n\{256*y}\r\nabcd\r\n\{43981*z}\r\n0\r\n\r\n
200 | "" | - | flushed 1.1: \x00\r\n/\xFF | whole close 0 | HTTP/1.1 200 OK\r\ndate: Thu, 01 Jan 1970 00:00:00 GMT\r\ntransfer-encoding: chunked\r\nconnection: close\r\n\r\n3\r\n\x00\r\n\r\n1\r\n\xFF\r\n0\r\n\r\n
200 | "" | JSESSIONID=a at / HttpOnly | flushed 1.1: x | whole keep 0 | HTTP/1.1 200 OK\r\ndate: Thu, 01 Jan 1970 00:00:00 GMT\r\nset-cookie: JSESSIONID=a; Path=/; HttpOnly\r\ntransfer-encoding: chunked\r\n\r\n1\r\nx\r\n0\r\n\r\n
-- a piece without bytes would be the last chunk, and is none
200 | "" | - | flushed 1.1: / | whole keep 0 | HTTP/1.1 200 OK\r\ndate: Thu, 01 Jan 1970 00:00:00 GMT\r\ntransfer-encoding: chunked\r\n\r\n0\r\n\r\n
200 | "" | - | flushed 1.1: x//y | whole keep 0 | HTTP/1.1 200 OK\r\ndate: Thu, 01 Jan 1970 00:00:00 GMT\r\ntransfer-encoding: chunked\r\n\r\n1\r\nx\r\n1\r\ny\r\n0\r\n\r\n
-- what broke off has no last chunk, and the head that it would have had
200 | "" | - | broken 1.1: one\n/ | whole keep 0 | HTTP/1.1 200 OK\r\ndate: Thu, 01 Jan 1970 00:00:00 GMT\r\ntransfer-encoding: chunked\r\n\r\n4\r\none\n\r\n
200 | "" | - | broken 1.1: / | whole keep 0 | HTTP/1.1 200 OK\r\ndate: Thu, 01 Jan 1970 00:00:00 GMT\r\ntransfer-encoding: chunked\r\n\r\n
-- RFC 9112, section 6.3: a client that reads no chunks finds the end where the connection closes
200 | "" | - | flushed 1.0: one\n/two\n | whole close 0 | HTTP/1.1 200 OK\r\ndate: Thu, 01 Jan 1970 00:00:00 GMT\r\nconnection: close\r\n\r\none\ntwo\n
200 | "" | - | flushed 1.0: one\n/two\n | whole keep 0 | HTTP/1.1 200 OK\r\ndate: Thu, 01 Jan 1970 00:00:00 GMT\r\nconnection: close\r\n\r\none\ntwo\n
200 | "" | - | broken 1.0: one\n/ | whole close 0 | HTTP/1.1 200 OK\r\ndate: Thu, 01 Jan 1970 00:00:00 GMT\r\nconnection: close\r\n\r\none\n
-- RFC 9110, sections 9.3.2 and 15.3.5: the head alone, and no content
200 | "" | - | flushed 1.1: one\n/two\n | head keep 0 | HTTP/1.1 200 OK\r\ndate: Thu, 01 Jan 1970 00:00:00 GMT\r\ntransfer-encoding: chunked\r\n\r\n
200 | "" | - | flushed 1.0: one\n/two\n | head close 0 | HTTP/1.1 200 OK\r\ndate: Thu, 01 Jan 1970 00:00:00 GMT\r\nconnection: close\r\n\r\n
200 | "" | - | broken 1.1: one\n/ | head keep 0 | HTTP/1.1 200 OK\r\ndate: Thu, 01 Jan 1970 00:00:00 GMT\r\ntransfer-encoding: chunked\r\n\r\n
204 | x-a: 1 | - | flushed 1.1: one\n/two\n | whole keep 0 | HTTP/1.1 204 No Content\r\ndate: Thu, 01 Jan 1970 00:00:00 GMT\r\nx-a: 1\r\n\r\n
204 | "" | - | flushed 1.0: one\n/two\n | whole close 0 | HTTP/1.1 204 No Content\r\ndate: Thu, 01 Jan 1970 00:00:00 GMT\r\nconnection: close\r\n\r\n
"#;

#[test]
fn a_response_is_appended_to_the_existing_text(rt: HostRuntime) -> Result<(), Strays> {
    hold(&rt, &[ROWS, PIECES], &Responses)
}
