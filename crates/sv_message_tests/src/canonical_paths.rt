//! Request targets and their canonical paths.

use crate::targets::Targets;
use std::test::Fail;
use sv_rows::{Strays, hold};
use sv_uri::canon;

/// The columns: target; path or fault; query, or `-` for none.
const ROWS: &str = r#"
-- RFC 3986, section 5.2.4: the two worked examples, the second with the slash that a target needs
/a/b/c/./../../g            | /a/g            | -
/mid/content=5/../6         | /mid/6          | -
mid/content=5/../6          | NoSlash         | -

-- RFC 3986, section 5.4.1, normal examples: each reference joined to the base's path /b/c/d;p?q
/b/c/g                      | /b/c/g          | -
/b/c/./g                    | /b/c/g          | -
/b/c/g/                     | /b/c/g/         | -
/g                          | /g              | -
/b/c/d;p?y                  | /b/c/d          | y
/b/c/g?y                    | /b/c/g          | y
/b/c/d;p?q#s                | Fragment        | -
/b/c/g#s                    | Fragment        | -
/b/c/g?y#s                  | Fragment        | -
/b/c/g;x                    | /b/c/g          | -
/b/c/g;x?y                  | /b/c/g          | y
/b/c/g;x?y#s                | Fragment        | -
/b/c/d;p?q                  | /b/c/d          | q
/b/c/.                      | /b/c/           | -
/b/c/./                     | /b/c/           | -
/b/c/..                     | /b/             | -
/b/c/../                    | /b/             | -
/b/c/../g                   | /b/g            | -
/b/c/../..                  | /               | -
/b/c/../../                 | /               | -
/b/c/../../g                | /g              | -
-- the reference ;x makes an empty segment with a parameter, which section 3.5.2 of Servlet calls suspicious
/b/c/;x                     | EmptyParameter  | -

-- RFC 3986, section 5.4.2, abnormal examples; Servlet, section 3.5.2, refuses to climb above the root
/b/c/../../../g             | Climbs          | -
/b/c/../../../../g          | Climbs          | -
/./g                        | /g              | -
/../g                       | Climbs          | -
/b/c/g.                     | /b/c/g.         | -
/b/c/.g                     | /b/c/.g         | -
/b/c/g..                    | /b/c/g..        | -
/b/c/..g                    | /b/c/..g        | -
/b/c/./../g                 | /b/g            | -
/b/c/./g/.                  | /b/c/g/         | -
/b/c/g/./h                  | /b/c/g/h        | -
/b/c/g/../h                 | /b/c/h          | -
/b/c/g;x=1/./y              | /b/c/g/y        | -
/b/c/g;x=1/../y             | /b/c/y          | -
/b/c/g?y/./x                | /b/c/g          | y/./x
/b/c/g?y/../x               | /b/c/g          | y/../x
/b/c/g#s/./x                | Fragment        | -

-- Servlet, section 3.5.2: a target is an origin-form that begins with a slash
""                          | NoSlash         | -
*                           | NoSlash         | -
a/b                         | NoSlash         | -
http://h/a                  | NoSlash         | -
?q                          | NoSlash         | -
;x/a                        | NoSlash         | -
%2Fa                        | NoSlash         | -
/                           | /               | -

-- the query begins behind the first question mark and is kept as written, but for bytes outside 33 to 126
/a?                         | /a              | ""
/a??b                       | /a              | ?b
/a?b?c                      | /a              | b?c
/?q                         | /               | q
/a?/../b                    | /a              | /../b
/a?%41%zz%2F                | /a              | %41%zz%2F
/a?x\x20y\x00\x7F           | /a              | x%20y%00%7F
/a?\xC3\xA9\xFF             | /a              | %C3%A9%FF
/a?b\\c                     | /a              | b\\c
/a?!~                       | /a              | !~
/a;x?y;z                    | /a              | y;z
/a%3Fb                      | /a?b            | -
/a%3Fb?c                    | /a?b            | c

-- parameters are cut at the first semicolon before anything is decoded, and their text is not examined
/a;jsessionid=1/b           | /a/b            | -
/a;b;c/d                    | /a/d            | -
/a;                         | /a              | -
/a;/b                       | /a/b            | -
/a;x/                       | /a/             | -
/a%3Bb                      | /a;b            | -
/a/%3B/b                    | /a/;/b          | -
/a;%2F                      | /a              | -
/a;%zz                      | /a              | -
/a;b\\c                     | /a              | -
/a;%00                      | /a              | -
/a;\xFF                     | /a              | -
/a;..                       | /a              | -
/;                          | EmptyParameter  | -
/;x                         | EmptyParameter  | -
/a/;x                       | EmptyParameter  | -
/a/;x/b                     | EmptyParameter  | -
//;/                        | EmptyParameter  | -
/a;x#                       | Fragment        | -

-- each escape is decoded once
/%41                        | /A              | -
/%61%62                     | /ab             | -
/%2541                      | /%41            | -
/%252541                    | /%2541          | -
/a%25                       | /a%             | -
/a%252F                     | /a%2F           | -
/%252e%252e/x               | /%2e%2e/x       | -
/a%20b                      | /a b            | -
/a\x20b                     | /a b            | -
/a+b                        | /a+b            | -
/a%2Bb                      | /a+b            | -
/a%23b                      | /a#b            | -
/%7e                        | /~              | -
/a%3Ab                      | /a:b            | -
/%                          | BadEscape       | -
/a%                         | BadEscape       | -
/%4                         | BadEscape       | -
/%4/1                       | BadEscape       | -
/%4g                        | BadEscape       | -
/%g4                        | BadEscape       | -
/%%34                       | BadEscape       | -
/%u0041                     | BadEscape       | -
/%-1                        | BadEscape       | -
/%;41                       | BadEscape       | -

-- a slash or a backslash may not hide in a segment
/a%2Fb                      | EncodedSlash    | -
/a%2fb                      | EncodedSlash    | -
/%2F                        | EncodedSlash    | -
/a\\b                       | Backslash       | -
/a%5Cb                      | Backslash       | -
/a%5cb                      | Backslash       | -
/..\\x                      | Backslash       | -

-- control bytes, encoded or not
/a%00                       | Control         | -
/a%0D%0A                    | Control         | -
/a%1F                       | Control         | -
/a%7F                       | Control         | -
/a%09b                      | Control         | -
/a\x01b                     | Control         | -
/a\tb                       | Control         | -
/a\x7Fb                     | Control         | -
/a\x00                      | Control         | -

-- RFC 3629, section 3: UTF-8 of one to four bytes, no overlong forms, no surrogates, nothing past U+10FFFF
/%C3%A9                     | /é              | -
/%c3%a9                     | /é              | -
/\xC3\xA9                   | /é              | -
/\xC3%A9                    | /é              | -
/%E2%82%AC                  | /€              | -
/%F0%9F%98%80               | /😀             | -
/%80                        | NotUtf8         | -
/%ff                        | NotUtf8         | -
/\xFF                       | NotUtf8         | -
/%C3                        | NotUtf8         | -
/%C3/%A9                    | NotUtf8         | -
/%C3;%A9                    | NotUtf8         | -
/%C0%AE                     | NotUtf8         | -
/%C0%AF                     | NotUtf8         | -
/%E0%80%AF                  | NotUtf8         | -
/%ED%A0%80                  | NotUtf8         | -
/%F4%90%80%80               | NotUtf8         | -

-- empty segments fall away, but for a last one
//                          | /               | -
///                         | /               | -
//a                         | /a              | -
/a//b                       | /a/b            | -
/a//                        | /a/             | -
//a//b//                    | /a/b/           | -
/a//../b                    | /b              | -
/a//..                      | /               | -
/a/..//                     | /               | -

-- dots: a last . or .. leaves an empty last segment, and an encoded one, or one with a parameter, is refused
/.                          | /               | -
/./                         | /               | -
/././.                      | /               | -
/a/..                       | /               | -
/a/b/..                     | /a/             | -
/a/b/../..                  | /               | -
/a/b/c/../../d              | /a/d            | -
/a/./b/./c                  | /a/b/c          | -
/...                        | /...            | -
/.../x                      | /.../x          | -
/..a/b..                    | /..a/b..        | -
/%2ea                       | /.a             | -
/%2e%2e%2e                  | /...            | -
/%2e/x                      | DotSegment      | -
/%2E                        | DotSegment      | -
/%2e%2e/x                   | DotSegment      | -
/a/.%2e/x                   | DotSegment      | -
/a/%2e./x                   | DotSegment      | -
/a/.;x/b                    | DotSegment      | -
/a/..;x/b                   | DotSegment      | -
/a/.;                       | DotSegment      | -
/a/..;                      | DotSegment      | -
/a/%2e%2e;x/b               | DotSegment      | -
/..                         | Climbs          | -
/../                        | Climbs          | -
/../x                       | Climbs          | -
/./..                       | Climbs          | -
/a/../..                    | Climbs          | -
/a/../../b                  | Climbs          | -
/a/../../b/c                | Climbs          | -
/a/../b/../../c             | Climbs          | -
//..                        | Climbs          | -

-- several together
/a//b/./c/../d;x=1/%41?q    | /a/b/d/A        | q
/A/a                        | /A/a            | -

-- of several faults: a fragment, then no slash, then the first faulty segment and in it the earliest kind, then climbing
a#b                         | Fragment        | -
#                           | Fragment        | -
/%zz#                       | Fragment        | -
/a?#                        | Fragment        | -
a%zz                        | NoSlash         | -
/a\\b/%zz                   | Backslash       | -
/a\\b%zz                    | BadEscape       | -
/%5c%2f                     | EncodedSlash    | -
/%2f%zz                     | BadEscape       | -
/%00%5c                     | Backslash       | -
/%ff%00                     | Control         | -
/%ff/%2e                    | NotUtf8         | -
/%2e/%ff                    | DotSegment      | -
/;x/%2e                     | EmptyParameter  | -
/%2e/;x                     | DotSegment      | -
/%00;x                      | Control         | -
/../%2e                     | DotSegment      | -
/../;x                      | EmptyParameter  | -
/../a%2F                    | EncodedSlash    | -
/../../a;x                  | Climbs          | -
"#;

#[test]
fn a_target_is_read_as_its_canonical_path_or_its_first_fault(
    rt: HostRuntime,
) -> Result<(), Strays> {
    hold(&rt, &[ROWS], &Targets)
}

#[test]
fn a_target_is_read_with_ample_memory(rt: HostRuntime) -> Result<(), Fail> {
    let canon = canon(rt.alloc(), b"/a%20b")?;
    assert_eq!(rt; canon.path.as_str(), "/a b");
    Ok(())
}
