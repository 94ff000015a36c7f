//! The canonicalization table of the Servlet specification, section 3.5.2, row by row.

use crate::targets::Compared;
use sv_rows::{Strays, hold};

/// The columns: target; path of the standard; `400` if the standard calls the target suspicious; our path or fault;
/// reason for a difference.
const ROWS: &str = r#"
foo/bar                   | /foo/bar            | 400 | NoSlash        | -
/foo/bar                  | /foo/bar            | -   | /foo/bar       | -
/foo/bar;jsessionid=1234  | /foo/bar            | -   | /foo/bar       | -
/foo/bar/                 | /foo/bar/           | -   | /foo/bar/      | -
/foo/bar/;jsessionid=1234 | /foo/bar/           | -   | EmptyParameter | an empty segment with a parameter is refused, also where it is last
/foo;/bar;                | /foo/bar            | -   | /foo/bar       | -
/foo;/bar;/;              | /foo/bar/           | -   | EmptyParameter | an empty segment with a parameter is refused, also where it is last
/foo%00/bar/              | /foo\x00/bar/       | 400 | Control        | -
/foo%7Fbar                | /foo\x7Fbar         | 400 | Control        | -
/foo%2Fbar                | /foo%2Fbar          | 400 | EncodedSlash   | -
/foo%2Fb%25r              | /foo%2Fb%25r        | 400 | EncodedSlash   | -
/foo/b%25r                | /foo/b%r            | -   | /foo/b%r       | -
/foo\\bar                 | /foo\\bar           | 400 | Backslash      | -
/foo%5Cbar                | /foo\\bar           | 400 | Backslash      | -
/foo;%2F/bar              | /foo/bar            | 400 | /foo/bar       | a parameter's text is not examined
/foo/./bar                | /foo/bar            | -   | /foo/bar       | -
/foo/././bar              | /foo/bar            | -   | /foo/bar       | -
/./foo/bar                | /foo/bar            | -   | /foo/bar       | -
/foo/%2e/bar              | /foo/bar            | 400 | DotSegment     | -
/foo/.;/bar               | /foo/bar            | 400 | DotSegment     | -
/foo/%2e;/bar             | /foo/bar            | 400 | DotSegment     | -
/foo/.%2Fbar              | /foo/.%2Fbar        | 400 | EncodedSlash   | -
/foo/.%5Cbar              | /foo/.\\bar         | 400 | Backslash      | -
/foo/bar/.                | /foo/bar            | -   | /foo/bar/      | a last dot segment leaves a closing slash, as in RFC 3986, section 5.2.4
/foo/bar/./               | /foo/bar/           | -   | /foo/bar/      | -
/foo/bar/.;               | /foo/bar            | 400 | DotSegment     | -
/foo/bar/./;              | /foo/bar/           | -   | EmptyParameter | an empty segment with a parameter is refused, also where it is last
/foo/.bar                 | /foo/.bar           | -   | /foo/.bar      | -
/foo/../bar               | /bar                | -   | /bar           | -
/foo/../../bar            | /../bar             | 400 | Climbs         | -
/../foo/bar               | /../foo/bar         | 400 | Climbs         | -
/foo/%2e%2E/bar           | /bar                | 400 | DotSegment     | -
/foo/%2e%2e/%2E%2E/bar    | /../bar             | 400 | DotSegment     | -
/foo/./../bar             | /bar                | -   | /bar           | -
/foo/..;/bar              | /bar                | 400 | DotSegment     | -
/foo/%2e%2E;/bar          | /bar                | 400 | DotSegment     | -
/foo/..%2Fbar             | /foo/..%2Fbar       | 400 | EncodedSlash   | -
/foo/..%5Cbar             | /foo/..\\bar        | 400 | Backslash      | -
/foo/bar/..               | /foo                | -   | /foo/          | a last dot segment leaves a closing slash, as in RFC 3986, section 5.2.4
/foo/bar/../              | /foo/               | -   | /foo/          | -
/foo/bar/..;              | /foo                | 400 | DotSegment     | -
/foo/bar/../;             | /foo/               | -   | EmptyParameter | an empty segment with a parameter is refused, also where it is last
/foo/..bar                | /foo/..bar          | -   | /foo/..bar     | -
/foo/.../bar              | /foo/.../bar        | -   | /foo/.../bar   | -
/foo//bar                 | /foo/bar            | -   | /foo/bar       | -
//foo//bar//              | /foo/bar/           | -   | /foo/bar/      | -
/;/foo;/;/bar/;/;         | /foo/bar/           | 400 | EmptyParameter | -
/foo//../bar              | /bar                | -   | /bar           | -
/foo/;/../bar             | /bar                | 400 | EmptyParameter | -
/foo%E2%82%ACbar          | /foo€bar            | -   | /foo€bar       | -
/foo%20bar                | /foo bar            | -   | /foo bar       | -
/foo%E2%82                | /foo%E2%82          | 400 | NotUtf8        | -
/foo%E2%82bar             | /foo%E2%82bar       | 400 | NotUtf8        | -
/foo%-1/bar               | /foo%-1/bar         | 400 | BadEscape      | -
/foo%XX/bar               | /foo%XX/bar         | 400 | BadEscape      | -
/foo%/bar                 | /foo%/bar           | 400 | BadEscape      | -
/foo/bar%0                | /foo/bar%0          | 400 | BadEscape      | -
/good%20/bad%/%20mix%     | /good /bad%/%20mix% | 400 | BadEscape      | -
/foo/bar?q                | /foo/bar            | -   | /foo/bar       | -
/foo/bar#f                | /foo/bar            | 400 | Fragment       | -
/foo/bar?q#f              | /foo/bar            | 400 | Fragment       | -
/foo/bar/?q               | /foo/bar/           | -   | /foo/bar/      | -
/foo/bar/#f               | /foo/bar/           | 400 | Fragment       | -
/foo/bar/?q#f             | /foo/bar/           | 400 | Fragment       | -
/foo/bar;?q               | /foo/bar            | -   | /foo/bar       | -
/foo/bar;#f               | /foo/bar            | 400 | Fragment       | -
/foo/bar;?q#f             | /foo/bar            | 400 | Fragment       | -
/                         | /                   | -   | /              | -
//                        | /                   | -   | /              | -
/;/                       | /                   | 400 | EmptyParameter | -
/.                        | /                   | -   | /              | -
/..                       | /..                 | 400 | Climbs         | -
/./                       | /                   | -   | /              | -
/../                      | /../                | 400 | Climbs         | -
foo/bar/                  | /foo/bar/           | 400 | NoSlash        | -
./foo/bar/                | /foo/bar/           | 400 | NoSlash        | -
%2e/foo/bar/              | /foo/bar/           | 400 | NoSlash        | -
../foo/bar/               | /../foo/bar/        | 400 | NoSlash        | -
.%2e/foo/bar/             | /../foo/bar/        | 400 | NoSlash        | -
;/foo/bar/                | /foo/bar/           | 400 | NoSlash        | -
/#f                       | /                   | 400 | Fragment       | -
#f                        | /                   | 400 | Fragment       | -
/?q                       | /                   | -   | /              | -
?q                        | /                   | 400 | NoSlash        | -
"#;

#[test]
fn each_target_of_the_specification_has_a_documented_answer(rt: HostRuntime) -> Result<(), Strays> {
    hold(&rt, &[ROWS], &Compared)
}
