//! Paths in Location fields, and the content types of files.

use std::alloc::Global;
use sv_files::content_type_of;
use sv_rows::{Asks, Strays, cell, hold, unescaped};
use sv_text::NoMemory;
use sv_uri::location;

/// Answers with the location of a path.
struct Locations;

impl Asks for Locations {
    const QUESTION: usize = 1;

    fn answer(&self, alloc: Global, row: &str, answer: &mut Vec<u8>) -> Result<(), NoMemory> {
        let path = unescaped(alloc, cell(row, 0))?;
        let path = String::from_utf8_lossy(alloc, path.as_slice())?;
        answer.extend_from_slice(location(alloc, path.as_str())?.as_bytes())?;
        Ok(())
    }
}

/// The columns: path; location.
const LOCATIONS: &str = r#"
-- RFC 3986, section 3.3: unreserved bytes, sub-delimiters but the one of parameters, colons and commercial ats stay in a path
/                               | /
/a/b                            | /a/b
/AZaz09-._~                     | /AZaz09-._~
/!$&'()*+,=:@                   | /!$&'()*+,=:@
-- RFC 3986, section 2.1: all others are escapes in upper case
/a b;\xC3\xA9                   | /a%20b%3B%C3%A9
/%                              | /%25
/%41                            | /%2541
/?#[]                           | /%3F%23%5B%5D
/"<>^`{}                        | /%22%3C%3E%5E%60%7B%7D
/\\                             | /%5C
/\x01\x1F\x7F                   | /%01%1F%7F
/\xF0\x9F\x8D\x8E               | /%F0%9F%8D%8E
""                              | ""
a b                             | a%20b
"#;

#[test]
fn a_path_is_encoded_for_a_location_header(rt: HostRuntime) -> Result<(), Strays> {
    hold(&rt, &[LOCATIONS], &Locations)
}

/// Answers with the content type of a file.
struct Types;

impl Asks for Types {
    const QUESTION: usize = 1;

    fn answer(&self, _alloc: Global, row: &str, answer: &mut Vec<u8>) -> Result<(), NoMemory> {
        answer.extend_from_slice(content_type_of(cell(row, 0)).as_bytes())?;
        Ok(())
    }
}

/// The columns: path; content type.
const TYPES: &str = r#"
/a.html                         | text/html
/a.htm                          | text/html
/a.txt                          | text/plain
/a.css                          | text/css
/a.js                           | text/javascript
/a.json                         | application/json
/a.svg                          | image/svg+xml
/a.b/c.d.txt                    | text/plain
/.css                           | text/css
-- any other extension, one in another case, and none
/a.HTML                         | application/octet-stream
/a.png                          | application/octet-stream
/a.                             | application/octet-stream
/a                              | application/octet-stream
/a.txt/b                        | application/octet-stream
/a.txt/                         | application/octet-stream
"#;

#[test]
fn a_file_has_the_content_type_of_its_extension(rt: HostRuntime) -> Result<(), Strays> {
    hold(&rt, &[TYPES], &Types)
}
