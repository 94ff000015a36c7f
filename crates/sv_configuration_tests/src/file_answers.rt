//! The answers of the file servlet.

use crate::chains::kind_of;
use crate::file_lists::files_of;
use std::alloc::Global;
use sv_files::{FileAnswer, Files};
use sv_mapping::{Pattern, PatternFault};
use sv_rows::{Asks, Strays, cell, hold};
use sv_text::{NoMemory, Text};

/// Answers with the file servlet's answer for these files, welcome names and servlet patterns. Each file contains its
/// path.
struct Served;

impl Asks for Served {
    const QUESTION: usize = 6;

    fn answer(&self, alloc: Global, row: &str, answer: &mut Vec<u8>) -> Result<(), NoMemory> {
        match Files::from_list(alloc, files_of(alloc, cell(row, 0))?) {
            Ok(files) => push_answer_of(alloc, &files, row, answer),
            Err(_) => Err(NoMemory),
        }
    }
}

fn push_answer_of(
    alloc: Global,
    files: &Files,
    row: &str,
    answer: &mut Vec<u8>,
) -> Result<(), NoMemory> {
    let names = names_of(alloc, cell(row, 1))?;
    let patterns = patterns_of(alloc, cell(row, 2))?;
    let (path, method, kind) = (cell(row, 3), cell(row, 4), kind_of(cell(row, 5)));
    let found = files.answer(
        alloc,
        path,
        method,
        kind,
        names.as_slice(),
        patterns.as_slice(),
    )?;
    push_answer(answer, &found)
}

fn push_answer(answer: &mut Vec<u8>, found: &FileAnswer<'_>) -> Result<(), NoMemory> {
    let (word, rest) = match found {
        FileAnswer::File(bytes) => ("File ", bytes.as_slice()),
        FileAnswer::Welcome(path) => ("Welcome ", path.as_bytes()),
        FileAnswer::Slash => ("Slash", b"".as_slice()),
        FileAnswer::Missing => ("Missing", b"".as_slice()),
        FileAnswer::Method => ("Method", b"".as_slice()),
    };
    answer.extend_from_slice(word.as_bytes())?;
    answer.extend_from_slice(rest)?;
    Ok(())
}

/// Returns the names of a cell, separated by blanks.
fn names_of(alloc: Global, names: &str) -> Result<Vec<Text>, NoMemory> {
    let mut listed = Vec::new(alloc);
    for name in names.split(' ') {
        listed.push(Text::copy_of(alloc, name)?)?;
    }
    Ok(listed)
}

/// Returns the patterns of a cell, separated by blanks, or none for `-`.
fn patterns_of(alloc: Global, texts: &str) -> Result<Vec<Pattern>, NoMemory> {
    let mut patterns = Vec::new(alloc);
    for text in texts.split(' ') {
        match Pattern::parse(alloc, text) {
            Ok(pattern) => patterns.push(pattern)?,
            Err(PatternFault::BadPattern) => {}
            Err(PatternFault::NoMemory) => return Err(NoMemory),
        }
    }
    Ok(patterns)
}

/// The columns: paths of files; welcome names; patterns of servlets; path; method; kind; answer.
const ROWS: &str = r#"
/a/index.html            | index.html | -    | /a             | GET  | REQUEST | Slash
/a/index.html            | index.html | -    | /a/            | GET  | REQUEST | Welcome /a/index.html
/a/index.html            | index.html | -    | /a/index.html  | GET  | REQUEST | File /a/index.html
/a/index.html            | index.html | -    | /a/index.html  | HEAD | REQUEST | File /a/index.html
/a/index.html            | index.html | -    | /b             | GET  | REQUEST | Missing
/a/index.html            | index.html | -    | /a/index.htm   | GET  | REQUEST | Missing
/a/index.html            | index.html | -    | /A             | GET  | REQUEST | Missing
/a/index.html            | index.html | -    | /a/index       | GET  | REQUEST | Missing

-- a method that does not read is refused where something stands
/a/index.html            | index.html | -    | /a/index.html  | PUT  | REQUEST | Method
/a/index.html            | index.html | -    | /a             | PUT  | REQUEST | Method
/a/index.html            | index.html | -    | /a/            | POST | REQUEST | Method
/a/index.html            | index.html | -    | /b             | PUT  | REQUEST | Missing
/a/index.html            | index.html | -    | /b/            | PUT  | REQUEST | Missing
/a/index.html            | index.html | -    | /a/index.html  | get  | REQUEST | Method

-- Servlet, chapter 9: another dispatch reads a file by any method, and is sent nowhere
/a/index.html            | index.html | -    | /a/index.html  | PUT  | FORWARD | File /a/index.html
/a/index.html            | index.html | -    | /a/index.html  | GET  | INCLUDE | File /a/index.html
/a/index.html            | index.html | -    | /a/index.html  | POST | ERROR   | File /a/index.html
/a/index.html            | index.html | -    | /a             | GET  | FORWARD | Missing
/a/index.html            | index.html | -    | /a/            | GET  | FORWARD | Missing
/a/index.html            | index.html | -    | /a/            | GET  | INCLUDE | Missing
/a/index.html            | index.html | -    | /b             | PUT  | ERROR   | Missing

-- Servlet, section 10.10: the first welcome name that is a file, else the first that a servlet serves
/a/x /a/y                | y x        | -    | /a/            | GET  | REQUEST | Welcome /a/y
/a/x                     | y x        | -    | /a/            | GET  | REQUEST | Welcome /a/x
/a/x                     | y.do x     | *.do | /a/            | GET  | REQUEST | Welcome /a/x
/a/x                     | y.do z     | *.do | /a/            | GET  | REQUEST | Welcome /a/y.do
/a/x                     | y z.do     | *.do | /c/            | GET  | REQUEST | Welcome /c/z.do
/a/x                     | s/w x      | /a/s/* | /a/          | GET  | REQUEST | Welcome /a/x
/a/s/w                   | s/w        | -    | /a/            | GET  | REQUEST | Welcome /a/s/w
/a/s/w                   | s          | -    | /a/            | GET  | REQUEST | Missing
/x                       | x          | -    | /              | GET  | REQUEST | Welcome /x
-- the default pattern is the file servlet's own
/a/x                     | y          | /    | /a/            | GET  | REQUEST | Missing
/a/x                     | y          | / /a/* | /a/          | GET  | REQUEST | Welcome /a/y

-- a folder goes before the file of its path, and has files of its own or of folders below it
/a /a/b                  | i          | -    | /a             | GET  | REQUEST | Slash
/a /a/b                  | i          | -    | /a/b           | GET  | REQUEST | File /a/b
/a/b/c/d                 | i          | -    | /a             | GET  | REQUEST | Slash
/a/b/c/d                 | i          | -    | /a/b/c         | GET  | REQUEST | Slash
/a/b/c/d                 | i          | -    | /a/b/c/d       | GET  | REQUEST | File /a/b/c/d
/a/b/c/d                 | i          | -    | /a/b/d         | GET  | REQUEST | Missing
/ab                      | i          | -    | /a             | GET  | REQUEST | Missing
/a/b                     | i          | -    | ""             | GET  | REQUEST | Slash

-- section 10.10: the welcome files of its example
/foo/index.html /foo/default.jsp /catalog/default.jsp /catalog/products/shop.jsp | index.html default.jsp | - | /foo               | GET  | REQUEST | Slash
/foo/index.html /foo/default.jsp /catalog/default.jsp /catalog/products/shop.jsp | index.html default.jsp | - | /foo/              | GET  | REQUEST | Welcome /foo/index.html
/foo/index.html /foo/default.jsp /catalog/default.jsp /catalog/products/shop.jsp | index.html default.jsp | - | /catalog           | GET  | REQUEST | Slash
/foo/index.html /foo/default.jsp /catalog/default.jsp /catalog/products/shop.jsp | index.html default.jsp | - | /catalog/          | GET  | REQUEST | Welcome /catalog/default.jsp
/foo/index.html /foo/default.jsp /catalog/default.jsp /catalog/products/shop.jsp | index.html default.jsp | - | /catalog/index.html | GET | REQUEST | Missing
/foo/index.html /foo/default.jsp /catalog/default.jsp /catalog/products/shop.jsp | index.html default.jsp | - | /catalog/products  | HEAD | REQUEST | Slash
/foo/index.html /foo/default.jsp /catalog/default.jsp /catalog/products/shop.jsp | index.html default.jsp | - | /catalog/products/ | GET  | REQUEST | Missing
-- a welcome name may be a path of an exact pattern or of a prefix; a file of a later name goes before it
/a/x                     | go         | /a/go | /a/           | HEAD | REQUEST | Welcome /a/go
/a/x                     | go         | /go  | /a/            | GET  | REQUEST | Missing
/a/x                     | go s/x     | /a/* | /a/            | GET  | REQUEST | Welcome /a/go
/a/x /a/s/x              | go s/x     | /a/* | /a/            | GET  | REQUEST | Welcome /a/s/x
/a/x                     | go         | /a/* | /a/            | PUT  | REQUEST | Method
/a/x                     | go         | /a/* | /a/            | GET  | ERROR   | Missing
"#;

#[test]
fn a_path_is_a_file_a_folder_or_nothing(rt: HostRuntime) -> Result<(), Strays> {
    hold(&rt, &[ROWS], &Served)
}
