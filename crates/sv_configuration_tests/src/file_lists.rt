//! The lists of files that are accepted.

use bytes::Bytes;
use std::alloc::Global;
use sv_files::{File, Files, FilesFault};
use sv_rows::{Asks, Strays, cell, hold, unescaped};
use sv_text::{NoMemory, Text};

/// Returns a file that contains its own path.
pub fn file_of(alloc: Global, path: &str) -> Result<File, NoMemory> {
    Ok(File {
        path: Text::copy_of(alloc, path)?,
        bytes: Bytes::copy_from_slice(alloc, path.as_bytes())?,
    })
}

/// Returns the files of these paths, separated by blanks.
pub fn files_of(alloc: Global, paths: &str) -> Result<Vec<File>, NoMemory> {
    let mut files = Vec::new(alloc);
    for path in paths.split(' ') {
        files.push(file_of(alloc, path)?)?;
    }
    Ok(files)
}

/// Answers with the fault of a list of paths, or `-` for none.
struct Lists;

impl Asks for Lists {
    const QUESTION: usize = 1;

    fn answer(&self, alloc: Global, row: &str, answer: &mut Vec<u8>) -> Result<(), NoMemory> {
        let paths = unescaped(alloc, cell(row, 0))?;
        let paths = String::from_utf8_lossy(alloc, paths.as_slice())?;
        let fault = match Files::from_list(alloc, files_of(alloc, paths.as_str())?) {
            Ok(_) => "-",
            Err(FilesFault::BadPath) => "BadPath",
            Err(FilesFault::Duplicate) => "Duplicate",
            Err(FilesFault::TooMany) => "TooMany",
            Err(FilesFault::TooLarge) => "TooLarge",
            Err(FilesFault::NoMemory) => return Err(NoMemory),
        };
        answer.extend_from_slice(fault.as_bytes())?;
        Ok(())
    }
}

/// The columns: paths; fault.
const ROWS: &str = r#"
/a                      | -
/a /b /a/b              | -
/WEB-INF/x.html         | -
/a%20b /a;b /a?b /a#b   | -
/\xC3\xA9               | -
/a /A                   | -
-- Servlet, section 3.5.2: a path that no target has
a                       | BadPath
""                      | BadPath
/a//b                   | BadPath
/a/./b                  | BadPath
/a/../b                 | BadPath
/..                     | BadPath
/a\\b                   | BadPath
/a\x01                  | BadPath
-- a folder's path is no file's
/a/                     | BadPath
/                       | BadPath
-- two equal paths; a path that is none comes first, wherever it stands
/a /a                   | Duplicate
/a /b /a/b /b           | Duplicate
/a /a /b/               | BadPath
"#;

#[test]
fn a_list_of_files_is_accepted_or_reports_its_first_fault(rt: HostRuntime) -> Result<(), Strays> {
    hold(&rt, &[ROWS], &Lists)
}
