//! The texts that are URL patterns (Servlet, section 12.2, and the forms that this container accepts).

use std::alloc::Global;
use sv_mapping::{Pattern, PatternFault};
use sv_rows::{Asks, Strays, cell, hold, unescaped};
use sv_text::NoMemory;

/// The columns: text; whether it is accepted.
const ROWS: &str = r#"
""                  | accepted
/                   | accepted
/a                  | accepted
/a/b/               | accepted
/a/*                | accepted
/*                  | accepted
//                  | accepted
//*                 | accepted
/a*                 | accepted
/a/*/b              | accepted
/*.do               | accepted
/**                 | accepted
/a b?c#d;e%2F       | accepted
*.jsp               | accepted
*.a.b               | accepted
*.*                 | accepted
*.                  | accepted

-- a text begins with / or with *. and has then no /
a                   | BadPattern
a/*                 | BadPattern
a/b                 | BadPattern
*                   | BadPattern
**                  | BadPattern
*a                  | BadPattern
*/                  | BadPattern
.jsp                | BadPattern
*.a/b               | BadPattern
*./                 | BadPattern
*./*                | BadPattern
\\a                 | BadPattern
http://h/           | BadPattern
-                   | BadPattern

-- at most 1,024 bytes, however many characters they are
/\{1023*a}           | accepted
/\{1024*a}           | BadPattern
\{1024*/}            | accepted
\{1025*/}            | BadPattern
*.\{1022*a}          | accepted
*.\{1023*a}          | BadPattern
/a\{511*\xC3\xA9}    | accepted
/\{512*\xC3\xA9}     | BadPattern
"#;

#[test]
fn a_pattern_keeps_its_text_and_an_invalid_text_is_refused(rt: HostRuntime) -> Result<(), Strays> {
    hold(&rt, &[ROWS], &Texts)
}

/// Answers whether a text is a pattern.
struct Texts;

impl Asks for Texts {
    const QUESTION: usize = 1;

    fn answer(&self, alloc: Global, row: &str, answer: &mut Vec<u8>) -> Result<(), NoMemory> {
        let bytes = unescaped(alloc, cell(row, 0))?;
        let text = String::from_utf8_lossy(alloc, bytes.as_slice())?;
        answer.extend_from_slice(verdict_on(alloc, text.as_str())?.as_bytes())?;
        Ok(())
    }
}

fn verdict_on(alloc: Global, text: &str) -> Result<&'static str, NoMemory> {
    match Pattern::parse(alloc, text) {
        Ok(pattern) if pattern.text() == text => Ok("accepted"),
        Ok(_) => Ok("accepted with another text"),
        Err(PatternFault::BadPattern) => Ok("BadPattern"),
        Err(PatternFault::NoMemory) => Err(NoMemory),
    }
}
