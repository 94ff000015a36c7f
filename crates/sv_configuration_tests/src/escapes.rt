//! The printed form of bytes.

use std::alloc::Global;
use sv_rows::{Asks, Strays, cell, hold, unescaped};
use sv_script::escaped;
use sv_text::NoMemory;

/// Answers with the text of bytes.
struct Escapes;

impl Asks for Escapes {
    const QUESTION: usize = 1;

    fn answer(&self, alloc: Global, row: &str, answer: &mut Vec<u8>) -> Result<(), NoMemory> {
        let bytes = unescaped(alloc, cell(row, 0))?;
        let text = escaped(alloc, bytes.as_slice())?;
        answer.extend_from_slice(text.as_slice())?;
        Ok(())
    }
}

/// The columns: bytes; their text.
const ROWS: &str = r#"
""               | ""
a b              | a b
\r\n             | \\r\\n
\\               | \\\\
\\n              | \\\\n
-- 32 to 126 are printed as they are, and no other byte
\x1F\x20!~\x7F   | \\x1F\x20!~\\x7F
\x00\t\x0B\x0C   | \\x00\\x09\\x0B\\x0C
\x80\xAB\xCD\xEF | \\x80\\xAB\\xCD\\xEF
\xC3\xA9\xFF     | \\xC3\\xA9\\xFF
HTTP/1.1 200 OK\r\ncontent-length: 9\r\n\r\ncaller -\n | HTTP/1.1 200 OK\\r\\ncontent-length: 9\\r\\n\\r\\ncaller -\\n
"#;

#[test]
fn bytes_that_are_not_plain_are_escaped(rt: HostRuntime) -> Result<(), Strays> {
    hold(&rt, &[ROWS], &Escapes)
}
