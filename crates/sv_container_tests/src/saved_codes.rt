//! Codes of messages, by the test cases of RFC 4231.

use std::alloc::Global;
use sv_rows::{Asks, Draft, Strays, cell, hold};
use sv_saved_sessions::hmac_sha256_of;
use sv_text::NoMemory;

/// The columns: key; message; code, all in hexadecimal. Test cases 1, 2 and 3 of RFC 4231.
const CODES: &str = r#"
0b0b0b0b0b0b0b0b0b0b0b0b0b0b0b0b0b0b0b0b | 4869205468657265 | b0344c61d8db38535ca8afceaf0bf12b881dc200c9833da726e9376c2e32cff7
4a656665 | 7768617420646f2079612077616e7420666f72206e6f7468696e673f | 5bdcc146bf60754e6a042426089575c75a003f089d2739839dec58b964ec3843
aaaaaaaaaaaaaaaaaaaaaaaaaaaaaaaaaaaaaaaa | dddddddddddddddddddddddddddddddddddddddddddddddddddddddddddddddddddddddddddddddddddddddddddddddddddd | 773ea91e36800e46854db8ebd09181a72959098b3ef8c122d9635514ced565fe
"#;

#[test]
fn codes_are_those_of_the_rfc(rt: HostRuntime) -> Result<(), Strays> {
    hold(&rt, &[CODES], &Codes)
}

/// Answers with the code of a message.
struct Codes;

impl Asks for Codes {
    const QUESTION: usize = 2;

    fn answer(&self, alloc: Global, row: &str, answer: &mut Vec<u8>) -> Result<(), NoMemory> {
        let key = bytes(alloc, cell(row, 0))?;
        let message = bytes(alloc, cell(row, 1))?;
        if key.len() > 64 {
            return Ok(());
        }
        let code = hmac_sha256_of(key.as_slice(), message.as_slice());
        let text = hex::encode(alloc, code)?;
        let mut draft = Draft::new(alloc);
        draft.add(text.as_str());
        draft.add_to(answer)
    }
}

/// Returns the bytes of a text in hexadecimal.
fn bytes(alloc: Global, text: &str) -> Result<Vec<u8>, NoMemory> {
    match hex::decode(alloc, text) {
        Ok(bytes) => Ok(bytes),
        Err(_) => Err(NoMemory),
    }
}
