//! Lists of numbered texts.

use std::alloc::Global;
use sv_rows::Draft;
use sv_text::NoMemory;

/// Adds this number of texts, separated by commas: each is the front, its number from 0, and the back.
pub fn add_numbered(list: &mut Draft, front: &str, count: u32, back: &str) {
    for number in 0..count {
        if number > 0 {
            list.add(",");
        }
        list.add(front);
        list.add_shown(&number);
        list.add(back);
    }
}

/// Returns the text of a draft.
pub fn finished(alloc: Global, draft: Draft) -> Result<String, NoMemory> {
    let bytes = draft.finish()?;
    Ok(String::from_utf8_lossy(alloc, bytes.as_slice())?)
}
