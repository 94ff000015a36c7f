//! Bytes in segments.

use bytes::Bytes;
use std::alloc::Global;
use sv_message::Segments;
use sv_rows::{Asks, Draft, Strays, cell, hold, unescaped};
use sv_text::NoMemory;

/// The columns: steps; lengths of the three segments, and all bytes as runs.
const ROWS: &str = r#"
-- bytes are copied behind each other
copy abc                                              | 3+0+0 a b c
copy ab; copy cd                                      | 4+0+0 a b c d
copy ab; append cd                                    | 4+0+0 a b c d
append ab; append cd                                  | 4+0+0 a b c d
-- 16,384 bytes are shared, and fewer are copied
share \{16383*x}                                      | 16383+0+0 16383*x
share \{16384*x}                                      | 0+16384+0 16384*x
copy ab; share \{16384*x}; copy cd                    | 2+16384+2 a b 16384*x c d
copy ab; share \{16384*x}; append cd                  | 2+16384+2 a b 16384*x c d
-- further bytes that could be shared are copied
copy a; share \{16384*x}; share \{16385*y}            | 1+16384+16385 a 16384*x 16385*y
copy a; share \{9*x}; share \{16384*y}                | 10+16384+0 a 9*x 16384*y
-- a head precedes all bytes
copy c; head ab                                       | 3+0+0 a b c
share \{16384*x}; head ab                             | 2+16384+0 a b 16384*x
copy c; share \{16384*x}; copy d; head ab             | 3+16384+1 a b c 16384*x d
-- what is taken out is one segment, and nothing stays
copy c; share \{16384*x}; copy d; take                | 16386+0+0 c 16384*x d
copy c; take                                          | 1+0+0 c
copy c; share \{16384*x}; copy d; clear; copy e       | 1+0+0 e
copy c; share \{16384*x}; clear; share \{16384*y}     | 0+16384+0 16384*y
"#;

struct Rows;

impl Asks for Rows {
    const QUESTION: usize = 1;

    fn answer(&self, alloc: Global, row: &str, answer: &mut Vec<u8>) -> Result<(), NoMemory> {
        let mut bytes = Segments::new(alloc);
        for step in cell(row, 0).split("; ") {
            let (word, text) = step.split_once(' ').unwrap_or((step, ""));
            bytes = stepped(alloc, bytes, word, unescaped(alloc, text)?)?;
        }
        let (first, shared, last) = bytes.slices();
        let mut told = Draft::new(alloc);
        told.add_shown(&first.len());
        told.add("+");
        told.add_shown(&shared.len());
        told.add("+");
        told.add_shown(&last.len());
        add_runs(bytes.copied(alloc)?.as_slice(), &mut told);
        told.add_to(answer)
    }
}

/// Returns the segments after a step.
fn stepped(
    alloc: Global,
    before: Segments,
    word: &str,
    text: Vec<u8>,
) -> Result<Segments, NoMemory> {
    let mut bytes = before;
    match word {
        "copy" => bytes.extend_from_slice(&text)?,
        "share" => bytes.push_shared(alloc, &Bytes::from_vec(text)?)?,
        "append" => bytes.append(Segments::from_vec(text))?,
        "head" => bytes = bytes.with_head(alloc, text)?,
        "take" => {
            let taken = bytes.take(alloc)?;
            bytes.extend_from_slice(&taken)?;
        }
        _ => bytes.clear(),
    }
    Ok(bytes)
}

/// Adds each run of equal bytes: the byte, with the length before it if there are several.
fn add_runs(bytes: &[u8], told: &mut Draft) {
    let mut last = None;
    let mut count = 0u64;
    for byte in bytes {
        if last != Some(*byte) {
            add_run(last, count, told);
            count = 0;
        }
        last = Some(*byte);
        count = count.saturating_add(1);
    }
    add_run(last, count, told);
}

/// Adds a run of a byte, if there is one.
fn add_run(byte: Option<u8>, count: u64, told: &mut Draft) {
    let Some(byte) = byte else {
        return;
    };
    told.add(" ");
    if count > 1 {
        told.add_shown(&count);
        told.add("*");
    }
    told.add_bytes(&[byte]);
}

#[test]
fn segments_hold_all_bytes(rt: HostRuntime) -> Result<(), Strays> {
    hold(&rt, &[ROWS], &Rows)
}
