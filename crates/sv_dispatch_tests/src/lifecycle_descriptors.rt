//! Descriptors that declare the components of a row.

use std::alloc::Global;
use sv_descriptor::{Descriptor, read_descriptor};
use sv_rows::Draft;

/// Returns the descriptor of these components and this number of listeners, or none if it cannot be read.
pub fn descriptor(
    alloc: Global,
    servlets: &str,
    filters: &str,
    listeners: usize,
) -> Option<Descriptor> {
    let mut text = Draft::new(alloc);
    add_all(&mut text, "servlet", servlets);
    add_all(&mut text, "filter", filters);
    for _ in 0..listeners {
        text.add("[[listener]]\nlistener-class = \"Quiet\"\n");
    }
    read(alloc, text)
}

fn read(alloc: Global, text: Draft) -> Option<Descriptor> {
    let Ok(bytes) = text.finish() else {
        return None;
    };
    let text = str::from_utf8(bytes.as_slice()).unwrap_or("");
    read_descriptor(alloc, text).ok()
}

/// Declares the components that these words name, `NAME[=NUMBER]`. NUMBER is the value of load-on-startup.
fn add_all(text: &mut Draft, kind: &str, words: &str) {
    for word in words.split_ascii_whitespace() {
        let (word, _) = word.split_once('!').unwrap_or((word, ""));
        let (name, number) = word.split_once('=').unwrap_or((word, ""));
        add_declared(text, kind, name);
        if !number.is_empty() {
            text.add("load-on-startup = ");
            text.add(number);
            text.add("\n");
        }
    }
}

fn add_declared(text: &mut Draft, kind: &str, name: &str) {
    text.add("[[");
    text.add(kind);
    text.add("]]\n");
    text.add(kind);
    text.add("-name = \"");
    text.add(name);
    text.add("\"\n");
    text.add(kind);
    text.add("-class = \"Probe\"\n");
}
