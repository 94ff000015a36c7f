//! Contexts that a row declares.

use crate::components::{TestLive, parts};
use crate::descriptors::descriptor;
use crate::results::{beside, both, made, nothing_of};
use crate::words::{first_word, number_of};
use bytes::Bytes;
use std::alloc::Global;
use sv_chain::Chains;
use sv_descriptor::Descriptor;
use sv_files::{File, Files};
use sv_journal::Journal;
use sv_rows::cell;
use sv_session::Sessions;
use sv_text::{NoMemory, Text};
use sv_tree::{ServletPatterns, Site};

/// The components of a started context and its site.
#[derive(Drop)]
pub struct TestApp {
    pub live: TestLive,
    pub site: Site,
}

/// A started context with its sessions.
#[derive(Drop)]
pub struct TestContext {
    pub app: TestApp,
    pub sessions: Sessions,
}

/// Returns the context that a row declares, or none if it does not start.
pub fn context(alloc: Global, row: &str) -> Option<TestContext> {
    match live(alloc, row) {
        Some(begun) => sited(alloc, row, begun),
        None => None,
    }
}

/// Returns the descriptor of a row, and its components after their start.
fn live(alloc: Global, row: &str) -> Option<(Descriptor, TestLive)> {
    let Some(descriptor) = descriptor(alloc, row) else {
        return None;
    };
    let live = started(alloc, row, &descriptor);
    beside(descriptor, live)
}

fn started(alloc: Global, row: &str, descriptor: &Descriptor) -> Option<TestLive> {
    let Ok(parts) = parts(alloc, row) else {
        return None;
    };
    let path = declared(row, "context");
    sv_lifecycle::start(alloc, path, parts, descriptor, &mut Journal::new(alloc)).ok()
}

/// Returns the context with the site of its descriptor.
fn sited(alloc: Global, row: &str, begun: (Descriptor, TestLive)) -> Option<TestContext> {
    let (descriptor, live) = begun;
    match beside(live, site(alloc, row, descriptor)) {
        Some(made) => Some(with_sessions(alloc, row, made)),
        None => None,
    }
}

fn with_sessions(alloc: Global, row: &str, made: (TestLive, Site)) -> TestContext {
    let (live, site) = made;
    TestContext {
        app: TestApp { live, site },
        sessions: sessions(alloc, number_of(declared(row, "sessions"))),
    }
}

fn site(alloc: Global, row: &str, descriptor: Descriptor) -> Option<Site> {
    let path = Text::copy_of(alloc, declared(row, "context"));
    match both(path, files(alloc, row)) {
        Ok(kept) => site_with(alloc, kept, descriptor),
        Err(NoMemory) => nothing_of(descriptor),
    }
}

fn site_with(alloc: Global, kept: (Text, Files), descriptor: Descriptor) -> Option<Site> {
    let (path, files) = kept;
    let chains = Chains::compile(alloc, &descriptor);
    let Ok(patterns) = ServletPatterns::of(alloc, &descriptor) else {
        return nothing_of(((path, files), (descriptor, chains)));
    };
    Some(Site::new(path, descriptor, files, patterns, chains))
}

fn files(alloc: Global, row: &str) -> Result<Files, NoMemory> {
    made(Files::from_list(alloc, file_list(alloc, row)?))
}

/// Returns the files of a row, each with its path and its content.
fn file_list(alloc: Global, row: &str) -> Result<Vec<File>, NoMemory> {
    let mut list = Vec::new(alloc);
    for part in cell(row, 2).split(';') {
        let (word, rest) = first_word(part.trim());
        if word == "file" {
            list.push(file(alloc, rest)?)?;
        }
    }
    Ok(list)
}

fn file(alloc: Global, words: &str) -> Result<File, NoMemory> {
    let (path, text) = first_word(words);
    let path = Text::copy_of(alloc, path)?;
    let bytes = Bytes::copy_from_slice(alloc, text.as_bytes())?;
    Ok(File { path, bytes })
}

/// Returns what a row declares after a word, or an empty text if the word is missing.
pub fn declared<'a>(row: &'a str, word: &str) -> &'a str {
    for part in cell(row, 2).split(';') {
        let (first, rest) = first_word(part.trim());
        if first == word {
            return rest;
        }
    }
    ""
}

/// Returns sessions with this number open. At most 1,000 can be open.
fn sessions(alloc: Global, count: u64) -> Sessions {
    let mut sessions = Sessions::new(alloc, 1000, 0);
    for _ in 0..count {
        let _opened = sessions.open((0, 0), 0);
    }
    sessions
}
