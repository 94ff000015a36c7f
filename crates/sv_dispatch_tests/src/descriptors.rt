//! Descriptors that declare the components and settings of a row.

use crate::words::{Words, first_word, is_nothing};
use std::alloc::Global;
use sv_descriptor::{Descriptor, read_descriptor};
use sv_rows::{Draft, cell};

/// Returns the descriptor of a row's first three cells, or none if it cannot be read.
pub fn descriptor(alloc: Global, row: &str) -> Option<Descriptor> {
    let mut text = Draft::new(alloc);
    for part in cell(row, 0).split(';') {
        add_servlet(&mut text, part.trim());
    }
    for part in cell(row, 1).split(';') {
        add_filter(&mut text, part.trim());
    }
    for part in cell(row, 2).split(';') {
        add_other(&mut text, part.trim());
    }
    read(alloc, text)
}

fn read(alloc: Global, text: Draft) -> Option<Descriptor> {
    let Ok(bytes) = text.finish() else {
        return None;
    };
    let text = str::from_utf8(bytes.as_slice()).unwrap_or("");
    read_descriptor(alloc, text).ok()
}

/// Declares a servlet with its name, class, parameters and patterns.
fn add_servlet(text: &mut Draft, part: &str) {
    if is_nothing(part) {
        return;
    }
    let (name, rest) = first_word(part);
    add_declared(text, "servlet", name, rest);
    if Words::Patterns.are_in(rest) {
        text.add("[[servlet-mapping]]\n");
        add_pair(text, "servlet-name", name);
        add_texts(text, "url-pattern", rest, Words::Patterns);
    }
}

/// Declares a filter with its name, class and parameters, or maps one: `f: /x/* s FORWARD`.
fn add_filter(text: &mut Draft, part: &str) {
    if is_nothing(part) {
        return;
    }
    let (name, rest) = first_word(part);
    match name.strip_suffix(":") {
        Some(name) => add_filter_mapping(text, name, rest),
        None => add_declared(text, "filter", name, rest),
    }
}

fn add_filter_mapping(text: &mut Draft, name: &str, rest: &str) {
    text.add("[[filter-mapping]]\n");
    add_pair(text, "filter-name", name);
    if Words::Patterns.are_in(rest) {
        add_texts(text, "url-pattern", rest, Words::Patterns);
    }
    if Words::Servlets.are_in(rest) {
        add_texts(text, "servlet-name", rest, Words::Servlets);
    }
    add_texts(text, "dispatcher", rest, Words::Kinds);
}

/// Declares an error page (for a status, a kind of failure, or `-` for all errors), welcome files, or a listener.
fn add_other(text: &mut Draft, part: &str) {
    let (word, rest) = first_word(part);
    match word {
        "page" => add_page(text, rest),
        "welcome" => {
            text.add("[welcome-file-list]\n");
            add_texts(text, "welcome-file", rest, Words::All);
        }
        "listener" => text.add("[[listener]]\nlistener-class = \"Log\"\n"),
        _ => {}
    }
}

fn add_page(text: &mut Draft, rest: &str) {
    let (error, location) = first_word(rest);
    text.add("[[error-page]]\n");
    if is_status(error) {
        text.add("error-code = ");
        text.add(error);
        text.add("\n");
    } else if error != "-" {
        add_pair(text, "exception-type", error);
    }
    add_pair(text, "location", location);
}

fn is_status(word: &str) -> bool {
    word.as_bytes().iter().all(|byte| byte.is_ascii_digit())
}

fn add_declared(text: &mut Draft, kind: &str, name: &str, rest: &str) {
    let (class, rest) = first_word(rest);
    text.add("[[");
    text.add(kind);
    text.add("]]\n");
    add_named_pair(text, kind, "-name", name);
    add_named_pair(text, kind, "-class", class);
    add_params(text, rest);
}

fn add_named_pair(text: &mut Draft, kind: &str, key: &str, value: &str) {
    text.add(kind);
    add_pair(text, key, value);
}

fn add_pair(text: &mut Draft, key: &str, value: &str) {
    text.add(key);
    text.add(" = \"");
    text.add(value);
    text.add("\"\n");
}

/// Adds the parameters among these words: all words but patterns, each `NAME=VALUE`.
fn add_params(text: &mut Draft, words: &str) {
    let mut is_first = true;
    for word in words.split_ascii_whitespace() {
        if !Words::Patterns.have(word) {
            text.add(if is_first { "init-param = { " } else { ", " });
            is_first = false;
            add_param(text, word);
        }
    }
    if !is_first {
        text.add(" }\n");
    }
}

fn add_param(text: &mut Draft, word: &str) {
    let (name, value) = word.split_once('=').unwrap_or((word, ""));
    text.add(name);
    text.add(" = \"");
    text.add(value);
    text.add("\"");
}

/// Adds a list of the words that are of this kind.
fn add_texts(text: &mut Draft, key: &str, words: &str, kept: Words) {
    text.add(key);
    text.add(" = [");
    for word in words.split_ascii_whitespace() {
        if kept.have(word) {
            text.add("\"");
            text.add(word.trim_matches('"'));
            text.add("\", ");
        }
    }
    text.add("]\n");
}
