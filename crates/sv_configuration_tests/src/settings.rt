//! Servers and users as text.

use crate::elements::add_texts;
use crate::summary::begin;
use sv_descriptor::{ContextEntry, Server};
use sv_realm::User;
use sv_rows::Draft;

/// Adds a server.
pub fn add_server(draft: &mut Draft, server: &Server) {
    begin(draft, "port ");
    draft.add_shown(&server.port);
    begin(draft, "seed ");
    add_hex(draft, server.seed.as_slice());
    for context in server.contexts.as_slice() {
        add_context(draft, context);
    }
}

fn add_context(draft: &mut Draft, context: &ContextEntry) {
    begin(draft, "context ");
    add_quoted(draft, context.path.as_str());
    draft.add(" descriptor ");
    add_quoted(draft, context.descriptor.as_str());
    draft.add(" files ");
    add_quoted(draft, context.files.as_str());
    if let Some(users) = &context.users {
        draft.add(" users ");
        add_quoted(draft, users.as_str());
    }
}

fn add_quoted(draft: &mut Draft, text: &str) {
    draft.add("\"");
    draft.add(text);
    draft.add("\"");
}

/// Adds a user.
pub fn add_user(draft: &mut Draft, user: &User) {
    begin(draft, "user ");
    draft.add(user.name.as_str());
    draft.add(" salt ");
    add_hex(draft, user.salt.as_slice());
    draft.add(" digest ");
    add_hex(draft, user.digest.as_slice());
    draft.add(" roles");
    add_texts(draft, &user.roles);
}

fn add_hex(draft: &mut Draft, bytes: &[u8]) {
    for byte in bytes {
        draft.add_bytes(&[digit(*byte >> 4), digit(*byte)]);
    }
}

/// Returns the hexadecimal digit of a number's lower four bits.
fn digit(number: u8) -> u8 {
    match number & 15 {
        low @ 0..=9 => b'0' + low,
        high => b'a' + (high - 10),
    }
}
