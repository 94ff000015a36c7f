//! The items that an inbox reads from a stream in pieces.

ghost use Rattle.std.specs.Prelude.{◌<◌};

use std::alloc::Global;
use sv_message::{Field, Message, Target};
use sv_rows::Draft;
use sv_wire::{Ended, Inbox, Item, WireFault};

/// The result of reading a stream.
#[derive(Drop)]
pub struct Reading {
    /// The texts of the items, separated by `, `.
    pub items: Draft,
    pub messages: u64,
    /// Number of bytes in the bodies.
    pub content: u64,
    pub refusal: Option<WireFault>,
    /// The meaning of the end of the stream.
    pub end: &'static str,
}

impl Reading {
    /// Reads a stream of two parts, the second in pieces of this size.
    pub fn of(alloc: Global, front: &[u8], back: &[u8], size: usize) -> Reading
        requires { 0 < size }
    {
        let mut inbox = Inbox::new(alloc);
        let mut reading = Reading {
            items: Draft::new(alloc),
            messages: 0,
            content: 0,
            refusal: None,
            end: "",
        };
        let mut items = Vec::new(alloc);
        reading.feed(&mut inbox, front, &mut items);
        for piece in back.chunks(size) {
            reading.feed(&mut inbox, piece, &mut items);
        }
        reading.end = end_of(&mut inbox);
        reading
    }

    fn feed(&mut self, inbox: &mut Inbox, piece: &[u8], items: &mut Vec<Item>) {
        match inbox.feed(piece, items) {
            Ok(()) => self.take(items.as_slice()),
            Err(_) => self.items.fail(),
        }
    }

    fn take(&mut self, items: &[Item]) {
        for item in items {
            if !self.items.is_empty() {
                self.items.add(", ");
            }
            self.note(item);
        }
    }

    fn note(&mut self, item: &Item) {
        match item {
            Item::Continue => self.items.add("continue"),
            Item::Refuse(fault) => {
                self.refusal = Some(*fault);
                self.items.add("refuse ");
                self.items.add_shown(fault);
            }
            Item::Message(message) => {
                let count = message.body.as_slice().len() as u64;
                self.messages = self.messages.saturating_add(1);
                self.content = self.content.saturating_add(count);
                add_message(&mut self.items, message);
            }
        }
    }
}

fn end_of(inbox: &mut Inbox) -> &'static str {
    match inbox.end() {
        Ended::Clean => "Clean",
        Ended::Truncated => "Truncated",
        Ended::Spent => "Spent",
    }
}

/// Adds a message: method, target, version, `keep` or `close`, the fields in brackets, and the body.
fn add_message(draft: &mut Draft, message: &Message) {
    draft.add(message.method.as_str());
    draft.add(" ");
    draft.add_bytes(target_text(&message.target));
    draft.add(if message.minor == 0 { " 1.0" } else { " 1.1" });
    draft.add(if message.keep { " keep [" } else { " close [" });
    add_fields(draft, message.fields.as_slice());
    draft.add("]");
    draft.add_bytes(message.body.as_slice());
}

fn target_text(target: &Target) -> &[u8] {
    match target {
        Target::Star => b"*",
        Target::Path(path) => path.as_slice(),
    }
}

fn add_fields(draft: &mut Draft, fields: &[Field]) {
    for (place, field) in fields.iter().enumerate() {
        if place > 0 {
            draft.add(" ");
        }
        draft.add(field.name.as_str());
        draft.add("=");
        draft.add_bytes(field.value.as_bytes());
    }
}
