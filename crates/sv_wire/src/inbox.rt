//! The inbox of a connection: bytes in, items out.

ghost use Rattle.std.specs.Prelude.{◌≡◌, true, false, None, Some, [], ◌++◌, IfOk, IsOk, OnErr, OnOk};
ghost use Rattle.sv_wire.specs.Inbox.{nothing_held, spent_for_good, awaited_of, end_awaiting, end_of};
ghost use Rattle.sv_wire.specs.Items.{are_ended};
ghost use Rattle.sv_wire.specs.Pending.{IsSound, owed_by, rest_of};
ghost use Rattle.sv_wire.specs.Reads.{Reads, cut_head, item_of};
ghost use Rattle.sv_wire.specs.State.{held_of, IsSoundState, ReadsAfter, ReadsTo};
ghost use Rattle.sv_text.specs.declared.front.Cut.TheVariants.{Unended};

use crate::body_reader::{BodyEnd, Progress};
use crate::item::Item;
use crate::pending_message::PendingBox;
use crate::read_items::{Rest, read_items};
use std::alloc::Global;
use std::marker::Model;
use std::mem;
use sv_message::Field;
use sv_text::NoMemory;

/// How a stream ended.
#[derive(Clone, Copy)]
pub enum Ended {
    /// No byte of an unfinished message was held.
    Clean,
    /// The stream ended within a message.
    Truncated,
    /// The inbox was already spent.
    Spent,
}

/// The input that an inbox awaits (RFC 9112, section 2.2).
#[derive(Clone, Copy, Debug, PartialEq, Eq)]
pub enum Awaited {
    /// The first byte of a message. Empty lines before a request line are ignored, so after one this is still awaited.
    Message,
    /// The rest of a head. A CR before a head is held as its first byte until the next byte shows whether it begins an
    /// empty line.
    Head,
    /// A body, or the rest of one.
    Body,
    /// Nothing: the inbox is spent.
    Nothing,
}

/// The state of an inbox between two pieces.
#[derive(Drop)]
pub(crate) enum State {
    /// No more input is read.
    Spent,
    /// The bytes received of a head.
    Head(Vec<u8>),
    /// A body that is being read.
    Body(PendingBox),
}

/// Reads the items of one stream of bytes, which is received in pieces (RFC 9112, section 2.2).
///
/// Contracts see whether it is spent, the head whose body was asked for by `100 Continue` and is awaited, and the bytes
/// that are in no item yet. Of a body it holds the decoded bytes, and at most one incomplete size line, CRLF or trailer
/// section.
#[derive(Drop)]
pub struct Inbox {
    alloc: Global,
    state: State,
}

impl Model for Inbox {
    ghost use Rattle.sv_wire.specs.Inbox.{Held};
    ghost use Rattle.sv_wire.specs.State.{held_of, IsSoundState};

    ghost Value = { Held };

    ghost view = { λ inbox. held_of inbox.state };

    ghost invariant = { λ inbox. IsSoundState inbox.state };
}

impl Inbox {
    /// Returns an inbox before the first byte of its stream. Allocates nothing.
    pub fn new(alloc: Global) -> Inbox
        ensures { result ≡ nothing_held }
    {
        Inbox {
            alloc,
            state: State::Head(Vec::new(alloc)),
        }
    }

    /// Reads a piece of the stream. Replaces the contents of the list by the items that the piece completes, in order,
    /// and reuses its memory. Bytes that are in no item yet are kept for the next piece. How the stream is cut into
    /// pieces does not change the items.
    ///
    /// After a refusal, or a message that does not keep the connection, nothing is read: the inbox is spent. A spent
    /// inbox returns no items and does not change. `NoMemory` means that an allocation failed: the inbox is then spent
    /// too, and the contents of the list are unspecified.
    #[inline(always)]
    pub fn feed(&mut self, piece: &[u8], items: &mut Vec<Item>) -> Result<(), NoMemory>
        ensures reads { self.old.spent ≡ false → OnOk result
            (Reads self.old.owed (self.old.rest ++ piece.now) items.new.items self.new.owed self.new.rest
            × (self.new.spent ≡ are_ended items.new.items)) }
        ensures no_memory { OnErr result (self.new ≡ spent_for_good) }
        ensures spent { self.old.spent ≡ true → IsOk result × (items.new.items ≡ []) × (self.new ≡ self.old) }
    {
        let mut room = room_in(self.alloc, items);
        match mem::replace(&mut self.state, State::Spent) {
            State::Spent => {}
            State::Head(held) => self.state = read_on(self.alloc, held, piece, &mut room, items)?,
            State::Body(pending) => self.state = read_behind(
                self.alloc, pending, piece, &mut room, items,
            )?,
        }
        Ok(())
    }

    /// Returns the input that the inbox awaits.
    #[inline(always)]
    pub fn awaits(&self) -> Awaited
        ensures { result ≡ awaited_of self.now }
    {
        awaited_of(&self.state)
    }

    /// Ends the stream, and returns how it ended. The inbox is spent afterwards.
    pub fn end(&mut self) -> Ended
        ensures ended { result ≡ end_of self.old }
        ensures after { self.new ≡ spent_for_good }
    {
        let ended = end_awaiting(self.awaits());
        self.state = State::Spent;
        ended
    }
}

/// Empties the list of items, and returns the memory of the fields of the last one, if it is a message.
#[inline(always)]
fn room_in(alloc: Global, items: &mut Vec<Item>) -> Vec<Field>
    ensures { items.new.items ≡ [] }
{
    let room = match items.pop() {
        Some(Item::Message(message)) => message.fields.into_vec(),
        _ => Vec::new(alloc),
    };
    if !items.is_empty() {
        items.clear();
    }
    room
}

/// Returns the input that is awaited in a state.
#[inline(always)]
fn awaited_of(state: &State) -> Awaited
    requires { IsSoundState state.now }
    ensures { result ≡ awaited_of (held_of state.now) }
{
    match state {
        State::Spent => Awaited::Nothing,
        State::Head(held) => {
            if held.is_empty() {
                return Awaited::Message;
            }
            Awaited::Head
        }
        State::Body(_) => Awaited::Body,
    }
}

/// Returns how the stream ends, by the awaited input.
fn end_awaiting(awaited: Awaited) -> Ended
    ensures { result ≡ end_awaiting awaited }
{
    match awaited {
        Awaited::Message => Ended::Clean,
        Awaited::Head | Awaited::Body => Ended::Truncated,
        Awaited::Nothing => Ended::Spent,
    }
}

/// Reads a piece that continues the held bytes of a head. Bytes of completed items are dropped: a buffer holds only a
/// head.
#[inline(always)]
fn read_on(
    alloc: Global,
    held: Vec<u8>,
    piece: &[u8],
    room: &mut Vec<Field>,
    items: &mut Vec<Item>,
) -> Result<State, NoMemory>
    requires unended { cut_head held.items ≡ Unended }
    requires empty { items.old.items ≡ [] }
    ensures { IfOk result (λ state. ReadsTo None (held.items ++ piece.now) items.new.items state) }
{
    if held.is_empty() {
        return read_alone(alloc, piece, room, items);
    }
    let mut stream = held;
    let from = stream.len() + 1;
    stream.extend_from_slice(piece)?;
    match read_items(alloc, &stream, from, room, items)? {
        Rest::Ended => Ok(State::Spent),
        Rest::Head(0) => Ok(State::Head(stream)),
        Rest::Head(at) => Ok(State::Head(Vec::from_slice(alloc, &stream[at..])?)),
        Rest::Body(pending) => Ok(State::Body(pending)),
    }
}

/// Reads a piece when no byte of a head is held. Copies only the bytes of a head that the piece leaves open.
#[inline(always)]
fn read_alone(
    alloc: Global,
    piece: &[u8],
    room: &mut Vec<Field>,
    items: &mut Vec<Item>,
) -> Result<State, NoMemory>
    requires { items.old.items ≡ [] }
    ensures { IfOk result (λ state. ReadsTo None piece.now items.new.items state) }
{
    match read_items(alloc, piece, 0, room, items)? {
        Rest::Ended => Ok(State::Spent),
        Rest::Head(at) => Ok(State::Head(Vec::from_slice(alloc, &piece[at..])?)),
        Rest::Body(pending) => Ok(State::Body(pending)),
    }
}

/// Reads a piece that continues a body.
fn read_behind(
    alloc: Global,
    mut pending: PendingBox,
    piece: &[u8],
    room: &mut Vec<Field>,
    items: &mut Vec<Item>,
) -> Result<State, NoMemory>
    requires sound { IsSound pending }
    requires empty { items.old.items ≡ [] }
    ensures { IfOk result (λ state. ReadsTo (owed_by (Some pending)) (rest_of (Some pending) ++ piece.now) items.new.items state) }
{
    match pending.read(piece)? {
        Progress::Awaits => Ok(State::Body(pending)),
        Progress::Ended(end, len) => read_after(alloc, pending, end, &piece[len..], room, items),
    }
}

/// Reads the text after a body that ended in this way, and inserts the body's item at the front of the list.
fn read_after(
    alloc: Global,
    pending: PendingBox,
    end: BodyEnd,
    behind: &[u8],
    room: &mut Vec<Field>,
    items: &mut Vec<Item>,
) -> Result<State, NoMemory>
    requires { items.old.items ≡ [] }
    ensures { IfOk result (λ state. ReadsAfter (item_of pending.owed end) behind.now items.new.items state) }
{
    let item = pending.into_item(end);
    let state = if item.is_last() {
        State::Spent
    } else {
        read_on(alloc, Vec::new(alloc), behind, room, items)?
    };
    items.insert(0, item)?;
    Ok(state)
}
