//! The items of a stream, one after another.

ghost use Rattle.std.specs.Prelude.{◌≡◌, ℕ, ◌<◌, ◌≤◌, [], false, None, Some, length, take, drop, IfOk};
ghost use Rattle.sv_wire.specs.Head.{ends_head};
ghost use Rattle.sv_wire.specs.Items.{are_ended};
ghost use Rattle.sv_wire.specs.Next.{ComesNext, IsHeadAt, IsSoundRest, bytes_behind, is_ended, owed_behind};
ghost use Rattle.sv_wire.specs.Pending.{AreSound, IsSound};
ghost use Rattle.sv_wire.specs.Reads.{Reads};
ghost use Rattle.sv_wire.specs.declared.owed_head.Judgement.TheVariants.{Accepted};

use crate::body_reader::Progress;
use crate::cut::cut_head;
use crate::empty_lines::behind_empty_lines;
use crate::head::read_head;
use crate::item::Item;
use crate::limits::MAX_HEAD_LEN;
use crate::owed_head::{Judgement, OwedHead, has_body};
use crate::pending_message::PendingBox;
use crate::wire_fault::WireFault;
use std::alloc::Global;
use sv_message::Field;
use sv_text::{Cut, NoMemory};

/// The result of reading one item of a stream.
#[derive(Drop)]
enum Next {
    /// An item, the body that it asks for, and the place where the item ends.
    Found(Item, Option<PendingBox>, usize),
    /// No item yet. A head that begins at this place is awaited.
    AwaitsHead(usize),
    /// No item yet. A body is awaited.
    AwaitsBody(PendingBox),
}

/// The state after the items of a stream.
#[derive(Drop)]
pub(crate) enum Rest {
    /// The last item ends the stream.
    Ended,
    /// A head that begins at this place is awaited.
    Head(usize),
    /// A body is awaited.
    Body(PendingBox),
}

/// Reads the items of a stream into an empty list, and returns the state after them. No prefix of fewer than `from`
/// bytes of the stream ends a head. `room` is memory for the fields of one head, and its contents afterwards are
/// unspecified.
#[inline(always)]
pub(crate) fn read_items(
    alloc: Global,
    stream: &[u8],
    mut from: usize,
    room: &mut Vec<Field>,
    items: &mut Vec<Item>,
) -> Result<Rest, NoMemory>
    requires before { (k : ℕ) → k < from → ends_head (take k stream.now) ≡ false }
    requires empty { items.old.items ≡ [] }
    ensures reads { IfOk result (λ rest. Reads None stream.now items.new.items (owed_behind rest) (bytes_behind stream.now rest)) }
    ensures ended { IfOk result (λ rest. are_ended items.new.items ≡ is_ended rest) }
    ensures rest { IfOk result (λ rest. IsSoundRest stream.now rest) }
{
    let mut body = None;
    let mut at = 0;
    loop {
        match next_item(alloc, body, stream, at, from, room)? {
            Next::AwaitsHead(start) => return Ok(Rest::Head(start)),
            Next::AwaitsBody(pending) => return Ok(Rest::Body(pending)),
            Next::Found(item, next, end) => {
                let is_last = item.is_last();
                items.push(item)?;
                if is_last {
                    return Ok(Rest::Ended);
                }
                if next.is_none() && end == stream.len() {
                    return Ok(Rest::Head(end));
                }
                body = next;
                at = end;
                from = 0;
            }
        }
    }
}

/// Reads the next item from a place. No prefix of fewer than `from` bytes after it ends a head.
#[inline(always)]
fn next_item(
    alloc: Global,
    body: Option<PendingBox>,
    stream: &[u8],
    at: usize,
    from: usize,
    room: &mut Vec<Field>,
) -> Result<Next, NoMemory>
    requires within { at ≤ length stream.now }
    requires sound { AreSound body }
    requires before { (k : ℕ) → k < from → ends_head (take k (drop at stream.now)) ≡ false }
    ensures { IfOk result (ComesNext body stream.now at) }
{
    match body {
        Some(pending) => next_in_body(pending, stream, at),
        None => next_in_head(alloc, stream, at, from, room),
    }
}

/// Reads the head after the empty lines at a place, and its body unless it asks for `100 Continue`. No prefix of fewer
/// than `from` bytes after the place ends a head.
fn next_in_head(
    alloc: Global,
    stream: &[u8],
    at: usize,
    from: usize,
    room: &mut Vec<Field>,
) -> Result<Next, NoMemory>
    requires within { at ≤ length stream.now }
    requires before { (k : ℕ) → k < from → ends_head (take k (drop at stream.now)) ≡ false }
    ensures { IfOk result (ComesNext None stream.now at) }
{
    let head = behind_empty_lines(&stream[at..]);
    let start = stream.len() - head.len();
    match cut_head(head, if start == at { from } else { 0 }) {
        Cut::Whole(len) => next_behind(
            alloc,
            read_head(alloc, room, &head[..len])?,
            stream,
            start,
            start + len,
        ),
        Cut::Endless => Ok(Next::Found(
            Item::Refuse(WireFault::HeadTooLarge),
            None,
            start + MAX_HEAD_LEN,
        )),
        Cut::Unended => Ok(Next::AwaitsHead(start)),
    }
}

/// Continues after a head between these places, by the judgement on it.
fn next_behind(
    alloc: Global,
    judgement: Judgement,
    stream: &[u8],
    start: usize,
    end: usize,
) -> Result<Next, NoMemory>
    requires order { start ≤ end }
    requires within { end ≤ length stream.now }
    requires head { IsHeadAt stream.now start end judgement }
    ensures { IfOk result (ComesNext None stream.now start) }
{
    match judgement {
        Judgement::Refused(fault) => Ok(Next::Found(Item::Refuse(fault), None, end)),
        Judgement::Expecting(owed) => {
            let pending = PendingBox::asked(alloc, owed)?;
            Ok(Next::Found(Item::Continue, Some(pending), end))
        }
        Judgement::Accepted(owed) => next_behind_accepted(alloc, owed, stream, start, end),
    }
}

/// Continues after an accepted head that does not ask for `100 Continue`. A head without a body is an item at once.
fn next_behind_accepted(
    alloc: Global,
    owed: OwedHead,
    stream: &[u8],
    start: usize,
    end: usize,
) -> Result<Next, NoMemory>
    requires order { start ≤ end }
    requires within { end ≤ length stream.now }
    requires head { IsHeadAt stream.now start end (Accepted owed) }
    ensures { IfOk result (ComesNext None stream.now start) }
{
    if !has_body(owed.framing) {
        return Ok(Next::Found(owed.alone(alloc), None, end));
    }
    let pending = PendingBox::behind(alloc, owed, &stream[start..end])?;
    next_in_body(pending, stream, end)
}

/// Reads the body that continues at a place.
fn next_in_body(mut pending: PendingBox, stream: &[u8], at: usize) -> Result<Next, NoMemory>
    requires within { at ≤ length stream.now }
    requires sound { IsSound pending }
    ensures { IfOk result (ComesNext (Some pending) stream.now at) }
{
    match pending.read(&stream[at..])? {
        Progress::Awaits => Ok(Next::AwaitsBody(pending)),
        Progress::Ended(end, len) => Ok(Next::Found(pending.into_item(end), None, at + len)),
    }
}
