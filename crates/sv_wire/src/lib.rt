//! HTTP/1.x messages read from a stream of bytes, with their bodies, and the text of responses (RFC 9112).
#![tactic(auto)]

mod body_fault;
mod body_reader;
mod cut;
mod date_text;
mod empty_lines;
mod head;
mod history;
mod inbox;
mod item;
mod laws;
mod limits;
mod machine;
mod owed_head;
mod pending_message;
mod read_items;
mod response_text;
mod round_trip;
mod text_kind;
mod wire_fault;

pub use body_fault::BodyFault;
pub use body_reader::{BodyEnd, BodyReader, Framing, Progress};
pub use date_text::DateText;
pub use history::{History, Piece};
pub use inbox::{Awaited, Ended, Inbox};
pub use item::Item;
pub use laws::{
    bodies_are_within_the_limit, limits_are_as_stated, limits_of_bodies_are_as_stated,
    open_heads_are_short, open_texts_are_short, readings_are_unique, readings_exist, readings_join,
    readings_split_at_a_cut,
};
pub use limits::{MAX_BODY_LEN, MAX_FIELD_LINES, MAX_HEAD_LEN, MAX_SIZE_LINE_LEN, MAX_TRAILER_LEN};
pub use owed_head::OwedHead;
pub use response_text::{response_texts_are_unique, send_response, write_response};
pub use round_trip::{
    broken_answers_are_no_bodies, flushed_answers_are_read_back, framing_lines_are_read_back,
    the_reader_reads_answers_back, whole_answers_are_read_back,
};
pub use sv_message::{Field, MAX_HOST_LEN};
pub use wire_fault::WireFault;
