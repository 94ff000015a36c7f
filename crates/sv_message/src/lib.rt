//! Requests and responses as values, and what a request's head says: its target, host, framing, expectation,
//! persistence and parameters (RFC 9112, RFC 9110; Jakarta Servlet 6.0, section 3.1).
#![tactic(auto)]

mod apart;
mod body;
mod codings;
mod common;
mod cookie_settings;
mod expectation;
mod field;
mod host;
mod length;
mod limits;
mod members;
mod message;
mod parameters;
mod persistence;
mod pieces;
mod rare;
mod response;
mod segments;
mod target;

pub use apart::Apart;
pub use body::{Body, flushed_content};
pub use codings::{Codings, coding_kind};
pub use cookie_settings::CookieSettings;
pub use expectation::asks_to_continue;
pub use field::{Field, has_field};
pub use host::{accepts_hosts, replace_hosts};
pub use length::content_length;
pub use limits::{MAX_HOST_LEN, MAX_LENGTH_DIGITS, limits_are_as_stated};
pub use members::trim_blanks;
pub use message::{Message, Target};
pub use parameters::{first_of_form, first_of_query, is_form, media_type, text_of};
pub use persistence::keeps;
pub use pieces::Pieces;
pub use rare::Rare;
pub use response::{Cookie, Response};
pub use segments::{MIN_SHARED_BYTES, Segments};
pub use target::{SCHEME_LEN, TargetForm, target_form};
