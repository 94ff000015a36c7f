//! The exchange: a request and the response that components make.
#![tactic(auto)]

mod attributes;
mod changes;
mod container_calls;
mod dispatch;
mod dispatches;
mod error;
mod events;
mod exchange;
mod exchange_fault;
mod fields;
mod flushed_body;
mod laws;
mod limits;
mod parameter_list;
mod parameters;
mod request;
mod request_queries;
mod response_queries;
mod reused_texts;
mod session_queries;
mod sessions;

pub use attributes::Attribute;
pub use dispatch::{Dispatch, Paths};
pub use error::{KeptError, KeptField, ToldError};
pub use exchange::Exchange;
pub use exchange_fault::ExchangeFault;
pub use laws::{
    changes_are_calls, changes_keep_the_request, changes_move_the_sessions, includes_keep_the_head,
};
pub use limits::{
    LEAST_STATUS, MAX_RESPONSE_BODY_LEN, MAX_STATUS, NOT_MODIFIED, OK, RESET_CONTENT,
};
pub use request::Request;
pub use session_queries::HeldSession;
