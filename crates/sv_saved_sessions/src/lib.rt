//! Suspended contexts as files: their content as bytes, and the code that shows who wrote it. Copies of sessions and
//! files are also made a part at a time.
#![tactic(auto)]

mod copying;
mod cursor;
mod decoding;
mod encoding;
mod file_writer;
mod head;
mod hmac;
mod laws;
mod pieces;
mod reading;
mod reading_fault;
mod restoring;
mod save_fault;
mod saved_context;
mod saved_head;
mod writing;

pub use copying::copy_sessions;
pub use file_writer::{FileWriter, write_context};
pub use hmac::{Hmac, file_key, hmac_sha256_of};
pub use laws::{a_copied_session_stood_in_the_store, a_written_context_is_read};
pub use reading::read_context;
pub use reading_fault::ReadingFault;
pub use save_fault::SaveFault;
pub use saved_context::SavedContext;
pub use saved_head::SavedHead;
