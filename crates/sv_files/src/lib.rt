//! The static files of a context, and the answers of the file servlet (Jakarta Servlet 6.0, sections 10.10 and 12.2).
#![tactic(auto)]

mod answer;
mod content_type;
mod fault;
mod files;
mod index;
mod list;
mod welcome;

pub use answer::FileAnswer;
pub use content_type::content_type_of;
pub use fault::FilesFault;
pub use files::{File, Files, MAX_FILE_BYTES, MAX_FILES, limits_of_files};
pub use list::{first_bad_path, first_large_path};
