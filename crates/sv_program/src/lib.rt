//! The commands of the program, with generic readers and writers, and the second line of a fault: the file, the place
//! and the offending text.
#![tactic(auto)]

mod command_fault;
mod configuration;
mod configuration_files;
mod constraint_report;
mod detail;
mod disk;
mod example_policy;
mod file_fault;
mod file_line;
mod file_place;
mod first_command;
mod key_law;
mod keys;
mod limits;
mod line;
mod offending_value;
mod output;
mod place;
mod refusal;
mod sentence;
mod socket_fault;
mod taken;
mod toml_value;
mod unavailable;
mod uncovered_command;
mod uncovered_report;
mod value_place;

pub use command_fault::CommandFault;
pub use configuration::{ContextTexts, descriptor_in, realm_in, server_in, users_in};
pub use configuration_files::{read_contexts, read_server_file};
pub use constraint_report::constraint_lines;
pub use detail::Detail;
pub use disk::{Disk, FileStore, FileText};
pub use file_fault::FileFault;
pub use file_place::{FilePlace, item_steps, place_text};
pub use first_command::{denies_uncovered, first, first_line};
pub use key_law::{each_key_is_described, no_key_is_described_twice};
pub use keys::{Format, KEYS, KeyDescription, KeyRow};
pub use limits::{
    MAX_FILE_BYTES, MAX_INPUT_BYTES, MAX_LOCATED_BYTES, MAX_SAMPLED_BYTES, MAX_SEARCHED_BYTES,
    MAX_SEARCHED_LINES, MAX_SHOWN_CHARACTERS, limits_are_as_stated, limits_of_the_second_line,
};
pub use output::{print_line, print_text, report_fault};
pub use refusal::Refusal;
pub use socket_fault::SocketFault;
pub use sv_constraints::{OwnedDecision, OwnedWhy};
pub use toml_value::quoted;
pub use unavailable::{Unavailable, UnavailableEntry};
pub use uncovered_command::uncovered;
pub use uncovered_report::{gap_lines, uncovered_lines};
