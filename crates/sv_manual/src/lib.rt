//! The commands and options of the program and the keys of its configuration files, as the help, as manual pages, as
//! pages in Markdown, and as a completion of bash.
#![tactic(auto)]

mod commands;
mod completion;
mod form;
mod keys;
mod manual;
mod pages;

pub use commands::{COMMANDS, CommandRow, OPTIONS, OptionRow};
pub use completion::completion_page;
pub use form::Form;
pub use keys::config_page;
pub use manual::{command_page, command_usage, commands_page};
