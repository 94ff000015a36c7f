//! The arguments of the program: the command that they name with its options, and what is wrong with arguments that name
//! none.
#![tactic(auto)]

mod audit_options;
mod command;
mod control_usage;
mod count;
mod given;
mod help_usage;
mod key;
mod manual;
mod near;
mod option_fault;
mod option_set;
mod plain;
mod question;
mod run_options;
mod service;
mod topic;
mod unknown_names;
mod usage;

pub use audit_options::{AuditOptions, audit_arguments_ask_for_one_thing};
pub use command::{Command, arguments_name_one_command};
pub use count::Count;
pub use key::Key;
pub use manual::Manual;
pub use near::a_near_name_is_the_nearest;
pub use option_fault::OptionFault;
pub use question::Question;
pub use run_options::{AccessLogFormat, RunOptions, arguments_ask_for_one_thing};
pub use service::Service;
pub use topic::{TOPICS, Topic, is_help_option};
pub use usage::{
    commands_take_their_words, the_manual_is_of_this_program, usage_detail,
    wrong_arguments_have_one_line,
};
