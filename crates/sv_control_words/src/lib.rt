//! The words of the command `ctl`, and the line at the control socket that they are.
#![tactic(auto)]

mod control_arguments;
mod control_request;
mod control_word;

pub use control_arguments::{blank_argument, blank_rule, pattern_rule, wrong_pattern};
pub use control_request::{ControlRequest, are_on_one_line};
pub use control_word::ControlWord;
