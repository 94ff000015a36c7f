//! What is wrong with the arguments of a command that has options.

use crate::key::Key;
use sv_audit_command::Format;

/// The fault of the arguments of a command: the first from the left, or else an option that lacks another, or a form
/// that another server excludes.
#[derive(Clone, Copy)]
pub enum OptionFault<'a> {
    /// There is no server file.
    NoServer,
    /// The word is not an option of the command.
    Unknown(&'a str),
    /// The option is given twice.
    Twice(Key),
    /// The first option cannot be given with the second, which was given before. If several such options were given
    /// before, the second is the first of them in the order of the help.
    Excluded(Key, Key),
    /// The option is the last argument, and its word is missing.
    NoValue(Key),
    /// The word after the option is not a value of it.
    BadValue(Key, &'a str),
    /// The first option is given, and the second, which it needs, is not. If there are several such options, it is the
    /// first of them in the order of the help.
    Alone(Key, Key),
    /// Another server is given, and this form, which a report on differences does not have.
    Unfit(Format),
}
