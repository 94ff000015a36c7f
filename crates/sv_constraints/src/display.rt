//! Printing the reason of a decision, borrowed or owned.

ghost use Rattle.std.specs.Prelude.{◌≡◌, Some, codes, unwrap_or};
ghost use Rattle.std.specs.Option.{option_copied, option_map_or};
ghost use Rattle.std.specs.Fmt.{decimal};
ghost use Rattle.sv_constraints.specs.Decision.{why_text};
ghost use Rattle.sv_constraints.specs.Printed.{printed_why};

use crate::cause::Cause;
use std::fmt;
use sv_mapping::Pattern;

/// The parts of a reason, with the pattern as text.
#[derive(Clone, Copy)]
pub(crate) struct PrintedWhy<'a> {
    pub(crate) pattern: Option<&'a str>,
    pub(crate) number: Option<u64>,
    pub(crate) cause: Cause,
}

impl fmt::Display for PrintedWhy<'_> {
    ghost output = { λ why. Some (why_text (printed_why why)) };

    fn fmt<W: fmt::Write>(&self, f: &mut fmt::Formatter<W>) -> fmt::Result {
        let pattern = text_or_dash(self.pattern);
        let number = OrDash(self.number);
        let cause = self.cause;
        write!(f, "pattern={pattern} constraint={number} cause={cause}")
    }
}

/// Returns the text of a pattern, if any.
pub(crate) fn text_of(pattern: Option<&Pattern>) -> Option<&str>
    ensures { option_copied result ≡ option_copied pattern.entry }
{
    Some(pattern?.text())
}

/// Returns the text, or `-` if there is none.
fn text_or_dash(text: Option<&str>) -> &str
    ensures { result.now ≡ unwrap_or (option_copied text.entry) (codes "-") }
{
    match text {
        Some(text) => text,
        None => "-",
    }
}

/// Prints a number, or `-` if there is none.
#[derive(Clone, Copy)]
struct OrDash(Option<u64>);

impl fmt::Display for OrDash {
    ghost output = { λ shown. Some (option_map_or decimal shown.0 (codes "-")) };

    fn fmt<W: fmt::Write>(&self, f: &mut fmt::Formatter<W>) -> fmt::Result {
        match self.0 {
            Some(number) => number.fmt(f),
            None => f.write_str("-"),
        }
    }
}
