//! The order in which matching patterns are chosen.

ghost use Rattle.std.specs.Prelude.{◌≡◌};
ghost use Rattle.sv_mapping.specs.BestMatch.{form_rank, is_above};
ghost use Rattle.sv_mapping.specs.Form.{form_seen};
ghost use Rattle.sv_mapping.specs.Rank.{rank_number};

use crate::form::Form;

/// The ranks of patterns, in rising order (Jakarta Servlet 6.0, section 12.1).
#[derive(Clone, Copy, PartialEq, Eq, PartialOrd, Ord)]
pub enum Rank {
    Default,
    Extension,
    /// A prefix of this length in bytes. Longer prefixes rank higher.
    Prefix(usize),
    Exact,
}

impl Rank {
    /// Returns the rank of a form.
    pub fn of(form: Form<'_>) -> Rank
        ensures { rank_number result ≡ form_rank (form_seen form.entry) }
    {
        match form {
            Form::Default => Rank::Default,
            Form::Extension(_) => Rank::Extension,
            Form::Prefix(prefix) => Rank::Prefix(prefix.len()),
            Form::Root | Form::Exact(_) => Rank::Exact,
        }
    }

    /// Returns whether a pattern of this rank is chosen before one of the other rank.
    pub fn is_above(self, other: Rank) -> bool
        ensures { result ≡ is_above (rank_number self) (rank_number other) }
    {
        self > other
    }
}
