//! A counter in place of random words, so that a script gives the same output each time.

ghost use Rattle.std.specs.Prelude.{◌≡◌};

use crate::context::Words;

/// Words for scripts: the pair of the k-th message is 0 and k, counted from 1. The count saturates at the greatest
/// number.
#[derive(Drop)]
pub struct CountedWords {
    drawn: u64,
}

impl CountedWords {
    /// Returns a counter from which no pair has been drawn.
    pub fn new() -> CountedWords
        ensures { result.drawn ≡ 0 }
    {
        CountedWords { drawn: 0 }
    }
}

impl Words for CountedWords {
    ghost use Rattle.sv_run.specs.Counted.{DrawsCount};

    ghost draws = { λ before pair after. DrawsCount before.drawn pair after.drawn };

    fn pair(&mut self) -> (u64, u64) {
        self.drawn = self.drawn.saturating_add(1);
        (0, self.drawn)
    }
}
