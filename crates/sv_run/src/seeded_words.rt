//! Random words that cannot be predicted without their seed.

ghost use Rattle.std.specs.Prelude.{◌≡◌, length};
ghost use Rattle.rand_chacha.specs.ChaCha.{of_seed};
ghost use Rattle.sv_run.specs.Seeded.{long_word};

use crate::context::Words;
use rand_chacha::ChaCha20Rng;
use rand_core::SeedableRng;
use rand_core::utils::NextWord;

/// The number of values of a word of the key stream.
const WORD_VALUES: u64 = 1 << 32;

/// The key stream of ChaCha20 for a seed (RFC 8439, section 2.4). A pair consumes four of its words, two for each
/// number, the high word first.
#[derive(Drop)]
pub struct SeededWords {
    generator: ChaCha20Rng,
}

impl SeededWords {
    /// Returns the words of a seed, from the beginning of its key stream. The seed has 32 bytes.
    pub fn from_seed(seed: &[u8]) -> SeededWords
        requires { length seed.now ≡ 32 }
        ensures { result.generator ≡ of_seed seed.now }
    {
        let mut key = [0; 32];
        key.copy_from_slice(seed);
        SeededWords {
            generator: ChaCha20Rng::from_seed(key),
        }
    }
}

impl Words for SeededWords {
    ghost use Rattle.sv_run.specs.Seeded.{Draws};

    ghost draws = { λ before pair after. Draws before.generator pair after.generator };

    fn pair(&mut self) -> (u64, u64) {
        let first = long_word(&mut self.generator);
        let second = long_word(&mut self.generator);
        (first, second)
    }
}

// Returns the 64-bit number that the next two words of the key stream form.
fn long_word(generator: &mut ChaCha20Rng) -> u64
    ensures { (result, generator.new) ≡ long_word generator.old }
{
    let high = u64::from(generator.next_word());
    let low = u64::from(generator.next_word());
    high * WORD_VALUES + low
}
