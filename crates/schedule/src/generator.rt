//! Generators of random words: the one of a number, and how a word is drawn.
ghost use Rattle.std.specs.Prelude.{◌≡◌};
ghost use Rattle.rand_xoshiro.specs.SplitMix64.{mix_u64};

use rand_core::SeedableRng;
use rand_core::utils::NextWord;
use rand_xoshiro::SplitMix64;

/// The generator whose state is the number.
pub(crate) fn generator_of(number: u64) -> SplitMix64
    ensures { result ≡ number }
{
    SplitMix64::from_seed(number.to_le_bytes())
}

/// A generator's next word.
pub(crate) fn next_word(rng: &mut SplitMix64) -> u64
    ensures word { result ≡ (mix_u64 rng.old).0 }
    ensures state { rng.new ≡ (mix_u64 rng.old).1 }
{
    rng.next_word()
}
