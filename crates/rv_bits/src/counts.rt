//! Counts of zeros and ones.

ghost use Rattle.std.specs.Prelude.{◌≡◌, ◌<◌, ◌^◌};
ghost use Rattle.rv_bits.specs.Counts.{zeros_above, zeros_below, population};

/// The zeros above the highest 1, all 64 bits where there is no 1.
#[tactic(auto, using(crate::proofs::Counted::leading_zeros_are))]
pub fn zeros_above(a: u64) -> u64
    ensures { result ≡ zeros_above 64 a }
{
    u64::from(a.leading_zeros())
}

/// The same in a word of 32 bits.
#[tactic(auto, using(crate::proofs::Counted::leading_zeros_are))]
pub fn zeros_above_in_word(word: u32) -> u64
    ensures { result ≡ zeros_above 32 word }
{
    u64::from(word.leading_zeros())
}

/// The zeros below the lowest 1, all 64 bits where there is no 1.
#[tactic(auto, using(crate::proofs::Counted::trailing_zeros_are))]
pub fn zeros_below(a: u64) -> u64
    ensures { result ≡ zeros_below 64 a }
{
    u64::from(a.trailing_zeros())
}

/// The same in a word of 32 bits.
#[tactic(auto, using(crate::proofs::Counted::trailing_zeros_are))]
pub fn zeros_below_in_word(word: u32) -> u64
    ensures { result ≡ zeros_below 32 word }
{
    u64::from(word.trailing_zeros())
}

/// The ones.
#[tactic(auto, using(crate::proofs::Counted::ones_are))]
pub fn population(a: u64) -> u64
    ensures { result ≡ population 64 a }
{
    u64::from(a.count_ones())
}

/// The same in a word of 32 bits.
#[tactic(auto, using(crate::proofs::Counted::ones_are))]
pub fn population_of_word(word: u32) -> u64
    ensures { result ≡ population 32 word }
{
    u64::from(word.count_ones())
}
