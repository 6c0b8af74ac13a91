// The counts of a word's bits, by the language's own, which gives them as 32 bits.
ghost use Rattle.std.specs.Prelude.{◌≡◌};
ghost use Rattle.words.specs.Counts.{popcnt, lzcnt, tzcnt};

#[tactic(auto, using(crate::proofs::CountLaws::popcnt_is))]
pub fn popcnt64(x: u64) -> u64
    ensures { result ≡ popcnt 64 x }
{
    u64::from(x.count_ones())
}

#[tactic(auto, using(crate::proofs::CountLaws::lzcnt_is))]
pub fn lzcnt64(x: u64) -> u64
    ensures { result ≡ lzcnt 64 x }
{
    u64::from(x.leading_zeros())
}

#[tactic(auto, using(crate::proofs::CountLaws::tzcnt_is))]
pub fn tzcnt64(x: u64) -> u64
    ensures { result ≡ tzcnt 64 x }
{
    u64::from(x.trailing_zeros())
}
