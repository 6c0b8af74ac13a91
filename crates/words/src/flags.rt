// The carry and overflow bits of the flags word. Each is read and put in by a function that the source names, of one line: one function of a
// bit's weight would be called by these four, which would be no shorter.
ghost use Rattle.std.specs.Prelude.{◌≡◌};
ghost use Rattle.words.specs.Flags as Flags;

#[tactic(auto, unfolding(crate::specs::Flags::cf))]
pub fn cf(flags: u64) -> bool
    ensures { result ≡ Flags.cf flags }
{
    flags % 2 == 1
}

#[tactic(auto, unfolding(crate::specs::Flags::overflow))]
pub fn overflow(flags: u64) -> bool
    ensures { result ≡ Flags.overflow flags }
{
    flags / 2048 % 2 == 1
}

// The bit is taken out and the new one put in, with no branch.
#[tactic(auto, using(crate::proofs::FlagLaws::update_cf_is, crate::proofs::BitLaws::bit_lt))]
pub fn update_cf(flags: u64, new_cf: bool) -> u64
    ensures { result ≡ Flags.update_cf flags new_cf }
{
    flags - flags % 2 + new_cf as u64
}

#[tactic(auto, using(crate::proofs::FlagLaws::update_of_is, crate::proofs::BitLaws::bit_lt))]
pub fn update_of(flags: u64, new_of: bool) -> u64
    ensures { result ≡ Flags.update_of flags new_of }
{
    flags - flags / 2048 % 2 * 2048 + new_of as u64 * 2048
}
