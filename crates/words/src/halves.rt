// Parts of words: Words.Two_s, Words.Four_s and the lane insertions of Types_s. A selector counts
// by its low bits alone, so that every byte names a part.
ghost use Rattle.std.specs.Prelude.{◌≡◌, ◌%◌};
ghost use Rattle.words.specs.Words.{mktwo, two_two_to_four, four_to_two_two, nat_to_two, two_to_nat, two_select, two_insert, four_select, four_insert};
ghost use Rattle.words.specs.Types.{double32, two_doubles, quad32, bits_of_byte, byte_to_twobits, extract_nat64, select_word, insert_nat32, insert_nat64};

use crate::parts::{BitsOfByte, Double32, Four, Quad32, Two};

#[tactic(auto, unfolding(crate::specs::Words::two_select))]
pub fn two_select(x: Double32, selector: u8) -> u32
    ensures { result ≡ two_select (double32 x) (selector % 2) }
{
    if selector % 2 == 0 { x.lo } else { x.hi }
}

#[tactic(auto, unfolding(crate::specs::Words::two_insert))]
pub fn two_insert(x: Double32, y: u32, selector: u8) -> Double32
    ensures { double32 result ≡ two_insert (double32 x) y (selector % 2) }
{
    if selector % 2 == 0 {
        Two { lo: y, ..x }
    } else {
        Two { hi: y, ..x }
    }
}

#[tactic(auto, unfolding(crate::specs::Words::four_select))]
pub fn four_select(x: Quad32, selector: u8) -> u32
    ensures { result ≡ four_select (quad32 x) (selector % 4) }
{
    match selector % 4 {
        0 => x.lo0,
        1 => x.lo1,
        2 => x.hi2,
        _ => x.hi3,
    }
}

#[tactic(auto, unfolding(crate::specs::Words::four_insert))]
pub fn four_insert(x: Quad32, y: u32, selector: u8) -> Quad32
    ensures { quad32 result ≡ four_insert (quad32 x) y (selector % 4) }
{
    match selector % 4 {
        0 => Four { lo0: y, ..x },
        1 => Four { lo1: y, ..x },
        2 => Four { hi2: y, ..x },
        _ => Four { hi3: y, ..x },
    }
}

pub fn two_two_to_four(lo: Double32, hi: Double32) -> Quad32
    ensures { quad32 result ≡ two_two_to_four (mktwo (double32 lo) (double32 hi)) }
{
    Four {
        lo0: lo.lo,
        lo1: lo.hi,
        hi2: hi.lo,
        hi3: hi.hi,
    }
}

pub fn four_to_two_two(x: Quad32) -> Two<Double32>
    ensures { two_doubles result ≡ four_to_two_two (quad32 x) }
{
    let lo = Two {
        lo: x.lo0,
        hi: x.lo1,
    };
    let hi = Two {
        lo: x.hi2,
        hi: x.hi3,
    };
    Two { lo, hi }
}

#[tactic(auto, unfolding(crate::specs::Words::nat_to_two))]
pub fn nat_to_two(n: u64) -> Double32
    ensures { double32 result ≡ nat_to_two 32 n }
{
    Two {
        lo: (n % 0x1_0000_0000) as u32,
        hi: (n / 0x1_0000_0000) as u32,
    }
}

#[tactic(auto, unfolding(crate::specs::Words::two_to_nat))]
pub fn two_to_nat(x: Double32) -> u64
    ensures { result ≡ two_to_nat 32 (double32 x) }
{
    x.lo as u64 + x.hi as u64 * 0x1_0000_0000
}

#[tactic(auto, unfolding(crate::specs::Words::nat_to_four))]
pub fn byte_to_twobits(b: u8) -> BitsOfByte
    ensures { bits_of_byte result ≡ byte_to_twobits b }
{
    Four {
        lo0: b % 4,
        lo1: b / 4 % 4,
        hi2: b / 16 % 4,
        hi3: b / 64 % 4,
    }
}

// The source has a name of its own for this, and for the insertion below it: docs/CONTRACTS.md has both.
pub fn select_word(q: Quad32, selector: u8) -> u32
    ensures { result ≡ select_word (quad32 q) (selector % 4) }
{
    four_select(q, selector)
}

pub fn insert_nat32(q: Quad32, n: u32, i: u8) -> Quad32
    ensures { quad32 result ≡ insert_nat32 (quad32 q) n (i % 4) }
{
    four_insert(q, n, i)
}

#[tactic(auto, unfolding(crate::specs::Types::insert_nat64, crate::specs::Words::two_insert))]
pub fn insert_nat64(q: Quad32, n: u64, i: u8) -> Quad32
    ensures { quad32 result ≡ insert_nat64 (quad32 q) n (i % 2) }
{
    let two = nat_to_two(n);
    if i % 2 == 0 {
        Four {
            lo0: two.lo,
            lo1: two.hi,
            ..q
        }
    } else {
        Four {
            hi2: two.lo,
            hi3: two.hi,
            ..q
        }
    }
}

// Pextrq's word: the pair that the selector names, as one number.
#[tactic(auto, unfolding(crate::specs::Types::extract_nat64, crate::specs::Words::two_select))]
pub fn extract_nat64(q: Quad32, i: u8) -> u64
    ensures { result ≡ extract_nat64 (quad32 q) (i % 2) }
{
    if i % 2 == 0 {
        two_to_nat(Two {
            lo: q.lo0,
            hi: q.lo1,
        })
    } else {
        two_to_nat(Two {
            lo: q.hi2,
            hi: q.hi3,
        })
    }
}
