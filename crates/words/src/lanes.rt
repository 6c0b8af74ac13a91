// What the xmm instructions do to the four words of a quad.
ghost use Rattle.std.specs.Prelude.{◌≡◌, if◌then◌else◌, nat_eq};
ghost use Rattle.words.specs.Types.{quad32, quad32_xor, add_lanes, equal_lanes, shl_lanes, shr_lanes, shuffle_lanes, shift_quad};

use crate::halves::{byte_to_twobits, select_word};
use crate::parts::{Four, Quad32};
use crate::word::Word;

#[tactic(auto, unfolding(crate::specs::Types::quad32_xor))]
pub fn quad32_xor(x: Quad32, y: Quad32) -> Quad32
    ensures { quad32 result ≡ quad32_xor (quad32 x) (quad32 y) }
{
    x.map2(y, |a, b| a.ixor(b))
}

#[tactic(auto, unfolding(crate::specs::Types::add_lanes))]
pub fn add_lanes(x: Quad32, y: Quad32) -> Quad32
    ensures { quad32 result ≡ add_lanes (quad32 x) (quad32 y) }
{
    x.map2(y, |a, b| a.wrapping_add(b))
}

// All ones where the two words are equal.
fn equal_word(x: u32, y: u32) -> u32
    ensures { result ≡ (if nat_eq x y then 0xffff_ffff else 0) }
{
    if x == y { 0xffff_ffff } else { 0 }
}

#[tactic(auto, unfolding(crate::specs::Types::equal_lanes))]
pub fn equal_lanes(x: Quad32, y: Quad32) -> Quad32
    ensures { quad32 result ≡ equal_lanes (quad32 x) (quad32 y) }
{
    x.map2(y, equal_word)
}

#[tactic(auto, unfolding(crate::specs::Types::shl_lanes))]
pub fn shl_lanes(x: Quad32, s: u8) -> Quad32
    ensures { quad32 result ≡ shl_lanes (quad32 x) s }
{
    let s = u32::from(s);
    x.map(|a| a.ishl(s))
}

#[tactic(auto, unfolding(crate::specs::Types::shr_lanes))]
pub fn shr_lanes(x: Quad32, s: u8) -> Quad32
    ensures { quad32 result ≡ shr_lanes (quad32 x) s }
{
    let s = u32::from(s);
    x.map(|a| a.ishr(s))
}

pub fn shuffle_lanes(x: Quad32, imm8: u8) -> Quad32
    ensures { quad32 result ≡ shuffle_lanes (quad32 x) imm8 }
{
    let order = byte_to_twobits(imm8);
    order.map(|k| select_word(x, k))
}

#[tactic(auto, unfolding(crate::specs::Types::shift_quad))]
pub fn shift_quad(x: Quad32) -> Quad32
    ensures { quad32 result ≡ shift_quad (quad32 x) }
{
    Four {
        lo0: 0,
        lo1: x.lo0,
        hi2: x.lo1,
        hi3: x.hi2,
    }
}
