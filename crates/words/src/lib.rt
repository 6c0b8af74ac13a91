// Words_s, Words.Two_s, Words.Four_s, Types_s and TypesNative_s: words of 32 and 64 bits, their
// halves and quarters, their bits, and the carry and overflow bits of a flags word. The counts of bits are request
// 2026-02's, the overflow of signed sums 2026-06's.
#![tactic(auto)]

mod counts;
mod flags;
mod halves;
mod lanes;
mod parts;
mod product;
mod signed;
mod sums;
mod word;

pub use counts::{lzcnt64, popcnt64, tzcnt64};
pub use flags::{cf, overflow, update_cf, update_of};
pub use halves::{
    byte_to_twobits, extract_nat64, four_insert, four_select, four_to_two_two, insert_nat32,
    insert_nat64, nat_to_two, select_word, two_insert, two_select, two_to_nat, two_two_to_four,
};
pub use lanes::{
    add_lanes, equal_lanes, quad32_xor, shift_quad, shl_lanes, shr_lanes, shuffle_lanes,
};
pub use parts::{BitsOfByte, Double32, Four, Quad32, Two};
pub use product::{mul_div, mul_mod, mul_wide};
pub use signed::{add_overflows, signed16, signed64};
pub use sums::{Sum, add};
pub use word::Word;

// The two words of a product, by their names in a multiplication, which `Two` has not.
#[derive(Clone, Copy)]
pub struct Product64 {
    pub low: u64,
    pub high: u64,
}
