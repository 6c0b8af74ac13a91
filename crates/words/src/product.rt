// The two words of a product of 64-bit words: `FStar.UInt.mul_div` and `mul_mod`.
ghost use Rattle.std.specs.Prelude.{◌≡◌};
ghost use Rattle.words.specs.Sums.{mul_div, mul_mod, Product};

use crate::Product64;

#[tactic(auto, unfolding(crate::specs::Sums::mul_mod, crate::specs::Sums::mul_div))]
pub fn mul_wide(a: u64, b: u64) -> Product64
    ensures { Product 64 a b result.low result.high }
{
    let (low, high) = a.carrying_mul(b, 0);
    Product64 { low, high }
}

pub fn mul_div(a: u64, b: u64) -> u64
    ensures { result ≡ mul_div 64 a b }
{
    mul_wide(a, b).high
}

pub fn mul_mod(a: u64, b: u64) -> u64
    ensures { result ≡ mul_mod 64 a b }
{
    mul_wide(a, b).low
}
