// Numbers of two words. Exact addresses and the ends of cells do not fit one.

ghost use Rattle.std.specs.Prelude.{◌≡◌, ◌+◌, ◌*◌, ◌^◌, ◌<◌, ◌≤◌, nat_lt};
ghost use Rattle.std.proofs.Math.IntN.{sub_ℕ};
ghost use Rattle.machine.specs.Operands.{word_of, in_range};
ghost use Rattle.machine.specs.Wide.{number};

use words::{Word, mul_wide};

// high * 2^64 + low. A number, whose operations are below, where `Product64` of `words` is two words.
#[derive(Clone, Copy)]
pub struct Wide {
    pub high: u64,
    pub low: u64,
}

impl From<u64> for Wide {
    ghost from_gives = { λ x w. number w ≡ x };

    fn from(x: u64) -> Wide {
        Wide { high: 0, low: x }
    }
}

pub fn plus(w: Wide, x: u64) -> Wide
    requires { number w < 2 ^ 68 }
    ensures { number result ≡ number w + x }
{
    let sum = w.low.plus(x);
    Wide {
        high: w.high + sum.carry as u64,
        low: sum.word,
    }
}

// One multiplication serves every index below 2^61, since a scale is at most 8.
pub fn times(scale: u64, index: u64) -> Wide
    requires { scale ≤ 8 }
    ensures { number result ≡ scale * index }
{
    if index < 2305843009213693952 {
        return Wide::from(scale * index);
    }
    let product = mul_wide(scale, index);
    Wide {
        high: product.high,
        low: product.low,
    }
}

// Whether a word is below a number. No derive compares two types.
pub fn is_below(x: u64, w: Wide) -> bool
    ensures { result ≡ nat_lt x (number w) }
{
    w.high != 0 || x < w.low
}

// A number less a word, where that is a word: the high word is then the borrow of the low ones.
pub fn less(w: Wide, x: u64) -> Option<u64>
    ensures { word_of result ≡ in_range (sub_ℕ (number w) x) }
{
    let low = w.low.minus(x);
    let high = low.carry as u64;
    if w.high == high { Some(low.word) } else { None }
}
