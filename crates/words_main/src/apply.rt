// One way to call every function of `words`: by its name, with up to two words each in x and y, and the selector, amount,
// carry or flag in s. The result is two words.
use words::{Double32, Four, Quad32, Sum, Two, Word};

// A type of its own, and not words' `Two<u64>`: the program does not lean on what it tests, and writes `From` for it.
#[derive(Clone, Copy, PartialEq, Eq)]
pub struct Pair {
    pub lo: u64,
    pub hi: u64,
}

// The packing is this program's own, so that it does not lean on what it tests.

fn word(x: u64) -> u32 {
    (x % 0x1_0000_0000) as u32
}

fn half(x: u64) -> u16 {
    (x % 0x1_0000) as u16
}

fn byte(x: u64) -> u8 {
    (x % 256) as u8
}

fn double(x: u64) -> Double32 {
    Two {
        lo: (x % 0x1_0000_0000) as u32,
        hi: (x / 0x1_0000_0000) as u32,
    }
}

fn quad(x: Pair) -> Quad32 {
    let lo = double(x.lo);
    let hi = double(x.hi);
    Four {
        lo0: lo.lo,
        lo1: lo.hi,
        hi2: hi.lo,
        hi3: hi.hi,
    }
}

fn whole(x: Double32) -> u64 {
    u64::from(x.lo) + u64::from(x.hi) * 0x1_0000_0000
}

impl From<u64> for Pair {
    fn from(lo: u64) -> Pair {
        Pair { lo, hi: 0 }
    }
}

impl From<u32> for Pair {
    fn from(x: u32) -> Pair {
        u64::from(x).into()
    }
}

impl From<bool> for Pair {
    fn from(x: bool) -> Pair {
        u64::from(x).into()
    }
}

impl From<Double32> for Pair {
    fn from(x: Double32) -> Pair {
        whole(x).into()
    }
}

impl From<Two<Double32>> for Pair {
    fn from(x: Two<Double32>) -> Pair {
        Pair {
            lo: whole(x.lo),
            hi: whole(x.hi),
        }
    }
}

impl From<Quad32> for Pair {
    fn from(x: Quad32) -> Pair {
        Pair {
            lo: u64::from(x.lo0) + u64::from(x.lo1) * 0x1_0000_0000,
            hi: u64::from(x.hi2) + u64::from(x.hi3) * 0x1_0000_0000,
        }
    }
}

impl<W: Into<u64>> From<Sum<W>> for Pair {
    fn from(sum: Sum<W>) -> Pair {
        Pair {
            lo: sum.word.into(),
            hi: u64::from(sum.carry),
        }
    }
}

fn parts(name: &str, x: Pair, y: Pair, s: u8) -> Option<Pair> {
    let d = double(x.lo);
    let q = quad(x);
    Some(match name {
        "two_select" => words::two_select(d, s).into(),
        "two_insert" => words::two_insert(d, word(y.lo), s).into(),
        "nat_to_two" => words::nat_to_two(x.lo).into(),
        "two_to_nat" => words::two_to_nat(d).into(),
        "four_to_two_two" => words::four_to_two_two(q).into(),
        "two_two_to_four" => words::two_two_to_four(double(y.lo), double(y.hi)).into(),
        "byte_to_twobits" => words::byte_to_twobits(byte(x.lo)).map(u32::from).into(),
        "four_select" => words::four_select(q, s).into(),
        "four_insert" => words::four_insert(q, word(y.lo), s).into(),
        "select_word" => words::select_word(q, s).into(),
        "insert_nat32" => words::insert_nat32(q, word(y.lo), s).into(),
        "insert_nat64" => words::insert_nat64(q, y.lo, s).into(),
        "extract_nat64" => words::extract_nat64(q, s).into(),
        _ => return None,
    })
}

fn bits(name: &str, x: u64, y: u64, s: u64) -> Option<Pair> {
    let x32 = word(x);
    let y32 = word(y);
    let s32 = word(s);
    Some(match name {
        "iand64" => x.iand(y).into(),
        "iand32" => x32.iand(y32).into(),
        "ixor64" => x.ixor(y).into(),
        "ixor32" => x32.ixor(y32).into(),
        "ishl64" => x.ishl(s).into(),
        "ishl32" => x32.ishl(s32).into(),
        "ishr64" => x.ishr(s).into(),
        "ishr32" => x32.ishr(s32).into(),
        "cf" => words::cf(x).into(),
        "overflow" => words::overflow(x).into(),
        "update_cf" => words::update_cf(x, s == 1).into(),
        "update_of" => words::update_of(x, s == 1).into(),
        "popcnt64" => words::popcnt64(x).into(),
        "lzcnt64" => words::lzcnt64(x).into(),
        "tzcnt64" => words::tzcnt64(x).into(),
        _ => return None,
    })
}

fn sums(name: &str, x: u64, y: u64, carry: bool) -> Option<Pair> {
    Some(match name {
        "add64" => words::add(x, y, carry).into(),
        "add32" => words::add(word(x), word(y), carry).into(),
        "sub64" => x.minus(y).into(),
        "sub32" => word(x).minus(word(y)).into(),
        "mul_wide" => {
            let product = words::mul_wide(x, y);
            Pair {
                lo: product.low,
                hi: product.high,
            }
        }
        "mul_div" => words::mul_div(x, y).into(),
        "mul_mod" => words::mul_mod(x, y).into(),
        "add_overflows" => words::add_overflows(x, y, carry).into(),
        _ => return None,
    })
}

fn lanes(name: &str, x: Quad32, y: Quad32, s: u8) -> Option<Pair> {
    let result = match name {
        "quad32_xor" => words::quad32_xor(x, y),
        "add_lanes" => words::add_lanes(x, y),
        "equal_lanes" => words::equal_lanes(x, y),
        "shl_lanes" => words::shl_lanes(x, s),
        "shr_lanes" => words::shr_lanes(x, s),
        "shuffle_lanes" => words::shuffle_lanes(x, s),
        "shift_quad" => words::shift_quad(x),
        _ => return None,
    };
    Some(result.into())
}

// Whether a number is below the one that is picked of the least, -1, 0, 1 and the largest, and whether it is above.
fn beside<I: Ord + Copy>(n: I, picks: [I; 5], pick: u8) -> Option<Pair> {
    let m = picks.get(usize::from(pick))?;
    Some(Pair {
        lo: u64::from(n < *m),
        hi: u64::from(*m < n),
    })
}

fn signed(name: &str, x: u64, pick: u8) -> Option<Pair> {
    match name {
        "signed16" => beside(
            words::signed16(half(x)),
            [i16::MIN, -1, 0, 1, i16::MAX],
            pick,
        ),
        "signed64" => beside(words::signed64(x), [i64::MIN, -1, 0, 1, i64::MAX], pick),
        _ => None,
    }
}

// What the function of this name answers.
pub fn apply(name: &str, x: Pair, y: Pair, s: u64) -> Option<Pair> {
    parts(name, x, y, byte(s))
        .or_else(|| bits(name, x.lo, y.lo, s))
        .or_else(|| sums(name, x.lo, y.lo, s == 1))
        .or_else(|| lanes(name, quad(x), quad(y), byte(s)))
        .or_else(|| signed(name, x.lo, byte(s)))
}
