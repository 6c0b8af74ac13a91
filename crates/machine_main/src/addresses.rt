// Exact addresses. The expected words were worked out with Python's whole numbers; those of `operands` by hand.

ghost use Rattle.machine.specs.Operands.{RightFields};

use crate::TOP;
use machine::{Maddr, Reg, exact_address, is_scale, operand_address, register_address};
use stored::Tally;

const HALF: u64 = 1 << 63;

// 8 and 4 times these are 2^64.
const EIGHTH: u64 = 1 << 61;

const QUARTER: u64 = 1 << 62;

const LEAST: i64 = i64::MIN;

const MOST: i64 = i64::MAX;

// Counts the addresses of these bases and offsets.
fn from_base(cases: &[(u64, i64, Option<u64>)]) -> Tally {
    let mut tally = Tally::new();
    for &(base, offset, expected) in cases {
        tally.count(register_address(base, offset) == expected);
    }
    tally
}

// Counts the addresses of these bases, scales, indexes and offsets.
fn by_index(cases: &[(u64, i16, u64, i64, Option<u64>)]) -> Tally {
    let mut tally = Tally::new();
    for &(base, scale, index, offset, expected) in cases {
        tally.count(is_scale(scale) && exact_address(base, scale, index, offset) == expected);
    }
    tally
}

// Rax is 1000, Rdx 3 and R15 the largest word.
fn address_of(m: Maddr) -> Option<u64>
    requires { RightFields m }
{
    operand_address(m, &[1000, 0, 0, 3, 0, 0, 0, 0, 0, 0, 0, 0, 0, 0, 0, TOP])
}

pub fn bases() -> Tally {
    from_base(&[
        (0, 0, Some(0)),
        (0, -1, None),
        (0, MOST, Some(HALF - 1)),
        (0, LEAST, None),
        (TOP, 0, Some(TOP)),
        (TOP, 1, None),
        (TOP, -1, Some(TOP - 1)),
        (TOP, MOST, None),
        (TOP, LEAST, Some(HALF - 1)),
        (HALF, LEAST, Some(0)),
        (HALF - 1, LEAST, None),
        (HALF, MOST, Some(TOP)),
        (HALF + 1, MOST, None),
        (4096, -4096, Some(0)),
        (4096, -4097, None),
        (4096, 8, Some(4104)),
    ])
}

// Fields at the ends of their ranges.
pub fn extremes() -> Tally {
    by_index(&[
        (TOP, 8, TOP, MOST, None),
        (0, 8, TOP, LEAST, None),
        (TOP, 8, 0, LEAST, Some(HALF - 1)),
        (TOP, 8, 0, MOST, None),
        (0, 1, TOP, LEAST, Some(HALF - 1)),
        (TOP, 1, TOP, LEAST, None),
        (TOP, 2, HALF, LEAST, None),
        (TOP, 1, HALF - 1, LEAST, Some(TOP - 1)),
        (0, 4, EIGHTH, LEAST, Some(0)),
        (0, 8, EIGHTH / 2, LEAST, Some(0)),
        (0, 2, HALF - 1, LEAST, Some(HALF - 2)),
        (0, 1, 0, MOST, Some(HALF - 1)),
    ])
}

// Both sides of 0 and of 2^64.
pub fn edges() -> Tally {
    by_index(&[
        (0, 1, TOP, 0, Some(TOP)),
        (0, 1, TOP, 1, None),
        (1, 1, TOP, -1, Some(TOP)),
        (1, 1, TOP, 0, None),
        (0, 2, HALF, -1, Some(TOP)),
        (0, 2, HALF, 0, None),
        (0, 2, HALF - 1, 1, Some(TOP)),
        (0, 2, HALF - 1, 2, None),
        (0, 4, QUARTER, -1, Some(TOP)),
        (0, 4, QUARTER, 0, None),
        (0, 4, QUARTER - 1, 3, Some(TOP)),
        (0, 4, QUARTER - 1, 4, None),
        (0, 8, EIGHTH, -1, Some(TOP)),
        (0, 8, EIGHTH, 0, None),
        (0, 8, EIGHTH - 1, 7, Some(TOP)),
        (0, 8, EIGHTH - 1, 8, None),
        (4096, 8, 3, -4120, Some(0)),
        (4096, 8, 3, -4121, None),
        (5, 4, 0, -5, Some(0)),
        (5, 4, 0, -6, None),
    ])
}

// Both sides of the index below which one multiplication does, and products with a carry between the halves.
pub fn products() -> Tally {
    by_index(&[
        (0, 8, EIGHTH - 1, 0, Some(TOP - 7)),
        (0, 8, EIGHTH, LEAST, Some(HALF)),
        (HALF, 8, EIGHTH / 2, -1, Some(TOP)),
        (HALF, 8, EIGHTH / 2, 0, None),
        (0, 1, EIGHTH - 1, 0, Some(EIGHTH - 1)),
        (0, 1, EIGHTH, 0, Some(EIGHTH)),
        (0, 2, EIGHTH, 0, Some(QUARTER)),
        (0, 4, EIGHTH, 0, Some(HALF)),
        (0, 4, EIGHTH - 1, 0, Some(9223372036854775804)),
        (TOP, 8, EIGHTH, LEAST, None),
        (TOP - 7, 1, 7, 0, Some(TOP)),
        (TOP - 7, 8, 1, 0, None),
        (4096, 8, 3, 16, Some(4136)),
        (4096, 4, 3, 16, Some(4124)),
        (4096, 2, 3, -16, Some(4086)),
        (4096, 1, 3, -16, Some(4083)),
    ])
}

// Through the registers.
pub fn operands() -> Tally {
    let mut tally = Tally::new();
    tally.count(address_of(Maddr::MConst(TOP)) == Some(TOP));
    tally.count(address_of(Maddr::MReg(Reg::RAX, -1000)) == Some(0));
    tally.count(address_of(Maddr::MReg(Reg::R15, 1)) == None);
    tally.count(address_of(Maddr::MIndex(Reg::RAX, 8, Reg::RDX, -24)) == Some(1000));
    tally.count(address_of(Maddr::MIndex(Reg::RDX, 1, Reg::RAX, -1004)) == None);
    tally
}
