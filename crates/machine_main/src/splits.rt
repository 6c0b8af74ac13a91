// Checking cells in two parts: a front, and the rest from the end that it left. Answers and ends are by hand, from document 01's
// list of refusals.

ghost use Rattle.std.specs.Prelude.{◌<◌, ◌≤◌, length};
ghost use Rattle.machine.specs.Cells.{SameLengths};

use crate::TOP;
use crate::cells::{Told, told};
use machine::{Refusal, Wide, check_cells, check_from};
use stored::Tally;

// Four cells, and the ends that none, one, .. four of them leave. Where a front is refused, its end is not looked at. The cells are
// three lists, as they are lent (docs/DECISIONS.md, "Cells are three lists").
#[derive(Clone, Copy)]
struct Cells {
    addresses: [u64; 4],
    tags: [u8; 4],
    values: [u64; 4],
    ends: [Wide; 5],
}

// 2^64.
const BEHIND_TOP: Wide = Wide { high: 1, low: 0 };

// Ends that are words.
fn low_ends(words: [u64; 5]) -> [Wide; 5] {
    words.map(Wide::from)
}

// The answer of a refused front, or of the rest behind an accepted one, which ends at `left`.
fn in_two(c: &Cells, at: usize, left: Wide) -> Result<(), Refusal>
    requires { at ≤ 4 }
{
    check_cells(&c.addresses[..at], &c.tags[..at], &c.values[..at])?;
    check_from(&c.addresses, &c.tags, &c.values, at, left)
}

// Every split has the answer of all the cells: with none of them in the front first, and all of them last.
fn every_split(tally: &mut Tally, c: &Cells, expected: Told) {
    for (at, &left) in c.ends.iter().enumerate() {
        tally.count(told(in_two(c, at, left)) == expected);
    }
}

// Cells without a gap and with gaps, of all tags, and such that end at 2^64.
pub fn accepted() -> Tally {
    let mut tally = Tally::new();
    let close = Cells {
        addresses: [0, 1, 3, 7],
        tags: [8, 16, 32, 64],
        values: [255, 65535, 4294967295, TOP],
        ends: low_ends([0, 1, 3, 7, 15]),
    };
    every_split(&mut tally, &close, Ok(()));
    let apart = Cells {
        addresses: [5, 100, 4096, 9223372036854775808],
        tags: [64, 8, 16, 32],
        values: [0; 4],
        ends: low_ends([0, 13, 101, 4098, 9223372036854775812]),
    };
    every_split(&mut tally, &apart, Ok(()));
    let to_the_end = Cells {
        addresses: [0, TOP - 16, TOP - 8, TOP - 7],
        tags: [8, 64, 8, 64],
        values: [0; 4],
        ends: [
            Wide::from(0),
            Wide::from(1),
            Wide::from(TOP - 8),
            Wide::from(TOP - 7),
            BEHIND_TOP,
        ],
    };
    every_split(&mut tally, &to_the_end, Ok(()));
    tally
}

// Four words in a row from 16 on, but for one cell, which breaks a rule: a split has it in the rest, first in it, or in the front.
fn broken(tally: &mut Tally, at: usize, address: u64, tag: u8, value: u64, number: u8)
    requires { at < 4 }
{
    let mut addresses = [16, 24, 32, 40];
    let mut tags = [64; 4];
    let mut values = [TOP; 4];
    addresses[at] = address;
    tags[at] = tag;
    values[at] = value;
    let words = Cells {
        addresses,
        tags,
        values,
        ends: low_ends([0, 24, 32, 40, 48]),
    };
    every_split(tally, &words, Err((number, at)));
}

// 13, with and without the others.
pub fn tags() -> Tally {
    let mut tally = Tally::new();
    broken(&mut tally, 0, 16, 24, 0, 13);
    broken(&mut tally, 1, 24, 24, TOP, 13);
    broken(&mut tally, 2, 31, 24, TOP, 13);
    broken(&mut tally, 3, 40, 24, 0, 13);
    tally
}

// 14, with and without 15.
pub fn values() -> Tally {
    let mut tally = Tally::new();
    broken(&mut tally, 0, 16, 8, 256, 14);
    broken(&mut tally, 1, 24, 16, 65536, 14);
    broken(&mut tally, 2, 31, 32, 4294967296, 14);
    broken(&mut tally, 3, 40, 32, TOP, 14);
    tally
}

// 15: a byte before the end of the cell before, and at 0, where no cell but the first may stand.
pub fn follows() -> Tally {
    let mut tally = Tally::new();
    broken(&mut tally, 1, 23, 8, 0, 15);
    broken(&mut tally, 2, 31, 64, 0, 15);
    broken(&mut tally, 3, 39, 8, 0, 15);
    broken(&mut tally, 1, 0, 64, 0, 15);
    broken(&mut tally, 2, 0, 8, 0, 15);
    broken(&mut tally, 3, 0, 64, 0, 15);
    tally
}

// 15: a byte behind the end of the memory.
pub fn ends() -> Tally {
    let mut tally = Tally::new();
    broken(&mut tally, 0, TOP - 6, 64, 0, 15);
    broken(&mut tally, 1, TOP - 2, 32, 0, 15);
    broken(&mut tally, 2, TOP, 16, 0, 15);
    broken(&mut tally, 3, TOP - 6, 64, 0, 15);
    tally
}

// A cell behind one that ends at 2^64.
fn behind(tally: &mut Tally, address: u64, tag: u8, value: u64, number: u8) {
    let top = Cells {
        addresses: [0, TOP - 7, address, 0],
        tags: [64, 64, tag, 64],
        values: [0, 0, value, 0],
        ends: [
            Wide::from(0),
            Wide::from(8),
            BEHIND_TOP,
            Wide::from(0),
            Wide::from(0),
        ],
    };
    every_split(tally, &top, Err((number, 2)));
}

// Nothing is accepted behind 2^64, and 13 and 14 come first there too.
pub fn tops() -> Tally {
    let mut tally = Tally::new();
    behind(&mut tally, 0, 8, 0, 15);
    behind(&mut tally, 8, 64, TOP, 15);
    behind(&mut tally, TOP, 8, 255, 15);
    behind(&mut tally, TOP, 9, TOP, 13);
    behind(&mut tally, 0, 8, 256, 14);
    tally
}

// Of two cells that break a rule the first counts, on whichever side it stands.
pub fn orders() -> Tally {
    let mut tally = Tally::new();
    let overlap = Cells {
        addresses: [0, 7, 8, 16],
        tags: [64, 64, 9, 64],
        values: [0; 4],
        ends: low_ends([0, 8, 0, 0, 0]),
    };
    every_split(&mut tally, &overlap, Err((15, 1)));
    let large = Cells {
        addresses: [0, 8, 16, 16],
        tags: [64, 64, 8, 64],
        values: [0, 0, 256, 0],
        ends: low_ends([0, 8, 16, 0, 0]),
    };
    every_split(&mut tally, &large, Err((14, 2)));
    tally
}
