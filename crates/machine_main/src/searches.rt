// Finding cells, by address and by operand. The expected answers are by hand.

ghost use Rattle.machine.specs.Operands.{RightFields};

use crate::TOP;
use machine::{Maddr, NoCell, Reg, cell_of, check_cells, find_cell};
use stored::Tally;

// Counts the searches of these cells for these addresses. A search asks for cells that ascend: accepted ones do.
fn among(addresses: &[u64], tags: &[u8], values: &[u64], cases: &[(u64, Option<usize>)]) -> Tally {
    let mut tally = Tally::new();
    for &(address, expected) in cases {
        tally.count(find(addresses, tags, values, address) == expected);
    }
    tally
}

fn find(addresses: &[u64], tags: &[u8], values: &[u64], address: u64) -> Option<usize> {
    match check_cells(addresses, tags, values) {
        Ok(()) => find_cell(addresses, tags, address),
        Err(_) => None,
    }
}

// Every cell's address, both neighbours of some, and the cells of another tag.
pub fn searches() -> Tally {
    let addresses = [0, 8, 24, 40, 44, 46, 47, 100, 1000, TOP - 7];
    let tags = [64, 64, 64, 32, 16, 8, 64, 64, 8, 64];
    let values = [1, 2, 3, 4, 5, 6, 7, 8, 9, 10];
    among(
        &addresses,
        &tags,
        &values,
        &[
            (0, Some(0)),
            (1, None),
            (7, None),
            (8, Some(1)),
            (9, None),
            (24, Some(2)),
            (40, None),
            (44, None),
            (46, None),
            (47, Some(6)),
            (48, None),
            (99, None),
            (100, Some(7)),
            (101, None),
            (1000, None),
            (TOP - 8, None),
            (TOP - 7, Some(9)),
            (TOP - 6, None),
            (TOP, None),
        ],
    )
}

// 64-bit words in a row: the first look finds each, and nothing below, between and behind them.
pub fn rows() -> Tally {
    let addresses = [4096, 4104, 4112, 4120];
    among(
        &addresses,
        &[64; 4],
        &[1, 2, 3, 4],
        &[
            (0, None),
            (4088, None),
            (4095, None),
            (4096, Some(0)),
            (4097, None),
            (4103, None),
            (4104, Some(1)),
            (4108, None),
            (4112, Some(2)),
            (4120, Some(3)),
            (4128, None),
            (TOP - 7, None),
            (TOP, None),
        ],
    )
}

// Narrow cells and a gap: the first look is at a cell of another tag, at another cell, or at none.
pub fn gaps() -> Tally {
    let addresses = [100, 108, 112, 114, 115, 123, 200, 208];
    let tags = [64, 32, 16, 8, 64, 64, 64, 64];
    let values = [1, 2, 3, 4, 5, 6, 7, 8];
    among(
        &addresses,
        &tags,
        &values,
        &[
            (92, None),
            (99, None),
            (100, Some(0)),
            (108, None),
            (112, None),
            (114, None),
            (115, Some(4)),
            (116, None),
            (123, Some(5)),
            (131, None),
            (192, None),
            (200, Some(6)),
            (208, Some(7)),
            (216, None),
        ],
    )
}

// Cells at the end of the memory: the distance of a low address wraps to a small one.
pub fn tops() -> Tally {
    let addresses = [TOP - 10, TOP - 9, TOP - 8, TOP - 7];
    among(
        &addresses,
        &[8, 8, 8, 64],
        &[1, 2, 3, 4],
        &[
            (0, None),
            (20, None),
            (21, None),
            (TOP - 10, None),
            (TOP - 7, Some(3)),
            (TOP, None),
        ],
    )
}

// The cell of an operand, of cells that the check accepts. Rax is 1000, Rdx 3 and R15 the largest word.
fn cell(m: Maddr, addresses: &[u64], tags: &[u8], values: &[u64]) -> Result<usize, NoCell>
    requires { RightFields m }
{
    let regs = [1000, 0, 0, 3, 0, 0, 0, 0, 0, 0, 0, 0, 0, 0, 0, TOP];
    match check_cells(addresses, tags, values) {
        Ok(()) => cell_of(m, &regs, addresses, tags),
        Err(_) => Err(NoCell::Absent),
    }
}

fn operand(tally: &mut Tally, m: Maddr, expected: Result<usize, NoCell>)
    requires { RightFields m }
{
    let addresses = [0, 992, 1000, 1008, TOP - 7];
    let got = cell(m, &addresses, &[64, 64, 64, 32, 64], &[1, 2, 3, 4, 5]);
    tally.count(got == expected);
}

// A cell, none, and outside where the address modulo 2^64 is that of a cell.
pub fn operands() -> Tally {
    let mut tally = Tally::new();
    operand(&mut tally, Maddr::MConst(1000), Ok(2));
    operand(&mut tally, Maddr::MConst(1001), Err(NoCell::Absent));
    operand(&mut tally, Maddr::MConst(TOP - 7), Ok(4));
    operand(&mut tally, Maddr::MConst(TOP), Err(NoCell::Absent));
    operand(&mut tally, Maddr::MReg(Reg::RAX, 0), Ok(2));
    operand(&mut tally, Maddr::MReg(Reg::RAX, -8), Ok(1));
    operand(&mut tally, Maddr::MReg(Reg::RAX, 8), Err(NoCell::Absent));
    operand(&mut tally, Maddr::MReg(Reg::RAX, -1000), Ok(0));
    operand(&mut tally, Maddr::MReg(Reg::RAX, -1001), Err(NoCell::Wild));
    operand(&mut tally, Maddr::MReg(Reg::RAX, -1008), Err(NoCell::Wild));
    operand(&mut tally, Maddr::MReg(Reg::R15, -7), Ok(4));
    operand(&mut tally, Maddr::MReg(Reg::R15, 0), Err(NoCell::Absent));
    operand(&mut tally, Maddr::MReg(Reg::R15, 1), Err(NoCell::Wild));
    operand(&mut tally, Maddr::MReg(Reg::R15, 1001), Err(NoCell::Wild));
    tally
}

// The same by an index: sums that leave the range and come back, and a multiple of 2^64 beside a cell.
pub fn indexed_operands() -> Tally {
    let mut tally = Tally::new();
    operand(&mut tally, Maddr::MIndex(Reg::RAX, 8, Reg::RDX, -24), Ok(2));
    operand(
        &mut tally,
        Maddr::MIndex(Reg::RDX, 1, Reg::RAX, -1003),
        Ok(0),
    );
    operand(
        &mut tally,
        Maddr::MIndex(Reg::RDX, 1, Reg::RAX, -1004),
        Err(NoCell::Wild),
    );
    operand(
        &mut tally,
        Maddr::MIndex(Reg::RDX, 2, Reg::RAX, -2011),
        Err(NoCell::Wild),
    );
    operand(&mut tally, Maddr::MIndex(Reg::RAX, 4, Reg::RDX, -20), Ok(1));
    operand(
        &mut tally,
        Maddr::MIndex(Reg::RDX, 4, Reg::RAX, -3003),
        Ok(2),
    );
    operand(
        &mut tally,
        Maddr::MIndex(Reg::RAX, 1, Reg::R15, -1000),
        Err(NoCell::Absent),
    );
    operand(
        &mut tally,
        Maddr::MIndex(Reg::RAX, 1, Reg::R15, -1007),
        Ok(4),
    );
    operand(
        &mut tally,
        Maddr::MIndex(Reg::RAX, 1, Reg::R15, -999),
        Err(NoCell::Wild),
    );
    operand(
        &mut tally,
        Maddr::MIndex(Reg::RAX, 1, Reg::R15, 1),
        Err(NoCell::Wild),
    );
    operand(&mut tally, Maddr::MIndex(Reg::R15, 2, Reg::RDX, -13), Ok(4));
    operand(
        &mut tally,
        Maddr::MIndex(Reg::R15, 8, Reg::R15, 9),
        Err(NoCell::Wild),
    );
    operand(
        &mut tally,
        Maddr::MIndex(Reg::R15, 8, Reg::R15, -1000),
        Err(NoCell::Wild),
    );
    tally
}

// Where there is no cell, none is found.
pub fn empties() -> Tally {
    let mut tally = Tally::new();
    tally.count(find(&[], &[], &[], 0) == None);
    tally.count(find(&[], &[], &[], TOP) == None);
    let got = cell(Maddr::MConst(0), &[], &[], &[]);
    tally.count(got == Err(NoCell::Absent));
    tally
}
