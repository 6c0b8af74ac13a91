// X64.Machine_s: registers, the state, operands, exact addresses, and the cells that a caller lends.
#![tactic(auto)]

mod addressing;
mod cells;
mod refusal;
mod reg;
mod wide;
mod xmm;

pub use addressing::{exact_address, is_scale, magnitude, operand_address, register_address};
pub use cells::{cell_of, check_cells, check_from, find_cell};
pub use refusal::{Refusal, Rule};
pub use reg::Reg;
pub use wide::Wide;
pub use xmm::{set_xmm, xmm_at};

// The state by value. Word j of xmm i stands at 4 * i + j.
#[derive(Clone, Copy)]
pub struct State {
    pub regs: [u64; 16],
    pub xmms: [u32; 64],
    pub flags: u64,
}

// A memory operand, with the bounded fields that a code record holds.
#[derive(Clone, Copy)]
pub enum Maddr {
    MConst(u64),
    MReg(Reg, i64),
    MIndex(Reg, i16, Reg, i64),
}

#[derive(Clone, Copy)]
pub enum Operand {
    OConst(u64),
    OReg(Reg),
    OMem(Maddr),
}

// Why a memory operand has no 64-bit cell: none stands at its address, or its exact address is below 0 or above 2^64 - 1.
#[derive(Clone, Copy, PartialEq, Eq)]
pub enum NoCell {
    Absent,
    Wild,
}
