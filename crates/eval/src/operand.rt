// Operands: where a source is read, and where a destination is written. `OperandBytes` (and `OperandsFrom`, of some in a
// row) is what `InsAt` and `OcmpAt` give of an operand: that its record stands at a place in the code. A type of such places would have to
// hold the code too, where `lent` holds it once.
ghost use Rattle.std.specs.Prelude.{◌≡◌, List, ℕ, ◌<◌, length};
ghost use Rattle.machine.specs.declared.Maddr.{Maddr};
ghost use Rattle.machine.specs.declared.Operand.TheVariants.{OMem};
ghost use Rattle.code.specs.Records.{operand_at, behind};
ghost use Rattle.code.specs.Spells.{OperandBytes};
ghost use Rattle.code.specs.Forms.{form_of};
ghost use Rattle.code.specs.declared.records.Form.TheVariants.{Memory};
ghost use Rattle.eval.specs.Config.{config};
ghost use Rattle.eval.specs.Promises.{env_of, held, Seeks, Loads, Resolves, InBounds, no_slot, put_regs, put_values};

use crate::lent::Lent;
use code::{Form, form_at, memory_at, operand_behind};
use machine::{NoCell, State, cell_of};

// A source: 0 or the number of the check that fails, its word, and the place behind its record.
// A number beside the values and no Result: docs/DECISIONS.md, "Numbers that come back".
#[derive(Clone, Copy)]
pub struct Loaded {
    pub number: u8,
    pub word: u64,
    pub next: usize,
}

// A destination: 0 where it is a register, 1 where it is a cell, or the number of the check that fails;
// which register or cell; the word that it holds; and the place behind its record.
// A number beside the values and no Result: docs/DECISIONS.md, "Numbers that come back".
#[derive(Clone, Copy)]
pub struct Slot {
    pub how: u8,
    pub index: usize,
    pub word: u64,
    pub next: usize,
}

// The cell of a memory operand: 0 or the number of the check that fails, and which cell.
// A number beside the values and no Result: docs/DECISIONS.md, "Numbers that come back".
#[derive(Clone, Copy)]
pub struct Sought {
    pub number: u8,
    pub index: usize,
}

// The cell of the memory operand at a place, where `absent` is the number of its check if no 64-bit cell is there. It stands apart, so that operands
// that are no memory are read in place.
fn cell_at(lent: &Lent, at: usize, regs: &[u64; 16], absent: u8) -> Sought
    requires operand_bytes { OperandBytes lent.now.code.now at }
    requires at_value { form_of (operand_at lent.now.code.now at) ≡ Memory }
    ensures { (m : Maddr) →
        operand_at lent.now.code.now at ≡ OMem m →
        Seeks lent.now.addresses.now lent.now.tags.now regs.now m absent result }
{
    let m = memory_at(lent.code, at);
    match cell_of(m, regs, lent.addresses, lent.tags) {
        Ok(index) => Sought { number: 0, index },
        Err(NoCell::Absent) => Sought {
            number: absent,
            index: 0,
        },
        Err(NoCell::Wild) => Sought {
            number: 36,
            index: 0,
        },
    }
}

pub fn load(lent: &Lent, at: usize, state: &State, values: &[u64]) -> Loaded
    requires operand_bytes { OperandBytes lent.now.code.now at }
    requires long { length values.now ≡ length lent.now.addresses.now }
    ensures { let bs = lent.now.code.now in
        Loads (env_of lent.now) (config state.now values.now) (operand_at bs at) (behind bs at) result }
{
    let next = operand_behind(lent.code, at);
    match form_at(lent.code, at) {
        Form::Const(word) => Loaded {
            number: 0,
            word,
            next,
        },
        Form::Register(register) => {
            let index = register.number as usize;
            Loaded {
                number: 0,
                word: state.regs[index],
                next,
            }
        }
        Form::Memory => {
            let cell = cell_at(lent, at, &state.regs, 31);
            if cell.number != 0 {
                return Loaded {
                    number: cell.number,
                    word: 0,
                    next,
                };
            }
            Loaded {
                number: 0,
                word: values[cell.index],
                next,
            }
        }
    }
}

// No destination.
fn nowhere(number: u8, next: usize) -> Slot
    ensures { result ≡ no_slot number next }
{
    Slot {
        how: number,
        index: 0,
        word: 0,
        next,
    }
}

pub fn resolve(lent: &Lent, at: usize, regs: &[u64; 16], values: &[u64]) -> Slot
    requires operand_bytes { OperandBytes lent.now.code.now at }
    requires long { length values.now ≡ length lent.now.addresses.now }
    ensures { (flags : ℕ) (xmms : List ℕ) → let bs = lent.now.code.now in
        Resolves (env_of lent.now) (held regs.now xmms flags values.now) (operand_at bs at) (behind bs at) result }
{
    let next = operand_behind(lent.code, at);
    match form_at(lent.code, at) {
        Form::Const(_) => nowhere(32, next),
        Form::Register(register) => {
            if register.is_rsp() {
                return nowhere(32, next);
            }
            let index = register.number as usize;
            Slot {
                how: 0,
                index,
                word: regs[index],
                next,
            }
        }
        Form::Memory => {
            let cell = cell_at(lent, at, regs, 32);
            if cell.number != 0 {
                return nowhere(cell.number, next);
            }
            let index = cell.index;
            Slot {
                how: 1,
                index,
                word: values[index],
                next,
            }
        }
    }
}

// The registers as `put` will leave them.
pub fn registers_with(t: Slot, word: u64, regs: &[u64; 16]) -> [u64; 16]
    requires { t.how ≡ 0 → t.index < 16 }
    ensures { result ≡ put_regs t word regs.now }
{
    let mut after = *regs;
    if t.how == 0 {
        after[t.index] = word;
    }
    after
}

// The one place that writes a destination.
pub fn put(t: Slot, word: u64, regs: &mut [u64; 16], values: &mut [u64])
    requires { InBounds t (length values.old) }
    ensures regs_after { regs.new ≡ put_regs t word regs.old }
    ensures values_after { values.new ≡ put_values t word values.old }
{
    if t.how == 0 {
        regs[t.index] = word;
    } else {
        values[t.index] = word;
    }
}
