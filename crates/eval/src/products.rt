// Products of two words, in two words: Rax and Rdx, or two destinations.
ghost use Rattle.std.specs.Prelude.{ℕ, ◌+◌, ◌≡◌, length};
ghost use Rattle.code.specs.declared.tree.Instruction.TheVariants.{Mul64, Mulx64};
ghost use Rattle.code.specs.Records.{operand_at, behind};
ghost use Rattle.code.specs.Spells.{OperandsFrom};
ghost use Rattle.eval.specs.Instructions.{run_ins};
ghost use Rattle.eval.specs.Config.{config};
ghost use Rattle.eval.specs.Promises.{env_of, Ran};

use crate::exit::{Exit, Stop};
use crate::lent::Lent;
use crate::operand::{load, put, registers_with, resolve};
use code::operand_behind;
use machine::{Reg, State};
use words::mul_wide;

pub fn multiply(lent: &Lent, at: usize, state: &mut State, values: &[u64]) -> Exit
    requires operands_from { OperandsFrom 1 lent.now.code.now (at + 1) }
    requires long { length values.now ≡ length lent.now.addresses.now }
    ensures { let bs = lent.now.code.now in Ran (run_ins (env_of lent.now) at
        (Mul64 (operand_at bs (at + 1)))
        (config state.old values.now))
        (behind bs (at + 1)) result
        (config state.new values.now) }
{
    let src = load(lent, at + 1, state, values);
    if src.number != 0 {
        return Stop::at(src.number, at);
    }
    let rax = Reg::RAX;
    let rdx = Reg::RDX;
    let low = rax.number as usize;
    let high = rdx.number as usize;
    let product = mul_wide(state.regs[low], src.word);
    state.regs[low] = product.low;
    state.regs[high] = product.high;
    state.flags = lent.fill;
    Ok(src.next)
}

// The high destination is resolved in the state after the low half is written, which it depends on only where
// that is a register: so it is looked for with the registers as they will be, and nothing is written until it is
// found.
pub fn multiply_into(lent: &Lent, at: usize, state: &mut State, values: &mut [u64]) -> Exit
    requires operands_from { OperandsFrom 3 lent.now.code.now (at + 1) }
    requires long { length values.old ≡ length lent.now.addresses.now }
    ensures { let bs = lent.now.code.now in Ran (run_ins (env_of lent.now) at
        (Mulx64 (operand_at bs (at + 1))
        (operand_at bs (behind bs (at + 1)))
        (operand_at bs (behind bs (behind bs (at + 1)))))
        (config state.old values.old))
        (behind bs (behind bs (behind bs (at + 1)))) result
        (config state.new values.new) }
{
    let second = operand_behind(lent.code, at + 1);
    let low = resolve(lent, second, &state.regs, values);
    let src = load(lent, low.next, state, values);
    if src.number != 0 {
        return Stop::at(src.number, at);
    }
    if 1 < low.how {
        return Stop::at(low.how, at);
    }
    let rdx = Reg::RDX;
    let from = rdx.number as usize;
    let product = mul_wide(state.regs[from], src.word);
    let after = registers_with(low, product.low, &state.regs);
    let high = resolve(lent, at + 1, &after, values);
    if 1 < high.how {
        return Stop::at(high.how, at);
    }
    put(low, product.low, &mut state.regs, values);
    put(high, product.high, &mut state.regs, values);
    Ok(src.next)
}
