// Instructions that write one destination of one or two sources: moves, additions, logic, shifts and counts.
// A kind is the byte that stands in the code, and no enum: docs/DECISIONS.md, "A kind is a byte".
ghost use Rattle.std.specs.Prelude.{◌≡◌, true, ◌&&◌, ℕ, ◌+◌, leb, get_or, length};
ghost use Rattle.code.specs.declared.tree.Instruction.TheVariants.{AddLea64};
ghost use Rattle.code.specs.Records.{operand_at, behind};
ghost use Rattle.code.specs.Spells.{OperandsFrom};
ghost use Rattle.code.specs.Families.{is_two, two_ins};
ghost use Rattle.eval.specs.Instructions.{checks_amount, run_ins};
ghost use Rattle.eval.specs.Config.{config};
ghost use Rattle.eval.specs.Promises.{env_of, Ran};

use crate::arithmetic::effect_of;
use crate::exit::{Exit, Stop};
use crate::lent::Lent;
use crate::operand::{load, put, resolve};
use machine::State;
use words::Word;

// Whether this is a shift by 64 or more.
fn too_far(kind: u8, amount: u64) -> bool
    ensures { result ≡ (checks_amount kind && leb 64 amount) }
{
    match kind {
        0x0d | 0x0e => 64 <= amount,
        _ => false,
    }
}

// The destination is resolved first and judged last, as the source does: an invalid one does no harm
// before the checks of what is read.
pub fn two_operands(lent: &Lent, at: usize, state: &mut State, values: &mut [u64]) -> Exit
    requires operands_from { OperandsFrom 2 lent.now.code.now (at + 1) }
    requires at_value { is_two (get_or lent.now.code.now at 0) ≡ true }
    requires long { length values.old ≡ length lent.now.addresses.now }
    ensures { let bs = lent.now.code.now in Ran (run_ins (env_of lent.now) at
        (two_ins (get_or bs at 0) (operand_at bs (at + 1))
        (operand_at bs (behind bs (at + 1))))
        (config state.old values.old))
        (behind bs (behind bs (at + 1))) result
        (config state.new values.new) }
{
    let kind = lent.code[at];
    let dst = resolve(lent, at + 1, &state.regs, values);
    let src = load(lent, dst.next, state, values);
    if src.number != 0 {
        return Stop::at(src.number, at);
    }
    if too_far(kind, src.word) {
        return Stop::at(33, at);
    }
    if 1 < dst.how {
        return Stop::at(dst.how, at);
    }
    let effect = effect_of(
        kind,
        lent.evaluation,
        lent.fill,
        state.flags,
        dst.word,
        src.word,
    );
    put(dst, effect.word, &mut state.regs, values);
    state.flags = effect.flags;
    Ok(src.next)
}

pub fn add_lea(lent: &Lent, at: usize, state: &mut State, values: &mut [u64]) -> Exit
    requires operands_from { OperandsFrom 3 lent.now.code.now (at + 1) }
    requires long { length values.old ≡ length lent.now.addresses.now }
    ensures { let bs = lent.now.code.now in Ran (run_ins (env_of lent.now) at
        (AddLea64 (operand_at bs (at + 1))
        (operand_at bs (behind bs (at + 1)))
        (operand_at bs (behind bs (behind bs (at + 1)))))
        (config state.old values.old))
        (behind bs (behind bs (behind bs (at + 1)))) result
        (config state.new values.new) }
{
    let dst = resolve(lent, at + 1, &state.regs, values);
    let one = load(lent, dst.next, state, values);
    let two = load(lent, one.next, state, values);
    if one.number != 0 {
        return Stop::at(one.number, at);
    }
    if two.number != 0 {
        return Stop::at(two.number, at);
    }
    if 1 < dst.how {
        return Stop::at(dst.how, at);
    }
    let sum = one.word.plus(two.word);
    put(dst, sum.word, &mut state.regs, values);
    Ok(two.next)
}
