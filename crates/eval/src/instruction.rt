// One instruction, by its kind: in two levels, so that each stays small. What comes most often is asked first.
// A kind is the byte that stands in the code, and no enum: docs/DECISIONS.md, "A kind is a byte".
ghost use Rattle.std.specs.Prelude.{◌≡◌, ◌≤◌, ◌<◌, length, get_or};
ghost use Rattle.eval.specs.Promises.{InsAt, EvaluatesIns};

use crate::exit::Exit;
use crate::lanes::{extract, insert, shift_by_word, shift_words, shuffle, two_quads};
use crate::lent::Lent;
use crate::products::{multiply, multiply_into};
use crate::twos::{add_lea, two_operands};
use code::is_two;
use machine::State;

// An arm that holds a row of kinds compiles to a test behind all others, so most kinds have one of their own. `insert`
// is the largest, and is inlined only where it is called in one place.
fn lane_instruction(lent: &Lent, at: usize, state: &mut State, values: &mut [u64]) -> Exit
    requires ins_at { InsAt lent.now.code.now at }
    requires bound { (0x0f ≤ get_or lent.now.code.now at 0) × (get_or lent.now.code.now at 0 < 0x19) }
    requires long { length values.old ≡ length lent.now.addresses.now }
    ensures { EvaluatesIns lent state values at result }
{
    match lent.code[at] {
        0x0f => two_quads(lent, at, state),
        0x10 => two_quads(lent, at, state),
        0x11 => shift_words(lent, at, state),
        0x12 => shift_words(lent, at, state),
        0x13 => shuffle(lent, at, state),
        0x14 => two_quads(lent, at, state),
        0x15 => extract(lent, at, state, values),
        0x16 | 0x17 => insert(lent, at, state, values),
        0x18 => shift_by_word(lent, at, state),
        // No other kind comes here.
        _ => Ok(at),
    }
}

pub fn instruction(lent: &Lent, at: usize, state: &mut State, values: &mut [u64]) -> Exit
    requires ins_at { InsAt lent.now.code.now at }
    requires long { length values.old ≡ length lent.now.addresses.now }
    ensures { EvaluatesIns lent state values at result }
{
    let kind = lent.code[at];
    if is_two(kind) {
        return two_operands(lent, at, state, values);
    }
    if 0x0e < kind {
        return lane_instruction(lent, at, state, values);
    }
    match kind {
        0x03 => add_lea(lent, at, state, values),
        0x08 => multiply(lent, at, state, values),
        0x09 => multiply_into(lent, at, state, values),
        // No other kind comes here.
        _ => Ok(at),
    }
}
