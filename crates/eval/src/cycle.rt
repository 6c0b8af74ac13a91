// The evaluator's cycle: a list of codes runs its instructions, enters its Blocks, and calls `eval_code` for an IfElse or a
// While, whose parts are lists again. The codes of a list and the rounds of a While are loops, so that native depth is the
// nesting of IfElses and Whiles.
// A kind is the byte that stands in the code, and no enum: docs/DECISIONS.md, "A kind is a byte".
// `chooses`, whether a code is an IfElse and no While, is a bool: one comparison of the kind's byte, as in the definitions, and all
// that is asked of it (docs/DECISIONS.md, "An IfElse and a While are one function").
ghost use Rattle.std.specs.Prelude.{◌≡◌, false, ◌+◌, ◌^◌, ◌≤◌, ◌<◌, length};
ghost use Rattle.code.specs.Records.{byte_at};
ghost use Rattle.eval.specs.Promises.{CodeAt, CodesAt, codes_from, TestedAt, test_at, BehindTest, way_from, told, part_fuel, Evaluates, WithLess, EvaluatesAll, WithLessAll};

use crate::comparison::Decided;
use crate::counted::Counter;
use crate::exit::{Exit, Stop};
use crate::lent::Lent;
use crate::step::{step_comparison, step_instruction};
use code::number4;
use machine::State;

// Where the codes of a part begin. Its list would enter a Block too, a turn of the loop later.
fn first_code(code: &[u8], part: usize) -> usize
    requires { CodeAt code.now part }
    ensures { result ≡ codes_from code.now part }
{
    if code[part] == 0x20 { part + 5 } else { part }
}

// Where the comparison of an IfElse or a While stands: behind two lengths, or behind one.
fn test_at(at: usize, chooses: bool) -> usize
    requires { at + 9 < 2 ^ 64 }
    ensures { result ≡ test_at at chooses }
{
    if chooses { at + 9 } else { at + 5 }
}

// Where an IfElse or a While goes on behind its comparison: where the part begins that is run next, where that ends, and where
// the whole ends. The second part of a While is empty, and stands at its end.
#[derive(Clone, Copy)]
pub struct Way {
    pub part: usize,
    pub behind: usize,
    pub end: usize,
}

fn way_from(code: &[u8], at: usize, chooses: bool, decided: Decided) -> Way
    requires tested_at { TestedAt code.now at chooses }
    requires behind_test { BehindTest code.now at chooses decided.next }
    ensures { result ≡ way_from code.now at chooses (told decided) }
{
    let first = decided.next;
    let second = first + number4(code, at + 1);
    let end = if chooses {
        second + number4(code, at + 5)
    } else {
        second
    };
    if decided.holds {
        return Way {
            part: first,
            behind: second,
            end,
        };
    }
    Way {
        part: second,
        behind: end,
        end,
    }
}

// The fuel of the part that is run next. A body gets one less, as do the rounds behind it; a part of an IfElse gets all.
fn part_fuel(chooses: bool, left: u32) -> u32
    requires { chooses ≡ false → left ≡ 0 → ⊥ }
    ensures { result ≡ part_fuel chooses left }
{
    if chooses { left } else { left - 1 }
}

// An instruction is run in place, and costs no turn of the cycle. Nor does a Block: its codes stand behind its length, and
// end where it does.
#[cycle(evaluating)]
pub fn eval_codes(
    lent: &Lent,
    from: usize,
    end: usize,
    fuel: u32,
    state: &mut State,
    values: &mut [u64],
    counter: &mut Counter,
) -> Exit
    requires codes_at { CodesAt lent.now.code.now from end }
    requires long { length values.old ≡ length lent.now.addresses.now }
    ensures evaluates_all { EvaluatesAll lent state values counter from end fuel result }
    ensures with_less_all { WithLessAll lent state values counter from end fuel result }
{
    let mut next = from;
    while next < end {
        let kind = lent.code[next];
        if kind < 0x20 {
            next = step_instruction(lent, next, state, values, counter)?;
        } else if kind == 0x20 {
            next += 5;
        } else {
            next = eval_code(lent, next, fuel, state, values, counter)?;
        }
    }
    Ok(end)
}

// An IfElse, which chooses between two parts and has one round, or a While, which has rounds while there is fuel and its
// comparison holds. As one function they call `step_comparison` in one place, where it is inlined.
#[cycle(evaluating)]
fn eval_code(
    lent: &Lent,
    at: usize,
    fuel: u32,
    state: &mut State,
    values: &mut [u64],
    counter: &mut Counter,
) -> Exit
    requires code_at { CodeAt lent.now.code.now at }
    requires bound { 0x21 ≤ byte_at lent.now.code.now at }
    requires long { length values.old ≡ length lent.now.addresses.now }
    ensures evaluates { Evaluates lent state values counter at fuel result }
    ensures with_less { WithLess lent state values counter at fuel result }
{
    let chooses = lent.code[at] == 0x21;
    let test = test_at(at, chooses);
    let mut left = fuel;
    while chooses || left != 0 {
        counter.count_test(chooses, left);
        let decided = match step_comparison(lent, test, state, values, counter) {
            Ok(decided) => decided,
            Err(number) => return Stop::at(number, test),
        };
        state.flags = lent.fill;
        let way = way_from(lent.code, at, chooses, decided);
        if !decided.holds && !chooses {
            return Ok(way.end);
        }
        let given = part_fuel(chooses, left);
        eval_codes(
            lent,
            first_code(lent.code, way.part),
            way.behind,
            given,
            state,
            values,
            counter,
        )?;
        if chooses {
            return Ok(way.end);
        }
        left = given;
    }
    // A While without fuel: an IfElse has returned.
    Stop::at(1, at)
}
