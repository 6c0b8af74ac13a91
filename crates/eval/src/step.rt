// Instructions and comparisons as steps of a run: each is tried only where the limit leaves a step, and counted where it
// completes. They know nothing of that themselves.
ghost use Rattle.std.specs.Prelude.{◌≡◌, length};
ghost use Rattle.std.proofs.Math.Option.{some};
ghost use Rattle.eval.specs.Config.{config};
ghost use Rattle.eval.specs.Promises.{env_of, tally, least_tested, InsAt, OcmpAt, EvaluatesStep, DecidesAt, answered, Above};

use crate::comparison::{Decided, compare};
use crate::counted::Counter;
use crate::exit::{Exit, Stop};
use crate::instruction::instruction;
use crate::lent::Lent;
use machine::State;

pub fn step_instruction(
    lent: &Lent,
    at: usize,
    state: &mut State,
    values: &mut [u64],
    counter: &mut Counter,
) -> Exit
    requires ins_at { InsAt lent.now.code.now at }
    requires long { length values.old ≡ length lent.now.addresses.now }
    ensures evaluates_step { EvaluatesStep lent state values counter at result }
    ensures tested_none { least_tested counter.new ≡ least_tested counter.old }
{
    if counter.used_up(lent.limit) {
        return Stop::at(37, at);
    }
    let place = instruction(lent, at, state, values)?;
    counter.count_instruction(lent.code[at], at, lent.evaluation);
    Ok(place)
}

// The comparison of an IfElse or a While. It changes the count alone: where it completes, its caller sets flags to the fill
// word.
pub fn step_comparison(
    lent: &Lent,
    at: usize,
    state: &State,
    values: &[u64],
    counter: &mut Counter,
) -> Result<Decided, u8>
    requires ocmp_at { OcmpAt lent.now.code.now at }
    requires long { length values.now ≡ length lent.now.addresses.now }
    ensures decides { DecidesAt (env_of lent.now) (some lent.now.limit) lent.now.code.now at
        (config state.now values.now) (tally counter.old) (answered result) (tally counter.new) }
    ensures above { Above result }
    ensures tested_none { least_tested counter.new ≡ least_tested counter.old }
{
    if counter.used_up(lent.limit) {
        return Err(37);
    }
    let decided = compare(lent, at, state, values)?;
    counter.count_comparison();
    Ok(decided)
}
