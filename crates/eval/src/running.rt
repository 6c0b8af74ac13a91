// Running: code and cells are checked, and then a copy of the start and the cells' values are lent to the evaluator's cycle.
// What `evaluate` and `run` take stays apart, cells in three lists: README and docs/ name both, and no parameter of theirs may be narrowed.
ghost use Rattle.std.specs.Prelude.{◌≡◌, cond, ◌+◌, ◌-◌, ◌≤◌, ◌<◌};
ghost use Rattle.std.proofs.Math.Option.{some};
ghost use Rattle.machine.specs.Cells.{accepted, verdict, check_cells};
ghost use Rattle.machine.specs.Continuing.{and_then};
ghost use Rattle.code.specs.Reader.{check_code};
ghost use Rattle.eval.specs.FlagRule.{flag_rule};
ghost use Rattle.eval.specs.Config.{config, outcome};
ghost use Rattle.eval.specs.Counted.{ended_of};
ghost use Rattle.eval.specs.Running.{run_of};
ghost use Rattle.eval.specs.LeastFuel.{least_fuel};
ghost use Rattle.eval.specs.Promises.{environment, how, ends_spent};
ghost use Rattle.eval.specs.Inputs.{IsInput};

use crate::answer::{Answer, Run, Setting};
use crate::counted::{Counter, nothing_open};
use crate::cycle::eval_codes;
use crate::exit::Exit;
use crate::lent::Lent;
use code::check_code;
use machine::{Refusal, State, check_cells};

// No `From`: what ends an instruction or a code is no answer, but where a run ends, and there this is asked once.
fn answer_of(ended: Exit) -> Answer
    ensures { outcome result ≡ how ended }
{
    match ended {
        Ok(_) => Answer::Done,
        Err(stop) => match stop.number {
            1 => Answer::Spent(stop.place),
            37 => Answer::Stopped(37, stop.place),
            number => Answer::Fault(number, stop.place),
        },
    }
}

fn ends_spent(ended: Exit) -> bool
    ensures { result ≡ ends_spent ended }
{
    match ended {
        Ok(_) => false,
        Err(stop) => stop.number == 1,
    }
}

// With less than this, a loop test that found fuel would have found none. A run that is Spent needs all of its fuel.
fn needed_fuel(ended: Exit, fuel: u32, tested: u64) -> u32
    requires { (0 < tested) × (tested ≤ fuel + 1) }
    ensures { result ≡ cond (ends_spent ended) fuel (fuel + 1 - tested) }
{
    if ends_spent(ended) {
        return fuel;
    }
    (fuel as u64 + 1 - tested) as u32
}

// Accepted code over accepted cells: what has many starts checks both once. The state is copied in and out once, since a
// copy at each call would cost more than an instruction.
pub fn evaluate(
    code: &[u8],
    addresses: &[u64],
    tags: &[u8],
    values: &mut [u64],
    start: State,
    setting: Setting,
) -> Run
    requires code_value { check_code code.now ≡ accepted }
    requires values_value { check_cells addresses.now tags.now values.old ≡ accepted }
    ensures values_after { ended_of result values.new
        ≡ run_of code.now
        (environment addresses.now tags.now setting.fill (flag_rule setting.evaluation))
        setting.fuel (some setting.limit) (config start values.old) }
    ensures needed_value { result.needed
        ≡ least_fuel (λ fuel. run_of code.now
        (environment addresses.now tags.now setting.fill (flag_rule setting.evaluation))
        fuel (some setting.limit) (config start values.old)) setting.fuel }
{
    let lent = Lent {
        code,
        addresses,
        tags,
        fill: setting.fill,
        limit: setting.limit,
        evaluation: setting.evaluation,
    };
    let fuel = setting.fuel;
    let mut state = start;
    let mut counter = Counter::new(fuel);
    let exit = eval_codes(&lent, 0, code.len(), fuel, &mut state, values, &mut counter);
    Run {
        answer: answer_of(exit),
        state,
        steps: counter.steps,
        watch: counter.watch(),
        needed: needed_fuel(exit, fuel, counter.tested),
    }
}

// Code, and then the cells.
fn check(code: &[u8], addresses: &[u64], tags: &[u8], values: &[u64]) -> Result<(), Refusal>
    ensures { verdict result ≡ and_then (check_code code.now) (check_cells addresses.now tags.now values.now) }
{
    check_code(code)?;
    check_cells(addresses, tags, values)
}

pub fn run(
    code: &[u8],
    addresses: &[u64],
    tags: &[u8],
    values: &mut [u64],
    start: State,
    setting: Setting,
) -> Run
    ensures values_after { ended_of result values.new
        ≡ run_of code.now
        (environment addresses.now tags.now setting.fill (flag_rule setting.evaluation))
        setting.fuel (some setting.limit) (config start values.old) }
    ensures needed_value { result.needed
        ≡ least_fuel (λ fuel. run_of code.now
        (environment addresses.now tags.now setting.fill (flag_rule setting.evaluation))
        fuel (some setting.limit) (config start values.old)) setting.fuel }
    ensures input { IsInput code.now start setting }
{
    if let Err(refusal) = check(code, addresses, tags, values) {
        return Run {
            answer: Answer::from(refusal),
            state: start,
            steps: 0,
            watch: nothing_open(),
            needed: 0,
        };
    }
    evaluate(code, addresses, tags, values, start, setting)
}
