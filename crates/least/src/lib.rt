// The least fuel at or below a cap with which a run is not Spent. It takes one run, at the cap: that run tells how much fuel it needed.
#![tactic(auto)]

ghost use Rattle.std.specs.Prelude.{◌≡◌};
ghost use Rattle.std.proofs.Math.Option.{some};
ghost use Rattle.eval.specs.FlagRule.{flag_rule};
ghost use Rattle.eval.specs.Config.{config, outcome};
ghost use Rattle.eval.specs.Inputs.{IsInput};
ghost use Rattle.eval.specs.Promises.{environment};
ghost use Rattle.least.specs.Report.{report_of, least_fuel_of, report, reported_of};

use eval::{Answer, Run, Setting, Watch, run};
use machine::State;

// The least fuel, with how the run with it ended; or 61, where the run at the cap is Spent, with that place; or code or cells were not
// accepted. No fuel beside an `Answer`: docs/DECISIONS.md, "A report is an enum of its own". Numbers are those that C is told.
#[derive(Clone, Copy)]
pub enum Least {
    Done(u32),
    Fault(u32, u8, usize),
    Stopped(u32, u8, usize),
    CapSpent(u8, usize),
    Refused(u8, usize),
}

// What is handed back beside the lent cells: the report, and all else as the run with the least fuel hands it back, or the run at the
// cap where there is no such fuel. It holds no `Run`, whose answer is that at the cap.
#[derive(Clone, Copy)]
pub struct LeastRun {
    pub least: Least,
    pub state: State,
    pub steps: u64,
    pub watch: Watch,
}

// Of two values, and by the definition `report_of`, so that no `From` would say it.
fn least_of(needed: u32, answer: Answer) -> Least
    ensures { report result ≡ report_of needed (outcome answer) }
{
    match answer {
        Answer::Done => Least::Done(needed),
        Answer::Fault(number, place) => Least::Fault(needed, number, place),
        Answer::Stopped(number, place) => Least::Stopped(needed, number, place),
        Answer::Spent(place) => Least::CapSpent(61, place),
        Answer::Refused(number, place) => Least::Refused(number, place),
    }
}

// The setting's fuel is the cap. It takes what `run` takes, which README names: neither may take less.
pub fn least_fuel(
    code: &[u8],
    addresses: &[u64],
    tags: &[u8],
    values: &mut [u64],
    start: State,
    setting: Setting,
) -> LeastRun
    ensures values_after { reported_of result values.new
        ≡ least_fuel_of code.now
        (environment addresses.now tags.now setting.fill (flag_rule setting.evaluation))
        setting.fuel (some setting.limit) (config start values.old) }
    ensures input { IsInput code.now start setting }
{
    let Run {
        answer,
        state,
        steps,
        watch,
        needed,
    } = run(code, addresses, tags, values, start, setting);
    LeastRun {
        least: least_of(needed, answer),
        state,
        steps,
        watch,
    }
}
