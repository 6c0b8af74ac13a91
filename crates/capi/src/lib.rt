// The C interface: the entry points on numbers and lent arrays. A slice passes as a pointer and a length.
#![tactic(auto)]

mod build;

ghost use Rattle.std.specs.Prelude.{◌≡◌};
ghost use Rattle.std.proofs.Math.Option.{some};
ghost use Rattle.machine.specs.Cells.{verdict, check_cells};
ghost use Rattle.code.specs.Reader.{check_code};
ghost use Rattle.eval.specs.FlagRule.{flag_rule};
ghost use Rattle.eval.specs.Config.{outcome};
ghost use Rattle.eval.specs.Promises.{environment, held};
ghost use Rattle.eval.specs.Running.{run_of};
ghost use Rattle.eval.specs.Inputs.{IsInput};
ghost use Rattle.least.specs.Report.{least_fuel_of, report};
ghost use Rattle.job.specs.Job.{output, code_of, state_of, setting_of};
ghost use Rattle.job.specs.Written.{Printed};
ghost use Rattle.capi.specs.Told.{refusal, refusal_of, told, told_of, told_report, told_fuel, watch_numbers, told_open, told_watch, ending, least_ending, evaluation_given, run_given, least_given, lent_state, lent_setting, InputGiven};

use code::check_code;
use eval::{Answer, Evaluation, Setting, Watch, run};
use job::job;
use least::{Least, least_fuel};
use machine::{Refusal, State, check_cells};

// Kinds of outcomes, as the header names them.
const DONE: u8 = 0;

const FAULT: u8 = 1;

const SPENT: u8 = 2;

const REFUSED: u8 = 3;

const STOPPED: u8 = 4;

const CAP_SPENT: u8 = 5;

// The bits of what is open.
const OPEN_CARRY: u8 = 1;

const OPEN_OVERFLOW: u8 = 2;

// Numbers of an answer. A place is written through a reference, C's way to return a second result: the functions of include/pokchrei.h
// have their results in parameters, and so have those that tell them.
fn tell_checked(checked: Result<(), Refusal>, place: &mut usize) -> u8
    ensures { refusal result place.new ≡ refusal_of (verdict checked) }
{
    match checked {
        Ok(()) => {
            *place = 0;
            0
        }
        Err(refusal) => {
            *place = refusal.place;
            refusal.rule.number()
        }
    }
}

fn tell(answer: Answer, number: &mut u8, place: &mut usize) -> u8
    ensures { told result number.new place.new ≡ told_of (outcome answer) }
{
    let (kind, n, at) = match answer {
        Answer::Done => (DONE, 0, 0),
        Answer::Fault(n, at) => (FAULT, n, at),
        Answer::Stopped(n, at) => (STOPPED, n, at),
        Answer::Spent(at) => (SPENT, 0, at),
        Answer::Refused(n, at) => (REFUSED, n, at),
    };
    *number = n;
    *place = at;
    kind
}

fn tell_open(carry: bool, overflow: bool) -> u8
    ensures { result ≡ told_open carry overflow }
{
    u8::from(carry) * OPEN_CARRY + u8::from(overflow) * OPEN_OVERFLOW
}

fn tell_watch(watch: Watch, mark: &mut usize, opened: &mut u8) -> u8
    ensures { watch_numbers result mark.new opened.new ≡ told_watch watch }
{
    *opened = tell_open(watch.carry, watch.overflow);
    let first = watch.mark;
    match first {
        None => {
            *mark = 0;
            0
        }
        Some(at) => {
            *mark = at;
            1
        }
    }
}

// C names an evaluation by a number. An Option and no `TryFrom`: of a number that names none nothing more is told (`tell_none`).
fn evaluation_of(number: u8) -> Option<Evaluation>
    ensures { result ≡ evaluation_given number }
{
    match number {
        0 => Some(Evaluation::Base),
        1 => Some(Evaluation::Board),
        _ => None,
    }
}

#[unsafe(no_mangle)]
pub extern "C" fn pokchrei_check_code(code: &[u8], place: &mut usize) -> u8
    ensures { refusal result place.new ≡ refusal_of (check_code code.now) }
{
    let checked = check_code(code);
    tell_checked(checked, place)
}

#[unsafe(no_mangle)]
pub extern "C" fn pokchrei_check_cells(
    addresses: &[u64],
    tags: &[u8],
    values: &[u64],
    index: &mut usize,
) -> u8
    ensures { refusal result index.new ≡ refusal_of (check_cells addresses.now tags.now values.now) }
{
    let checked = check_cells(addresses, tags, values);
    tell_checked(checked, index)
}

// The state that is lent in parts.
fn lent_state(regs: &[u64; 16], xmms: &[u32; 64], flags: u64) -> State
    ensures { result ≡ lent_state regs.now xmms.now flags }
{
    State {
        regs: *regs,
        xmms: *xmms,
        flags,
    }
}

// The state into its lent parts. By names, as in build.rt: a field that is an array is not stored straight from a struct.
fn hand_back(state: State, regs: &mut [u64; 16], xmms: &mut [u32; 64], flags: &mut u64)
    ensures { lent_state regs.new xmms.new flags.new ≡ state }
{
    let State {
        regs: last_regs,
        xmms: last_xmms,
        flags: last_flags,
    } = state;
    *regs = last_regs;
    *xmms = last_xmms;
    *flags = last_flags;
}

// No evaluation was named, and so nothing was run.
fn tell_none(
    number: &mut u8,
    place: &mut usize,
    steps: &mut u64,
    marked: &mut u8,
    mark: &mut usize,
    opened: &mut u8,
) -> u8
    ensures place_after { told result number.new place.new ≡ told 3 0 0 }
    ensures steps_after { steps.new ≡ 0 }
    ensures opened_after { watch_numbers marked.new mark.new opened.new ≡ watch_numbers 0 0 0 }
{
    *number = 0;
    *place = 0;
    *steps = 0;
    *marked = 0;
    *mark = 0;
    *opened = 0;
    REFUSED
}

#[unsafe(no_mangle)]
pub extern "C" fn pokchrei_run(
    code: &[u8],
    addresses: &[u64],
    tags: &[u8],
    values: &mut [u64],
    regs: &mut [u64; 16],
    xmms: &mut [u32; 64],
    flags: &mut u64,
    fill: u64,
    fuel: u32,
    limit: u64,
    evaluation: u8,
    number: &mut u8,
    place: &mut usize,
    steps: &mut u64,
    marked: &mut u8,
    mark: &mut usize,
    opened: &mut u8,
) -> u8
    ensures opened_after { ending (told result number.new place.new)
        (held regs.new xmms.new flags.new values.new) steps.new
        (watch_numbers marked.new mark.new opened.new)
        ≡ run_given (evaluation_given evaluation) (λ e.
        run_of code.now (environment addresses.now tags.now fill (flag_rule e)) fuel (some limit)
        (held regs.old xmms.old flags.old values.old))
        (held regs.old xmms.old flags.old values.old) }
    ensures input_given { InputGiven (evaluation_given evaluation) code.now
        (lent_state regs.old xmms.old flags.old) (lent_setting fill fuel limit) }
{
    let Some(evaluation) = evaluation_of(evaluation) else {
        return tell_none(number, place, steps, marked, mark, opened);
    };
    let start = lent_state(regs, xmms, *flags);
    let setting = Setting {
        fill,
        fuel,
        limit,
        evaluation,
    };
    let end = run(code, addresses, tags, values, start, setting);
    let state = end.state;
    hand_back(state, regs, xmms, flags);
    *steps = end.steps;
    *marked = tell_watch(end.watch, mark, opened);
    tell(end.answer, number, place)
}

fn tell_least(least: Least, fuel: &mut u32, number: &mut u8, place: &mut usize) -> u8
    ensures place_after { told result number.new place.new ≡ told_report (report least) }
    ensures fuel_after { fuel.new ≡ told_fuel (report least) }
{
    let (kind, needed, n, at) = match least {
        Least::Done(needed) => (DONE, needed, 0, 0),
        Least::Fault(needed, n, at) => (FAULT, needed, n, at),
        Least::Stopped(needed, n, at) => (STOPPED, needed, n, at),
        Least::CapSpent(n, at) => (CAP_SPENT, 0, n, at),
        Least::Refused(n, at) => (REFUSED, 0, n, at),
    };
    *fuel = needed;
    *number = n;
    *place = at;
    kind
}

// As `pokchrei_run` with a cap in place of fuel, and the least fuel beside what that tells. What is found is told before the state is
// handed back, so that the compiler makes one match of the two.
#[unsafe(no_mangle)]
pub extern "C" fn pokchrei_least_fuel(
    code: &[u8],
    addresses: &[u64],
    tags: &[u8],
    values: &mut [u64],
    regs: &mut [u64; 16],
    xmms: &mut [u32; 64],
    flags: &mut u64,
    fill: u64,
    cap: u32,
    limit: u64,
    evaluation: u8,
    fuel: &mut u32,
    number: &mut u8,
    place: &mut usize,
    steps: &mut u64,
    marked: &mut u8,
    mark: &mut usize,
    opened: &mut u8,
) -> u8
    ensures opened_after { least_ending fuel.new
        (ending (told result number.new place.new)
        (held regs.new xmms.new flags.new values.new) steps.new
        (watch_numbers marked.new mark.new opened.new))
        ≡ least_given (evaluation_given evaluation) (λ e.
        least_fuel_of code.now (environment addresses.now tags.now fill (flag_rule e)) cap (some limit)
        (held regs.old xmms.old flags.old values.old))
        (held regs.old xmms.old flags.old values.old) }
    ensures input_given { InputGiven (evaluation_given evaluation) code.now
        (lent_state regs.old xmms.old flags.old) (lent_setting fill cap limit) }
{
    let Some(evaluation) = evaluation_of(evaluation) else {
        *fuel = 0;
        return tell_none(number, place, steps, marked, mark, opened);
    };
    let start = lent_state(regs, xmms, *flags);
    let setting = Setting {
        fill,
        fuel: cap,
        limit,
        evaluation,
    };
    let found = least_fuel(code, addresses, tags, values, start, setting);
    let kind = tell_least(found.least, fuel, number, place);
    hand_back(found.state, regs, xmms, flags);
    *steps = found.steps;
    *marked = tell_watch(found.watch, mark, opened);
    kind
}

// What the job program prints, from the bytes that it reads: the text stands at the start of `out`.
#[unsafe(no_mangle)]
pub extern "C" fn pokchrei_job(input: &[u8], out: &mut [u8; 65536]) -> usize
    ensures printed { Printed (output input.now) out.old out.new result }
    ensures input { IsInput (code_of input.now) (state_of input.now) (setting_of input.now) }
{
    let mut addresses = [0u64; 1024];
    let mut tags = [0u8; 1024];
    let mut values = [0u64; 1024];
    job(input, &mut addresses, &mut tags, &mut values, out)
}
