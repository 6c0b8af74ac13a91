// The fields of a job's bytes, low byte first. How many bytes there are is asked of the input by each that reads (`Complete` where cells and code
// are read too), and was tested once, by `check_job`. No struct carries it: a job is read once, by these functions, in one order.
ghost use Rattle.std.specs.Prelude.{◌≡◌, ◌+◌, ◌*◌, ◌≤◌, length};
ghost use Rattle.machine.specs.Cells.{verdict};
ghost use Rattle.eval.specs.declared.answer.Evaluation.TheVariants.{Base};
ghost use Rattle.job.specs.Job.{numbers, fuel_of, fill_of, largest_limit, start_of, check_job};

use code::{number2, number4, number8};
use eval::{Evaluation, Setting};
use machine::{Refusal, Rule, State};

// No job is stopped that ends in our time.
const LARGEST_LIMIT: u64 = u64::MAX;

// Two loops, and not one over both element types: it would take size, stride, place and the reading itself from its caller.
fn read_regs(input: &[u8]) -> [u64; 16]
    requires { 148 ≤ length input.now }
    ensures { result ≡ numbers 8 8 16 input.now 20 }
{
    let mut regs = [0; 16];
    for (i, word) in regs.iter_mut().enumerate() {
        *word = number8(input, 20 + 8 * i);
    }
    regs
}

fn read_xmms(input: &[u8]) -> [u32; 64]
    requires { 404 ≤ length input.now }
    ensures { result ≡ numbers 4 4 64 input.now 148 }
{
    let mut xmms = [0; 64];
    for (i, word) in xmms.iter_mut().enumerate() {
        *word = number4(input, 148 + 4 * i) as u32;
    }
    xmms
}

pub fn read_state(input: &[u8]) -> State
    requires { 406 ≤ length input.now }
    ensures { (result.regs ≡ (start_of input.now).regs) × (result.xmms ≡ (start_of input.now).xmms)
        × (result.flags ≡ (start_of input.now).flags) }
{
    let regs = read_regs(input);
    let xmms = read_xmms(input);
    State {
        regs,
        xmms,
        flags: number8(input, 12),
    }
}

pub fn read_setting(input: &[u8]) -> Setting
    requires { 406 ≤ length input.now }
    ensures { (result.fill ≡ fill_of input.now) × (result.fuel ≡ fuel_of input.now)
        × (result.limit ≡ largest_limit) × (result.evaluation ≡ Base) }
{
    Setting {
        fill: number8(input, 4),
        fuel: number4(input, 0) as u32,
        limit: LARGEST_LIMIT,
        evaluation: Evaluation::Base,
    }
}

pub fn check_job(input: &[u8]) -> Result<(), Refusal>
    ensures { verdict result ≡ check_job input.now }
{
    let n = input.len();
    if n > 34198 {
        return Err(Rule::LongJob.at(0));
    }
    if n < 406 {
        return Err(Rule::ShortJob.at(0));
    }
    let count = number2(input, 404);
    if count > 1024 {
        return Err(Rule::Count.at(0));
    }
    if n < 406 + 17 * count {
        return Err(Rule::ShortJob.at(0));
    }
    Ok(())
}
