// A job as a whole: checked, read, run, printed. The lists stay three slices, as `job` is lent them: a struct of them would have each
// clause say of three references that they are still the lent ones.
ghost use Rattle.std.specs.Prelude.{◌≡◌, ◌≤◌, length};
ghost use Rattle.machine.specs.Cells.{accepted};
ghost use Rattle.job.specs.Job.{Complete, Room, Holding, code_of, state_of, setting_of, start_of, check_job, output, printed, run_of_job, Lists};
ghost use Rattle.eval.specs.Inputs.{IsInput};
ghost use Rattle.job.specs.Written.{HasRoom, Wrote, Printed};

use crate::cells::read_cells;
use crate::read::{check_job, read_setting, read_state};
use crate::text::Page;
use code::number2;
use eval::Answer;

// What follows the cells is code, and it is run over them.
fn finish<'a>(
    input: &[u8],
    addresses: &[u64],
    tags: &[u8],
    values: &mut [u64],
    page: Page<'a>,
) -> Page<'a>
    requires blank { HasRoom 65536 page }
    requires complete { Complete input.now }
    requires holding { Holding input.now (start_of input.now).values addresses.now tags.now values.old }
    ensures wrote { Wrote 65536 page.entry (printed input.now (run_of_job input.now)) result }
    ensures values_after { values.new ≡ (run_of_job input.now).end.config.values }
{
    let start = read_state(input);
    let setting = read_setting(input);
    let at = 406 + 17 * number2(input, 404);
    let ended = eval::run(&input[at..], addresses, tags, values, start, setting);
    page.put_run(&ended, addresses, tags, values)
}

// The cells are read into the lists, and the code behind them is run.
fn run_job<'a>(
    input: &[u8],
    addresses: &mut [u64],
    tags: &mut [u8],
    values: &mut [u64],
    page: Page<'a>,
) -> Page<'a>
    requires blank { HasRoom 65536 page }
    requires complete { Complete input.now }
    requires room { Room input.now addresses.old tags.old values.old }
    ensures wrote { Wrote 65536 page.entry (printed input.now (run_of_job input.now)) result }
    ensures holding { Holding input.now (run_of_job input.now).end.config.values
        addresses.new tags.new values.new }
{
    read_cells(input, addresses, tags, values);
    finish(input, addresses, tags, values, page)
}

// As many cells as the job has are lent.
fn run_cells<'a>(
    input: &[u8],
    addresses: &mut [u64],
    tags: &mut [u8],
    values: &mut [u64],
    page: Page<'a>,
) -> Page<'a>
    requires blank { HasRoom 65536 page }
    requires input_value { (check_job input.now ≡ accepted) × Complete input.now }
    requires in_bounds { (1024 ≤ length addresses.old) × (1024 ≤ length tags.old) × (1024 ≤ length values.old) }
    ensures wrote { Wrote 65536 page.entry (printed input.now (run_of_job input.now)) result }
    ensures lists { Lists input.now addresses.old tags.old values.old
        addresses.new tags.new values.new }
{
    let count = number2(input, 404);
    run_job(
        input,
        &mut addresses[..count],
        &mut tags[..count],
        &mut values[..count],
        page,
    )
}

// A job is checked, and then run.
fn print<'a>(
    input: &[u8],
    addresses: &mut [u64; 1024],
    tags: &mut [u8; 1024],
    values: &mut [u64; 1024],
    page: Page<'a>,
) -> Page<'a>
    requires blank { HasRoom 65536 page }
    ensures wrote { Wrote 65536 page.entry (output input.now) result }
    ensures lists { Lists input.now addresses.old tags.old values.old
        addresses.new tags.new values.new }
    ensures input { IsInput (code_of input.now) (state_of input.now) (setting_of input.now) }
{
    match check_job(input) {
        Err(refusal) => page.put_answer(Answer::from(refusal)),
        Ok(()) => run_cells(input, addresses, tags, values, page),
    }
}

// Prints a job's outcome at the start of `out`, and answers how many bytes that takes.
pub fn job(
    input: &[u8],
    addresses: &mut [u64; 1024],
    tags: &mut [u8; 1024],
    values: &mut [u64; 1024],
    out: &mut [u8; 65536],
) -> usize
    ensures printed { Printed (output input.now) out.old out.new result }
    ensures lists { Lists input.now addresses.old tags.old values.old
        addresses.new tags.new values.new }
    ensures input { IsInput (code_of input.now) (state_of input.now) (setting_of input.now) }
{
    let page = print(input, addresses, tags, values, Page::new(out));
    page.len()
}
