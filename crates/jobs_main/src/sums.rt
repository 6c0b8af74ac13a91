// A stored sum: the kind of its instruction and its evaluation, a byte each, and six words, low byte first: Rax, Rbx, flags and the
// fill word before, and Rax and flags behind.

ghost use Rattle.std.specs.Prelude.{◌≡◌, ◌↔◌, IsTrue};
ghost use Rattle.jobs_main.specs.Sums.{evaluation_at, Says, IsStored};

use code::number8;
use eval::{Answer, Evaluation, Run, Setting, run};
use machine::State;

pub const ROW: usize = 50;

// A byte of the file, 0 or 1 as compare/ writes it: so that no row is without a run, any other is taken for 1, in specs/Sums too.
fn evaluation_at(row: &[u8; ROW]) -> Evaluation
    ensures { result ≡ evaluation_at row.now }
{
    match row[1] {
        0 => Evaluation::Base,
        _ => Evaluation::Board,
    }
}

// The instruction alone, from Rbx to Rax.
fn run_sum(row: &[u8; ROW]) -> Run
    ensures { Says row.now result }
{
    let code = [row[0], 0x41, 0, 0x41, 1];
    let mut regs = [0; 16];
    regs[0] = number8(row, 2);
    regs[1] = number8(row, 10);
    let start = State {
        regs,
        xmms: [0; 64],
        flags: number8(row, 18),
    };
    let setting = Setting {
        fill: number8(row, 26),
        fuel: 0,
        limit: 1,
        evaluation: evaluation_at(row),
    };
    run(&code, &[], &[], &mut [], start, setting)
}

// Whether a sum ends as it is stored.
pub fn agrees(row: &[u8; ROW]) -> bool
    ensures { IsTrue result ↔ IsStored row.now }
{
    let Run { answer, state, .. } = run_sum(row);
    matches!(answer, Answer::Done)
        && state.regs[0] == number8(row, 34)
        && state.flags == number8(row, 42)
}
