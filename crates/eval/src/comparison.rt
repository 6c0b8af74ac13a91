// Comparisons: whether both operands can be read, and what then holds.
// A kind is the byte that stands in the code, and no enum: docs/DECISIONS.md, "A kind is a byte".
ghost use Rattle.std.specs.Prelude.{◌≡◌, true, length};
ghost use Rattle.code.specs.Records.{is_ocmp};
ghost use Rattle.eval.specs.Config.{config};
ghost use Rattle.eval.specs.Promises.{env_of, comparison, OcmpAt, ComparesAt, answered, Above};

use crate::lent::Lent;
use crate::operand::load;
use machine::State;

// Whether it holds, and the place behind.
#[derive(Clone, Copy)]
pub struct Decided {
    pub holds: bool,
    pub next: usize,
}

fn holds(kind: u8, a: u64, b: u64) -> bool
    requires { is_ocmp kind ≡ true }
    ensures { result ≡ comparison kind a b }
{
    match kind {
        0x30 => a == b,
        0x31 => a != b,
        0x32 => a <= b,
        0x33 => b <= a,
        0x34 => a < b,
        0x35 => b < a,
        // No other kind comes here.
        _ => false,
    }
}

// The comparison of an IfElse or a While.
pub fn compare(lent: &Lent, at: usize, state: &State, values: &[u64]) -> Result<Decided, u8>
    requires ocmp_at { OcmpAt lent.now.code.now at }
    requires long { length values.now ≡ length lent.now.addresses.now }
    ensures compares { ComparesAt (env_of lent.now) lent.now.code.now at (config state.now values.now) (answered result) }
    ensures above { Above result }
{
    let a = load(lent, at + 1, state, values);
    if a.number != 0 {
        return Err(a.number);
    }
    let b = load(lent, a.next, state, values);
    if b.number != 0 {
        return Err(b.number);
    }
    Ok(Decided {
        holds: holds(lent.code[at], a.word, b.word),
        next: b.next,
    })
}
