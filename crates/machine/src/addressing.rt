// The exact address of a memory operand, over the whole numbers: a sum of two words, so that nothing wraps, and an offset that is
// added or taken away at the end.

ghost use Rattle.std.specs.Prelude.{◌≡◌, ◌^◌, ◌<◌, true, pos, ◌+ℤ◌, unsigned_abs};
ghost use Rattle.machine.specs.Operands.{word_of, in_range, exact, is_scale, eval_maddr, RightFields};
ghost use Rattle.machine.specs.Wide.{number};

use crate::Maddr;
use crate::wide::{Wide, less, plus, times};

// Whether a scale is one that machine code has.
pub fn is_scale(scale: i16) -> bool
    ensures { result ≡ is_scale scale }
{
    matches!(scale, 1 | 2 | 4 | 8)
}

// The number without its sign.
pub fn magnitude(x: i64) -> u64
    ensures { result ≡ unsigned_abs x }
{
    x.unsigned_abs()
}

// The address at an offset from a number.
fn moved(from: Wide, offset: i64) -> Option<u64>
    requires { number from < 2 ^ 68 }
    ensures { word_of result ≡ in_range (pos (number from) +ℤ offset) }
{
    let size = magnitude(offset);
    if offset < 0 {
        less(from, size)
    } else {
        less(plus(from, size), 0)
    }
}

// The address of an MReg, with no multiplication.
pub fn register_address(base: u64, offset: i64) -> Option<u64>
    ensures { word_of result ≡ in_range (pos base +ℤ offset) }
{
    moved(Wide::from(base), offset)
}

// The address of an MIndex.
pub fn exact_address(base: u64, scale: i16, index: u64, offset: i64) -> Option<u64>
    requires { is_scale scale ≡ true }
    ensures { word_of result ≡ in_range (exact base scale index offset) }
{
    moved(plus(times(scale as u64, index), base), offset)
}

// The address of a memory operand whose fields are right. That they are is asked of the operand as it stands in accepted code, by those that
// take one (`RightFields`): an operand that a builder is given may have any.
pub fn operand_address(m: Maddr, regs: &[u64; 16]) -> Option<u64>
    requires { RightFields m }
    ensures { word_of result ≡ in_range (eval_maddr m regs.now) }
{
    match m {
        Maddr::MConst(n) => Some(n),
        Maddr::MReg(register, offset) => {
            let i = register.number as usize;
            register_address(regs[i], offset)
        }
        Maddr::MIndex(base, scale, index, offset) => {
            let i = base.number as usize;
            let j = index.number as usize;
            exact_address(regs[i], scale, regs[j], offset)
        }
    }
}
