// Sums with their carry and differences with their borrow.
ghost use Rattle.std.specs.Prelude.{◌+◌};
ghost use Rattle.words.specs.Bits.{bit};
ghost use Rattle.words.specs.Sums.{Added};

use crate::word::Word;

// A word and what left it: the carry of a sum, the borrow of a difference.
#[derive(Clone, Copy)]
pub struct Sum<W> {
    pub word: W,
    pub carry: bool,
}

// The sum of two words and a carry: at most one of its two sums wraps.
pub fn add<W: Word>(a: W, b: W, carry: bool) -> Sum<W>
    ensures { Added W.bits (W.number a + W.number b + bit carry) (W.number result.word) result.carry }
{
    let part = a.plus(b);
    let sum = part.word.plus(W::from(carry));
    Sum {
        word: sum.word,
        carry: part.carry | sum.carry,
    }
}
