// The words and flags of the instructions of a destination and a source.
// A kind is the byte that stands in the code, and no enum: docs/DECISIONS.md, "A kind is a byte".
ghost use Rattle.std.specs.Prelude.{◌≡◌, true, false, ℕ, ◌+◌, eqb};
ghost use Rattle.words.specs.Bits.{bit};
ghost use Rattle.words.specs.Flags as Flags;
ghost use Rattle.words.specs.Sums.{sum_mod, sum_carry};
ghost use Rattle.code.specs.Families.{is_two};
ghost use Rattle.eval.specs.FlagRule.{board_flags, flag_rule};
ghost use Rattle.eval.specs.Instructions.{two_word, two_flags};
ghost use Rattle.eval.specs.Promises.{IsEffect};

use crate::answer::Evaluation;
use words::{
    Word, add, add_overflows, cf, lzcnt64, mul_mod, overflow, popcnt64, tzcnt64, update_cf,
    update_of,
};

// What an instruction writes to its destination and to the flags.
#[derive(Clone, Copy)]
pub struct Effect {
    pub word: u64,
    pub flags: u64,
}

// The sum, and the flags with its carry in them: Adcx64, and Add64 and AddCarry64 as F* has them.
fn carry_addition(flags: u64, a: u64, b: u64, carry: bool) -> Effect
    ensures { IsEffect (sum_mod 64 (a + b + bit carry)) (Flags.update_cf flags (sum_carry 64 (a + b + bit carry))) result }
{
    let sum = add(a, b, carry);
    Effect {
        word: sum.word,
        flags: update_cf(flags, sum.carry),
    }
}

// Add64 and AddCarry64 on the board.
fn board_addition(fill: u64, a: u64, b: u64, carry: bool) -> Effect
    ensures { (flags : ℕ) → IsEffect (sum_mod 64 (a + b + bit carry)) (board_flags fill flags a b (bit carry)) result }
{
    let sum = add(a, b, carry);
    let filled = update_of(fill, add_overflows(a, b, carry));
    Effect {
        word: sum.word,
        flags: update_cf(filled, sum.carry),
    }
}

// Each computes the sum by itself: with the sum ahead of the choice, the compiler keeps both operands for the board, and all
// other instructions pay for that.
fn addition(evaluation: Evaluation, fill: u64, flags: u64, a: u64, b: u64, carry: bool) -> Effect
    ensures { IsEffect (sum_mod 64 (a + b + bit carry)) ((flag_rule evaluation).flags fill flags a b (bit carry)) result }
{
    match evaluation {
        Evaluation::Base => carry_addition(flags, a, b, carry),
        Evaluation::Board => board_addition(fill, a, b, carry),
    }
}

// Adox64. One function of this and `carry_addition` would be told how the flag is written and the definition of that, for two lines.
fn overflow_addition(flags: u64, a: u64, b: u64) -> Effect
    ensures { IsEffect (sum_mod 64 (a + b + bit (Flags.overflow flags)))
        (Flags.update_of flags (sum_carry 64 (a + b + bit (Flags.overflow flags)))) result }
{
    let sum = add(a, b, overflow(flags));
    Effect {
        word: sum.word,
        flags: update_of(flags, sum.carry),
    }
}

// The flags of Xor64 and Popcnt64.
fn cleared(fill: u64) -> u64
    ensures { result ≡ Flags.update_cf (Flags.update_of fill false) false }
{
    update_cf(update_of(fill, false), false)
}

// The flags of Lzcnt64 and Tzcnt64.
fn carry_for_zero(fill: u64, source: u64) -> u64
    ensures { result ≡ Flags.update_cf fill (eqb source 0) }
{
    update_cf(fill, source == 0)
}

pub fn effect_of(kind: u8, evaluation: Evaluation, fill: u64, flags: u64, a: u64, b: u64) -> Effect
    requires { is_two kind ≡ true }
    ensures { IsEffect (two_word kind flags a b) (two_flags kind (flag_rule evaluation) fill flags a b) result }
{
    match kind {
        0x01 => Effect { word: b, flags },
        0x02 => addition(evaluation, fill, flags, a, b, false),
        0x04 => addition(evaluation, fill, flags, a, b, cf(flags)),
        0x05 => carry_addition(flags, a, b, cf(flags)),
        0x06 => overflow_addition(flags, a, b),
        0x07 => Effect {
            word: a.minus(b).word,
            flags: fill,
        },
        0x0a => Effect {
            word: mul_mod(a, b),
            flags: fill,
        },
        0x0b => Effect {
            word: a.ixor(b),
            flags: cleared(fill),
        },
        0x0c => Effect {
            word: a.iand(b),
            flags: fill,
        },
        0x0d => Effect {
            word: a.ishr(b),
            flags: fill,
        },
        0x0e => Effect {
            word: a.ishl(b),
            flags: fill,
        },
        0x19 => Effect {
            word: popcnt64(b),
            flags: cleared(fill),
        },
        0x1a => Effect {
            word: lzcnt64(b),
            flags: carry_for_zero(fill, b),
        },
        0x1b => Effect {
            word: tzcnt64(b),
            flags: carry_for_zero(fill, b),
        },
        // No other kind comes here.
        _ => Effect { word: b, flags },
    }
}
