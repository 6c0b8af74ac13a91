// Words as signed numbers.
ghost use Rattle.std.specs.Prelude.{◌≡◌};
ghost use Rattle.words.specs.Bits.{bit};
ghost use Rattle.words.specs.Signed.{signed_word, signed_sum, leaves};

use crate::sums::add;

// The lowest word that is a negative number.
const SIGN: u64 = 0x8000_0000_0000_0000;

// One function for both widths would need a trait with an associated type, three ghost members and two impls for these two lines.
pub fn signed16(n: u16) -> i16
    ensures { result ≡ signed_word 16 n }
{
    n.cast_signed()
}

pub fn signed64(n: u64) -> i64
    ensures { result ≡ signed_word 64 n }
{
    n.cast_signed()
}

// Whether a sum of two words as signed numbers and a carry leaves their range: both have one sign, and the word of the sum
// has the other.
pub fn add_overflows(a: u64, b: u64, carry: bool) -> bool
    ensures { result ≡ leaves 64 (signed_sum 64 a b (bit carry)) }
{
    let sum = add(a, b, carry);
    let negative = SIGN <= a;
    negative == (SIGN <= b) && negative != (SIGN <= sum.word)
}
