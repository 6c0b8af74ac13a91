// Words of 32 and of 64 bits, and what TypesNative_s ties to FStar.UInt at any width: each operation is stated once, at
// `bits`. The methods are the types' own, since only an impl knows that its words are below 2 ^ `bits`.
#![tactic(auto, using(crate::proofs::WordLaws::word_laws), unfolding(crate::specs::Sums::sum_mod, crate::specs::Sums::sum_carry, crate::specs::Sums::sub_mod))]

ghost use Rattle.std.specs.Prelude.{◌≡◌, ◌+◌, ℕ, Bool, true, false};
ghost use Rattle.words.specs.Bits.{bit, iand, ixor, ishl, ishr};
ghost use Rattle.words.specs.Sums.{Added, Subtracted};

use crate::sums::Sum;

pub trait Word: Copy + From<bool> {
    // The width.
    ghost bits: { ℕ };

    // The number that a word is.
    ghost number: { Self → ℕ };

    fn iand(self, y: Self) -> Self
        ensures { number result ≡ iand bits (number self) (number y) };

    fn ixor(self, y: Self) -> Self
        ensures { number result ≡ ixor bits (number self) (number y) };

    // From the width on no bit is left.
    fn ishl(self, s: Self) -> Self
        ensures { number result ≡ ishl bits (number self) (number s) };

    fn ishr(self, s: Self) -> Self
        ensures { number result ≡ ishr (number self) (number s) };

    // The sum, and its carry: a sum that wraps lies below each of its terms. The compiler makes `adc` of that in `add`, and
    // not of the library's `overflowing_add` (docs/DECISIONS.md, "Bits").
    fn plus(self, y: Self) -> Sum<Self>
        ensures { Added bits (number self + number y) (number result.word) result.carry };

    // The difference, and its borrow.
    fn minus(self, y: Self) -> Sum<Self>
        ensures { Subtracted bits (number self) (number y) (number result.word) result.carry };

    ghost from_bit: { (b : Bool) (x : Self) → Self.from_gives b x → number x ≡ bit b };
}

impl Word for u32 {
    ghost bits = { 32 };

    ghost number = { λ x. x };

    ghost from_bit = { elim [ true ↦ λ x e. e | false ↦ λ x e. e ] };

    fn iand(self, y: u32) -> u32 {
        self & y
    }

    fn ixor(self, y: u32) -> u32 {
        self ^ y
    }

    fn ishl(self, s: u32) -> u32 {
        if s < 32 { self << s } else { 0 }
    }

    fn ishr(self, s: u32) -> u32 {
        if s < 32 { self >> s } else { 0 }
    }

    fn plus(self, y: u32) -> Sum<u32> {
        let word = self.wrapping_add(y);
        Sum {
            word,
            carry: word < self,
        }
    }

    fn minus(self, y: u32) -> Sum<u32> {
        Sum {
            word: self.wrapping_sub(y),
            carry: self < y,
        }
    }
}

impl Word for u64 {
    ghost bits = { 64 };

    ghost number = { λ x. x };

    ghost from_bit = { elim [ true ↦ λ x e. e | false ↦ λ x e. e ] };

    fn iand(self, y: u64) -> u64 {
        self & y
    }

    fn ixor(self, y: u64) -> u64 {
        self ^ y
    }

    fn ishl(self, s: u64) -> u64 {
        if s < 64 { self << s } else { 0 }
    }

    fn ishr(self, s: u64) -> u64 {
        if s < 64 { self >> s } else { 0 }
    }

    fn plus(self, y: u64) -> Sum<u64> {
        let word = self.wrapping_add(y);
        Sum {
            word,
            carry: word < self,
        }
    }

    fn minus(self, y: u64) -> Sum<u64> {
        Sum {
            word: self.wrapping_sub(y),
            carry: self < y,
        }
    }
}
