// A record as numbers, and its operands.
// A kind (0x40 to 0x44 are those of operands) is a byte, as C gives it, and no enum: docs/DECISIONS.md, "A kind is a byte".
ghost use Rattle.std.specs.Prelude.{◌≡◌, ◌<◌, ◌≤◌};
ghost use Rattle.numbered.specs.Given.{operand_of, operand_given, operands_given};

use code::{Class, class_of};
use machine::{Maddr, Operand, Reg};
use words::{signed16, signed64};

// A kind, the bytes of a body, and up to three operands: their kinds, registers or bases, indexes, scales, constants or
// addresses, and offsets; scales and offsets in two's complement. What the kind does not have is not looked at. Arrays side
// by side, since C lends them so (`pokchrei_add`).
#[derive(Clone, Copy)]
pub struct Numbers {
    pub kind: u8,
    pub body: [u8; 3],
    pub operands: [u8; 3],
    pub bases: [u8; 3],
    pub indexes: [u8; 3],
    pub scales: [u16; 3],
    pub numbers: [u64; 3],
    pub offsets: [u64; 3],
}

// Operand i; a kind that is none is read as a constant.
#[tactic(auto, unfolding(crate::specs::Given::operand_of))]
pub fn operand_of(given: Numbers, i: usize) -> Operand
    requires { i < 3 }
    ensures { result ≡ operand_of given i }
{
    let base = Reg {
        number: given.bases[i],
    };
    let offset = signed64(given.offsets[i]);
    match given.operands[i] {
        0x41 => Operand::OReg(base),
        0x42 => Operand::OMem(Maddr::MConst(given.numbers[i])),
        0x43 => Operand::OMem(Maddr::MReg(base, offset)),
        0x44 => {
            let index = Reg {
                number: given.indexes[i],
            };
            let scale = signed16(given.scales[i]);
            Operand::OMem(Maddr::MIndex(base, scale, index, offset))
        }
        _ => Operand::OConst(given.numbers[i]),
    }
}

// Whether operand i has an operand's kind.
#[tactic(auto, unfolding(crate::specs::Given::operand_given, code::specs::Kinds::class))]
fn is_operand(given: Numbers, i: usize) -> bool
    requires { i < 3 }
    ensures { result ≡ operand_given given i }
{
    matches!(class_of(given.operands[i]), Class::Operand)
}

// Whether the first `count` operands do.
pub fn are_operands(given: Numbers, count: usize) -> bool
    requires { count ≤ 3 }
    ensures { result ≡ operands_given count given }
{
    (0..count).all(|i| is_operand(given, i))
}
