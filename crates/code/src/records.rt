// Decoding one operand record of accepted code. Dispatch is by `match`, since a constant table is rebuilt wherever it is
// indexed. A kind is the byte that stands in the code, and no enum: docs/DECISIONS.md, "A kind is a byte". That the record stands there is
// asked by each (`OperandBytes`): a value that carries it would be made of code and place anew at each operand.
ghost use Rattle.std.specs.Prelude.{◌≡◌};
ghost use Rattle.machine.specs.declared.Operand.TheVariants.{OMem};
ghost use Rattle.code.specs.Records.{behind, operand_at};
ghost use Rattle.code.specs.Spells.{OperandBytes};
ghost use Rattle.code.specs.Forms.{form_of};

use crate::numbers::{number8, signed2, signed8};
use machine::{Maddr, Reg};

// An operand as far as its record is decoded in place. Memory is decoded by `memory_at`, so that an operand that is no
// memory costs no call.
#[derive(Clone, Copy)]
pub enum Form {
    Const(u64),
    Register(Reg),
    Memory,
}

// The place behind the operand record at `at`.
pub fn operand_behind(code: &[u8], at: usize) -> usize
    requires { OperandBytes code.now at }
    ensures { result ≡ behind code.now at }
{
    match code[at] {
        0x41 => at + 2,
        0x43 => at + 10,
        0x44 => at + 13,
        _ => at + 9,
    }
}

// What the operand record at `at` says.
pub fn form_at(code: &[u8], at: usize) -> Form
    requires { OperandBytes code.now at }
    ensures { result ≡ form_of (operand_at code.now at) }
{
    match code[at] {
        0x40 => Form::Const(number8(code, at + 1)),
        0x41 => Form::Register(Reg {
            number: code[at + 1],
        }),
        _ => Form::Memory,
    }
}

// The memory operand whose record stands at `at`.
pub fn memory_at(code: &[u8], at: usize) -> Maddr
    requires operand_bytes { OperandBytes code.now at }
    requires at_value { form_of (operand_at code.now at) ≡ Form.Memory }
    ensures { operand_at code.now at ≡ OMem result }
{
    let kind = code[at];
    if kind == 0x42 {
        return Maddr::MConst(number8(code, at + 1));
    }
    let base = Reg {
        number: code[at + 1],
    };
    if kind == 0x43 {
        return Maddr::MReg(base, signed8(code, at + 2));
    }
    let index = Reg {
        number: code[at + 4],
    };
    Maddr::MIndex(base, signed2(code, at + 2), index, signed8(code, at + 5))
}
