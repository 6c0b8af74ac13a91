// The instruction or the comparison that numbers give.
// A kind is a byte, as C gives it, and no enum: docs/DECISIONS.md, "A kind is a byte" (here its second ground).
ghost use Rattle.std.specs.Prelude.{◌≡◌, true, List, [], ◌∷◌, ℕ, ◌≤◌};
ghost use Rattle.code.specs.Layout.{ins_of, ocmp_of};
ghost use Rattle.code.specs.Records.{is_ocmp};
ghost use Rattle.numbered.specs.Given.{is_instruction, is_comparison};
ghost use Rattle.numbered.specs.Values.{instruction_given, comparison_given};

use crate::operands::{Numbers, are_operands, operand_of};
use code::{Class, Instruction, Ocmp, class_of, operand_count};
use machine::Operand;

// Whether the kind is an instruction's, and each of its operands has an operand's kind. This and `is_comparison` are each
// over a definition of its own, and each class has a lemma of its own that there are at most three (`few_ins`, `few_ocmp`).
#[tactic(auto, using(crate::proofs::KindsGiven::few_ins), unfolding(crate::specs::Given::is_instruction, code::specs::Kinds::class))]
fn is_instruction(given: Numbers) -> bool
    ensures { result ≡ is_instruction given }
{
    match class_of(given.kind) {
        Class::Instruction => are_operands(given, operand_count(given.kind)),
        _ => false,
    }
}

#[tactic(auto, using(crate::proofs::KindsGiven::few_ocmp), unfolding(crate::specs::Given::is_comparison, code::specs::Kinds::class))]
fn is_comparison(given: Numbers) -> bool
    ensures { result ≡ is_comparison given }
{
    match class_of(given.kind) {
        Class::Comparison => are_operands(given, operand_count(given.kind)),
        _ => false,
    }
}

// The instructions in five groups by kind: of operands, whatever the body; of bytes, whatever the operands; of both.
fn sums(kind: u8, a: Operand, b: Operand, c: Operand) -> Instruction
    requires { (0x01 ≤ kind) × (kind ≤ 0x07) }
    ensures { (bytes : List ℕ) → result ≡ ins_of kind bytes (a ∷ b ∷ c ∷ []) }
{
    match kind {
        0x01 => Instruction::Mov64(a, b),
        0x02 => Instruction::Add64(a, b),
        0x03 => Instruction::AddLea64(a, b, c),
        0x04 => Instruction::AddCarry64(a, b),
        0x05 => Instruction::Adcx64(a, b),
        0x06 => Instruction::Adox64(a, b),
        _ => Instruction::Sub64(a, b),
    }
}

fn products(kind: u8, a: Operand, b: Operand, c: Operand) -> Instruction
    requires { (0x08 ≤ kind) × (kind ≤ 0x0e) }
    ensures { (bytes : List ℕ) → result ≡ ins_of kind bytes (a ∷ b ∷ c ∷ []) }
{
    match kind {
        0x08 => Instruction::Mul64(a),
        0x09 => Instruction::Mulx64(a, b, c),
        0x0a => Instruction::IMul64(a, b),
        0x0b => Instruction::Xor64(a, b),
        0x0c => Instruction::And64(a, b),
        0x0d => Instruction::Shr64(a, b),
        _ => Instruction::Shl64(a, b),
    }
}

fn lanes(kind: u8, x: u8, y: u8, z: u8) -> Instruction
    requires { (0x0f ≤ kind) × (kind ≤ 0x14) }
    ensures { (os : List Operand) → result ≡ ins_of kind (x ∷ y ∷ z ∷ []) os }
{
    match kind {
        0x0f => Instruction::Paddd(x, y),
        0x10 => Instruction::Pxor(x, y),
        0x11 => Instruction::Pslld(x, y),
        0x12 => Instruction::Psrld(x, y),
        0x13 => Instruction::Pshufd(x, y, z),
        _ => Instruction::Pcmpeqd(x, y),
    }
}

fn insertions(kind: u8, x: u8, y: u8, z: u8, a: Operand) -> Instruction
    requires { (0x15 ≤ kind) × (kind ≤ 0x18) }
    ensures { (os : List Operand) → result ≡ ins_of kind (x ∷ y ∷ z ∷ []) (a ∷ os) }
{
    match kind {
        0x15 => Instruction::Pextrq(a, x, y),
        0x16 => Instruction::Pinsrd(x, a, y),
        0x17 => Instruction::Pinsrq(x, a, y),
        _ => Instruction::VPSLLDQ(x, y, z),
    }
}

fn counts(kind: u8, a: Operand, b: Operand) -> Instruction
    requires { (0x19 ≤ kind) × (kind ≤ 0x1b) }
    ensures { (c : Operand) (bytes : List ℕ) → result ≡ ins_of kind bytes (a ∷ b ∷ c ∷ []) }
{
    match kind {
        0x19 => Instruction::Popcnt64(a, b),
        0x1a => Instruction::Lzcnt64(a, b),
        _ => Instruction::Tzcnt64(a, b),
    }
}

fn comparison(kind: u8, a: Operand, b: Operand) -> Ocmp
    requires { is_ocmp kind ≡ true }
    ensures { (os : List Operand) → result ≡ ocmp_of kind (a ∷ b ∷ os) }
{
    match kind {
        0x30 => Ocmp::OEq(a, b),
        0x31 => Ocmp::ONe(a, b),
        0x32 => Ocmp::OLe(a, b),
        0x33 => Ocmp::OGe(a, b),
        0x34 => Ocmp::OLt(a, b),
        _ => Ocmp::OGt(a, b),
    }
}

// The instruction: a kind that is none of an instruction's, or of its operands', gives none. An Option by the definition
// (`instruction_given`) and no `TryFrom`, here and below: there is no error to tell, only that there is none.
#[tactic(auto, unfolding(crate::specs::Values::instruction_given, crate::specs::Given::is_instruction))]
pub fn instruction_of(given: Numbers) -> Option<Instruction>
    ensures { result ≡ instruction_given given }
{
    if !is_instruction(given) {
        return None;
    }
    let a = operand_of(given, 0);
    let b = operand_of(given, 1);
    let c = operand_of(given, 2);
    let [x, y, z] = given.body;
    let kind = given.kind;
    Some(match kind {
        0x00..=0x07 => sums(kind, a, b, c),
        0x08..=0x0e => products(kind, a, b, c),
        0x0f..=0x14 => lanes(kind, x, y, z),
        0x15..=0x18 => insertions(kind, x, y, z, a),
        _ => counts(kind, a, b),
    })
}

// The comparison, likewise.
#[tactic(auto, unfolding(crate::specs::Values::comparison_given, crate::specs::Given::is_comparison))]
pub fn comparison_of(given: Numbers) -> Option<Ocmp>
    ensures { result ≡ comparison_given given }
{
    if !is_comparison(given) {
        return None;
    }
    let a = operand_of(given, 0);
    let b = operand_of(given, 1);
    Some(comparison(given.kind, a, b))
}
