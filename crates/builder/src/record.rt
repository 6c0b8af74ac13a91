// Instructions and comparisons as records, by the parts of their layouts.
// A kind is the byte that stands in the code, and no enum: docs/DECISIONS.md, "A kind is a byte" (here its second ground).
ghost use Rattle.std.specs.Prelude.{◌≡◌, [], ◌∷◌};
ghost use Rattle.code.specs.Layout.{laid, number, amount, layout, ocmp_layout};
ghost use Rattle.builder.specs.Rendered.{layout_of};

use code::{Instruction, Ocmp};
use machine::Operand;

// The bodies there are: xmm numbers, then an amount or imm8. An enum by their length and no list, as of operands: so a record has
// no more of either than a kind asks for, and the writers (write.rt) know by the type what room they need. Two of the bodies have two
// bytes and are two layouts, since a number is held to 15 and an amount is not.
#[derive(Clone, Copy)]
pub enum Body {
    Nothing,
    Xmms(u8, u8),
    XmmAmount(u8, u8),
    XmmsAmount(u8, u8, u8),
}

#[derive(Clone, Copy)]
pub enum Operands {
    Nothing,
    One(Operand),
    Two(Operand, Operand),
    Three(Operand, Operand, Operand),
}

#[derive(Clone, Copy)]
pub struct Record {
    pub kind: u8,
    pub body: Body,
    pub operands: Operands,
}

// A constructor for each layout that kinds have: what they share is the struct itself.
fn one(kind: u8, a: Operand) -> Record
    ensures { layout_of result ≡ laid kind [] (a ∷ []) }
{
    Record {
        kind,
        body: Body::Nothing,
        operands: Operands::One(a),
    }
}

fn two(kind: u8, a: Operand, b: Operand) -> Record
    ensures { layout_of result ≡ laid kind [] (a ∷ b ∷ []) }
{
    Record {
        kind,
        body: Body::Nothing,
        operands: Operands::Two(a, b),
    }
}

fn three(kind: u8, a: Operand, b: Operand, c: Operand) -> Record
    ensures { layout_of result ≡ laid kind [] (a ∷ b ∷ c ∷ []) }
{
    Record {
        kind,
        body: Body::Nothing,
        operands: Operands::Three(a, b, c),
    }
}

fn xmms(kind: u8, a: u8, b: u8) -> Record
    ensures { layout_of result ≡ laid kind (number a ∷ number b ∷ []) [] }
{
    Record {
        kind,
        body: Body::Xmms(a, b),
        operands: Operands::Nothing,
    }
}

fn xmm_amount(kind: u8, a: u8, n: u8) -> Record
    ensures { layout_of result ≡ laid kind (number a ∷ amount n ∷ []) [] }
{
    Record {
        kind,
        body: Body::XmmAmount(a, n),
        operands: Operands::Nothing,
    }
}

fn xmms_amount(kind: u8, a: u8, b: u8, n: u8) -> Record
    ensures { layout_of result ≡ laid kind (number a ∷ number b ∷ amount n ∷ []) [] }
{
    Record {
        kind,
        body: Body::XmmsAmount(a, b, n),
        operands: Operands::Nothing,
    }
}

fn lane(kind: u8, a: u8, n: u8, operand: Operand) -> Record
    ensures { layout_of result ≡ laid kind (number a ∷ amount n ∷ []) (operand ∷ []) }
{
    Record {
        kind,
        body: Body::XmmAmount(a, n),
        operands: Operands::One(operand),
    }
}

// The record whose layout the definition of this name gives, `layout`, and below `ocmp_layout`. No `From`: an `.into()` would name neither.
#[tactic(auto, unfolding(code::specs::Layout::layout))]
pub fn record_of(instruction: Instruction) -> Record
    ensures { layout_of result ≡ layout instruction }
{
    match instruction {
        Instruction::Mov64(dst, src) => two(0x01, dst, src),
        Instruction::Add64(dst, src) => two(0x02, dst, src),
        Instruction::AddLea64(dst, src1, src2) => three(0x03, dst, src1, src2),
        Instruction::AddCarry64(dst, src) => two(0x04, dst, src),
        Instruction::Adcx64(dst, src) => two(0x05, dst, src),
        Instruction::Adox64(dst, src) => two(0x06, dst, src),
        Instruction::Sub64(dst, src) => two(0x07, dst, src),
        Instruction::Mul64(src) => one(0x08, src),
        Instruction::Mulx64(dst_hi, dst_lo, src) => three(0x09, dst_hi, dst_lo, src),
        Instruction::IMul64(dst, src) => two(0x0a, dst, src),
        Instruction::Xor64(dst, src) => two(0x0b, dst, src),
        Instruction::And64(dst, src) => two(0x0c, dst, src),
        Instruction::Shr64(dst, amt) => two(0x0d, dst, amt),
        Instruction::Shl64(dst, amt) => two(0x0e, dst, amt),
        Instruction::Paddd(dst, src) => xmms(0x0f, dst, src),
        Instruction::Pxor(dst, src) => xmms(0x10, dst, src),
        Instruction::Pslld(dst, amt) => xmm_amount(0x11, dst, amt),
        Instruction::Psrld(dst, amt) => xmm_amount(0x12, dst, amt),
        Instruction::Pshufd(dst, src, permutation) => xmms_amount(0x13, dst, src, permutation),
        Instruction::Pcmpeqd(dst, src) => xmms(0x14, dst, src),
        Instruction::Pextrq(dst, src, index) => lane(0x15, src, index, dst),
        Instruction::Pinsrd(dst, src, index) => lane(0x16, dst, index, src),
        Instruction::Pinsrq(dst, src, index) => lane(0x17, dst, index, src),
        Instruction::VPSLLDQ(dst, src, count) => xmms_amount(0x18, dst, src, count),
        Instruction::Popcnt64(dst, src) => two(0x19, dst, src),
        Instruction::Lzcnt64(dst, src) => two(0x1a, dst, src),
        Instruction::Tzcnt64(dst, src) => two(0x1b, dst, src),
    }
}

#[tactic(auto, unfolding(code::specs::Layout::ocmp_layout))]
pub fn record_of_ocmp(condition: Ocmp) -> Record
    ensures { layout_of result ≡ ocmp_layout condition }
{
    match condition {
        Ocmp::OEq(a, b) => two(0x30, a, b),
        Ocmp::ONe(a, b) => two(0x31, a, b),
        Ocmp::OLe(a, b) => two(0x32, a, b),
        Ocmp::OGe(a, b) => two(0x33, a, b),
        Ocmp::OLt(a, b) => two(0x34, a, b),
        Ocmp::OGt(a, b) => two(0x35, a, b),
    }
}
