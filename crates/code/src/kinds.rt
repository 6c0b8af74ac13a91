// The kinds of records: what a kind byte is, the table of body lengths and operand counts, and the
// instructions of a destination and a source.
// A kind is the byte that stands in the code, and no enum: docs/DECISIONS.md, "A kind is a byte".
ghost use Rattle.std.specs.Prelude.{◌≡◌, true, ◌<◌};
ghost use Rattle.code.specs.Records.{body_length, operand_count};
ghost use Rattle.code.specs.Families.{is_two};
ghost use Rattle.code.specs.Kinds.{class, is_used, entry_of, LastField};

// What a kind byte begins. Unused is the class of the bytes that begin nothing, and no lack of one: who asks wants one class, and takes the
// others alike.
#[derive(Clone, Copy, PartialEq, Eq)]
pub enum Class {
    Instruction,
    Structure,
    Comparison,
    Operand,
    Unused,
}

pub fn class_of(kind: u8) -> Class
    ensures { result ≡ class kind }
{
    match kind {
        0x01..=0x1b => Class::Instruction,
        0x20..=0x22 => Class::Structure,
        0x30..=0x35 => Class::Comparison,
        0x40..=0x44 => Class::Operand,
        _ => Class::Unused,
    }
}

// The table of kinds that document 01 names. An entry is four times the length of the kind's body and the number of its operands; 255 marks
// an unused kind.
const TABLE: [u8; 256] = [
    255, 2, 2, 3, 2, 2, 2, 2, 1, 3, 2, 2, 2, 2, 2, 8, 8, 8, 8, 12, 8, 9, 9, 9, 12, 2, 2, 2, 255,
    255, 255, 255, 16, 32, 16, 255, 255, 255, 255, 255, 255, 255, 255, 255, 255, 255, 255, 255, 2,
    2, 2, 2, 2, 2, 255, 255, 255, 255, 255, 255, 255, 255, 255, 255, 32, 4, 32, 36, 48, 255, 255,
    255, 255, 255, 255, 255, 255, 255, 255, 255, 255, 255, 255, 255, 255, 255, 255, 255, 255, 255,
    255, 255, 255, 255, 255, 255, 255, 255, 255, 255, 255, 255, 255, 255, 255, 255, 255, 255, 255,
    255, 255, 255, 255, 255, 255, 255, 255, 255, 255, 255, 255, 255, 255, 255, 255, 255, 255, 255,
    255, 255, 255, 255, 255, 255, 255, 255, 255, 255, 255, 255, 255, 255, 255, 255, 255, 255, 255,
    255, 255, 255, 255, 255, 255, 255, 255, 255, 255, 255, 255, 255, 255, 255, 255, 255, 255, 255,
    255, 255, 255, 255, 255, 255, 255, 255, 255, 255, 255, 255, 255, 255, 255, 255, 255, 255, 255,
    255, 255, 255, 255, 255, 255, 255, 255, 255, 255, 255, 255, 255, 255, 255, 255, 255, 255, 255,
    255, 255, 255, 255, 255, 255, 255, 255, 255, 255, 255, 255, 255, 255, 255, 255, 255, 255, 255,
    255, 255, 255, 255, 255, 255, 255, 255, 255, 255, 255, 255, 255, 255, 255, 255, 255, 255, 255,
    255, 255, 255, 255, 255, 255, 255, 255, 255, 255, 255, 255, 255, 255,
];

fn entry(kind: u8) -> usize
    ensures { (result ≡ entry_of kind) × (result < 256) }
{
    TABLE[kind as usize] as usize
}

// Bit k is set where k is the kind of an instruction of a destination and a source. A word of bits
// and no table: the evaluator asks at each instruction, and so reads no memory for it.
const TWOS: u64 = 0b1110_0000_0000_0111_1100_1111_0110;

// Whether a kind is that of an instruction of a destination and a source.
pub fn is_two(kind: u8) -> bool
    ensures { result ≡ is_two kind }
{
    kind < 64 && ((TWOS >> kind) & 1) == 1
}

// The length of a kind's body.
pub fn body_length(kind: u8) -> usize
    requires { is_used kind ≡ true }
    ensures { (result ≡ body_length kind) × (result < 64) }
{
    entry(kind) / 4
}

// The number of a kind's operands.
pub fn operand_count(kind: u8) -> usize
    requires { is_used kind ≡ true }
    ensures { result ≡ operand_count kind }
{
    entry(kind) % 4
}

// The last register or xmm field of a kind, as an offset from its kind byte; 0 where it has none, as the place ahead of the first, since
// a body is judged up to it. The first is at 1, and an MIndex has its scale between the two.
pub fn last_field(kind: u8) -> usize
    ensures { LastField kind result }
{
    match kind {
        0x0f | 0x10 | 0x13 | 0x14 | 0x18 => 2,
        0x11 | 0x12 | 0x15 | 0x16 | 0x17 | 0x41 | 0x43 => 1,
        0x44 => 4,
        _ => 0,
    }
}
