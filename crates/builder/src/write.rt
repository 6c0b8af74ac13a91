// Records into a short vector, from where they are copied to the buffer once the call is taken. The longest record has 40
// bytes, and 9 stand before a comparison; the room is counted more simply, 3 bytes of body and 3 operands of 13.
// A kind (0x40 to 0x44 are those of operands) is a byte, and no enum, which would have each name beside its byte: docs/DECISIONS.md, "A kind is a byte".
ghost use Rattle.std.specs.Prelude.{◌≡◌, [], ◌∷◌, ◌++◌, map, ◌+◌, ◌≤◌, length};
ghost use Rattle.std.proofs.lemmas.List.Edits.{sets};
ghost use Rattle.arrayvec.specs.ArrayVec.{array_vec_len};
ghost use Rattle.code.specs.Layout.{values};
ghost use Rattle.code.specs.WellFormed.{All};
ghost use Rattle.code.specs.Writer.{bytes_of, signed_bytes, bytes_of_maddr, bytes_of_operand, bytes_of_operands, bytes_of_record};
ghost use Rattle.builder.specs.Calls.{MaddrTyped, OperandTyped, ByteTyped, RecordTyped};
ghost use Rattle.builder.specs.Rendered.{body_of, operands_of, layout_of};

use crate::record::{Body, Operands, Record};
use arrayvec::ArrayVec;
use machine::{Maddr, Operand};

// The bytes that a call adds.
pub type Bytes = ArrayVec<u8, 52>;

// The low bytes of a number, `count` of them. The index has a name for the proof: its invariant counts by it.
pub fn put_number(out: &mut Bytes, number: u64, count: usize)
    requires { array_vec_len out.old + count ≤ 52 }
    ensures bytes { out.new.items ≡ out.old.items ++ bytes_of count number }
    ensures len { array_vec_len out.new ≡ array_vec_len out.old + count }
{
    let mut rest = number;
    for i in 0..count {
        out.push((rest % 256) as u8);
        rest /= 256;
    }
}

// A signed number, two's complement, and below a scale: a line each over `put_number`, of their types and sizes.
#[tactic(auto, unfolding(code::specs::Writer::signed_bytes))]
fn put_offset(out: &mut Bytes, offset: i64)
    requires { array_vec_len out.old + 8 ≤ 52 }
    ensures bytes { out.new.items ≡ out.old.items ++ signed_bytes 8 offset }
    ensures len { array_vec_len out.new ≡ array_vec_len out.old + 8 }
{
    put_number(out, offset.cast_unsigned(), 8);
}

#[tactic(auto, unfolding(code::specs::Writer::signed_bytes))]
fn put_scale(out: &mut Bytes, scale: i16)
    requires { array_vec_len out.old + 2 ≤ 52 }
    ensures bytes { out.new.items ≡ out.old.items ++ signed_bytes 2 scale }
    ensures len { array_vec_len out.new ≡ array_vec_len out.old + 2 }
{
    put_number(out, u64::from(scale.cast_unsigned()), 2);
}

#[tactic(auto, unfolding(code::specs::Writer::bytes_of_maddr, crate::specs::Calls::MaddrTyped))]
fn put_maddr(out: &mut Bytes, m: Maddr)
    requires { array_vec_len out.old + 13 ≤ 52 }
    ensures bytes { out.new.items ≡ out.old.items ++ bytes_of_maddr m }
    ensures most { array_vec_len out.new ≤ array_vec_len out.old + 13 }
    ensures maddr_typed { MaddrTyped m }
{
    match m {
        Maddr::MConst(n) => {
            out.push(0x42);
            put_number(out, n, 8);
        }
        Maddr::MReg(r, offset) => {
            out.push(0x43);
            out.push(r.number);
            put_offset(out, offset);
        }
        Maddr::MIndex(base, scale, index, offset) => {
            out.push(0x44);
            out.push(base.number);
            put_scale(out, scale);
            out.push(index.number);
            put_offset(out, offset);
        }
    }
}

#[tactic(auto, unfolding(code::specs::Writer::bytes_of_operand, crate::specs::Calls::OperandTyped))]
fn put_operand(out: &mut Bytes, operand: Operand)
    requires { array_vec_len out.old + 13 ≤ 52 }
    ensures bytes { out.new.items ≡ out.old.items ++ bytes_of_operand operand }
    ensures most { array_vec_len out.new ≤ array_vec_len out.old + 13 }
    ensures operand_typed { OperandTyped operand }
{
    match operand {
        Operand::OConst(n) => {
            out.push(0x40);
            put_number(out, n, 8);
        }
        Operand::OReg(r) => {
            out.push(0x41);
            out.push(r.number);
        }
        Operand::OMem(m) => put_maddr(out, m),
    }
}

#[tactic(auto, unfolding(crate::specs::Calls::ByteTyped))]
fn put_body(out: &mut Bytes, body: Body)
    requires { array_vec_len out.old + 3 ≤ 52 }
    ensures bytes { out.new.items ≡ out.old.items ++ values (body_of body) }
    ensures most { array_vec_len out.new ≤ array_vec_len out.old + 3 }
    ensures all { All (map ByteTyped (body_of body)) }
{
    match body {
        Body::Nothing => {}
        Body::Xmms(a, b) | Body::XmmAmount(a, b) => {
            out.push(a);
            out.push(b);
        }
        Body::XmmsAmount(a, b, n) => {
            out.push(a);
            out.push(b);
            out.push(n);
        }
    }
}

#[tactic(auto, unfolding(code::specs::Writer::bytes_of_operands))]
fn put_operands(out: &mut Bytes, operands: Operands)
    requires { array_vec_len out.old + 39 ≤ 52 }
    ensures bytes { out.new.items ≡ out.old.items ++ bytes_of_operands (operands_of operands) }
    ensures all { All (map OperandTyped (operands_of operands)) }
{
    match operands {
        Operands::Nothing => {}
        Operands::One(a) => put_operand(out, a),
        Operands::Two(a, b) => {
            put_operand(out, a);
            put_operand(out, b);
        }
        Operands::Three(a, b, c) => {
            put_operand(out, a);
            put_operand(out, b);
            put_operand(out, c);
        }
    }
}

#[tactic(auto, using(crate::proofs::Records::record_fits), unfolding(code::specs::Writer::bytes_of_record))]
pub fn put_record(out: &mut Bytes, given: Record)
    requires { array_vec_len out.old + 43 ≤ 52 }
    ensures bytes { out.new.items ≡ out.old.items ++ bytes_of_record (layout_of given) }
    ensures record_typed { RecordTyped (layout_of given) }
{
    out.push(given.kind);
    put_body(out, given.body);
    put_operands(out, given.operands);
}

// The bytes into the buffer.
pub fn copy(buffer: &mut [u8], at: usize, bytes: &[u8])
    requires { at + length bytes.now ≤ length buffer.old }
    ensures { buffer.new ≡ sets buffer.old at bytes.now }
{
    buffer[at..at + bytes.len()].copy_from_slice(bytes);
}
