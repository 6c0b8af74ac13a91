// Checking code: reading goes front to back and stops at the first trouble. A code reads its parts
// and a part reads its codes. A part is the bytes of the code up to `end`, in two parameters: as a struct with methods it was no plainer, since
// each clause then says `self.entry.code.now` and `self.entry.end`, and each level of nesting stores one.
// A kind is the byte that stands in the code, and no enum: docs/DECISIONS.md, "A kind is a byte".
ghost use Rattle.std.specs.Prelude.{◌≡◌, ◌+◌, ◌-◌, ◌≤◌, length};
ghost use Rattle.machine.specs.Cells.{verdict};
ghost use Rattle.code.specs.Records.{is_operand, is_structure};
ghost use Rattle.code.specs.Kinds.{is_used};
ghost use Rattle.code.specs.Reader.{read_record, read_operands, read_ocmp, read_part, read_codes, read_block, read_if, read_while, read_code, check_code};
ghost use Rattle.code.specs.Reached.{Begins, reach, reached, rest_of_record, rest_of_all, structure_of};

use crate::kinds::{Class, body_length, class_of, last_field, operand_count};
use crate::numbers::{number4, signed2};
use machine::{Refusal, Rule, is_scale};

// The body of the record at `at`, whose kind is used. Here and below, what is read ends at the place that is answered.
fn read_body(code: &[u8], end: usize, at: usize) -> Result<usize, Refusal>
    requires { Begins is_used code.now end at }
    ensures { reach result ≡ rest_of_record code.now end at }
{
    let kind = code[at];
    let body = body_length(kind);
    if end - at - 1 < body {
        return Err(Rule::Short.at(at));
    }
    let next = at + 1 + body;
    let last = last_field(kind);
    if last == 0 {
        return Ok(next);
    }
    if 15 < code[at + 1] {
        return Err(Rule::Register.at(at + 1));
    }
    if last == 1 {
        return Ok(next);
    }
    // Only an MIndex has a field behind 2, and its scale stands there.
    if last > 2 && !is_scale(signed2(code, at + 2)) {
        return Err(Rule::Scale.at(at + 2));
    }
    if 15 < code[at + last] {
        return Err(Rule::Register.at(at + last));
    }
    Ok(next)
}

fn read_operand(code: &[u8], end: usize, at: usize) -> Result<usize, Refusal>
    requires { end ≤ length code.now }
    ensures { reach result ≡ read_record is_operand code.now end at }
{
    if end <= at {
        return Err(Rule::Short.at(at));
    }
    let Class::Operand = class_of(code[at]) else {
        return Err(Rule::Kind.at(at));
    };
    read_body(code, end, at)
}

fn read_operands(code: &[u8], end: usize, from: usize, count: usize) -> Result<usize, Refusal>
    requires { end ≤ length code.now }
    ensures { reach result ≡ read_operands count code.now end from }
{
    let mut at = from;
    for _ in 0..count {
        at = read_operand(code, end, at)?;
    }
    Ok(at)
}

// The body and the operands of the record at `at`, whose kind is used. A builder judges by it what it has written.
pub fn read_rest(code: &[u8], end: usize, at: usize) -> Result<usize, Refusal>
    requires { Begins is_used code.now end at }
    ensures { reach result ≡ rest_of_all code.now end at }
{
    let next = read_body(code, end, at)?;
    read_operands(code, end, next, operand_count(code[at]))
}

// An operand and a comparison are read by two functions, since what follows a kind is not the same: a body, or a body and operands. This one is
// called, so that no level of nesting holds its answer beside its own (docs/DECISIONS.md, "Which functions of the reader are inlined").
#[inline(never)]
fn read_ocmp(code: &[u8], end: usize, at: usize) -> Result<usize, Refusal>
    requires { end ≤ length code.now }
    ensures { reach result ≡ reached (read_ocmp code.now end at) }
{
    if end <= at {
        return Err(Rule::Short.at(at));
    }
    let Class::Comparison = class_of(code[at]) else {
        return Err(Rule::Kind.at(at));
    };
    read_rest(code, end, at)
}

// The code at `at`, in the part that ends at `end`; `depth` more codes may nest. Inlined where a part or its codes are read: as a function
// of its own it costs each record one call and one copy of its answer more (docs/DECISIONS.md, "Which functions of the reader are inlined").
#[cycle(reading)]
#[inline(always)]
fn read_code(code: &[u8], end: usize, at: usize, depth: usize) -> Result<usize, Refusal>
    requires { end ≤ length code.now }
    ensures { reach result ≡ reached (read_code depth code.now end at) }
{
    if end <= at {
        return Err(Rule::Short.at(at));
    }
    match class_of(code[at]) {
        Class::Instruction => {
            if depth == 0 {
                return Err(Rule::Depth.at(at));
            }
            read_rest(code, end, at)
        }
        Class::Structure => {
            if depth == 0 {
                return Err(Rule::Depth.at(at));
            }
            read_structure(code, end, at, depth - 1)
        }
        _ => Err(Rule::Kind.at(at)),
    }
}

#[cycle(reading)]
fn read_structure(code: &[u8], end: usize, at: usize, depth: usize) -> Result<usize, Refusal>
    requires { Begins is_structure code.now end at }
    ensures { reach result ≡ reached (structure_of depth code.now end at) }
{
    let kind = code[at];
    if end - at - 1 < body_length(kind) {
        return Err(Rule::Short.at(at));
    }
    match kind {
        0x20 => read_block(code, end, at, depth),
        0x21 => read_if(code, end, at, depth),
        _ => read_while(code, end, at, depth),
    }
}

#[cycle(reading)]
fn read_block(code: &[u8], end: usize, at: usize, depth: usize) -> Result<usize, Refusal>
    requires { (at + 5 ≤ end) × (end ≤ length code.now) }
    ensures { reach result ≡ reached (read_block (read_code depth code.now) code.now end at) }
{
    let size = number4(code, at + 1);
    let from = at + 5;
    if end - from < size {
        return Err(Rule::Part.at(at));
    }
    read_codes(code, from + size, from, depth)
}

// Both lengths are judged together, before either part is read.
#[cycle(reading)]
fn read_if(code: &[u8], end: usize, at: usize, depth: usize) -> Result<usize, Refusal>
    requires { (at + 9 ≤ end) × (end ≤ length code.now) }
    ensures { reach result ≡ reached (read_if (read_code depth code.now) code.now end at) }
{
    let size = number4(code, at + 1);
    let other = number4(code, at + 5);
    let next = read_ocmp(code, end, at + 9)?;
    if end - next < size + other {
        return Err(Rule::Part.at(at));
    }
    let mid = read_part(code, next + size, next, depth)?;
    read_part(code, mid + other, mid, depth)
}

#[cycle(reading)]
fn read_while(code: &[u8], end: usize, at: usize, depth: usize) -> Result<usize, Refusal>
    requires { (at + 5 ≤ end) × (end ≤ length code.now) }
    ensures { reach result ≡ reached (read_while (read_code depth code.now) code.now end at) }
{
    let size = number4(code, at + 1);
    let next = read_ocmp(code, end, at + 5)?;
    if end - next < size {
        return Err(Rule::Part.at(at));
    }
    read_part(code, next + size, next, depth)
}

// One code that fills its part.
#[cycle(reading)]
fn read_part(code: &[u8], end: usize, at: usize, depth: usize) -> Result<usize, Refusal>
    requires { end ≤ length code.now }
    ensures { reach result ≡ reached (read_part (read_code depth code.now) end at) }
{
    let next = read_code(code, end, at, depth)?;
    if next != end {
        return Err(Rule::Part.at(next));
    }
    Ok(end)
}

#[cycle(reading)]
fn read_codes(code: &[u8], end: usize, from: usize, depth: usize) -> Result<usize, Refusal>
    requires { (from ≤ end) × (end ≤ length code.now) }
    ensures { reach result ≡ reached (read_codes (read_code depth code.now) (end - from) end from) }
{
    let mut at = from;
    while at < end {
        at = read_code(code, end, at, depth)?;
    }
    Ok(end)
}

pub fn check_code(code: &[u8]) -> Result<(), Refusal>
    ensures { verdict result ≡ check_code code.now }
{
    if code.is_empty() || code.len() > 16384 {
        return Err(Rule::Length.at(0));
    }
    read_part(code, code.len(), 0, 32)?;
    Ok(())
}
