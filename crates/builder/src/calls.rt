// The calls. Each is judged first, and a refused one writes nothing. A build passes by value with the buffer beside it, which is the
// caller's: the five public calls take the two so, and what they call does too.
// The kinds of structures (0x20, 0x21, 0x22) are bytes, and no enum, which would have each name beside its byte: docs/DECISIONS.md, "A kind is a byte".
ghost use Rattle.std.specs.Prelude.{◌≡◌, ◌∷◌, ◌++◌, ◌+◌, ◌≤◌, ◌-◌, length, OnOk, OnErr};
ghost use Rattle.std.proofs.lemmas.List.Edits.{sets};
ghost use Rattle.code.specs.Kinds.{is_used};
ghost use Rattle.code.specs.Reached.{Begins, rest_of_all};
ghost use Rattle.code.specs.Layout.{ocmp_layout};
ghost use Rattle.code.specs.Writer.{bytes_of, bytes_of_ocmp};
ghost use Rattle.builder.specs.Calls.{open_block, open_if_else, open_while, add, close, record_trouble, RecordTyped, CallTyped};
ghost use Rattle.builder.specs.Rendered.{trouble_of, Closable};
ghost use Rattle.builder.specs.Building.{takes_code, judge, refusal, buffer_after, opens, answer_of, left, call};

use crate::build::{Build, CODES, LAST_PART, TRUE_PART};
use crate::record::{record_of, record_of_ocmp};
use crate::refusal::BuildRefusal;
use crate::write::{Bytes, copy, put_number, put_record};
use code::{Instruction, Ocmp, read_rest};

// The first refusal whose condition holds.
#[tactic(auto, unfolding(crate::specs::Building::judge, crate::specs::Building::unless, crate::specs::Calls::first_of))]
fn judge(
    fits: bool,
    fields: Result<(), BuildRefusal>,
    depth: usize,
    bytes: usize,
    room: usize,
) -> Result<(), BuildRefusal>
    ensures { answer_of result ≡ judge fits (answer_of fields) depth bytes room }
{
    if !fits {
        return Err(BuildRefusal::Misfit);
    }
    fields?;
    if depth > 32 {
        return Err(BuildRefusal::TooDeep);
    }
    if bytes > room || bytes > 16384 {
        return Err(BuildRefusal::NoRoom);
    }
    Ok(())
}

// The first wrong field of the record that stands from `at` on: it is judged as it stands in the bytes, by the check of code.
#[tactic(auto, unfolding(code::specs::Reached::reach))]
fn check_fields(bytes: &[u8], at: usize) -> Result<(), BuildRefusal>
    requires { Begins is_used bytes.now (length bytes.now) at }
    ensures { answer_of result ≡ trouble_of (rest_of_all bytes.now (length bytes.now) at) }
{
    match read_rest(bytes, bytes.len(), at) {
        Ok(_) => Ok(()),
        Err(refusal) => Err(BuildRefusal::Field(refusal.rule)),
    }
}

// Judges a call that adds these bytes, and stores them where it is taken.
#[tactic(auto, using(crate::proofs::Judged::was_taken))]
fn append(
    build: Build,
    buffer: &mut [u8],
    bytes: &[u8],
    fields: Result<(), BuildRefusal>,
) -> Result<(), BuildRefusal>
    requires { length bytes.now ≤ 52 }
    ensures answer { answer_of result
        ≡ judge (takes_code build) (answer_of fields) (build.depth + 1) (build.length + length bytes.now) (length buffer.old) }
    ensures ok { OnOk result (buffer.new ≡ sets buffer.old build.length bytes.now) }
    ensures err { OnErr result (buffer.new ≡ buffer.old) }
{
    let fits = build.takes_code();
    let depth = usize::from(build.depth) + 1;
    let length = usize::from(build.length);
    judge(fits, fields, depth, length + bytes.len(), buffer.len())?;
    copy(buffer, length, bytes);
    Ok(())
}

// Appends the first bytes of a structure, and opens its part of this kind.
#[tactic(auto, using(crate::proofs::Judged::was_taken))]
fn open_part(
    build: Build,
    buffer: &mut [u8],
    bytes: &[u8],
    fields: Result<(), BuildRefusal>,
    kind: u8,
) -> Result<Build, BuildRefusal>
    requires { length bytes.now ≤ 52 }
    ensures { left build result buffer.new ≡ opens kind (answer_of fields) bytes.now build buffer.old }
{
    append(build, buffer, bytes, fields)?;
    Ok(build.opened(kind, bytes.len()))
}

// Opens a structure of this kind byte, in which 0 stands for so many bytes of lengths, and then its condition.
fn open_with(
    build: Build,
    buffer: &mut [u8],
    kind: u8,
    lengths: usize,
    condition: Ocmp,
    part: u8,
) -> Result<Build, BuildRefusal>
    requires { lengths ≤ 8 }
    ensures opens { left build result buffer.new
        ≡ opens part (record_trouble (ocmp_layout condition)) (kind ∷ bytes_of lengths 0 ++ bytes_of_ocmp condition) build buffer.old }
    ensures record_typed { RecordTyped (ocmp_layout condition) }
{
    let mut bytes = Bytes::new();
    bytes.push(kind);
    put_number(&mut bytes, 0, lengths);
    put_record(&mut bytes, record_of_ocmp(condition));
    let fields = check_fields(&bytes, 1 + lengths);
    open_part(build, buffer, &bytes, fields, part)
}

#[tactic(auto, using(crate::proofs::Calling::block_is))]
pub fn open_block(build: Build, buffer: &mut [u8]) -> Result<Build, BuildRefusal>
    ensures { left build result buffer.new ≡ call open_block build buffer.old }
{
    open_part(build, buffer, &[0x20, 0, 0, 0, 0], Ok(()), CODES)
}

// The lengths of both parts stand before an IfElse's condition.
#[tactic(auto, using(crate::proofs::Calling::if_else_is, crate::proofs::Calling::if_else_fits))]
pub fn open_if_else(build: Build, buffer: &mut [u8], condition: Ocmp) -> Result<Build, BuildRefusal>
    ensures buffer_after { left build result buffer.new ≡ call (open_if_else condition) build buffer.old }
    ensures call_typed { CallTyped (open_if_else condition) }
{
    open_with(build, buffer, 0x21, 8, condition, TRUE_PART)
}

#[tactic(auto, using(crate::proofs::Calling::while_is, crate::proofs::Calling::while_fits))]
pub fn open_while(build: Build, buffer: &mut [u8], condition: Ocmp) -> Result<Build, BuildRefusal>
    ensures buffer_after { left build result buffer.new ≡ call (open_while condition) build buffer.old }
    ensures call_typed { CallTyped (open_while condition) }
{
    open_with(build, buffer, 0x22, 4, condition, LAST_PART)
}

pub fn add(build: Build, buffer: &mut [u8], instruction: Instruction) -> Result<Build, BuildRefusal>
    ensures buffer_after { left build result buffer.new ≡ call (add instruction) build buffer.old }
    ensures call_typed { CallTyped (add instruction) }
{
    let mut bytes = Bytes::new();
    put_record(&mut bytes, record_of(instruction));
    let fields = check_fields(&bytes, 0);
    append(build, buffer, &bytes, fields)?;
    Ok(build.longer(bytes.len()))
}

// Why a close is refused. It adds no bytes.
#[tactic(auto, using(crate::proofs::Calling::close_refusal))]
fn judge_close(build: Build, room: usize) -> Result<(), BuildRefusal>
    ensures { answer_of result ≡ refusal close build room }
{
    let fits = build.takes_close();
    judge(
        fits,
        Ok(()),
        usize::from(build.depth),
        usize::from(build.length),
        room,
    )
}

// Stores the length of the innermost part where it is counted.
#[tactic(auto, unfolding(crate::specs::Building::buffer_after))]
fn store_length(build: Build, buffer: &mut [u8])
    requires { Closable build (length buffer.old) }
    ensures { buffer.new ≡ buffer_after close build buffer.old }
{
    let part = build.innermost();
    let counted = usize::from(build.length) - usize::from(part.start);
    let mut bytes = Bytes::new();
    put_number(&mut bytes, counted as u64, 4);
    copy(buffer, usize::from(part.field), &bytes);
}

#[tactic(auto, using(crate::proofs::Calling::closable, crate::proofs::Calling::in_limit), unfolding(crate::specs::Building::call))]
pub fn close(build: Build, buffer: &mut [u8]) -> Result<Build, BuildRefusal>
    ensures { left build result buffer.new ≡ call close build buffer.old }
{
    judge_close(build, buffer.len())?;
    store_length(build, buffer);
    Ok(build.closed())
}
