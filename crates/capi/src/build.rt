// The builder's calls. A build passes as five lent numbers and arrays, an instruction or a comparison as numbers and arrays:
// the parameters that travel together are those of the C interface (include/pokchrei.h). The five calls differ in the
// call of the builder whose result `answer` is given; to pass that call as a closure would take the same parameters and more.
ghost use Rattle.std.specs.Prelude.{◌≡◌, ℕ, List};
ghost use Rattle.builder.specs.Calls.{open_block, close};
ghost use Rattle.builder.specs.Building.{empty, outcome, left, call};
ghost use Rattle.numbered.specs.Values.{instruction_given, comparison_given};
ghost use Rattle.capi.specs.Lent.{lent_build, given_build, left_build, given_numbers, add_given, if_else_given, while_given, InstructionTyped, ComparisonTyped};

use builder::{Build, BuildRefusal, add, begin, close, open_block, open_if_else, open_while};
use numbered::{Numbers, comparison_of, instruction_of};

// What is given is no value: a kind is none of those allowed there.
const NO_VALUE: u8 = 2;

// A build from its lent parts.
fn lent_build(
    length: u16,
    depth: u16,
    parts: &[u8; 32],
    fields: &[u16; 32],
    starts: &[u16; 32],
) -> Build
    ensures { result ≡ lent_build length depth parts.now fields.now starts.now }
{
    Build {
        length,
        depth,
        parts: *parts,
        fields: *fields,
        starts: *starts,
    }
}

// Numbers from theirs.
fn lent_numbers(
    kind: u8,
    body: &[u8; 3],
    operands: &[u8; 3],
    bases: &[u8; 3],
    indexes: &[u8; 3],
    scales: &[u16; 3],
    numbers: &[u64; 3],
    offsets: &[u64; 3],
) -> Numbers
    ensures { result ≡ given_numbers kind body operands bases indexes scales numbers offsets }
{
    Numbers {
        kind,
        body: *body,
        operands: *operands,
        bases: *bases,
        indexes: *indexes,
        scales: *scales,
        numbers: *numbers,
        offsets: *offsets,
    }
}

// The build into its lent parts.
fn hand_back(
    build: Build,
    length: &mut u16,
    depth: &mut u16,
    parts: &mut [u8; 32],
    fields: &mut [u16; 32],
    starts: &mut [u16; 32],
)
    ensures { left_build length depth parts fields starts ≡ build }
{
    // A field that is an array is not stored straight from a struct: "the borrow checker does not cover this function yet".
    let Build {
        parts: new_parts,
        fields: new_fields,
        starts: new_starts,
        ..
    } = build;
    *length = build.length;
    *depth = build.depth;
    *parts = new_parts;
    *fields = new_fields;
    *starts = new_starts;
}

// What a call answers in C: 0, with its build in the lent parts, or the number of its refusal.
fn answer(
    called: Result<Build, BuildRefusal>,
    length: &mut u16,
    depth: &mut u16,
    parts: &mut [u8; 32],
    fields: &mut [u16; 32],
    starts: &mut [u16; 32],
) -> u8
    ensures { (buffer : List ℕ) → outcome result (left_build length depth parts fields starts) buffer
        ≡ left (given_build length depth parts fields starts) called buffer }
{
    match called {
        Ok(build) => {
            hand_back(build, length, depth, parts, fields, starts);
            0
        }
        Err(refusal) => refusal.number(),
    }
}

#[unsafe(no_mangle)]
pub extern "C" fn pokchrei_begin(
    length: &mut u16,
    depth: &mut u16,
    parts: &mut [u8; 32],
    fields: &mut [u16; 32],
    starts: &mut [u16; 32],
)
    ensures { left_build length depth parts fields starts ≡ empty }
{
    hand_back(begin(), length, depth, parts, fields, starts);
}

#[unsafe(no_mangle)]
pub extern "C" fn pokchrei_open_block(
    length: &mut u16,
    depth: &mut u16,
    parts: &mut [u8; 32],
    fields: &mut [u16; 32],
    starts: &mut [u16; 32],
    buffer: &mut [u8],
) -> u8
    ensures { outcome result (left_build length depth parts fields starts) buffer.new
        ≡ call open_block (given_build length depth parts fields starts) buffer.old }
{
    let build = lent_build(*length, *depth, parts, fields, starts);
    let called = open_block(build, buffer);
    answer(called, length, depth, parts, fields, starts)
}

#[unsafe(no_mangle)]
pub extern "C" fn pokchrei_close(
    length: &mut u16,
    depth: &mut u16,
    parts: &mut [u8; 32],
    fields: &mut [u16; 32],
    starts: &mut [u16; 32],
    buffer: &mut [u8],
) -> u8
    ensures { outcome result (left_build length depth parts fields starts) buffer.new
        ≡ call close (given_build length depth parts fields starts) buffer.old }
{
    let build = lent_build(*length, *depth, parts, fields, starts);
    let called = close(build, buffer);
    answer(called, length, depth, parts, fields, starts)
}

#[unsafe(no_mangle)]
pub extern "C" fn pokchrei_open_if_else(
    length: &mut u16,
    depth: &mut u16,
    parts: &mut [u8; 32],
    fields: &mut [u16; 32],
    starts: &mut [u16; 32],
    buffer: &mut [u8],
    kind: u8,
    body: &[u8; 3],
    operands: &[u8; 3],
    bases: &[u8; 3],
    indexes: &[u8; 3],
    scales: &[u16; 3],
    numbers: &[u64; 3],
    offsets: &[u64; 3],
) -> u8
    ensures buffer_after { outcome result (left_build length depth parts fields starts) buffer.new
        ≡ if_else_given
        (comparison_given (given_numbers kind body operands bases indexes scales numbers offsets))
        (given_build length depth parts fields starts) buffer.old }
    ensures comparison_typed { ComparisonTyped (comparison_given (given_numbers kind body operands bases indexes scales numbers offsets)) }
{
    let given = lent_numbers(
        kind, body, operands, bases, indexes, scales, numbers, offsets,
    );
    let Some(condition) = comparison_of(given) else {
        return NO_VALUE;
    };
    let build = lent_build(*length, *depth, parts, fields, starts);
    let called = open_if_else(build, buffer, condition);
    answer(called, length, depth, parts, fields, starts)
}

#[unsafe(no_mangle)]
#[tactic(auto, unfolding(builder::specs::Calls::CallTyped))]
pub extern "C" fn pokchrei_open_while(
    length: &mut u16,
    depth: &mut u16,
    parts: &mut [u8; 32],
    fields: &mut [u16; 32],
    starts: &mut [u16; 32],
    buffer: &mut [u8],
    kind: u8,
    body: &[u8; 3],
    operands: &[u8; 3],
    bases: &[u8; 3],
    indexes: &[u8; 3],
    scales: &[u16; 3],
    numbers: &[u64; 3],
    offsets: &[u64; 3],
) -> u8
    ensures buffer_after { outcome result (left_build length depth parts fields starts) buffer.new
        ≡ while_given
        (comparison_given (given_numbers kind body operands bases indexes scales numbers offsets))
        (given_build length depth parts fields starts) buffer.old }
    ensures comparison_typed { ComparisonTyped (comparison_given (given_numbers kind body operands bases indexes scales numbers offsets)) }
{
    let given = lent_numbers(
        kind, body, operands, bases, indexes, scales, numbers, offsets,
    );
    let Some(condition) = comparison_of(given) else {
        return NO_VALUE;
    };
    let build = lent_build(*length, *depth, parts, fields, starts);
    let called = open_while(build, buffer, condition);
    answer(called, length, depth, parts, fields, starts)
}

#[unsafe(no_mangle)]
pub extern "C" fn pokchrei_add(
    length: &mut u16,
    depth: &mut u16,
    parts: &mut [u8; 32],
    fields: &mut [u16; 32],
    starts: &mut [u16; 32],
    buffer: &mut [u8],
    kind: u8,
    body: &[u8; 3],
    operands: &[u8; 3],
    bases: &[u8; 3],
    indexes: &[u8; 3],
    scales: &[u16; 3],
    numbers: &[u64; 3],
    offsets: &[u64; 3],
) -> u8
    ensures buffer_after { outcome result (left_build length depth parts fields starts) buffer.new
        ≡ add_given
        (instruction_given (given_numbers kind body operands bases indexes scales numbers offsets))
        (given_build length depth parts fields starts) buffer.old }
    ensures instruction_typed { InstructionTyped (instruction_given (given_numbers kind body operands bases indexes scales numbers offsets)) }
{
    let given = lent_numbers(
        kind, body, operands, bases, indexes, scales, numbers, offsets,
    );
    let Some(instruction) = instruction_of(given) else {
        return NO_VALUE;
    };
    let build = lent_build(*length, *depth, parts, fields, starts);
    let called = add(build, buffer, instruction);
    answer(called, length, depth, parts, fields, starts)
}
