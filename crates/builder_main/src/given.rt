// A call with the values that it is given, and what the builder makes of it.
ghost use Rattle.std.specs.Prelude.{◌≡◌};
ghost use Rattle.builder.specs.Building.{outcome, left};
ghost use Rattle.builder_main.specs.Made.{called, made, given_of};

use builder::{Build, BuildRefusal};
use code::{Instruction, Ocmp};
use numbered::{Numbers, comparison_of, instruction_of};

// The kinds of calls as the bytes that compare/ writes into a stored file, of which close is the last: `Given` is what they mean.
pub const BEGIN: u8 = 0;

pub const OPEN_BLOCK: u8 = 1;

pub const OPEN_IF_ELSE: u8 = 2;

pub const OPEN_WHILE: u8 = 3;

pub const ADD: u8 = 4;

pub const CLOSE: u8 = 5;

// What is given is no value, as the C interface answers it: a static library, of which no crate can take the constant.
const NO_VALUE: u8 = 2;

#[derive(Clone, Copy)]
pub enum Given {
    Begin,
    OpenBlock,
    OpenIfElse(Ocmp),
    OpenWhile(Ocmp),
    Add(Instruction),
    Close,
}

// What a call answers, and the build that it leaves. The answer is a byte of the file, 0, NO_VALUE or a refusal's number, and is compared as one.
#[derive(Clone, Copy, PartialEq, Eq)]
pub struct Left {
    pub answer: u8,
    pub build: Build,
}

// Numbers that give no instruction or comparison are no call of the builder's.
#[tactic(auto, unfolding(crate::specs::Made::given_of))]
pub fn given_of(kind: u8, numbers: Numbers) -> Option<Given>
    ensures { result ≡ given_of kind numbers }
{
    match kind {
        BEGIN => Some(Given::Begin),
        OPEN_BLOCK => Some(Given::OpenBlock),
        OPEN_IF_ELSE => comparison_of(numbers).map(Given::OpenIfElse),
        OPEN_WHILE => comparison_of(numbers).map(Given::OpenWhile),
        ADD => instruction_of(numbers).map(Given::Add),
        _ => Some(Given::Close),
    }
}

#[tactic(auto, unfolding(crate::specs::Made::called))]
fn call(given: Given, build: Build, buffer: &mut [u8]) -> Result<Build, BuildRefusal>
    ensures { left build result buffer.new ≡ called given build buffer.old }
{
    match given {
        Given::Begin => Ok(builder::begin()),
        Given::OpenBlock => builder::open_block(build, buffer),
        Given::OpenIfElse(condition) => builder::open_if_else(build, buffer, condition),
        Given::OpenWhile(condition) => builder::open_while(build, buffer, condition),
        Given::Add(instruction) => builder::add(build, buffer, instruction),
        Given::Close => builder::close(build, buffer),
    }
}

// What the call leaves; what is no call changes nothing.
pub fn make(given: Option<Given>, build: Build, buffer: &mut [u8]) -> Left
    ensures { outcome result.answer result.build buffer.new ≡ made given build buffer.old }
{
    let Some(given) = given else {
        return Left {
            answer: NO_VALUE,
            build,
        };
    };
    match call(given, build, buffer) {
        Ok(build) => Left { answer: 0, build },
        Err(refusal) => Left {
            answer: refusal.number(),
            build,
        },
    }
}
