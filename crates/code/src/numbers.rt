// The numbers that stand in code, low byte first.
ghost use Rattle.std.specs.Prelude.{◌≡◌, ◌+◌, ◌<◌, ◌≤◌, ◌^◌, length};
ghost use Rattle.code.specs.Records.{number_at, signed_at};

use words::{signed16, signed64};

// Products and sums of bytes in order, which compile to one load. Each size is a line over the one before, where one function of any size
// would be a loop over bytes, and `from_le_bytes` takes an array that is made of them first, by a definition beside `number_at`.
pub fn number2(code: &[u8], at: usize) -> usize
    requires { at + 2 ≤ length code.now }
    ensures { (result ≡ number_at 2 code.now at) × (result < 2 ^ 16) }
{
    code[at] as usize + code[at + 1] as usize * 0x100
}

pub fn number4(code: &[u8], at: usize) -> usize
    requires { at + 4 ≤ length code.now }
    ensures { (result ≡ number_at 4 code.now at) × (result < 2 ^ 32) }
{
    number2(code, at) + number2(code, at + 2) * 0x1_0000
}

pub fn number8(code: &[u8], at: usize) -> u64
    requires { at + 8 ≤ length code.now }
    ensures { result ≡ number_at 8 code.now at }
{
    let low = number4(code, at) as u64;
    let high = number4(code, at + 4) as u64;
    low + high * 0x1_0000_0000
}

pub fn signed2(code: &[u8], at: usize) -> i16
    requires { at + 2 ≤ length code.now }
    ensures { result ≡ signed_at 2 code.now at }
{
    signed16(number2(code, at) as u16)
}

pub fn signed8(code: &[u8], at: usize) -> i64
    requires { at + 8 ≤ length code.now }
    ensures { result ≡ signed_at 8 code.now at }
{
    signed64(number8(code, at))
}
