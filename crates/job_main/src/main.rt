// Reads a job from standard input, runs it, and writes what it prints.
#![tactic(auto)]

use std::io;
use std::io::Read;
use stored::read_full;

// One byte more than a job may have is read, which tells a job that is too long.
fn main(rt: HostRuntime) -> io::Result<()> {
    let mut input = [0u8; 34199];
    let read = read_full(&mut rt.reader(), &mut input)?;
    let mut addresses = [0u64; 1024];
    let mut tags = [0u8; 1024];
    let mut values = [0u64; 1024];
    let mut out = [0u8; 65536];
    let printed = job::job(
        &input[..read],
        &mut addresses,
        &mut tags,
        &mut values,
        &mut out,
    );
    rt.write_all(&out[..printed])
}
