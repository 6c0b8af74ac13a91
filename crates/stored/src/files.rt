ghost use Rattle.std.specs.Prelude.{Ok, true};

use crate::Tally;
use std::fs::File;
use std::io;
use std::rt::Files;

/// No file has as many cases: a proved loop has to end, and nothing says that a file does.
pub const MOST: u64 = 100_000;

/// Tries what a file holds, if it begins as one of its kind does, and prints how many agree.
pub fn try_file<R: Files + Print + Eprint, B, F>(
    rt: &R,
    name: &str,
    begins: B,
    try_all: F,
) -> io::Result<()>
where
    B: FnOnce(&mut R::File) -> io::Result<bool>,
    F: FnOnce(&mut R::File) -> io::Result<Tally>,
    requires begins { B.IsAlwaysCallable begins }
    requires begun { (file after : _) → B.post begins file (Ok true) after → F.IsAlwaysCallable try_all }
{
    let mut file = match File::open(rt, name) {
        Ok(file) => file,
        Err(e) => return eprintln!(rt; "{name}: {e}"),
    };
    if !begins(&mut file)? {
        return eprintln!(rt; "{name}: it begins otherwise");
    }
    let tally = try_all(&mut file)?;
    println!(rt; "{name} {tally}")
}
