// Runs the stored jobs of data/ and compares what is printed of each with the stored text, byte for byte, of a job of last year's
// rule with the second of its two; and the stored sums, by both evaluations, with the word and the flags that are stored. What is
// expected is of the separately written evaluator in compare/, whose README says how the files are made. A line that does not say
// "N of N" is an error.
#![tactic(auto)]

mod marked;
mod part;
mod sums;

ghost use Rattle.std.specs.Prelude.{◌≡◌, ◌↔◌, IsTrue};
ghost use Rattle.job.specs.Job.{output};

use marked::{is_marked, refuses_scale};
use part::read_part;
use std::io;
use std::io::Read;
use stored::{MOST, Tally, read_full, try_file};

// Whether the definition's output of a job is the stored text.
fn agrees(input: &[u8], text: &[u8]) -> bool
    ensures { IsTrue result ↔ (output input.now ≡ text.now) }
{
    let mut addresses = [0u64; 1024];
    let mut tags = [0u8; 1024];
    let mut values = [0u64; 1024];
    let mut out = [0u8; 65536];
    let n = job::job(input, &mut addresses, &mut tags, &mut values, &mut out);
    &out[..n] == text
}

// Whether the file's next job agrees. No text is empty, so one of no bytes is the end of the file.
fn try_job<R: Read>(file: &mut R) -> io::Result<Option<bool>> {
    let mut input = [0u8; 65536];
    let mut text = [0u8; 65536];
    let input = read_part(file, &mut input)?;
    let text = read_part(file, &mut text)?;
    if text.is_empty() {
        return Ok(None);
    }
    Ok(Some(agrees(input, text)))
}

// Whether the file's next job of last year's rule agrees: it is refused for its scale, and where today's text says.
fn try_marked<R: Read>(file: &mut R) -> io::Result<Option<bool>> {
    let mut input = [0u8; 65536];
    let mut text = [0u8; 65536];
    let input = read_part(file, &mut input)?;
    read_part(file, &mut text)?;
    let text = read_part(file, &mut text)?;
    if text.is_empty() {
        return Ok(None);
    }
    Ok(Some(refuses_scale(text) && agrees(input, text)))
}

// Whether the file's next sum agrees.
fn try_sum<R: Read>(file: &mut R) -> io::Result<Option<bool>> {
    let mut row = [0u8; sums::ROW];
    if read_full(file, &mut row)? < sums::ROW {
        return Ok(None);
    }
    Ok(Some(sums::agrees(&row)))
}

// Tries what a file holds, one after the other, until none is left.
fn try_all<R, F: FnMut(&mut R) -> io::Result<Option<bool>>>(
    file: &mut R,
    mut try_next: F,
) -> io::Result<Tally>
    requires { F.IsAlwaysCallable try_next }
{
    let mut tally = Tally::new();
    for _ in 0..MOST {
        match try_next(file)? {
            Some(agrees) => tally.count(agrees),
            None => return Ok(tally),
        }
    }
    Ok(tally)
}

fn main(rt: HostRuntime) -> io::Result<()> {
    for name in ["systematic", "random", "scales"] {
        try_file(&rt, name, |_| Ok(true), |file| try_all(file, try_job))?;
    }
    try_file(
        &rt,
        "last-years-rule",
        is_marked,
        |file| try_all(file, try_marked),
    )?;
    try_file(&rt, "sums", |_| Ok(true), |file| try_all(file, try_sum))
}
