// The stored jobs with a scale that only last year's rule accepted. Behind a line that says so, each job has two texts: the one that
// rule printed, which is no more this program's to give, and today's, which refuses the job for its scale.

ghost use Rattle.std.specs.Prelude.{◌≡◌, ◌↔◌, IsTrue, take};
ghost use Rattle.jobs_main.specs.Marked.{refused_7};

use std::io;
use std::io::Read;
use stored::read_full;

// Whether a file begins with the line that marks it.
pub fn is_marked<R: Read>(file: &mut R) -> io::Result<bool> {
    let mut line = [0u8; 142];
    let n = read_full(file, &mut line)?;
    let mark =
        b"The first text behind each of these jobs was printed by last year's rule, by which a scale could be any 16-bit number; the second is today's.\n";
    Ok(&line[..n] == mark.as_slice())
}

// Whether a text refuses a job for a scale.
pub fn refuses_scale(text: &[u8]) -> bool
    ensures { IsTrue result ↔ (take 10 text.now ≡ refused_7) }
{
    text.starts_with(b"refused 7 ")
}
