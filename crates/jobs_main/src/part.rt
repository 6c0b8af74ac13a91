// The parts of a stored file: a job's bytes and its text, or its two texts, by turns, each behind its length in four bytes, low first.

ghost use Rattle.std.specs.Prelude.{◌≤◌, length, IfOk};

use code::number4;
use std::io;
use std::io::Read;
use stored::read_full;

// 0 at the end of the file, where a part of no bytes stands for None (see `read_part`).
fn read_length(file: &mut impl Read) -> io::Result<usize> {
    let mut four = [0u8; 4];
    if read_full(file, &mut four)? < 4 {
        return Ok(0);
    }
    Ok(number4(&four, 0))
}

// Reads the file's next part into `room` and answers it: no bytes where the file has ended, or the part is too long. An Option would be
// no plainer: no text is empty, so the text's length alone tells the end, and a job that is too long for the room is tried as one of no bytes.
pub fn read_part<'a, R: Read>(file: &mut R, room: &'a mut [u8]) -> io::Result<&'a [u8]>
    ensures { IfOk result (λ part. length part.now ≤ length room.old) }
{
    let n = read_length(file)?;
    if n > room.len() {
        return Ok(&[]);
    }
    let got = read_full(file, &mut room[..n])?;
    Ok(&room[..got])
}
