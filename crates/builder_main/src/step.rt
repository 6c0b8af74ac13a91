// The steps of a stored file. A step is a head of 21 bytes; the record's 67 bytes, where its kind is that of a call that
// is given one; and as many bytes of the buffer as the head's last byte says. Numbers have their low byte first.
ghost use Rattle.std.specs.Prelude.{◌+◌, ◌≤◌, length};

use crate::given::{ADD, BEGIN, OPEN_IF_ELSE};
use builder::Build;
use code::{number2, number4, number8};
use numbered::Numbers;
use std::io;
use std::io::Read;
use stored::read_full;

// The number of bytes of a head.
const HEAD: usize = 21;

#[derive(Clone, Copy)]
pub struct Head {
    pub kind: u8,
    // How many bytes of the buffer are lent.
    pub lent: usize,
    pub answer: u8,
    // The build that is left: its length, its depth and one part.
    length: u16,
    depth: u16,
    index: u8,
    part: u8,
    field: u16,
    start: u16,
    // The place in the buffer, and the count of the bytes that stand there.
    pub place: usize,
    count: u8,
}

#[derive(Clone, Copy)]
pub struct Step {
    pub head: Head,
    record: [u8; 67],
    bytes: [u8; 255],
}

fn short(bytes: &[u8], at: usize) -> u16
    requires { at + 2 ≤ length bytes.now }
{
    number2(bytes, at) as u16
}

fn head_of(bytes: &[u8; HEAD]) -> Head {
    Head {
        kind: bytes[0],
        lent: number4(bytes, 1),
        answer: bytes[5],
        length: short(bytes, 6),
        depth: short(bytes, 8),
        index: bytes[10],
        part: bytes[11],
        field: short(bytes, 12),
        start: short(bytes, 14),
        place: number4(bytes, 16),
        count: bytes[20],
    }
}

// The next step, unless the file has ended.
pub fn read_step<R: Read>(file: &mut R) -> io::Result<Option<Step>> {
    let mut head = [0u8; HEAD];
    let mut record = [0u8; 67];
    let mut bytes = [0u8; 255];
    if read_full(file, &mut head)? < HEAD {
        return Ok(None);
    }
    let head = head_of(&head);
    if OPEN_IF_ELSE <= head.kind && head.kind <= ADD {
        read_full(file, &mut record)?;
    }
    read_full(file, &mut bytes[..usize::from(head.count)])?;
    Ok(Some(Step {
        head,
        record,
        bytes,
    }))
}

impl Head {
    // The stored build. A step tells what differs from the build before it, and a begin what differs from zeros: length,
    // depth and one part.
    pub fn build(&self, before: Build) -> Build {
        let mut build = if self.kind == BEGIN {
            builder::begin()
        } else {
            before
        };
        let i = usize::from(self.index) % 32;
        build.length = self.length;
        build.depth = self.depth;
        build.parts[i] = self.part;
        build.fields[i] = self.field;
        build.starts[i] = self.start;
        build
    }
}

impl Step {
    // The bytes that the buffer then has.
    pub fn bytes(&self) -> &[u8] {
        &self.bytes[..usize::from(self.head.count)]
    }

    // The record by its offsets in the file, as compare/ writes it: kind, bytes of the body (3), then of each operand kind, base and
    // index (1), scale (2), number and offset (8).
    pub fn numbers(&self) -> Numbers {
        let record = &self.record;
        Numbers {
            kind: record[0],
            body: [record[1], record[2], record[3]],
            operands: [record[4], record[5], record[6]],
            bases: [record[7], record[8], record[9]],
            indexes: [record[10], record[11], record[12]],
            scales: [short(record, 13), short(record, 15), short(record, 17)],
            numbers: [
                number8(record, 19),
                number8(record, 27),
                number8(record, 35),
            ],
            offsets: [
                number8(record, 43),
                number8(record, 51),
                number8(record, 59),
            ],
        }
    }
}
