// Makes the stored calls of data/ and compares what each answers and leaves with what is stored, all of it: the answer, the
// five fields of the build and the whole buffer. The expected outcomes are those of the separately written builder in
// compare/, whose README says how the files are made. A line that does not say "N of N" is an error.
#![tactic(auto)]

mod agrees;
mod given;
mod step;
mod store;

use agrees::agrees;
use builder::Build;
use given::{CLOSE, Left, given_of};
use std::io;
use std::io::Read;
use step::{Step, read_step};
use store::{fill, store};
use stored::{MOST, Tally, try_file};

// A step that makes no call and begins a list with a buffer of its own: a byte of the file too, as the kinds of calls are.
const FILL: u8 = 7;

// The stored build, from which the next call starts, and what was counted so far.
#[derive(Clone, Copy)]
struct Trial {
    build: Build,
    tally: Tally,
}

impl Trial {
    // Makes a call, or only changes build and buffer, where the step's kind is no call's. Whoever damages a build between
    // two calls damages the stored one too.
    fn try_step(&mut self, step: &Step, buffer: &mut [u8], after: &mut [u8]) {
        let head = step.head;
        let before = self.build;
        self.build = head.build(before);
        if head.kind == FILL {
            fill(buffer, head.answer);
            fill(after, head.answer);
            return;
        }
        store(after, head.place, step.bytes());
        if head.kind > CLOSE {
            store(buffer, head.place, step.bytes());
            return;
        }
        let given = given_of(head.kind, step.numbers());
        let left = Left {
            answer: head.answer,
            build: self.build,
        };
        self.tally.count(agrees(given, before, buffer, left, after));
    }
}

// A file ends where no whole step is left; one that lends more than there is ends it too. Not the loop of jobs_main, which counts a case
// a turn: a step may be none, and every step counts for MOST.
fn try_all<R: Read>(file: &mut R) -> io::Result<Tally> {
    // More bytes than any list lends.
    let mut buffer = [0u8; 65_600];
    let mut after = [0u8; 65_600];
    let mut trial = Trial {
        build: builder::begin(),
        tally: Tally::new(),
    };
    for _ in 0..MOST {
        let Some(step) = read_step(file)? else {
            break;
        };
        let n = step.head.lent;
        if n > buffer.len() {
            break;
        }
        trial.try_step(&step, &mut buffer[..n], &mut after[..n]);
    }
    Ok(trial.tally)
}

fn main(rt: HostRuntime) -> io::Result<()> {
    try_file(&rt, "systematic", |_| Ok(true), try_all)?;
    try_file(&rt, "random", |_| Ok(true), try_all)
}
