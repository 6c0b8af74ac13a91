// What is counted in a run, and the watch over the flags that the fill word sets. What a kind does
// to them stands in words of bits, one or two for a kind, carry below overflow, so that no table in memory is read.
// A kind is the byte that stands in the code, and no enum: docs/DECISIONS.md, "A kind is a byte".
ghost use Rattle.std.specs.Prelude.{◌≡◌, true, false, ℕ, ◌+◌, ◌/◌, ◌%◌, ◌^◌, ◌<◌, eqb};
ghost use Rattle.std.proofs.Math.Option.{some};
ghost use Rattle.code.specs.Records.{is_ocmp};
ghost use Rattle.eval.specs.FlagRule.{FlagRule, flag_rule};
ghost use Rattle.eval.specs.Config.{done};
ghost use Rattle.eval.specs.Watch.{Mark, watch, nothing_open, reads_open, first_mark, watched};
ghost use Rattle.eval.specs.Counted.{count, nothing_counted, used_up};
ghost use Rattle.eval.specs.Counted as Counted;
ghost use Rattle.eval.specs.Promises.{carry_in, overflow_in, tally, least_tested, tested_with, Kept, KeepsFlags, SetsFlags};

use crate::answer::{Evaluation, Watch};

#[derive(Clone, Copy)]
pub struct Counter {
    // The steps made.
    pub steps: u64,
    // What is open: below 4, carry in bit 0 and overflow in bit 1; else the kind of the instruction that set both flags last.
    // One word and no enum: docs/DECISIONS.md, "The watch in the evaluator".
    pub opened: u64,
    // The place of the first instruction that has read an open flag.
    pub mark: Option<usize>,
    // The least fuel with which a loop was tested; where none was, one more than the run's.
    // No Option: docs/DECISIONS.md, "One more than the fuel, where no loop was tested".
    pub tested: u64,
}

// Bit k is set where kind k sets or reads one of the two.
const TOUCHES: u64 = 0b1110_0000_0000_1111_1101_1111_0100;

// Bits 2k and 2k + 1 are set where kind k opens carry and overflow.
const OPENS: u64 = 0b10100000_00000000_00000000_11111111_00110011_11000000_00000000;

// The same where one of the first six kinds keeps them: by the base's rule, and by the board's, which keeps no overflow of
// Add64 and AddCarry64.
const KEEPS: u64 = 0b00011010_11101111;

const BOARD_KEEPS: u64 = 0b00011000_11001111;

// The same where one of them reads them.
const READS: u64 = 0b00100101_00000000;

// What keeps both flags and reads none is done with the watch here. Behind the first six kinds, what does not keep them sets both.
fn touches(kind: u8) -> bool
    requires { kind < 32 }
    ensures keeps_flags { result ≡ false → KeepsFlags kind }
    ensures sets_flags { result ≡ true → 6 < kind → SetsFlags kind }
{
    ((TOUCHES >> kind) & 1) == 1
}

// What is open, as two bits.
fn open_bits(word: u64) -> u64
    ensures { (result < 4) × ((eqb (result % 2) 1 ≡ carry_in word) × (eqb (result / 2 % 2) 1 ≡ overflow_in word)) }
{
    if word < 4 {
        return word;
    }
    (OPENS >> (2 * (word % 32))) % 4
}

// What of the open flags is open behind one of the first six kinds, none of which opens one.
fn kept(kind: u8, evaluation: Evaluation, was: u64) -> u64
    requires { (kind < 7) × (was < 4) }
    ensures { Kept (flag_rule evaluation) kind was result }
{
    let bits = 2 * kind;
    match evaluation {
        Evaluation::Base => was & (KEEPS >> bits),
        Evaluation::Board => was & (BOARD_KEEPS >> bits),
    }
}

fn reads_open(kind: u8, was: u64) -> bool
    requires { (kind < 7) × (was < 4) }
    ensures { (mark : Mark) → result ≡ reads_open kind (watch (eqb (was % 2) 1) (eqb (was / 2 % 2) 1) mark) }
{
    was & (READS >> (2 * kind)) != 0
}

impl Counter {
    // As a run with so much fuel begins.
    pub fn new(fuel: u32) -> Counter
        ensures counted { tally result ≡ nothing_counted }
        ensures tested { least_tested result ≡ fuel + 1 }
    {
        Counter {
            steps: 0,
            opened: 0,
            mark: None,
            tested: fuel as u64 + 1,
        }
    }

    pub fn used_up(&self, limit: u64) -> bool
        ensures { result ≡ used_up (some limit) (tally self.now) }
    {
        limit <= self.steps
    }

    // An open flag was read: the mark stays at the first.
    fn mark_first(&mut self, at: usize)
        ensures counted_after { let before = tally self.old in let w = before.watch in
            tally self.new ≡ Counted.counted before.steps (watch w.carry w.overflow (first_mark true at w.mark)) }
        ensures tested_none { least_tested self.new ≡ least_tested self.old }
    {
        if self.mark.is_none() {
            self.mark = Some(at);
        }
    }

    // One of the first six kinds: some of them keep one flag, and some read one.
    fn watch_sum(&mut self, kind: u8, at: usize, evaluation: Evaluation)
        requires { kind < 7 }
        ensures counted_after { let before = tally self.old in
            tally self.new ≡ Counted.counted before.steps (watched (flag_rule evaluation) kind at before.watch) }
        ensures tested_none { least_tested self.new ≡ least_tested self.old }
    {
        let was = open_bits(self.opened);
        let left = kept(kind, evaluation, was);
        // What reads a flag closes it: where all that was open is kept, none was read.
        if left == was {
            return;
        }
        self.opened = left;
        if reads_open(kind, was) {
            self.mark_first(at);
        }
    }

    pub fn count_instruction(&mut self, kind: u8, at: usize, evaluation: Evaluation)
        requires kind_bound { kind < 32 }
        requires counted_bound { self.old.steps + 1 < 2 ^ 64 }
        ensures counted_after { tally self.new ≡ count done (watched (flag_rule evaluation) kind at) (tally self.old) }
        ensures tested_none { least_tested self.new ≡ least_tested self.old }
    {
        self.steps += 1;
        if !touches(kind) {
            return;
        }
        if 6 < kind {
            self.opened = kind as u64;
            return;
        }
        self.watch_sum(kind, at, evaluation);
    }

    // A comparison opens both.
    pub fn count_comparison(&mut self)
        requires { self.old.steps + 1 < 2 ^ 64 }
        ensures counted_after { (rule : FlagRule) (kind at : ℕ) → is_ocmp kind ≡ true →
            tally self.new ≡ count done (watched rule kind at) (tally self.old) }
        ensures tested_none { least_tested self.new ≡ least_tested self.old }
    {
        self.steps += 1;
        self.opened = 3;
    }

    // Where a round begins: a While tests its fuel.
    pub fn count_test(&mut self, chooses: bool, left: u32)
        ensures counted_unchanged { tally self.new ≡ tally self.old }
        ensures counted_after { least_tested self.new ≡ tested_with chooses left (least_tested self.old) }
    {
        let fuel = left as u64;
        if !chooses && fuel < self.tested {
            self.tested = fuel;
        }
    }

    // The watch as a run hands it back.
    pub fn watch(&self) -> Watch
        ensures { result ≡ (tally self.now).watch }
    {
        let open = open_bits(self.opened);
        Watch {
            mark: self.mark,
            carry: open % 2 == 1,
            overflow: open / 2 % 2 == 1,
        }
    }
}

// That of a run that was refused.
pub fn nothing_open() -> Watch
    ensures { result ≡ nothing_open }
{
    Watch {
        mark: None,
        carry: false,
        overflow: false,
    }
}
