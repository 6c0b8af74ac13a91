ghost use Rattle.std.specs.Prelude.{◌≡◌};
ghost use Rattle.machine.specs.Rules.{rule_number};
ghost use Rattle.eval.specs.declared.answer.Answer.TheVariants.{Refused};

use machine::{Refusal, State};

// How a run ended: each but a run that is done has a place. Numbers are those that C and the job program tell.
// `Refused` holds a number and a place and no `Refusal`, as the definition's outcome does: who tells an answer tells all its cases in one
// form, with those of a job's own rules.
#[derive(Clone, Copy)]
pub enum Answer {
    Done,
    Fault(u8, usize),
    Stopped(u8, usize),
    Spent(usize),
    Refused(u8, usize),
}

impl From<Refusal> for Answer {
    ghost from_gives = { λ refusal answer. answer ≡ Refused (rule_number refusal.rule) refusal.place };

    fn from(refusal: Refusal) -> Answer {
        Answer::Refused(refusal.rule.number(), refusal.place)
    }
}

// Whether an end can hang on the fill word: the mark, which is the place of the first instruction that has read an open flag, if one has, and whether
// carry and overflow are open, which is to say the fill word's.
#[derive(Clone, Copy)]
pub struct Watch {
    pub mark: Option<usize>,
    pub carry: bool,
    pub overflow: bool,
}

// What a run hands back, beside the lent cells. With less fuel than `needed` it is Spent; a run that is Spent has needed all of its fuel,
// and one that is refused none.
#[derive(Clone, Copy)]
pub struct Run {
    pub answer: Answer,
    pub state: State,
    pub steps: u64,
    pub watch: Watch,
    pub needed: u32,
}

// Which flags Add64 and AddCarry64 leave: F*'s, or those of the board.
#[derive(Clone, Copy)]
pub enum Evaluation {
    Base,
    Board,
}

// What a caller names for a run beside code, cells and start.
#[derive(Clone, Copy)]
pub struct Setting {
    pub fill: u64,
    pub fuel: u32,
    pub limit: u64,
    pub evaluation: Evaluation,
}
