// Why code, cells or a job is not accepted.

ghost use Rattle.std.specs.Prelude.{◌≡◌};
ghost use Rattle.machine.specs.Rules.{rule_number};

// The rules, in the order of the papers: those of code, those of cells, and a job's own, which ask for no more bytes than a job has at most
// and for as many as it says. A discriminant is the number that the papers give a rule, and that C and the job program tell.
#[derive(Clone, Copy, PartialEq, Eq)]
pub enum Rule {
    Length = 1,
    Kind = 2,
    Short = 3,
    Register = 4,
    Depth = 5,
    Part = 6,
    Scale = 7,
    Lists = 11,
    Count = 12,
    Tag = 13,
    Value = 14,
    Order = 15,
    ShortJob = 41,
    LongJob = 42,
}

impl Rule {
    pub fn number(self) -> u8
        ensures { result ≡ rule_number self }
    {
        self as u8
    }

    // The refusal by this rule.
    pub fn at(self, place: usize) -> Refusal
        ensures { result ≡ record { rule = self; place = place } }
    {
        Refusal { rule: self, place }
    }
}

// The first rule that is broken, and the byte or the index of the cell where it is.
#[derive(Clone, Copy, PartialEq, Eq)]
pub struct Refusal {
    pub rule: Rule,
    pub place: usize,
}
