ghost use Rattle.std.specs.Prelude.{◌≡◌, ◌+◌, ◌%◌, ◌^◌, None, Some};
ghost use Rattle.std.specs.Int.{from_bool};
ghost use Rattle.stored.specs.Counting.{first_of, told};

use std::fmt;
use std::fmt::{Display, Formatter, Write};

/// How many cases were tried, how many of them agree, and which is the first that does not.
#[derive(Clone, Copy)]
pub struct Tally {
    tried: u64,
    agree: u64,
    first: Option<u64>,
}

impl Tally {
    pub fn new() -> Tally
        ensures none { (result.tried ≡ 0) × (result.agree ≡ 0) }
        ensures first { result.first ≡ None }
    {
        Tally {
            tried: 0,
            agree: 0,
            first: None,
        }
    }

    /// Counts one case more.
    pub fn count(&mut self, agrees: bool)
        ensures tried { self.new.tried ≡ (self.old.tried + 1) % 2 ^ 64 }
        ensures agree { self.new.agree ≡ (self.old.agree + from_bool agrees) % 2 ^ 64 }
        ensures first { self.new.first ≡ first_of agrees self.old.first self.old.tried }
    {
        if !agrees {
            self.first = self.first.or(Some(self.tried));
        }
        self.agree = self.agree.wrapping_add(u64::from(agrees));
        self.tried = self.tried.wrapping_add(1);
    }
}

// AGREE of TRIED, and the index of the first that does not agree.
impl Display for Tally {
    ghost output = { λ t. Some (told t.agree t.tried t.first) };

    fn fmt<W: Write>(&self, f: &mut Formatter<W>) -> fmt::Result {
        write!(f, "{} of {}", self.agree, self.tried)?;
        match self.first {
            Some(first) => write!(f, ", the first that differs is {first}"),
            None => Ok(()),
        }
    }
}
