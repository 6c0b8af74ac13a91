// Why a call is refused.
ghost use Rattle.std.specs.Prelude.{◌≡◌};
ghost use Rattle.builder.specs.Building.{number_of};

use machine::Rule;

#[derive(Clone, Copy, PartialEq, Eq)]
pub enum BuildRefusal {
    // Nothing is open to close, or the open part has not the code that it needs, or has the one that it takes, or the
    // build is finished.
    Misfit,
    // The first wrong field of what is added breaks this rule of code: `Register`, a register or xmm number is above 15, or `Scale`,
    // the scale of an MIndex is none of 1, 2, 4 and 8.
    Field(Rule),
    // The code would be the 33rd level.
    TooDeep,
    // Too many bytes for the buffer, or more than 16,384.
    NoRoom,
}

impl BuildRefusal {
    // Its number, as it is answered in C.
    pub fn number(self) -> u8
        ensures { result ≡ number_of self }
    {
        match self {
            BuildRefusal::Misfit => 51,
            BuildRefusal::Field(rule) => rule.number(),
            BuildRefusal::TooDeep => 53,
            BuildRefusal::NoRoom => 52,
        }
    }
}
