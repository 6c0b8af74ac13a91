// How an instruction or a code of the run ended: the place behind what was done, or what ended the run.
ghost use Rattle.std.specs.Prelude.{◌≡◌, Err};

// 1, and the place of a While that found no fuel; 37, and the place of what found the step limit used up; or the number of the check
// that failed, and its place. Checks have no names here, 31 to 36, nor has the limit, 37: the definitions that this is held to have
// their numbers. C has names for them.
#[derive(Clone, Copy)]
pub struct Stop {
    pub number: u8,
    pub place: usize,
}

pub type Exit = Result<usize, Stop>;

impl Stop {
    // What ends at a place, with a number.
    pub fn at(number: u8, place: usize) -> Result<usize, Stop>
        ensures { result ≡ Err (record { number = number; place = place }) }
    {
        Err(Stop { number, place })
    }
}
