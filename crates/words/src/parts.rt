// `two` and `four`: pairs and quads of any parts, the lowest first, and what does one thing to each part.
ghost use Rattle.words.specs.Parts.{four, Mapped, Mapped2};

// `two`.
#[derive(Clone, Copy, PartialEq, Eq)]
pub struct Two<T> {
    pub lo: T,
    pub hi: T,
}

// `four`.
#[derive(Clone, Copy, PartialEq, Eq)]
pub struct Four<T> {
    pub lo0: T,
    pub lo1: T,
    pub hi2: T,
    pub hi3: T,
}

// `double32`, `quad32` and `bits_of_byte`, whose parts are words of 32 bits and remainders by 4.
pub type Double32 = Two<u32>;

pub type Quad32 = Four<u32>;

pub type BitsOfByte = Four<u8>;

impl<T: Copy> Four<T> {
    // `four_map`: f of each part.
    pub fn map<U, F: Fn(T) -> U>(self, f: F) -> Four<U>
        requires { F.IsAlwaysCallable f }
        ensures { Mapped (F.post f) (four self) (four result) }
    {
        Four {
            lo0: f(self.lo0),
            lo1: f(self.lo1),
            hi2: f(self.hi2),
            hi3: f(self.hi3),
        }
    }

    // `four_map2`: f of each part and that part of y.
    pub fn map2<F: Fn(T, T) -> T>(self, y: Four<T>, f: F) -> Four<T>
        requires { F.IsAlwaysCallable f }
        ensures { Mapped2 (F.post f) (four self) (four y) (four result) }
    {
        Four {
            lo0: f(self.lo0, y.lo0),
            lo1: f(self.lo1, y.lo1),
            hi2: f(self.hi2, y.hi2),
            hi3: f(self.hi3, y.hi3),
        }
    }
}
