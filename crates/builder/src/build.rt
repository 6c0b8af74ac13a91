// A build, and which calls its innermost open part takes.
ghost use Rattle.std.specs.Prelude.{◌≡◌, ◌+◌, ◌≤◌, ◌<◌, cond};
ghost use Rattle.builder.specs.Calls.{close};
ghost use Rattle.builder.specs.Rendered.{part_of, Closable};
ghost use Rattle.builder.specs.Building.{empty, field_of, is_part, takes_code, takes_close, longer, opened, turned, shut, build_after};

// What a build holds besides its bytes, which stand at the front of the lent buffer: how many they are, and the open
// parts, outermost first. A part has a kind, the place of the length that counts it, and the place where it begins; they
// stand in arrays side by side, since C lends them so (`pokchrei_build`).
#[derive(Clone, Copy, PartialEq, Eq)]
pub struct Build {
    pub length: u16,
    pub depth: u16,
    pub parts: [u8; 32],
    pub fields: [u16; 32],
    pub starts: [u16; 32],
}

// The kinds of parts: a Block's codes; an IfElse's true part; and a part whose close completes its structure, an IfElse's
// false part or a While's. Bytes and no enum: in the array that C lends any may stand, and each is answered (`call`).
pub const CODES: u8 = 0;

pub const TRUE_PART: u8 = 1;

pub const LAST_PART: u8 = 2;

// The number of parts that can be open.
const MOST: u16 = 32;

pub fn begin() -> Build
    ensures { result ≡ empty }
{
    Build {
        length: 0,
        depth: 0,
        parts: [0; 32],
        fields: [0; 32],
        starts: [0; 32],
    }
}

// The innermost open part.
#[derive(Clone, Copy)]
pub struct Part {
    pub kind: u8,
    pub field: u16,
    pub start: u16,
}

// What the calls ask of a build, and the builds that they make of it. By value: with references `libcapi.a` had 530 bytes more.
impl Build {
    pub(crate) fn innermost(self) -> Part
        requires { (0 < self.depth) × (self.depth ≤ 32) }
        ensures { result ≡ part_of self }
    {
        let i = usize::from(self.depth) - 1;
        Part {
            kind: self.parts[i],
            field: self.fields[i],
            start: self.starts[i],
        }
    }

    // The innermost open part, where it can be one that a call left: it begins behind its length and within the build.
    #[tactic(auto, unfolding(crate::specs::Building::is_part))]
    fn left_part(self) -> Option<Part>
        requires { 0 < self.depth }
        ensures { result ≡ cond (is_part self) (Some (part_of self)) None }
    {
        if self.depth > MOST {
            return None;
        }
        let part = self.innermost();
        let behind_length = usize::from(part.field) + 4 <= usize::from(part.start);
        if part.kind <= LAST_PART && behind_length && part.start <= self.length {
            Some(part)
        } else {
            None
        }
    }

    #[tactic(auto, unfolding(crate::specs::Building::takes_code))]
    pub(crate) fn takes_code(self) -> bool
        ensures { result ≡ takes_code self }
    {
        if self.depth == 0 {
            return self.length == 0;
        }
        match self.left_part() {
            Some(part) => part.kind == CODES || part.start == self.length,
            None => false,
        }
    }

    #[tactic(auto, unfolding(crate::specs::Building::takes_close))]
    pub(crate) fn takes_close(self) -> bool
        ensures { result ≡ takes_close self }
    {
        if self.depth == 0 {
            return false;
        }
        match self.left_part() {
            Some(part) => part.kind == CODES || part.start < self.length,
            None => false,
        }
    }

    pub(crate) fn longer(mut self, n: usize) -> Build
        requires { self.length + n ≤ 16384 }
        ensures { result ≡ longer self n }
    {
        self.length = (usize::from(self.length) + n) as u16;
        self
    }

    pub(crate) fn opened(mut self, kind: u8, n: usize) -> Build
        requires { (self.depth < 32) × (self.length + n ≤ 16384) }
        ensures { result ≡ opened kind self n }
    {
        let i = usize::from(self.depth);
        let length = self.length;
        let end = (usize::from(length) + n) as u16;
        self.parts[i] = kind;
        self.fields[i] = length + 1;
        self.starts[i] = end;
        self.depth += 1;
        self.length = end;
        self
    }

    // The true part's place is taken by the false part, whose length stands behind the true part's.
    fn turned(mut self) -> Build
        requires { (0 < self.depth) × (self.depth ≤ 32) × (field_of self + 4 ≤ 16384) }
        ensures { result ≡ turned self }
    {
        let i = usize::from(self.depth) - 1;
        self.parts[i] = LAST_PART;
        self.fields[i] += 4;
        self.starts[i] = self.length;
        self
    }

    fn shut(mut self) -> Build
        requires { 0 < self.depth }
        ensures { result ≡ shut self }
    {
        self.depth -= 1;
        self
    }

    // The build after a close: behind a true part the false part is open, else the structure is complete.
    #[tactic(auto, unfolding(crate::specs::Building::build_after))]
    pub(crate) fn closed(self) -> Build
        requires { Closable self 16384 }
        ensures { result ≡ build_after close self }
    {
        let part = self.innermost();
        if part.kind == TRUE_PART {
            return self.turned();
        }
        self.shut()
    }
}
