// The page that is printed on: bytes, words and decimal numbers behind what stands there. By hand, and not by `write!`: the code of the
// library crates is to stay small (docs/COST.md), and has none of the library's formatting in it. A word is bytes, as the definitions have it.
ghost use Rattle.std.specs.Prelude.{◌≡◌, ◌<◌, ◌+◌, ◌/◌, ◌%◌, [], ◌∷◌, length};
ghost use Rattle.job.specs.Text.{decimal, field};
ghost use Rattle.job.specs.Written.{HasRoom, Wrote};

/// A lent buffer, and where the next byte goes: the text so far stands before it. Each writer takes the page and hands it on, so that
/// both stay in registers.
#[derive(Drop)]
pub struct Page<'a> {
    out: &'a mut [u8; 65536],
    at: usize,
}

impl<'a> Page<'a> {
    pub fn new(out: &'a mut [u8; 65536]) -> Self
        ensures same_reference { result.out.ghost_name ≡ out.entry.ghost_name }
        ensures bytes { result.out.now ≡ out.old }
        ensures size { length result.out.now ≡ 65536 }
        ensures blank { result.at ≡ 0 }
    {
        Page { out, at: 0 }
    }

    pub fn len(&self) -> usize
        ensures { result ≡ self.now.at }
    {
        self.at
    }

    pub fn put_byte(self, byte: u8) -> Self
        requires { HasRoom 1 self }
        ensures { Wrote 1 self.entry (byte ∷ []) result }
    {
        let Page { out, at } = self;
        out[at] = byte;
        Page { out, at: at + 1 }
    }

    pub fn put_word(self, word: &[u8]) -> Self
        requires { HasRoom (length word.now) self }
        ensures { Wrote (length word.now) self.entry word.now result }
    {
        let mut page = self;
        for byte in word {
            page = page.put_byte(*byte);
        }
        page
    }

    // Both digits of a number below 100, also where the first is 0.
    fn put_two_digits(self, n: u64) -> Self
        requires below_100 { n < 100 }
        requires room { HasRoom 2 self }
        ensures { Wrote 2 self.entry ((48 + n / 10) ∷ (48 + n % 10) ∷ []) result }
    {
        self.put_byte(b'0' + (n / 10) as u8)
            .put_byte(b'0' + (n % 10) as u8)
    }

    // Two digits at a time, which is half the calls: those before the last two are the digits of a hundredth of n.
    pub fn put_decimal(self, n: u64) -> Self
        requires { HasRoom 20 self }
        ensures { Wrote 20 self.entry (decimal n) result }
    {
        if n < 10 {
            return self.put_byte(b'0' + n as u8);
        }
        if n < 100 {
            return self.put_two_digits(n);
        }
        self.put_decimal(n / 100).put_two_digits(n % 100)
    }

    pub fn put_field(self, n: u64) -> Self
        requires { HasRoom 21 self }
        ensures { Wrote 21 self.entry (field n) result }
    {
        self.put_byte(b' ').put_decimal(n)
    }

    // A cell's tag takes three digits at most, which keeps 1,024 cells within the buffer.
    pub fn put_tag(self, tag: u8) -> Self
        requires { HasRoom 21 self }
        ensures { Wrote 4 self.entry (field tag) result }
    {
        self.put_field(u64::from(tag))
    }
}
