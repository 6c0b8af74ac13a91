// The lines of a printed end, from words and fields.
ghost use Rattle.std.specs.Prelude.{cond, ◌≡◌, [], ◌++◌, ◌+◌, ◌*◌, ◌≤◌, ◌<◌, eqb, length, get_or};
ghost use Rattle.eval.specs.Config.{outcome};
ghost use Rattle.job.specs.Text.{field, newline, word_cell, name_of, line, numbered_line, first_line, reg_lines, xmm_line, xmm_lines, cell_lines};
ghost use Rattle.job.specs.Written.{HasRoom, Wrote};

use crate::text::Page;
use eval::Answer;

// The first eight registers' names behind the R.
const NAMES: [[u8; 2]; 8] = [
    *b"ax", *b"bx", *b"cx", *b"dx", *b"si", *b"di", *b"bp", *b"sp",
];

impl Page<'_> {
    fn put_name(self, i: usize) -> Self
        requires { HasRoom 21 self }
        ensures { Wrote 21 self.entry (name_of i) result }
    {
        let page = self.put_byte(b'R');
        if i < 8 {
            page.put_word(&NAMES[i])
        } else {
            page.put_decimal(i as u64)
        }
    }

    fn put_reg(self, i: usize, value: u64) -> Self
        requires { HasRoom 43 self }
        ensures { Wrote 43 self.entry (cond (eqb value 0) [] (name_of i ++ field value ++ newline)) result }
    {
        if value == 0 {
            return self;
        }
        self.put_name(i).put_field(value).put_byte(b'\n')
    }

    pub fn put_regs(self, regs: &[u64; 16]) -> Self
        requires { HasRoom 688 self }
        ensures { Wrote 688 self.entry (reg_lines 0 regs.now) result }
    {
        let mut page = self;
        for (i, value) in regs.iter().enumerate() {
            page = page.put_reg(i, *value);
        }
        page
    }

    fn put_xmm(self, i: usize, words: [u32; 4]) -> Self
        requires { HasRoom 109 self }
        ensures { Wrote 109 self.entry
            (xmm_line i (get_or words 0 0) (get_or words 1 0) (get_or words 2 0) (get_or words 3 0)) result }
    {
        if words == [0; 4] {
            return self;
        }
        self.put_word(b"xmm")
            .put_field(i as u64)
            .put_field(u64::from(words[0]))
            .put_field(u64::from(words[1]))
            .put_field(u64::from(words[2]))
            .put_field(u64::from(words[3]))
            .put_byte(b'\n')
    }

    // By an index, as the definition goes (`xmm_lines`): the flat array is C's, and its chunks would have to be shown to be its words.
    pub fn put_xmms(self, xmms: &[u32; 64]) -> Self
        requires { HasRoom 1744 self }
        ensures { Wrote 1744 self.entry (xmm_lines 16 0 xmms.now) result }
    {
        let mut page = self;
        for i in 0..16 {
            let lo = 4 * i;
            page = page.put_xmm(i, [xmms[lo], xmms[lo + 1], xmms[lo + 2], xmms[lo + 3]]);
        }
        page
    }

    fn put_cell(self, address: u64, tag: u8, value: u64) -> Self
        requires { HasRoom 68 self }
        ensures { Wrote 51 self.entry (word_cell ++ field address ++ field tag ++ field value ++ newline) result }
    {
        self.put_word(b"cell")
            .put_field(address)
            .put_tag(tag)
            .put_field(value)
            .put_byte(b'\n')
    }

    // Three lists, as `job` is lent them; of one index, since their lengths are the same.
    pub fn put_cells(self, addresses: &[u64], tags: &[u8], values: &[u64]) -> Self
        requires tags_len { (length tags.now ≡ length addresses.now) × (length values.now ≡ length addresses.now) }
        requires addresses_bound { HasRoom (51 * length addresses.now + 68) self }
        ensures { Wrote (51 * length addresses.now) self.entry
            (cell_lines addresses.now tags.now values.now) result }
    {
        let mut page = self;
        for (i, address) in addresses.iter().enumerate() {
            page = page.put_cell(*address, tags[i], values[i]);
        }
        page
    }

    // A word and a number to the end of the line: that of the steps or the flags, or the place that ends a first line.
    pub fn put_line(self, word: &[u8], n: u64) -> Self
        requires { HasRoom (length word.now + 22) self }
        ensures { Wrote (length word.now + 22) self.entry (line word.now n) result }
    {
        self.put_word(word).put_field(n).put_byte(b'\n')
    }

    // The first line of an answer with a number and a place.
    fn put_numbered(self, word: &[u8], number: u8, place: usize) -> Self
        requires room { HasRoom 53 self }
        requires short { length word.now ≤ 7 }
        ensures { Wrote 53 self.entry (numbered_line word.now number place) result }
    {
        self.put_word(word)
            .put_field(u64::from(number))
            .put_line(b" at", place as u64)
    }

    pub fn put_answer(self, answer: Answer) -> Self
        requires { HasRoom 53 self }
        ensures { Wrote 53 self.entry (first_line (outcome answer)) result }
    {
        match answer {
            Answer::Done => self.put_word(b"done\n"),
            Answer::Fault(number, place) => self.put_numbered(b"fault", number, place),
            Answer::Stopped(number, place) => self.put_numbered(b"stopped", number, place),
            Answer::Spent(place) => self.put_word(b"spent").put_line(b" at", place as u64),
            Answer::Refused(number, place) => self.put_numbered(b"refused", number, place),
        }
    }
}
