// Quads of xmms, set and read back, beside those that stay.

use machine::{set_xmm, xmm_at};
use stored::Tally;
use words::Quad32;

const ZERO: Quad32 = Quad32 {
    lo0: 0,
    lo1: 0,
    hi2: 0,
    hi3: 0,
};

const LOW: Quad32 = Quad32 {
    lo0: 1,
    lo1: 2,
    hi2: 3,
    hi3: 4,
};

const HIGH: Quad32 = Quad32 {
    lo0: 4294967295,
    lo1: 4294967294,
    hi2: 4294967293,
    hi3: 4294967292,
};

pub fn xmms() -> Tally {
    let mut tally = Tally::new();
    let mut all = [0u32; 64];
    set_xmm(&mut all, 0, LOW);
    set_xmm(&mut all, 7, LOW);
    set_xmm(&mut all, 15, HIGH);
    set_xmm(&mut all, 7, HIGH);
    tally.count(xmm_at(&all, 0) == LOW);
    tally.count(xmm_at(&all, 1) == ZERO);
    tally.count(xmm_at(&all, 6) == ZERO);
    tally.count(xmm_at(&all, 7) == HIGH);
    tally.count(xmm_at(&all, 8) == ZERO);
    tally.count(xmm_at(&all, 14) == ZERO);
    tally.count(xmm_at(&all, 15) == HIGH);
    tally.count(all[3] == 4);
    tally.count(all[28] == 4294967295);
    tally.count(all[63] == 4294967292);
    tally
}
