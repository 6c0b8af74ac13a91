// What a run is lent and told, and what stays as it is while it runs: behind one reference, so that a call hands on one word.
ghost use Rattle.machine.specs.Cells.{Searchable};

use crate::answer::Evaluation;

#[derive(Clone, Copy)]
pub struct Lent<'a> {
    pub code: &'a [u8],
    // The cells' addresses and tags, two lists as C lends them; their values, which a run changes, are lent beside.
    // So the contracts have a clause `long`, that there are as many values: docs/DECISIONS.md, "What a run keeps stands behind one reference".
    pub addresses: &'a [u64],
    pub tags: &'a [u8],
    pub fill: u64,
    pub limit: u64,
    pub evaluation: Evaluation,
    pub ghost searchable: { Searchable addresses.now tags.now },
}
