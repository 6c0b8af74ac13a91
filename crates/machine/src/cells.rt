// The lent cells: checking them, and finding the 64-bit cell at an address.
// They are three lists, as C lends them, and no list of structs: docs/DECISIONS.md, "Cells are three lists".

ghost use Rattle.std.specs.Prelude.{◌≡◌, ℕ, ◌+◌, ◌-◌, ◌/◌, ◌^◌, ◌<◌, length, drop, pos, if◌then◌else◌, slice_index};
ghost use Rattle.machine.specs.Operands.{RightFields, eval_maddr};
ghost use Rattle.machine.specs.Wide.{number};
ghost use Rattle.machine.specs.Rules.{broken};
ghost use Rattle.machine.specs.Cells.{verdict, check_cells, check_from, cell_rule, is_tag, SameLengths, Ascending, Part, Searchable, index_of, find_cell, leads, led_to};

use crate::addressing::operand_address;
use crate::refusal::{Refusal, Rule};
use crate::wide::{Wide, is_below, plus};
use crate::{Maddr, NoCell};

// The tag of a 64-bit cell. A tag is a byte that C lends, any of the 256, and no enum (`pokchrei_check_cells`).
const WORD: u8 = 64;

// The largest value of a cell with this tag, if it is one.
#[tactic(auto, using(crate::proofs::CellLaws::no_tag), unfolding(crate::specs::Cells::is_tag))]
fn largest(tag: u8) -> Option<u64>
    ensures { result ≡ (if is_tag tag then Some (2 ^ tag - 1) else None) }
{
    match tag {
        8 => Some(0xff),
        16 => Some(0xffff),
        32 => Some(0xffff_ffff),
        64 => Some(u64::MAX),
        _ => None,
    }
}

// Where a cell ends, which may be 2^64.
fn end(address: u64, tag: u8) -> Wide
    ensures { number result ≡ address + tag / 8 }
{
    plus(Wide::from(address), (tag / 8) as u64)
}

// The first rule that a cell breaks, where the cell before it ends at `last`.
fn broken_rule(last: Wide, address: u64, tag: u8, value: u64) -> Option<Rule>
    ensures { broken result ≡ cell_rule (number last) address tag value }
{
    let Some(top) = largest(tag) else {
        return Some(Rule::Tag);
    };
    if top < value {
        return Some(Rule::Value);
    }
    let bytes = (tag / 8) as u64;
    if is_below(address, last) || u64::MAX - address < bytes - 1 {
        return Some(Rule::Order);
    }
    None
}

// The cells from the index `from` on, where the cell before ends at `last`: from there on that end is a running value. A range and no
// chain over the three lists: it begins at any index, and its index is the place of a refusal.
pub fn check_from(
    addresses: &[u64],
    tags: &[u8],
    values: &[u64],
    from: usize,
    last: Wide,
) -> Result<(), Refusal>
    requires { SameLengths addresses.now tags.now values.now }
    ensures { verdict result ≡ check_from from (number last)
        (drop from addresses.now) (drop from tags.now) (drop from values.now) }
{
    let mut last = last;
    for place in from..addresses.len() {
        let address = addresses[place];
        let tag = tags[place];
        if let Some(rule) = broken_rule(last, address, tag, values[place]) {
            return Err(rule.at(place));
        }
        last = end(address, tag);
    }
    Ok(())
}

// Ok, or the rule that is broken and the index of the cell that breaks it.
pub fn check_cells(addresses: &[u64], tags: &[u8], values: &[u64]) -> Result<(), Refusal>
    ensures { verdict result ≡ check_cells addresses.now tags.now values.now }
{
    if tags.len() != addresses.len() || values.len() != addresses.len() {
        return Err(Rule::Lists.at(0));
    }
    if addresses.len() > 1024 {
        return Err(Rule::Count.at(0));
    }
    check_from(addresses, tags, values, 0, Wide::from(0))
}

// The one index where an address can stand, before `above`: halves the part that is left, one comparison each. Both ends move,
// so that this is compiled to a branch, which a kernel's loop makes predictable, and not to a chain of conditional moves: in the
// library's `binary_search` one end moves, and the other follows. Which is
// quicker was not measured with today's compiler; the library's also tells what is not found from what is, which nothing here asks.
fn only_place(addresses: &[u64], address: u64, above: usize) -> usize
    requires ascending { Ascending addresses.now }
    requires part { Part addresses.now address 0 above }
    ensures upper_bound { result < length addresses.now }
    ensures by_index { (k : ℕ) → k < length addresses.now → slice_index addresses.now k ≡ address → k ≡ result }
{
    let mut low = 0;
    let mut high = above;
    while 1 < high - low {
        let middle = low + (high - low) / 2;
        if addresses[middle] <= address {
            low = middle;
        } else {
            high = middle;
        }
    }
    low
}

// The one index where an address can stand. Cells are mostly 64-bit words in a row, so that place is looked at first. Where the
// cell there begins above the address, the search ends with it.
fn place_of(addresses: &[u64], address: u64) -> usize
    requires { (0 < length addresses.now) × Ascending addresses.now }
    ensures upper_bound { result < length addresses.now }
    ensures by_index { (k : ℕ) → k < length addresses.now → slice_index addresses.now k ≡ address → k ≡ result }
{
    let mut above = addresses.len();
    let guess = address.wrapping_sub(addresses[0]) / 8;
    if guess < addresses.len() as u64 {
        let at = guess as usize;
        if addresses[at] == address {
            return at;
        }
        if address < addresses[at] {
            above = at + 1;
        }
    }
    only_place(addresses, address, above)
}

// The index of the 64-bit cell at an address. Of 1,024 cells it looks at 13 addresses at most, at 3 where the first look is right,
// and at one tag at most.
pub fn find_cell(addresses: &[u64], tags: &[u8], address: u64) -> Option<usize>
    requires { Searchable addresses.now tags.now }
    ensures { index_of result ≡ find_cell addresses.now tags.now (pos address) }
{
    if addresses.is_empty() {
        return None;
    }
    let at = place_of(addresses, address);
    if addresses[at] == address && tags[at] == WORD {
        Some(at)
    } else {
        None
    }
}

// The 64-bit cell of a memory operand, or why it has none. Its address is worked out here, once for whoever reads or writes it.
pub fn cell_of(m: Maddr, regs: &[u64; 16], addresses: &[u64], tags: &[u8]) -> Result<usize, NoCell>
    requires right_fields { RightFields m }
    requires searchable { Searchable addresses.now tags.now }
    ensures { led_to result ≡ leads addresses.now tags.now (eval_maddr m regs.now) }
{
    let word = operand_address(m, regs).ok_or(NoCell::Wild)?;
    find_cell(addresses, tags, word).ok_or(NoCell::Absent)
}
