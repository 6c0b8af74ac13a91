// Checking cells: document 01's examples and both sides of every rule. The expected answers are by hand, from its list of refusals.

ghost use Rattle.std.specs.Prelude.{◌≤◌, length};

use crate::TOP;
use machine::Refusal;
use stored::Tally;

// The answer that is told: nothing, or a number and an index. Numbers are written out, and not taken from `Rule`, which is tried too.
// The program code_main has its own `told`: the crate that programs share knows no refusals.
pub type Told = Result<(), (u8, usize)>;

pub fn told(checked: Result<(), Refusal>) -> Told {
    checked.map_err(|refusal| (refusal.rule.number(), refusal.place))
}

fn check_cells(addresses: &[u64], tags: &[u8], values: &[u64]) -> Told {
    told(machine::check_cells(addresses, tags, values))
}

// address, tag, value
#[derive(Clone, Copy)]
struct Cell(u64, u8, u64);

// Counts the answers to these pairs of cells.
fn pairs(cases: &[(Cell, Cell, Told)]) -> Tally {
    let mut tally = Tally::new();
    for &(first, second, expected) in cases {
        let addresses = [first.0, second.0];
        let tags = [first.1, second.1];
        let values = [first.2, second.2];
        tally.count(check_cells(&addresses, &tags, &values) == expected);
    }
    tally
}

// Document 01's examples.
pub fn examples() -> Tally {
    pairs(&[
        (Cell(0, 64, 0), Cell(7, 64, 0), Err((15, 1))),
        (Cell(0, 64, 0), Cell(8, 64, 0), Ok(())),
        (Cell(TOP - 15, 64, 0), Cell(TOP - 7, 64, 0), Ok(())),
        (Cell(0, 64, 0), Cell(TOP - 6, 64, 0), Err((15, 1))),
    ])
}

// 13: what is no tag.
pub fn tags() -> Tally {
    pairs(&[
        (Cell(0, 0, 0), Cell(8, 64, 0), Err((13, 0))),
        (Cell(0, 7, 0), Cell(8, 64, 0), Err((13, 0))),
        (Cell(0, 9, 0), Cell(8, 64, 0), Err((13, 0))),
        (Cell(0, 24, 0), Cell(8, 64, 0), Err((13, 0))),
        (Cell(0, 63, 0), Cell(8, 64, 0), Err((13, 0))),
        (Cell(0, 65, 0), Cell(8, 64, 0), Err((13, 0))),
        (Cell(0, 128, 0), Cell(8, 64, 0), Err((13, 0))),
        (Cell(0, 255, 0), Cell(8, 64, 0), Err((13, 0))),
        (Cell(0, 64, 0), Cell(8, 12, 0), Err((13, 1))),
    ])
}

// 14: both sides of 2 to the power of each tag.
pub fn values() -> Tally {
    pairs(&[
        (Cell(0, 8, 255), Cell(8, 8, 256), Err((14, 1))),
        (Cell(0, 8, 0), Cell(8, 8, 255), Ok(())),
        (Cell(0, 16, 65535), Cell(8, 16, 65536), Err((14, 1))),
        (Cell(0, 16, 0), Cell(8, 16, 65535), Ok(())),
        (
            Cell(0, 32, 4294967295),
            Cell(8, 32, 4294967296),
            Err((14, 1)),
        ),
        (Cell(0, 32, 0), Cell(8, 32, 4294967295), Ok(())),
        (Cell(0, 64, TOP), Cell(8, 64, TOP), Ok(())),
        (Cell(0, 8, TOP), Cell(8, 64, 0), Err((14, 0))),
    ])
}

// 15: both sides of the end of the cell before.
pub fn follows() -> Tally {
    pairs(&[
        (Cell(5, 8, 0), Cell(5, 8, 0), Err((15, 1))),
        (Cell(5, 8, 0), Cell(6, 8, 0), Ok(())),
        (Cell(5, 8, 0), Cell(4, 8, 0), Err((15, 1))),
        (Cell(4, 16, 0), Cell(5, 16, 0), Err((15, 1))),
        (Cell(4, 16, 0), Cell(6, 16, 0), Ok(())),
        (Cell(3, 32, 0), Cell(6, 32, 0), Err((15, 1))),
        (Cell(3, 32, 0), Cell(7, 32, 0), Ok(())),
        (Cell(1, 64, 0), Cell(8, 64, 0), Err((15, 1))),
        (Cell(1, 64, 0), Cell(9, 64, 0), Ok(())),
    ])
}

// 15: both sides of the end of the memory, and what follows a cell that ends there.
pub fn ends() -> Tally {
    pairs(&[
        (Cell(0, 8, 0), Cell(TOP, 8, 255), Ok(())),
        (Cell(0, 8, 0), Cell(TOP - 1, 16, 0), Ok(())),
        (Cell(0, 8, 0), Cell(TOP, 16, 0), Err((15, 1))),
        (Cell(0, 8, 0), Cell(TOP - 3, 32, 0), Ok(())),
        (Cell(0, 8, 0), Cell(TOP - 2, 32, 0), Err((15, 1))),
        (Cell(0, 8, 0), Cell(TOP - 7, 64, 0), Ok(())),
        (Cell(0, 8, 0), Cell(TOP - 6, 64, 0), Err((15, 1))),
        (Cell(TOP - 7, 64, 0), Cell(0, 8, 0), Err((15, 1))),
        (Cell(TOP - 7, 64, 0), Cell(TOP, 8, 0), Err((15, 1))),
    ])
}

// The order of the rules, and of the cells.
pub fn orders() -> Tally {
    pairs(&[
        (Cell(0, 64, 0), Cell(0, 9, TOP), Err((13, 1))),
        (Cell(0, 64, 0), Cell(0, 8, 256), Err((14, 1))),
        (Cell(0, 8, 256), Cell(0, 9, 0), Err((14, 0))),
        (Cell(TOP - 6, 64, 0), Cell(0, 9, 0), Err((15, 0))),
    ])
}

// One cell alone at the end of the memory, no cells, and lists that differ in length.
pub fn lengths() -> Tally {
    let mut tally = Tally::new();
    tally.count(check_cells(&[TOP - 7], &[64], &[0]) == Ok(()));
    tally.count(check_cells(&[TOP - 6], &[64], &[0]) == Err((15, 0)));
    let few_tags = check_cells(&[0, 8], &[64], &[0, 0]);
    tally.count(few_tags == Err((11, 0)));
    let many_tags = check_cells(&[0], &[64, 64], &[0]);
    tally.count(many_tags == Err((11, 0)));
    let few_values = check_cells(&[0, 8], &[64, 64], &[0]);
    tally.count(few_values == Err((11, 0)));
    let many_values = check_cells(&[0], &[9], &[0, 0]);
    tally.count(many_values == Err((11, 0)));
    tally
}

// The answer to the first n of 1,025 cells, 8 apart, each with the largest value.
fn first_of_many(n: usize, tag: u8) -> Told
    requires { n ≤ 1025 }
{
    let mut addresses = [0; 1025];
    for (i, address) in addresses.iter_mut().enumerate() {
        *address = 8 * i as u64;
    }
    let tags = [tag; 1025];
    let values = [TOP; 1025];
    check_cells(&addresses[..n], &tags[..n], &values[..n])
}

// No cells and 1,024 are accepted, 1,025 are not, and the values of 1,024 are judged.
pub fn counts() -> Tally {
    let mut tally = Tally::new();
    tally.count(first_of_many(0, 64) == Ok(()));
    tally.count(first_of_many(1024, 64) == Ok(()));
    tally.count(first_of_many(1025, 64) == Err((12, 0)));
    tally.count(first_of_many(1024, 32) == Err((14, 0)));
    tally
}
