// Runs every function of `words` on the rows of vectors.rt, whose expected numbers come from
// vectors.py, and writes a line for each: its name and the count of rows that agree, or the first
// row that does not.
#![tactic(auto)]

mod apply;
mod vectors;

use apply::{Pair, apply};
use std::io;
use vectors::Row;

// Whether the function of this name, which is the row's, answers what the row expects.
fn agrees(name: &str, row: &Row) -> bool {
    let [_, x_lo, x_hi, y_lo, y_hi, s, lo, hi] = *row;
    let x = Pair { lo: x_lo, hi: x_hi };
    let y = Pair { lo: y_lo, hi: y_hi };
    apply(name, x, y, s) == Some(Pair { lo, hi })
}

// Reports on the rows of the function `name`, of number op, which come first, and returns the others. After a row that
// differs nothing more is run.
fn report<'a>(rt: &impl Print, name: &str, op: u64, rows: &'a [Row]) -> io::Result<&'a [Row]> {
    let after = rows
        .iter()
        .position(|row| row[0] != op || !agrees(name, row))
        .unwrap_or(rows.len());
    let (agreed, rest) = rows.split_at(after);
    print!(rt; "{name:16} {}", agreed.len())?;
    if agreed.is_empty() {
        println!(rt; " not run")?;
        return Ok(rest);
    }
    match rest.first() {
        Some(row) if row[0] == op => {
            println!(rt; " agree, the next differs")?;
            Ok(&[])
        }
        _ => {
            println!(rt; " ok")?;
            Ok(rest)
        }
    }
}

fn main(rt: HostRuntime) -> io::Result<()> {
    let mut rows = &vectors::ROWS[..];
    for (op, name) in vectors::NAMES.iter().enumerate() {
        rows = report(&rt, name, op as u64, rows)?;
    }
    Ok(())
}
