// What the programs that execute stored cases share: opening stored files, reading their parts, and counting what agrees.
#![tactic(auto)]

mod files;
mod read;
mod tally;

pub use files::{MOST, try_file};
pub use read::read_full;
pub use tally::Tally;
