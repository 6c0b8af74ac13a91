// Instructions and comparisons that are given as numbers and arrays, for callers that have no enums.
#![tactic(auto)]

mod operands;
mod values;

pub use operands::Numbers;
pub use values::{comparison_of, instruction_of};
