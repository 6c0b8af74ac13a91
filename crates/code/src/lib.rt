// Code records: the table of kinds, reading and checking code, and decoding one record.
#![tactic(auto)]

mod kinds;
mod numbers;
mod reader;
mod records;
mod tree;

pub use kinds::{Class, class_of, is_two, operand_count};
pub use numbers::{number2, number4, number8};
pub use reader::{check_code, read_rest};
pub use records::{Form, form_at, memory_at, operand_behind};
pub use tree::{Instruction, Ocmp};
