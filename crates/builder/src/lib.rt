// A builder for code records: calls open structures, add instructions and close, and the lengths are filled in.
#![tactic(auto)]

mod build;
mod calls;
mod record;
mod refusal;
mod write;

pub use build::{Build, begin};
pub use calls::{add, close, open_block, open_if_else, open_while};
pub use refusal::BuildRefusal;
