// Running: the evaluator of accepted code over lent cells.
#![tactic(auto)]

mod answer;
mod arithmetic;
mod comparison;
mod counted;
mod cycle;
mod exit;
mod instruction;
mod lanes;
mod lent;
mod operand;
mod products;
mod running;
mod step;
mod twos;

pub use answer::{Answer, Evaluation, Run, Setting, Watch};
pub use running::{evaluate, run};
