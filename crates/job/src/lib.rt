// The job program's work: a job's bytes are read, run, and what is printed is rendered.
#![tactic(auto)]

mod cells;
mod lines;
mod read;
mod render;
mod text;
mod whole;

pub use whole::job;
