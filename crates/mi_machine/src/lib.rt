//! The machine: instructions, lines, and the finish of a build.
#![tactic(auto)]

mod finishing;
mod input;
mod instruction;
mod interpreter;
mod machine;
mod sources;
mod starting;
mod steps;

pub use machine::{Advanced, Machine, Stop};
pub use mi_model::Finished;
pub use steps::{Step, take_end, take_entry, take_finish, take_line, take_recovery, take_step};
