//! Runs: an image is loaded at a pair of base addresses, and interprets its input.
#![tactic(auto)]

mod buffer;
mod course;
mod line;
mod lines;
mod recovery;
mod running;

pub use mi_reloc::RunEnd;
pub use running::{run, run_gathered};
