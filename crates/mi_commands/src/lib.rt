//! The commands of the program: its words and options, the sources, their build, the file, the run of an image, the
//! report.
#![tactic(auto)]

mod building;
mod command_line;
mod commands;
mod decoding;
mod lines;
mod numbers;
mod options;
mod outcome;
mod reading;
mod refusing;
mod report;
mod sources;
mod storing;
mod top;
mod writing;

pub use outcome::Outcome;
pub use top::gforthmi;
