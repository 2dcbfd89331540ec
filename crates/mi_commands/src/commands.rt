//! The commands of the program, each in a file of its own.

pub mod build;
pub mod run;
