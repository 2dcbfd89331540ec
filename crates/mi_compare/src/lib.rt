//! The common relocatable image of two fixed ones.
#![tactic(auto)]

mod common;
mod fault;
mod meaning;

pub use common::compare;
pub use fault::CompareFault;
