//! The kernel: the region that every build begins with, and the text that a build interprets before its sources.
#![tactic(auto)]

mod kernel;
mod text;

pub use kernel::seed;
pub use text::prelude;
