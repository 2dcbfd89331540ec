//! Builds: the sources are interpreted from the seed on, and their region becomes an image.
#![tactic(auto)]

mod building;
mod course;
mod fixed;
mod images;
mod origin;
mod putting;
mod steps;

pub use fixed::{build_fixed, build_fixed_gathered};
pub use mi_reloc::{BuildFault, Made, Settings, Sources};
pub use origin::{build, build_gathered};
