//! Images, and the bytes of their files.
#![tactic(auto)]

mod cells;
mod decoder;
mod fault;
mod file;
mod judge;
mod spell;

pub use cells::Image;
pub use decoder::{Decoder, bytes_tell_images_apart};
pub use fault::{ImageFault, Part};
pub use file::encode;
pub use mi_model::{Kind, Pair};
