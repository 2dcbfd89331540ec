//! Bitmaps: which cells are marked, with one bit for each of them.
#![tactic(auto)]

mod bitmap;
mod fault;

pub use bitmap::Bitmap;
pub use fault::BitmapFault;
