//! Why two images have no common one.
use thiserror::Error;

/// Why two images have no common relocatable image.
#[derive(Clone, Copy, Debug, PartialEq, Eq, Drop, Error)]
pub enum CompareFault {
    /// This one of the two, 1 or 2, is relocatable.
    #[error("image {which} is not a fixed image")]
    NotFixed {
        which: u8,
    },
    /// Their regions differ in size, or else in the number of bytes in use: these are the two numbers.
    #[error("the images differ in size: {first} and {second} bytes")]
    SizesDiffer {
        first: u64,
        second: u64,
    },
    /// They have the same data base or the same code base.
    #[error("the images have a base in common")]
    SamePair,
    /// No plain number, offset or tag gives both values of the cell at this offset.
    #[error("nothing explains the values of the cell at {offset}: {first:#018x} and {second:#018x}")]
    Cell {
        offset: u32,
        first: u64,
        second: u64,
    },
    /// The allocator has no memory for the image.
    #[error("out of memory")]
    NoMemory,
}
