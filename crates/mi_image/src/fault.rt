//! What can be wrong with the bytes of an image's file.
use std::alloc::AllocError;
use thiserror::Error;

/// A part of an image's file, in the order of the file.
#[derive(Clone, Copy, Debug, PartialEq, Eq, Drop)]
pub enum Part {
    /// The text that a file begins with.
    Magic,
    /// The number of the kind.
    Kind,
    /// The size of the region.
    Size,
    /// How many bytes of the region the file has.
    Used,
    /// The data base.
    BaseD,
    /// The code base.
    BaseK,
    /// The cells in use.
    Cells,
    /// Which cells are marked.
    Bitmap,
    /// What is behind the last part: nothing.
    End,
}

/// Why bytes are not taken as an image's file. Places count in bytes from the start of the file.
#[derive(Clone, Copy, Debug, PartialEq, Eq, Drop, Error)]
pub enum ImageFault {
    /// A part isn't allowed: the place where it begins, of the bitmap the place of its last byte,
    /// and of the cells the place of the first that isn't allowed.
    #[error("no image at {place}")]
    NotImage { place: u64, part: Part },
    /// The file ends before its end: its length.
    #[error("ends at {place}")]
    Truncated { place: u64 },
    /// The size is above the greatest one, or used is above the size.
    #[error("too large {value}")]
    TooLarge { part: Part, value: u64 },
    /// Memory was refused.
    #[error("no memory")]
    NoMemory,
}

impl From<AllocError> for ImageFault {
    ghost use Rattle.std.specs.Prelude.{◌≡◌};
    ghost use Rattle.mi_image.specs.declared.fault.ImageFault.TheVariants.{NoMemory};

    ghost from_gives = { λ _ fault. fault ≡ NoMemory };

    fn from(_error: AllocError) -> ImageFault {
        ImageFault::NoMemory
    }
}
