//! What can be wrong with the bytes of a bitmap.
use std::alloc::AllocError;
use thiserror::Error;

/// Why bytes are not taken as a bitmap.
#[derive(Debug, Drop, Error)]
pub enum BitmapFault {
    /// There are more or fewer bytes than the cells need.
    #[error("the bitmap has a wrong length")]
    WrongLength,
    /// A bit behind the last cell is set.
    #[error("a spare bit of the bitmap is set")]
    SpareBits,
    /// Memory was refused.
    #[error("no memory")]
    NoMemory,
}

impl From<AllocError> for BitmapFault {
    ghost use Rattle.std.specs.Prelude.{◌≡◌};
    ghost use Rattle.mi_bitmap.specs.declared.fault.BitmapFault.TheVariants.{NoMemory};

    ghost from_gives = { λ _ fault. fault ≡ NoMemory };

    fn from(_error: AllocError) -> BitmapFault {
        BitmapFault::NoMemory
    }
}
