//! What a build is made with, and what it answers.

use mi_image::Image;
use mi_model::{Form, Found, Why};
use std::alloc::AllocError;
use thiserror::Error;

/// The settings of a build: the name of its entry word or none, the size of its region in bytes, and how many
/// instructions its sources may take.
#[derive(Clone, Copy)]
pub struct Settings<'a> {
    pub entry: Option<&'a [u8]>,
    pub size: u32,
    pub turns: u64,
}

/// What a build has made: its image, and how many instructions its sources took.
#[derive(Drop)]
pub struct Made {
    pub image: Image,
    pub turns: u64,
}

/// Why a build has made no image. Files and lines count from 1; file 0 is the prelude.
#[derive(Clone, Copy, Debug, PartialEq, Eq, Drop, Error)]
pub enum BuildFault {
    /// A Forth exception, by its throw code, in a line of a file.
    #[error("throw {code} in line {line} of file {file}")]
    Thrown {
        code: i64,
        file: u32,
        line: u32,
    },
    /// The budget of so many instructions was not enough.
    #[error("the build has not ended after {turns} instructions")]
    Spent {
        turns: u64,
    },
    /// An operation has no answer that is right at every base pair: the number of its instruction in the budget that
    /// runs, the last token whose tag was found, the two operands, the reason, and the line.
    #[error("instruction {number} has no answer that is right at every base pair, in line {line} of file {file}")]
    Step {
        number: u64,
        offset: u32,
        tag: u8,
        first: Form,
        second: Form,
        why: Why,
        file: u32,
        line: u32,
    },
    /// The entry word is not in the search order.
    #[error("the entry word is not in the search order")]
    NoEntry,
    /// The first cell in use that no cell of an image gives at every base pair: its offset, and what stands there.
    #[error("the cell at offset {offset:#x} is no number, no address in the region and no address of a tag's code")]
    Cell {
        offset: u32,
        found: Found,
    },
    /// The output failed.
    #[error("the output failed")]
    WriteFault,
    /// The allocator has no memory for the region or the image.
    #[error("out of memory")]
    NoMemory,
}

impl From<AllocError> for BuildFault {
    ghost use Rattle.std.specs.Prelude.{◌≡◌};
    ghost use Rattle.mi_reloc.specs.declared.building.BuildFault.TheVariants.{NoMemory};

    ghost from_gives = { λ _ fault. fault ≡ NoMemory };

    fn from(_: AllocError) -> BuildFault {
        BuildFault::NoMemory
    }
}
