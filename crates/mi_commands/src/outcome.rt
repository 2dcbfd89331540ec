//! How a run of the program ends.
ghost use Rattle.std.specs.Prelude.{◌≡◌};
ghost use Rattle.mi_commands.specs.Outcomes.{status_of};
ghost use Rattle.mi_commands.specs.declared.outcome.Outcome.TheVariants.{NoMemory};

use mi_image::{Pair, Part};
use mi_model::{Form, Found, Why};
use std::alloc::AllocError;

/// How a run of the program ends.
///
/// A `file` is 0 for the prelude, and the sources count from 1, as the image of a run does; a `line` counts from 1.
#[derive(Clone, Copy, Debug, PartialEq, Eq, Drop)]
pub enum Outcome {
    /// The image was stored: the bytes in use, and the turns that the build took.
    Built {
        used: u32,
        turns: u64,
    },
    /// An allocation failed.
    NoMemory,
    /// The words are no command.
    Usage,
    /// A file could not be read.
    ReadFault,
    /// There is no such file.
    NoFile {
        file: u32,
    },
    /// A file could not be written.
    WriteFault,
    /// There are more than 64 sources.
    TooManySources {
        count: u64,
    },
    /// A source has more than 4194304 bytes.
    SourceTooLong {
        file: u32,
    },
    /// A line ended in a throw that nothing caught.
    Thrown {
        code: i64,
        file: u32,
        line: u32,
    },
    /// The build had not ended after so many turns.
    Spent {
        turns: u64,
    },
    /// The entry word is not in the search order.
    NoEntry,
    /// An operation has no answer that is right at every base pair: the number of its instruction in the budget that
    /// runs, the last token whose tag was found, the two operands, the reason, and the line.
    Step {
        number: u64,
        offset: u32,
        tag: u8,
        first: Form,
        second: Form,
        why: Why,
        file: u32,
        line: u32,
    },
    /// The first cell in use that no cell of an image gives at every base pair: its offset, in bytes, and what stands there.
    Cell {
        offset: u32,
        found: Found,
    },
    /// The run has ended, by `BYE` or at the end of the input.
    Done,
    /// A part of an image's file isn't allowed: the place of the part, or of the first cell that isn't allowed.
    NotImage {
        file: u32,
        place: u64,
        part: Part,
    },
    /// An image's file ends early: its length.
    Truncated {
        file: u32,
        place: u64,
    },
    /// A number in an image's file is too large.
    TooLarge {
        file: u32,
        part: Part,
        value: u64,
    },
    /// The image is a fixed one, of this other pair.
    MadeFor(Pair),
    /// No image may stand at the pair.
    PairNotAllowed(Pair),
    /// The entry word has thrown.
    EntryThrown {
        code: i64,
    },
    /// A line of the input doesn't end within the first 2^30 bytes of an input that is longer.
    InputTooLong,
}

impl From<AllocError> for Outcome {
    ghost from_gives = { λ _ outcome. outcome ≡ NoMemory };

    fn from(_: AllocError) -> Outcome {
        Outcome::NoMemory
    }
}

impl Outcome {
    /// The exit status of the program.
    pub fn status(&self) -> u8
        ensures { result ≡ status_of self.now }
    {
        match self {
            Outcome::Built { .. } => 0,
            Outcome::NoMemory => 1,
            Outcome::Usage => 2,
            Outcome::ReadFault => 3,
            Outcome::NoFile { .. } => 18,
            Outcome::WriteFault => 4,
            Outcome::TooManySources { .. } => 11,
            Outcome::SourceTooLong { .. } => 11,
            Outcome::Thrown { .. } => 5,
            Outcome::Spent { .. } => 6,
            Outcome::NoEntry => 13,
            Outcome::Step { .. } => 7,
            Outcome::Cell { .. } => 8,
            Outcome::Done => 0,
            Outcome::NotImage { .. } => 9,
            Outcome::Truncated { .. } => 9,
            Outcome::TooLarge { .. } => 9,
            Outcome::MadeFor(_) => 10,
            Outcome::PairNotAllowed(_) => 10,
            Outcome::EntryThrown { .. } => 12,
            Outcome::InputTooLong => 15,
        }
    }
}
