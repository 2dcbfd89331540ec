//! How a run of an image ends.

use mi_arith::Pair;

/// How a run of an image ends.
#[derive(Clone, Copy, Debug, PartialEq, Eq, Drop)]
pub enum RunEnd {
    /// It halted, by `BYE` or at the end of its input.
    Bye,
    /// A Forth exception ended the entry word, by its throw code.
    Thrown { code: i64 },
    /// So many instructions were taken, and another one would be needed.
    Spent { turns: u64 },
    /// The input failed.
    ReadFault,
    /// The output failed.
    WriteFault,
    /// The line that it asks for doesn't end within the first 2^30 bytes of an input that is longer.
    InputTooLong,
    /// No image may stand at the pair.
    PairNotAllowed,
    /// The image is a fixed one, of this other pair.
    MadeFor(Pair),
    /// There is no memory for the state or the buffers. Nothing was taken then.
    NoMemory,
}
