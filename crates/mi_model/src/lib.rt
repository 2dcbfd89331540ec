//! The definitions that every other crate speaks of: data types here, and their meaning in `specs/`.
#![tactic(auto)]

/// The bases of an allowed pair are multiples of this number, so they don't show in what is below it.
pub const GRID: u64 = 4096;

/// A multiple of `GRID` times this number is 0 modulo 2^64, so a form's a and b count only modulo it.
pub const WRAP: u64 = 0x10_0000_0000_0000;

/// Where an image stands: the address of the region, and the address of the code table.
#[derive(Clone, Copy, Debug, PartialEq, Eq, Drop)]
pub struct Pair {
    /// The data base D.
    pub d: u64,
    /// The code base K.
    pub k: u64,
}

/// An origin form: it stands for a·D + b·K + c modulo 2^64 at each base pair.
#[derive(Clone, Copy, Debug, PartialEq, Eq, Drop)]
pub struct Form {
    pub a: u64,
    pub b: u64,
    pub c: u64,
}

/// A byte that knows its origin.
#[derive(Clone, Copy, Debug, PartialEq, Eq, Drop)]
pub enum OriginByte {
    /// A byte that is the same at every base pair.
    Plain(u8),
    /// Byte `index` of the value of a form; the lowest is byte 0.
    Part { form: Form, index: u8 },
}

/// Why an arithmetic has no answer to an operation.
#[derive(Clone, Copy, Debug, PartialEq, Eq, Drop)]
pub enum Why {
    /// The plain answers at these two pairs differ.
    Undecided { first: Pair, second: Pair },
    Far,
    Mask,
    Shift,
    Multiply,
    Divide,
    Byte,
    Count,
}

/// An operation that an arithmetic refused: its operands, and why.
#[derive(Clone, Copy, Debug, PartialEq, Eq, Drop)]
pub struct Refusal {
    pub first: Form,
    pub second: Form,
    pub why: Why,
}

/// Why a division has no quotient.
#[derive(Clone, Copy, Debug, PartialEq, Eq, Drop)]
pub enum DivFault {
    ByZero,
    OutOfRange,
}

/// What ends a call on a state in place of an answer.
#[derive(Clone, Copy, Debug, PartialEq, Eq, Drop)]
pub enum Fault {
    /// A Forth exception, by its throw code.
    Throw(i64),
    /// An operation that the arithmetic refused.
    Refused { first: Form, second: Form, why: Why },
    NoMemory,
}

impl From<Refusal> for Fault {
    ghost use Rattle.std.specs.Prelude.{◌≡◌};
    ghost use Rattle.mi_model.specs.declared.Fault.TheVariants.{Refused};

    ghost from_gives = { λ r f. f ≡ Refused r.first r.second r.why };

    fn from(r: Refusal) -> Fault {
        Fault::Refused {
            first: r.first,
            second: r.second,
            why: r.why,
        }
    }
}

/// A base that a number text needs isn't from 2 to 36.
#[derive(Clone, Copy, Debug, PartialEq, Eq, Drop)]
pub struct BadBase;

/// What an escape in the text of `S\"` stands for.
#[derive(Clone, Copy, Debug, PartialEq, Eq, Drop)]
pub enum Escaped {
    /// This byte.
    One(u8),
    /// A CR and an LF.
    CrLf,
    /// The byte of the two hexadecimal digits behind it.
    Hex,
}

/// The eight bytes of a cell, the lowest first.
#[derive(Clone, Copy, Debug)]
pub struct Eight<B> {
    pub b0: B,
    pub b1: B,
    pub b2: B,
    pub b3: B,
    pub b4: B,
    pub b5: B,
    pub b6: B,
    pub b7: B,
}

/// What a machine waits for.
#[derive(Clone, Copy, Debug)]
pub enum Wait<C> {
    /// It doesn't wait.
    Idle,
    /// A line for the text interpreter.
    Line,
    /// A line for `REFILL`.
    Refill,
    /// A line for `ACCEPT`, of which at most `count` bytes go to the address.
    Accept { address: C, count: u64 },
}

/// A text in the region: its offset, and its length in bytes.
#[derive(Clone, Copy, Debug, PartialEq, Eq, Drop)]
pub struct Span {
    pub place: u32,
    pub length: u32,
}

/// A token whose tag was found: its offset in the region, and the tag.
#[derive(Clone, Copy, Debug, PartialEq, Eq, Drop)]
pub struct Token {
    pub offset: u32,
    pub tag: u8,
}

/// A word that a lookup found: the offset of its execution token, and two flags of its header.
#[derive(Clone, Copy, Debug, PartialEq, Eq, Drop)]
pub struct Word {
    pub token: u32,
    pub immediate: bool,
    pub compile_only: bool,
}

/// Where a header is laid: its offset, and the offset of the cell with the head of the wordlist that takes it.
#[derive(Clone, Copy, Debug, PartialEq, Eq, Drop)]
pub struct HeaderPlace {
    pub header: u32,
    pub list: u32,
}

/// What an instruction does beside its change of the state.
#[derive(Clone, Copy, Debug, PartialEq, Eq, Drop)]
pub enum Effect {
    /// Nothing.
    Went,
    /// It emits a byte.
    Emit(u8),
    /// It wants a line.
    Want,
    /// It halts the machine.
    Halt,
}

/// How the finish of a build ended.
#[derive(Clone, Copy, Debug, PartialEq, Eq, Drop)]
pub enum Finished {
    /// The region is ready; `used` is the offset behind its last cell that is in use.
    Ready { used: u32 },
    /// The entry name is not in the search order.
    NoEntry,
}

/// A line of a text: its bytes run from `start` to before `end`, and the next line begins at `next`.
#[derive(Clone, Copy, Debug, PartialEq, Eq, Drop)]
pub struct Line {
    pub start: usize,
    pub end: usize,
    pub next: usize,
}

/// What stands in a cell of a region that no cell of an image gives at every pair.
#[derive(Clone, Copy, Debug, PartialEq, Eq, Drop)]
pub enum Found {
    /// A form that is neither a number nor the address of an offset or of a tag's code.
    Form(Form),
    /// Bytes that aren't those of one form in order.
    Mixed,
}

/// What an image may be loaded at: any allowed pair, or its own alone.
#[derive(Clone, Copy, Debug, PartialEq, Eq, Drop)]
pub enum Kind {
    Relocatable,
    Fixed,
}
