//! The arithmetic that a machine runs over: what cells and bytes are, and the operations on them.
#![tactic(auto)]

ghost use Rattle.std.specs.Prelude.{◌≡◌, ℕ, Bool, ◌<◌, ◌^◌, ◌≤◌};
ghost use Rattle.mi_model.specs.Ops.{Ops};
ghost use Rattle.mi_model.specs.Ops.Two.{Add, Sub, Mul, And, Or, Xor, LeftShift, RightShift};
ghost use Rattle.mi_model.specs.Ops.One.{Negate, Invert, Half};
ghost use Rattle.mi_model.specs.Ops.Test.{Equal, Less, Below};
ghost use Rattle.mi_model.specs.Ops.Division.{Unsigned, Symmetric, Floored};
ghost use Rattle.mi_model.specs.declared.Pair.{Pair};
ghost use Rattle.mi_model.specs.Plain.{plain_ops};
ghost use Rattle.mi_model.specs.Stands.{Simulates};
ghost use Rattle.mi_model.specs.Offsets.{KeepsOffsets};

mod forms;
mod laws;
mod origin;
mod parts;
mod plain;

pub use laws::{
    actions_agree, builds_agree, chains_are_resolved, marker_goes_through, markers_restore,
    runs_agree, unknown_tokens_throw, writes_leave_other_bytes,
};
pub use mi_model::{DivFault, Eight, Form, OriginByte, Pair, Refusal, Why};
pub use origin::Origin;
pub use plain::Plain;

/// The operations on cells and bytes that instructions are made of.
///
/// Each call answers what the record `ops` says of its operation, and takes no memory. An operation to which the
/// arithmetic has no answer is a `Refusal`, which has its operands and the reason.
pub trait Arith: Copy {
    type Cell: Copy;

    type Byte: Copy;

    /// Whether keeping a cell in a region may take memory.
    const GROWS: bool;

    ghost GROWS: { Bool };

    /// The size of the region, in bytes.
    ghost size: { Self → ℕ };

    /// What each call answers.
    ghost ops: { Self → Ops Self.Cell Self.Byte };

    /// The base pairs that the arithmetic speaks of.
    ghost covers: { Self → Pair → Type 0 };

    /// A cell stands for a number at a pair.
    ghost stands: { Self → Self.Cell → Pair → ℕ → Type 0 };

    /// A byte stands for a number at a pair.
    ghost byte_stands: { Self → Self.Byte → Pair → ℕ → Type 0 };

    /// The cell of a number.
    fn plain(&self, n: u64) -> Self::Cell
        ensures { result ≡ (ops self.now).plain n };

    /// The address of an offset of the region.
    fn region_cell(&self, offset: u64) -> Self::Cell
        ensures { result ≡ (ops self.now).region_cell offset };

    /// The address of a tag's code.
    fn code_cell(&self, tag: u8) -> Self::Cell
        ensures { result ≡ (ops self.now).code_cell tag };

    fn add(&self, x: Self::Cell, y: Self::Cell) -> Result<Self::Cell, Refusal>
        ensures { result ≡ (ops self.now).two Add x y };

    fn sub(&self, x: Self::Cell, y: Self::Cell) -> Result<Self::Cell, Refusal>
        ensures { result ≡ (ops self.now).two Sub x y };

    fn mul(&self, x: Self::Cell, y: Self::Cell) -> Result<Self::Cell, Refusal>
        ensures { result ≡ (ops self.now).two Mul x y };

    fn and(&self, x: Self::Cell, y: Self::Cell) -> Result<Self::Cell, Refusal>
        ensures { result ≡ (ops self.now).two And x y };

    fn or(&self, x: Self::Cell, y: Self::Cell) -> Result<Self::Cell, Refusal>
        ensures { result ≡ (ops self.now).two Or x y };

    fn xor(&self, x: Self::Cell, y: Self::Cell) -> Result<Self::Cell, Refusal>
        ensures { result ≡ (ops self.now).two Xor x y };

    /// Shifts by 64 bits and more give 0.
    fn lshift(&self, x: Self::Cell, y: Self::Cell) -> Result<Self::Cell, Refusal>
        ensures { result ≡ (ops self.now).two LeftShift x y };

    /// Shifts by 64 bits and more give 0.
    fn rshift(&self, x: Self::Cell, y: Self::Cell) -> Result<Self::Cell, Refusal>
        ensures { result ≡ (ops self.now).two RightShift x y };

    fn negate(&self, x: Self::Cell) -> Result<Self::Cell, Refusal>
        ensures { result ≡ (ops self.now).one Negate x };

    fn invert(&self, x: Self::Cell) -> Result<Self::Cell, Refusal>
        ensures { result ≡ (ops self.now).one Invert x };

    /// Half of a signed number, rounded down.
    fn half(&self, x: Self::Cell) -> Result<Self::Cell, Refusal>
        ensures { result ≡ (ops self.now).one Half x };

    /// The product of two unsigned numbers as a double: its low half and its high half.
    fn um_mul(&self, x: Self::Cell, y: Self::Cell) -> Result<(Self::Cell, Self::Cell), Refusal>
        ensures { result ≡ (ops self.now).product x y };

    /// The remainder and the quotient of an unsigned double by an unsigned number.
    fn um_div(
        &self,
        low: Self::Cell,
        high: Self::Cell,
        by: Self::Cell,
    ) -> Result<Result<(Self::Cell, Self::Cell), DivFault>, Refusal>
        ensures { result ≡ (ops self.now).divide Unsigned low high by };

    /// The remainder and the quotient of a signed double by a signed number, the quotient cut towards zero.
    fn sm_div(
        &self,
        low: Self::Cell,
        high: Self::Cell,
        by: Self::Cell,
    ) -> Result<Result<(Self::Cell, Self::Cell), DivFault>, Refusal>
        ensures { result ≡ (ops self.now).divide Symmetric low high by };

    /// The remainder and the quotient of a signed double by a signed number, the quotient rounded down.
    fn fm_div(
        &self,
        low: Self::Cell,
        high: Self::Cell,
        by: Self::Cell,
    ) -> Result<Result<(Self::Cell, Self::Cell), DivFault>, Refusal>
        ensures { result ≡ (ops self.now).divide Floored low high by };

    fn equal(&self, x: Self::Cell, y: Self::Cell) -> Result<bool, Refusal>
        ensures { result ≡ (ops self.now).test Equal x y };

    /// Whether x is less than y, as signed numbers.
    fn less(&self, x: Self::Cell, y: Self::Cell) -> Result<bool, Refusal>
        ensures { result ≡ (ops self.now).test Less x y };

    /// Whether x is less than y, as unsigned numbers.
    fn below(&self, x: Self::Cell, y: Self::Cell) -> Result<bool, Refusal>
        ensures { result ≡ (ops self.now).test Below x y };

    /// The offset of an address in the region, from 0 to its size; None where it isn't such an address.
    fn place(&self, x: Self::Cell) -> Result<Option<u32>, Refusal>
        ensures { result ≡ (ops self.now).place x };

    /// The tag whose code stands at an address; None where none does.
    fn tag(&self, x: Self::Cell) -> Result<Option<u8>, Refusal>
        ensures { result ≡ (ops self.now).tag x };

    /// The cell as a count.
    fn number(&self, x: Self::Cell) -> Result<u64, Refusal>
        ensures { result ≡ (ops self.now).number x };

    fn byte(&self, b: u8) -> Self::Byte
        ensures { result ≡ (ops self.now).byte b };

    /// Byte i of a cell, the lowest first.
    fn cut(&self, x: Self::Cell, i: u8) -> Self::Byte
        requires { i < 8 }
        ensures { result ≡ (ops self.now).cut x i };

    fn value(&self, b: Self::Byte) -> Result<u8, Refusal>
        ensures { result ≡ (ops self.now).value b };

    fn low_byte(&self, x: Self::Cell) -> Result<u8, Refusal>
        ensures { result ≡ (ops self.now).low_byte x };

    /// The cell of eight bytes.
    fn join(&self, b: Eight<Self::Byte>) -> Result<Self::Cell, Refusal>
        ensures { result ≡ (ops self.now).join b };

    /// Each answer stands for the plain answer at each pair that is covered.
    ghost simulates: { (a : Self) (pair : Pair) → covers a pair → Simulates (λ x n. stands a x pair n) (λ b n. byte_stands a b pair n) (ops a) (plain_ops pair (size a)) };

    /// Addresses in the region are in the order of their offsets, and what is added to one is added to its offset.
    ghost offsets: { (a : Self) → size a ≤ 2 ^ 23 → KeepsOffsets (ops a) };
}
