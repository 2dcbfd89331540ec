//! Bytes that were read ahead.

ghost use Rattle.std.specs.Prelude.{◌≡◌, ◌≤◌, ◌<◌, [], ◌∷◌, Bool, true, false, length, IfSome, IfOk, IsErr, IsTrue, ◌↔◌};
ghost use Rattle.mi_outside.specs.Causes.{HasCause};
ghost use Rattle.mi_run.specs.Lines.{text_of};

use mi_outside::{Failed, Source};
use std::alloc::{AllocError, Global};
use std::marker::Model;

/// How many bytes are read at a time.
const BUFFER_SIZE: usize = 4096;

/// The bytes that were read of a source and not taken yet, seen as their list. All its memory is taken when it is made.
#[derive(Drop)]
pub struct Buffer {
    bytes: Vec<u8>,
    from: usize,
    to: usize,
}

impl Model for Buffer {
    ghost use Rattle.std.specs.Prelude.{List, ℕ, ◌≡◌, ◌≤◌, length, slice_range};

    ghost Value = { List ℕ };

    ghost view = { λ b. slice_range b.bytes.items b.from b.to };

    ghost invariant = { λ b. (b.from ≤ b.to) × (b.to ≤ length b.bytes.items) × (length b.bytes.items ≡ 4096) };
}

impl Buffer {
    /// An empty buffer, or `AllocError` where there is no memory.
    pub fn new(alloc: Global) -> Result<Buffer, AllocError>
        ensures { IfOk result (λ buffer. buffer ≡ []) }
    {
        Ok(Buffer {
            bytes: vec![in alloc; 0; BUFFER_SIZE]?,
            from: 0,
            to: 0,
        })
    }

    /// Reads on where the buffer is empty; answers whether it has a byte then, which it has not at the end of the source.
    /// Answers `Failed` only where the source's count of faults rose; then nothing was read, and the buffer is empty.
    pub fn fill<I: Source>(&mut self, input: &mut I) -> Result<bool, Failed>
        ensures text { text_of self.new (I.left input.new) ≡ text_of self.old (I.left input.old) }
        ensures some { IfOk result (λ some. IsTrue some → 0 < length self.new) }
        ensures end { result ≡ Ok false → IfSome (text_of self.new (I.left input.new)) (λ text. text ≡ []) }
        ensures none_waits { IsErr result → self.new ≡ [] }
        ensures cause { HasCause (I.faults input.old) (I.faults input.new) result }
    {
        if self.from == self.to {
            self.from = 0;
            self.to = 0;
            self.to = input.read(&mut self.bytes)?;
        }
        Ok(self.from < self.to)
    }

    /// Takes the next byte.
    pub fn take(&mut self) -> u8
        requires { 0 < length self.old }
        ensures { self.old ≡ result ∷ self.new }
    {
        let byte = self.bytes[self.from];
        self.from += 1;
        byte
    }
}
