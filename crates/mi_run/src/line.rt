//! A line that is being read.

ghost use Rattle.std.specs.Prelude.{◌≡◌, [], ◌∷◌, ◌++◌, take, IfOk, IsTrue, ◌↔◌};
ghost use Rattle.mi_text.specs.Ending.{without_last_cr};

use std::alloc::{AllocError, Global};
use std::marker::Model;

/// How many bytes of a line are kept: one more than a machine takes, and a CR.
const LINE_ROOM: usize = 1022;

/// The first 1,022 bytes of a line, seen as their list. All its memory is taken when it is made.
#[derive(Drop)]
pub struct LineBytes {
    bytes: Vec<u8>,
    count: usize,
}

impl Model for LineBytes {
    ghost use Rattle.std.specs.Prelude.{List, ℕ, ◌≡◌, ◌≤◌, length, take};

    ghost Value = { List ℕ };

    ghost view = { λ l. take l.count l.bytes.items };

    ghost invariant = { λ l. (l.count ≤ 1022) × (length l.bytes.items ≡ 1022) };
}

impl LineBytes {
    /// An empty line, or `AllocError` where there is no memory.
    pub fn new(alloc: Global) -> Result<LineBytes, AllocError>
        ensures { IfOk result (λ line. line ≡ []) }
    {
        Ok(LineBytes {
            bytes: vec![in alloc; 0; LINE_ROOM]?,
            count: 0,
        })
    }

    pub fn bytes(&self) -> &[u8]
        ensures { result.now ≡ self.now }
    {
        &self.bytes[..self.count]
    }

    pub fn is_empty(&self) -> bool
        ensures { IsTrue result ↔ (self.now ≡ []) }
    {
        self.count == 0
    }

    pub fn clear(&mut self)
        ensures { self.new ≡ [] }
    {
        self.count = 0;
    }

    /// One more byte of the line, which is kept where there is room.
    pub fn push(&mut self, byte: u8)
        ensures { self.new ≡ take 1022 (self.old ++ byte ∷ []) }
    {
        if self.count < LINE_ROOM {
            self.bytes[self.count] = byte;
            self.count += 1;
        }
    }

    /// The line has ended: a CR at its end is dropped.
    pub fn end(&mut self)
        ensures { self.new ≡ without_last_cr self.old }
    {
        if self.count > 0 && self.bytes[self.count - 1] == b'\r' {
            self.count -= 1;
        }
    }
}
