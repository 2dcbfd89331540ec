//! Bytes on their way to an output.

ghost use Rattle.std.specs.Prelude.{◌≡◌, [], ◌∷◌, IfOk, OnOk};
ghost use Rattle.mi_outside.specs.Causes.{HasCause};
ghost use Rattle.mi_outside.specs.Gathered.{Passes, last_of};

use crate::traits::{Failed, Sink};
use std::alloc::{AllocError, Global};
use std::marker::Model;

/// How many bytes wait at most.
const ROOM: usize = 4096;

/// Bytes on their way to a sink, which wait until there are 4,096 of them or they are wanted there: seen as these bytes, and
/// the last one that was put, which is a line feed before the first. All its memory is taken when it is made.
#[derive(Drop)]
pub struct Gathered {
    bytes: Vec<u8>,
    count: usize,
    last: u8,
}

impl Model for Gathered {
    ghost use Rattle.std.specs.Prelude.{◌≡◌, ◌≤◌, length, take};
    ghost use Rattle.mi_outside.specs.Gathered.{GatheredView};

    ghost Value = { GatheredView };

    ghost view = { λ g. record { waiting = take g.count g.bytes.items; last = g.last } };

    ghost invariant = { λ g. (g.count ≤ 4096) × (length g.bytes.items ≡ 4096) };
}

impl Gathered {
    /// No bytes, or `AllocError` where there is no memory.
    pub fn new(alloc: Global) -> Result<Gathered, AllocError>
        ensures waiting { IfOk result (λ gathered. gathered.waiting ≡ []) }
        ensures last { IfOk result (λ gathered. gathered.last ≡ 10) }
    {
        Ok(Gathered {
            bytes: vec![in alloc; 0; ROOM]?,
            count: 0,
            last: b'\n',
        })
    }

    /// The last byte that was put, or a line feed before the first.
    pub fn last(&self) -> u8
        ensures { result ≡ self.now.last }
    {
        self.last
    }

    /// Puts a piece behind the bytes that wait. Where 4,096 bytes wait they are written before another one is put.
    ///
    /// Answers `Failed` only where the sink's count of faults rose; then a front of the bytes that waited and of the piece was
    /// written, and the rest is lost.
    pub fn put<O: Sink>(&mut self, piece: &[u8], output: &mut O) -> Result<(), Failed>
        ensures passes { Passes result self.old.waiting piece.now self.new.waiting (O.written output.old) (O.written output.new) }
        ensures last { OnOk result (self.new.last ≡ last_of self.old.last piece.now) }
        ensures cause { HasCause (O.faults output.old) (O.faults output.new) result }
    {
        let mut at = 0;
        'bytes: while at < piece.len() {
            match self.put_byte(piece[at], output) {
                Ok(()) => {}
                Err(fault) => return Err(fault),
            }
            at += 1;
        }
        Ok(())
    }

    /// Puts one byte.
    fn put_byte<O: Sink>(&mut self, byte: u8, output: &mut O) -> Result<(), Failed>
        ensures passes { Passes result self.old.waiting (byte ∷ []) self.new.waiting (O.written output.old) (O.written output.new) }
        ensures last { OnOk result (self.new.last ≡ byte) }
        ensures cause { HasCause (O.faults output.old) (O.faults output.new) result }
    {
        if self.count == ROOM {
            match self.flush(output) {
                Ok(()) => {}
                Err(fault) => return Err(fault),
            }
        }
        self.bytes[self.count] = byte;
        self.count += 1;
        self.last = byte;
        Ok(())
    }

    /// Writes the bytes that wait, if there are any.
    ///
    /// Answers `Failed` only where the sink's count of faults rose; then a front of them was written, and the rest is lost.
    pub fn flush<O: Sink>(&mut self, output: &mut O) -> Result<(), Failed>
        ensures passes { Passes result self.old.waiting [] self.new.waiting (O.written output.old) (O.written output.new) }
        ensures none_waits { self.new.waiting ≡ [] }
        ensures last { self.new.last ≡ self.old.last }
        ensures cause { HasCause (O.faults output.old) (O.faults output.new) result }
    {
        let count = self.count;
        self.count = 0;
        if count == 0 {
            return Ok(());
        }
        output.write(&self.bytes[..count])
    }
}
