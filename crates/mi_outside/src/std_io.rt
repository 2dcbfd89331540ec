// A source and a sink over std's readers and writers.
ghost use Rattle.std.specs.Prelude.{◌≡◌, ◌≤◌, length, IfOk, OnOk, None};
ghost use Rattle.std.specs.Io.KnownBytes.{Appends, ReadConsumes};
ghost use Rattle.mi_outside.specs.Causes.{HasCause, Rose};
ghost use Rattle.mi_outside.specs.Telling.{WhileTold, IfStillTold};
ghost use Rattle.mi_outside.specs.Holding.{Reads, Writes};

use crate::{Failed, Sink, Source};
use std::io::{self, Read, Write};

// Counts a fault.
pub(crate) fn fault(faults: &mut u64) -> Failed
    ensures later { faults.old ≤ faults.new }
    ensures rose { Rose faults.old faults.new }
{
    *faults = faults.saturating_add(1);
    Failed
}

// What std answered, where an error is a fault.
pub(crate) fn settle<V: Drop>(answer: io::Result<V>, faults: &mut u64) -> Result<V, Failed>
    ensures cause { HasCause faults.old faults.new result }
{
    match answer {
        Ok(value) => Ok(value),
        Err(_) => Err(fault(faults)),
    }
}

// One read, where an error is a fault.
pub(crate) fn read_from<R: Read>(
    inner: &mut R,
    into: &mut [u8],
    faults: &mut u64,
) -> Result<usize, Failed>
    ensures bound { IfOk result (λ n. n ≤ length into.old) }
    ensures bytes { ReadConsumes (R.remaining inner.old) (R.remaining inner.new) result into.new }
    ensures cause { HasCause faults.old faults.new result }
{
    match inner.read(into) {
        Ok(count) => Ok(count),
        Err(_) => Err(fault(faults)),
    }
}

// Writes the whole piece, where an error and a write that takes nothing are faults.
pub(crate) fn write_to<W: Write>(
    inner: &mut W,
    piece: &[u8],
    faults: &mut u64,
) -> Result<(), Failed>
    ensures bytes { OnOk result (Appends (W.contents inner.old) (W.contents inner.new) piece.now) }
    ensures cause { HasCause faults.old faults.new result }
{
    let mut rest = piece;
    for _ in 0..u64::MAX {
        if rest.is_empty() {
            return Ok(());
        }
        match inner.write(rest) {
            Ok(count) if count > 0 => rest = &rest[count..],
            _ => return Err(fault(faults)),
        }
    }
    Err(fault(faults))
}

/// A source over std's `Read`. It tells nothing of its bytes.
#[derive(Drop)]
pub struct StdSource<R> {
    inner: R,
    faults: u64,
}

impl<R: Read> StdSource<R> {
    /// A source that reads from `inner`.
    pub fn new(inner: R) -> StdSource<R>
        ensures faults { ⟦<StdSource<R> as Source>⟧.faults result ≡ 0 }
        ensures inner { result.inner ≡ inner }
    {
        StdSource { inner, faults: 0 }
    }
}

impl<R: Read> Source for StdSource<R> {
    ghost faults = { λ m. m.faults };

    ghost left = { λ _. None };

    /// Takes what one read of `inner` gives, where std tells the bytes that `inner` has left.
    fn read(&mut self, into: &mut [u8]) -> Result<usize, Failed>
        ensures bound { IfOk result (λ n. n ≤ length into.old) }
        ensures bytes { WhileTold (⟦<StdSource<R> as Source>⟧.left self.old)
            (⟦<StdSource<R> as Source>⟧.left self.new) (Reads result into.old into.new) }
        ensures cause { HasCause (⟦<StdSource<R> as Source>⟧.faults self.old)
            (⟦<StdSource<R> as Source>⟧.faults self.new) result }
        ensures consumed { ReadConsumes (R.remaining self.old.inner) (R.remaining self.new.inner) result into.new }
    {
        read_from(&mut self.inner, into, &mut self.faults)
    }
}

/// A sink over std's `Write`. It tells nothing of its bytes.
#[derive(Drop)]
pub struct StdSink<W> {
    inner: W,
    faults: u64,
}

impl<W: Write> StdSink<W> {
    /// A sink that writes to `inner`, and flushes it after each piece.
    pub fn new(inner: W) -> StdSink<W>
        ensures faults { ⟦<StdSink<W> as Sink>⟧.faults result ≡ 0 }
        ensures inner { result.inner ≡ inner }
    {
        StdSink { inner, faults: 0 }
    }
}

impl<W: Write> Sink for StdSink<W> {
    ghost faults = { λ m. m.faults };

    ghost written = { λ _. None };

    /// Appends the whole piece to what `inner` holds, where std tells it.
    fn write(&mut self, piece: &[u8]) -> Result<(), Failed>
        ensures bytes { IfStillTold (⟦<StdSink<W> as Sink>⟧.written self.old)
            (⟦<StdSink<W> as Sink>⟧.written self.new) (Writes result piece.now) }
        ensures cause { HasCause (⟦<StdSink<W> as Sink>⟧.faults self.old)
            (⟦<StdSink<W> as Sink>⟧.faults self.new) result }
        ensures appended { OnOk result (Appends (W.contents self.old.inner) (W.contents self.new.inner) piece.now) }
    {
        write_to(&mut self.inner, piece, &mut self.faults)?;
        settle(self.inner.flush(), &mut self.faults)
    }
}
