// A source and a sink that never fail.
ghost use Rattle.std.specs.Prelude.{◌≡◌, drop, Some, None};

use crate::next::put_next;
use crate::{Failed, Sink, Source};

/// Bytes in memory, read from the front on with no failure.
#[derive(Drop)]
pub struct NeverSource {
    bytes: Vec<u8>,
    place: usize,
}

impl NeverSource {
    /// A source of these bytes.
    pub fn new(bytes: Vec<u8>) -> NeverSource
        ensures { ⟦<NeverSource as Source>⟧.left result ≡ Some bytes.items }
    {
        NeverSource { bytes, place: 0 }
    }
}

impl Source for NeverSource {
    ghost faults = { λ _. 0 };

    ghost left = { λ m. Some (drop m.place m.bytes.items) };

    fn read(&mut self, into: &mut [u8]) -> Result<usize, Failed> {
        Ok(put_next(&self.bytes, &mut self.place, into))
    }
}

/// Throws away what is written, with no failure.
#[derive(Drop)]
pub struct NeverSink {}

impl NeverSink {
    /// A sink.
    pub fn new() -> NeverSink {
        NeverSink {}
    }
}

impl Sink for NeverSink {
    ghost faults = { λ _. 0 };

    ghost written = { λ _. None };

    fn write(&mut self, _piece: &[u8]) -> Result<(), Failed> {
        Ok(())
    }
}
