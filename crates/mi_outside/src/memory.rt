// A source and a sink in memory.
ghost use Rattle.std.specs.Prelude.{◌≡◌, ◌≤◌, length, drop, Some, [], IfOk};
ghost use Rattle.mi_outside.specs.Causes.{HasCause};
ghost use Rattle.mi_outside.specs.Telling.{WhileTold, IfStillTold};
ghost use Rattle.mi_outside.specs.Holding.{Reads, Writes};
ghost use Rattle.mi_outside.specs.Schedule.{schedule_at_first, after_call, FailsAsListed, FailsWhereListed};

use crate::next::put_next;
use crate::plan::Plan;
use crate::{Failed, Scheduled, Sink, Source};
use std::alloc::Global;

/// Bytes in memory, read from the front on.
#[derive(Drop)]
pub struct MemSource {
    bytes: Vec<u8>,
    place: usize,
    plan: Plan,
}

impl MemSource {
    /// A source of these bytes. `fails` has the numbers of the reads that are to fail, counted
    /// from 1.
    pub fn new(bytes: Vec<u8>, fails: Vec<u64>) -> MemSource
        ensures left { ⟦<MemSource as Source>⟧.left result ≡ Some bytes.items }
        ensures faults { ⟦<MemSource as Source>⟧.faults result ≡ 0 }
        ensures schedule { ⟦<MemSource as Scheduled>⟧.schedule result ≡ schedule_at_first fails.items }
    {
        MemSource {
            bytes,
            place: 0,
            plan: Plan::new(fails),
        }
    }
}

impl Scheduled for MemSource {
    ghost schedule = { λ m. ⟦<Plan as Scheduled>⟧.schedule m.plan };
}

impl Source for MemSource {
    ghost faults = { λ m. m.plan.faults };

    ghost left = { λ m. Some (drop m.place m.bytes.items) };

    /// A read fails only where its number is listed.
    fn read(&mut self, into: &mut [u8]) -> Result<usize, Failed>
        ensures bound { IfOk result (λ n. n ≤ length into.old) }
        ensures bytes { WhileTold (⟦<MemSource as Source>⟧.left self.old)
            (⟦<MemSource as Source>⟧.left self.new) (Reads result into.old into.new) }
        ensures cause { HasCause (⟦<MemSource as Source>⟧.faults self.old)
            (⟦<MemSource as Source>⟧.faults self.new) result }
        ensures schedule { ⟦<MemSource as Scheduled>⟧.schedule self.new
            ≡ after_call (⟦<MemSource as Scheduled>⟧.schedule self.old) }
        ensures listed { FailsAsListed (⟦<MemSource as Scheduled>⟧.schedule self.new) result }
    {
        self.plan.begin()?;
        Ok(put_next(&self.bytes, &mut self.place, into))
    }
}

/// Bytes in memory, taken at the end.
#[derive(Drop)]
pub struct MemSink {
    bytes: Vec<u8>,
    plan: Plan,
}

impl MemSink {
    /// An empty sink. `fails` has the numbers of the writes that are to fail, counted from 1. A
    /// write for which there is no memory fails too.
    pub fn new(alloc: Global, fails: Vec<u64>) -> MemSink
        ensures written { ⟦<MemSink as Sink>⟧.written result ≡ Some [] }
        ensures faults { ⟦<MemSink as Sink>⟧.faults result ≡ 0 }
        ensures schedule { ⟦<MemSink as Scheduled>⟧.schedule result ≡ schedule_at_first fails.items }
    {
        MemSink {
            bytes: Vec::new(alloc),
            plan: Plan::new(fails),
        }
    }

    /// What was written.
    pub fn bytes(&self) -> &[u8]
        ensures { ⟦<MemSink as Sink>⟧.written self.now ≡ Some result.now }
    {
        &self.bytes
    }
}

impl Scheduled for MemSink {
    ghost schedule = { λ m. ⟦<Plan as Scheduled>⟧.schedule m.plan };
}

impl Sink for MemSink {
    ghost faults = { λ m. m.plan.faults };

    ghost written = { λ m. Some m.bytes.items };

    /// A write fails where its number is listed, and where there is no memory for the piece.
    fn write(&mut self, piece: &[u8]) -> Result<(), Failed>
        ensures bytes { IfStillTold (⟦<MemSink as Sink>⟧.written self.old)
            (⟦<MemSink as Sink>⟧.written self.new) (Writes result piece.now) }
        ensures cause { HasCause (⟦<MemSink as Sink>⟧.faults self.old)
            (⟦<MemSink as Sink>⟧.faults self.new) result }
        ensures schedule { ⟦<MemSink as Scheduled>⟧.schedule self.new
            ≡ after_call (⟦<MemSink as Scheduled>⟧.schedule self.old) }
        ensures listed { FailsWhereListed (⟦<MemSink as Scheduled>⟧.schedule self.new) result }
    {
        self.plan.begin()?;
        let done = self.bytes.extend_from_slice(piece);
        self.plan.settle(done)
    }
}
