// Files in memory.
ghost use Rattle.std.specs.Prelude.{◌≡◌, ◌≤◌, List, ℕ, length, Some, None, IfSome, IsSomeAnd, IfOk, OnOk, OnErr, option_copied, option_map};
ghost use Rattle.mi_outside.specs.Causes.{HasCause};
ghost use Rattle.mi_outside.specs.Telling.{WhileTold, IfStillTold};
ghost use Rattle.mi_outside.specs.Holding.{HoldsNone, Puts, BeginsRead, ReadsFile, EndsRead, Creates, Appends, EndsWrite, Renames, Removes};
ghost use Rattle.mi_outside.specs.Schedule.{schedule_at_first, after_call, FailsAsListed, FailsWhereListed};
ghost use Rattle.mi_outside.specs.Shelf.{holding_of};

use crate::plan::Plan;
use crate::shelf::{self, Shelf};
use crate::{Failed, Files, Scheduled};
use std::alloc::{AllocError, Global};

/// Files in memory. They fail at the calls that they are told to, and where memory is refused.
#[derive(Drop)]
pub struct MemFiles {
    alloc: Global,
    shelf: Shelf,
    writing: Option<Vec<u8>>,
    plan: Plan,
}

impl MemFiles {
    /// No files. `fails` has the numbers of the calls that are to fail, counted from 1 over all
    /// calls that can answer `Failed`.
    pub fn new(alloc: Global, fails: Vec<u64>) -> MemFiles
        ensures held { IsSomeAnd (⟦<MemFiles as Files>⟧.held result) HoldsNone }
        ensures faults { ⟦<MemFiles as Files>⟧.faults result ≡ 0 }
        ensures schedule { ⟦<MemFiles as Scheduled>⟧.schedule result ≡ schedule_at_first fails.items }
    {
        MemFiles {
            alloc,
            shelf: Shelf::new(alloc),
            writing: None,
            plan: Plan::new(fails),
        }
    }

    /// Gives the named file these bytes.
    /// Answers `AllocError` where there is no memory. Then nothing changed, and it is no fault.
    pub fn put(&mut self, name: &str, bytes: Vec<u8>) -> Result<(), AllocError>
        ensures put { OnOk result (WhileTold (⟦<MemFiles as Files>⟧.held self.old)
            (⟦<MemFiles as Files>⟧.held self.new) (Puts name.now bytes.items)) }
        ensures refused { OnErr result
            (⟦<MemFiles as Files>⟧.held self.new ≡ ⟦<MemFiles as Files>⟧.held self.old) }
        ensures faults { ⟦<MemFiles as Files>⟧.faults self.new ≡ ⟦<MemFiles as Files>⟧.faults self.old }
        ensures schedule { ⟦<MemFiles as Scheduled>⟧.schedule self.new
            ≡ ⟦<MemFiles as Scheduled>⟧.schedule self.old }
    {
        shelf::hold(&mut self.shelf.entries, self.alloc, name.as_bytes(), bytes)
    }

    /// The named file's bytes, or `None` where there is no such file.
    pub fn file(&self, name: &str) -> Option<&[u8]>
        ensures { IfSome (⟦<MemFiles as Files>⟧.held self.now)
            (λ held. option_copied result ≡ held.file name.now) }
    {
        self.shelf.file(name.as_bytes())
    }
}

impl Scheduled for MemFiles {
    ghost schedule = { λ m. ⟦<Plan as Scheduled>⟧.schedule m.plan };
}

impl Files for MemFiles {
    ghost faults = { λ m. m.plan.faults };

    ghost held = { λ m. Some (holding_of m.shelf (option_map (λ name. name.items) m.writing)) };

    /// Fails only where its number is listed.
    fn begin_read(&mut self, name: &str) -> Result<bool, Failed>
        ensures begun { WhileTold (⟦<MemFiles as Files>⟧.held self.old)
            (⟦<MemFiles as Files>⟧.held self.new) (BeginsRead result name.now) }
        ensures cause { HasCause (⟦<MemFiles as Files>⟧.faults self.old)
            (⟦<MemFiles as Files>⟧.faults self.new) result }
        ensures schedule { ⟦<MemFiles as Scheduled>⟧.schedule self.new
            ≡ after_call (⟦<MemFiles as Scheduled>⟧.schedule self.old) }
        ensures listed { FailsAsListed (⟦<MemFiles as Scheduled>⟧.schedule self.new) result }
    {
        self.plan.begin()?;
        Ok(self.shelf.begin_read(name.as_bytes()))
    }

    /// Fails only where its number is listed.
    fn read(&mut self, into: &mut [u8]) -> Result<usize, Failed>
        ensures bound { IfOk result (λ n. n ≤ length into.old) }
        ensures bytes { WhileTold (⟦<MemFiles as Files>⟧.held self.old)
            (⟦<MemFiles as Files>⟧.held self.new) (ReadsFile result into.old into.new) }
        ensures cause { HasCause (⟦<MemFiles as Files>⟧.faults self.old)
            (⟦<MemFiles as Files>⟧.faults self.new) result }
        ensures schedule { ⟦<MemFiles as Scheduled>⟧.schedule self.new
            ≡ after_call (⟦<MemFiles as Scheduled>⟧.schedule self.old) }
        ensures listed { FailsAsListed (⟦<MemFiles as Scheduled>⟧.schedule self.new) result }
    {
        self.plan.begin()?;
        Ok(self.shelf.read(into))
    }

    /// No call that could fail, so it is not counted.
    fn end_read(&mut self)
        ensures ended { WhileTold (⟦<MemFiles as Files>⟧.held self.old)
            (⟦<MemFiles as Files>⟧.held self.new) EndsRead }
        ensures later { ⟦<MemFiles as Files>⟧.faults self.old ≤ ⟦<MemFiles as Files>⟧.faults self.new }
        ensures schedule { ⟦<MemFiles as Scheduled>⟧.schedule self.new
            ≡ ⟦<MemFiles as Scheduled>⟧.schedule self.old }
    {
        self.shelf.reading = None;
    }

    /// Fails where its number is listed, and where memory is refused.
    fn create(&mut self, name: &str) -> Result<(), Failed>
        ensures created { IfStillTold (⟦<MemFiles as Files>⟧.held self.old)
            (⟦<MemFiles as Files>⟧.held self.new) (Creates result name.now) }
        ensures cause { HasCause (⟦<MemFiles as Files>⟧.faults self.old)
            (⟦<MemFiles as Files>⟧.faults self.new) result }
        ensures schedule { ⟦<MemFiles as Scheduled>⟧.schedule self.new
            ≡ after_call (⟦<MemFiles as Scheduled>⟧.schedule self.old) }
        ensures listed { FailsWhereListed (⟦<MemFiles as Scheduled>⟧.schedule self.new) result }
    {
        self.plan.begin()?;
        let name = name.as_bytes();
        let Ok(writing) = name.to_vec(self.alloc) else {
            return Err(self.plan.fault());
        };
        let empty = Vec::new(self.alloc);
        let done = shelf::hold(&mut self.shelf.entries, self.alloc, name, empty);
        self.plan.settle(done)?;
        self.writing = Some(writing);
        Ok(())
    }

    /// Fails where its number is listed, and where memory is refused.
    fn append(&mut self, piece: &[u8]) -> Result<(), Failed>
        ensures appended { IfStillTold (⟦<MemFiles as Files>⟧.held self.old)
            (⟦<MemFiles as Files>⟧.held self.new) (Appends result piece.now) }
        ensures cause { HasCause (⟦<MemFiles as Files>⟧.faults self.old)
            (⟦<MemFiles as Files>⟧.faults self.new) result }
        ensures schedule { ⟦<MemFiles as Scheduled>⟧.schedule self.new
            ≡ after_call (⟦<MemFiles as Scheduled>⟧.schedule self.old) }
        ensures listed { FailsWhereListed (⟦<MemFiles as Scheduled>⟧.schedule self.new) result }
    {
        self.plan.begin()?;
        let Some(name) = &self.writing else {
            return Ok(());
        };
        let done = shelf::extend(&mut self.shelf.entries, name, piece);
        self.plan.settle(done)
    }

    /// Fails only where its number is listed.
    fn end_write(&mut self) -> Result<(), Failed>
        ensures ended { IfStillTold (⟦<MemFiles as Files>⟧.held self.old)
            (⟦<MemFiles as Files>⟧.held self.new) (EndsWrite result) }
        ensures cause { HasCause (⟦<MemFiles as Files>⟧.faults self.old)
            (⟦<MemFiles as Files>⟧.faults self.new) result }
        ensures schedule { ⟦<MemFiles as Scheduled>⟧.schedule self.new
            ≡ after_call (⟦<MemFiles as Scheduled>⟧.schedule self.old) }
        ensures listed { FailsAsListed (⟦<MemFiles as Scheduled>⟧.schedule self.new) result }
    {
        self.plan.begin()?;
        self.writing = None;
        Ok(())
    }

    /// Fails where its number is listed, and where memory is refused.
    fn rename(&mut self, from: &str, to: &str) -> Result<(), Failed>
        ensures renamed { IfStillTold (⟦<MemFiles as Files>⟧.held self.old)
            (⟦<MemFiles as Files>⟧.held self.new) (Renames result from.now to.now) }
        ensures cause { HasCause (⟦<MemFiles as Files>⟧.faults self.old)
            (⟦<MemFiles as Files>⟧.faults self.new) result }
        ensures schedule { ⟦<MemFiles as Scheduled>⟧.schedule self.new
            ≡ after_call (⟦<MemFiles as Scheduled>⟧.schedule self.old) }
        ensures listed { FailsWhereListed (⟦<MemFiles as Scheduled>⟧.schedule self.new) result }
    {
        self.plan.begin()?;
        let entries = &mut self.shelf.entries;
        let done = shelf::rename(entries, self.alloc, from.as_bytes(), to.as_bytes());
        self.plan.settle(done)
    }

    /// Fails only where its number is listed.
    fn remove(&mut self, name: &str) -> Result<(), Failed>
        ensures removed { IfStillTold (⟦<MemFiles as Files>⟧.held self.old)
            (⟦<MemFiles as Files>⟧.held self.new) (Removes result name.now) }
        ensures cause { HasCause (⟦<MemFiles as Files>⟧.faults self.old)
            (⟦<MemFiles as Files>⟧.faults self.new) result }
        ensures schedule { ⟦<MemFiles as Scheduled>⟧.schedule self.new
            ≡ after_call (⟦<MemFiles as Scheduled>⟧.schedule self.old) }
        ensures listed { FailsAsListed (⟦<MemFiles as Scheduled>⟧.schedule self.new) result }
    {
        self.plan.begin()?;
        shelf::discard(&mut self.shelf.entries, name.as_bytes());
        Ok(())
    }
}
