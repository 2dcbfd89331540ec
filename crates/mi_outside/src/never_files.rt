// Files that never fail.
ghost use Rattle.std.specs.Prelude.{◌≡◌, List, ℕ, Bool, true, false, Some, None, IfSome, IsSomeAnd, OnOk, OnErr, option_copied, cond};
ghost use Rattle.mi_outside.specs.Telling.{WhileTold};
ghost use Rattle.mi_outside.specs.Holding.{HoldsNone, Puts};
ghost use Rattle.mi_outside.specs.Shelf.{holding_of};

use crate::shelf::{self, Shelf};
use crate::{Failed, Files};
use std::alloc::{AllocError, Global};

/// Files in memory that are read with no failure. What is written is thrown away, and from the
/// first call that creates, renames or removes on they tell nothing.
#[derive(Drop)]
pub struct NeverFiles {
    alloc: Global,
    shelf: Shelf,
    tells: bool,
}

impl NeverFiles {
    /// No files.
    pub fn new(alloc: Global) -> NeverFiles
        ensures { IsSomeAnd (⟦<NeverFiles as Files>⟧.held result) HoldsNone }
    {
        NeverFiles {
            alloc,
            shelf: Shelf::new(alloc),
            tells: true,
        }
    }

    /// Gives the named file these bytes.
    /// Answers `AllocError` where there is no memory. Then nothing changed, and it is no fault.
    pub fn put(&mut self, name: &str, bytes: Vec<u8>) -> Result<(), AllocError>
        ensures put { OnOk result (WhileTold (⟦<NeverFiles as Files>⟧.held self.old)
            (⟦<NeverFiles as Files>⟧.held self.new) (Puts name.now bytes.items)) }
        ensures refused { OnErr result
            (⟦<NeverFiles as Files>⟧.held self.new ≡ ⟦<NeverFiles as Files>⟧.held self.old) }
    {
        shelf::hold(&mut self.shelf.entries, self.alloc, name.as_bytes(), bytes)
    }

    /// The named file's bytes, or `None` where there is no such file.
    pub fn file(&self, name: &str) -> Option<&[u8]>
        ensures { IfSome (⟦<NeverFiles as Files>⟧.held self.now)
            (λ held. option_copied result ≡ held.file name.now) }
    {
        self.shelf.file(name.as_bytes())
    }
}

impl Files for NeverFiles {
    ghost faults = { λ _. 0 };

    ghost held = { λ m. cond m.tells (Some (holding_of m.shelf None)) None };

    fn begin_read(&mut self, name: &str) -> Result<bool, Failed> {
        Ok(self.shelf.begin_read(name.as_bytes()))
    }

    fn read(&mut self, into: &mut [u8]) -> Result<usize, Failed> {
        Ok(self.shelf.read(into))
    }

    fn end_read(&mut self) {
        self.shelf.reading = None;
    }

    fn create(&mut self, _name: &str) -> Result<(), Failed> {
        self.tells = false;
        Ok(())
    }

    fn append(&mut self, _piece: &[u8]) -> Result<(), Failed> {
        Ok(())
    }

    fn end_write(&mut self) -> Result<(), Failed> {
        Ok(())
    }

    fn rename(&mut self, _from: &str, _to: &str) -> Result<(), Failed> {
        self.tells = false;
        Ok(())
    }

    fn remove(&mut self, _name: &str) -> Result<(), Failed> {
        self.tells = false;
        Ok(())
    }
}
