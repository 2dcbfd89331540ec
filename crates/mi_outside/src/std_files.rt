// Files of the system, over std.
ghost use Rattle.std.specs.Prelude.{◌≡◌, ◌≤◌, length, None, IfOk, MatchResult, is_some, is_ok};
ghost use Rattle.mi_outside.specs.Causes.{HasCause};
ghost use Rattle.mi_outside.specs.Telling.{WhileTold, IfStillTold};
ghost use Rattle.mi_outside.specs.Holding.{BeginsRead, ReadsFile, EndsRead, Creates, Appends, EndsWrite};
ghost use Rattle.mi_outside.specs.Open.{ReadsOpen, AppendsOpen};

use crate::std_io::{fault, read_from, settle, write_to};
use crate::{Failed, Files};
use std::fs::{self, File};
use std::io::{ErrorKind, Write};
use std::rt;

/// The files of the system, over std. They tell nothing of what they hold.
#[derive(Drop)]
pub struct StdFiles<T: rt::Files> {
    rt: T,
    reading: Option<T::File>,
    writing: Option<T::File>,
    faults: u64,
}

impl<T: rt::Files> StdFiles<T> {
    /// The files that `rt` reaches. A name is a path.
    pub fn new(rt: T) -> StdFiles<T>
        ensures { ⟦<StdFiles<T> as Files>⟧.faults result ≡ 0 }
    {
        StdFiles {
            rt,
            reading: None,
            writing: None,
            faults: 0,
        }
    }
}

impl<T: rt::Files> Files for StdFiles<T> {
    ghost faults = { λ m. m.faults };

    ghost held = { λ _. None };

    /// Says whether a file is open for reading from then on.
    fn begin_read(&mut self, name: &str) -> Result<bool, Failed>
        ensures begun { WhileTold (⟦<StdFiles<T> as Files>⟧.held self.old)
            (⟦<StdFiles<T> as Files>⟧.held self.new) (BeginsRead result name.now) }
        ensures cause { HasCause (⟦<StdFiles<T> as Files>⟧.faults self.old)
            (⟦<StdFiles<T> as Files>⟧.faults self.new) result }
        ensures opened { MatchResult result (λ begun. begun ≡ is_some self.new.reading)
            (λ _. self.new.reading ≡ None) }
    {
        self.reading = None;
        match File::open(&self.rt, name) {
            Ok(file) => {
                self.reading = Some(file);
                Ok(true)
            }
            Err(error) => match error.kind() {
                ErrorKind::NotFound => Ok(false),
                _ => Err(fault(&mut self.faults)),
            },
        }
    }

    /// Takes what one read of the open file gives, where std tells the bytes that are left.
    fn read(&mut self, into: &mut [u8]) -> Result<usize, Failed>
        ensures bound { IfOk result (λ n. n ≤ length into.old) }
        ensures bytes { WhileTold (⟦<StdFiles<T> as Files>⟧.held self.old)
            (⟦<StdFiles<T> as Files>⟧.held self.new) (ReadsFile result into.old into.new) }
        ensures cause { HasCause (⟦<StdFiles<T> as Files>⟧.faults self.old)
            (⟦<StdFiles<T> as Files>⟧.faults self.new) result }
        ensures consumed { ReadsOpen T.File.remaining self.old.reading self.new.reading result into.new }
    {
        match &mut self.reading {
            Some(file) => read_from(file, into, &mut self.faults),
            None => Ok(0),
        }
    }

    /// No file is open for reading from then on.
    fn end_read(&mut self)
        ensures ended { WhileTold (⟦<StdFiles<T> as Files>⟧.held self.old)
            (⟦<StdFiles<T> as Files>⟧.held self.new) EndsRead }
        ensures later { ⟦<StdFiles<T> as Files>⟧.faults self.old ≤ ⟦<StdFiles<T> as Files>⟧.faults self.new }
        ensures closed { self.new.reading ≡ None }
    {
        self.reading = None;
    }

    /// A file is open for writing from then on, or none where it failed.
    fn create(&mut self, name: &str) -> Result<(), Failed>
        ensures created { IfStillTold (⟦<StdFiles<T> as Files>⟧.held self.old)
            (⟦<StdFiles<T> as Files>⟧.held self.new) (Creates result name.now) }
        ensures cause { HasCause (⟦<StdFiles<T> as Files>⟧.faults self.old)
            (⟦<StdFiles<T> as Files>⟧.faults self.new) result }
        ensures opened { is_some self.new.writing ≡ is_ok result }
    {
        self.writing = None;
        let file = settle(File::create(&self.rt, name), &mut self.faults)?;
        self.writing = Some(file);
        Ok(())
    }

    /// Appends the whole piece to the open file, where std tells what it holds.
    fn append(&mut self, piece: &[u8]) -> Result<(), Failed>
        ensures appended { IfStillTold (⟦<StdFiles<T> as Files>⟧.held self.old)
            (⟦<StdFiles<T> as Files>⟧.held self.new) (Appends result piece.now) }
        ensures cause { HasCause (⟦<StdFiles<T> as Files>⟧.faults self.old)
            (⟦<StdFiles<T> as Files>⟧.faults self.new) result }
        ensures grown { AppendsOpen T.File.contents self.old.writing self.new.writing result piece.now }
    {
        match &mut self.writing {
            Some(file) => write_to(file, piece, &mut self.faults),
            None => Ok(()),
        }
    }

    /// No file is open for writing from then on.
    fn end_write(&mut self) -> Result<(), Failed>
        ensures ended { IfStillTold (⟦<StdFiles<T> as Files>⟧.held self.old)
            (⟦<StdFiles<T> as Files>⟧.held self.new) (EndsWrite result) }
        ensures cause { HasCause (⟦<StdFiles<T> as Files>⟧.faults self.old)
            (⟦<StdFiles<T> as Files>⟧.faults self.new) result }
        ensures closed { self.new.writing ≡ None }
    {
        let Some(mut file) = self.writing.take() else {
            return Ok(());
        };
        settle(file.flush(), &mut self.faults)
    }

    fn rename(&mut self, from: &str, to: &str) -> Result<(), Failed> {
        settle(fs::rename(&self.rt, from, to), &mut self.faults)
    }

    fn remove(&mut self, name: &str) -> Result<(), Failed> {
        settle(fs::remove_file(&self.rt, name), &mut self.faults)
    }
}
