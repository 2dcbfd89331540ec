//! A case: its files, and what its lines do.

ghost use Rattle.std.specs.Prelude.{◌≡◌, ◌↔◌, Some, None, IfSome, IsOk};

use crate::bytes;
use crate::change::Change;
use crate::difference::Difference;
use crate::line::{Calls, Line};
use crate::want::file;
use mi_commands::gforthmi;
use mi_outside::{MemFiles, MemSink, MemSource};
use std::alloc::{AllocError, Global};
use std::mem;

/// A case as far as its lines were followed.
#[derive(Drop)]
pub struct Case {
    alloc: Global,
    files: MemFiles,
    has_files: bool,
    input: Vec<u8>,
    input_fails: Vec<u64>,
    output_fails: Vec<u64>,
    /// The status of the last command, until it was compared.
    status: Option<u8>,
}

impl Case {
    /// A case with no files and no faults.
    pub fn new(alloc: Global) -> Case {
        Case {
            alloc,
            files: MemFiles::new(alloc, Vec::new(alloc)),
            has_files: false,
            input: Vec::new(alloc),
            input_fails: Vec::new(alloc),
            output_fails: Vec::new(alloc),
            status: None,
        }
    }

    /// Does what a line says, with its block.
    pub fn follow(&mut self, line: Line<'_>, block: Vec<u8>) -> Result<(), Difference> {
        match line {
            Line::Case(_name) => Ok(()),
            Line::Fails(calls, numbers) => self.fail(calls, numbers),
            Line::Changes(change) => self.change(change, block),
            Line::Input => {
                self.input = block;
                Ok(())
            }
            Line::Command(words) => self.call(&words, &block),
            Line::Status(wanted) => self.check_status(wanted),
            Line::Wants(want) => want.check(self.alloc, &self.files, &block),
        }
    }

    /// Has the numbered calls fail.
    fn fail(&mut self, calls: Calls, numbers: Vec<u64>) -> Result<(), Difference> {
        match calls {
            Calls::Files => {
                if self.has_files {
                    return Err(Difference::Unreadable("a file is before it"));
                }
                self.files = MemFiles::new(self.alloc, numbers);
            }
            Calls::Input => self.input_fails = numbers,
            Calls::Output => self.output_fails = numbers,
        }
        Ok(())
    }

    /// Does a change of the files.
    fn change(&mut self, change: Change<'_>, block: Vec<u8>) -> Result<(), Difference> {
        match change {
            Change::File(name) => self.put(name, block),
            Change::Blanks(name, count) => {
                let blanks = vec![in self.alloc; b' '; count]?;
                self.put(name, blanks)
            }
            Change::Lines(name, count) => self.put_often(name, &block, count),
            Change::Bytes(name, place, bytes) => self.write(name, place, &bytes),
            Change::Cut(name, size) => self.cut(name, size),
            Change::Copy(from, to) => {
                let copied = file(self.alloc, &self.files, from)?.to_vec(self.alloc)?;
                self.put(to, copied)
            }
        }
    }

    /// Puts a file.
    fn put(&mut self, name: &str, bytes: Vec<u8>) -> Result<(), Difference> {
        self.has_files = true;
        self.files.put(name, bytes)?;
        Ok(())
    }

    /// Puts a file in which a text stands so often.
    fn put_often(&mut self, name: &str, text: &[u8], count: usize) -> Result<(), Difference> {
        let mut bytes = Vec::new(self.alloc);
        for _ in 0..count {
            bytes.extend_from_slice(text)?;
        }
        self.put(name, bytes)
    }

    /// Writes bytes into a file from a place on, which may grow.
    fn write(&mut self, name: &str, place: usize, bytes: &[u8]) -> Result<(), Difference> {
        let old = file(self.alloc, &self.files, name)?;
        let Some(front) = old.get(..place) else {
            return Err(Difference::Unreadable("the place is behind the file's end"));
        };
        let mut written = front.to_vec(self.alloc)?;
        written.extend_from_slice(bytes)?;
        if let Some(rest) = old.get(written.len()..) {
            written.extend_from_slice(rest)?;
        }
        self.put(name, written)
    }

    /// Cuts a file to its first bytes.
    fn cut(&mut self, name: &str, size: usize) -> Result<(), Difference> {
        let Some(front) = file(self.alloc, &self.files, name)?.get(..size) else {
            return Err(Difference::Unreadable("the file isn't so long"));
        };
        let front = front.to_vec(self.alloc)?;
        self.put(name, front)
    }

    /// Calls with these words, and compares the output.
    fn call(&mut self, words: &[String], wanted: &[u8]) -> Result<(), Difference> {
        let input = mem::replace(&mut self.input, Vec::new(self.alloc));
        let mut input = MemSource::new(input, self.input_fails.clone()?);
        let mut output = MemSink::new(self.alloc, self.output_fails.clone()?);
        let outcome = gforthmi(self.alloc, words, &mut self.files, &mut input, &mut output);
        self.status = Some(outcome.status());
        bytes::check(self.alloc, wanted, output.bytes())
    }

    /// Compares the status of the last command, if no line did, with 0.
    pub fn settle(&mut self) -> Result<(), Difference>
        ensures { IsOk result ↔ IfSome self.old.status (λ status. status ≡ 0) }
    {
        if self.status.is_none() {
            return Ok(());
        }
        self.check_status(0)
    }

    /// Compares the status of the last command.
    fn check_status(&mut self, wanted: u8) -> Result<(), Difference>
        ensures same { IsOk result ↔ (self.old.status ≡ Some wanted) }
        ensures compared { self.new.status ≡ None }
    {
        match self.status.take() {
            None => Err(Difference::Unreadable("no command is before it")),
            Some(came) if came == wanted => Ok(()),
            Some(came) => Err(other_status(self.alloc, wanted, came)?),
        }
    }
}

/// That one status was wanted and another one came.
fn other_status(alloc: Global, wanted: u8, came: u8) -> Result<Difference, AllocError> {
    Ok(Difference::Other {
        wanted: format!(in alloc; "status {wanted}")?,
        came: format!(in alloc; "status {came}")?,
    })
}
