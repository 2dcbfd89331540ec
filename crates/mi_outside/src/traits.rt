// What the program reads from and writes to.
ghost use Rattle.std.specs.Prelude.{◌≤◌, ℕ, List, Option, length, IfOk};
ghost use Rattle.mi_outside.specs.Causes.{HasCause};
ghost use Rattle.mi_outside.specs.Telling.{WhileTold, IfStillTold};
ghost use Rattle.mi_outside.specs.Schedule.{Schedule};
ghost use Rattle.mi_outside.specs.Holding.{Holding, Reads, Writes, BeginsRead, ReadsFile, EndsRead, Creates, Appends, EndsWrite, Renames, Removes};

/// The answer of a call that did not do its work. The object's count of faults rose in that call.
#[derive(Clone, Copy, Debug, PartialEq, Eq)]
pub struct Failed;

/// Bytes that are read from the front on.
pub trait Source {
    /// How often it has failed. The count stays at 2^64 - 1 once it is there.
    ghost faults: { Self → ℕ };

    /// The bytes that are left, where it tells.
    ghost left: { Self → Option (List ℕ) };

    /// Takes the next bytes, at most the slice's length, and puts them in front of `into`.
    /// Returns how many; 0 for a slice that is not empty means the end.
    /// Answers `Failed` only where the count of faults rose; then nothing was taken.
    fn read(&mut self, into: &mut [u8]) -> Result<usize, Failed>
        ensures bound { IfOk result (λ n. n ≤ length into.old) }
        ensures bytes { WhileTold (left self.old) (left self.new) (Reads result into.old into.new) }
        ensures cause { HasCause (faults self.old) (faults self.new) result };
}

/// Takes bytes at its end.
pub trait Sink {
    /// How often it has failed. The count stays at 2^64 - 1 once it is there.
    ghost faults: { Self → ℕ };

    /// The bytes that were written, where it tells.
    ghost written: { Self → Option (List ℕ) };

    /// Appends the whole piece.
    /// Answers `Failed` only where the count of faults rose; then a part of the piece's front may
    /// be appended.
    fn write(&mut self, piece: &[u8]) -> Result<(), Failed>
        ensures bytes { IfStillTold (written self.old) (written self.new) (Writes result piece.now) }
        ensures cause { HasCause (faults self.old) (faults self.new) result };
}

/// Files by name: one may be read and one written at a time.
pub trait Files {
    /// How often a call has failed. The count stays at 2^64 - 1 once it is there.
    ghost faults: { Self → ℕ };

    /// The files and what is being read and written, where it tells.
    ghost held: { Self → Option Holding };

    /// Begins to read the named file from place 0. False means that there is no such file, which is
    /// no fault, and then no file is being read. No file changes.
    /// Answers `Failed` only where the count of faults rose.
    fn begin_read(&mut self, name: &str) -> Result<bool, Failed>
        ensures begun { WhileTold (held self.old) (held self.new) (BeginsRead result name.now) }
        ensures cause { HasCause (faults self.old) (faults self.new) result };

    /// Takes the next bytes of the file being read, at most the slice's length, and puts them in
    /// front of `into`. Returns how many; 0 for a slice that is not empty means the end, or that no
    /// file is being read. No file changes.
    /// Answers `Failed` only where the count of faults rose; then nothing was taken.
    fn read(&mut self, into: &mut [u8]) -> Result<usize, Failed>
        ensures bound { IfOk result (λ n. n ≤ length into.old) }
        ensures bytes { WhileTold (held self.old) (held self.new) (ReadsFile result into.old into.new) }
        ensures cause { HasCause (faults self.old) (faults self.new) result };

    /// Ends reading. No file changes.
    fn end_read(&mut self)
        ensures ended { WhileTold (held self.old) (held self.new) EndsRead }
        ensures later { faults self.old ≤ faults self.new };

    /// Makes the named file empty and begins to write it. No other file changes.
    /// Answers `Failed` only where the count of faults rose.
    fn create(&mut self, name: &str) -> Result<(), Failed>
        ensures created { IfStillTold (held self.old) (held self.new) (Creates result name.now) }
        ensures cause { HasCause (faults self.old) (faults self.new) result };

    /// Appends to the file being written, and does nothing where there is none. No other file
    /// changes.
    /// Answers `Failed` only where the count of faults rose.
    fn append(&mut self, piece: &[u8]) -> Result<(), Failed>
        ensures appended { IfStillTold (held self.old) (held self.new) (Appends result piece.now) }
        ensures cause { HasCause (faults self.old) (faults self.new) result };

    /// Ends writing, and does nothing where no file is being written. No file changes.
    /// Answers `Failed` only where the count of faults rose; then the file that was being written
    /// may have changed, and no other.
    fn end_write(&mut self) -> Result<(), Failed>
        ensures ended { IfStillTold (held self.old) (held self.new) (EndsWrite result) }
        ensures cause { HasCause (faults self.old) (faults self.new) result };

    /// Gives `to` the content of `from`, which is gone where the two names differ. Does nothing
    /// where there is no `from`. No other file changes.
    /// Answers `Failed` only where the count of faults rose; then no file changed.
    fn rename(&mut self, from: &str, to: &str) -> Result<(), Failed>
        ensures renamed { IfStillTold (held self.old) (held self.new) (Renames result from.now to.now) }
        ensures cause { HasCause (faults self.old) (faults self.new) result };

    /// Removes the named file, if there is one. No other file changes.
    /// Answers `Failed` only where the count of faults rose.
    fn remove(&mut self, name: &str) -> Result<(), Failed>
        ensures removed { IfStillTold (held self.old) (held self.new) (Removes result name.now) }
        ensures cause { HasCause (faults self.old) (faults self.new) result };
}

/// What fails at the calls that it is told to.
pub trait Scheduled {
    /// The numbers of the calls that are to fail, and how many calls were made. The count stays at
    /// 2^64 - 1 once it is there.
    ghost schedule: { Self → Schedule };
}
