// Writes a file by way of its part, so that an old file stays until the new one is whole.
ghost use Rattle.std.specs.Prelude.{◌≡◌, ◌≢◌, ◌≤◌, IfOk, string_bytes};
ghost use Rattle.mi_outside.specs.Causes.{HasCause};
ghost use Rattle.mi_outside.specs.Telling.{IfStillTold};
ghost use Rattle.mi_commands.specs.Writing.{part_of, Discards, PutsInPlace, WritesPart};

use mi_outside::{Failed, Files};
use std::alloc::{AllocError, Global};

/// The name of a file's part: its own name with `.part` after it.
/// Answers `AllocError` where memory is refused.
pub fn part_name(alloc: Global, out: &str) -> Result<String, AllocError>
    ensures name { IfOk result (λ part. string_bytes part ≡ part_of out.now) }
    ensures differs { IfOk result (λ part. string_bytes part ≢ out.now) }
{
    format!(in alloc; "{out}.part")
}

/// Makes the part a file of these bytes. No other file changes.
/// Answers `Failed` only where the count of faults rose; then the part may hold anything.
pub fn write_part<F: Files>(files: &mut F, part: &str, bytes: &[u8]) -> Result<(), Failed>
    ensures written { IfStillTold (F.held files.old) (F.held files.new)
        (WritesPart result part.now bytes.now) }
    ensures cause { HasCause (F.faults files.old) (F.faults files.new) result }
{
    files.create(part)?;
    files.append(bytes)?;
    files.end_write()
}

/// Makes the part the file: `out` has its content, and the part is gone where the two names
/// differ. No other file changes.
/// Answers `Failed` only where the count of faults rose; then no file changed.
pub fn put_in_place<F: Files>(files: &mut F, part: &str, out: &str) -> Result<(), Failed>
    ensures placed { IfStillTold (F.held files.old) (F.held files.new)
        (PutsInPlace result part.now out.now) }
    ensures cause { HasCause (F.faults files.old) (F.faults files.new) result }
{
    files.rename(part, out)
}

/// Removes the part. No other file changes. It stays only where the count of faults rose.
pub fn discard<F: Files>(files: &mut F, part: &str)
    ensures gone { IfStillTold (F.held files.old) (F.held files.new)
        (Discards part.now (F.faults files.old) (F.faults files.new)) }
    ensures later { F.faults files.old ≤ F.faults files.new }
{
    let _ = files.remove(part);
}
