// Reads a source file whole.
ghost use Rattle.std.specs.Prelude.{◌≡◌, ◌≢◌, ◌<◌, ◌≤◌, ℕ, length, vec_len, None, IfOk, IfSome, IsErrOf, IsTrue};
ghost use Rattle.mi_outside.specs.Causes.{Rose};
ghost use Rattle.mi_outside.specs.Telling.{WhileTold};
ghost use Rattle.mi_commands.specs.declared.reading.ReadProblem.TheVariants.{Fault, NoMemory};
ghost use Rattle.mi_commands.specs.Contract.{built_of};
ghost use Rattle.mi_commands.specs.Limits.{source_limit};
ghost use Rattle.mi_commands.specs.Possible.{IsSource, BuildMayEnd};
ghost use Rattle.mi_commands.specs.Reading.{HasNoText, ReadsSource, outcome_of_problem};
ghost use Rattle.mi_commands.specs.Pieces.{ReadsPiece, ReadsRest};

use crate::outcome::Outcome;
use mi_outside::{Failed, Files};
use std::alloc::{AllocError, Global};

/// The most bytes that a source may have.
pub const SOURCE_LIMIT: usize = 4_194_304;

/// The most sources that a build may have.
pub const SOURCE_COUNT: usize = 64;

// How many bytes are asked for at a time.
const BUFFER_SIZE: usize = 65_536;

/// Why a source was not read.
#[derive(Clone, Copy, Debug, PartialEq, Eq, Drop)]
pub enum ReadProblem {
    /// There is no such file.
    Missing,
    /// It has more than `SOURCE_LIMIT` bytes.
    TooLong,
    /// A call on the files failed.
    Fault,
    /// Memory was refused.
    NoMemory,
}

impl From<AllocError> for ReadProblem {
    ghost from_gives = { λ _ problem. problem ≡ NoMemory };

    fn from(_: AllocError) -> ReadProblem {
        ReadProblem::NoMemory
    }
}

impl From<Failed> for ReadProblem {
    ghost from_gives = { λ _ problem. problem ≡ Fault };

    fn from(_: Failed) -> ReadProblem {
        ReadProblem::Fault
    }
}

/// The outcome of a build where this file was not read.
pub fn outcome_of(file: u32, problem: ReadProblem) -> Outcome
    ensures outcome { result ≡ outcome_of_problem file problem }
    ensures possible { (count : ℕ) → IsSource file count → BuildMayEnd result count }
    ensures unbuilt { built_of result ≡ None }
    ensures read { result ≡ Outcome.ReadFault → problem ≡ Fault }
    ensures no_write { result ≢ Outcome.WriteFault }
{
    match problem {
        ReadProblem::Missing => Outcome::NoFile { file },
        ReadProblem::TooLong => Outcome::SourceTooLong { file },
        ReadProblem::Fault => Outcome::ReadFault,
        ReadProblem::NoMemory => Outcome::NoMemory,
    }
}

/// The bytes of the named file. No file changes, the same file is being written as before, and
/// none is being read.
/// Answers `Missing` where there is no such file, `TooLong` where it has more than `SOURCE_LIMIT`
/// bytes, `Fault` only where the count of faults rose, and `NoMemory` where memory is refused.
pub fn read_source<F: Files>(
    alloc: Global,
    files: &mut F,
    name: &str,
) -> Result<Vec<u8>, ReadProblem>
    ensures read { WhileTold (F.held files.old) (F.held files.new) (ReadsSource result name.now) }
    ensures ended { IfSome (F.held files.new) (λ now. now.reading ≡ None) }
    ensures missing { IfSome (F.held files.old)
        (λ old. old.file name.now ≡ None → HasNoText result) }
    ensures short { IfOk result (λ text. vec_len text ≤ source_limit) }
    ensures later { F.faults files.old ≤ F.faults files.new }
    ensures fault { IsErrOf result ReadProblem.Fault
        → Rose (F.faults files.old) (F.faults files.new) }
{
    let answer = read_whole(alloc, files, name);
    files.end_read();
    answer
}

// Begins to read the file and reads it whole.
fn read_whole<F: Files>(alloc: Global, files: &mut F, name: &str) -> Result<Vec<u8>, ReadProblem>
    ensures read { WhileTold (F.held files.old) (F.held files.new) (ReadsSource result name.now) }
    ensures short { IfOk result (λ text. vec_len text ≤ source_limit) }
    ensures later { F.faults files.old ≤ F.faults files.new }
    ensures fault { IsErrOf result ReadProblem.Fault
        → Rose (F.faults files.old) (F.faults files.new) }
{
    let mut buffer = vec![in alloc; 0; BUFFER_SIZE]?;
    if !files.begin_read(name)? {
        return Err(ReadProblem::Missing);
    }
    read_rest(alloc, files, buffer.as_mut_slice())
}

// Reads the file that is being read to its end, a buffer at a time.
fn read_rest<F: Files>(
    alloc: Global,
    files: &mut F,
    buffer: &mut [u8],
) -> Result<Vec<u8>, ReadProblem>
    requires { 0 < length buffer.old }
    ensures read { WhileTold (F.held files.old) (F.held files.new) (ReadsRest result) }
    ensures short { IfOk result (λ text. vec_len text ≤ source_limit) }
    ensures later { F.faults files.old ≤ F.faults files.new }
    ensures fault { IsErrOf result ReadProblem.Fault
        → Rose (F.faults files.old) (F.faults files.new) }
{
    let mut text = Vec::new(alloc);
    while read_piece(files, buffer, &mut text)? {}
    Ok(text)
}

// Appends the next piece to the text. False means that the end is reached.
fn read_piece<F: Files>(
    files: &mut F,
    buffer: &mut [u8],
    text: &mut Vec<u8>,
) -> Result<bool, ReadProblem>
    requires room { 0 < length buffer.old }
    requires short { vec_len text.old ≤ source_limit }
    ensures read { WhileTold (F.held files.old) (F.held files.new)
        (ReadsPiece result text.old.items text.new.items) }
    ensures short { vec_len text.new ≤ source_limit }
    ensures grown { IfOk result (λ more. IsTrue more → vec_len text.old < vec_len text.new) }
    ensures later { F.faults files.old ≤ F.faults files.new }
    ensures fault { IsErrOf result ReadProblem.Fault
        → Rose (F.faults files.old) (F.faults files.new) }
{
    let count = files.read(buffer)?;
    if count == 0 {
        return Ok(false);
    }
    if count > SOURCE_LIMIT - text.len() {
        return Err(ReadProblem::TooLong);
    }
    text.extend_from_slice(&buffer[..count])?;
    Ok(true)
}
