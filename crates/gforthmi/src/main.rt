//! `gforthmi`: builds relocatable images of a Forth system, and runs them.
#![tactic(auto)]

ghost use Rattle.std.specs.Prelude.{◌≡◌, ◌≢◌, ◌≤◌, []};
ghost use Rattle.std.specs.IoError.{error_kind};
ghost use Rattle.mi_outside.specs.Causes.{Rose};
ghost use Rattle.mi_outside.specs.Written.{Emits, EmitsFront};
ghost use Rattle.mi_commands.specs.Report.{report_of};

use mi_commands::{Outcome, gforthmi};
use mi_outside::{Sink, StdFiles, StdSink, StdSource};
use std::io::ErrorKind;
use std::process::ExitCode;
use std::{env, io};

/// Makes the adapters of the outside, calls `gforthmi` with the words behind the program's name, and ends with the
/// status of its outcome. Where there is no memory for the words, that is the outcome, and words that aren't UTF-8 are
/// no command.
fn main(rt: HostRuntime) -> ExitCode {
    let alloc = rt.alloc();
    let mut output = StdSink::new(rt.stdout());
    let outcome = match read_words(&rt) {
        Ok(words) => {
            let mut files = StdFiles::new(&rt);
            let mut input = StdSource::new(rt.stdin());
            gforthmi(alloc, &words, &mut files, &mut input, &mut output)
        }
        Err(error) => unread(error, &mut output),
    };
    ExitCode::from(outcome.status())
}

/// The words behind the program's name.
fn read_words(rt: &HostRuntime) -> io::Result<Vec<String>> {
    let mut words = Vec::new(rt.alloc());
    for word in env::args(rt)?.skip(1) {
        words.push(word)?;
    }
    Ok(words)
}

/// Reports that the words can't be had, without taking memory. Whether the report can be written doesn't change the
/// answer.
#[tactic(auto, using(mi_outside::proofs::Writing::front_piece, mi_outside::proofs::Writing::front_whole))]
fn unread<O: Sink>(error: io::Error, output: &mut O) -> Outcome
    ensures no_memory { error_kind error ≡ ErrorKind.OutOfMemory → result ≡ Outcome.NoMemory }
    ensures usage { error_kind error ≢ ErrorKind.OutOfMemory → result ≡ Outcome.Usage }
    ensures front { EmitsFront (O.written output.old) (O.written output.new) (report_of [] [] result) }
    ensures whole { (Rose (O.faults output.old) (O.faults output.new) → ⊥)
        → Emits (O.written output.old) (O.written output.new) (report_of [] [] result) }
    ensures later { O.faults output.old ≤ O.faults output.new }
{
    let (outcome, line) = match error.kind() {
        ErrorKind::OutOfMemory => (Outcome::NoMemory, "no memory\n"),
        _ => (Outcome::Usage, "usage\n"),
    };
    let _ = output.write(line.as_bytes());
    outcome
}
