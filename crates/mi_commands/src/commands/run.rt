//! `run`: runs the image of a file, and reports how that ended.

ghost use Rattle.std.specs.Prelude.{◌≡◌, ◌≢◌, ◌≤◌, ◌⊎◌, ◌∷◌, ℕ, List, [], Option, Some, IfSome, IsSomeAnd};
ghost use Rattle.mi_outside.specs.Causes.{Rose};
ghost use Rattle.mi_outside.specs.Gathered.{last_of};
ghost use Rattle.mi_outside.specs.Holding.{SameFiles};
ghost use Rattle.mi_outside.specs.Telling.{IfStillTold};
ghost use Rattle.mi_outside.specs.Written.{Emits, EmitsFront};
ghost use Rattle.mi_run.specs.Waits.{run_taken_of, StopsThere};
ghost use Rattle.mi_commands.specs.Causes.{ComesOfRun, outcome_of_answer};
ghost use Rattle.mi_commands.specs.Answered.{IsAnswered};
ghost use Rattle.mi_commands.specs.Command.Command.{Run};
ghost use Rattle.mi_commands.specs.Outside.{outside_of};
ghost use Rattle.mi_commands.specs.Outcomes.{IsFault, status_of};
ghost use Rattle.mi_commands.specs.Output.{in_lines, AddsFrontAndLine, AddsLines, MayAddLine};
ghost use Rattle.mi_commands.specs.Possible.{RunMayEnd};
ghost use Rattle.mi_commands.specs.Report.{report_of};
ghost use Rattle.mi_commands.specs.commands.Run.{pair_of_run, ending_at, ending_of_file, run_bytes, StopsInLines, FailsToRead};

use crate::command_line::RunSettings;
use crate::decoding::read_image;
use crate::lines::end_line;
use crate::outcome::Outcome;
use crate::refusing::refuse;
use mi_image::{Image, Kind, Pair};
use mi_outside::{Files, Gathered, Sink, Source};
use mi_run::{RunEnd, run_gathered};
use std::alloc::Global;

/// Where a run stands that is told no pair.
const FIRST: Pair = Pair {
    d: 0x2_0000_0000,
    k: 0x5000_0000_0000,
};

/// The pair of a run. A base that isn't given is that of a fixed image's own pair, or of the usual pair for an image that
/// may stand at any.
fn pair_of(image: &Image, settings: &RunSettings) -> Pair
    ensures { result ≡ pair_of_run settings.now image.now }
{
    let usual = match image.kind() {
        Kind::Relocatable => FIRST,
        Kind::Fixed => image.pair(),
    };
    Pair {
        d: settings.data_base.unwrap_or(usual.d),
        k: settings.code_base.unwrap_or(usual.k),
    }
}

/// The outcome of a run at a pair that ended so.
fn outcome_of(end: RunEnd, pair: Pair) -> Outcome
    ensures { result ≡ outcome_of_answer end pair }
{
    match end {
        RunEnd::Bye => Outcome::Done,
        RunEnd::Thrown { code } => Outcome::EntryThrown { code },
        RunEnd::Spent { turns } => Outcome::Spent { turns },
        RunEnd::ReadFault => Outcome::ReadFault,
        RunEnd::WriteFault => Outcome::WriteFault,
        RunEnd::InputTooLong => Outcome::InputTooLong,
        RunEnd::PairNotAllowed => Outcome::PairNotAllowed(pair),
        RunEnd::MadeFor(other) => Outcome::MadeFor(other),
        RunEnd::NoMemory => Outcome::NoMemory,
    }
}

/// Runs the image at the pair. What it emits is written to the output as it comes, by way of `gathered`, in which nothing
/// waits.
fn run_at<I: Source, O: Sink>(
    alloc: Global,
    image: &Image,
    pair: Pair,
    turns: u64,
    input: &mut I,
    output: &mut O,
    gathered: &mut Gathered,
) -> Outcome
    requires { gathered.old.waiting ≡ [] }
    ensures cause { IsFault result ⊎ IfSome (I.left input.old) (λ text. result ≡ (ending_at image.now pair text turns).outcome) }
    ensures possible { RunMayEnd result }
    ensures front { IfSome (I.left input.old) (λ text. EmitsFront (O.written output.old) (O.written output.new) (ending_at image.now pair text turns).emitted) }
    ensures whole { result ≢ Outcome.NoMemory → result ≢ Outcome.ReadFault → result ≢ Outcome.WriteFault
        → IfSome (I.left input.old) (λ text. Emits (O.written output.old) (O.written output.new) (ending_at image.now pair text turns).emitted) }
    ensures last { result ≢ Outcome.NoMemory → result ≢ Outcome.ReadFault → result ≢ Outcome.WriteFault
        → IfSome (I.left input.old) (λ text. gathered.new.last ≡ last_of gathered.old.last (ending_at image.now pair text turns).emitted) }
    ensures stops { result ≡ Outcome.ReadFault → StopsThere (run_taken_of image.now pair turns) (I.left input.old) (I.left input.new) (O.written output.old) (O.written output.new) }
    ensures untouched { result ≡ Outcome.NoMemory → (input.new ≡ input.old) × (output.new ≡ output.old) }
    ensures read_fault { result ≡ Outcome.ReadFault → Rose (I.faults input.old) (I.faults input.new) }
    ensures write_fault { result ≡ Outcome.WriteFault → Rose (O.faults output.old) (O.faults output.new) }
    ensures later { O.faults output.old ≤ O.faults output.new }
{
    outcome_of(
        run_gathered(alloc, image, pair, turns, input, output, gathered),
        pair,
    )
}

/// Ends the last line of what a run emitted where a report follows and this byte, its last, is no line feed. A run that is
/// done has no report, and one without memory has emitted nothing.
fn end_lines<O: Sink>(outcome: Outcome, last: u8, output: &mut O) -> Outcome
    ensures same { (result ≡ outcome) ⊎ (result ≡ Outcome.WriteFault) }
    ensures cut { (first : Option (List ℕ)) (bytes : List ℕ) → EmitsFront first (O.written output.old) bytes → IfStillTold first (O.written output.new) (AddsFrontAndLine bytes) }
    ensures done { result ≡ Outcome.Done → (outcome ≡ Outcome.Done) × (O.written output.new ≡ O.written output.old) }
    ensures lines { result ≢ Outcome.Done → result ≢ Outcome.NoMemory → result ≢ Outcome.WriteFault → (first : Option (List ℕ)) (bytes : List ℕ) → last ≡ last_of 10 bytes → Emits first (O.written output.old) bytes → Emits first (O.written output.new) (in_lines bytes) }
    ensures line { result ≡ Outcome.ReadFault → (outcome ≡ Outcome.ReadFault) × MayAddLine (O.written output.old) (O.written output.new) }
    ensures untouched { result ≡ Outcome.NoMemory → output.new ≡ output.old }
    ensures fault { result ≡ Outcome.WriteFault → (outcome ≡ Outcome.WriteFault) ⊎ Rose (O.faults output.old) (O.faults output.new) }
    ensures later { O.faults output.old ≤ O.faults output.new }
{
    match outcome {
        Outcome::Done => Outcome::Done,
        Outcome::NoMemory => Outcome::NoMemory,
        outcome => match end_line(last, output) {
            Ok(()) => outcome,
            Err(_) => Outcome::WriteFault,
        },
    }
}

/// Runs the image at the pair. What it emits is written as it comes, with a line feed behind it where a report follows and
/// its last line has none. Where there is no memory, nothing was read or written.
fn run_in_lines<I: Source, O: Sink>(
    alloc: Global,
    image: &Image,
    pair: Pair,
    turns: u64,
    input: &mut I,
    output: &mut O,
) -> Outcome
    ensures cause { IsFault result ⊎ IfSome (I.left input.old) (λ text. result ≡ (ending_at image.now pair text turns).outcome) }
    ensures possible { RunMayEnd result }
    ensures front { IfSome (I.left input.old) (λ text. IfStillTold (O.written output.old) (O.written output.new) (AddsFrontAndLine (ending_at image.now pair text turns).emitted)) }
    ensures done { result ≡ Outcome.Done
        → IfSome (I.left input.old) (λ text. Emits (O.written output.old) (O.written output.new) (ending_at image.now pair text turns).emitted) }
    ensures lines { result ≢ Outcome.Done → result ≢ Outcome.NoMemory → result ≢ Outcome.ReadFault → result ≢ Outcome.WriteFault
        → IfSome (I.left input.old) (λ text. Emits (O.written output.old) (O.written output.new) (in_lines (ending_at image.now pair text turns).emitted)) }
    ensures stops { result ≡ Outcome.ReadFault → IfSome (I.left input.old) (λ text. IsSomeAnd (I.left input.new) (λ rest.
        StopsInLines (run_taken_of image.now pair turns) text rest (O.written output.old) (O.written output.new))) }
    ensures untouched { result ≡ Outcome.NoMemory → (input.new ≡ input.old) × (output.new ≡ output.old) }
    ensures read_fault { result ≡ Outcome.ReadFault → Rose (I.faults input.old) (I.faults input.new) }
    ensures write_fault { result ≡ Outcome.WriteFault → Rose (O.faults output.old) (O.faults output.new) }
    ensures later { O.faults output.old ≤ O.faults output.new }
{
    match Gathered::new(alloc) {
        Ok(mut gathered) => {
            let outcome = run_at(alloc, image, pair, turns, input, output, &mut gathered);
            end_lines(outcome, gathered.last(), output)
        }
        Err(_) => Outcome::NoMemory,
    }
}

/// Runs the image of the named file, and reports how that ended, unless it is `Done`. No file changes.
pub fn run<F: Files, I: Source, O: Sink>(
    alloc: Global,
    image: &str,
    settings: &RunSettings,
    files: &mut F,
    input: &mut I,
    output: &mut O,
) -> Outcome
    ensures { IsAnswered (Some (Run image.now settings.now)) result
        (outside_of (F.held files.old) (F.faults files.old) (I.left input.old) (I.faults input.old) (O.written output.old) (O.faults output.old))
        (outside_of (F.held files.new) (F.faults files.new) (I.left input.new) (I.faults input.new) (O.written output.new) (O.faults output.new)) }
{
    run_image(alloc, image, settings, files, input, output)
}

/// The same, clause by clause.
fn run_image<F: Files, I: Source, O: Sink>(
    alloc: Global,
    name: &str,
    settings: &RunSettings,
    files: &mut F,
    input: &mut I,
    output: &mut O,
) -> Outcome
    ensures cause { ComesOfRun result settings.now name.now (F.held files.old) (I.left input.old) }
    ensures possible { RunMayEnd result }
    ensures kept { IfStillTold (F.held files.old) (F.held files.new) SameFiles }
    ensures writes { IfSome (F.held files.old) (λ old. IfSome (I.left input.old) (λ text.
        IfStillTold (O.written output.old) (O.written output.new)
        (AddsLines (run_bytes name.now (ending_of_file settings.now (old.file name.now) text)) (report_of [] (name.now ∷ []) result)))) }
    ensures writes_all { result ≢ Outcome.NoMemory
        → (Rose (F.faults files.old) (F.faults files.new) → ⊥) → (Rose (O.faults output.old) (O.faults output.new) → ⊥)
        → (Rose (I.faults input.old) (I.faults input.new) → ⊥)
        → IfSome (F.held files.old) (λ old. IfSome (I.left input.old) (λ text.
        Emits (O.written output.old) (O.written output.new) (run_bytes name.now (ending_of_file settings.now (old.file name.now) text)))) }
    ensures written { status_of result ≡ 0 → IfSome (F.held files.old) (λ old. IfSome (I.left input.old) (λ text.
        Emits (O.written output.old) (O.written output.new) (run_bytes name.now (ending_of_file settings.now (old.file name.now) text)))) }
    ensures stops { result ≡ Outcome.ReadFault → IfSome (F.held files.old) (λ old. IfSome (I.left input.old) (λ text. IsSomeAnd (I.left input.new) (λ rest.
        FailsToRead settings.now (old.file name.now) text rest (report_of [] (name.now ∷ []) Outcome.ReadFault) (O.written output.old) (O.written output.new)))) }
    ensures read_fault { result ≡ Outcome.ReadFault
        → Rose (F.faults files.old) (F.faults files.new) ⊎ Rose (I.faults input.old) (I.faults input.new) }
    ensures write_fault { result ≡ Outcome.WriteFault → Rose (O.faults output.old) (O.faults output.new) }
{
    match read_image(alloc, files, name) {
        Err(outcome) => refuse_run(alloc, name, outcome, output),
        Ok(image) => {
            let pair = pair_of(&image, settings);
            let outcome = run_in_lines(alloc, &image, pair, settings.turns, input, output);
            report_run(alloc, name, outcome, output)
        }
    }
}

/// Reports a refusal of a run, and answers it, or that there is no memory for the report.
fn refuse_run<O: Sink>(alloc: Global, name: &str, outcome: Outcome, output: &mut O) -> Outcome
    ensures same { (result ≡ outcome) ⊎ (result ≡ Outcome.NoMemory) }
    ensures front { EmitsFront (O.written output.old) (O.written output.new) (report_of [] (name.now ∷ []) result) }
    ensures whole { (Rose (O.faults output.old) (O.faults output.new) → ⊥)
        → Emits (O.written output.old) (O.written output.new) (report_of [] (name.now ∷ []) result) }
    ensures later { O.faults output.old ≤ O.faults output.new }
{
    refuse(alloc, "", &[name], outcome, output)
}

/// Reports the outcome of a run, unless it is done, and answers it, or that there is no memory for the report.
#[tactic(auto, using(crate::proofs::RunOutput::done_front, crate::proofs::RunOutput::done_whole))]
fn report_run<O: Sink>(alloc: Global, name: &str, outcome: Outcome, output: &mut O) -> Outcome
    ensures same { (result ≡ outcome) ⊎ (result ≡ Outcome.NoMemory) }
    ensures front { EmitsFront (O.written output.old) (O.written output.new) (report_of [] (name.now ∷ []) result) }
    ensures whole { (Rose (O.faults output.old) (O.faults output.new) → ⊥)
        → Emits (O.written output.old) (O.written output.new) (report_of [] (name.now ∷ []) result) }
    ensures done { result ≡ Outcome.Done → Emits (O.written output.old) (O.written output.new) [] }
    ensures later { O.faults output.old ≤ O.faults output.new }
{
    match outcome {
        Outcome::Done => Outcome::Done,
        outcome => refuse_run(alloc, name, outcome, output),
    }
}
