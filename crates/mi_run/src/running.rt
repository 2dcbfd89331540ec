//! A run of an image.

ghost use Rattle.std.specs.Prelude.{◌≡◌, ◌≢◌, ◌↔◌, ◌≤◌, ◌⊎◌, ℕ, List, [], None, IfSome, IfOk, IfErr, IsErrOf};
ghost use Rattle.mi_model.specs.declared.Pair.{Pair};
ghost use Rattle.mi_model.specs.declared.Kind.TheVariants.{Fixed};
ghost use Rattle.mi_model.specs.Pairs.{IsAllowedPair};
ghost use Rattle.mi_model.specs.Plain.{plain_ops};
ghost use Rattle.mi_model.specs.Image.{loaded};
ghost use Rattle.mi_model.specs.Kernel.{whole_kernel};
ghost use Rattle.mi_model.specs.Run as runs;
ghost use Rattle.mi_machine.specs.Steps.{ops_of};
ghost use Rattle.mi_outside.specs.Causes.{Rose};
ghost use Rattle.mi_outside.specs.Puts.{Output, output_of, Puts};
ghost use Rattle.mi_outside.specs.Written.{Emits};
ghost use Rattle.mi_run.specs.Course.{PutsAs};
ghost use Rattle.mi_run.specs.Ending.{run_of, at_start, EndsAs, WritesAs, KeepsLast, IsRefusal};
ghost use Rattle.mi_run.specs.Waits.{run_taken, run_taken_of, StopsThere};

use crate::course::{Progress, run_on};
use crate::lines::Lines;
use crate::recovery::write_waiting;
use mi_arith::Plain;
use mi_image::Image;
use mi_machine::{Machine, take_entry};
use mi_model::Pair;
use mi_outside::{Gathered, Sink, Source};
use mi_reloc::{LoadFault, RunEnd, load};
use std::alloc::Global;

/// Runs an image at a pair of base addresses: with its entry word, or else with the text interpreter, on the lines of the
/// input, for at most so many instructions. What it emits is written to the output: before a line is read, where 4,096 bytes
/// wait, and before this call answers.
///
/// Without an entry word a throw is followed by a recovery, whose text is output; with one the first throw ends the run,
/// which is `Thrown`. `Bye` comes where `BYE` was executed or the text interpreter wants a line behind the input's last,
/// `Spent` where an instruction beyond the last is needed, and `InputTooLong` where a line is wanted that doesn't end within
/// the first 2^30 bytes of an input that is longer. Once the end of the input was seen it isn't read again.
///
/// Refuses a pair at which no image may stand with `PairNotAllowed`, then a fixed image of another pair with `MadeFor` that
/// pair, and last a want of memory with `NoMemory`. All memory is taken before the first instruction, so input and output are
/// untouched then. `ReadFault` and `WriteFault` come only where the count of faults of the input or of the output rose; then a
/// front of what the run emits was written. `ReadFault` comes at the wait for the first line whose LF isn't among the bytes that
/// were taken of the input, or else at the first wait that meets the input's end; what the run emits up to that wait was
/// written, and nothing else. How far beyond the last line the input was read isn't said where the run ends otherwise.
pub fn run<I: Source, O: Sink>(
    alloc: Global,
    image: &Image,
    pair: Pair,
    turns: u64,
    input: &mut I,
    output: &mut O,
) -> RunEnd
    ensures ends { IfSome (I.left input.old) (λ text. EndsAs result turns (run_of image.now pair text turns).end) }
    ensures writes { IfSome (I.left input.old) (λ text. WritesAs result (O.written output.old) (O.written output.new) (run_of image.now pair text turns).output) }
    ensures wait { result ≡ RunEnd.ReadFault → StopsThere (run_taken_of image.now pair turns) (I.left input.old) (I.left input.new) (O.written output.old) (O.written output.new) }
    ensures silent { IsRefusal result → Emits (O.written output.old) (O.written output.new) [] }
    ensures untouched { IsRefusal result → (input.new ≡ input.old) × (output.new ≡ output.old) }
    ensures pair_not_allowed { (result ≡ RunEnd.PairNotAllowed) ↔ ¬ (IsAllowedPair pair) }
    ensures made_for { (other : Pair) → (result ≡ RunEnd.MadeFor other)
        ↔ (IsAllowedPair pair × (image.now.kind ≡ Fixed) × (image.now.pair ≢ pair) × (other ≡ image.now.pair)) }
    ensures read_fault { result ≡ RunEnd.ReadFault → Rose (I.faults input.old) (I.faults input.new) }
    ensures write_fault { result ≡ RunEnd.WriteFault → Rose (O.faults output.old) (O.faults output.new) }
    ensures input_later { I.faults input.old ≤ I.faults input.new }
    ensures output_later { O.faults output.old ≤ O.faults output.new }
{
    match machine_of(alloc, image, pair) {
        Ok(machine) => match Gathered::new(alloc) {
            Ok(mut gathered) => run_machine(alloc, machine, turns, input, output, &mut gathered),
            Err(_) => RunEnd::NoMemory,
        },
        Err(end) => end,
    }
}

/// Runs an image as `run` does, and leaves in `gathered`, in which nothing waits, the last byte that the run emits.
///
/// After `WriteFault` it isn't said which byte that is.
pub fn run_gathered<I: Source, O: Sink>(
    alloc: Global,
    image: &Image,
    pair: Pair,
    turns: u64,
    input: &mut I,
    output: &mut O,
    gathered: &mut Gathered,
) -> RunEnd
    requires { gathered.old.waiting ≡ [] }
    ensures ends { IfSome (I.left input.old) (λ text. EndsAs result turns (run_of image.now pair text turns).end) }
    ensures writes { IfSome (I.left input.old) (λ text. WritesAs result (O.written output.old) (O.written output.new) (run_of image.now pair text turns).output) }
    ensures wait { result ≡ RunEnd.ReadFault → StopsThere (run_taken_of image.now pair turns) (I.left input.old) (I.left input.new) (O.written output.old) (O.written output.new) }
    ensures silent { IsRefusal result → Emits (O.written output.old) (O.written output.new) [] }
    ensures untouched { IsRefusal result → (input.new ≡ input.old) × (output.new ≡ output.old) }
    ensures pair_not_allowed { (result ≡ RunEnd.PairNotAllowed) ↔ ¬ (IsAllowedPair pair) }
    ensures made_for { (other : Pair) → (result ≡ RunEnd.MadeFor other)
        ↔ (IsAllowedPair pair × (image.now.kind ≡ Fixed) × (image.now.pair ≢ pair) × (other ≡ image.now.pair)) }
    ensures read_fault { result ≡ RunEnd.ReadFault → Rose (I.faults input.old) (I.faults input.new) }
    ensures write_fault { result ≡ RunEnd.WriteFault → Rose (O.faults output.old) (O.faults output.new) }
    ensures input_later { I.faults input.old ≤ I.faults input.new }
    ensures output_later { O.faults output.old ≤ O.faults output.new }
    ensures last { IfSome (I.left input.old) (λ text. KeepsLast result gathered.old.last gathered.new.last (run_of image.now pair text turns).output) }
    ensures none_waits { result ≢ RunEnd.WriteFault → gathered.new.waiting ≡ [] }
{
    match machine_of(alloc, image, pair) {
        Ok(machine) => run_machine(alloc, machine, turns, input, output, gathered),
        Err(end) => end,
    }
}

/// Runs a machine that has taken no instruction; `NoMemory` where there is no memory for the buffers.
fn run_machine<I: Source, O: Sink>(
    alloc: Global,
    machine: Machine<Plain>,
    turns: u64,
    input: &mut I,
    output: &mut O,
    gathered: &mut Gathered,
) -> RunEnd
    requires going { machine.stop ≡ None }
    requires fresh { machine.state.machine.due ≡ None }
    requires none_waits { gathered.old.waiting ≡ [] }
    ensures ends { (region : List ℕ) → machine.state.machine ≡ at_start (ops_of machine.state.arith) region
        → IfSome (I.left input.old) (λ text. EndsAs result turns (runs.run whole_kernel (ops_of machine.state.arith) region text turns).end) }
    ensures writes { (region : List ℕ) → machine.state.machine ≡ at_start (ops_of machine.state.arith) region
        → IfSome (I.left input.old) (λ text. WritesAs result (O.written output.old) (O.written output.new) (runs.run whole_kernel (ops_of machine.state.arith) region text turns).output) }
    ensures last { (region : List ℕ) → machine.state.machine ≡ at_start (ops_of machine.state.arith) region
        → IfSome (I.left input.old) (λ text. KeepsLast result gathered.old.last gathered.new.last (runs.run whole_kernel (ops_of machine.state.arith) region text turns).output) }
    ensures wait { (region : List ℕ) → machine.state.machine ≡ at_start (ops_of machine.state.arith) region → result ≡ RunEnd.ReadFault
        → StopsThere (run_taken whole_kernel (ops_of machine.state.arith) region turns) (I.left input.old) (I.left input.new) (O.written output.old) (O.written output.new) }
    ensures none_waits { result ≢ RunEnd.WriteFault → gathered.new.waiting ≡ [] }
    ensures memory { IsRefusal result → (result ≡ RunEnd.NoMemory) × (input.new ≡ input.old) × (output.new ≡ output.old) }
    ensures read_fault { result ≡ RunEnd.ReadFault → Rose (I.faults input.old) (I.faults input.new) }
    ensures write_fault { result ≡ RunEnd.WriteFault → Rose (O.faults output.old) (O.faults output.new) }
    ensures input_later { I.faults input.old ≤ I.faults input.new }
    ensures output_later { O.faults output.old ≤ O.faults output.new }
{
    let mut machine = machine;
    match Lines::new(alloc) {
        Ok(mut lines) => {
            let entered = take_entry(&mut machine);
            let start = Progress {
                turns,
                left: turns,
                entered,
            };
            let end = run_on(&mut machine, start, &mut lines, input, output, gathered);
            end_output(end, output, gathered)
        }
        Err(_) => RunEnd::NoMemory,
    }
}

/// Writes what waits to be written at the end of a run; how the run has ended, or `WriteFault` where the output fails.
fn end_output<O: Sink>(end: RunEnd, output: &mut O, gathered: &mut Gathered) -> RunEnd
    ensures ended { (result ≡ end) ⊎ (result ≡ RunEnd.WriteFault) }
    ensures writes { (first : Output) (bytes : List ℕ) → first.gathered.waiting ≡ [] → PutsAs end first (output_of (O.written output.old) gathered.old) bytes → WritesAs result first.written (O.written output.new) bytes }
    ensures whole { (first : Output) (bytes : List ℕ) → first.gathered.waiting ≡ [] → Puts first (output_of (O.written output.old) gathered.old) bytes → result ≢ RunEnd.WriteFault → Emits first.written (O.written output.new) bytes }
    ensures last { (first : Output) (bytes : List ℕ) → PutsAs end first (output_of (O.written output.old) gathered.old) bytes → KeepsLast result first.gathered.last gathered.new.last bytes }
    ensures none_waits { result ≢ RunEnd.WriteFault → gathered.new.waiting ≡ [] }
    ensures fault { result ≡ RunEnd.WriteFault → (end ≡ RunEnd.WriteFault) ⊎ Rose (O.faults output.old) (O.faults output.new) }
    ensures later { O.faults output.old ≤ O.faults output.new }
{
    match end {
        RunEnd::WriteFault => RunEnd::WriteFault,
        other => match write_waiting(output, gathered) {
            Ok(()) => other,
            Err(fault) => fault,
        },
    }
}

/// The machine of an image that is loaded at a pair; `PairNotAllowed`, `MadeFor` or `NoMemory` where it isn't.
fn machine_of(alloc: Global, image: &Image, pair: Pair) -> Result<Machine<Plain>, RunEnd>
    ensures arith { IfOk result (λ machine. machine.state.arith ≡ record { pair = pair; size = image.now.size }) }
    ensures machine { IfOk result (λ machine. machine.state.machine ≡ at_start (plain_ops pair image.now.size) (loaded image.now pair)) }
    ensures going { IfOk result (λ machine. machine.stop ≡ None) }
    ensures refused { IfErr result IsRefusal }
    ensures pair_not_allowed { IsErrOf result RunEnd.PairNotAllowed ↔ ¬ (IsAllowedPair pair) }
    ensures made_for { (other : Pair) → IsErrOf result (RunEnd.MadeFor other)
        ↔ (IsAllowedPair pair × (image.now.kind ≡ Fixed) × (image.now.pair ≢ pair) × (other ≡ image.now.pair)) }
{
    match load(alloc, image, pair) {
        Ok(state) => Ok(Machine::new(state)),
        Err(LoadFault::PairNotAllowed) => Err(RunEnd::PairNotAllowed),
        Err(LoadFault::MadeFor(other)) => Err(RunEnd::MadeFor(other)),
        Err(LoadFault::NoMemory) => Err(RunEnd::NoMemory),
    }
}
