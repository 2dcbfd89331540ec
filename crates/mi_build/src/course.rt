//! The course of a build: instructions up to a wait, and lines one after another.

ghost use Rattle.std.specs.Prelude.{◌≡◌, ◌<◌, ◌≤◌, ◌+◌, ◌-◌, ◌^◌, ℕ, [], ◌∷◌, ◌++◌, length, true, false, None, Some, drop, OnOk, IfErr, IsErrOf};
ghost use Rattle.mi_outside.specs.Causes.{Rose};
ghost use Rattle.mi_model.specs.Outcome.{outcome_of};
ghost use Rattle.mi_model.specs.Input as inputs;
ghost use Rattle.mi_model.specs.Lines.{lines_of, numbered, lines_of_all};
ghost use Rattle.mi_model.specs.Kernel.{whole_kernel};
ghost use Rattle.mi_model.specs.Build.{end_given, end_emitted, advanced, emitted, after_line, emitted_after_line, lines_given, lines_emitted};
ghost use Rattle.mi_machine.specs.declared.machine.Stop.TheVariants.{WantLine};
ghost use Rattle.mi_reloc.specs.declared.building.BuildFault.TheVariants.{WriteFault};
ghost use Rattle.mi_build.specs.Course.{progress_of, fault_at, Stops, StopsOrGoes, IsNoWait, IsNoWaitAfter, HaltsAt, EmitsNone};
ghost use Rattle.mi_build.specs.Puts.{PutsAll, PutsOn, output_of};

use crate::putting::{put_byte, write_waiting};
use crate::steps::{Failure, Step, take_end, take_line, take_step};
use mi_arith::Arith;
use mi_machine::Machine;
use mi_outside::{Gathered, Sink};
use mi_reloc::{BuildFault, Sources};
use mi_text::next_line;

/// How far a build has come in its budget: how many instructions are left, and the file and line that were given last.
#[derive(Clone, Copy, Debug, PartialEq, Eq, Drop)]
pub struct Position {
    pub left: u64,
    pub file: u32,
    pub line: u32,
}

/// Why a build pauses: a line is wanted, or the machine was halted.
#[derive(Clone, Copy, Debug, PartialEq, Eq, Drop)]
pub enum Pause {
    Wanting,
    Halting,
}

/// A failure as a build answers it; a refusal has the number of its instruction.
pub fn fault_of(failure: Failure, at: &Position, number: u64) -> BuildFault
    ensures { result ≡ fault_at failure at.now number }
{
    match failure {
        Failure::Thrown(code) => BuildFault::Thrown {
            code,
            file: at.file,
            line: at.line,
        },
        Failure::Refused {
            at: token,
            first,
            second,
            why,
        } => BuildFault::Step {
            number,
            offset: token.offset,
            tag: token.tag,
            first,
            second,
            why,
            file: at.file,
            line: at.line,
        },
        Failure::NoMemory => BuildFault::NoMemory,
    }
}

/// How many instructions of the budget were taken.
pub fn taken(budget: u64, at: &Position) -> u64
    ensures { result ≡ budget - at.now.left }
{
    budget.saturating_sub(at.left)
}

/// The number of the instruction that would be the next one.
pub fn next_number(budget: u64, at: &Position) -> u64
    requires { budget ≤ 2 ^ 40 }
    ensures { result ≡ budget - at.now.left + 1 }
{
    taken(budget, at) + 1
}

/// Gives the end of the input to a machine that wants a line; answers the pause that it leads to, or none.
#[tactic(auto, using(crate::proofs::StepLemmas::end_is_quiet))]
fn end_input<A: Arith>(
    machine: &mut Machine<A>,
    budget: u64,
    at: &Position,
) -> Result<Option<Pause>, BuildFault>
    requires wants { machine.old.stop ≡ Some WantLine }
    requires budget { budget ≤ 2 ^ 40 }
    ensures stops { StopsOrGoes (A.ops machine.old.state.arith) result machine.new true budget at.now (end_given (A.ops machine.old.state.arith) (advanced whole_kernel (A.ops machine.old.state.arith) true at.now.left) (progress_of budget at.now machine.old)) }
    ensures waits { IsNoWait true result }
    ensures arith { OnOk result (machine.new.state.arith ≡ machine.old.state.arith) }
    ensures silent { EmitsNone (A.ops machine.old.state.arith) result machine.new at.now (end_emitted (A.ops machine.old.state.arith) (emitted whole_kernel (A.ops machine.old.state.arith) true at.now.left) machine.old.state.machine) }
    ensures no_fault { IsErrOf result WriteFault → ⊥ }
{
    match take_end(machine) {
        Step::Passed => Ok(None),
        Step::Halting => Ok(Some(Pause::Halting)),
        Step::Failed(failure) => Err(fault_of(failure, at, next_number(budget, at))),
        Step::Emitted(_) => unreachable!(),
        Step::Wanting => unreachable!(),
    }
}

/// Takes one of the instructions that are left; answers the pause that it leads to, or none. Where the input has ended,
/// its end is given at a wait.
#[tactic(auto, using(crate::proofs::CourseLemmas::advanced_next, crate::proofs::CourseLemmas::emitted_next, crate::proofs::PutLemmas::puts_nothing, crate::proofs::PutLemmas::puts_first, crate::proofs::PutLemmas::lost_first))]
fn run_one<A: Arith, O: Sink>(
    machine: &mut Machine<A>,
    budget: u64,
    at: &mut Position,
    ended: bool,
    output: &mut O,
    gathered: &mut Gathered,
) -> Result<Option<Pause>, BuildFault>
    requires going { machine.old.stop ≡ None }
    requires left { 0 < at.old.left }
    requires budget { budget ≤ 2 ^ 40 }
    ensures stops { StopsOrGoes (A.ops machine.old.state.arith) result machine.new ended budget at.new (advanced whole_kernel (A.ops machine.old.state.arith) ended at.old.left (progress_of budget at.old machine.old)) }
    ensures waits { IsNoWait ended result }
    ensures fewer { at.new.left < at.old.left }
    ensures arith { OnOk result (machine.new.state.arith ≡ machine.old.state.arith) }
    ensures puts { PutsOn result (output_of (O.written output.old) gathered.old) (output_of (O.written output.new) gathered.new) (emitted whole_kernel (A.ops machine.old.state.arith) ended at.old.left machine.old.state.machine) (emitted whole_kernel (A.ops machine.old.state.arith) ended at.new.left machine.new.state.machine) }
    ensures fault { IsErrOf result WriteFault → Rose (O.faults output.old) (O.faults output.new) }
    ensures later { O.faults output.old ≤ O.faults output.new }
{
    at.left -= 1;
    match take_step(machine) {
        Step::Passed => Ok(None),
        Step::Emitted(byte) => match put_byte(output, gathered, byte) {
            Ok(()) => Ok(None),
            Err(fault) => Err(fault),
        },
        Step::Wanting => {
            if ended {
                return end_input(machine, budget, at);
            }
            Ok(Some(Pause::Wanting))
        }
        Step::Halting => Ok(Some(Pause::Halting)),
        Step::Failed(failure) => Err(fault_of(failure, at, taken(budget, at))),
    }
}

/// Takes instructions up to a pause, which is none at a wait where the input has ended.
#[tactic(auto, using(crate::proofs::PutLemmas::puts_on, crate::proofs::PutLemmas::front_on, crate::proofs::PutLemmas::lost_on))]
pub fn run_on<A: Arith, O: Sink>(
    machine: &mut Machine<A>,
    budget: u64,
    at: &mut Position,
    ended: bool,
    output: &mut O,
    gathered: &mut Gathered,
) -> Result<Pause, BuildFault>
    requires going { machine.old.stop ≡ None }
    requires budget { budget ≤ 2 ^ 40 }
    ensures stops { Stops result machine.new budget at.new (advanced whole_kernel (A.ops machine.old.state.arith) ended at.old.left (progress_of budget at.old machine.old)) }
    ensures waits { IsNoWaitAfter ended result }
    ensures arith { OnOk result (machine.new.state.arith ≡ machine.old.state.arith) }
    ensures puts { PutsAll result (output_of (O.written output.old) gathered.old) (output_of (O.written output.new) gathered.new) (emitted whole_kernel (A.ops machine.old.state.arith) ended at.old.left machine.old.state.machine) }
    ensures fault { IsErrOf result WriteFault → Rose (O.faults output.old) (O.faults output.new) }
    ensures later { O.faults output.old ≤ O.faults output.new }
{
    'turns: while at.left > 0 {
        match run_one(machine, budget, at, ended, output, gathered) {
            Ok(None) => {}
            Ok(Some(pause)) => return Ok(pause),
            Err(fault) => return Err(fault),
        }
    }
    Err(BuildFault::Spent { turns: budget })
}

/// Gives a line where nothing waits for the output, and takes instructions up to a pause.
fn run_given<A: Arith, O: Sink>(
    machine: &mut Machine<A>,
    budget: u64,
    at: &mut Position,
    line: &[u8],
    output: &mut O,
    gathered: &mut Gathered,
) -> Result<Pause, BuildFault>
    requires wants { machine.old.stop ≡ Some WantLine }
    requires none_waits { gathered.old.waiting ≡ [] }
    requires budget { budget ≤ 2 ^ 40 }
    ensures stops { Stops result machine.new budget at.new (after_line whole_kernel (A.ops machine.old.state.arith) (progress_of budget at.old machine.old) (outcome_of (A.ops machine.old.state.arith) (inputs.give_line line.now) machine.old.state.machine [])) }
    ensures arith { OnOk result (machine.new.state.arith ≡ machine.old.state.arith) }
    ensures puts { PutsAll result (output_of (O.written output.old) gathered.old) (output_of (O.written output.new) gathered.new) (emitted_after_line whole_kernel (A.ops machine.old.state.arith) at.old.left (outcome_of (A.ops machine.old.state.arith) (inputs.give_line line.now) machine.old.state.machine [])) }
    ensures fault { IsErrOf result WriteFault → Rose (O.faults output.old) (O.faults output.new) }
    ensures later { O.faults output.old ≤ O.faults output.new }
{
    match take_line(machine, line) {
        Ok(()) => run_on(machine, budget, at, false, output, gathered),
        Err(failure) => Err(fault_of(failure, at, next_number(budget, at))),
    }
}

/// Writes what waits, gives a line, and takes instructions up to a pause.
#[tactic(auto, using(crate::proofs::PutLemmas::puts_then))]
fn run_line<A: Arith, O: Sink>(
    machine: &mut Machine<A>,
    budget: u64,
    at: &mut Position,
    line: &[u8],
    output: &mut O,
    gathered: &mut Gathered,
) -> Result<Pause, BuildFault>
    requires wants { machine.old.stop ≡ Some WantLine }
    requires budget { budget ≤ 2 ^ 40 }
    ensures stops { Stops result machine.new budget at.new (after_line whole_kernel (A.ops machine.old.state.arith) (progress_of budget at.old machine.old) (outcome_of (A.ops machine.old.state.arith) (inputs.give_line line.now) machine.old.state.machine [])) }
    ensures arith { OnOk result (machine.new.state.arith ≡ machine.old.state.arith) }
    ensures puts { PutsAll result (output_of (O.written output.old) gathered.old) (output_of (O.written output.new) gathered.new) (emitted_after_line whole_kernel (A.ops machine.old.state.arith) at.old.left (outcome_of (A.ops machine.old.state.arith) (inputs.give_line line.now) machine.old.state.machine [])) }
    ensures fault { IsErrOf result WriteFault → Rose (O.faults output.old) (O.faults output.new) }
    ensures later { O.faults output.old ≤ O.faults output.new }
{
    match write_waiting(output, gathered) {
        Ok(()) => run_given(machine, budget, at, line, output, gathered),
        Err(fault) => Err(fault),
    }
}

/// Gives the lines of a text, each at a pause.
#[tactic(auto, using(crate::proofs::CourseLemmas::told_on_wait, crate::proofs::CourseLemmas::fault_emits, crate::proofs::PutLemmas::puts_on, crate::proofs::PutLemmas::puts_front, crate::proofs::PutLemmas::front_behind, crate::proofs::PutLemmas::lost_behind))]
pub fn run_text<A: Arith, O: Sink>(
    machine: &mut Machine<A>,
    budget: u64,
    at: &mut Position,
    file: u32,
    text: &[u8],
    output: &mut O,
    gathered: &mut Gathered,
) -> Result<Pause, BuildFault>
    requires wants { machine.old.stop ≡ Some WantLine }
    requires budget { budget ≤ 2 ^ 40 }
    requires short { length text.now ≤ 4194304 }
    ensures stops { Stops result machine.new budget at.new (lines_given whole_kernel (A.ops machine.old.state.arith) (numbered file 1 (lines_of text.now)) (progress_of budget at.old machine.old)) }
    ensures arith { OnOk result (machine.new.state.arith ≡ machine.old.state.arith) }
    ensures puts { PutsAll result (output_of (O.written output.old) gathered.old) (output_of (O.written output.new) gathered.new) (lines_emitted whole_kernel (A.ops machine.old.state.arith) (numbered file 1 (lines_of text.now)) (progress_of budget at.old machine.old)) }
    ensures fault { IsErrOf result WriteFault → Rose (O.faults output.old) (O.faults output.new) }
    ensures later { O.faults output.old ≤ O.faults output.new }
{
    let mut from = 0;
    let mut number = 0;
    'lines: while let Some(line) = next_line(text, from) {
        number += 1;
        from = line.next;
        at.file = file;
        at.line = number;
        match run_line(
            machine,
            budget,
            at,
            &text[line.start..line.end],
            output,
            gathered,
        ) {
            Ok(Pause::Wanting) => {}
            Ok(Pause::Halting) => return Ok(Pause::Halting),
            Err(fault) => return Err(fault),
        }
    }
    Ok(Pause::Wanting)
}

/// Gives the lines of all texts, one text after another.
#[tactic(auto, using(crate::proofs::CourseLemmas::texts_next, crate::proofs::CourseLemmas::texts_emit_next, crate::proofs::CourseLemmas::told_on_wait, crate::proofs::CourseLemmas::fault_emits, crate::proofs::PutLemmas::puts_on, crate::proofs::PutLemmas::puts_front, crate::proofs::PutLemmas::front_behind, crate::proofs::PutLemmas::lost_behind))]
pub fn run_sources<A: Arith, O: Sink>(
    machine: &mut Machine<A>,
    budget: u64,
    at: &mut Position,
    sources: &Sources,
    output: &mut O,
    gathered: &mut Gathered,
) -> Result<Pause, BuildFault>
    requires wants { machine.old.stop ≡ Some WantLine }
    requires budget { budget ≤ 2 ^ 40 }
    ensures stops { Stops result machine.new budget at.new (lines_given whole_kernel (A.ops machine.old.state.arith) (lines_of_all 1 sources.now) (progress_of budget at.old machine.old)) }
    ensures arith { OnOk result (machine.new.state.arith ≡ machine.old.state.arith) }
    ensures puts { PutsAll result (output_of (O.written output.old) gathered.old) (output_of (O.written output.new) gathered.new) (lines_emitted whole_kernel (A.ops machine.old.state.arith) (lines_of_all 1 sources.now) (progress_of budget at.old machine.old)) }
    ensures fault { IsErrOf result WriteFault → Rose (O.faults output.old) (O.faults output.new) }
    ensures later { O.faults output.old ≤ O.faults output.new }
{
    let count = sources.count();
    let mut i = 0;
    'texts: while i < count {
        let text = sources.text(i);
        i += 1;
        match run_text(machine, budget, at, i, text, output, gathered) {
            Ok(Pause::Wanting) => {}
            Ok(Pause::Halting) => return Ok(Pause::Halting),
            Err(fault) => return Err(fault),
        }
    }
    Ok(Pause::Wanting)
}

/// Gives the end of the input at a wait, and takes instructions until the machine halts.
pub fn run_end<A: Arith, O: Sink>(
    machine: &mut Machine<A>,
    budget: u64,
    at: &mut Position,
    output: &mut O,
    gathered: &mut Gathered,
) -> Result<(), BuildFault>
    requires wants { machine.old.stop ≡ Some WantLine }
    requires budget { budget ≤ 2 ^ 40 }
    ensures stops { HaltsAt result machine.new budget at.new (end_given (A.ops machine.old.state.arith) (advanced whole_kernel (A.ops machine.old.state.arith) true at.old.left) (progress_of budget at.old machine.old)) }
    ensures arith { OnOk result (machine.new.state.arith ≡ machine.old.state.arith) }
    ensures puts { PutsAll result (output_of (O.written output.old) gathered.old) (output_of (O.written output.new) gathered.new) (end_emitted (A.ops machine.old.state.arith) (emitted whole_kernel (A.ops machine.old.state.arith) true at.old.left) machine.old.state.machine) }
    ensures fault { IsErrOf result WriteFault → Rose (O.faults output.old) (O.faults output.new) }
    ensures later { O.faults output.old ≤ O.faults output.new }
{
    match end_input(machine, budget, at) {
        Ok(None) => {}
        Ok(Some(_)) => return Ok(()),
        Err(fault) => return Err(fault),
    }
    match run_on(machine, budget, at, true, output, gathered) {
        Ok(Pause::Halting) => Ok(()),
        Ok(Pause::Wanting) => unreachable!(),
        Err(fault) => Err(fault),
    }
}
