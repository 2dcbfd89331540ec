//! The course of a run: instructions, and at a wait the next line of the input or its end.

ghost use Rattle.std.specs.Prelude.{◌≡◌, ◌<◌, ◌≤◌, ℕ, [], None, Some, Ok, Err, OnOk, IfErr, IsErrOf, IfSome};
ghost use Rattle.mi_model.specs.Outcome.{outcome_of};
ghost use Rattle.mi_model.specs.declared.Fault.TheVariants.{Throw};
ghost use Rattle.mi_model.specs.Input as inputs;
ghost use Rattle.mi_model.specs.Run.{Course, Rest, after_fault, after_line, after_end};
ghost use Rattle.mi_machine.specs.declared.machine.Stop.TheVariants.{WantLine, Thrown};
ghost use Rattle.mi_machine.specs.Steps.{ops_of};
ghost use Rattle.mi_outside.specs.Causes.{Rose};
ghost use Rattle.mi_outside.specs.Puts.{output_of};
ghost use Rattle.mi_reloc.specs.declared.ending.RunEnd.TheVariants.{ReadFault, WriteFault};
ghost use Rattle.mi_run.specs.Course.{run_left, wait_left, Goes, GoesFrom, PutsAs};
ghost use Rattle.mi_run.specs.Ending.{EndsAs, IsRefusal};
ghost use Rattle.mi_run.specs.Reading.{reading_of, IsDoneAtEnd};
ghost use Rattle.mi_run.specs.Taking.{left_taken, wait_taken, StopsAs, GoesTaking};

use crate::lines::{Lines, Next};
use crate::recovery::{emit, write_recovery, write_waiting};
use mi_arith::Plain;
use mi_machine::{Machine, Step, take_end, take_line, take_recovery, take_step};
use mi_outside::{Gathered, Sink, Source};
use mi_reloc::RunEnd;

/// How far a run has come: how many instructions it may take, how many of them are left, and whether it has an entry word.
#[derive(Clone, Copy, Debug, PartialEq, Eq, Drop)]
pub struct Progress {
    pub turns: u64,
    pub left: u64,
    pub entered: bool,
}

/// After a throw: with an entry word it ends the run, and else the machine recovers, and the text of the recovery is written.
fn recover<O: Sink>(
    machine: &mut Machine<Plain>,
    at: &Progress,
    code: i64,
    output: &mut O,
    gathered: &mut Gathered,
) -> Result<(), RunEnd>
    requires { machine.old.stop ≡ Some (Thrown code) }
    ensures goes { (rest : Rest ℕ ℕ) (c : Course) → c.entered ≡ at.now.entered → Goes result at.now.turns (after_fault (ops_of machine.old.state.arith) rest c machine.old.state.machine (Throw code)) (rest c machine.new.state.machine) (output_of (O.written output.old) gathered.old) (output_of (O.written output.new) gathered.new) }
    ensures going { OnOk result (machine.new.stop ≡ None) }
    ensures arith { OnOk result (machine.new.state.arith ≡ machine.old.state.arith) }
    ensures begun { IfErr result (λ end. IsRefusal end → ⊥) }
    ensures read { IsErrOf result ReadFault → ⊥ }
    ensures fault { IsErrOf result WriteFault → Rose (O.faults output.old) (O.faults output.new) }
    ensures later { O.faults output.old ≤ O.faults output.new }
{
    if at.entered {
        return Err(RunEnd::Thrown { code });
    }
    take_recovery(machine);
    write_recovery(output, gathered, code)
}

/// Gives a line at a wait.
fn input_line<O: Sink>(
    machine: &mut Machine<Plain>,
    at: &Progress,
    line: &[u8],
    output: &mut O,
    gathered: &mut Gathered,
) -> Result<(), RunEnd>
    requires { machine.old.stop ≡ Some WantLine }
    ensures goes { (rest : Rest ℕ ℕ) (c : Course) → c.entered ≡ at.now.entered → Goes result at.now.turns (after_line (ops_of machine.old.state.arith) rest c machine.old.state.machine (outcome_of (ops_of machine.old.state.arith) (inputs.give_line line.now) machine.old.state.machine [])) (rest c machine.new.state.machine) (output_of (O.written output.old) gathered.old) (output_of (O.written output.new) gathered.new) }
    ensures going { OnOk result (machine.new.stop ≡ None) }
    ensures arith { OnOk result (machine.new.state.arith ≡ machine.old.state.arith) }
    ensures begun { IfErr result (λ end. IsRefusal end → ⊥) }
    ensures read { IsErrOf result ReadFault → ⊥ }
    ensures fault { IsErrOf result WriteFault → Rose (O.faults output.old) (O.faults output.new) }
    ensures later { O.faults output.old ≤ O.faults output.new }
{
    match take_line(machine, line) {
        Ok(()) => Ok(()),
        Err(code) => recover(machine, at, code, output, gathered),
    }
}

/// Gives the end of the input at a wait.
#[tactic(auto, using(mi_machine::proofs::StepLemmas::end_is_quiet))]
fn input_end<O: Sink>(
    machine: &mut Machine<Plain>,
    at: &Progress,
    output: &mut O,
    gathered: &mut Gathered,
) -> Result<(), RunEnd>
    requires { machine.old.stop ≡ Some WantLine }
    ensures goes { (rest : Rest ℕ ℕ) (c : Course) → c.entered ≡ at.now.entered → Goes result at.now.turns (after_end (ops_of machine.old.state.arith) rest c machine.old.state.machine (outcome_of (ops_of machine.old.state.arith) inputs.give_end machine.old.state.machine [])) (rest c machine.new.state.machine) (output_of (O.written output.old) gathered.old) (output_of (O.written output.new) gathered.new) }
    ensures going { OnOk result (machine.new.stop ≡ None) }
    ensures arith { OnOk result (machine.new.state.arith ≡ machine.old.state.arith) }
    ensures begun { IfErr result (λ end. IsRefusal end → ⊥) }
    ensures read { IsErrOf result ReadFault → ⊥ }
    ensures fault { IsErrOf result WriteFault → Rose (O.faults output.old) (O.faults output.new) }
    ensures later { O.faults output.old ≤ O.faults output.new }
{
    match take_end(machine) {
        Step::Passed => Ok(()),
        Step::Halting => Err(RunEnd::Bye),
        Step::Thrown(code) => recover(machine, at, code, output, gathered),
        Step::Emitted(_) => unreachable!(),
        Step::Wanting => unreachable!(),
    }
}

/// Gives the next line at a wait, or the end of the input behind the last.
fn give_input<I: Source, O: Sink>(
    machine: &mut Machine<Plain>,
    at: &Progress,
    lines: &mut Lines,
    input: &mut I,
    output: &mut O,
    gathered: &mut Gathered,
) -> Result<(), RunEnd>
    requires wanting { machine.old.stop ≡ Some WantLine }
    requires none_waits { gathered.old.waiting ≡ [] }
    requires done { IsDoneAtEnd (reading_of lines.old (I.left input.old)) }
    ensures goes { GoesFrom result at.now.turns (wait_left at.now machine.old.state lines.old (I.left input.old)) (run_left at.now machine.new.state lines.new (I.left input.new)) (output_of (O.written output.old) gathered.old) (output_of (O.written output.new) gathered.new) }
    ensures takes { GoesTaking result (reading_of lines.old (I.left input.old)) (reading_of lines.new (I.left input.new)) (I.left input.new) (wait_taken at.now machine.old.state) (left_taken at.now machine.new.state) (output_of (O.written output.old) gathered.old) (output_of (O.written output.new) gathered.new) }
    ensures done { IsDoneAtEnd (reading_of lines.new (I.left input.new)) }
    ensures going { OnOk result (machine.new.stop ≡ None) }
    ensures begun { IfErr result (λ end. IsRefusal end → ⊥) }
    ensures read_fault { IsErrOf result ReadFault → Rose (I.faults input.old) (I.faults input.new) }
    ensures write_fault { IsErrOf result WriteFault → Rose (O.faults output.old) (O.faults output.new) }
    ensures input_later { I.faults input.old ≤ I.faults input.new }
    ensures output_later { O.faults output.old ≤ O.faults output.new }
{
    match lines.next(input) {
        Ok(Next::Line) => input_line(machine, at, lines.line.bytes(), output, gathered),
        Ok(Next::End) => input_end(machine, at, output, gathered),
        Ok(Next::TooLong) => Err(RunEnd::InputTooLong),
        Err(_) => Err(RunEnd::ReadFault),
    }
}

/// Writes what waits to be written, and then gives the next line, or the end of the input behind the last.
fn answer_wait<I: Source, O: Sink>(
    machine: &mut Machine<Plain>,
    at: &Progress,
    lines: &mut Lines,
    input: &mut I,
    output: &mut O,
    gathered: &mut Gathered,
) -> Result<(), RunEnd>
    requires wanting { machine.old.stop ≡ Some WantLine }
    requires done { IsDoneAtEnd (reading_of lines.old (I.left input.old)) }
    ensures goes { GoesFrom result at.now.turns (wait_left at.now machine.old.state lines.old (I.left input.old)) (run_left at.now machine.new.state lines.new (I.left input.new)) (output_of (O.written output.old) gathered.old) (output_of (O.written output.new) gathered.new) }
    ensures takes { GoesTaking result (reading_of lines.old (I.left input.old)) (reading_of lines.new (I.left input.new)) (I.left input.new) (wait_taken at.now machine.old.state) (left_taken at.now machine.new.state) (output_of (O.written output.old) gathered.old) (output_of (O.written output.new) gathered.new) }
    ensures done { IsDoneAtEnd (reading_of lines.new (I.left input.new)) }
    ensures going { OnOk result (machine.new.stop ≡ None) }
    ensures begun { IfErr result (λ end. IsRefusal end → ⊥) }
    ensures read_fault { IsErrOf result ReadFault → Rose (I.faults input.old) (I.faults input.new) }
    ensures write_fault { IsErrOf result WriteFault → Rose (O.faults output.old) (O.faults output.new) }
    ensures input_later { I.faults input.old ≤ I.faults input.new }
    ensures output_later { O.faults output.old ≤ O.faults output.new }
{
    match write_waiting(output, gathered) {
        Ok(()) => give_input(machine, at, lines, input, output, gathered),
        Err(end) => Err(end),
    }
}

/// Takes one of the instructions that are left, and answers the wait that it leads to.
fn run_one<I: Source, O: Sink>(
    machine: &mut Machine<Plain>,
    at: &mut Progress,
    lines: &mut Lines,
    input: &mut I,
    output: &mut O,
    gathered: &mut Gathered,
) -> Result<(), RunEnd>
    requires going { machine.old.stop ≡ None }
    requires left { 0 < at.old.left }
    requires done { IsDoneAtEnd (reading_of lines.old (I.left input.old)) }
    ensures goes { GoesFrom result at.old.turns (run_left at.old machine.old.state lines.old (I.left input.old)) (run_left at.new machine.new.state lines.new (I.left input.new)) (output_of (O.written output.old) gathered.old) (output_of (O.written output.new) gathered.new) }
    ensures takes { GoesTaking result (reading_of lines.old (I.left input.old)) (reading_of lines.new (I.left input.new)) (I.left input.new) (left_taken at.old machine.old.state) (left_taken at.new machine.new.state) (output_of (O.written output.old) gathered.old) (output_of (O.written output.new) gathered.new) }
    ensures done { IsDoneAtEnd (reading_of lines.new (I.left input.new)) }
    ensures going { OnOk result (machine.new.stop ≡ None) }
    ensures begun { IfErr result (λ end. IsRefusal end → ⊥) }
    ensures fewer { at.new.left < at.old.left }
    ensures turns { at.new.turns ≡ at.old.turns }
    ensures read_fault { IsErrOf result ReadFault → Rose (I.faults input.old) (I.faults input.new) }
    ensures write_fault { IsErrOf result WriteFault → Rose (O.faults output.old) (O.faults output.new) }
    ensures input_later { I.faults input.old ≤ I.faults input.new }
    ensures output_later { O.faults output.old ≤ O.faults output.new }
{
    at.left -= 1;
    match take_step(machine) {
        Step::Passed => Ok(()),
        Step::Emitted(byte) => emit(output, gathered, &[byte]),
        Step::Wanting => answer_wait(machine, at, lines, input, output, gathered),
        Step::Halting => Err(RunEnd::Bye),
        Step::Thrown(code) => recover(machine, at, code, output, gathered),
    }
}

/// Takes the instructions that are left, up to the end of the run.
pub fn run_on<I: Source, O: Sink>(
    machine: &mut Machine<Plain>,
    start: Progress,
    lines: &mut Lines,
    input: &mut I,
    output: &mut O,
    gathered: &mut Gathered,
) -> RunEnd
    requires going { machine.old.stop ≡ None }
    requires done { IsDoneAtEnd (reading_of lines.old (I.left input.old)) }
    ensures ends { IfSome (run_left start machine.old.state lines.old (I.left input.old)) (λ told. EndsAs result start.turns told.end) }
    ensures writes { IfSome (run_left start machine.old.state lines.old (I.left input.old)) (λ told. PutsAs result (output_of (O.written output.old) gathered.old) (output_of (O.written output.new) gathered.new) told.output) }
    ensures stops { StopsAs result (reading_of lines.old (I.left input.old)) (I.left input.new) (left_taken start machine.old.state) (output_of (O.written output.old) gathered.old) (output_of (O.written output.new) gathered.new) }
    ensures begun { IsRefusal result → ⊥ }
    ensures read_fault { result ≡ ReadFault → Rose (I.faults input.old) (I.faults input.new) }
    ensures write_fault { result ≡ WriteFault → Rose (O.faults output.old) (O.faults output.new) }
    ensures input_later { I.faults input.old ≤ I.faults input.new }
    ensures output_later { O.faults output.old ≤ O.faults output.new }
{
    let mut at = start;
    'turns: while at.left > 0 {
        match run_one(machine, &mut at, lines, input, output, gathered) {
            Ok(()) => {}
            Err(end) => return end,
        }
    }
    RunEnd::Spent { turns: at.turns }
}
