//! The calls of a machine over plain numbers, which refuses nothing and takes no memory.

ghost use Rattle.std.specs.Prelude.{◌≡◌, ℕ, [], None, Some, Ok, IfOk, IsTrue, length};
ghost use Rattle.std.specs.Option.{option_copied};
ghost use Rattle.mi_model.specs.Outcome.{outcome_of};
ghost use Rattle.mi_model.specs.Kernel.{whole_kernel};
ghost use Rattle.mi_model.specs.Table as actions;
ghost use Rattle.mi_model.specs.Input as inputs;
ghost use Rattle.mi_model.specs.Finish as endings;
ghost use Rattle.mi_model.specs.Recovery as recovery;
ghost use Rattle.mi_model.specs.Run as runs;
ghost use Rattle.mi_machine.specs.Engine.{has_thrown};
ghost use Rattle.mi_machine.specs.Ready.{IsReady};
ghost use Rattle.mi_machine.specs.declared.machine.Stop.TheVariants.{WantLine, Halted};
ghost use Rattle.mi_machine.specs.Steps.{ops_of, GoesOn, Took, Called, thrown_code_of};

use crate::machine::{Machine, Stop};
use mi_arith::Plain;
use mi_model::Finished;

/// What an instruction comes to.
#[derive(Clone, Copy, Debug, PartialEq, Eq, Drop)]
pub enum Step {
    Passed,
    Emitted(u8),
    Wanting,
    Halting,
    Thrown(i64),
}

/// One instruction of a machine that isn't stopped. A throw stops it, and leaves its state as it was.
pub fn take_step(machine: &mut Machine<Plain>) -> Step
    requires { machine.old.stop ≡ None }
    ensures { Took result machine.old.state machine.new (outcome_of (ops_of machine.old.state.arith) (actions.step whole_kernel) machine.old.state.machine []) }
{
    match machine.step() {
        Ok(()) => Step::Passed,
        Err(Stop::Emit(byte)) => Step::Emitted(byte),
        Err(Stop::WantLine) => Step::Wanting,
        Err(Stop::Halted) => Step::Halting,
        Err(Stop::Thrown(code)) => Step::Thrown(code),
        Err(Stop::Refused { .. }) => unreachable!(),
        Err(Stop::Spent) => unreachable!(),
        Err(Stop::NoMemory) => unreachable!(),
    }
}

/// Gives a line to a machine that wants one; answers the throw code where it throws, which stops the machine and leaves
/// its state as it was.
pub fn take_line(machine: &mut Machine<Plain>, line: &[u8]) -> Result<(), i64>
    requires { machine.old.stop ≡ Some WantLine }
    ensures { Called result machine.old.state machine.new None (outcome_of (ops_of machine.old.state.arith) (inputs.give_line line.now) machine.old.state.machine []) }
{
    match machine.give_line(line) {
        Ok(()) => Ok(()),
        Err(stop) => match thrown_code(stop) {
            Some(code) => Err(code),
            None => unreachable!(),
        },
    }
}

/// Gives the end of the input to a machine that wants a line: the text interpreter halts, and another machine goes on.
pub fn take_end(machine: &mut Machine<Plain>) -> Step
    requires { machine.old.stop ≡ Some WantLine }
    ensures { Took result machine.old.state machine.new (outcome_of (ops_of machine.old.state.arith) inputs.give_end machine.old.state.machine []) }
{
    match machine.give_end() {
        Ok(()) => Step::Passed,
        Err(Stop::Emit(byte)) => Step::Emitted(byte),
        Err(Stop::WantLine) => Step::Wanting,
        Err(Stop::Halted) => Step::Halting,
        Err(Stop::Thrown(code)) => Step::Thrown(code),
        Err(Stop::Refused { .. }) => unreachable!(),
        Err(Stop::Spent) => unreachable!(),
        Err(Stop::NoMemory) => unreachable!(),
    }
}

/// Starts a run on a machine that has taken no instruction; answers whether it has an entry word.
pub fn take_entry(machine: &mut Machine<Plain>) -> bool
    requires going { machine.old.stop ≡ None }
    requires fresh { machine.old.state.machine.due ≡ None }
    ensures told { outcome_of (ops_of machine.old.state.arith) runs.start_entry machine.old.state.machine [] ≡ Ok (result, machine.new.state.machine) }
    ensures goes_on { GoesOn machine.old.state machine.new None }
{
    match machine.start_entry() {
        Ok(()) => machine.state().due().is_some(),
        Err(_) => unreachable!(),
    }
}

/// Has a machine that threw go on, as after QUIT.
pub fn take_recovery(machine: &mut Machine<Plain>)
    requires { IsTrue (has_thrown machine.old.stop) }
    ensures told { outcome_of (ops_of machine.old.state.arith) recovery.recover machine.old.state.machine [] ≡ Ok (tt, machine.new.state.machine) }
    ensures goes_on { GoesOn machine.old.state machine.new None }
{
    match machine.recover() {
        Ok(()) => (),
        Err(_) => unreachable!(),
    }
}

/// The finish of a machine that is halted; answers the throw code where it throws.
pub fn take_finish(machine: &mut Machine<Plain>, entry: Option<&[u8]>) -> Result<Finished, i64>
    requires { machine.old.stop ≡ Some Halted }
    ensures called { Called result machine.old.state machine.new (Some Halted) (outcome_of (ops_of machine.old.state.arith) (endings.finish (option_copied entry.entry)) machine.old.state.machine []) }
    ensures ready { IfOk result (λ f. IsReady f (ops_of machine.old.state.arith) machine.new.state.machine.bytes) }
{
    match machine.finish(entry) {
        Ok(end) => Ok(end),
        Err(stop) => match thrown_code(stop) {
            Some(code) => Err(code),
            None => unreachable!(),
        },
    }
}

/// The code of a throw.
fn thrown_code(stop: Stop) -> Option<i64>
    ensures { result ≡ thrown_code_of stop }
{
    match stop {
        Stop::Thrown(code) => Some(code),
        _ => None,
    }
}
