//! The calls of a machine, over any arithmetic: what they come to, as a build needs it.

ghost use Rattle.std.specs.Prelude.{◌≡◌, [], None, Some, IfOk};
ghost use Rattle.std.specs.Option.{option_copied};
ghost use Rattle.mi_model.specs.Outcome.{outcome_of};
ghost use Rattle.mi_model.specs.Kernel.{whole_kernel};
ghost use Rattle.mi_model.specs.Table as actions;
ghost use Rattle.mi_model.specs.Tokens.{token_of, last_token, first_token};
ghost use Rattle.mi_model.specs.Input as inputs;
ghost use Rattle.mi_model.specs.Finish as endings;
ghost use Rattle.mi_machine.specs.Ready.{IsReady};
ghost use Rattle.mi_machine.specs.declared.machine.Stop.TheVariants.{WantLine, Halted};
ghost use Rattle.mi_build.specs.Course.{failure_of_stop, Took, Called};

use mi_arith::Arith;
use mi_machine::{Finished, Machine, Stop};
use mi_model::{Form, Token, Why};

/// Why a call of a machine fails.
#[derive(Clone, Copy, Debug, PartialEq, Eq, Drop)]
pub enum Failure {
    /// A Forth exception, by its throw code.
    Thrown(i64),
    /// The arithmetic refused an operation; the token is the last whose tag was found.
    Refused {
        at: Token,
        first: Form,
        second: Form,
        why: Why,
    },
    NoMemory,
}

/// What an instruction, or the end of the input, comes to.
#[derive(Clone, Copy, Debug, PartialEq, Eq, Drop)]
pub enum Step {
    Passed,
    Emitted(u8),
    Wanting,
    Halting,
    Failed(Failure),
}

/// The failure of a stop that is one.
fn failure_of(stop: Stop) -> Failure
    ensures { result ≡ failure_of_stop stop }
{
    match stop {
        Stop::Thrown(code) => Failure::Thrown(code),
        Stop::Refused {
            offset,
            tag,
            first,
            second,
            why,
        } => Failure::Refused {
            at: Token { offset, tag },
            first,
            second,
            why,
        },
        Stop::Halted | Stop::WantLine | Stop::Emit(_) | Stop::Spent | Stop::NoMemory => {
            Failure::NoMemory
        }
    }
}

/// One instruction of a machine that isn't stopped.
pub fn take_step<A: Arith>(machine: &mut Machine<A>) -> Step
    requires { machine.old.stop ≡ None }
    ensures { Took result machine.old machine.new (last_token machine.old.last (token_of (A.ops machine.old.state.arith) machine.old.state.machine)) (outcome_of (A.ops machine.old.state.arith) (actions.step whole_kernel) machine.old.state.machine []) }
{
    match machine.step() {
        Ok(()) => Step::Passed,
        Err(Stop::Emit(byte)) => Step::Emitted(byte),
        Err(Stop::WantLine) => Step::Wanting,
        Err(Stop::Halted) => Step::Halting,
        Err(stop) => Step::Failed(failure_of(stop)),
    }
}

/// Gives the end of the input to a machine that wants a line.
pub fn take_end<A: Arith>(machine: &mut Machine<A>) -> Step
    requires { machine.old.stop ≡ Some WantLine }
    ensures { Took result machine.old machine.new machine.old.last (outcome_of (A.ops machine.old.state.arith) inputs.give_end machine.old.state.machine []) }
{
    match machine.give_end() {
        Ok(()) => Step::Passed,
        Err(Stop::Emit(byte)) => Step::Emitted(byte),
        Err(Stop::WantLine) => Step::Wanting,
        Err(Stop::Halted) => Step::Halting,
        Err(stop) => Step::Failed(failure_of(stop)),
    }
}

/// Gives a line to a machine that wants one.
pub fn take_line<A: Arith>(machine: &mut Machine<A>, line: &[u8]) -> Result<(), Failure>
    requires { machine.old.stop ≡ Some WantLine }
    ensures { Called result machine.old machine.new None machine.old.last (outcome_of (A.ops machine.old.state.arith) (inputs.give_line line.now) machine.old.state.machine []) }
{
    match machine.give_line(line) {
        Ok(()) => Ok(()),
        Err(stop) => Err(failure_of(stop)),
    }
}

/// The finish of a machine that has halted, with the name of its entry word or none.
pub fn take_finish<A: Arith>(
    machine: &mut Machine<A>,
    entry: Option<&[u8]>,
) -> Result<Finished, Failure>
    requires { machine.old.stop ≡ Some Halted }
    ensures called { Called result machine.old machine.new (Some Halted) first_token (outcome_of (A.ops machine.old.state.arith) (endings.finish (option_copied entry.entry)) machine.old.state.machine []) }
    ensures ready { IfOk result (λ f. IsReady f (A.ops machine.old.state.arith) machine.new.state.machine.bytes) }
{
    match machine.finish(entry) {
        Ok(end) => Ok(end),
        Err(stop) => Err(failure_of(stop)),
    }
}
