//! A machine that takes instructions, lines and the end of the input, and stays stopped once it is.

ghost use Rattle.std.specs.Prelude.{◌≡◌, ℕ, ◌≤◌, [], None, Some, Ok, Err, IfSome, IfOk, IsTrue};
ghost use Rattle.std.specs.Option.{option_copied};
ghost use Rattle.mi_model.specs.Outcome.{outcome_of};
ghost use Rattle.mi_model.specs.Kernel.{whole_kernel};
ghost use Rattle.mi_model.specs.Table as actions;
ghost use Rattle.mi_model.specs.Tokens.{token_of, last_token, first_token};
ghost use Rattle.mi_model.specs.Input as inputs;
ghost use Rattle.mi_model.specs.Finish as endings;
ghost use Rattle.mi_model.specs.Recovery as recovery;
ghost use Rattle.mi_model.specs.Run as runs;
ghost use Rattle.mi_region.specs.View.{leading, with_ip};
ghost use Rattle.mi_machine.specs.Engine.{Engine, Moves, stepped, lined, started, finished, Advances, Runs, course_of, stop_of_fault, lasting_stop, has_thrown, Forward, MeetsFirst};
ghost use Rattle.mi_machine.specs.Ready.{IsReady};

use crate::{finishing, input, instruction, sources, starting};
use mi_arith::Arith;
use mi_model::{Effect, Fault, Finished, Form, Token, Why};
use mi_region::State;
use std::marker::Model;

/// The token before the first instruction, and in the finish.
const FIRST_TOKEN: Token = Token {
    offset: 4144,
    tag: 0,
};

/// Why a machine stops.
#[derive(Clone, Copy, Debug, PartialEq, Eq, Drop)]
pub enum Stop {
    /// It was halted, by `BYE` or by the end of the input.
    Halted,
    /// It wants a line.
    WantLine,
    /// It emits a byte, and can go on.
    Emit(u8),
    /// A Forth exception, by its throw code.
    Thrown(i64),
    /// The arithmetic refused an operation; the offset and the tag are those of the last token whose tag was found.
    Refused {
        offset: u32,
        tag: u8,
        first: Form,
        second: Form,
        why: Why,
    },
    /// The turns are taken, and it can go on.
    Spent,
    NoMemory,
}

/// How far `advance` came: why it stopped, and how many instructions were taken.
#[derive(Clone, Copy, Debug, PartialEq, Eq, Drop)]
pub struct Advanced {
    pub stop: Stop,
    pub taken: u64,
}

/// A machine.
///
/// After Thrown, Refused or NoMemory it is stopped, and `step` and `advance` answer the same from then on, unless it is
/// recovered after Thrown. After Halted or WantLine they answer that again and take nothing, until a line, the end or a
/// finish is given.
#[derive(Drop)]
pub struct Machine<A: Arith> {
    state: State<A>,
    stop: Option<Stop>,
    /// The last token whose tag was found.
    last: Token,
}

impl<A: Arith> Model for Machine<A> {
    ghost use Rattle.mi_machine.specs.Engine.{Engine};

    ghost Value = { Engine A A.Cell A.Byte };

    ghost view = { λ m. record { state = m.state; stop = m.stop; last = m.last } };
}

impl<A: Arith> Machine<A> {
    /// A machine on a state that has no due token and doesn't wait: its next instruction is the text interpreter's.
    pub fn new(state: State<A>) -> Self
        ensures state { result.state ≡ with_ip state ((A.ops state.arith).region_cell 264) }
        ensures stop { result.stop ≡ None }
        ensures last { result.last ≡ first_token }
    {
        let mut state = state;
        let start = state.arith().region_cell(264);
        state.set_ip(start);
        Machine {
            state,
            stop: None,
            last: FIRST_TOKEN,
        }
    }

    /// The state as it stands.
    pub fn state(&self) -> &State<A>
        ensures { result.now ≡ self.now.state }
    {
        &self.state
    }

    /// Why the machine stands, or `None` where it can go on.
    pub fn stop(&self) -> Option<Stop>
        ensures { result ≡ self.now.stop }
    {
        self.stop
    }

    /// One instruction. An instruction that throws leaves the state as it was.
    pub fn step(&mut self) -> Result<(), Stop>
        ensures stopped { IfSome self.old.stop (λ stop. (result ≡ Err stop) × (self.new ≡ self.old)) }
        ensures going { self.old.stop ≡ None → Moves A.GROWS result self.new (stepped self.old.state (last_token self.old.last (token_of (A.ops self.old.state.arith) self.old.state.machine)) (leading self.old.state (outcome_of (A.ops self.old.state.arith) (actions.step whole_kernel) self.old.state.machine []))) }
        ensures forward { Forward (A.ops self.old.state.arith) (A.size self.old.state.arith) (λ pair. A.covers self.old.state.arith pair) (λ x pair n. A.stands self.old.state.arith x pair n) (λ b pair n. A.byte_stands self.old.state.arith b pair n) (actions.step whole_kernel) self.old.state.machine }
        ensures met { MeetsFirst (A.ops self.old.state.arith) (A.size self.old.state.arith) (λ pair. A.covers self.old.state.arith pair) (λ x pair n. A.stands self.old.state.arith x pair n) (λ b pair n. A.byte_stands self.old.state.arith b pair n) (actions.step whole_kernel) self.old.state.machine }
    {
        self.go()
    }

    fn go(&mut self) -> Result<(), Stop>
        ensures stopped { IfSome self.old.stop (λ stop. (result ≡ Err stop) × (self.new ≡ self.old)) }
        ensures going { self.old.stop ≡ None → Moves A.GROWS result self.new (stepped self.old.state (last_token self.old.last (token_of (A.ops self.old.state.arith) self.old.state.machine)) (leading self.old.state (outcome_of (A.ops self.old.state.arith) (actions.step whole_kernel) self.old.state.machine []))) }
    {
        if let Some(stop) = self.stop {
            return Err(stop);
        }
        match instruction::step(&mut self.state, &mut self.last) {
            Ok(Effect::Went) => Ok(()),
            Ok(Effect::Emit(byte)) => Err(Stop::Emit(byte)),
            Ok(Effect::Want) => self.stop_by(Stop::WantLine),
            Ok(Effect::Halt) => self.stop_by(Stop::Halted),
            Err(fault) => self.fail(fault),
        }
    }

    /// Instructions up to a stop, but at most so many. Spent comes where all of them were taken, and the machine can
    /// go on. An instruction that throws counts as taken; one that is refused, or finds no memory, doesn't.
    pub fn advance(&mut self, turns: u64) -> Advanced
        ensures stopped { IfSome self.old.stop (λ stop. (result ≡ record { stop = stop; taken = 0 }) × (self.new ≡ self.old)) }
        ensures going { self.old.stop ≡ None → Advances A.GROWS result self.new (course_of (A.ops self.old.state.arith) turns 0 self.old.state self.old.last) }
    {
        if let Some(stop) = self.stop {
            return Advanced { stop, taken: 0 };
        }
        let (stop, taken) = run_turns(&mut self.state, &mut self.last, turns);
        self.stop = lasting(stop);
        Advanced { stop, taken }
    }

    /// Gives a line to a machine that wants one: Thrown(-18) where it is longer than 1,020 bytes.
    pub fn give_line(&mut self, line: &[u8]) -> Result<(), Stop>
        requires { self.old.stop ≡ Some Stop.WantLine }
        ensures given { Moves A.GROWS result self.new (lined self.old.state self.old.last (leading self.old.state (outcome_of (A.ops self.old.state.arith) (inputs.give_line line.now) self.old.state.machine []))) }
        ensures forward { Forward (A.ops self.old.state.arith) (A.size self.old.state.arith) (λ pair. A.covers self.old.state.arith pair) (λ x pair n. A.stands self.old.state.arith x pair n) (λ b pair n. A.byte_stands self.old.state.arith b pair n) (inputs.give_line line.now) self.old.state.machine }
    {
        self.take_line(line)
    }

    fn take_line(&mut self, line: &[u8]) -> Result<(), Stop>
        ensures { Moves A.GROWS result self.new (lined self.old.state self.old.last (leading self.old.state (outcome_of (A.ops self.old.state.arith) (inputs.give_line line.now) self.old.state.machine []))) }
    {
        match input::give_line(&mut self.state, line) {
            Ok(()) => {
                self.stop = None;
                Ok(())
            }
            Err(fault) => self.fail(fault),
        }
    }

    /// Gives the end of the input to a machine that wants a line: where the text interpreter wants it, the machine halts,
    /// and the answer is Halted; where REFILL or ACCEPT does, that word gives false or 0, and the machine can go on.
    pub fn give_end(&mut self) -> Result<(), Stop>
        requires { self.old.stop ≡ Some Stop.WantLine }
        ensures given { Moves A.GROWS result self.new (stepped self.old.state self.old.last (leading self.old.state (outcome_of (A.ops self.old.state.arith) inputs.give_end self.old.state.machine []))) }
        ensures forward { Forward (A.ops self.old.state.arith) (A.size self.old.state.arith) (λ pair. A.covers self.old.state.arith pair) (λ x pair n. A.stands self.old.state.arith x pair n) (λ b pair n. A.byte_stands self.old.state.arith b pair n) inputs.give_end self.old.state.machine }
    {
        self.take_end()
    }

    fn take_end(&mut self) -> Result<(), Stop>
        ensures { Moves A.GROWS result self.new (stepped self.old.state self.old.last (leading self.old.state (outcome_of (A.ops self.old.state.arith) inputs.give_end self.old.state.machine []))) }
    {
        match input::give_end(&mut self.state) {
            Ok(Effect::Went) => {
                self.stop = None;
                Ok(())
            }
            Ok(Effect::Emit(byte)) => {
                self.stop = None;
                Err(Stop::Emit(byte))
            }
            Ok(Effect::Want) => self.stop_by(Stop::WantLine),
            Ok(Effect::Halt) => self.stop_by(Stop::Halted),
            Err(fault) => self.fail(fault),
        }
    }

    /// Has a machine that threw go on: its stacks are emptied, it has no due token and doesn't wait, and the text interpreter
    /// begins anew on an empty line, as after QUIT. It fails only for want of memory in an arithmetic that takes some.
    pub fn recover(&mut self) -> Result<(), Stop>
        requires { IsTrue (has_thrown self.old.stop) }
        ensures given { Moves A.GROWS result self.new (lined self.old.state self.old.last (leading self.old.state (outcome_of (A.ops self.old.state.arith) recovery.recover self.old.state.machine []))) }
        ensures forward { Forward (A.ops self.old.state.arith) (A.size self.old.state.arith) (λ pair. A.covers self.old.state.arith pair) (λ x pair n. A.stands self.old.state.arith x pair n) (λ b pair n. A.byte_stands self.old.state.arith b pair n) recovery.recover self.old.state.machine }
    {
        self.begin_anew()
    }

    fn begin_anew(&mut self) -> Result<(), Stop>
        ensures { Moves A.GROWS result self.new (lined self.old.state self.old.last (leading self.old.state (outcome_of (A.ops self.old.state.arith) recovery.recover self.old.state.machine []))) }
    {
        match sources::recover(&mut self.state) {
            Ok(()) => {
                self.stop = None;
                Ok(())
            }
            Err(fault) => self.fail(fault),
        }
    }

    /// Starts a run on a machine that has taken no instruction: the entry word is due, and `BYE` comes behind it; where the
    /// cell ENTRY is 0, the text interpreter is next. Over an arithmetic that refuses the look at that cell it is Refused.
    pub fn start_entry(&mut self) -> Result<(), Stop>
        requires going { self.old.stop ≡ None }
        requires fresh { self.old.state.machine.due ≡ None }
        ensures given { Moves A.GROWS result self.new (started self.old.state self.old.last (leading self.old.state (outcome_of (A.ops self.old.state.arith) runs.start_entry self.old.state.machine []))) }
        ensures forward { Forward (A.ops self.old.state.arith) (A.size self.old.state.arith) (λ pair. A.covers self.old.state.arith pair) (λ x pair n. A.stands self.old.state.arith x pair n) (λ b pair n. A.byte_stands self.old.state.arith b pair n) runs.start_entry self.old.state.machine }
    {
        self.begin_run()
    }

    fn begin_run(&mut self) -> Result<(), Stop>
        ensures { Moves A.GROWS result self.new (started self.old.state self.old.last (leading self.old.state (outcome_of (A.ops self.old.state.arith) runs.start_entry self.old.state.machine []))) }
    {
        match starting::start_entry(&mut self.state) {
            Ok(_) => {
                self.stop = None;
                Ok(())
            }
            Err(fault) => self.fail(fault),
        }
    }

    /// The finish of a build, with the name of its entry word or none, on a machine that is halted: throw -39 inside a
    /// definition, -9 where DP has left the dictionary. A fault stops the machine; a refusal stands at the first token.
    pub fn finish(&mut self, entry: Option<&[u8]>) -> Result<Finished, Stop>
        requires { self.old.stop ≡ Some Stop.Halted }
        ensures given { Moves A.GROWS result self.new (finished self.old.state self.old.last (leading self.old.state (outcome_of (A.ops self.old.state.arith) (endings.finish (option_copied entry.entry)) self.old.state.machine []))) }
        ensures ready { IfOk result (λ f. IsReady f (A.ops self.old.state.arith) self.new.state.machine.bytes) }
        ensures forward { Forward (A.ops self.old.state.arith) (A.size self.old.state.arith) (λ pair. A.covers self.old.state.arith pair) (λ x pair n. A.stands self.old.state.arith x pair n) (λ b pair n. A.byte_stands self.old.state.arith b pair n) (endings.finish (option_copied entry.entry)) self.old.state.machine }
    {
        self.end_by(entry)
    }

    fn end_by(&mut self, entry: Option<&[u8]>) -> Result<Finished, Stop>
        ensures given { Moves A.GROWS result self.new (finished self.old.state self.old.last (leading self.old.state (outcome_of (A.ops self.old.state.arith) (endings.finish (option_copied entry.entry)) self.old.state.machine []))) }
        ensures ready { IfOk result (λ f. IsReady f (A.ops self.old.state.arith) self.new.state.machine.bytes) }
    {
        match finishing::finish(&mut self.state, entry) {
            Ok(end) => {
                self.stop = Some(Stop::Halted);
                Ok(end)
            }
            Err(fault) => {
                let stop = stop_of(FIRST_TOKEN, fault);
                self.stop = Some(stop);
                Err(stop)
            }
        }
    }

    /// Stops the machine by a fault, which stands at the last token.
    fn fail(&mut self, fault: Fault) -> Result<(), Stop>
        ensures answer { result ≡ Err (stop_of_fault self.old.last fault) }
        ensures state { self.new ≡ record self.old { stop = Some (stop_of_fault self.old.last fault) } }
    {
        self.stop_by(stop_of(self.last, fault))
    }

    fn stop_by(&mut self, stop: Stop) -> Result<(), Stop>
        ensures answer { result ≡ Err stop }
        ensures state { self.new ≡ record self.old { stop = Some stop } }
    {
        self.stop = Some(stop);
        Err(stop)
    }
}

/// The stop of a fault; a refusal stands at a token.
fn stop_of(at: Token, fault: Fault) -> Stop
    ensures { result ≡ stop_of_fault at fault }
{
    match fault {
        Fault::Throw(code) => Stop::Thrown(code),
        Fault::Refused { first, second, why } => refused_at(at, first, second, why),
        Fault::NoMemory => Stop::NoMemory,
    }
}

/// The stop of an operation that was refused at a token.
fn refused_at(at: Token, first: Form, second: Form, why: Why) -> Stop
    ensures { result ≡ Stop.Refused at.offset at.tag first second why }
{
    Stop::Refused {
        offset: at.offset,
        tag: at.tag,
        first,
        second,
        why,
    }
}

/// The stop that lasts, if it does.
fn lasting(stop: Stop) -> Option<Stop>
    ensures { result ≡ lasting_stop stop }
{
    match stop {
        Stop::Emit(_) | Stop::Spent => None,
        Stop::Halted | Stop::WantLine | Stop::Thrown(_) | Stop::Refused { .. } | Stop::NoMemory => {
            Some(stop)
        }
    }
}

/// Takes instructions up to a stop, but at most so many; answers the stop and how many were taken. The last token is kept.
#[tactic(auto, using(crate::proofs::Courses::course_next))]
fn run_turns<A: Arith>(state: &mut State<A>, last: &mut Token, turns: u64) -> (Stop, u64)
    ensures { Runs A.GROWS result state.new last.new (course_of (A.ops state.old.arith) turns 0 state.old last.old) }
{
    let mut taken = 0;
    'turns: while taken < turns {
        match instruction::step(state, last) {
            Ok(Effect::Went) => taken += 1,
            Ok(Effect::Emit(byte)) => return (Stop::Emit(byte), taken + 1),
            Ok(Effect::Want) => return (Stop::WantLine, taken + 1),
            Ok(Effect::Halt) => return (Stop::Halted, taken + 1),
            Err(Fault::Throw(code)) => return (Stop::Thrown(code), taken + 1),
            Err(Fault::Refused { first, second, why }) => {
                return (refused_at(*last, first, second, why), taken);
            }
            Err(Fault::NoMemory) => return (Stop::NoMemory, taken),
        }
    }
    (Stop::Spent, taken)
}
