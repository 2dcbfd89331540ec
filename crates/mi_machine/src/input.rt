//! Giving a line or the end of the input.

ghost use Rattle.std.specs.Prelude.{◌≡◌, ℕ, ◌≤◌, length, take, [], ◌∷◌, Ok};
ghost use Rattle.mi_model.specs.Action.{part_of};
ghost use Rattle.mi_model.specs.Outcome.{outcome_of, named_wait, wait_cells};
ghost use Rattle.mi_model.specs.Input as actions;
ghost use Rattle.mi_region.specs.View.{Gives, leading};

use mi_arith::Arith;
use mi_model::{Effect, Fault, Wait};
use mi_region::State;

/// The most bytes of a line.
const LONGEST_LINE: usize = 1020;

/// Gives a line by what the machine waits for; throw -18 where the line is longer than 1,020 bytes. A machine that
/// doesn't wait takes none.
#[tactic(auto, unfolding(mi_model::specs::Input::give_line))]
pub fn give_line<A: Arith>(state: &mut State<A>, line: &[u8]) -> Result<(), Fault>
    ensures { Gives A.GROWS result state.old state.new (leading state.old (outcome_of (A.ops state.old.arith) (actions.give_line line.now) state.old.machine [])) }
{
    if line.len() > LONGEST_LINE {
        return Err(Fault::Throw(-18));
    }
    let wait = state.wait();
    state.set_wait(Wait::Idle);
    match line_to(state, wait, line) {
        Ok(()) => Ok(()),
        Err(fault) => {
            state.set_wait(wait);
            Err(fault)
        }
    }
}

/// Gives a line to what was waited for.
fn line_to<A: Arith>(state: &mut State<A>, wait: Wait<A::Cell>, line: &[u8]) -> Result<(), Fault>
    requires { length line.now ≤ 1020 }
    ensures { Gives A.GROWS result state.old state.new (leading state.old (outcome_of (A.ops state.old.arith) (part_of (actions.line_to (named_wait 0 wait) line.now)) state.old.machine (wait_cells wait))) }
{
    match wait {
        Wait::Idle => Ok(()),
        Wait::Line => {
            interpret_line(state, line);
            Ok(())
        }
        Wait::Refill => refill_line(state, line),
        Wait::Accept { address, count } => {
            accept_line(state, address, count.min(line.len() as u64), line)
        }
    }
}

/// Makes a line the source.
#[tactic(auto, unfolding(mi_model::specs::Input::interpret_line))]
fn interpret_line<A: Arith>(state: &mut State<A>, line: &[u8])
    requires { length line.now ≤ 1020 }
    ensures action { leading state.old (outcome_of (A.ops state.old.arith) (actions.interpret_line line.now) state.old.machine []) ≡ Ok (tt, state.new) }
    ensures stack { state.new.machine.stack ≡ state.old.machine.stack }
{
    let arith = *state.arith();
    let _ = state.size();
    state.put_text(512, line);
    state.put_system(32, arith.region_cell(512));
    state.put_system(40, arith.plain(line.len() as u64));
    state.put_system(48, arith.plain(0));
    state.put_system(24, arith.plain(0));
}

/// Makes a line the source, and pushes true.
#[tactic(auto, unfolding(mi_model::specs::Input::refill_line))]
fn refill_line<A: Arith>(state: &mut State<A>, line: &[u8]) -> Result<(), Fault>
    requires { length line.now ≤ 1020 }
    ensures { Gives A.GROWS result state.old state.new (leading state.old (outcome_of (A.ops state.old.arith) (actions.refill_line line.now) state.old.machine [])) }
{
    state.tests(0, 1, 0, 0)?;
    interpret_line(state, line);
    state.put(state.arith().plain(u64::MAX));
    Ok(())
}

/// Copies the first bytes of a line to an address, and pushes their number; throw -9 where they don't lie in the region.
#[tactic(auto, unfolding(mi_model::specs::Input::accept_line))]
fn accept_line<A: Arith>(
    state: &mut State<A>,
    address: A::Cell,
    count: u64,
    line: &[u8],
) -> Result<(), Fault>
    requires { count ≤ length line.now }
    ensures { Gives A.GROWS result state.old state.new (leading state.old (outcome_of (A.ops state.old.arith) (actions.accept_line count line.now) state.old.machine (address ∷ []))) }
{
    state.tests(0, 1, 0, 0)?;
    let place = state.range(address, count)?;
    state.put_text(place, &line[..count as usize]);
    state.put(state.arith().plain(count));
    Ok(())
}

/// Gives the end of the input by what the machine waits for: the text interpreter halts, and `REFILL` and `ACCEPT` push
/// 0.
#[tactic(auto, unfolding(mi_model::specs::Input::give_end))]
pub fn give_end<A: Arith>(state: &mut State<A>) -> Result<Effect, Fault>
    ensures { Gives A.GROWS result state.old state.new (leading state.old (outcome_of (A.ops state.old.arith) actions.give_end state.old.machine [])) }
{
    let wait = state.wait();
    state.set_wait(Wait::Idle);
    match wait {
        Wait::Idle => Ok(Effect::Went),
        Wait::Line => Ok(Effect::Halt),
        Wait::Refill | Wait::Accept { .. } => match push_none(state) {
            Ok(()) => Ok(Effect::Went),
            Err(fault) => {
                state.set_wait(wait);
                Err(fault)
            }
        },
    }
}

/// Pushes 0; throw -3 where the data stack is full.
#[tactic(auto, unfolding(mi_model::specs::Input::push_none))]
fn push_none<A: Arith>(state: &mut State<A>) -> Result<(), Fault>
    ensures { Gives A.GROWS result state.old state.new (leading state.old (outcome_of (A.ops state.old.arith) actions.push_none state.old.machine [])) }
{
    state.tests(0, 1, 0, 0)?;
    state.put(state.arith().plain(0));
    Ok(())
}
