//! The instructions on sources and lines, and how a machine goes on after a throw.

ghost use Rattle.std.specs.Prelude.{◌≡◌, ℕ, [], Ok, IfErr, IsTrue};
ghost use Rattle.mi_model.specs.Outcome.{outcome_of};
ghost use Rattle.mi_model.specs.Sources as actions;
ghost use Rattle.mi_model.specs.Recovery as recovery;
ghost use Rattle.mi_region.specs.View.{Gives, leading, with_rstack};

use mi_arith::Arith;
use mi_model::{Effect, Fault, Wait};
use mi_region::State;
use mi_vocab::{
    INTERPRETER_LOOP, LINE_BUFFER, SOURCE_ADDRESS, SOURCE_LENGTH, SOURCE_NUMBER, STATE, TO_IN,
};

/// Drops all items of the return stack.
#[tactic(auto, using(std::proofs::lemmas::List::drop_all))]
fn empty_return_stack<A: Arith>(state: &mut State<A>)
    ensures { state.new ≡ with_rstack state.old [] }
{
    let depth = state.rdepth();
    state.rcut(depth);
}

/// Has the text interpreter begin anew: it interprets, the source is the line buffer with the length 0 and the number 0,
/// the return stack is empty, and the instruction address is at the interpreter's loop. The data stack stays.
#[tactic(auto, unfolding(mi_model::specs::Sources::restart))]
fn restart<A: Arith>(state: &mut State<A>)
    ensures { leading state.old (outcome_of (A.ops state.old.arith) actions.restart state.old.machine []) ≡ Ok (tt, state.new) }
{
    let arith = *state.arith();
    state.put_system(STATE, arith.plain(0));
    state.put_system(TO_IN, arith.plain(0));
    state.put_system(SOURCE_LENGTH, arith.plain(0));
    state.put_system(SOURCE_NUMBER, arith.plain(0));
    state.put_system(SOURCE_ADDRESS, arith.region_cell(LINE_BUFFER as u64));
    empty_return_stack(state);
    state.set_ip(arith.region_cell(INTERPRETER_LOOP as u64));
}

/// QUIT ( -- ) R ( .. -- ): empties the return stack, and has the text interpreter begin anew on an empty line buffer,
/// interpreting. The data stack stays. It throws nothing.
pub fn quit<A: Arith>(state: &mut State<A>) -> Result<Effect, Fault>
    ensures { Gives A.GROWS result state.old state.new (leading state.old (outcome_of (A.ops state.old.arith) actions.do_quit state.old.machine [])) }
{
    restart(state);
    Ok(Effect::Went)
}

/// EVALUATE ( a u -- ) R ( -- ip address length number in ): makes the text the source, with the number -1, until its
/// end. The instruction address and the source before it wait on the return stack.
///
/// Throws -4 where the two items aren't there, and -5 where the five cells don't fit the return stack. Whether the text
/// lies in the region shows only when it is parsed. After a fault other than want of memory nothing has changed.
pub fn evaluate<A: Arith>(state: &mut State<A>) -> Result<Effect, Fault>
    ensures { Gives A.GROWS result state.old state.new (leading state.old (outcome_of (A.ops state.old.arith) actions.do_evaluate state.old.machine [])) }
{
    state.tests(2, 0, 0, 5)?;
    let arith = *state.arith();
    let (text, count) = (state.item(1), state.item(0));
    let ip = state.ip();
    let address = state.fetch_system(SOURCE_ADDRESS)?;
    let length = state.fetch_system(SOURCE_LENGTH)?;
    let number = state.fetch_system(SOURCE_NUMBER)?;
    let in_offset = state.fetch_system(TO_IN)?;
    state.put_system(SOURCE_ADDRESS, text);
    state.put_system(SOURCE_LENGTH, count);
    state.put_system(SOURCE_NUMBER, arith.plain(u64::MAX));
    state.put_system(TO_IN, arith.plain(0));
    state.cut(2);
    state.rput(ip);
    state.rput(address);
    state.rput(length);
    state.rput(number);
    state.rput(in_offset);
    state.set_ip(arith.region_cell(INTERPRETER_LOOP as u64));
    Ok(Effect::Went)
}

/// REFILL ( -- f ): false inside EVALUATE; else a line is wanted, and the flag is pushed when it comes: true, or false at
/// the end of the input.
///
/// Throws -3 where the flag doesn't fit the stack. After a fault nothing has changed.
pub fn refill<A: Arith>(state: &mut State<A>) -> Result<Effect, Fault>
    ensures { Gives A.GROWS result state.old state.new (leading state.old (outcome_of (A.ops state.old.arith) actions.do_refill state.old.machine [])) }
{
    state.tests(0, 1, 0, 0)?;
    let arith = *state.arith();
    if arith.equal(state.fetch_system(SOURCE_NUMBER)?, arith.plain(0))? {
        state.set_wait(Wait::Refill);
        return Ok(Effect::Want);
    }
    state.put(arith.plain(0));
    Ok(Effect::Went)
}

/// ACCEPT ( a u -- n ): a line is wanted, of which at most u bytes go to a. Their number is pushed when it comes, and 0 at
/// the end of the input.
///
/// Throws -4 where the two items aren't there, -9 where the u bytes don't lie in the region. After a fault nothing has
/// changed.
pub fn accept<A: Arith>(state: &mut State<A>) -> Result<Effect, Fault>
    ensures { Gives A.GROWS result state.old state.new (leading state.old (outcome_of (A.ops state.old.arith) actions.do_accept state.old.machine [])) }
{
    state.tests(2, 1, 0, 0)?;
    let (address, most) = (state.item(1), state.item(0));
    let count = state.arith().number(most)?;
    state.range(address, count)?;
    state.set_wait(Wait::Accept { address, count });
    state.cut(2);
    Ok(Effect::Want)
}

/// What a run does after a throw: empties both stacks, drops the due token, waits for nothing, and has the text interpreter
/// begin anew as QUIT does.
///
/// It fails only for want of memory in an arithmetic that takes some.
#[tactic(auto, using(crate::proofs::Recovered::recovered))]
pub fn recover<A: Arith>(state: &mut State<A>) -> Result<(), Fault>
    ensures action { Gives A.GROWS result state.old state.new (leading state.old (outcome_of (A.ops state.old.arith) recovery.recover state.old.machine [])) }
    ensures memory { IfErr result (λ e. (e ≡ Fault.NoMemory) × IsTrue A.GROWS) }
{
    state.empty_stacks();
    state.set_due(None);
    state.set_wait(Wait::Idle);
    restart(state);
    Ok(())
}
