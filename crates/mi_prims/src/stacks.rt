//! The instructions on the data stack.

ghost use Rattle.std.specs.Prelude.{◌≡◌, ℕ, ◌+◌, ◌<◌, ◌≤◌, length, [], ◌∷◌, IfOk};
ghost use Rattle.mi_model.specs.Outcome.{outcome_of};
ghost use Rattle.mi_model.specs.Stacks as actions;
ghost use Rattle.mi_region.specs.View.{Gives, keeping, leading};

use mi_arith::Arith;
use mi_model::{Effect, Fault};
use mi_region::State;

/// DUP ( x -- x x )
pub fn dup<A: Arith>(state: &mut State<A>) -> Result<Effect, Fault>
    ensures { Gives A.GROWS result state.old state.new (leading state.old (outcome_of (A.ops state.old.arith) actions.do_dup state.old.machine [])) }
{
    state.tests(1, 2, 0, 0)?;
    let x = state.item(0);
    state.put(x);
    Ok(Effect::Went)
}

/// DROP ( x -- )
pub fn drop_item<A: Arith>(state: &mut State<A>) -> Result<Effect, Fault>
    ensures { Gives A.GROWS result state.old state.new (leading state.old (outcome_of (A.ops state.old.arith) actions.do_drop state.old.machine [])) }
{
    state.tests(1, 0, 0, 0)?;
    state.cut(1);
    Ok(Effect::Went)
}

/// SWAP ( x y -- y x )
pub fn swap<A: Arith>(state: &mut State<A>) -> Result<Effect, Fault>
    ensures { Gives A.GROWS result state.old state.new (leading state.old (outcome_of (A.ops state.old.arith) actions.do_swap state.old.machine [])) }
{
    state.tests(2, 2, 0, 0)?;
    let x = state.item(1);
    let y = state.item(0);
    state.cut(2);
    state.put(y);
    state.put(x);
    Ok(Effect::Went)
}

/// OVER ( x y -- x y x )
pub fn over<A: Arith>(state: &mut State<A>) -> Result<Effect, Fault>
    ensures { Gives A.GROWS result state.old state.new (leading state.old (outcome_of (A.ops state.old.arith) actions.do_over state.old.machine [])) }
{
    state.tests(2, 3, 0, 0)?;
    let x = state.item(1);
    state.put(x);
    Ok(Effect::Went)
}

/// ROT ( x y z -- y z x )
pub fn rot<A: Arith>(state: &mut State<A>) -> Result<Effect, Fault>
    ensures { Gives A.GROWS result state.old state.new (leading state.old (outcome_of (A.ops state.old.arith) actions.do_rot state.old.machine [])) }
{
    state.tests(3, 3, 0, 0)?;
    let (x, y, z) = (state.item(2), state.item(1), state.item(0));
    state.cut(3);
    state.put(y);
    state.put(z);
    state.put(x);
    Ok(Effect::Went)
}

/// The count on top of the data stack, which is below the number of items under it; else throw -4.
#[tactic(auto, unfolding(mi_model::specs::Stacks::count_of_items))]
fn count_of_items<A: Arith>(state: &State<A>) -> Result<u32, Fault>
    ensures action { keeping state.now.machine result ≡ outcome_of (A.ops state.now.arith) actions.count_of_items state.now.machine [] }
    ensures below { IfOk result (λ count. count + 1 < length state.now.machine.stack) }
    ensures most { length state.now.machine.stack ≤ 4096 }
{
    let depth = state.depth() as u64;
    state.tests(1, 1, 0, 0)?;
    let count = state.arith().number(state.item(0))?;
    if count < depth - 1 {
        Ok(count as u32)
    } else {
        Err(Fault::Throw(-4))
    }
}

/// PICK ( xu .. x0 u -- xu .. x0 xu ): a copy of the item with u items above it; throw -4 where there is none
pub fn pick<A: Arith>(state: &mut State<A>) -> Result<Effect, Fault>
    ensures { Gives A.GROWS result state.old state.new (leading state.old (outcome_of (A.ops state.old.arith) actions.do_pick state.old.machine [])) }
{
    let count = count_of_items(state)?;
    let x = state.item(count + 1);
    state.cut(1);
    state.put(x);
    Ok(Effect::Went)
}

/// ROLL ( xu .. x0 u -- xu-1 .. x0 xu ): the item with u items above it comes to the top; throw -4 where there is none
#[tactic(auto, using(crate::proofs::Rolls::rolls))]
pub fn roll<A: Arith>(state: &mut State<A>) -> Result<Effect, Fault>
    ensures { Gives A.GROWS result state.old state.new (leading state.old (outcome_of (A.ops state.old.arith) actions.do_roll state.old.machine [])) }
{
    let count = count_of_items(state)?;
    state.cut(1);
    state.roll(count);
    Ok(Effect::Went)
}

/// DEPTH ( -- n ): how many items there are before it
pub fn depth<A: Arith>(state: &mut State<A>) -> Result<Effect, Fault>
    ensures { Gives A.GROWS result state.old state.new (leading state.old (outcome_of (A.ops state.old.arith) actions.do_depth state.old.machine [])) }
{
    state.tests(0, 1, 0, 0)?;
    let n = state.arith().plain(state.depth() as u64);
    state.put(n);
    Ok(Effect::Went)
}

/// >R ( x -- ) R ( -- x )
pub fn to_r<A: Arith>(state: &mut State<A>) -> Result<Effect, Fault>
    ensures { Gives A.GROWS result state.old state.new (leading state.old (outcome_of (A.ops state.old.arith) actions.do_to_r state.old.machine [])) }
{
    state.tests(1, 0, 0, 1)?;
    let x = state.item(0);
    state.cut(1);
    state.rput(x);
    Ok(Effect::Went)
}

/// R> ( -- x ) R ( x -- )
pub fn r_from<A: Arith>(state: &mut State<A>) -> Result<Effect, Fault>
    ensures { Gives A.GROWS result state.old state.new (leading state.old (outcome_of (A.ops state.old.arith) actions.do_r_from state.old.machine [])) }
{
    state.tests(0, 1, 1, 0)?;
    let x = state.ritem(0);
    state.rcut(1);
    state.put(x);
    Ok(Effect::Went)
}

/// R@ ( -- x ) R ( x -- x )
pub fn r_fetch<A: Arith>(state: &mut State<A>) -> Result<Effect, Fault>
    ensures { Gives A.GROWS result state.old state.new (leading state.old (outcome_of (A.ops state.old.arith) actions.do_r_fetch state.old.machine [])) }
{
    state.tests(0, 1, 1, 1)?;
    let x = state.ritem(0);
    state.put(x);
    Ok(Effect::Went)
}

/// 2>R and (DO) ( x y -- ) R ( -- x y ): of a loop these are its limit and its index
pub fn two_to_r<A: Arith>(state: &mut State<A>) -> Result<Effect, Fault>
    ensures { Gives A.GROWS result state.old state.new (leading state.old (outcome_of (A.ops state.old.arith) actions.do_two_to_r state.old.machine [])) }
{
    state.tests(2, 0, 0, 2)?;
    let (x, y) = (state.item(1), state.item(0));
    state.cut(2);
    state.rput(x);
    state.rput(y);
    Ok(Effect::Went)
}

/// 2R> ( -- x y ) R ( x y -- )
pub fn two_r_from<A: Arith>(state: &mut State<A>) -> Result<Effect, Fault>
    ensures { Gives A.GROWS result state.old state.new (leading state.old (outcome_of (A.ops state.old.arith) actions.do_two_r_from state.old.machine [])) }
{
    state.tests(0, 2, 2, 0)?;
    let (x, y) = (state.ritem(1), state.ritem(0));
    state.rcut(2);
    state.put(x);
    state.put(y);
    Ok(Effect::Went)
}

/// 2R@ ( -- x y ) R ( x y -- x y )
pub fn two_r_fetch<A: Arith>(state: &mut State<A>) -> Result<Effect, Fault>
    ensures { Gives A.GROWS result state.old state.new (leading state.old (outcome_of (A.ops state.old.arith) actions.do_two_r_fetch state.old.machine [])) }
{
    state.tests(0, 2, 2, 2)?;
    let (x, y) = (state.ritem(1), state.ritem(0));
    state.put(x);
    state.put(y);
    Ok(Effect::Went)
}
