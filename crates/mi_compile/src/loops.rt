//! The words that compile counted loops. The cell LEAVES has the chain of the branches that leave the innermost loop, or
//! 1 where there is no loop.

ghost use Rattle.std.specs.Prelude.{◌≡◌, ℕ, ◌+◌, ◌≤◌, length, [], ◌∷◌};
ghost use Rattle.mi_model.specs.Outcome.{outcome_of};
ghost use Rattle.mi_model.specs.CompilingLoops as actions;
ghost use Rattle.mi_region.specs.View.{Gives, leading};

use crate::branching::{BRANCH, lay_branch, put_control, require_kind};
use crate::chains::{chain_length, resolve};
use mi_arith::Arith;
use mi_dict::{room, token_of};
use mi_model::{Effect, Fault};
use mi_region::State;
use mi_vocab::{DP, LEAVES};

/// The tags of (DO), (?DO), (LOOP), (+LOOP) and UNLOOP.
const DO: u8 = 12;

const QUESTION_DO: u8 = 13;

pub const LOOP: u8 = 14;

pub const PLUS_LOOP: u8 = 15;

const UNLOOP: u8 = 16;

/// The kind of a loop: under it the address of its body, and under that LEAVES as it was outside the loop.
const LOOP_SYS: u64 = 3;

/// The value of LEAVES outside of any loop.
const OUTSIDE: u64 = 1;

/// DO ( -- do-sys ): compiles (DO). The chain of the branches that leave the loop is empty; the item keeps the chain of
/// the loop around it, and HERE as the address of the body.
///
/// Throws -3 where the three results don't fit the stack, -9 where HERE has left the dictionary, -8 where the cell
/// doesn't fit the region, -23 where HERE isn't aligned. After a fault other than want of memory nothing has changed.
pub fn do_word<A: Arith>(state: &mut State<A>) -> Result<Effect, Fault>
    ensures { Gives A.GROWS result state.old state.new (leading state.old (outcome_of (A.ops state.old.arith) actions.do_do state.old.machine [])) }
{
    state.tests(0, 3, 0, 0)?;
    let arith = *state.arith();
    let _ = state.size();
    let outer = state.fetch_system(LEAVES)?;
    let p = room(state, 1)?;
    state.put_system(LEAVES, arith.plain(0));
    state.put_cell(p, token_of(&arith, DO));
    state.put_system(DP, arith.region_cell((p + 8) as u64));
    state.put(outer);
    put_control(state, p + 8, LOOP_SYS);
    Ok(Effect::Went)
}

/// ?DO ( -- do-sys ): compiles (?DO) and 0, a place that is given the address behind the loop: it is the chain of the
/// branches that leave the loop. The item keeps the chain of the loop around it, and HERE as the address of the body.
///
/// Throws -3 where the three results don't fit the stack, -9 where HERE has left the dictionary, -8 where the two cells
/// don't fit the region, -23 where HERE isn't aligned. After a fault other than want of memory nothing has changed.
pub fn question_do<A: Arith>(state: &mut State<A>) -> Result<Effect, Fault>
    ensures { Gives A.GROWS result state.old state.new (leading state.old (outcome_of (A.ops state.old.arith) actions.do_question_do state.old.machine [])) }
{
    state.tests(0, 3, 0, 0)?;
    let arith = *state.arith();
    let outer = state.fetch_system(LEAVES)?;
    let p = room(state, 2)?;
    lay_branch(state, QUESTION_DO, p, arith.plain(0));
    state.put_system(LEAVES, arith.region_cell((p + 8) as u64));
    state.put(outer);
    put_control(state, p + 16, LOOP_SYS);
    Ok(Effect::Went)
}

/// LOOP and +LOOP ( v d 3 -- ), the end of a loop: compiles the word of a tag, and d, at HERE; each branch of the chain of
/// LEAVES goes behind them, and LEAVES becomes v.
///
/// Throws -4 where the three items aren't there, -22 for another kind than 3, -9, -8 and -23 as `room` for two cells; -9
/// where a member of the chain doesn't lie in the region, -23 where it isn't aligned, and -22 where there are more members
/// than cells in the region. After a fault other than want of memory nothing has changed.
pub fn end_loop<A: Arith>(state: &mut State<A>, tag: u8) -> Result<Effect, Fault>
    ensures { Gives A.GROWS result state.old state.new (leading state.old (outcome_of (A.ops state.old.arith) (actions.end_loop tag) state.old.machine [])) }
{
    state.tests(3, 0, 0, 0)?;
    let arith = *state.arith();
    let outer = state.item(2);
    let body = state.item(1);
    require_kind(&arith, state.item(0), LOOP_SYS)?;
    let p = room(state, 2)?;
    let _ = state.size();
    let leaves = state.fetch_system(LEAVES)?;
    let behind = arith.region_cell((p + 16) as u64);
    let count = chain_length(state, leaves)?;
    resolve(state, count, leaves, behind)?;
    lay_branch(state, tag, p, body);
    state.put_system(LEAVES, outer);
    state.cut(3);
    Ok(Effect::Went)
}

/// LEAVE ( -- ): compiles UNLOOP, (BRANCH) and the chain of the branches that leave the innermost loop, whose first
/// member is now this branch.
///
/// Throws -22 outside of a loop, -9 where HERE has left the dictionary, -8 where the three cells don't fit the region,
/// -23 where HERE isn't aligned. After a fault other than want of memory nothing has changed.
pub fn leave<A: Arith>(state: &mut State<A>) -> Result<Effect, Fault>
    ensures { Gives A.GROWS result state.old state.new (leading state.old (outcome_of (A.ops state.old.arith) actions.do_leave state.old.machine [])) }
{
    let arith = *state.arith();
    let _ = state.size();
    let leaves = state.fetch_system(LEAVES)?;
    if arith.equal(leaves, arith.plain(OUTSIDE))? {
        return Err(Fault::Throw(-22));
    }
    let p = room(state, 3)?;
    state.put_cell(p, token_of(&arith, UNLOOP));
    state.put_cell(p + 8, token_of(&arith, BRANCH));
    state.put_cell(p + 16, leaves);
    state.put_system(DP, arith.region_cell((p + 24) as u64));
    state.put_system(LEAVES, arith.region_cell((p + 16) as u64));
    Ok(Effect::Went)
}
