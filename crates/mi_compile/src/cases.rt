//! The words that compile a choice by a value. The item of a choice has the chain of the branches that leave it; that of
//! a case in it has the place of the branch to the next case.

ghost use Rattle.std.specs.Prelude.{◌≡◌, ℕ, ◌+◌, ◌≤◌, length, [], ◌∷◌};
ghost use Rattle.mi_model.specs.Outcome.{outcome_of};
ghost use Rattle.mi_model.specs.Cases as actions;
ghost use Rattle.mi_region.specs.View.{Gives, leading};

use crate::branching::{BRANCH, ZERO_BRANCH, lay_branch, put_control, require_kind};
use crate::chains::{chain_length, resolve};
use mi_arith::Arith;
use mi_dict::{room, token_of};
use mi_model::{Effect, Fault};
use mi_region::State;
use mi_vocab::DP;

/// The tags of DROP, OVER and =.
const DROP: u8 = 29;

const OVER: u8 = 31;

const EQUAL: u8 = 57;

/// The kind of a choice.
const CASE_SYS: u64 = 4;

/// The kind of a case in it.
const OF_SYS: u64 = 5;

/// CASE ( -- case-sys ): a choice begins, with an empty chain. It compiles nothing.
///
/// Throws -3 where the results don't fit the stack, and then nothing has changed.
pub fn case_word<A: Arith>(state: &mut State<A>) -> Result<Effect, Fault>
    ensures { Gives A.GROWS result state.old state.new (leading state.old (outcome_of (A.ops state.old.arith) actions.do_case state.old.machine [])) }
{
    state.tests(0, 2, 0, 0)?;
    let arith = *state.arith();
    state.put(arith.plain(0));
    state.put(arith.plain(CASE_SYS));
    Ok(Effect::Went)
}

/// OF ( case-sys -- case-sys of-sys ): compiles OVER, =, (0BRANCH) and 0, a place that is given the address behind ENDOF,
/// and DROP.
///
/// Throws -4 where the item isn't there, -3 where the results don't fit the stack, -22 where it is of another kind, -9
/// where HERE has left the dictionary, -8 where the five cells don't fit the region, -23 where HERE isn't aligned. After
/// a fault other than want of memory nothing has changed.
pub fn of_word<A: Arith>(state: &mut State<A>) -> Result<Effect, Fault>
    ensures { Gives A.GROWS result state.old state.new (leading state.old (outcome_of (A.ops state.old.arith) actions.do_of state.old.machine [])) }
{
    state.tests(2, 4, 0, 0)?;
    let arith = *state.arith();
    let _ = state.size();
    require_kind(&arith, state.item(0), CASE_SYS)?;
    let p = room(state, 5)?;
    state.put_cell(p, token_of(&arith, OVER));
    state.put_cell(p + 8, token_of(&arith, EQUAL));
    state.put_cell(p + 16, token_of(&arith, ZERO_BRANCH));
    state.put_cell(p + 24, arith.plain(0));
    state.put_cell(p + 32, token_of(&arith, DROP));
    state.put_system(DP, arith.region_cell((p + 40) as u64));
    put_control(state, p + 24, OF_SYS);
    Ok(Effect::Went)
}

/// ENDOF ( case-sys of-sys -- case-sys ): compiles (BRANCH) and the chain of the branches that leave the choice, whose
/// first member is now this branch; the branch of the case goes behind them.
///
/// Throws -4 where the four items of the stack aren't there, -22 where one of the two control items is of another kind,
/// -9 where HERE has left the dictionary, -8 where the two cells don't fit the region, -23 where HERE isn't aligned, -9
/// where the item of the case has no cell of the region, -23 where that cell isn't aligned. After a fault other than want
/// of memory nothing has changed.
pub fn endof<A: Arith>(state: &mut State<A>) -> Result<Effect, Fault>
    ensures { Gives A.GROWS result state.old state.new (leading state.old (outcome_of (A.ops state.old.arith) actions.do_endof state.old.machine [])) }
{
    state.tests(4, 2, 0, 0)?;
    let arith = *state.arith();
    let chain = state.item(3);
    require_kind(&arith, state.item(2), CASE_SYS)?;
    require_kind(&arith, state.item(0), OF_SYS)?;
    let p = room(state, 2)?;
    let place = state.cell_offset(state.item(1))?;
    lay_branch(state, BRANCH, p, chain);
    state.put_cell(place, arith.region_cell((p + 16) as u64));
    state.cut(4);
    put_control(state, p + 8, CASE_SYS);
    Ok(Effect::Went)
}

/// ENDCASE ( c 4 -- ): compiles DROP at HERE, and each branch of the chain c, which leave the choice, goes behind it.
///
/// Throws -4 where the two items aren't there, -22 for another kind than 4, -9, -8 and -23 as `room` for a cell; -9 where a
/// member of the chain doesn't lie in the region, -23 where it isn't aligned, and -22 where there are more members than
/// cells in the region. After a fault other than want of memory nothing has changed.
pub fn endcase<A: Arith>(state: &mut State<A>) -> Result<Effect, Fault>
    ensures { Gives A.GROWS result state.old state.new (leading state.old (outcome_of (A.ops state.old.arith) actions.do_endcase state.old.machine [])) }
{
    state.tests(2, 0, 0, 0)?;
    let arith = *state.arith();
    let chain = state.item(1);
    require_kind(&arith, state.item(0), CASE_SYS)?;
    let p = room(state, 1)?;
    let _ = state.size();
    let behind = arith.region_cell((p + 8) as u64);
    let count = chain_length(state, chain)?;
    resolve(state, count, chain, behind)?;
    state.put_cell(p, token_of(&arith, DROP));
    state.put_system(DP, behind);
    state.cut(2);
    Ok(Effect::Went)
}
