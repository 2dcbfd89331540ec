//! The instructions that define words.

ghost use Rattle.std.specs.Prelude.{◌≡◌, ℕ, ◌+◌, ◌≤◌, length, [], ◌∷◌};
ghost use Rattle.mi_model.specs.Outcome.{outcome_of};
ghost use Rattle.mi_model.specs.Defining as actions;
ghost use Rattle.mi_region.specs.View.{Gives, leading};

use mi_arith::Arith;
use mi_dict::{lay_header, lay_header_with_cell, parse_name};
use mi_model::{Effect, Fault};
use mi_region::State;
use mi_vocab::TO_IN;

/// The tags of the code fields of words whose token gives the address of their body, and the cell there.
pub const DOVAR: u8 = 2;

const DOCON: u8 = 3;

/// CREATE ( -- )
pub fn create<A: Arith>(state: &mut State<A>) -> Result<Effect, Fault>
    ensures { Gives A.GROWS result state.old state.new (leading state.old (outcome_of (A.ops state.old.arith) actions.do_create state.old.machine [])) }
{
    let before = state.system_bytes(TO_IN);
    let name = parse_name(state)?;
    match lay_header(state, DOVAR, name, 0) {
        Ok(()) => Ok(Effect::Went),
        Err(fault) => {
            state.put_back(TO_IN, before)?;
            Err(fault)
        }
    }
}

/// CONSTANT ( x -- )
pub fn constant<A: Arith>(state: &mut State<A>) -> Result<Effect, Fault>
    ensures { Gives A.GROWS result state.old state.new (leading state.old (outcome_of (A.ops state.old.arith) actions.do_constant state.old.machine [])) }
{
    state.tests(1, 0, 0, 0)?;
    let x = state.item(0);
    let before = state.system_bytes(TO_IN);
    let name = parse_name(state)?;
    match lay_header_with_cell(state, DOCON, name, x) {
        Ok(()) => {
            state.cut(1);
            Ok(Effect::Went)
        }
        Err(fault) => {
            state.put_back(TO_IN, before)?;
            Err(fault)
        }
    }
}

/// VARIABLE ( -- )
pub fn variable<A: Arith>(state: &mut State<A>) -> Result<Effect, Fault>
    ensures { Gives A.GROWS result state.old state.new (leading state.old (outcome_of (A.ops state.old.arith) actions.do_variable state.old.machine [])) }
{
    let zero = state.arith().plain(0);
    let before = state.system_bytes(TO_IN);
    let name = parse_name(state)?;
    match lay_header_with_cell(state, DOVAR, name, zero) {
        Ok(()) => Ok(Effect::Went),
        Err(fault) => {
            state.put_back(TO_IN, before)?;
            Err(fault)
        }
    }
}

/// (HEADER) ( n -- ): lays a header for the next name of the source, with the code of tag n, which is from 1 to 7.
///
/// Throws -4 for an empty stack, -24 for another n, -9 where the source doesn't lie in the region; -16, -19, -9, -8 and -23
/// as `lay_header` with no body. After a fault other than want of memory nothing has changed: the move of >IN is taken back.
pub fn header<A: Arith>(state: &mut State<A>) -> Result<Effect, Fault>
    ensures { Gives A.GROWS result state.old state.new (leading state.old (outcome_of (A.ops state.old.arith) actions.do_header state.old.machine [])) }
{
    state.tests(1, 0, 0, 0)?;
    let tag = state.arith().number(state.item(0))?;
    if !(1..=7).contains(&tag) {
        return Err(Fault::Throw(-24));
    }
    let before = state.system_bytes(TO_IN);
    let name = parse_name(state)?;
    if let Err(fault) = lay_header(state, tag as u8, name, 0) {
        state.put_back(TO_IN, before)?;
        return Err(fault);
    }
    state.cut(1);
    Ok(Effect::Went)
}
