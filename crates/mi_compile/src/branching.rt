//! The words that compile branches. A control item is two items of the stack: an address, and its kind on top.

ghost use Rattle.std.specs.Prelude.{◌≡◌, ℕ, ◌+◌, ◌≤◌, length, [], ◌∷◌, true, false, Ok, Err, OnOk, IfErr, ◌⊎◌};
ghost use Rattle.mi_model.specs.declared.Fault.TheVariants.{Throw};
ghost use Rattle.mi_model.specs.Machine.{asked, control_mismatch};
ghost use Rattle.mi_model.specs.Ops.Test.{Equal};
ghost use Rattle.mi_model.specs.Outcome.{outcome_of};
ghost use Rattle.mi_model.specs.Branching as actions;
ghost use Rattle.mi_compile.specs.Families.{branch_back};
ghost use Rattle.mi_region.specs.View.{Gives, leading, with_stack};

use mi_arith::Arith;
use mi_dict::{here, room, token_of};
use mi_model::{Effect, Fault};
use mi_region::State;
use mi_vocab::DP;

/// The tag of (BRANCH).
pub const BRANCH: u8 = 10;

/// The tag of (0BRANCH).
pub const ZERO_BRANCH: u8 = 11;

/// The kind of a place whose cell is given the address that a branch goes to later.
const ORIG: u64 = 1;

/// The kind of a place that a branch goes back to.
const DEST: u64 = 2;

/// Lays the token of a branching word at p, the offset of HERE, and behind it the cell that it is called with; HERE goes
/// behind both.
#[tactic(auto, unfolding(mi_model::specs::Branching::lay_branch))]
pub fn lay_branch<A: Arith>(state: &mut State<A>, tag: u8, p: u32, x: A::Cell)
    requires { p + 16 ≤ length state.old.machine.bytes }
    ensures action { leading state.old (outcome_of (A.ops state.old.arith) (actions.lay_branch tag p) state.old.machine (x ∷ [])) ≡ Ok (tt, state.new) }
    ensures arith { state.new.arith ≡ state.old.arith }
    ensures length { length state.new.machine.bytes ≡ length state.old.machine.bytes }
    ensures stack { state.new.machine.stack ≡ state.old.machine.stack }
{
    let arith = *state.arith();
    let _ = state.size();
    state.put_cell(p, token_of(&arith, tag));
    state.put_cell(p + 8, x);
    state.put_system(DP, arith.region_cell((p + 16) as u64));
}

/// Tests that the kind of a control item is the one that a word takes; throw -22 where it is another.
pub fn require_kind<A: Arith>(arith: &A, kind: A::Cell, wanted: u64) -> Result<(), Fault>
    ensures same { OnOk result (asked ((A.ops arith.now).test Equal kind ((A.ops arith.now).plain wanted)) ≡ Ok true) }
    ensures other { IfErr result (λ e. (asked ((A.ops arith.now).test Equal kind ((A.ops arith.now).plain wanted)) ≡ Err e)
        ⊎ ((asked ((A.ops arith.now).test Equal kind ((A.ops arith.now).plain wanted)) ≡ Ok false) × (e ≡ Throw control_mismatch))) }
{
    if !arith.equal(kind, arith.plain(wanted))? {
        return Err(Fault::Throw(-22));
    }
    Ok(())
}

/// Puts a control item on the data stack: the address of an offset, and its kind on top.
pub fn put_control<A: Arith>(state: &mut State<A>, offset: u32, kind: u64)
    requires { length state.old.machine.stack + 2 ≤ 4096 }
    ensures { state.new ≡ with_stack state.old ((A.ops state.old.arith).plain kind ∷ ((A.ops state.old.arith).region_cell offset ∷ state.old.machine.stack)) }
{
    let arith = *state.arith();
    state.put(arith.region_cell(offset as u64));
    state.put(arith.plain(kind));
}

/// IF ( -- orig ): compiles (0BRANCH) and 0, a place that is given the address behind ELSE or at THEN.
///
/// Throws -3 where the results don't fit the stack, -9 where HERE has left the dictionary, -8 where the two cells don't
/// fit the region, -23 where HERE isn't aligned. After a fault other than want of memory nothing has changed.
pub fn if_word<A: Arith>(state: &mut State<A>) -> Result<Effect, Fault>
    ensures { Gives A.GROWS result state.old state.new (leading state.old (outcome_of (A.ops state.old.arith) actions.do_if state.old.machine [])) }
{
    state.tests(0, 2, 0, 0)?;
    let zero = state.arith().plain(0);
    let p = room(state, 2)?;
    lay_branch(state, ZERO_BRANCH, p, zero);
    put_control(state, p + 8, ORIG);
    Ok(Effect::Went)
}

/// ELSE ( orig -- orig ): compiles (BRANCH) and 0, a place that is given the address at THEN; the branch of the item goes
/// behind them.
///
/// Throws -4 where the item isn't there, -3 where the results don't fit the stack, -22 where it is of another kind, -9
/// where HERE has left the dictionary, -8 where the two cells don't fit the region, -23 where HERE isn't aligned, -9
/// where the item has no cell of the region, -23 where that cell isn't aligned. After a fault other than want of memory
/// nothing has changed.
pub fn else_word<A: Arith>(state: &mut State<A>) -> Result<Effect, Fault>
    ensures { Gives A.GROWS result state.old state.new (leading state.old (outcome_of (A.ops state.old.arith) actions.do_else state.old.machine [])) }
{
    state.tests(2, 2, 0, 0)?;
    let arith = *state.arith();
    require_kind(&arith, state.item(0), ORIG)?;
    let p = room(state, 2)?;
    let place = state.cell_offset(state.item(1))?;
    lay_branch(state, BRANCH, p, arith.plain(0));
    state.put_cell(place, arith.region_cell((p + 16) as u64));
    state.cut(2);
    put_control(state, p + 8, ORIG);
    Ok(Effect::Went)
}

/// THEN ( orig -- ): the branch of the item goes to HERE. It compiles nothing.
///
/// Throws -4 where the item isn't there, -22 where it is of another kind, -9 where the item has no cell of the region,
/// -23 where that cell isn't aligned, -9 where HERE has left the dictionary. After a fault other than want of memory
/// nothing has changed.
pub fn then_word<A: Arith>(state: &mut State<A>) -> Result<Effect, Fault>
    ensures { Gives A.GROWS result state.old state.new (leading state.old (outcome_of (A.ops state.old.arith) actions.do_then state.old.machine [])) }
{
    state.tests(2, 0, 0, 0)?;
    let arith = *state.arith();
    require_kind(&arith, state.item(0), ORIG)?;
    let place = state.cell_offset(state.item(1))?;
    let p = here(state)?;
    state.put_cell(place, arith.region_cell(p as u64));
    state.cut(2);
    Ok(Effect::Went)
}

/// BEGIN ( -- dest ): the item is HERE, which AGAIN, UNTIL or REPEAT go back to. It compiles nothing.
///
/// Throws -3 where the results don't fit the stack, -9 where HERE has left the dictionary. After a fault other
/// than want of memory nothing has changed.
pub fn begin<A: Arith>(state: &mut State<A>) -> Result<Effect, Fault>
    ensures { Gives A.GROWS result state.old state.new (leading state.old (outcome_of (A.ops state.old.arith) actions.do_begin state.old.machine [])) }
{
    state.tests(0, 2, 0, 0)?;
    let p = here(state)?;
    put_control(state, p, DEST);
    Ok(Effect::Went)
}

/// AGAIN and UNTIL ( dest -- ): compiles the word of a tag and the address of the item.
///
/// Throws -4 where the item isn't there, -22 where it is of another kind, -9 where HERE has left the dictionary, -8 where
/// the two cells don't fit the region, -23 where HERE isn't aligned. After a fault other than want of memory nothing has
/// changed.
pub fn branch_back<A: Arith>(state: &mut State<A>, tag: u8) -> Result<Effect, Fault>
    ensures { Gives A.GROWS result state.old state.new (leading state.old (outcome_of (A.ops state.old.arith) (branch_back tag) state.old.machine [])) }
{
    state.tests(2, 0, 0, 0)?;
    let d = state.item(1);
    require_kind(state.arith(), state.item(0), DEST)?;
    let p = room(state, 2)?;
    lay_branch(state, tag, p, d);
    state.cut(2);
    Ok(Effect::Went)
}

/// WHILE ( dest -- orig dest ): compiles (0BRANCH) and 0, a place that is given the address behind REPEAT, or at a THEN;
/// its item comes under the one that was there.
///
/// Throws -4 where the item isn't there, -3 where the results don't fit the stack, -22 where it is of another kind, -9
/// where HERE has left the dictionary, -8 where the two cells don't fit the region, -23 where HERE isn't aligned. After a
/// fault other than want of memory nothing has changed.
pub fn while_word<A: Arith>(state: &mut State<A>) -> Result<Effect, Fault>
    ensures { Gives A.GROWS result state.old state.new (leading state.old (outcome_of (A.ops state.old.arith) actions.do_while state.old.machine [])) }
{
    state.tests(2, 4, 0, 0)?;
    let arith = *state.arith();
    let d = state.item(1);
    require_kind(&arith, state.item(0), DEST)?;
    let p = room(state, 2)?;
    lay_branch(state, ZERO_BRANCH, p, arith.plain(0));
    state.cut(2);
    put_control(state, p + 8, ORIG);
    state.put(d);
    state.put(arith.plain(DEST));
    Ok(Effect::Went)
}

/// REPEAT ( orig dest -- ): compiles (BRANCH) and the address of the item on top; the branch of the item under it goes
/// behind them.
///
/// Throws -4 where the four items of the stack aren't there, -22 where one of the two control items is of another kind,
/// -9 where HERE has left the dictionary, -8 where the two cells don't fit the region, -23 where HERE isn't aligned, -9
/// where the lower control item has no cell of the region, -23 where that cell isn't aligned. After a fault other than
/// want of memory nothing has changed.
pub fn repeat<A: Arith>(state: &mut State<A>) -> Result<Effect, Fault>
    ensures { Gives A.GROWS result state.old state.new (leading state.old (outcome_of (A.ops state.old.arith) actions.do_repeat state.old.machine [])) }
{
    state.tests(4, 0, 0, 0)?;
    let arith = *state.arith();
    let d = state.item(1);
    require_kind(&arith, state.item(2), ORIG)?;
    require_kind(&arith, state.item(0), DEST)?;
    let p = room(state, 2)?;
    let place = state.cell_offset(state.item(3))?;
    lay_branch(state, BRANCH, p, d);
    state.put_cell(place, arith.region_cell((p + 16) as u64));
    state.cut(4);
    Ok(Effect::Went)
}
