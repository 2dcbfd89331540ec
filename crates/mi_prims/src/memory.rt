//! The instructions on memory and data space.

ghost use Rattle.std.specs.Prelude.{◌≡◌, ℕ, [], ◌∷◌};
ghost use Rattle.mi_model.specs.Outcome.{outcome_of};
ghost use Rattle.mi_model.specs.Memory as actions;
ghost use Rattle.mi_prims.specs.Cells.{aligned_up};
ghost use Rattle.mi_region.specs.View.{Gives, leading};

use mi_arith::Arith;
use mi_model::{Effect, Fault};
use mi_region::State;

/// The next multiple of 8.
pub fn aligned<A: Arith>(state: &State<A>, x: A::Cell) -> Result<A::Cell, Fault>
    ensures { result ≡ aligned_up (A.ops state.now.arith) x }
{
    let arith = *state.arith();
    let above = arith.add(x, arith.plain(7))?;
    Ok(arith.and(above, arith.plain(u64::MAX - 7))?)
}

/// @ ( a -- x ): the cell at a; throw -9 where it doesn't lie in the region, -23 where it isn't aligned
pub fn fetch<A: Arith>(state: &mut State<A>) -> Result<Effect, Fault>
    ensures { Gives A.GROWS result state.old state.new (leading state.old (outcome_of (A.ops state.old.arith) actions.do_fetch state.old.machine [])) }
{
    state.tests(1, 1, 0, 0)?;
    let x = state.fetch(state.item(0))?;
    state.cut(1);
    state.put(x);
    Ok(Effect::Went)
}

/// ! ( x a -- ): the cell at a becomes x; throw -9 where it doesn't lie in the region, -23 where it isn't aligned
pub fn store<A: Arith>(state: &mut State<A>) -> Result<Effect, Fault>
    ensures { Gives A.GROWS result state.old state.new (leading state.old (outcome_of (A.ops state.old.arith) actions.do_store state.old.machine [])) }
{
    state.tests(2, 0, 0, 0)?;
    let x = state.item(1);
    let a = state.item(0);
    state.store(a, x)?;
    state.cut(2);
    Ok(Effect::Went)
}

/// HERE ( -- a ): where data space goes on; throw -9 where that isn't from 4096 to the region's size
pub fn here<A: Arith>(state: &mut State<A>) -> Result<Effect, Fault>
    ensures { Gives A.GROWS result state.old state.new (leading state.old (outcome_of (A.ops state.old.arith) actions.do_here state.old.machine [])) }
{
    state.tests(0, 1, 0, 0)?;
    mi_dict::here(state)?;
    let here = state.fetch_system(0)?;
    state.put(here);
    Ok(Effect::Went)
}

/// ALLOT ( n -- ): HERE goes on by n bytes, and back where n is negative; throw -9 where it isn't from 4096 to the
/// region's size, -8 where it wouldn't stay there
pub fn allot<A: Arith>(state: &mut State<A>) -> Result<Effect, Fault>
    ensures { Gives A.GROWS result state.old state.new (leading state.old (outcome_of (A.ops state.old.arith) actions.do_allot state.old.machine [])) }
{
    state.tests(1, 0, 0, 0)?;
    let n = state.item(0);
    let count = state.arith().number(n)?;
    let p = mi_dict::here(state)? as u64;
    let end = p.wrapping_add(count);
    if end < 4096 || end > state.size() as u64 {
        return Err(Fault::Throw(-8));
    }
    let next = state.arith().add(state.fetch_system(0)?, n)?;
    state.put_system(0, next);
    state.cut(1);
    Ok(Effect::Went)
}

/// , ( x -- ): the cell x at HERE, which goes on by 8; throws as `compile_cell`
pub fn comma<A: Arith>(state: &mut State<A>) -> Result<Effect, Fault>
    ensures { Gives A.GROWS result state.old state.new (leading state.old (outcome_of (A.ops state.old.arith) actions.do_comma state.old.machine [])) }
{
    state.tests(1, 0, 0, 0)?;
    let x = state.item(0);
    mi_dict::compile_cell(state, x)?;
    state.cut(1);
    Ok(Effect::Went)
}

/// C@ ( a -- c ): the byte at a; throw -9 where it doesn't lie in the region
pub fn c_fetch<A: Arith>(state: &mut State<A>) -> Result<Effect, Fault>
    ensures { Gives A.GROWS result state.old state.new (leading state.old (outcome_of (A.ops state.old.arith) actions.do_c_fetch state.old.machine [])) }
{
    state.tests(1, 1, 0, 0)?;
    let c = state.fetch_byte(state.item(0))?;
    let x = state.arith().plain(c as u64);
    state.cut(1);
    state.put(x);
    Ok(Effect::Went)
}

/// C! ( x a -- ): the byte at a becomes the low byte of x; throw -9 where it doesn't lie in the region
pub fn c_store<A: Arith>(state: &mut State<A>) -> Result<Effect, Fault>
    ensures { Gives A.GROWS result state.old state.new (leading state.old (outcome_of (A.ops state.old.arith) actions.do_c_store state.old.machine [])) }
{
    state.tests(2, 0, 0, 0)?;
    let (x, a) = (state.item(1), state.item(0));
    state.store_byte(a, x)?;
    state.cut(2);
    Ok(Effect::Went)
}

/// MOVE ( a b u -- ): copies u bytes from a to b, as if through a copy; throw -9 where one of the ranges doesn't lie in the
/// region
pub fn move_range<A: Arith>(state: &mut State<A>) -> Result<Effect, Fault>
    ensures { Gives A.GROWS result state.old state.new (leading state.old (outcome_of (A.ops state.old.arith) actions.do_move state.old.machine [])) }
{
    state.tests(3, 0, 0, 0)?;
    let (a, b) = (state.item(2), state.item(1));
    let count = state.arith().number(state.item(0))?;
    state.move_bytes(a, b, count)?;
    state.cut(3);
    Ok(Effect::Went)
}

/// FILL ( a u c -- ): u bytes from a on become the low byte of c; throw -9 where they don't lie in the region
pub fn fill<A: Arith>(state: &mut State<A>) -> Result<Effect, Fault>
    ensures { Gives A.GROWS result state.old state.new (leading state.old (outcome_of (A.ops state.old.arith) actions.do_fill state.old.machine [])) }
{
    state.tests(3, 0, 0, 0)?;
    let (a, c) = (state.item(2), state.item(0));
    let count = state.arith().number(state.item(1))?;
    let byte = state.arith().low_byte(c)?;
    state.fill(a, count, byte)?;
    state.cut(3);
    Ok(Effect::Went)
}

/// REGION ( -- a ): the address of the region's first byte
pub fn region<A: Arith>(state: &mut State<A>) -> Result<Effect, Fault>
    ensures { Gives A.GROWS result state.old state.new (leading state.old (outcome_of (A.ops state.old.arith) actions.do_region state.old.machine [])) }
{
    state.tests(0, 1, 0, 0)?;
    let a = state.arith().region_cell(0);
    state.put(a);
    Ok(Effect::Went)
}

/// C, ( c -- ): the low byte of c at HERE, which goes on by one; throw -9 where HERE isn't from 4096 to the region's size,
/// -8 where the byte doesn't fit
pub fn c_comma<A: Arith>(state: &mut State<A>) -> Result<Effect, Fault>
    ensures { Gives A.GROWS result state.old state.new (leading state.old (outcome_of (A.ops state.old.arith) actions.do_c_comma state.old.machine [])) }
{
    state.tests(1, 0, 0, 0)?;
    let c = state.arith().low_byte(state.item(0))?;
    let p = mi_dict::here(state)?;
    if p >= state.size() {
        return Err(Fault::Throw(-8));
    }
    let one = state.arith().plain(1);
    let next = state.arith().add(state.fetch_system(0)?, one)?;
    state.put_byte(p, c);
    state.put_system(0, next);
    state.cut(1);
    Ok(Effect::Went)
}

/// ALIGN ( -- ): HERE goes on to the next multiple of 8; throw -9 where it isn't from 4096 to the region's size
pub fn align<A: Arith>(state: &mut State<A>) -> Result<Effect, Fault>
    ensures { Gives A.GROWS result state.old state.new (leading state.old (outcome_of (A.ops state.old.arith) actions.do_align state.old.machine [])) }
{
    mi_dict::here(state)?;
    let here = state.fetch_system(0)?;
    let next = aligned(state, here)?;
    state.put_system(0, next);
    Ok(Effect::Went)
}

/// UNUSED ( -- u ): how many bytes there are from HERE to the end of the region; throw -9 where HERE isn't from 4096 to the
/// region's size
pub fn unused<A: Arith>(state: &mut State<A>) -> Result<Effect, Fault>
    ensures { Gives A.GROWS result state.old state.new (leading state.old (outcome_of (A.ops state.old.arith) actions.do_unused state.old.machine [])) }
{
    state.tests(0, 1, 0, 0)?;
    let p = mi_dict::here(state)?;
    let left = state.arith().plain((state.size() - p) as u64);
    state.put(left);
    Ok(Effect::Went)
}
