//! The search order.

ghost use Rattle.std.specs.Prelude.{◌≡◌, ℕ, ◌≤◌, ◌<◌, ◌+◌, length, [], Ok, OnOk};
ghost use Rattle.mi_model.specs.Outcome.{outcome_of};
ghost use Rattle.mi_model.specs.SearchOrder as actions;
ghost use Rattle.mi_region.specs.View.{Gives, leading};

use mi_arith::Arith;
use mi_model::{Effect, Fault};
use mi_region::State;
use mi_vocab::{FORTH_WORDLIST, ORDER, ORDER_COUNT, ORDER_LIMIT};

/// How many bytes the cells of the search order take.
const ORDER_SIZE: u32 = 8 * ORDER_LIMIT;

/// Pushes so many wordlists of the order, from one of them on, the last first. They are all read before the room for the
/// whole order and its count is tested.
fn push_lists<A: Arith>(state: &mut State<A>, left: u32, i: u32) -> Result<(), Fault>
    requires { left + i ≤ 16 }
    ensures action { Gives A.GROWS result state.old state.new (leading state.old (outcome_of (A.ops state.old.arith) (actions.push_lists left i) state.old.machine [])) }
    ensures kept { OnOk result ((state.new.arith ≡ state.old.arith) × (length state.new.machine.stack ≡ length state.old.machine.stack + left) × (length state.new.machine.stack + (i + 1) ≤ 4096)) }
{
    if left == 0 {
        return state.tests(0, i + 1, 0, 0);
    }
    let list = state.fetch_system(ORDER + 8 * i)?;
    push_lists(state, left - 1, i + 1)?;
    state.put(list);
    Ok(())
}

/// GET-ORDER ( -- widn..wid1 n ): the search order, the wordlist that is searched first on top, and how many wordlists it
/// has.
///
/// Throws -49 where the order has more than 16 wordlists, then -3 where it doesn't fit the stack. After a fault nothing has
/// changed.
pub fn get_order<A: Arith>(state: &mut State<A>) -> Result<Effect, Fault>
    ensures { Gives A.GROWS result state.old state.new (leading state.old (outcome_of (A.ops state.old.arith) actions.do_get_order state.old.machine [])) }
{
    let arith = *state.arith();
    let count = arith.number(state.fetch_system(ORDER_COUNT)?)?;
    if count > ORDER_LIMIT as u64 {
        return Err(Fault::Throw(-49));
    }
    push_lists(state, count as u32, 0)?;
    state.put(arith.plain(count));
    Ok(Effect::Went)
}

/// Makes the items below the count the first wordlists of the order, the upper ones first, and clears the cells of the
/// others.
#[tactic(auto, using(crate::proofs::Walks::store_lists_next, crate::proofs::Walks::store_lists_done))]
fn store_lists<A: Arith>(state: &mut State<A>, count: u32)
    requires most { count ≤ 16 }
    requires items { count < length state.old.machine.stack }
    ensures action { leading state.old (outcome_of (A.ops state.old.arith) (actions.store_lists count 0) state.old.machine []) ≡ Ok (tt, state.new) }
    ensures stack { state.new.machine.stack ≡ state.old.machine.stack }
{
    let mut i = 0;
    'lists: while i < count {
        let list = state.item(i + 1);
        state.put_system(ORDER + 8 * i, list);
        i += 1;
    }
    let _ = state.size();
    state.clear(ORDER + 8 * count, ORDER_SIZE - 8 * count);
}

/// Makes the search order that of the FORTH wordlist alone, and drops the item on top.
fn set_least_order<A: Arith>(state: &mut State<A>)
    requires { 0 < length state.old.machine.stack }
    ensures { leading state.old (outcome_of (A.ops state.old.arith) actions.set_least_order state.old.machine []) ≡ Ok (tt, state.new) }
{
    let arith = *state.arith();
    let _ = state.size();
    state.put_system(ORDER_COUNT, arith.plain(1));
    state.put_system(ORDER, arith.region_cell(FORTH_WORDLIST as u64));
    state.clear(ORDER + 8, ORDER_SIZE - 8);
    state.cut(1);
}

/// Makes the search order that of so many wordlists, which are on the stack below their count, and drops them and the count:
/// throw -50 for a negative count, -49 for one above 16, -4 where the items aren't there.
#[tactic(auto, unfolding(mi_model::specs::SearchOrder::set_order))]
fn set_counted_order<A: Arith>(state: &mut State<A>, count: u64) -> Result<(), Fault>
    ensures { Gives A.GROWS result state.old state.new (leading state.old (outcome_of (A.ops state.old.arith) (actions.set_order count) state.old.machine [])) }
{
    if count >= 1 << 63 {
        return Err(Fault::Throw(-50));
    }
    if count > ORDER_LIMIT as u64 {
        return Err(Fault::Throw(-49));
    }
    let items = count as u32 + 1;
    state.tests(items, 0, 0, 0)?;
    state.put_system(ORDER_COUNT, state.arith().plain(count));
    store_lists(state, count as u32);
    state.cut(items);
    Ok(())
}

/// SET-ORDER ( widn..wid1 n -- ): makes the search order that of n wordlists, of which wid1 is searched first; for an n of -1
/// that of the FORTH wordlist alone. The cells of the order behind them become 0.
///
/// Throws -4 for an empty stack, -50 for any other negative n, -49 for one above 16, then -4 where the n wordlists aren't
/// there. After a fault other than want of memory nothing has changed.
pub fn set_order<A: Arith>(state: &mut State<A>) -> Result<Effect, Fault>
    ensures { Gives A.GROWS result state.old state.new (leading state.old (outcome_of (A.ops state.old.arith) actions.do_set_order state.old.machine [])) }
{
    state.tests(1, 0, 0, 0)?;
    let count = state.arith().number(state.item(0))?;
    if count == u64::MAX {
        set_least_order(state);
    } else {
        set_counted_order(state, count)?;
    }
    Ok(Effect::Went)
}
