//! The finish of a build.

ghost use Rattle.std.specs.Prelude.{◌≡◌, ℕ, ◌+◌, ◌-◌, ◌≤◌, length, drop, replicate, [], Option, None, Some, Ok, IfOk};
ghost use Rattle.std.specs.Option.{option_copied};
ghost use Rattle.mi_model.specs.Outcome.{outcome_of};
ghost use Rattle.mi_model.specs.Action.{part_of};
ghost use Rattle.mi_model.specs.Region.{with_filled};
ghost use Rattle.mi_model.specs.Finish as actions;
ghost use Rattle.mi_region.specs.View.{Gives, leading, with_bytes};
ghost use Rattle.mi_machine.specs.Ready.{IsReady};

use mi_arith::Arith;
use mi_dict::{find_text, here};
use mi_model::{Fault, Finished, Word};
use mi_region::State;

/// Clears the region from an offset on.
#[tactic(auto, using(crate::proofs::Cleared::cleared_behind, crate::proofs::Cleared::length_cleared))]
fn clear_behind<A: Arith>(state: &mut State<A>, p: u32)
    requires { p ≤ A.size state.old.arith }
    ensures changed { state.new ≡ with_bytes state.old (with_filled state.old.machine.bytes p (length state.old.machine.bytes - p) ((A.ops state.old.arith).byte 0)) }
    ensures within { p ≤ length state.new.machine.bytes }
    ensures cleared { drop p state.new.machine.bytes ≡ replicate (length state.new.machine.bytes - p) ((A.ops state.old.arith).byte 0) }
{
    let size = state.size();
    state.clear(p, size - p);
}

/// Sets the system cells as the seed has them.
#[tactic(auto, unfolding(mi_model::specs::Finish::restored_system))]
fn restore_system<A: Arith>(state: &mut State<A>)
    ensures action { leading state.old (outcome_of (A.ops state.old.arith) actions.restored_system state.old.machine []) ≡ Ok (tt, state.new) }
    ensures arith { state.new.arith ≡ state.old.arith }
{
    let arith = *state.arith();
    state.put_system(16, arith.plain(0));
    state.put_system(24, arith.plain(0));
    state.put_system(32, arith.region_cell(512));
    state.put_system(40, arith.plain(0));
    state.put_system(48, arith.plain(0));
    state.put_system(72, arith.plain(1));
    state.put_system(88, arith.region_cell(2048));
    state.put_system(296, arith.plain(0));
}

/// Clears the buffers and what is behind an offset, and empties the stacks.
#[tactic(auto, unfolding(mi_model::specs::Finish::cleared_from))]
fn clear_from<A: Arith>(state: &mut State<A>, p: u32)
    requires { p ≤ A.size state.old.arith }
    ensures action { leading state.old (outcome_of (A.ops state.old.arith) (actions.cleared_from p) state.old.machine []) ≡ Ok (tt, state.new) }
    ensures within { p ≤ length state.new.machine.bytes }
    ensures cleared { drop p state.new.machine.bytes ≡ replicate (length state.new.machine.bytes - p) ((A.ops state.old.arith).byte 0) }
{
    let _ = state.size();
    state.clear(512, 3584);
    clear_behind(state, p);
    state.empty_stacks();
}

/// Sets the system cells, clears the buffers and what is behind an offset, and empties the stacks.
#[tactic(auto, unfolding(mi_model::specs::Finish::tidy_region))]
fn tidy_region<A: Arith>(state: &mut State<A>, p: u32)
    requires { p ≤ A.size state.old.arith }
    ensures action { leading state.old (outcome_of (A.ops state.old.arith) (actions.tidy_region p) state.old.machine []) ≡ Ok (tt, state.new) }
    ensures within { p ≤ length state.new.machine.bytes }
    ensures cleared { drop p state.new.machine.bytes ≡ replicate (length state.new.machine.bytes - p) ((A.ops state.old.arith).byte 0) }
{
    restore_system(state);
    clear_from(state, p);
}

/// Tidies the region up, whose use ends at DP's offset, rounded up to a multiple of 8.
#[tactic(auto, using(crate::proofs::Cleared::tidy))]
fn ready<A: Arith>(state: &mut State<A>) -> Result<Finished, Fault>
    ensures action { Gives A.GROWS result state.old state.new (leading state.old (outcome_of (A.ops state.old.arith) (part_of actions.ready) state.old.machine [])) }
    ensures ready { IfOk result (λ f. IsReady f (A.ops state.old.arith) state.new.machine.bytes) }
{
    let p = here(state)?;
    let _ = state.size();
    tidy_region(state, p);
    Ok(Finished::Ready {
        used: (p + 7) / 8 * 8,
    })
}

/// The same, with the token of an entry word in its system cell.
#[tactic(auto, using(crate::proofs::Cleared::tidy))]
fn ready_at<A: Arith>(state: &mut State<A>, word: Word) -> Result<Finished, Fault>
    ensures action { Gives A.GROWS result state.old state.new (leading state.old (outcome_of (A.ops state.old.arith) (part_of (actions.ready_at (Some word))) state.old.machine [])) }
    ensures ready { IfOk result (λ f. IsReady f (A.ops state.old.arith) state.new.machine.bytes) }
{
    let arith = *state.arith();
    let p = here(state)?;
    let _ = state.size();
    state.put_system(96, arith.region_cell(word.token as u64));
    tidy_region(state, p);
    Ok(Finished::Ready {
        used: (p + 7) / 8 * 8,
    })
}

/// The finish of a build, with the name of its entry word or none: throw -39 inside a definition, -9 where DP has left
/// the dictionary. After a fault other than want of memory, and where the entry name isn't found, nothing has changed.
#[tactic(auto, unfolding(mi_model::specs::Finish::finish))]
pub fn finish<A: Arith>(state: &mut State<A>, entry_name: Option<&[u8]>) -> Result<Finished, Fault>
    ensures action { Gives A.GROWS result state.old state.new (leading state.old (outcome_of (A.ops state.old.arith) (actions.finish (option_copied entry_name.entry)) state.old.machine [])) }
    ensures ready { IfOk result (λ f. IsReady f (A.ops state.old.arith) state.new.machine.bytes) }
{
    let arith = *state.arith();
    if !arith.equal(state.fetch_system(16)?, arith.plain(0))? {
        return Err(Fault::Throw(-39));
    }
    let Some(name) = entry_name else {
        return Ok(ready(state)?);
    };
    match find_text(state, name)? {
        None => Ok(Finished::NoEntry),
        Some(word) => Ok(ready_at(state, word)?),
    }
}
