//! Chains of branches that all go to the same place, when that is known. Each member is a cell with the address of the
//! next member, and the last one's is 0; a chain is known by the address of its first member, and is 0 where it has none.

ghost use Rattle.std.specs.Prelude.{◌≡◌, ℕ, ◌≤◌, length, [], ◌∷◌, Ok, OnOk, IfErr, IsTrue};
ghost use Rattle.mi_model.specs.Machine.{Machine};
ghost use Rattle.mi_model.specs.Outcome.{outcome_of};
ghost use Rattle.mi_model.specs.Chains as actions;
ghost use Rattle.mi_region.specs.View.{Gives, keeping, leading};

use mi_arith::Arith;
use mi_model::Fault;
use mi_region::State;

/// How many members a chain has: throw -9 where a member doesn't lie in the region, -23 where it isn't aligned, and -22
/// where there are more members than cells in the region.
#[tactic(auto, using(crate::proofs::ChainWalks::count_next), unfolding(mi_model::specs::Chains::chain_length))]
pub fn chain_length<A: Arith>(state: &State<A>, chain: A::Cell) -> Result<u32, Fault>
    ensures { keeping state.now.machine result ≡ outcome_of (A.ops state.now.arith) actions.chain_length state.now.machine (chain ∷ []) }
{
    let arith = *state.arith();
    let mut member = chain;
    let mut counted = 0;
    let mut left = state.size() / 8;
    'members: while left > 0 {
        left -= 1;
        if arith.equal(member, arith.plain(0))? {
            return Ok(counted);
        }
        member = state.fetch(member)?;
        counted += 1;
    }
    if arith.equal(member, arith.plain(0))? {
        return Ok(counted);
    }
    Err(Fault::Throw(-22))
}

/// Makes each of so many members of a chain this cell. They have been counted, so nothing that is read here throws or is
/// refused.
#[tactic(auto, using(crate::proofs::ChainWalks::resolve_next))]
pub fn resolve<A: Arith>(
    state: &mut State<A>,
    count: u32,
    chain: A::Cell,
    target: A::Cell,
) -> Result<(), Fault>
    requires { (m : Machine A.Cell A.Byte) × (outcome_of (A.ops state.old.arith) (actions.resolve count) state.old.machine (chain ∷ (target ∷ [])) ≡ Ok (tt, m)) }
    ensures action { Gives A.GROWS result state.old state.new (leading state.old (outcome_of (A.ops state.old.arith) (actions.resolve count) state.old.machine (chain ∷ (target ∷ [])))) }
    ensures arith { OnOk result (state.new.arith ≡ state.old.arith) }
    ensures length { OnOk result (length state.new.machine.bytes ≡ length state.old.machine.bytes) }
    ensures stack { OnOk result (state.new.machine.stack ≡ state.old.machine.stack) }
    ensures memory { IfErr result (λ e. (e ≡ Fault.NoMemory) × IsTrue A.GROWS) }
{
    let mut member = chain;
    let mut left = count;
    'members: while left > 0 {
        left -= 1;
        let place = state.cell_offset(member)?;
        let next = state.fetch_at(place)?;
        state.put_cell(place, target);
        let _ = state.size();
        member = next;
    }
    Ok(())
}
