//! The start of a run.

ghost use Rattle.std.specs.Prelude.{◌≡◌, ℕ, []};
ghost use Rattle.mi_model.specs.Outcome.{outcome_of};
ghost use Rattle.mi_model.specs.Run as actions;
ghost use Rattle.mi_region.specs.View.{Gives, leading};

use mi_arith::Arith;
use mi_model::Fault;
use mi_region::State;
use mi_vocab::{BYE_AFTER_ENTRY, ENTRY, INTERPRETER_LOOP};

/// Starts a run, and answers whether it has an entry word: then its token is due and `BYE` is next, and else, where the
/// cell ENTRY is 0, the text interpreter is next.
///
/// It throws nothing. After a refusal nothing has changed.
#[tactic(auto, unfolding(mi_model::specs::Run::start_entry))]
pub fn start_entry<A: Arith>(state: &mut State<A>) -> Result<bool, Fault>
    ensures { Gives A.GROWS result state.old state.new (leading state.old (outcome_of (A.ops state.old.arith) actions.start_entry state.old.machine [])) }
{
    let arith = *state.arith();
    let entry = state.fetch_system(ENTRY)?;
    if arith.equal(entry, arith.plain(0))? {
        state.set_ip(arith.region_cell(INTERPRETER_LOOP as u64));
        return Ok(false);
    }
    state.set_due(Some(entry));
    state.set_ip(arith.region_cell(BYE_AFTER_ENTRY as u64));
    Ok(true)
}
