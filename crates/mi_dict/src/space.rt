//! The space that words are compiled to.

ghost use Rattle.std.specs.Prelude.{◌≡◌, ℕ, ◌≤◌, ◌<◌, ◌+◌, ◌*◌, ◌^◌, length, [], ◌∷◌, OnOk, IfOk};
ghost use Rattle.mi_model.specs.Outcome.{outcome_of};
ghost use Rattle.mi_model.specs.Parts as parts;
ghost use Rattle.mi_region.specs.View.{Gives, keeping, leading};

use mi_arith::Arith;
use mi_model::Fault;
use mi_region::State;
use mi_vocab::{CODE, DICTIONARY, DP, HEADER_SIZE};

/// The tag of (LIT).
const LITERAL: u8 = 9;

/// The offset of HERE, where the next cell is compiled; throw -9 where it isn't from 4096 to the region's size.
#[tactic(auto, unfolding(mi_model::specs::Parts::here))]
pub fn here<A: Arith>(state: &State<A>) -> Result<u32, Fault>
    ensures action { keeping state.now.machine result ≡ outcome_of (A.ops state.now.arith) parts.here state.now.machine [] }
    ensures least { IfOk result (λ p. 4096 ≤ p) }
    ensures most { IfOk result (λ p. p ≤ length state.now.machine.bytes) }
{
    let here = state.fetch_system(DP)?;
    let p = state.offset_of(here)?;
    if p < 4096 || p > state.size() {
        return Err(Fault::Throw(-9));
    }
    Ok(p)
}

/// The offset of HERE, where so many cells can be compiled: throw -9 as `here`, -8 where they don't fit the region, then
/// -23 where HERE isn't aligned.
#[tactic(auto, unfolding(mi_model::specs::Parts::room))]
pub fn room<A: Arith>(state: &State<A>, cells: u32) -> Result<u32, Fault>
    requires { cells ≤ 8 }
    ensures action { keeping state.now.machine result ≡ outcome_of (A.ops state.now.arith) (parts.room cells) state.now.machine [] }
    ensures fits { IfOk result (λ p. p + 8 * cells ≤ length state.now.machine.bytes) }
    ensures below { IfOk result (λ p. p + 8 * cells < 2 ^ 32) }
{
    let p = here(state)?;
    if p as u64 + 8 * cells as u64 > state.size() as u64 {
        return Err(Fault::Throw(-8));
    }
    if p % 8 != 0 {
        return Err(Fault::Throw(-23));
    }
    Ok(p)
}

/// The execution token of a tag's word: the address of its code field.
pub fn token_of<A: Arith>(arith: &A, tag: u8) -> A::Cell
    ensures { result ≡ (A.ops arith.now).region_cell (4144 + 64 * tag) }
{
    arith.region_cell((DICTIONARY + HEADER_SIZE * tag as u32 + CODE) as u64)
}

/// Compiles a cell at HERE, which goes on by 8: throw -8 where it doesn't fit the region, then -23 where HERE isn't
/// aligned. After a fault other than want of memory nothing has changed.
#[tactic(auto, unfolding(mi_model::specs::Parts::compile))]
pub fn compile_cell<A: Arith>(state: &mut State<A>, x: A::Cell) -> Result<(), Fault>
    ensures action { Gives A.GROWS result state.old state.new (leading state.old (outcome_of (A.ops state.old.arith) parts.compile state.old.machine (x ∷ []))) }
    ensures stack { OnOk result (state.new.machine.stack ≡ state.old.machine.stack) }
{
    let p = room(state, 1)?;
    let next = state
        .arith()
        .add(state.fetch_system(DP)?, state.arith().plain(8))?;
    state.put_cell(p, x);
    state.put_system(DP, next);
    Ok(())
}

/// Compiles (LIT) and a cell at HERE, which goes on by 16: throw -8 where both don't fit the region, then -23 where HERE
/// isn't aligned. After a fault other than want of memory nothing has changed.
#[tactic(auto, unfolding(mi_model::specs::Parts::compile_literal))]
pub fn compile_literal<A: Arith>(state: &mut State<A>, x: A::Cell) -> Result<(), Fault>
    ensures action { Gives A.GROWS result state.old state.new (leading state.old (outcome_of (A.ops state.old.arith) parts.compile_literal state.old.machine (x ∷ []))) }
    ensures stack { OnOk result (state.new.machine.stack ≡ state.old.machine.stack) }
{
    let arith = *state.arith();
    let p = room(state, 2)?;
    let next = arith.add(state.fetch_system(DP)?, arith.plain(16))?;
    state.put_cell(p, token_of(&arith, LITERAL));
    state.put_cell(p + 8, x);
    state.put_system(DP, next);
    Ok(())
}

/// Compiles (LIT), a cell and the token of a tag at HERE, which goes on by 24: throw -8 where all of it doesn't fit the
/// region, then -23 where HERE isn't aligned. After a fault other than want of memory nothing has changed.
#[tactic(auto, unfolding(mi_model::specs::Parts::compile_literal_and))]
pub fn compile_literal_and<A: Arith>(state: &mut State<A>, x: A::Cell, tag: u8) -> Result<(), Fault>
    ensures action { Gives A.GROWS result state.old state.new (leading state.old (outcome_of (A.ops state.old.arith) (parts.compile_literal_and tag) state.old.machine (x ∷ []))) }
    ensures stack { OnOk result (state.new.machine.stack ≡ state.old.machine.stack) }
{
    let arith = *state.arith();
    let p = room(state, 3)?;
    let next = arith.add(state.fetch_system(DP)?, arith.plain(24))?;
    state.put_cell(p, token_of(&arith, LITERAL));
    state.put_cell(p + 8, x);
    state.put_cell(p + 16, token_of(&arith, tag));
    state.put_system(DP, next);
    Ok(())
}
