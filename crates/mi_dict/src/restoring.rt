//! What a marker does: the dictionary becomes again what it was before the marker was defined.

ghost use Rattle.std.specs.Prelude.{◌≡◌, ℕ, ◌≤◌, ◌+◌, ◌/◌, length, [], ◌∷◌, Ok, OnOk, IfOk, IfErr, IsTrue};
ghost use Rattle.mi_model.specs.Machine.{Machine};
ghost use Rattle.mi_model.specs.Outcome.{outcome_of};
ghost use Rattle.mi_model.specs.Markers as actions;
ghost use Rattle.mi_region.specs.View.{Gives, keeping, leading};

use mi_arith::Arith;
use mi_model::{Effect, Fault};
use mi_region::State;
use mi_vocab::{CURRENT, DICTIONARY, DP, FORTH_WORDLIST, LATEST, ORDER_COUNT, VOC};

/// How many bytes the search order has with its count.
const ORDER_BYTES: u32 = 136;

/// How many bytes a wordlist has: its head, and the link to an older wordlist.
const WORDLIST_SIZE: u32 = 16;

/// Where the address of the newest wordlist below the old end of the dictionary stands, or 0; throw -9 where more of them
/// than fit the region are newer.
#[tactic(auto, using(crate::proofs::MarkerWalks::old_wordlist_next))]
fn old_wordlist<A: Arith>(state: &State<A>, old: A::Cell) -> Result<u32, Fault>
    ensures action { keeping state.now.machine result ≡ outcome_of (A.ops state.now.arith) (actions.old_wordlist (length state.now.machine.bytes / 8) 256) state.now.machine (old ∷ []) }
    ensures in_range { IfOk result (λ o. o + 8 ≤ length state.now.machine.bytes) }
{
    let arith = *state.arith();
    let mut place = VOC;
    let mut left = state.size() / 8;
    'lists: while left > 0 {
        left -= 1;
        let list = state.fetch_at(place)?;
        let is_old = arith.below(list, old)?;
        if is_old {
            return Ok(place);
        }
        let link = arith.add(list, arith.plain(8))?;
        let next = state.cell_offset(link)?;
        place = next;
    }
    if arith.below(state.fetch_at(place)?, old)? {
        return Ok(place);
    }
    Err(Fault::Throw(-9))
}

/// Where 0 or the address of the first header below the old end stands, from the header on whose address stands at an
/// offset; throw -9 where there are more headers than fit the region.
#[tactic(auto, using(crate::proofs::MarkerWalks::old_header_next))]
fn old_header<A: Arith>(state: &State<A>, old: A::Cell, head: u32) -> Result<u32, Fault>
    requires { head + 8 ≤ length state.now.machine.bytes }
    ensures action { keeping state.now.machine result ≡ outcome_of (A.ops state.now.arith) (actions.old_header (length state.now.machine.bytes / 64) head) state.now.machine (old ∷ []) }
    ensures in_range { IfOk result (λ o. o + 8 ≤ length state.now.machine.bytes) }
{
    let arith = *state.arith();
    let mut place = head;
    let mut left = state.size() / 64;
    'headers: while left > 0 {
        left -= 1;
        let header = state.fetch_at(place)?;
        let ended = arith.equal(header, arith.plain(0))?;
        if ended {
            return Ok(place);
        }
        let is_old = arith.below(header, old)?;
        if is_old {
            return Ok(place);
        }
        let next = state.cell_offset(header)?;
        place = next;
    }
    if arith.equal(state.fetch_at(place)?, arith.plain(0))? {
        return Ok(place);
    }
    Err(Fault::Throw(-9))
}

/// Throws -9 unless a link of the wordlist at an offset is 0, or the address of one that ends at or below that offset.
#[tactic(auto, unfolding(mi_model::specs::Markers::check_link))]
fn check_link<A: Arith>(state: &State<A>, o: u32, link: A::Cell) -> Result<(), Fault>
    ensures { keeping state.now.machine result ≡ outcome_of (A.ops state.now.arith) (actions.check_link o) state.now.machine (link ∷ []) }
{
    let arith = *state.arith();
    if arith.equal(link, arith.plain(0))? {
        return Ok(());
    }
    let lower = state.offset_of(link)?;
    if lower as u64 + WORDLIST_SIZE as u64 > o as u64 {
        return Err(Fault::Throw(-9));
    }
    Ok(())
}

/// How many wordlists there are from an address on. All that restoring them reads is there: throw -9 where a wordlist lies
/// below that of FORTH, isn't all below the one before it, or has more headers than fit the region, and where there are
/// more wordlists than fit; -9 and -23 where a cell that is read isn't one of the region.
#[tactic(auto, using(crate::proofs::MarkerWalks::check_wordlists_next))]
fn count_wordlists<A: Arith>(state: &State<A>, old: A::Cell, newest: A::Cell) -> Result<u32, Fault>
    ensures { keeping state.now.machine result ≡ outcome_of (A.ops state.now.arith) (actions.check_wordlists (length state.now.machine.bytes / 64) (length state.now.machine.bytes / 8) 0) state.now.machine (old ∷ (newest ∷ [])) }
{
    let arith = *state.arith();
    let mut list = newest;
    let mut counted = 0;
    let mut left = state.size() / 8;
    'lists: while left > 0 {
        left -= 1;
        let ended = arith.equal(list, arith.plain(0))?;
        if ended {
            return Ok(counted);
        }
        let o = state.offset_of(list)?;
        if o < FORTH_WORDLIST {
            return Err(Fault::Throw(-9));
        }
        let head = state.cell_offset(list)?;
        old_header(state, old, head)?;
        let at = arith.add(list, arith.plain(8))?;
        let link = state.fetch(at)?;
        check_link(state, o, link)?;
        list = link;
        counted += 1;
    }
    if arith.equal(list, arith.plain(0))? {
        return Ok(counted);
    }
    Err(Fault::Throw(-9))
}

/// Makes the head of each of so many wordlists its first header below the old end. They have been counted, so nothing that
/// is read here throws or is refused.
#[tactic(auto, using(crate::proofs::MarkerWalks::restore_wordlists_next))]
fn restore_wordlists<A: Arith>(
    state: &mut State<A>,
    old: A::Cell,
    newest: A::Cell,
    count: u32,
) -> Result<(), Fault>
    requires { (m : Machine A.Cell A.Byte) × (outcome_of (A.ops state.old.arith) (actions.restore_wordlists (length state.old.machine.bytes / 64) count) state.old.machine (old ∷ (newest ∷ [])) ≡ Ok (tt, m)) }
    ensures action { Gives A.GROWS result state.old state.new (leading state.old (outcome_of (A.ops state.old.arith) (actions.restore_wordlists (length state.old.machine.bytes / 64) count) state.old.machine (old ∷ (newest ∷ [])))) }
    ensures memory { IfErr result (λ e. (e ≡ Fault.NoMemory) × IsTrue A.GROWS) }
{
    let arith = *state.arith();
    let mut list = newest;
    let mut left = count;
    'lists: while left > 0 {
        left -= 1;
        let head = state.cell_offset(list)?;
        let place = old_header(state, old, head)?;
        let link = state.fetch(arith.add(list, arith.plain(8))?)?;
        let header = state.fetch_at(place)?;
        state.put_cell(head, header);
        let _ = state.size();
        list = link;
    }
    Ok(())
}

/// (DOMARKER) ( -- ): takes back what was defined from a marker on, whose token is running. The end of the dictionary, LATEST,
/// CURRENT and the search order with its count become again what the marker's body has. The wordlists at or above that end
/// are dropped, and the headers there from those that stay.
///
/// Throws -9 where a cell of the body, a wordlist or a header that is read doesn't lie in the region, where the end lies
/// below the dictionary, where a wordlist that stays lies below that of FORTH or isn't all below the one before it, and
/// where there are more wordlists, or headers in one, than fit the region; -23 where one of them isn't aligned. After a
/// fault other than want of memory nothing has changed.
pub fn restore<A: Arith>(state: &mut State<A>, marker: A::Cell) -> Result<Effect, Fault>
    ensures { Gives A.GROWS result state.old state.new (leading state.old (outcome_of (A.ops state.old.arith) actions.do_domarker state.old.machine (marker ∷ []))) }
{
    let arith = *state.arith();
    let body = arith.add(marker, arith.plain(16))?;
    let old = state.fetch(body)?;
    if state.offset_of(old)? < DICTIONARY {
        return Err(Fault::Throw(-9));
    }
    let newest = state.fetch_at(old_wordlist(state, old)?)?;
    let latest = state.fetch(arith.add(body, arith.plain(8))?)?;
    let current = state.fetch(arith.add(body, arith.plain(16))?)?;
    let order = state.range(arith.add(body, arith.plain(24))?, ORDER_BYTES as u64)?;
    let count = count_wordlists(state, old, newest)?;
    let _ = state.size();
    state.copy_within(order, ORDER_COUNT, ORDER_BYTES);
    restore_wordlists(state, old, newest, count)?;
    state.put_system(VOC, newest);
    state.put_system(DP, old);
    state.put_system(LATEST, latest);
    state.put_system(CURRENT, current);
    Ok(Effect::Went)
}
