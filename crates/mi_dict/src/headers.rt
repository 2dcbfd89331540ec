//! The laying of headers.

ghost use Rattle.std.specs.Prelude.{◌≡◌, ℕ, ◌≤◌, ◌+◌, length, [], ◌∷◌, OnOk, IfOk, IfErr, IsTrue};
ghost use Rattle.mi_model.specs.Outcome.{outcome_of};
ghost use Rattle.mi_model.specs.Headers as actions;
ghost use Rattle.mi_region.specs.View.{Gives, keeping, leading};

use crate::space::here;
use mi_arith::Arith;
use mi_model::{Fault, HeaderPlace, Span};
use mi_region::State;
use mi_vocab::{
    BODY, CODE, CURRENT, DP, FLAGS, HEADER_SIZE, HIDDEN, LATEST, NAME, NAME_LIMIT, SECOND,
};

/// The mask of the bits that the address of a cell may have.
const CELL_MASK: u64 = u64::MAX - 7;

/// Where the header of a name goes, with a body of so many bytes behind it. Throws as `lay_header`.
#[tactic(auto, unfolding(mi_model::specs::Headers::header_place))]
pub fn header_place<A: Arith>(state: &State<A>, name: Span, body: u32) -> Result<HeaderPlace, Fault>
    ensures action { keeping state.now.machine result ≡ outcome_of (A.ops state.now.arith) (actions.header_place name body) state.now.machine [] }
    ensures fits { IfOk result (λ place. (place.header + (64 + body) ≤ length state.now.machine.bytes) × (place.list + 8 ≤ length state.now.machine.bytes) × (name.length ≤ 31)) }
{
    if name.length == 0 {
        return Err(Fault::Throw(-16));
    }
    if name.length > NAME_LIMIT {
        return Err(Fault::Throw(-19));
    }
    let arith = *state.arith();
    here(state)?;
    let behind = arith.add(state.fetch_system(DP)?, arith.plain(7))?;
    let header = state.offset_of(arith.and(behind, arith.plain(CELL_MASK))?)?;
    if header as u64 + (HEADER_SIZE as u64 + body as u64) > state.size() as u64 {
        return Err(Fault::Throw(-8));
    }
    let list = state.cell_offset(state.fetch_system(CURRENT)?)?;
    Ok(HeaderPlace { header, list })
}

/// Lays the header of a name, with the code of a tag and these flags.
fn write_header_with<A: Arith>(
    state: &mut State<A>,
    tag: u8,
    flags: u64,
    name: Span,
    place: HeaderPlace,
) -> Result<(), Fault>
    requires source { name.place + name.length ≤ length state.old.machine.bytes }
    requires short { name.length ≤ 31 }
    requires header { place.header + 64 ≤ length state.old.machine.bytes }
    requires list { place.list + 8 ≤ length state.old.machine.bytes }
    ensures action { Gives A.GROWS result state.old state.new (leading state.old (outcome_of (A.ops state.old.arith) (actions.write_header_with tag flags name place) state.old.machine [])) }
    ensures arith { OnOk result (state.new.arith ≡ state.old.arith) }
    ensures length { OnOk result (length state.new.machine.bytes ≡ length state.old.machine.bytes) }
    ensures stack { OnOk result (state.new.machine.stack ≡ state.old.machine.stack) }
{
    let arith = *state.arith();
    let _ = state.size();
    let HeaderPlace { header, list } = place;
    let link = state.fetch_at(list)?;
    state.copy_within(name.place, header + NAME, name.length);
    state.put_cell(header, link);
    state.put_cell(header + FLAGS, arith.plain(flags));
    state.clear(header + NAME + name.length, NAME_LIMIT + 1 - name.length);
    state.put_cell(header + CODE, arith.code_cell(tag));
    state.put_cell(header + SECOND, arith.plain(0));
    let address = arith.region_cell(header as u64);
    state.put_cell(list, address);
    state.put_system(LATEST, address);
    state.put_system(DP, arith.region_cell((header + HEADER_SIZE) as u64));
    Ok(())
}

/// Lays the header of a name, with the code of a tag.
#[tactic(auto, unfolding(mi_model::specs::Headers::write_header))]
fn write_header<A: Arith>(
    state: &mut State<A>,
    tag: u8,
    name: Span,
    place: HeaderPlace,
) -> Result<(), Fault>
    requires source { name.place + name.length ≤ length state.old.machine.bytes }
    requires short { name.length ≤ 31 }
    requires header { place.header + 64 ≤ length state.old.machine.bytes }
    requires list { place.list + 8 ≤ length state.old.machine.bytes }
    ensures action { Gives A.GROWS result state.old state.new (leading state.old (outcome_of (A.ops state.old.arith) (actions.write_header tag name place) state.old.machine [])) }
    ensures arith { OnOk result (state.new.arith ≡ state.old.arith) }
    ensures length { OnOk result (length state.new.machine.bytes ≡ length state.old.machine.bytes) }
    ensures stack { OnOk result (state.new.machine.stack ≡ state.old.machine.stack) }
{
    write_header_with(state, tag, name.length as u64, name, place)
}

/// Lays the header of a name, with the code of a tag, that no lookup finds: it is hidden. It becomes the head of its
/// wordlist and LATEST, and DP goes behind it. It fails only for want of memory in an arithmetic that takes some, and as
/// the link of the wordlist can't be read.
#[tactic(auto, unfolding(mi_model::specs::Headers::write_hidden_header))]
pub fn write_hidden_header<A: Arith>(
    state: &mut State<A>,
    tag: u8,
    name: Span,
    place: HeaderPlace,
) -> Result<(), Fault>
    requires source { name.place + name.length ≤ length state.old.machine.bytes }
    requires short { name.length ≤ 31 }
    requires header { place.header + 64 ≤ length state.old.machine.bytes }
    requires list { place.list + 8 ≤ length state.old.machine.bytes }
    ensures action { Gives A.GROWS result state.old state.new (leading state.old (outcome_of (A.ops state.old.arith) (actions.write_hidden_header tag name place) state.old.machine [])) }
    ensures arith { OnOk result (state.new.arith ≡ state.old.arith) }
    ensures length { OnOk result (length state.new.machine.bytes ≡ length state.old.machine.bytes) }
    ensures stack { OnOk result (state.new.machine.stack ≡ state.old.machine.stack) }
{
    write_header_with(state, tag, name.length as u64 + HIDDEN, name, place)
}

/// Where a header without a name goes: at HERE, rounded up to a cell. Throw -9 where HERE has left the dictionary or
/// leaves the region when it is rounded up, -8 where the header doesn't fit the region.
#[tactic(auto, unfolding(mi_model::specs::Headers::nameless_place))]
pub fn nameless_place<A: Arith>(state: &State<A>) -> Result<u32, Fault>
    ensures action { keeping state.now.machine result ≡ outcome_of (A.ops state.now.arith) actions.nameless_place state.now.machine [] }
    ensures room { IfOk result (λ q. q + 64 ≤ length state.now.machine.bytes) }
{
    let arith = *state.arith();
    here(state)?;
    let behind = arith.add(state.fetch_system(DP)?, arith.plain(7))?;
    let header = state.offset_of(arith.and(behind, arith.plain(CELL_MASK))?)?;
    if header as u64 + HEADER_SIZE as u64 > state.size() as u64 {
        return Err(Fault::Throw(-8));
    }
    Ok(header)
}

/// Lays a header without a name, with the code of a tag; it is in no wordlist. It becomes LATEST, and DP goes behind it.
/// It fails only for want of memory in an arithmetic that takes some.
#[tactic(auto, unfolding(mi_model::specs::Headers::write_nameless_header))]
pub fn write_nameless_header<A: Arith>(
    state: &mut State<A>,
    tag: u8,
    header: u32,
) -> Result<(), Fault>
    requires { header + 64 ≤ length state.old.machine.bytes }
    ensures action { Gives A.GROWS result state.old state.new (leading state.old (outcome_of (A.ops state.old.arith) (actions.write_nameless_header tag header) state.old.machine [])) }
    ensures arith { OnOk result (state.new.arith ≡ state.old.arith) }
    ensures length { OnOk result (length state.new.machine.bytes ≡ length state.old.machine.bytes) }
    ensures stack { OnOk result (state.new.machine.stack ≡ state.old.machine.stack) }
    ensures memory { IfErr result (λ e. (e ≡ Fault.NoMemory) × IsTrue A.GROWS) }
{
    let arith = *state.arith();
    let _ = state.size();
    let zero = arith.plain(0);
    state.put_cell(header, zero);
    state.put_cell(header + FLAGS, zero);
    state.clear(header + NAME, NAME_LIMIT + 1);
    state.put_cell(header + CODE, arith.code_cell(tag));
    state.put_cell(header + SECOND, zero);
    let behind = header + HEADER_SIZE;
    state.put_system(LATEST, arith.region_cell(header as u64));
    state.put_system(DP, arith.region_cell(behind as u64));
    Ok(())
}

/// Lays the header of a name of the region at DP, rounded up to a cell, with the code of a tag and the second cell 0.
/// It becomes the head of CURRENT's wordlist and LATEST, and DP goes behind it. Behind it there is room for a body of
/// so many bytes, which stay as they are.
///
/// Throws, in this order: -16 for an empty name, -19 for one of more than 31 bytes, -9 where HERE has left the
/// dictionary or leaves the region when it is rounded up, -8 where the header and the body don't fit the region, -9
/// where CURRENT has no cell of the region, -23 where that cell isn't aligned. After a fault other than want of memory
/// nothing has changed.
#[tactic(auto, unfolding(mi_model::specs::Headers::lay_header))]
pub fn lay_header<A: Arith>(
    state: &mut State<A>,
    tag: u8,
    name: Span,
    body: u32,
) -> Result<(), Fault>
    requires { name.place + name.length ≤ length state.old.machine.bytes }
    ensures action { Gives A.GROWS result state.old state.new (leading state.old (outcome_of (A.ops state.old.arith) (actions.lay_header tag name body) state.old.machine [])) }
    ensures stack { OnOk result (state.new.machine.stack ≡ state.old.machine.stack) }
{
    let place = header_place(state, name, body)?;
    write_header(state, tag, name, place)
}

/// Lays a header as `lay_header` does, and a cell behind it; DP goes behind that cell. Throws as `lay_header` with a
/// body of 8 bytes.
#[tactic(auto, unfolding(mi_model::specs::Headers::lay_header_with_cell))]
pub fn lay_header_with_cell<A: Arith>(
    state: &mut State<A>,
    tag: u8,
    name: Span,
    x: A::Cell,
) -> Result<(), Fault>
    requires { name.place + name.length ≤ length state.old.machine.bytes }
    ensures action { Gives A.GROWS result state.old state.new (leading state.old (outcome_of (A.ops state.old.arith) (actions.lay_header_with_cell tag name) state.old.machine (x ∷ []))) }
    ensures stack { OnOk result (state.new.machine.stack ≡ state.old.machine.stack) }
{
    let arith = *state.arith();
    let _ = state.size();
    let place = header_place(state, name, 8)?;
    write_header(state, tag, name, place)?;
    let body = place.header + BODY;
    state.put_cell(body, x);
    state.put_system(DP, arith.region_cell((body + 8) as u64));
    Ok(())
}
