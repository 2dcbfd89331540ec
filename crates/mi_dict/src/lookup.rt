//! The lookup of a name in a wordlist and in the search order.

ghost use Rattle.std.specs.Prelude.{◌≡◌, ℕ, ◌+◌, ◌*◌, ◌/◌, ◌≤◌, ◌<◌, length, [], ◌∷◌, Ok, IfSome};
ghost use Rattle.mi_model.specs.Outcome.{outcome_of};
ghost use Rattle.mi_model.specs.Action.{Action};
ghost use Rattle.mi_model.specs.Action.AnswerKind.{Lookups};
ghost use Rattle.mi_model.specs.Ops.Two.{And};
ghost use Rattle.mi_model.specs.Ops.Test.{Equal};
ghost use Rattle.mi_model.specs.Lookup as actions;
ghost use Rattle.mi_model.specs.Lookup.SoughtName.{InRegion, Given};
ghost use Rattle.mi_region.specs.View.{keeping};
ghost use Rattle.mi_dict.specs.Sought.{sought_of, LiesWithin};

use mi_arith::Arith;
use mi_model::{Fault, Span, Word};
use mi_region::State;
use mi_vocab::folded;

/// A name that is looked up: in the region, or a text from outside.
#[derive(Clone, Copy)]
pub enum Name<'a> {
    Placed(Span),
    Text(&'a [u8]),
}

/// How many bytes the name has.
fn length_of(name: Name<'_>) -> u64
    ensures { result ≡ actions.sought_length (sought_of name.entry) }
{
    match name {
        Name::Placed(span) => span.length as u64,
        Name::Text(text) => text.len() as u64,
    }
}

/// A byte of the name.
#[tactic(auto, unfolding(mi_model::specs::Lookup::sought_byte))]
fn byte_of<A: Arith>(state: &State<A>, name: Name<'_>, i: u64) -> Result<u8, Fault>
    requires within { LiesWithin name (length state.now.machine.bytes) }
    requires index { i < actions.sought_length (sought_of name) }
    ensures { keeping state.now.machine result ≡ outcome_of (A.ops state.now.arith) (actions.sought_byte (sought_of name.entry) i) state.now.machine [] }
{
    let _ = state.size();
    match name {
        Name::Placed(span) => state.fetch_byte_at(span.place + i as u32),
        Name::Text(text) => Ok(text[i as usize]),
    }
}

/// Whether the header's name is the name that is looked up, letters folded.
#[tactic(auto, using(crate::proofs::Walks::same_text_next))]
fn same_text<A: Arith>(
    state: &State<A>,
    header: A::Cell,
    name: Name<'_>,
    count: u64,
) -> Result<bool, Fault>
    requires within { LiesWithin name (length state.now.machine.bytes) }
    requires count { count ≡ actions.sought_length (sought_of name) }
    ensures { keeping state.now.machine result ≡ outcome_of (A.ops state.now.arith) (actions.same_text (sought_of name.entry) count 0) state.now.machine (header ∷ []) }
{
    let mut i = 0;
    'bytes: while i < count {
        let at = state.arith().add(header, state.arith().plain(16 + i))?;
        let c = state.fetch_byte(at)?;
        let d = byte_of(state, name, i)?;
        let differs = folded(c) != folded(d);
        if differs {
            return Ok(false);
        }
        i += 1;
    }
    Ok(true)
}

/// Whether the header is visible and has this name.
#[tactic(auto, unfolding(mi_model::specs::Lookup::is_named))]
fn is_named<A: Arith>(
    state: &State<A>,
    header: A::Cell,
    flags: A::Cell,
    name: Name<'_>,
) -> Result<bool, Fault>
    requires { LiesWithin name (length state.now.machine.bytes) }
    ensures { keeping state.now.machine result ≡ outcome_of (A.ops state.now.arith) (actions.is_named (sought_of name.entry)) state.now.machine (header ∷ (flags ∷ [])) }
{
    let arith = *state.arith();
    if !arith.equal(arith.and(flags, arith.plain(1024))?, arith.plain(0))? {
        return Ok(false);
    }
    let count = length_of(name);
    if !arith.equal(arith.and(flags, arith.plain(31))?, arith.plain(count))? {
        return Ok(false);
    }
    same_text(state, header, name, count)
}

/// The word of a header.
#[tactic(auto, unfolding(mi_model::specs::Lookup::word_of_header))]
fn word_of_header<A: Arith>(
    state: &State<A>,
    header: A::Cell,
    flags: A::Cell,
) -> Result<Word, Fault>
    ensures { keeping state.now.machine result ≡ outcome_of (A.ops state.now.arith) actions.word_of_header state.now.machine (header ∷ (flags ∷ [])) }
{
    let arith = *state.arith();
    let token = state.offset_of(arith.add(header, arith.plain(48))?)?;
    let slow = arith.equal(arith.and(flags, arith.plain(256))?, arith.plain(0))?;
    let free = arith.equal(arith.and(flags, arith.plain(512))?, arith.plain(0))?;
    Ok(Word {
        token,
        immediate: !slow,
        compile_only: !free,
    })
}

/// Whether an operation answers that two cells are equal; None where it is refused.
fn are_equal<A: Arith>(arith: &A, x: A::Cell, y: A::Cell) -> Option<bool>
    ensures { IfSome result (λ b. (A.ops arith.now).test Equal x y ≡ Ok b) }
{
    match arith.equal(x, y) {
        Ok(same) => Some(same),
        Err(_) => None,
    }
}

/// Whether these bits of a cell are a number; None where an operation is refused.
fn bits_are<A: Arith>(arith: &A, x: A::Cell, bits: u64, value: u64) -> Option<bool>
    ensures { IfSome result (λ b. (z : A.Cell) × ((A.ops arith.now).two And x ((A.ops arith.now).plain bits) ≡ Ok z) × ((A.ops arith.now).test Equal z ((A.ops arith.now).plain value) ≡ Ok b)) }
{
    match arith.and(x, arith.plain(bits)) {
        Ok(z) => are_equal(arith, z, arith.plain(value)),
        Err(_) => None,
    }
}

/// The header behind this one in the wordlist, where that is all that a visit of this one comes to: its name is hidden or
/// of another length. Most visits are such, and their answers are short this way.
#[tactic(auto, unfolding(mi_model::specs::Lookup::is_named))]
fn passed_by<A: Arith>(state: &State<A>, header: A::Cell, name: Name<'_>) -> Option<A::Cell>
    ensures { IfSome result (λ next. (rest : Action Lookups) → outcome_of (A.ops state.now.arith) (actions.visit (sought_of name.entry) rest) state.now.machine (header ∷ [])
        ≡ outcome_of (A.ops state.now.arith) rest state.now.machine (next ∷ [])) }
{
    let arith = *state.arith();
    if are_equal(&arith, header, arith.plain(0))? {
        return None;
    }
    let Ok(at) = arith.add(header, arith.plain(8)) else {
        return None;
    };
    let flags = state.peek(at)?;
    if bits_are(&arith, flags, 1024, 0)? && bits_are(&arith, flags, 31, length_of(name))? {
        return None;
    }
    state.peek(header)
}

/// The first word of that name from a header on.
#[tactic(auto, using(crate::proofs::Walks::find_next))]
fn find_from<A: Arith>(
    state: &State<A>,
    head: A::Cell,
    name: Name<'_>,
) -> Result<Option<Word>, Fault>
    requires { LiesWithin name (length state.now.machine.bytes) }
    ensures { keeping state.now.machine result ≡ outcome_of (A.ops state.now.arith) (actions.find_from (length state.now.machine.bytes / 64) (sought_of name.entry)) state.now.machine (head ∷ []) }
{
    let arith = *state.arith();
    let mut header = head;
    let mut left = state.size() / 64;
    'headers: while left > 0 {
        left -= 1;
        if let Some(next) = passed_by(state, header, name) {
            header = next;
            continue;
        }
        let ended = arith.equal(header, arith.plain(0))?;
        if ended {
            return Ok(None);
        }
        let at = arith.add(header, arith.plain(8))?;
        let flags = state.fetch(at)?;
        let named = is_named(state, header, flags, name)?;
        if named {
            let word = word_of_header(state, header, flags)?;
            return Ok(Some(word));
        }
        let link = state.fetch(header)?;
        header = link;
    }
    if arith.equal(header, arith.plain(0))? {
        return Ok(None);
    }
    Err(Fault::Throw(-9))
}

/// The first word of that name in a wordlist.
#[tactic(auto, unfolding(mi_model::specs::Lookup::find_in_list))]
fn find_in_list<A: Arith>(
    state: &State<A>,
    list: A::Cell,
    name: Name<'_>,
) -> Result<Option<Word>, Fault>
    requires { LiesWithin name (length state.now.machine.bytes) }
    ensures { keeping state.now.machine result ≡ outcome_of (A.ops state.now.arith) (actions.find_in_list (sought_of name.entry)) state.now.machine (list ∷ []) }
{
    let head = state.fetch(list)?;
    find_from(state, head, name)
}

/// The first word of that name in so many wordlists of the search order.
#[tactic(auto, using(crate::proofs::Walks::find_in_order_next))]
fn find_in_order<A: Arith>(
    state: &State<A>,
    count: u32,
    name: Name<'_>,
) -> Result<Option<Word>, Fault>
    requires most { count ≤ 16 }
    requires within { LiesWithin name (length state.now.machine.bytes) }
    ensures { keeping state.now.machine result ≡ outcome_of (A.ops state.now.arith) (actions.find_in_order count 0 (sought_of name.entry)) state.now.machine [] }
{
    let mut i = 0;
    'lists: while i < count {
        let list = state.fetch_system(112 + 8 * i)?;
        let found = find_in_list(state, list, name)?;
        if let Some(word) = found {
            return Ok(Some(word));
        }
        i += 1;
    }
    Ok(None)
}

/// The first word of that name in the search order.
#[tactic(auto, unfolding(mi_model::specs::Lookup::find))]
fn find_name<A: Arith>(state: &State<A>, name: Name<'_>) -> Result<Option<Word>, Fault>
    requires { LiesWithin name (length state.now.machine.bytes) }
    ensures { keeping state.now.machine result ≡ outcome_of (A.ops state.now.arith) (actions.find (sought_of name.entry)) state.now.machine [] }
{
    let count = state.arith().number(state.fetch_system(104)?)?;
    if count > 16 {
        return Err(Fault::Throw(-49));
    }
    find_in_order(state, count as u32, name)
}

/// Looks a name of the region up in the wordlist at an address: the first match, letters folded, the newest word first and
/// hidden words skipped; None where there is none.
///
/// Throws -9 where the wordlist or a header doesn't lie in the region, -23 where one isn't aligned, and -9 where the
/// wordlist goes on for more headers than fit the region.
pub fn search_wordlist<A: Arith>(
    state: &State<A>,
    list: A::Cell,
    name: Span,
) -> Result<Option<Word>, Fault>
    requires { name.place + name.length ≤ length state.now.machine.bytes }
    ensures { keeping state.now.machine result ≡ outcome_of (A.ops state.now.arith) (actions.find_in_list (InRegion name.place name.length)) state.now.machine (list ∷ []) }
{
    find_in_list(state, list, Name::Placed(name))
}

/// Looks a name of the region up in the search order: the first match, letters folded, the newest word of a wordlist
/// first and hidden words skipped; None where there is none.
///
/// Throws -49 where the order has more than 16 wordlists, and -9 at an address outside the region and in a wordlist
/// that goes on too long.
pub fn find<A: Arith>(state: &State<A>, name: Span) -> Result<Option<Word>, Fault>
    requires { name.place + name.length ≤ length state.now.machine.bytes }
    ensures { keeping state.now.machine result ≡ outcome_of (A.ops state.now.arith) (actions.find (InRegion name.place name.length)) state.now.machine [] }
{
    find_name(state, Name::Placed(name))
}

/// Looks a text up in the search order, as `find`.
pub fn find_text<A: Arith>(state: &State<A>, name: &[u8]) -> Result<Option<Word>, Fault>
    ensures { keeping state.now.machine result ≡ outcome_of (A.ops state.now.arith) (actions.find (Given name.now)) state.now.machine [] }
{
    find_name(state, Name::Text(name))
}
