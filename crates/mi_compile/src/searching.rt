//! The instructions that look names up.

ghost use Rattle.std.specs.Prelude.{◌≡◌, ℕ, ◌+◌, ◌≤◌, List, length, [], ◌∷◌, Ok};
ghost use Rattle.mi_model.specs.Outcome.{outcome_of};
ghost use Rattle.mi_model.specs.Action.{action_by};
ghost use Rattle.mi_model.specs.declared.Effect.TheVariants.{Went};
ghost use Rattle.mi_model.specs.Searching as actions;
ghost use Rattle.mi_region.specs.View.{Gives, keeping, leading};

use crate::defining::DOVAR;
use mi_arith::Arith;
use mi_dict::{find, parse_name};
use mi_model::{Effect, Fault, Span, Word};
use mi_region::State;
use mi_vocab::{CODE, HEADER_SIZE, TO_IN};

/// The tag of the code field of a word that DOES> gave its action.
pub const DODOES: u8 = 6;

/// The word of a name: throw -16 for an empty name, and -13 where it isn't found.
#[tactic(auto, unfolding(mi_model::specs::Searching::named_word))]
pub fn named_word<A: Arith>(state: &State<A>, name: Span) -> Result<Word, Fault>
    requires { name.place + name.length ≤ length state.now.machine.bytes }
    ensures { keeping state.now.machine result ≡ outcome_of (A.ops state.now.arith) (actions.named_word name) state.now.machine [] }
{
    if name.length == 0 {
        return Err(Fault::Throw(-16));
    }
    match find(state, name)? {
        Some(word) => Ok(word),
        None => Err(Fault::Throw(-13)),
    }
}

/// ' ( -- xt )
pub fn tick<A: Arith>(state: &mut State<A>) -> Result<Effect, Fault>
    ensures { Gives A.GROWS result state.old state.new (leading state.old (outcome_of (A.ops state.old.arith) actions.do_tick state.old.machine [])) }
{
    state.tests(0, 1, 0, 0)?;
    let before = state.system_bytes(TO_IN);
    let name = parse_name(state)?;
    match named_word(state, name) {
        Ok(word) => {
            let token = state.arith().region_cell(word.token as u64);
            state.put(token);
            Ok(Effect::Went)
        }
        Err(fault) => {
            state.put_back(TO_IN, before)?;
            Err(fault)
        }
    }
}

/// Puts what a lookup found on the data stack: 0 for no word; else its token, and 1 if it is immediate, -1 if not.
fn put_found<A: Arith>(state: &mut State<A>, found: Option<Word>)
    requires { length state.old.machine.stack + 2 ≤ 4096 }
    ensures { (names : List A.Cell) → leading state.old (outcome_of (A.ops state.old.arith) (action_by (actions.push_found found)) state.old.machine names) ≡ Ok (Went, state.new) }
{
    let arith = *state.arith();
    match found {
        None => state.put(arith.plain(0)),
        Some(word) => {
            state.put(arith.region_cell(word.token as u64));
            state.put(arith.plain(if word.immediate { 1 } else { u64::MAX }));
        }
    }
}

/// (FIND) ( a u -- 0 | xt 1 | xt -1 ): the word of a name in the search order, letters folded and hidden words skipped: 0
/// where there is none; else its token, and 1 if it is immediate, -1 if not.
///
/// Throws -4 where the two items aren't there, -9 where the name doesn't lie in the region, -49 where the search order has
/// more than 16 wordlists, -9 or -23 where a wordlist or a header has no cell of the region, and -9 where a wordlist goes on
/// for more headers than fit the region. After a fault nothing has changed.
pub fn paren_find<A: Arith>(state: &mut State<A>) -> Result<Effect, Fault>
    ensures { Gives A.GROWS result state.old state.new (leading state.old (outcome_of (A.ops state.old.arith) actions.do_paren_find state.old.machine [])) }
{
    state.tests(2, 2, 0, 0)?;
    let count = state.arith().number(state.item(0))?;
    let place = state.range(state.item(1), count)?;
    let _ = state.size();
    let length = count as u32;
    let found = find(state, Span { place, length })?;
    state.cut(2);
    put_found(state, found);
    Ok(Effect::Went)
}

/// SEARCH-WORDLIST ( a u wid -- 0 | xt 1 | xt -1 ): the word of a name in a wordlist, letters folded and hidden words
/// skipped: 0 where there is none; else its token, and 1 if it is immediate, -1 if not.
///
/// Throws -4 where the three items aren't there, -9 where the name doesn't lie in the region, -9 or -23 where the wordlist or
/// a header has no cell of the region, and -9 where the wordlist goes on for more headers than fit the region. After a fault
/// nothing has changed.
pub fn search_wordlist<A: Arith>(state: &mut State<A>) -> Result<Effect, Fault>
    ensures { Gives A.GROWS result state.old state.new (leading state.old (outcome_of (A.ops state.old.arith) actions.do_search_wordlist state.old.machine [])) }
{
    state.tests(3, 2, 0, 0)?;
    let list = state.item(0);
    let count = state.arith().number(state.item(1))?;
    let place = state.range(state.item(2), count)?;
    let _ = state.size();
    let length = count as u32;
    let found = mi_dict::search_wordlist(state, list, Span { place, length })?;
    state.cut(3);
    put_found(state, found);
    Ok(Effect::Went)
}

/// Whether the tag of a code field, if it has one, is that of a word that CREATE made, with or without DOES>.
pub fn is_created(found: Option<u8>) -> bool
    ensures { result ≡ actions.is_created found }
{
    matches!(found, Some(DOVAR | DODOES))
}

/// >BODY ( xt -- a ): the address of the body of a word that CREATE made, with or without DOES>.
///
/// Throws -4 for an empty stack, -9 where the token has no cell of the region, -23 where that cell isn't aligned, -31 for a
/// word that CREATE didn't make. After a fault nothing has changed.
pub fn to_body<A: Arith>(state: &mut State<A>) -> Result<Effect, Fault>
    ensures { Gives A.GROWS result state.old state.new (leading state.old (outcome_of (A.ops state.old.arith) actions.do_to_body state.old.machine [])) }
{
    state.tests(1, 1, 0, 0)?;
    let arith = *state.arith();
    let token = state.item(0);
    if !is_created(arith.tag(state.fetch(token)?)?) {
        return Err(Fault::Throw(-31));
    }
    let body = arith.add(token, arith.plain((HEADER_SIZE - CODE) as u64))?;
    state.cut(1);
    state.put(body);
    Ok(Effect::Went)
}
