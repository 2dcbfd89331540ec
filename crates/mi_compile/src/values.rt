//! The instructions that change values and deferred words.

ghost use Rattle.std.specs.Prelude.{◌≡◌, ℕ, ◌+◌, ◌≤◌, length, [], ◌∷◌};
ghost use Rattle.mi_model.specs.Outcome.{outcome_of};
ghost use Rattle.mi_model.specs.Values as actions;
ghost use Rattle.mi_compile.specs.Families.{change};
ghost use Rattle.mi_compile.specs.Named.{assign_word};
ghost use Rattle.mi_region.specs.View.{Gives, leading};

use crate::searching::named_word;
use mi_arith::Arith;
use mi_dict::{compile_literal_and, parse_name};
use mi_model::{Effect, Fault, Span};
use mi_region::State;
use mi_vocab::{CODE, HEADER_SIZE, STATE, TO_IN};

/// The tags of the code fields of values and of deferred words.
pub const DOVALUE: u8 = 4;

pub const DODEFER: u8 = 5;

/// The tag of `!`.
const STORE: u8 = 63;

/// Stores the item on top of the stack at an address. Throws -9 where that has no cell of the region, -23 where the cell isn't
/// aligned, then -4 for an empty stack. After a fault other than want of memory nothing has changed.
#[tactic(auto, unfolding(mi_model::specs::Values::store_item))]
fn store_item<A: Arith>(state: &mut State<A>, address: A::Cell) -> Result<(), Fault>
    ensures { Gives A.GROWS result state.old state.new (leading state.old (outcome_of (A.ops state.old.arith) actions.store_item state.old.machine (address ∷ []))) }
{
    let place = state.cell_offset(address)?;
    state.tests(1, 0, 0, 0)?;
    let x = state.item(0);
    state.put_cell(place, x);
    state.cut(1);
    Ok(())
}

/// Gives the word of a name, which has the code of a tag, the item on top of the stack: while interpreting the item is stored
/// in the first cell of its body, while compiling that cell's address and `!` are compiled. Throws as `named_word`, -9 and -23
/// where its code field has no cell of the region, -32 where that holds the code of another tag; then as `store_item` or as
/// `compile_literal_and`. After a fault other than want of memory nothing has changed.
#[tactic(auto, unfolding(crate::specs::Named::assign_word))]
fn assign_word<A: Arith>(state: &mut State<A>, tag: u8, name: Span) -> Result<(), Fault>
    requires { name.place + name.length ≤ length state.old.machine.bytes }
    ensures { Gives A.GROWS result state.old state.new (leading state.old (outcome_of (A.ops state.old.arith) (assign_word tag name) state.old.machine [])) }
{
    let arith = *state.arith();
    let word = named_word(state, name)?;
    let token = arith.region_cell(word.token as u64);
    if arith.tag(state.fetch(token)?)? != Some(tag) {
        return Err(Fault::Throw(-32));
    }
    let target = arith.add(token, arith.plain((HEADER_SIZE - CODE) as u64))?;
    if arith.equal(state.fetch_system(STATE)?, arith.plain(0))? {
        store_item(state, target)
    } else {
        compile_literal_and(state, target, STORE)
    }
}

/// Reads the next name of the source and gives its word, which has the code of a tag, the item on top of the stack. Throws -9
/// where the source doesn't lie in the region, and as `assign_word`. After a fault other than want of memory nothing has
/// changed: the move of >IN is taken back.
#[tactic(auto, unfolding(mi_model::specs::Values::assign))]
fn assign<A: Arith>(state: &mut State<A>, tag: u8) -> Result<(), Fault>
    ensures { Gives A.GROWS result state.old state.new (leading state.old (outcome_of (A.ops state.old.arith) (actions.assign tag) state.old.machine [])) }
{
    let before = state.system_bytes(TO_IN);
    let name = parse_name(state)?;
    match assign_word(state, tag, name) {
        Ok(()) => Ok(()),
        Err(fault) => {
            state.put_back(TO_IN, before)?;
            Err(fault)
        }
    }
}

/// TO and IS ( x -- ) or ( -- ): gives the word of the next name of the source, which has the code of a tag, the item x: a
/// value, or a deferred word, whose item is a token. While compiling, it compiles what does so.
///
/// Throws -9 where the source doesn't lie in the region, -16 where it has no name left, -13 where no word has the name, and
/// else as (FIND); -9 and -23 where the word's code field has no cell of the region, -32 for a word with another code; while
/// interpreting, -9 where its body has no cell in the region, then -4 for an empty stack; while compiling, -9 where HERE has
/// left the dictionary, -8 where three cells don't fit the region, -23 where HERE isn't aligned. After a fault other than want
/// of memory nothing has changed: the move of >IN is taken back.
pub fn change<A: Arith>(state: &mut State<A>, tag: u8) -> Result<Effect, Fault>
    ensures { Gives A.GROWS result state.old state.new (leading state.old (outcome_of (A.ops state.old.arith) (change tag) state.old.machine [])) }
{
    assign(state, tag)?;
    Ok(Effect::Went)
}
