//! The instructions that compile definitions. While a definition is open, two items of the stack stand for it: the address
//! of its header, and their kind on top.

ghost use Rattle.std.specs.Prelude.{◌≡◌, ℕ, ◌+◌, ◌≤◌, length, [], ◌∷◌, Ok};
ghost use Rattle.mi_model.specs.Outcome.{outcome_of};
ghost use Rattle.mi_model.specs.Defining as actions;
ghost use Rattle.mi_compile.specs.Families.{flag_newest};
ghost use Rattle.mi_compile.specs.Named.{begin_definition, postpone_word};
ghost use Rattle.mi_region.specs.View.{Gives, leading};

use crate::searching::{DODOES, is_created, named_word};
use mi_arith::Arith;
use mi_dict::{
    compile_cell, compile_literal, compile_literal_and, header_place, nameless_place, parse_name,
    room, token_of, write_hidden_header, write_nameless_header,
};
use mi_model::{Effect, Fault, Span};
use mi_region::State;
use mi_vocab::{CODE, DP, FLAGS, HIDDEN, LATEST, LEAVES, SECOND, STATE, TO_IN};

/// The tag of the code field of a definition.
const DOCOL: u8 = 1;

/// The tags of the words that are compiled: EXIT, `,` and (DOES).
const EXIT: u8 = 8;

const COMMA: u8 = 71;

const PAREN_DOES: u8 = 98;

/// The kind of the items of an open definition.
const COLON_SYS: u64 = 6;

/// The mask of all flags of a header but that of a hidden word.
const VISIBLE: u64 = u64::MAX - HIDDEN;

/// Opens the definition of a header: the text interpreter compiles, no loop is open, and the header and the kind of an open
/// definition are pushed.
#[tactic(auto, unfolding(mi_model::specs::Defining::open_definition))]
fn open_definition<A: Arith>(state: &mut State<A>, header: u32)
    requires { length state.old.machine.stack + 2 ≤ 4096 }
    ensures { leading state.old (outcome_of (A.ops state.old.arith) (actions.open_definition header) state.old.machine []) ≡ Ok (tt, state.new) }
{
    let arith = *state.arith();
    state.put_system(STATE, arith.plain(u64::MAX));
    state.put_system(LEAVES, arith.plain(1));
    state.put(arith.region_cell(header as u64));
    state.put(arith.plain(COLON_SYS));
}

/// Begins the definition of a name of the region: lays its header, hidden, and opens the definition. Throws as `lay_header`
/// with no body. After a fault other than want of memory nothing has changed.
#[tactic(auto, unfolding(crate::specs::Named::begin_definition))]
fn begin_definition<A: Arith>(state: &mut State<A>, name: Span) -> Result<Effect, Fault>
    requires source { name.place + name.length ≤ length state.old.machine.bytes }
    requires stack { length state.old.machine.stack + 2 ≤ 4096 }
    ensures { Gives A.GROWS result state.old state.new (leading state.old (outcome_of (A.ops state.old.arith) (begin_definition name) state.old.machine [])) }
{
    let _ = state.size();
    let place = header_place(state, name, 0)?;
    write_hidden_header(state, DOCOL, name, place)?;
    open_definition(state, place.header);
    Ok(Effect::Went)
}

/// : ( -- h 6 ): begins the definition of the next name of the source, whose header h stays hidden until `;`.
///
/// Throws -3 where the results don't fit the stack, -9 where the source doesn't lie in the region; -16, -19, -9, -8 and -23
/// as `lay_header` with no body. After a fault other than want of memory nothing has changed: the move of >IN is taken back.
pub fn colon<A: Arith>(state: &mut State<A>) -> Result<Effect, Fault>
    ensures { Gives A.GROWS result state.old state.new (leading state.old (outcome_of (A.ops state.old.arith) actions.do_colon state.old.machine [])) }
{
    state.tests(0, 2, 0, 0)?;
    let before = state.system_bytes(TO_IN);
    let name = parse_name(state)?;
    match begin_definition(state, name) {
        Ok(effect) => Ok(effect),
        Err(fault) => {
            state.put_back(TO_IN, before)?;
            Err(fault)
        }
    }
}

/// :NONAME ( -- xt h 6 ): begins a definition without a name, whose header h is in no wordlist.
///
/// Throws -3 where the results don't fit the stack, -9 where HERE has left the dictionary or leaves the region when it is
/// rounded up, -8 where the header doesn't fit the region. After a fault other than want of memory nothing has changed.
pub fn colon_noname<A: Arith>(state: &mut State<A>) -> Result<Effect, Fault>
    ensures { Gives A.GROWS result state.old state.new (leading state.old (outcome_of (A.ops state.old.arith) actions.do_colon_noname state.old.machine [])) }
{
    state.tests(0, 3, 0, 0)?;
    let _ = state.size();
    let header = nameless_place(state)?;
    write_nameless_header(state, DOCOL, header)?;
    let token = state.arith().region_cell((header + CODE) as u64);
    state.put(token);
    open_definition(state, header);
    Ok(Effect::Went)
}

/// ; ( h 6 -- ): compiles EXIT, makes the header h visible and ends compiling.
///
/// Throws -4 where the two items aren't there, -22 where the kind is another, -9 where HERE has left the dictionary, -8 where
/// a cell doesn't fit the region, -23 where HERE isn't aligned, -9 and -23 where the header has no flags in the region. After
/// a fault other than want of memory nothing has changed.
pub fn semicolon<A: Arith>(state: &mut State<A>) -> Result<Effect, Fault>
    ensures { Gives A.GROWS result state.old state.new (leading state.old (outcome_of (A.ops state.old.arith) actions.do_semicolon state.old.machine [])) }
{
    state.tests(2, 0, 0, 0)?;
    let arith = *state.arith();
    let header = state.item(1);
    if !arith.equal(state.item(0), arith.plain(COLON_SYS))? {
        return Err(Fault::Throw(-22));
    }
    let p = room(state, 1)?;
    let place = state.cell_offset(arith.add(header, arith.plain(FLAGS as u64))?)?;
    let flags = arith.and(state.fetch_at(place)?, arith.plain(VISIBLE))?;
    let next = arith.add(state.fetch_system(DP)?, arith.plain(8))?;
    state.put_cell(p, token_of(&arith, EXIT));
    state.put_system(DP, next);
    state.put_cell(place, flags);
    state.put_system(STATE, arith.plain(0));
    state.cut(2);
    Ok(Effect::Went)
}

/// IMMEDIATE and COMPILE-ONLY ( -- ): sets a flag of the newest header.
///
/// Throws -9 where its flags have no cell of the region, -23 where that cell isn't aligned. After a fault other than want of
/// memory nothing has changed.
#[tactic(auto, unfolding(mi_model::specs::Defining::set_flag))]
pub fn set_flag<A: Arith>(state: &mut State<A>, flag: u64) -> Result<Effect, Fault>
    ensures { Gives A.GROWS result state.old state.new (leading state.old (outcome_of (A.ops state.old.arith) (flag_newest flag) state.old.machine [])) }
{
    let arith = *state.arith();
    let latest = state.fetch_system(LATEST)?;
    let place = state.cell_offset(arith.add(latest, arith.plain(FLAGS as u64))?)?;
    let flags = arith.or(state.fetch_at(place)?, arith.plain(flag))?;
    state.put_cell(place, flags);
    Ok(Effect::Went)
}

/// RECURSE ( -- ): compiles the token of the newest word, which in a definition is that one.
///
/// Throws -9 where HERE has left the dictionary, -8 where the cell doesn't fit the region, -23 where HERE isn't aligned. After
/// a fault other than want of memory nothing has changed.
pub fn recurse<A: Arith>(state: &mut State<A>) -> Result<Effect, Fault>
    ensures { Gives A.GROWS result state.old state.new (leading state.old (outcome_of (A.ops state.old.arith) actions.do_recurse state.old.machine [])) }
{
    let arith = *state.arith();
    let p = room(state, 1)?;
    let token = arith.add(state.fetch_system(LATEST)?, arith.plain(CODE as u64))?;
    let next = arith.add(state.fetch_system(DP)?, arith.plain(8))?;
    state.put_cell(p, token);
    state.put_system(DP, next);
    Ok(Effect::Went)
}

/// LITERAL ( x -- ): compiles what pushes x: (LIT) and x.
///
/// Throws -4 for an empty stack, -9 where HERE has left the dictionary, -8 where the two cells don't fit the region, -23 where
/// HERE isn't aligned. After a fault other than want of memory nothing has changed.
pub fn literal<A: Arith>(state: &mut State<A>) -> Result<Effect, Fault>
    ensures { Gives A.GROWS result state.old state.new (leading state.old (outcome_of (A.ops state.old.arith) actions.do_literal state.old.machine [])) }
{
    state.tests(1, 0, 0, 0)?;
    let x = state.item(0);
    compile_literal(state, x)?;
    state.cut(1);
    Ok(Effect::Went)
}

/// Compiles the word of a name, if it is immediate, and else what compiles it: (LIT), its token, and the token of `,`. Throws
/// as `named_word` and then as `compile_cell`. After a fault other than want of memory nothing has changed.
#[tactic(auto, unfolding(crate::specs::Named::postpone_word))]
fn postpone_word<A: Arith>(state: &mut State<A>, name: Span) -> Result<Effect, Fault>
    requires { name.place + name.length ≤ length state.old.machine.bytes }
    ensures { Gives A.GROWS result state.old state.new (leading state.old (outcome_of (A.ops state.old.arith) (postpone_word name) state.old.machine [])) }
{
    let word = named_word(state, name)?;
    let token = state.arith().region_cell(word.token as u64);
    if word.immediate {
        compile_cell(state, token)?;
    } else {
        compile_literal_and(state, token, COMMA)?;
    }
    Ok(Effect::Went)
}

/// POSTPONE ( -- ): compiles the word of the next name of the source, if it is immediate, and else what compiles it.
///
/// Throws -9 where the source doesn't lie in the region, -16 where it has no name left, -13 where no word has the name, and
/// else as (FIND); then -9 where HERE has left the dictionary, -8 where the cells don't fit the region, -23 where HERE isn't
/// aligned. After a fault other than want of memory nothing has changed: the move of >IN is taken back.
pub fn postpone<A: Arith>(state: &mut State<A>) -> Result<Effect, Fault>
    ensures { Gives A.GROWS result state.old state.new (leading state.old (outcome_of (A.ops state.old.arith) actions.do_postpone state.old.machine [])) }
{
    let before = state.system_bytes(TO_IN);
    let name = parse_name(state)?;
    match postpone_word(state, name) {
        Ok(effect) => Ok(effect),
        Err(fault) => {
            state.put_back(TO_IN, before)?;
            Err(fault)
        }
    }
}

/// DOES> ( -- ): compiles (DOES).
///
/// Throws -9 where HERE has left the dictionary, -8 where the cell doesn't fit the region, -23 where HERE isn't aligned. After
/// a fault other than want of memory nothing has changed.
pub fn does<A: Arith>(state: &mut State<A>) -> Result<Effect, Fault>
    ensures { Gives A.GROWS result state.old state.new (leading state.old (outcome_of (A.ops state.old.arith) actions.do_does state.old.machine [])) }
{
    let token = token_of(state.arith(), PAREN_DOES);
    compile_cell(state, token)?;
    Ok(Effect::Went)
}

/// (DOES) R ( a -- ): gives the newest word, which CREATE made, its action: the code behind the running token. Then the
/// instruction address becomes a.
///
/// Throws -6 for an empty return stack, -9 where the code field of the newest header has no cell of the region, -23 where that
/// cell isn't aligned, -32 for a word that CREATE didn't make, -9 where the second cell doesn't lie in the region. After a
/// fault other than want of memory nothing has changed.
pub fn paren_does<A: Arith>(state: &mut State<A>) -> Result<Effect, Fault>
    ensures { (token : A.Cell) → Gives A.GROWS result state.old state.new (leading state.old (outcome_of (A.ops state.old.arith) actions.do_paren_does state.old.machine (token ∷ []))) }
{
    state.tests(0, 0, 1, 0)?;
    let arith = *state.arith();
    let (back, ip) = (state.ritem(0), state.ip());
    let header = state.fetch_system(LATEST)?;
    let code = state.cell_offset(arith.add(header, arith.plain(CODE as u64))?)?;
    if !is_created(arith.tag(state.fetch_at(code)?)?) {
        return Err(Fault::Throw(-32));
    }
    let second = state.cell_offset(arith.add(header, arith.plain(SECOND as u64))?)?;
    state.put_cell(code, arith.code_cell(DODOES));
    state.put_cell(second, ip);
    state.set_ip(back);
    state.rcut(1);
    Ok(Effect::Went)
}
