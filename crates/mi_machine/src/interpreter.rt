//! The text interpreter.

ghost use Rattle.std.specs.Prelude.{◌≡◌, ℕ, ◌+◌, ◌≤◌, length, [], ◌∷◌};
ghost use Rattle.mi_model.specs.Outcome.{outcome_of};
ghost use Rattle.mi_model.specs.Interpreter as actions;
ghost use Rattle.mi_model.specs.Parsing.{read_text};
ghost use Rattle.mi_region.specs.View.{Gives, keeping, leading};
ghost use Rattle.mi_machine.specs.Reading.{number_read};

use mi_arith::Arith;
use mi_dict::{compile_cell, compile_literal, find, parse_name};
use mi_model::{Effect, Fault, Span, Wait, Word};
use mi_region::State;
use mi_text::{BadBase, NumberReader};

/// Goes on with the source before the one that has ended.
#[tactic(auto, unfolding(mi_model::specs::Interpreter::resume_source))]
fn resume_source<A: Arith>(state: &mut State<A>) -> Result<(), Fault>
    ensures { Gives A.GROWS result state.old state.new (leading state.old (outcome_of (A.ops state.old.arith) actions.resume_source state.old.machine [])) }
{
    state.tests(0, 0, 5, 0)?;
    let (ip, address) = (state.ritem(4), state.ritem(3));
    let (length, number, in_offset) = (state.ritem(2), state.ritem(1), state.ritem(0));
    state.put_system(24, in_offset);
    state.put_system(48, number);
    state.put_system(40, length);
    state.put_system(32, address);
    state.rcut(5);
    state.set_ip(ip);
    Ok(())
}

/// What happens at the end of the source.
#[tactic(auto, unfolding(mi_model::specs::Interpreter::end_of_source))]
fn end_of_source<A: Arith>(state: &mut State<A>) -> Result<Effect, Fault>
    ensures { Gives A.GROWS result state.old state.new (leading state.old (outcome_of (A.ops state.old.arith) actions.end_of_source state.old.machine [])) }
{
    let arith = *state.arith();
    if arith.equal(state.fetch_system(48)?, arith.plain(0))? {
        state.set_wait(Wait::Line);
        return Ok(Effect::Want);
    }
    resume_source(state)?;
    Ok(Effect::Went)
}

/// Runs a word, or compiles it.
#[tactic(auto, unfolding(mi_model::specs::Interpreter::interpret_word))]
fn interpret_word<A: Arith>(state: &mut State<A>, word: Word) -> Result<Effect, Fault>
    ensures { Gives A.GROWS result state.old state.new (leading state.old (outcome_of (A.ops state.old.arith) (actions.interpret_word word) state.old.machine [])) }
{
    let arith = *state.arith();
    let token = arith.region_cell(word.token as u64);
    if arith.equal(state.fetch_system(16)?, arith.plain(0))? {
        if word.compile_only {
            return Err(Fault::Throw(-14));
        }
        state.set_due(Some(token));
        return Ok(Effect::Went);
    }
    if word.immediate {
        state.set_due(Some(token));
        return Ok(Effect::Went);
    }
    compile_cell(state, token)?;
    Ok(Effect::Went)
}

/// Pushes a number, or compiles it as a literal.
#[tactic(auto, unfolding(mi_model::specs::Interpreter::take_number))]
fn take_number<A: Arith>(state: &mut State<A>, n: u64) -> Result<Effect, Fault>
    ensures { Gives A.GROWS result state.old state.new (leading state.old (outcome_of (A.ops state.old.arith) (actions.take_number n) state.old.machine [])) }
{
    let arith = *state.arith();
    if arith.equal(state.fetch_system(16)?, arith.plain(0))? {
        state.tests(0, 1, 0, 0)?;
        state.put(arith.plain(n));
        return Ok(Effect::Went);
    }
    compile_literal(state, arith.plain(n))?;
    Ok(Effect::Went)
}

/// Reads a name as a number text in a base.
#[tactic(auto, using(crate::proofs::Reading::read_next), unfolding(mi_model::specs::Parsing::read_text))]
fn read_number<A: Arith>(
    state: &State<A>,
    base: u64,
    name: Span,
) -> Result<Result<Option<u64>, BadBase>, Fault>
    requires { name.place + name.length ≤ length state.now.machine.bytes }
    ensures { keeping state.now.machine result ≡ number_read base (outcome_of (A.ops state.now.arith) (read_text name) state.now.machine []) }
{
    let _ = state.size();
    let mut reader = NumberReader::new(base);
    let mut i = 0;
    'bytes: while i < name.length {
        reader.feed(state.fetch_byte_at(name.place + i)?);
        i += 1;
    }
    Ok(reader.end())
}

/// What happens to a name that is no word: throw -24 where BASE is needed and is no base, -13 where the name is no
/// number.
#[tactic(auto, unfolding(mi_model::specs::Interpreter::interpret_text))]
fn interpret_text<A: Arith>(state: &mut State<A>, name: Span) -> Result<Effect, Fault>
    requires { name.place + name.length ≤ length state.old.machine.bytes }
    ensures { Gives A.GROWS result state.old state.new (leading state.old (outcome_of (A.ops state.old.arith) (actions.interpret_text name) state.old.machine [])) }
{
    let base = state.arith().number(state.fetch_system(8)?)?;
    match read_number(state, base, name)? {
        Err(BadBase) => Err(Fault::Throw(-24)),
        Ok(None) => Err(Fault::Throw(-13)),
        Ok(Some(n)) => Ok(take_number(state, n)?),
    }
}

/// What happens to a name that was parsed.
#[tactic(auto, unfolding(mi_model::specs::Interpreter::interpret_name))]
fn interpret_name<A: Arith>(state: &mut State<A>, name: Span) -> Result<Effect, Fault>
    requires { name.place + name.length ≤ length state.old.machine.bytes }
    ensures { Gives A.GROWS result state.old state.new (leading state.old (outcome_of (A.ops state.old.arith) (actions.interpret_name name) state.old.machine [])) }
{
    if name.length == 0 {
        return Ok(end_of_source(state)?);
    }
    match find(state, name)? {
        None => Ok(interpret_text(state, name)?),
        Some(word) => Ok(interpret_word(state, word)?),
    }
}

/// (INTERPRET): the next name of the source is looked up, and the word runs or is compiled; at the end of the source
/// the next line is wanted, or the source before goes on. A name that isn't found is read as a number, which is pushed
/// or compiled: throw -24 where BASE is needed and isn't from 2 to 36, and -13 where the name is no number either.
///
/// After a fault other than want of memory nothing has changed: the move of >IN is taken back.
pub fn interpret<A: Arith>(state: &mut State<A>) -> Result<Effect, Fault>
    ensures { Gives A.GROWS result state.old state.new (leading state.old (outcome_of (A.ops state.old.arith) actions.do_interpret state.old.machine [])) }
{
    let before = state.system_bytes(24);
    let name = parse_name(state)?;
    match interpret_name(state, name) {
        Ok(effect) => Ok(effect),
        Err(fault) => {
            state.put_back(24, before)?;
            Err(fault)
        }
    }
}
