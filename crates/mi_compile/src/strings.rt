//! The word S", and what S\" shares with it.

ghost use Rattle.std.specs.Prelude.{◌≡◌, ℕ, ◌+◌, ◌≤◌, length, [], ◌∷◌, Ok, OnOk, IfOk};
ghost use Rattle.mi_model.specs.Outcome.{outcome_of};
ghost use Rattle.mi_model.specs.Action.{action_by};
ghost use Rattle.mi_model.specs.Parts as parts;
ghost use Rattle.mi_model.specs.Strings as actions;
ghost use Rattle.mi_region.specs.View.{Gives, keeping, leading};
ghost use Rattle.mi_compile.specs.Taking as taking;

use mi_arith::Arith;
use mi_dict::{here, parse_until, token_of};
use mi_model::{Effect, Fault, Span};
use mi_region::State;
use mi_vocab::{
    DP, STATE, STRING_BUFFER_FIRST, STRING_BUFFER_SECOND, STRING_LIMIT, STRING_TURN, TO_IN,
};

/// The tag of (S"), which pushes the string behind it.
const PUSH_STRING: u8 = 19;

/// A number of bytes, rounded up to whole cells.
fn aligned(n: u32) -> u32
    requires { n ≤ 16777216 }
    ensures value { result ≡ parts.aligned n }
    ensures least { n ≤ result }
    ensures most { result ≤ n + 7 }
{
    (n + 7) / 8 * 8
}

/// The offset of HERE, where a string of so many bytes can be compiled: two cells, and the bytes up to a whole cell. Throw -9
/// where HERE has left the dictionary, -8 where the string doesn't fit the region, then -23 where HERE isn't aligned.
#[tactic(auto, unfolding(mi_model::specs::Strings::string_room))]
pub fn string_room<A: Arith>(state: &State<A>, n: u32) -> Result<u32, Fault>
    requires { n ≤ length state.now.machine.bytes }
    ensures action { keeping state.now.machine result ≡ outcome_of (A.ops state.now.arith) (actions.string_room n) state.now.machine [] }
    ensures fits { IfOk result (λ p. p + 16 + parts.aligned n ≤ length state.now.machine.bytes) }
{
    let size = state.size();
    let p = here(state)?;
    if p + 16 + aligned(n) > size {
        return Err(Fault::Throw(-8));
    }
    if p % 8 != 0 {
        return Err(Fault::Throw(-23));
    }
    Ok(p)
}

/// Lays the rest of a compiled string, whose n bytes are there: (S") and the length at p, the offset of HERE, and zeros
/// behind the bytes up to a whole cell; HERE goes behind them.
#[tactic(auto, unfolding(mi_model::specs::Strings::lay_string))]
pub fn lay_string<A: Arith>(state: &mut State<A>, p: u32, n: u32)
    requires { p + 16 + parts.aligned n ≤ length state.old.machine.bytes }
    ensures { leading state.old (outcome_of (A.ops state.old.arith) (actions.lay_string p n) state.old.machine []) ≡ Ok (tt, state.new) }
{
    let arith = *state.arith();
    let _ = state.size();
    let padded = aligned(n);
    state.put_cell(p, token_of(&arith, PUSH_STRING));
    state.put_cell(p + 8, arith.plain(n as u64));
    state.clear(p + 16 + n, padded - n);
    state.put_system(DP, arith.region_cell((p + 16 + padded) as u64));
}

/// Whether it is the first of the two string buffers that takes a string of so many bytes: throw -18 where it has more than
/// 512, and -3 where the stack has no room for its address and its length.
#[tactic(auto, unfolding(mi_model::specs::Strings::string_turn))]
pub fn string_turn<A: Arith>(state: &State<A>, n: u32) -> Result<bool, Fault>
    ensures action { keeping state.now.machine result ≡ outcome_of (A.ops state.now.arith) (actions.string_turn n) state.now.machine [] }
    ensures short { OnOk result (n ≤ 512) }
    ensures room { OnOk result (length state.now.machine.stack + 2 ≤ 4096) }
{
    if n > STRING_LIMIT {
        return Err(Fault::Throw(-18));
    }
    let arith = *state.arith();
    let first = arith.equal(state.fetch_system(STRING_TURN)?, arith.plain(0))?;
    state.tests(0, 2, 0, 0)?;
    Ok(first)
}

/// The offset of a string buffer.
pub fn string_buffer(first: bool) -> u32
    ensures value { result ≡ actions.string_buffer first }
    ensures within { result + 512 ≤ 65536 }
{
    if first {
        STRING_BUFFER_FIRST
    } else {
        STRING_BUFFER_SECOND
    }
}

/// Pushes the string of so many bytes in a buffer, and the other buffer is next.
#[tactic(auto, unfolding(mi_model::specs::Strings::push_string))]
pub fn push_string<A: Arith>(state: &mut State<A>, first: bool, n: u32)
    requires { length state.old.machine.stack + 2 ≤ 4096 }
    ensures { leading state.old (outcome_of (A.ops state.old.arith) (actions.push_string first n) state.old.machine []) ≡ Ok (tt, state.new) }
{
    let arith = *state.arith();
    let next = if first { 1 } else { 0 };
    state.put_system(STRING_TURN, arith.plain(next));
    state.put(arith.region_cell(string_buffer(first) as u64));
    state.put(arith.plain(n as u64));
}

/// Compiles the string of a text of the region: (S"), its length, its bytes, and zeros up to a whole cell. Throws as
/// `string_room`. After a fault other than want of memory nothing has changed.
#[tactic(auto, unfolding(mi_model::specs::Strings::compile_string))]
fn compile_string<A: Arith>(state: &mut State<A>, span: Span) -> Result<(), Fault>
    requires { span.place + span.length ≤ length state.old.machine.bytes }
    ensures { Gives A.GROWS result state.old state.new (leading state.old (outcome_of (A.ops state.old.arith) (actions.compile_string span) state.old.machine [])) }
{
    let _ = state.size();
    let p = string_room(state, span.length)?;
    let _ = aligned(span.length);
    state.copy_within(span.place, p + 16, span.length);
    lay_string(state, p, span.length);
    Ok(())
}

/// Keeps a text of the region in a string buffer, and pushes it as a string. Throws as `string_turn`. After a fault other
/// than want of memory nothing has changed.
#[tactic(auto, unfolding(mi_model::specs::Strings::keep_string))]
fn keep_string<A: Arith>(state: &mut State<A>, span: Span) -> Result<(), Fault>
    requires { span.place + span.length ≤ length state.old.machine.bytes }
    ensures { Gives A.GROWS result state.old state.new (leading state.old (outcome_of (A.ops state.old.arith) (actions.keep_string span) state.old.machine [])) }
{
    let _ = state.size();
    let first = string_turn(state, span.length)?;
    state.copy_within(span.place, string_buffer(first), span.length);
    push_string(state, first, span.length);
    Ok(())
}

/// What S" does with the text that it has parsed: while interpreting it is kept and pushed as a string, while compiling it is
/// compiled as one. After a fault other than want of memory nothing has changed.
fn take_string<A: Arith>(state: &mut State<A>, span: Span) -> Result<Effect, Fault>
    requires { span.place + span.length ≤ length state.old.machine.bytes }
    ensures { Gives A.GROWS result state.old state.new (leading state.old (outcome_of (A.ops state.old.arith) (action_by (taking.take_string span)) state.old.machine [])) }
{
    let arith = *state.arith();
    if arith.equal(state.fetch_system(STATE)?, arith.plain(0))? {
        keep_string(state, span)?;
    } else {
        compile_string(state, span)?;
    }
    Ok(Effect::Went)
}

/// S" ( -- ) or ( -- a u ): the text that comes next in the source, up to a quote or to the end of the source where there is
/// none; >IN moves past the quote. While interpreting its bytes are copied to one of two buffers in turn, and the address
/// and the length are pushed. While compiling it is compiled at HERE: (S"), which will push it, its length, its bytes, and
/// zeros up to a whole cell.
///
/// Throws -9 where the source doesn't lie in the region. While interpreting it throws -18 for a text of more than 512 bytes,
/// and -3 where address and length don't fit the stack; while compiling -9 where HERE has left the dictionary, -8 where the
/// string doesn't fit the region, and -23 where HERE isn't aligned. After a fault other than want of memory nothing has
/// changed: the move of >IN is taken back.
pub fn s_quote<A: Arith>(state: &mut State<A>) -> Result<Effect, Fault>
    ensures { Gives A.GROWS result state.old state.new (leading state.old (outcome_of (A.ops state.old.arith) actions.do_s_quote state.old.machine [])) }
{
    let before = state.system_bytes(TO_IN);
    let span = parse_until(state, b'"')?;
    match take_string(state, span) {
        Ok(effect) => Ok(effect),
        Err(fault) => {
            state.put_back(TO_IN, before)?;
            Err(fault)
        }
    }
}
