//! The instructions that parse the source.

ghost use Rattle.std.specs.Prelude.{◌≡◌, ℕ, ◌+◌, ◌≤◌, length, slice_set, [], ◌∷◌};
ghost use Rattle.mi_model.specs.Outcome.{outcome_of};
ghost use Rattle.mi_model.specs.Region.{with_moved};
ghost use Rattle.mi_model.specs.ParsingWords as actions;
ghost use Rattle.mi_region.specs.View.{Gives, leading, with_bytes, with_stack};

use mi_arith::Arith;
use mi_dict::{parse_until, parse_word};
use mi_model::{Effect, Fault, Span};
use mi_region::State;
use mi_vocab::{TO_IN, WORD_BUFFER, WORD_LIMIT};

/// Puts the address of a text of the region and its length on the data stack.
fn put_text<A: Arith>(state: &mut State<A>, text: Span)
    requires { length state.old.machine.stack + 2 ≤ 4096 }
    ensures { state.new ≡ with_stack state.old ((A.ops state.old.arith).plain text.length ∷ ((A.ops state.old.arith).region_cell text.place ∷ state.old.machine.stack)) }
{
    let arith = *state.arith();
    state.put(arith.region_cell(text.place as u64));
    state.put(arith.plain(text.length as u64));
}

/// PARSE ( c -- a u ): the text that comes next in the source up to the character c, or to the end of the source where there
/// is none. >IN moves past c. The character 32 stands for each byte up to 32.
///
/// Throws -4 for an empty stack, -3 where the results don't fit it, -9 where the source doesn't lie in the region. After a
/// fault nothing has changed.
pub fn parse<A: Arith>(state: &mut State<A>) -> Result<Effect, Fault>
    ensures { Gives A.GROWS result state.old state.new (leading state.old (outcome_of (A.ops state.old.arith) actions.do_parse state.old.machine [])) }
{
    state.tests(1, 2, 0, 0)?;
    let delimiter = state.arith().low_byte(state.item(0))?;
    let text = parse_until(state, delimiter)?;
    state.cut(1);
    put_text(state, text);
    Ok(Effect::Went)
}

/// PARSE-NAME ( -- a u ): the name that comes next in the source, of no bytes where the source is at its end. >IN moves past
/// the blank that ends it.
///
/// Throws -3 where the results don't fit the stack, -9 where the source doesn't lie in the region. After a fault nothing has
/// changed.
pub fn parse_name<A: Arith>(state: &mut State<A>) -> Result<Effect, Fault>
    ensures { Gives A.GROWS result state.old state.new (leading state.old (outcome_of (A.ops state.old.arith) actions.do_parse_name state.old.machine [])) }
{
    state.tests(0, 2, 0, 0)?;
    let name = mi_dict::parse_name(state)?;
    put_text(state, name);
    Ok(Effect::Went)
}

/// Makes a text of the region the counted string in the buffer of WORD.
fn put_counted<A: Arith>(state: &mut State<A>, text: Span)
    requires within { text.place + text.length ≤ length state.old.machine.bytes }
    requires short { text.length ≤ 255 }
    ensures { state.new ≡ with_bytes state.old (slice_set (with_moved state.old.machine.bytes text.place 2049 text.length) 2048 ((A.ops state.old.arith).byte text.length)) }
{
    let _ = state.size();
    state.copy_within(text.place, WORD_BUFFER + 1, text.length);
    state.put_byte(WORD_BUFFER, text.length as u8);
}

/// WORD ( c -- a ): skips characters c in the source, and copies the text up to the next one to the buffer of WORD, as a
/// counted string: a byte with its length, and then its bytes. >IN moves past that c. The character 32 stands for each byte
/// up to 32.
///
/// Throws -4 for an empty stack, -9 where the source doesn't lie in the region, -18 where the text has more than 255 bytes.
/// After a fault other than want of memory nothing has changed: the move of >IN is taken back.
pub fn word<A: Arith>(state: &mut State<A>) -> Result<Effect, Fault>
    ensures { Gives A.GROWS result state.old state.new (leading state.old (outcome_of (A.ops state.old.arith) actions.do_word state.old.machine [])) }
{
    state.tests(1, 1, 0, 0)?;
    let delimiter = state.arith().low_byte(state.item(0))?;
    let before = state.system_bytes(TO_IN);
    let text = parse_word(state, delimiter)?;
    if text.length > WORD_LIMIT {
        state.put_back(TO_IN, before)?;
        return Err(Fault::Throw(-18));
    }
    put_counted(state, text);
    let address = state.arith().region_cell(WORD_BUFFER as u64);
    state.cut(1);
    state.put(address);
    Ok(Effect::Went)
}
