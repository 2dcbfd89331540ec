//! The word S\".

ghost use Rattle.std.specs.Prelude.{◌≡◌, ℕ, ◌+◌, ◌≤◌, List, length, [], ◌∷◌, ◌++◌, None, Some, Ok, Err, OnOk, IfOk, OnErr, IfErr, IsTrue, negsuc};
ghost use Rattle.mi_model.specs.Outcome.{outcome_of};
ghost use Rattle.mi_model.specs.Action.{action_by};
ghost use Rattle.mi_model.specs.Region.{with_text};
ghost use Rattle.mi_model.specs.Escapes.{unescaped};
ghost use Rattle.mi_model.specs.Strings as actions;
ghost use Rattle.mi_text.specs.Unescaped.{bytes_of};
ghost use Rattle.mi_region.specs.View.{Gives, leading, with_bytes};
ghost use Rattle.mi_compile.specs.Escaped.{replaced_text, StandsFor, HasRead};
ghost use Rattle.mi_compile.specs.Escaped as escaped;

use crate::strings::{lay_string, push_string, string_buffer, string_room, string_turn};
use mi_arith::Arith;
use mi_dict::parse_escaped;
use mi_model::{Effect, Fault, Span};
use mi_region::State;
use mi_text::{BadEscape, EscapeReader, Replaced};
use mi_vocab::{STATE, TO_IN};

/// The reader after one more byte; none where the text is bad, whatever comes behind.
fn read_more(reader: Option<EscapeReader>, byte: u8) -> Option<EscapeReader>
    ensures { (text : List ℕ) → HasRead reader text → HasRead result (text ++ byte ∷ []) }
{
    let mut reader = reader?;
    match reader.feed(byte) {
        Ok(_) => Some(reader),
        Err(BadEscape) => None,
    }
}

/// Ends a text: throw -24 where an escape of it is bad.
fn end_text(reader: Option<EscapeReader>) -> Result<(), Fault>
    ensures good { OnOk result ((text : List ℕ) → HasRead reader text → ((given : List ℕ) × (unescaped text ≡ Some given))) }
    ensures bad { OnErr result ((text : List ℕ) → HasRead reader text → unescaped text ≡ None) }
    ensures throws { IfErr result (λ e. e ≡ Fault.Throw (negsuc 23)) }
{
    match reader {
        None => Err(Fault::Throw(-24)),
        Some(reader) => match reader.end() {
            Ok(()) => Ok(()),
            Err(BadEscape) => Err(Fault::Throw(-24)),
        },
    }
}

/// Reads a text of the region with escapes, all its bytes first: throw -24 where an escape of it is bad.
#[tactic(auto, unfolding(mi_model::specs::Parsing::read_text))]
fn check_escapes<A: Arith>(state: &State<A>, span: Span) -> Result<(), Fault>
    requires { span.place + span.length ≤ length state.now.machine.bytes }
    ensures good { OnOk result ((text : List ℕ) × StandsFor (A.ops state.now.arith) span state.now.machine text) }
    ensures bad { IfErr result (λ e. outcome_of (A.ops state.now.arith) (replaced_text span) state.now.machine [] ≡ Err e) }
{
    let _ = state.size();
    let mut reader = Some(EscapeReader::new());
    let mut i = 0;
    'bytes: while i < span.length {
        let byte = state.fetch_byte_at(span.place + i)?;
        reader = read_more(reader, byte);
        i += 1;
    }
    end_text(reader)?;
    Ok(())
}

/// Puts what a byte adds to a text at an offset, and gives how many bytes that are.
fn put_replaced<A: Arith>(state: &mut State<A>, o: u32, replaced: Replaced) -> u32
    requires { o + length (bytes_of replaced) ≤ length state.old.machine.bytes }
    ensures count { result ≡ length (bytes_of replaced) }
    ensures put { state.new ≡ with_bytes state.old (with_text (A.ops state.old.arith) state.old.machine.bytes o (bytes_of replaced)) }
{
    let _ = state.size();
    match replaced {
        Replaced::Nothing => 0,
        Replaced::One(byte) => {
            state.put_byte(o, byte);
            1
        }
        Replaced::CrLf => {
            state.put_byte(o, b'\r');
            state.put_byte(o + 1, b'\n');
            2
        }
    }
}

/// Replaces the escapes of a text of the region where it stands, and gives how many bytes it has then; zeros take the rest of
/// its place. No byte is written before it is read, since no escape stands for more bytes than it has. Where the text has no
/// bad escape and can be read, this fails only for want of memory in an arithmetic that takes some.
#[tactic(auto, unfolding(mi_model::specs::Parsing::read_text, mi_model::specs::Strings::put_unescaped))]
fn unescape_in_place<A: Arith>(state: &mut State<A>, span: Span) -> Result<u32, Fault>
    requires { span.place + span.length ≤ length state.old.machine.bytes }
    ensures put { IfOk result (λ n. (text : List ℕ) → StandsFor (A.ops state.old.arith) span state.old.machine text →
        (n ≡ length text) × (leading state.old (outcome_of (A.ops state.old.arith) (actions.put_unescaped span.place span.length text) state.old.machine []) ≡ Ok (tt, state.new))) }
    ensures most { IfOk result (λ n. n ≤ span.length) }
    ensures length { OnOk result (length state.new.machine.bytes ≡ length state.old.machine.bytes) }
    ensures stack { OnOk result (state.new.machine.stack ≡ state.old.machine.stack) }
    ensures memory { IfErr result (λ e. (text : List ℕ) → StandsFor (A.ops state.old.arith) span state.old.machine text → (e ≡ Fault.NoMemory) × IsTrue A.GROWS) }
{
    let _ = state.size();
    let mut reader = EscapeReader::new();
    let mut written = 0;
    let mut i = 0;
    'bytes: while i < span.length {
        let byte = state.fetch_byte_at(span.place + i)?;
        let Ok(replaced) = reader.feed(byte) else {
            return Err(Fault::Throw(-24));
        };
        written += put_replaced(state, span.place + written, replaced);
        i += 1;
    }
    if let Err(BadEscape) = reader.end() {
        return Err(Fault::Throw(-24));
    }
    state.clear(span.place + written, span.length - written);
    Ok(written)
}

/// Puts a text of the region with its escapes replaced at an offset, and gives how many bytes it has then; zeros take the
/// rest of its place. The two places may overlap. Where the text has no bad escape and can be read, this fails only for want
/// of memory in an arithmetic that takes some.
fn put_unescaped<A: Arith>(state: &mut State<A>, span: Span, o: u32) -> Result<u32, Fault>
    requires from { span.place + span.length ≤ length state.old.machine.bytes }
    requires to { o + span.length ≤ length state.old.machine.bytes }
    ensures put { IfOk result (λ n. (text : List ℕ) → StandsFor (A.ops state.old.arith) span state.old.machine text →
        (n ≡ length text) × (leading state.old (outcome_of (A.ops state.old.arith) (actions.put_unescaped o span.length text) state.old.machine []) ≡ Ok (tt, state.new))) }
    ensures most { IfOk result (λ n. n ≤ span.length) }
    ensures length { OnOk result (length state.new.machine.bytes ≡ length state.old.machine.bytes) }
    ensures stack { OnOk result (state.new.machine.stack ≡ state.old.machine.stack) }
    ensures memory { IfErr result (λ e. (text : List ℕ) → StandsFor (A.ops state.old.arith) span state.old.machine text → (e ≡ Fault.NoMemory) × IsTrue A.GROWS) }
{
    let length = span.length;
    state.copy_within(span.place, o, length);
    let n = unescape_in_place(state, Span { place: o, length })?;
    Ok(n)
}

/// Compiles a text of the region with its escapes replaced as a string, in the room that it takes before. Throws as
/// `string_room`. After a fault other than want of memory nothing has changed.
#[tactic(auto, unfolding(mi_model::specs::Strings::compile_text))]
fn compile_text<A: Arith>(state: &mut State<A>, span: Span) -> Result<(), Fault>
    requires { span.place + span.length ≤ length state.old.machine.bytes }
    ensures { (text : List ℕ) → StandsFor (A.ops state.old.arith) span state.old.machine text →
        Gives A.GROWS result state.old state.new (leading state.old (outcome_of (A.ops state.old.arith) (actions.compile_text span.length text) state.old.machine [])) }
{
    let _ = state.size();
    let p = string_room(state, span.length)?;
    let n = put_unescaped(state, span, p + 16)?;
    lay_string(state, p, n);
    Ok(())
}

/// Keeps a text of the region with its escapes replaced in a string buffer, and pushes it as a string. Throws as
/// `string_turn`, for the bytes that it has before. After a fault other than want of memory nothing has changed.
#[tactic(auto, unfolding(mi_model::specs::Strings::keep_text))]
fn keep_text<A: Arith>(state: &mut State<A>, span: Span) -> Result<(), Fault>
    requires { span.place + span.length ≤ length state.old.machine.bytes }
    ensures { (text : List ℕ) → StandsFor (A.ops state.old.arith) span state.old.machine text →
        Gives A.GROWS result state.old state.new (leading state.old (outcome_of (A.ops state.old.arith) (actions.keep_text span.length text) state.old.machine [])) }
{
    let _ = state.size();
    let first = string_turn(state, span.length)?;
    let n = put_unescaped(state, span, string_buffer(first))?;
    push_string(state, first, n);
    Ok(())
}

/// While interpreting a text of the region with its escapes replaced is kept and pushed as a string, while compiling it is
/// compiled as one. After a fault other than want of memory nothing has changed.
fn take_text<A: Arith>(state: &mut State<A>, span: Span) -> Result<Effect, Fault>
    requires { span.place + span.length ≤ length state.old.machine.bytes }
    ensures { (text : List ℕ) → StandsFor (A.ops state.old.arith) span state.old.machine text →
        Gives A.GROWS result state.old state.new (leading state.old (outcome_of (A.ops state.old.arith) (action_by (escaped.take_text span.length text)) state.old.machine [])) }
{
    let arith = *state.arith();
    if arith.equal(state.fetch_system(STATE)?, arith.plain(0))? {
        keep_text(state, span)?;
    } else {
        compile_text(state, span)?;
    }
    Ok(Effect::Went)
}

/// What S\" does with the text that it has parsed: throw -24 where an escape of it is bad; else `take_text`. After a fault
/// other than want of memory nothing has changed.
fn take_escaped<A: Arith>(state: &mut State<A>, span: Span) -> Result<Effect, Fault>
    requires { span.place + span.length ≤ length state.old.machine.bytes }
    ensures { Gives A.GROWS result state.old state.new (leading state.old (outcome_of (A.ops state.old.arith) (action_by (escaped.take_escaped span)) state.old.machine [])) }
{
    check_escapes(state, span)?;
    let effect = take_text(state, span)?;
    Ok(effect)
}

/// S\" ( -- ) or ( -- a u ): the text with escapes that comes next in the source, up to a quote that no backslash takes, or to
/// the end of the source where there is none; >IN moves past the quote. Its escapes are replaced, and then it is pushed or
/// compiled as the text of S" is. The room that is tested is that of the text before.
///
/// Throws -9 where the source doesn't lie in the region, and -24 where an escape is bad. While interpreting it throws -18 for
/// a text of more than 512 bytes before its escapes are replaced, and -3 where address and length don't fit the stack; while
/// compiling -9 where HERE has left the dictionary, -8 where that text doesn't fit the region, and -23 where HERE isn't
/// aligned. After a fault other than want of memory nothing has changed: the move of >IN is taken back.
pub fn s_backslash_quote<A: Arith>(state: &mut State<A>) -> Result<Effect, Fault>
    ensures { Gives A.GROWS result state.old state.new (leading state.old (outcome_of (A.ops state.old.arith) actions.do_s_backslash_quote state.old.machine [])) }
{
    let before = state.system_bytes(TO_IN);
    let span = parse_escaped(state)?;
    match take_escaped(state, span) {
        Ok(effect) => Ok(effect),
        Err(fault) => {
            state.put_back(TO_IN, before)?;
            Err(fault)
        }
    }
}
