//! Parsing in the source.

ghost use Rattle.std.specs.Prelude.{◌≡◌, ℕ, ◌≤◌, ◌+◌, ◌-◌, false, length, min, [], ◌∷◌, OnOk, IfOk};
ghost use Rattle.mi_model.specs.Outcome.{outcome_of};
ghost use Rattle.mi_model.specs.Region.{with_cell};
ghost use Rattle.mi_model.specs.Parsing as actions;
ghost use Rattle.mi_model.specs.ParsingWords as words;
ghost use Rattle.mi_model.specs.Strings as strings;
ghost use Rattle.mi_dict.specs.SourceText.{source_in};
ghost use Rattle.mi_region.specs.View.{Gives, keeping, leading, with_bytes};

use mi_arith::Arith;
use mi_model::{Fault, Span};
use mi_region::State;
use mi_vocab::{SOURCE_ADDRESS, SOURCE_LENGTH, TO_IN};

/// The offset of the first blank, or of the first byte that is none, among so many from an offset on; the offset
/// behind them where there is none.
#[tactic(auto, using(crate::proofs::Walks::scan_next))]
fn scan<A: Arith>(state: &State<A>, blank: bool, start: u32, end: u32) -> Result<u32, Fault>
    requires order { start ≤ end }
    requires within { end ≤ length state.now.machine.bytes }
    ensures action { keeping state.now.machine result ≡ outcome_of (A.ops state.now.arith) (actions.scan blank (end - start) start) state.now.machine [] }
    ensures between { IfOk result (λ o. (start ≤ o) × (o ≤ end)) }
{
    let mut at = start;
    'bytes: while at < end {
        let is_blank = state.fetch_byte_at(at)? <= 32;
        if is_blank == blank {
            return Ok(at);
        }
        at += 1;
    }
    Ok(at)
}

/// The source, by the offsets where it begins, where the part that isn't parsed yet begins, and where it ends.
struct Source {
    place: u32,
    rest: u32,
    end: u32,
}

/// Where the source stands; throw -9 where it doesn't lie in the region.
fn find_source<A: Arith>(state: &State<A>) -> Result<Source, Fault>
    ensures found { result ≡ source_in (A.ops state.now.arith) state.now.machine.bytes }
    ensures places { IfOk result (λ s. (s.place ≤ s.rest) × (s.rest ≤ s.end) × (s.end ≤ length state.now.machine.bytes)) }
{
    let arith = *state.arith();
    let in_offset = arith.number(state.fetch_system(TO_IN)?)?;
    let length = arith.number(state.fetch_system(SOURCE_LENGTH)?)?;
    let place = state.offset_of(state.fetch_system(SOURCE_ADDRESS)?)?;
    let size = state.size();
    if place > size || length > (size - place) as u64 {
        return Err(Fault::Throw(-9));
    }
    let end = place + length as u32;
    Ok(Source {
        place,
        rest: place + in_offset.min(length) as u32,
        end,
    })
}

/// Moves >IN past the byte at an offset, the one that ends a text, or to the end of the source.
fn parse_past<A: Arith>(state: &mut State<A>, place: u32, end: u32, behind: u32)
    requires order { place ≤ behind }
    requires within { behind ≤ end }
    ensures { state.new ≡ with_bytes state.old (with_cell (A.ops state.old.arith) state.old.machine.bytes 24 ((A.ops state.old.arith).plain (min (behind + 1) end - place))) }
{
    let next = if behind < end { behind + 1 } else { behind };
    let parsed = state.arith().plain((next - place) as u64);
    state.put_system(TO_IN, parsed);
}

/// Parses the name that comes next in the source: skips bytes up to 32, takes the bytes above 32, and moves >IN past
/// the byte that ends the name. An empty name means that the source is at its end.
///
/// Throws -9 where the source doesn't lie in the region. After a fault nothing has changed.
#[tactic(auto, unfolding(mi_model::specs::Parsing::parse_name))]
pub fn parse_name<A: Arith>(state: &mut State<A>) -> Result<Span, Fault>
    ensures action { Gives A.GROWS result state.old state.new (leading state.old (outcome_of (A.ops state.old.arith) actions.parse_name state.old.machine [])) }
    ensures within { IfOk result (λ span. span.place + span.length ≤ length state.old.machine.bytes) }
    ensures moved { OnOk result ((v : A.Cell) × (state.new ≡ with_bytes state.old (with_cell (A.ops state.old.arith) state.old.machine.bytes 24 v))) }
{
    let Source { place, rest, end } = find_source(state)?;
    let start = scan(state, false, rest, end)?;
    let behind = scan(state, true, start, end)?;
    parse_past(state, place, end, behind);
    Ok(Span {
        place: start,
        length: behind - start,
    })
}

/// Whether parsing up to the delimiter ends at a byte: the delimiter 32 stands for each blank.
fn is_delimiter(delimiter: u8, byte: u8) -> bool
    ensures { result ≡ actions.is_delimiter delimiter byte }
{
    if delimiter == 32 {
        byte <= 32
    } else {
        byte == delimiter
    }
}

/// The offset of the first delimiter among so many bytes from an offset on; the offset behind them where there is none.
#[tactic(auto, using(crate::proofs::Walks::scan_until_next))]
fn scan_until<A: Arith>(state: &State<A>, delimiter: u8, start: u32, end: u32) -> Result<u32, Fault>
    requires order { start ≤ end }
    requires within { end ≤ length state.now.machine.bytes }
    ensures action { keeping state.now.machine result ≡ outcome_of (A.ops state.now.arith) (actions.scan_until delimiter (end - start) start) state.now.machine [] }
    ensures between { IfOk result (λ o. (start ≤ o) × (o ≤ end)) }
{
    let mut at = start;
    'bytes: while at < end {
        let byte = state.fetch_byte_at(at)?;
        let ends = is_delimiter(delimiter, byte);
        if ends {
            return Ok(at);
        }
        at += 1;
    }
    Ok(at)
}

/// The offset of the first byte that isn't the delimiter among so many from an offset on; the offset behind them where all
/// are.
#[tactic(auto, using(crate::proofs::Walks::skip_delimiters_next))]
fn skip_delimiters<A: Arith>(
    state: &State<A>,
    delimiter: u8,
    start: u32,
    end: u32,
) -> Result<u32, Fault>
    requires order { start ≤ end }
    requires within { end ≤ length state.now.machine.bytes }
    ensures action { keeping state.now.machine result ≡ outcome_of (A.ops state.now.arith) (words.skip_delimiters delimiter (end - start) start) state.now.machine [] }
    ensures between { IfOk result (λ o. (start ≤ o) × (o ≤ end)) }
{
    let mut at = start;
    'bytes: while at < end {
        let byte = state.fetch_byte_at(at)?;
        let ends = !is_delimiter(delimiter, byte);
        if ends {
            return Ok(at);
        }
        at += 1;
    }
    Ok(at)
}

/// Parses the text that comes next in the source: takes the bytes before the delimiter, or all where there is none, and
/// moves >IN past the delimiter. The delimiter 32 stands for each byte up to 32. An empty text means that the delimiter
/// comes at once, or that the source is at its end.
///
/// Throws -9 where the source doesn't lie in the region. After a fault nothing has changed.
#[tactic(auto, unfolding(mi_model::specs::Parsing::parse_until))]
pub fn parse_until<A: Arith>(state: &mut State<A>, delimiter: u8) -> Result<Span, Fault>
    ensures action { Gives A.GROWS result state.old state.new (leading state.old (outcome_of (A.ops state.old.arith) (actions.parse_until delimiter) state.old.machine [])) }
    ensures within { IfOk result (λ span. span.place + span.length ≤ length state.old.machine.bytes) }
    ensures moved { OnOk result ((v : A.Cell) × (state.new ≡ with_bytes state.old (with_cell (A.ops state.old.arith) state.old.machine.bytes 24 v))) }
{
    let Source { place, rest, end } = find_source(state)?;
    let behind = scan_until(state, delimiter, rest, end)?;
    parse_past(state, place, end, behind);
    Ok(Span {
        place: rest,
        length: behind - rest,
    })
}

/// Parses the text that comes next in the source once delimiters are skipped: takes the bytes before the next delimiter, or
/// all where there is none, and moves >IN past that delimiter. The delimiter 32 stands for each byte up to 32. An empty text
/// means that there are only delimiters up to the end of the source.
///
/// Throws -9 where the source doesn't lie in the region. After a fault nothing has changed.
#[tactic(auto, unfolding(mi_model::specs::ParsingWords::parse_word))]
pub fn parse_word<A: Arith>(state: &mut State<A>, delimiter: u8) -> Result<Span, Fault>
    ensures action { Gives A.GROWS result state.old state.new (leading state.old (outcome_of (A.ops state.old.arith) (words.parse_word delimiter) state.old.machine [])) }
    ensures within { IfOk result (λ span. span.place + span.length ≤ length state.old.machine.bytes) }
    ensures moved { OnOk result ((v : A.Cell) × (state.new ≡ with_bytes state.old (with_cell (A.ops state.old.arith) state.old.machine.bytes 24 v))) }
{
    let Source { place, rest, end } = find_source(state)?;
    let start = skip_delimiters(state, delimiter, rest, end)?;
    let behind = scan_until(state, delimiter, start, end)?;
    parse_past(state, place, end, behind);
    Ok(Span {
        place: start,
        length: behind - start,
    })
}

/// The offset of the first quote that no backslash has taken among so many bytes from an offset on; the offset behind them
/// where there is none. A backslash that isn't taken itself takes the byte behind it.
#[tactic(auto, using(crate::proofs::Walks::scan_escaped_next))]
fn scan_escaped<A: Arith>(state: &State<A>, start: u32, end: u32) -> Result<u32, Fault>
    requires order { start ≤ end }
    requires within { end ≤ length state.now.machine.bytes }
    ensures action { keeping state.now.machine result ≡ outcome_of (A.ops state.now.arith) (strings.scan_escaped false (end - start) start) state.now.machine [] }
    ensures between { IfOk result (λ o. (start ≤ o) × (o ≤ end)) }
{
    let mut at = start;
    let mut taken = false;
    'bytes: while at < end {
        let byte = state.fetch_byte_at(at)?;
        let ends = !taken && byte == b'"';
        if ends {
            return Ok(at);
        }
        taken = !taken && byte == b'\\';
        at += 1;
    }
    Ok(at)
}

/// Parses the text with escapes that comes next in the source: takes the bytes before the first quote that no backslash has
/// taken, or all where there is none, and moves >IN past that quote. The escapes are not looked at any closer.
///
/// Throws -9 where the source doesn't lie in the region. After a fault nothing has changed.
#[tactic(auto, unfolding(mi_model::specs::Strings::parse_escaped))]
pub fn parse_escaped<A: Arith>(state: &mut State<A>) -> Result<Span, Fault>
    ensures action { Gives A.GROWS result state.old state.new (leading state.old (outcome_of (A.ops state.old.arith) strings.parse_escaped state.old.machine [])) }
    ensures within { IfOk result (λ span. span.place + span.length ≤ length state.old.machine.bytes) }
    ensures moved { OnOk result ((v : A.Cell) × (state.new ≡ with_bytes state.old (with_cell (A.ops state.old.arith) state.old.machine.bytes 24 v))) }
{
    let Source { place, rest, end } = find_source(state)?;
    let behind = scan_escaped(state, rest, end)?;
    parse_past(state, place, end, behind);
    let length = behind - rest;
    Ok(Span {
        place: rest,
        length,
    })
}
