//! The line that reports an outcome.
ghost use Rattle.std.specs.Prelude.{◌≡◌, ◌∷◌, ◌++◌, [], IfOk, string_bytes, codes, decimal};
ghost use Rattle.std.specs.Fmt.{signed_decimal};
ghost use Rattle.mi_model.specs.Tags.{name_of};
ghost use Rattle.mi_model.specs.Throws.{throw_text_of};
ghost use Rattle.mi_commands.specs.Options.{words_of};
ghost use Rattle.mi_commands.specs.Report.{report_of, file_name_of, line_of, after_space, hexadecimal, pair_text, why_text_of};

use crate::outcome::Outcome;
use mi_image::Pair;
use mi_model::{Form, Found, Why};
use mi_vocab::{TAGS, name, throw_text};
use std::alloc::{AllocError, Global};

/// The line that reports an outcome of a build of `sources` into `out`, or of a run of the one image in `sources`, with
/// its line feed. Nothing where a run is done.
///
/// # Errors
///
/// `AllocError` where memory runs out.
pub fn report(
    alloc: Global,
    out: &str,
    sources: &[&str],
    outcome: &Outcome,
) -> Result<String, AllocError>
    ensures text { IfOk result (λ s. string_bytes s ≡ report_of out.now (words_of sources.now) outcome.now) }
{
    match *outcome {
        Outcome::Built { used, turns } => {
            format!(in alloc; "image {out} used {used} turns {turns}\n")
        }
        Outcome::NoMemory => format!(in alloc; "no memory\n"),
        Outcome::Usage => format!(in alloc; "usage\n"),
        Outcome::ReadFault => format!(in alloc; "read fault\n"),
        Outcome::NoFile { file } => no_file(alloc, file_name(sources, file)),
        Outcome::WriteFault => format!(in alloc; "write fault\n"),
        Outcome::TooManySources { .. } => format!(in alloc; "too many sources\n"),
        Outcome::SourceTooLong { file } => too_long(alloc, file_name(sources, file)),
        Outcome::Thrown { code, file, line } => {
            throw_report(alloc, file_name(sources, file), line, code)
        }
        Outcome::Spent { turns } => format!(in alloc; "spent {turns}\n"),
        Outcome::NoEntry => format!(in alloc; "no such name\n"),
        Outcome::Step {
            number,
            offset,
            tag,
            why,
            file,
            line,
            ..
        } => {
            let name = file_name(sources, file);
            step_report(alloc, name, line, number, offset, word_name(tag), why)
        }
        Outcome::Cell { offset, found } => cell_report(alloc, offset, found),
        Outcome::Done => Ok(String::new(alloc)),
        Outcome::NotImage { file, place, .. } => no_image(alloc, file_name(sources, file), place),
        Outcome::Truncated { file, place } => ends_at(alloc, file_name(sources, file), place),
        Outcome::TooLarge { file, value, .. } => too_large(alloc, file_name(sources, file), value),
        Outcome::MadeFor(pair) => made_for(alloc, pair),
        Outcome::PairNotAllowed(pair) => not_allowed(alloc, pair),
        Outcome::EntryThrown { code } => entry_report(alloc, code),
        Outcome::InputTooLong => format!(in alloc; "input too long\n"),
    }
}

fn no_file(alloc: Global, name: &str) -> Result<String, AllocError>
    ensures { IfOk result (λ s. string_bytes s ≡ line_of (name.now ∷ codes ": no such file" ∷ [])) }
{
    format!(in alloc; "{name}: no such file\n")
}

fn too_long(alloc: Global, name: &str) -> Result<String, AllocError>
    ensures { IfOk result (λ s. string_bytes s ≡ line_of (name.now ∷ codes ": longer than 4194304 bytes" ∷ [])) }
{
    format!(in alloc; "{name}: longer than 4194304 bytes\n")
}

fn no_image(alloc: Global, name: &str, place: u64) -> Result<String, AllocError>
    ensures { IfOk result (λ s. string_bytes s ≡ line_of (name.now ∷ codes ": no image at " ∷ decimal place ∷ [])) }
{
    format!(in alloc; "{name}: no image at {place}\n")
}

fn ends_at(alloc: Global, name: &str, place: u64) -> Result<String, AllocError>
    ensures { IfOk result (λ s. string_bytes s ≡ line_of (name.now ∷ codes ": ends at " ∷ decimal place ∷ [])) }
{
    format!(in alloc; "{name}: ends at {place}\n")
}

fn too_large(alloc: Global, name: &str, value: u64) -> Result<String, AllocError>
    ensures { IfOk result (λ s. string_bytes s ≡ line_of (name.now ∷ codes ": too large " ∷ decimal value ∷ [])) }
{
    format!(in alloc; "{name}: too large {value}\n")
}

#[tactic(auto, using(crate::proofs::Hexadecimal::as_hexadecimal))]
fn made_for(alloc: Global, pair: Pair) -> Result<String, AllocError>
    ensures { IfOk result (λ s. string_bytes s ≡ line_of (codes "made for " ∷ hexadecimal pair.d ∷ codes " " ∷ hexadecimal pair.k ∷ [])) }
{
    let Pair { d, k } = pair;
    format!(in alloc; "made for {d:016x} {k:016x}\n")
}

#[tactic(auto, using(crate::proofs::Hexadecimal::as_hexadecimal))]
fn not_allowed(alloc: Global, pair: Pair) -> Result<String, AllocError>
    ensures { IfOk result (λ s. string_bytes s ≡ line_of (codes "pair not allowed " ∷ hexadecimal pair.d ∷ codes " " ∷ hexadecimal pair.k ∷ [])) }
{
    let Pair { d, k } = pair;
    format!(in alloc; "pair not allowed {d:016x} {k:016x}\n")
}

/// The line that reports a throw of the entry word.
fn entry_report(alloc: Global, code: i64) -> Result<String, AllocError>
    ensures { IfOk result (λ s. string_bytes s ≡ line_of (codes "throw " ∷ signed_decimal code ∷ after_space (throw_text_of code) ∷ [])) }
{
    let text = throw_text(code);
    if text.is_empty() {
        format!(in alloc; "throw {code}\n")
    } else {
        format!(in alloc; "throw {code} {text}\n")
    }
}

/// The name of a file: file 0 is the prelude, and the sources count from 1.
fn file_name<'a>(sources: &[&'a str], file: u32) -> &'a str
    ensures { result.now ≡ file_name_of (words_of sources.now) file }
{
    if file == 0 {
        return "prelude";
    }
    match sources.get(file as usize - 1) {
        Some(name) => *name,
        None => "",
    }
}

/// The line that reports a throw at a line of a file.
fn throw_report(alloc: Global, name: &str, line: u32, code: i64) -> Result<String, AllocError>
    ensures { IfOk result (λ s. string_bytes s ≡ line_of (name.now ∷ codes ":" ∷ decimal line
        ∷ codes ": throw " ∷ signed_decimal code ∷ after_space (throw_text_of code) ∷ [])) }
{
    let text = throw_text(code);
    if text.is_empty() {
        format!(in alloc; "{name}:{line}: throw {code}\n")
    } else {
        format!(in alloc; "{name}:{line}: throw {code} {text}\n")
    }
}

/// The name of a tag's word, or nothing where no word has the tag.
#[tactic(auto, using(crate::proofs::TagNames::no_name, crate::proofs::TagNames::name_is_text))]
fn word_name(tag: u8) -> &'static str
    ensures { result.now ≡ name_of tag }
{
    if tag >= TAGS {
        return "";
    }
    match str::from_utf8(name(tag)) {
        Ok(text) => text,
        Err(_) => "",
    }
}

/// The line that reports an operation at a line of a file that has no answer that is right at every base pair.
fn step_report(
    alloc: Global,
    name: &str,
    line: u32,
    number: u64,
    offset: u32,
    word: &str,
    why: Why,
) -> Result<String, AllocError>
    ensures { IfOk result (λ s. string_bytes s ≡ line_of (name.now ∷ codes ":" ∷ decimal line ∷ codes ": step " ∷ decimal number
        ∷ codes " at " ∷ decimal offset ∷ codes " " ∷ word.now ∷ codes ": " ∷ why_text_of why ∷ [])) }
{
    let why = why_text(alloc, why)?;
    format!(in alloc; "{name}:{line}: step {number} at {offset} {word}: {why}\n")
}

/// Why an operation has no answer that is right at every base pair.
fn why_text(alloc: Global, why: Why) -> Result<String, AllocError>
    ensures { IfOk result (λ s. string_bytes s ≡ why_text_of why) }
{
    match why {
        Why::Undecided { first, second } => undecided(alloc, first, second),
        Why::Far => format!(in alloc; "far"),
        Why::Mask => format!(in alloc; "mask"),
        Why::Shift => format!(in alloc; "shift"),
        Why::Multiply => format!(in alloc; "multiply"),
        Why::Divide => format!(in alloc; "divide"),
        Why::Byte => format!(in alloc; "byte"),
        Why::Count => format!(in alloc; "count"),
    }
}

/// The two pairs at which an operation is answered differently.
fn undecided(alloc: Global, first: Pair, second: Pair) -> Result<String, AllocError>
    ensures { IfOk result (λ s. string_bytes s ≡ codes "undecided " ++ pair_text first ++ 32 ∷ pair_text second) }
{
    let first = pair_text(alloc, first)?;
    let second = pair_text(alloc, second)?;
    format!(in alloc; "undecided {first} {second}")
}

/// A pair: its data base, and its code base.
#[tactic(auto, using(crate::proofs::Hexadecimal::as_hexadecimal))]
fn pair_text(alloc: Global, pair: Pair) -> Result<String, AllocError>
    ensures { IfOk result (λ s. string_bytes s ≡ pair_text pair) }
{
    let Pair { d, k } = pair;
    format!(in alloc; "{d:016x} {k:016x}")
}

/// The line that reports a cell that no cell of an image gives at every base pair.
fn cell_report(alloc: Global, offset: u32, found: Found) -> Result<String, AllocError>
    ensures { IfOk result (λ s. string_bytes s ≡ report_of [] [] (Outcome.Cell offset found)) }
{
    match found {
        Found::Form(Form { a, b, c }) => { format!(in alloc; "cell {offset}: a {a} b {b} c {c}\n") }
        Found::Mixed => format!(in alloc; "cell {offset}: mixed bytes\n"),
    }
}
