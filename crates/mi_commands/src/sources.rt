//! The sources of a build: their files are read in turn.

ghost use Rattle.std.specs.Prelude.{◌≡◌, ◌≤◌, ◌<◌, ◌+◌, ◌⊎◌, ℕ, [], length, get_or, None, Ok, Err, IfSome, IfOk, OnOk, IfErr, IsErrOf};
ghost use Rattle.mi_outside.specs.Causes.{Rose};
ghost use Rattle.mi_outside.specs.Holding.{SameFiles};
ghost use Rattle.mi_outside.specs.Telling.{WhileTold};
ghost use Rattle.mi_commands.specs.Options.{words_of};
ghost use Rattle.mi_commands.specs.Causes.{AreRead};
ghost use Rattle.mi_commands.specs.Outcomes.{IsFault};
ghost use Rattle.mi_commands.specs.Contract.{built_of};
ghost use Rattle.mi_commands.specs.Limits.{source_count};
ghost use Rattle.mi_commands.specs.commands.Build.{contents_of, sources_read};
ghost use Rattle.mi_commands.specs.Possible.{IsSource, BuildMayEnd};
ghost use Rattle.mi_commands.specs.Reading.{TakesSource, RefusesSource};

use crate::outcome::Outcome;
use crate::reading::{SOURCE_COUNT, outcome_of, read_source};
use mi_build::Sources;
use mi_outside::Files;
use std::alloc::Global;

/// The texts of the named files. No file changes.
///
/// # Errors
///
/// `TooManySources` where there are more than 64 names. Else the first file that is missing or too long gives `NoFile` or
/// `SourceTooLong`; files count from 1. `ReadFault` comes only where the count of faults rose, and `NoMemory` where memory
/// is refused.
#[tactic(auto, using(crate::proofs::SourceLemmas::many_words_refused, crate::proofs::PossibleLemmas::words_possible, crate::proofs::PossibleLemmas::many_possible, crate::proofs::PossibleLemmas::few_words))]
pub fn read_sources<F: Files>(
    alloc: Global,
    files: &mut F,
    names: &[&str],
) -> Result<Sources, Outcome>
    ensures read { IfOk result (λ sources. AreRead (words_of names.now) sources (F.held files.old)) }
    ensures refusal { IfErr result (λ outcome. IsFault outcome
        ⊎ IfSome (F.held files.old) (λ old. sources_read (contents_of old (words_of names.now)) ≡ Err outcome)) }
    ensures kept { WhileTold (F.held files.old) (F.held files.new) SameFiles }
    ensures unbuilt { IfErr result (λ outcome. built_of outcome ≡ None) }
    ensures possible { IfErr result (λ outcome. BuildMayEnd outcome (length (words_of names.now))) }
    ensures few { IfOk result (λ _. length (words_of names.now) ≤ source_count) }
    ensures fault { IsErrOf result Outcome.ReadFault → Rose (F.faults files.old) (F.faults files.new) }
    ensures no_write { IsErrOf result Outcome.WriteFault → ⊥ }
    ensures later { F.faults files.old ≤ F.faults files.new }
{
    if names.len() > SOURCE_COUNT {
        return Err(Outcome::TooManySources {
            count: names.len() as u64,
        });
    }
    let mut sources = Sources::new(alloc);
    match read_all(alloc, files, names, &mut sources) {
        Ok(()) => Ok(sources),
        Err(outcome) => Err(outcome),
    }
}

/// Reads the named files, and puts their texts into a list that has none yet. No file changes.
///
/// # Errors
///
/// Those of `read_sources`, but for too many sources.
#[tactic(auto, using(crate::proofs::SourceLemmas::all_words_read, crate::proofs::SourceLemmas::next_word_read, crate::proofs::SourceLemmas::next_word_refused, crate::proofs::SourceLemmas::same_twice, crate::proofs::SourceLemmas::none_read))]
fn read_all<F: Files>(
    alloc: Global,
    files: &mut F,
    names: &[&str],
    sources: &mut Sources,
) -> Result<(), Outcome>
    requires few { length names.now ≤ source_count }
    requires none { sources.old ≡ [] }
    ensures read { OnOk result (AreRead (words_of names.now) sources.new (F.held files.old)) }
    ensures refusal { IfErr result (λ outcome. IsFault outcome
        ⊎ IfSome (F.held files.old) (λ old. sources_read (contents_of old (words_of names.now)) ≡ Err outcome)) }
    ensures kept { WhileTold (F.held files.old) (F.held files.new) SameFiles }
    ensures unbuilt { IfErr result (λ outcome. built_of outcome ≡ None) }
    ensures possible { IfErr result (λ outcome. BuildMayEnd outcome (length names.now)) }
    ensures fault { IsErrOf result Outcome.ReadFault → Rose (F.faults files.old) (F.faults files.new) }
    ensures no_write { IsErrOf result Outcome.WriteFault → ⊥ }
    ensures later { F.faults files.old ≤ F.faults files.new }
{
    let mut i = 0;
    'names: while i < names.len() {
        take_source(alloc, files, name_at(names, i), sources)?;
        i += 1;
    }
    Ok(())
}

/// A name, by its place from 0 on.
fn name_at<'a>(names: &[&'a str], i: usize) -> &'a str
    requires { i < length names.now }
    ensures { result.now ≡ get_or (words_of names.now) i [] }
{
    names[i]
}

/// Reads the named file, and puts its text behind those of the files before it. No file changes.
///
/// # Errors
///
/// `NoFile` where there is no such file, `SourceTooLong` where it is too long, `ReadFault` only where the count of faults
/// rose, and `NoMemory` where memory is refused.
#[tactic(auto, using(crate::proofs::SourceLemmas::source_taken, crate::proofs::SourceLemmas::source_refused))]
fn take_source<F: Files>(
    alloc: Global,
    files: &mut F,
    name: &str,
    sources: &mut Sources,
) -> Result<(), Outcome>
    requires { length sources.old < source_count }
    ensures grown { OnOk result (length sources.new ≡ length sources.old + 1) }
    ensures read { OnOk result (IfSome (F.held files.old) (TakesSource name.now sources.old sources.new)) }
    ensures refusal { IfErr result (λ outcome. RefusesSource name.now (length sources.old) outcome (F.held files.old)) }
    ensures kept { WhileTold (F.held files.old) (F.held files.new) SameFiles }
    ensures unbuilt { IfErr result (λ outcome. built_of outcome ≡ None) }
    ensures possible { IfErr result (λ outcome. (count : ℕ) → IsSource (length sources.old + 1) count → BuildMayEnd outcome count) }
    ensures fault { IsErrOf result Outcome.ReadFault → Rose (F.faults files.old) (F.faults files.new) }
    ensures no_write { IsErrOf result Outcome.WriteFault → ⊥ }
    ensures later { F.faults files.old ≤ F.faults files.new }
{
    match read_source(alloc, files, name) {
        Ok(text) => {
            sources.push(text.as_slice())?;
            Ok(())
        }
        Err(problem) => Err(outcome_of(sources.count() + 1, problem)),
    }
}
