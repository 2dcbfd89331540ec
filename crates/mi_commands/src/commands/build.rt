//! `build`: the image of some sources, which is right at every base pair, in a file.

ghost use Rattle.std.specs.Prelude.{◌≡◌, ◌≢◌, ◌≤◌, ◌^◌, ◌⊎◌, ℕ, List, Option, false, length, None, map, string_bytes, IfSome, IfOk, OnErr, IfErr, IsErrOf};
ghost use Rattle.mi_outside.specs.Causes.{Rose};
ghost use Rattle.mi_outside.specs.Holding.{SameFiles};
ghost use Rattle.mi_outside.specs.Telling.{IfStillTold};
ghost use Rattle.mi_outside.specs.Written.{Emits};
ghost use Rattle.mi_model.specs.Image.{IsRegionSize};
ghost use Rattle.mi_commands.specs.Answered.{IsAnswered};
ghost use Rattle.mi_commands.specs.Causes.{ComesOfSources};
ghost use Rattle.mi_commands.specs.Claims.{ClaimsOfSources};
ghost use Rattle.mi_commands.specs.Command.{build_of};
ghost use Rattle.mi_commands.specs.commands.Build.{contents_of, outcome_of_fault, output_of_sources, build_bytes};
ghost use Rattle.mi_commands.specs.Contract.{IsMade, built_of, BuildsOrKeeps};
ghost use Rattle.mi_commands.specs.Limits.{source_count};
ghost use Rattle.mi_commands.specs.Options.{positional_in, words_of};
ghost use Rattle.mi_commands.specs.Outcomes.{status_of};
ghost use Rattle.mi_commands.specs.Output.{in_lines, AddsFrontAndLine, WritesFronts};
ghost use Rattle.mi_commands.specs.Outside.{outside_of};
ghost use Rattle.mi_commands.specs.Possible.{BuildMayEnd};
ghost use Rattle.mi_commands.specs.Report.{report_of};
ghost use Rattle.mi_commands.specs.Settings.{settings_in_bytes};
ghost use Rattle.mi_commands.specs.Writing.{part_of, LeavesNoPart};

use crate::lines::build_in_lines;
use crate::options::positional;
use crate::outcome::Outcome;
use crate::refusing::{refuse, refuse_memory};
use crate::sources::read_sources;
use crate::storing::{StoreFault, store};
use mi_build::{BuildFault, Made, Settings};
use mi_outside::{Files, Sink};
use std::alloc::Global;

/// Builds an image of the sources that the words behind `build` name, and stores it. Nothing is read from the input.
#[tactic(auto, using(crate::proofs::MeantLemmas::memory_refused))]
pub fn build<'a, F: Files, O: Sink>(
    alloc: Global,
    words: &[String],
    settings: &Settings<'a>,
    files: &mut F,
    output: &mut O,
) -> Outcome
    requires enough { 2 ≤ length (positional_in false (map string_bytes words.now)) }
    requires region { IsRegionSize settings.now.size }
    requires turns { settings.now.turns ≤ 2 ^ 40 }
    ensures { (left : Option (List ℕ)) (input_faults : ℕ)
        → IsAnswered (build_of (positional_in false (map string_bytes words.now)) (settings_in_bytes settings.now)) result
        (outside_of (F.held files.old) (F.faults files.old) left input_faults (O.written output.old) (O.faults output.old))
        (outside_of (F.held files.new) (F.faults files.new) left input_faults (O.written output.new) (O.faults output.new)) }
{
    match positional(alloc, words) {
        Ok(names) => build_named(alloc, names.as_slice(), settings, files, output),
        Err(_) => refuse_memory(output),
    }
}

/// Builds an image of the sources of these names, the first of which is that of the image, and stores it.
fn build_named<'a, F: Files, O: Sink>(
    alloc: Global,
    names: &[&str],
    settings: &Settings<'a>,
    files: &mut F,
    output: &mut O,
) -> Outcome
    requires enough { 2 ≤ length (words_of names.now) }
    requires region { IsRegionSize settings.now.size }
    requires turns { settings.now.turns ≤ 2 ^ 40 }
    ensures { (left : Option (List ℕ)) (input_faults : ℕ)
        → IsAnswered (build_of (words_of names.now) (settings_in_bytes settings.now)) result
        (outside_of (F.held files.old) (F.faults files.old) left input_faults (O.written output.old) (O.faults output.old))
        (outside_of (F.held files.new) (F.faults files.new) left input_faults (O.written output.new) (O.faults output.new)) }
{
    match names.split_first() {
        Some((out, sources)) => build_sources(alloc, out, sources, settings, files, output),
        None => unreachable!(),
    }
}

/// Builds an image and stores it.
#[tactic(auto, using(crate::proofs::ClaimLemmas::reported_claims, crate::proofs::ClaimLemmas::unstored_claims, crate::proofs::ClaimLemmas::made_claims, crate::proofs::PossibleLemmas::reported_may_end, crate::proofs::PossibleLemmas::unstored_may_end))]
fn build_sources<'a, F: Files, O: Sink>(
    alloc: Global,
    out: &str,
    sources: &[&str],
    settings: &Settings<'a>,
    files: &mut F,
    output: &mut O,
) -> Outcome
    requires region { IsRegionSize settings.now.size }
    requires turns { settings.now.turns ≤ 2 ^ 40 }
    ensures cause { ComesOfSources result (settings_in_bytes settings.now) (words_of sources.now) (F.held files.old) }
    ensures exact { BuildMayEnd result (length (words_of sources.now)) }
    ensures does { BuildsOrKeeps (built_of result) result out.now (words_of sources.now) (settings_in_bytes settings.now)
        (F.held files.old) (F.held files.new) (O.written output.old) (O.written output.new) }
    ensures part { (Rose (F.faults files.old) (F.faults files.new) → ⊥)
        → IfStillTold (F.held files.old) (F.held files.new) (LeavesNoPart (part_of out.now)) }
    ensures claims { ClaimsOfSources result (settings_in_bytes settings.now) (words_of sources.now) (F.held files.old) }
    ensures writes { IfSome (F.held files.old) (λ old. WritesFronts (O.written output.old) (O.written output.new)
        (build_bytes out.now (words_of sources.now) (settings_in_bytes settings.now) (contents_of old (words_of sources.now))) (report_of out.now (words_of sources.now) result)) }
    ensures writes_all { result ≢ Outcome.NoMemory
        → (Rose (F.faults files.old) (F.faults files.new) → ⊥) → (Rose (O.faults output.old) (O.faults output.new) → ⊥)
        → IfSome (F.held files.old) (λ old. Emits (O.written output.old) (O.written output.new)
        (build_bytes out.now (words_of sources.now) (settings_in_bytes settings.now) (contents_of old (words_of sources.now)))) }
    ensures written { status_of result ≡ 0 → IfSome (F.held files.old) (λ old. Emits (O.written output.old) (O.written output.new)
        (build_bytes out.now (words_of sources.now) (settings_in_bytes settings.now) (contents_of old (words_of sources.now)))) }
    ensures read_fault { result ≡ Outcome.ReadFault → Rose (F.faults files.old) (F.faults files.new) }
    ensures write_fault { result ≡ Outcome.WriteFault
        → Rose (F.faults files.old) (F.faults files.new) ⊎ Rose (O.faults output.old) (O.faults output.new) }
{
    match make(alloc, sources, settings, files, output) {
        Err(outcome) => refuse(alloc, out, sources, outcome, output),
        Ok(made) => {
            let built = Outcome::Built {
                used: made.image.used(),
                turns: made.turns,
            };
            match store(alloc, out, sources, &made.image, &built, files, output) {
                Err(fault) => refuse(alloc, out, sources, outcome_unstored(fault), output),
                Ok(()) => built,
            }
        }
    }
}

/// Reads the sources and makes their image, and writes what their build emits. No file changes.
#[tactic(auto, using(crate::proofs::LineLemmas::read_cut, crate::proofs::LineLemmas::read_whole, crate::proofs::CauseLemmas::refusal_comes, crate::proofs::CauseLemmas::texts_refused, crate::proofs::ClaimLemmas::refusal_claims, crate::proofs::ClaimLemmas::texts_claim, crate::proofs::PossibleLemmas::texts_may_end))]
fn make<'a, F: Files, O: Sink>(
    alloc: Global,
    sources: &[&str],
    settings: &Settings<'a>,
    files: &mut F,
    output: &mut O,
) -> Result<Made, Outcome>
    requires region { IsRegionSize settings.now.size }
    requires turns { settings.now.turns ≤ 2 ^ 40 }
    ensures made { IfOk result (λ made. (texts : List (List ℕ))
        × IsMade (words_of sources.now) texts (settings_in_bytes settings.now) made.image made.image.used made.turns
        (F.held files.old) (O.written output.old) (O.written output.new)) }
    ensures kept { IfStillTold (F.held files.old) (F.held files.new) SameFiles }
    ensures cause { IfErr result (λ outcome. ComesOfSources outcome (settings_in_bytes settings.now) (words_of sources.now) (F.held files.old)) }
    ensures possible { IfErr result (λ outcome. BuildMayEnd outcome (length (words_of sources.now))) }
    ensures few { IfOk result (λ _. length (words_of sources.now) ≤ source_count) }
    ensures claims { IfErr result (λ outcome. ClaimsOfSources outcome (settings_in_bytes settings.now) (words_of sources.now) (F.held files.old)) }
    ensures cut { OnErr result (IfSome (F.held files.old) (λ old. IfStillTold (O.written output.old) (O.written output.new)
        (AddsFrontAndLine (output_of_sources (settings_in_bytes settings.now) (contents_of old (words_of sources.now)))))) }
    ensures whole { IfErr result (λ outcome. outcome ≢ Outcome.NoMemory → outcome ≢ Outcome.ReadFault → outcome ≢ Outcome.WriteFault
        → IfSome (F.held files.old) (λ old. Emits (O.written output.old) (O.written output.new)
        (in_lines (output_of_sources (settings_in_bytes settings.now) (contents_of old (words_of sources.now)))))) }
    ensures unbuilt { IfErr result (λ outcome. built_of outcome ≡ None) }
    ensures read_fault { IsErrOf result Outcome.ReadFault → Rose (F.faults files.old) (F.faults files.new) }
    ensures write_fault { IsErrOf result Outcome.WriteFault → Rose (O.faults output.old) (O.faults output.new) }
    ensures later { F.faults files.old ≤ F.faults files.new }
    ensures output_later { O.faults output.old ≤ O.faults output.new }
{
    match read_sources(alloc, files, sources) {
        Ok(texts) => match build_in_lines(alloc, &texts, settings, output) {
            Ok(made) => Ok(made),
            Err(fault) => Err(outcome_of(fault)),
        },
        Err(outcome) => Err(outcome),
    }
}

/// The outcome of a build that has made no image.
fn outcome_of(fault: BuildFault) -> Outcome
    ensures outcome { result ≡ outcome_of_fault fault }
    ensures memory { result ≡ Outcome.NoMemory → fault ≡ BuildFault.NoMemory }
    ensures write { result ≡ Outcome.WriteFault → fault ≡ BuildFault.WriteFault }
    ensures unbuilt { built_of result ≡ None }
    ensures no_read { result ≢ Outcome.ReadFault }
{
    match fault {
        BuildFault::Thrown { code, file, line } => Outcome::Thrown { code, file, line },
        BuildFault::Spent { turns } => Outcome::Spent { turns },
        BuildFault::Step {
            number,
            offset,
            tag,
            first,
            second,
            why,
            file,
            line,
        } => Outcome::Step {
            number,
            offset,
            tag,
            first,
            second,
            why,
            file,
            line,
        },
        BuildFault::NoEntry => Outcome::NoEntry,
        BuildFault::Cell { offset, found } => Outcome::Cell { offset, found },
        BuildFault::WriteFault => Outcome::WriteFault,
        BuildFault::NoMemory => Outcome::NoMemory,
    }
}

/// The outcome of a build whose image was not stored.
fn outcome_unstored(refusal: StoreFault) -> Outcome
    ensures refusal { (result ≡ Outcome.NoMemory) ⊎ (result ≡ Outcome.WriteFault) }
    ensures write { result ≡ Outcome.WriteFault → refusal ≡ StoreFault.WriteFault }
{
    match refusal {
        StoreFault::NoMemory => Outcome::NoMemory,
        StoreFault::WriteFault => Outcome::WriteFault,
    }
}
