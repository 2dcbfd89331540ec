//! What a build emits, in whole lines.

ghost use Rattle.std.specs.Prelude.{◌≡◌, ◌≢◌, ◌≤◌, ◌^◌, ℕ, List, Option, Some, IfOk, OnOk, OnErr, IfErr, IsErrOf};
ghost use Rattle.mi_model.specs.Image.{IsRegionSize};
ghost use Rattle.mi_outside.specs.Causes.{Rose};
ghost use Rattle.mi_outside.specs.Gathered.{last_of};
ghost use Rattle.mi_outside.specs.Telling.{IfStillTold};
ghost use Rattle.mi_outside.specs.Written.{Emits, EmitsFront};
ghost use Rattle.mi_commands.specs.declared.outcome.Outcome.TheVariants.{Built};
ghost use Rattle.mi_commands.specs.Settings.{settings_in_bytes};
ghost use Rattle.mi_commands.specs.Builds.{build_over_origins};
ghost use Rattle.mi_commands.specs.Contract.{ServesEveryPair, Gains};
ghost use Rattle.mi_commands.specs.Causes.{ComesOfTexts};
ghost use Rattle.mi_commands.specs.Claims.{Claims};
ghost use Rattle.mi_commands.specs.commands.Build.{outcome_of_fault, outcome_of_texts, image_of_texts};
ghost use Rattle.mi_commands.specs.Output.{in_lines, AddsFrontAndLine, MayAddLine};

use crate::building::build_image;
use mi_build::{BuildFault, Made, Settings, Sources};
use mi_outside::{Failed, Gathered, Sink};
use std::alloc::Global;

/// Builds the image of the sources. What the build emits is written as it comes, with a line feed behind it where its last
/// line has none.
#[tactic(auto, using(crate::proofs::ClaimLemmas::no_memory_claims, crate::proofs::ClaimLemmas::write_fault_claims, mi_outside::proofs::Writing::front_whole, crate::proofs::CutLemmas::cut_nothing))]
pub fn build_in_lines<'a, O: Sink>(
    alloc: Global,
    sources: &Sources,
    settings: &Settings<'a>,
    output: &mut O,
) -> Result<Made, BuildFault>
    requires region { IsRegionSize settings.now.size }
    requires turns { settings.now.turns ≤ 2 ^ 40 }
    ensures serves { IfOk result (λ made. ServesEveryPair made.image made.image.used made.turns (settings_in_bytes settings.now) sources.now) }
    ensures meant { IfOk result (λ made. outcome_of_texts (settings_in_bytes settings.now) sources.now ≡ Built made.image.used made.turns) }
    ensures image { IfOk result (λ made. image_of_texts (settings_in_bytes settings.now) sources.now ≡ Some made.image) }
    ensures cause { IfErr result (λ fault. ComesOfTexts (outcome_of_fault fault) (settings_in_bytes settings.now) sources.now) }
    ensures claims { IfErr result (λ fault. Claims (outcome_of_fault fault) (settings_in_bytes settings.now) sources.now) }
    ensures emits { IfOk result (λ made. Gains (O.written output.old) (O.written output.new) (in_lines (build_over_origins (settings_in_bytes settings.now) sources.now).output)) }
    ensures cut { OnErr result (IfStillTold (O.written output.old) (O.written output.new) (AddsFrontAndLine (build_over_origins (settings_in_bytes settings.now) sources.now).output)) }
    ensures whole { IfErr result (λ fault. fault ≢ BuildFault.NoMemory → fault ≢ BuildFault.WriteFault
        → Emits (O.written output.old) (O.written output.new) (in_lines (build_over_origins (settings_in_bytes settings.now) sources.now).output)) }
    ensures fault { IsErrOf result BuildFault.WriteFault → Rose (O.faults output.old) (O.faults output.new) }
    ensures later { O.faults output.old ≤ O.faults output.new }
{
    match Gathered::new(alloc) {
        Ok(mut gathered) => {
            let answer = build_image(alloc, sources, settings, output, &mut gathered);
            match end_line(gathered.last(), output) {
                Ok(()) => answer,
                Err(_) => Err(BuildFault::WriteFault),
            }
        }
        Err(_) => Err(BuildFault::NoMemory),
    }
}

/// Writes a line feed where this byte, the last that was written, is none.
#[tactic(auto, using(crate::proofs::EndLine::ended_whole, crate::proofs::EndLine::ended_now, crate::proofs::EndLine::ended_cut, crate::proofs::EndLine::failed_cut, crate::proofs::CutLemmas::cut_front, crate::proofs::StopLemmas::no_line, crate::proofs::StopLemmas::one_line, mi_outside::proofs::Writing::front_piece))]
pub fn end_line<O: Sink>(last: u8, output: &mut O) -> Result<(), Failed>
    ensures whole { (first : Option (List ℕ)) (bytes : List ℕ) → last ≡ last_of 10 bytes → Emits first (O.written output.old) bytes → OnOk result (Emits first (O.written output.new) (in_lines bytes)) }
    ensures cut { (first : Option (List ℕ)) (bytes : List ℕ) → EmitsFront first (O.written output.old) bytes → IfStillTold first (O.written output.new) (AddsFrontAndLine bytes) }
    ensures line { OnOk result (MayAddLine (O.written output.old) (O.written output.new)) }
    ensures fault { OnErr result (Rose (O.faults output.old) (O.faults output.new)) }
    ensures later { O.faults output.old ≤ O.faults output.new }
{
    if last == b'\n' {
        return Ok(());
    }
    output.write(b"\n")
}
