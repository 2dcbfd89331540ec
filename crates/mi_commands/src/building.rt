//! The image of some sources: one build, which is right at every base pair.

ghost use Rattle.std.specs.Prelude.{◌≡◌, ◌≢◌, ◌≤◌, ◌^◌, [], Some, IfOk, OnErr, IfErr, IsErrOf};
ghost use Rattle.mi_model.specs.Image.{IsRegionSize};
ghost use Rattle.mi_outside.specs.Causes.{Rose};
ghost use Rattle.mi_outside.specs.Gathered.{last_of};
ghost use Rattle.mi_outside.specs.Written.{Emits, EmitsFront};
ghost use Rattle.mi_commands.specs.declared.outcome.Outcome.TheVariants.{Built};
ghost use Rattle.mi_commands.specs.Settings.{settings_in_bytes};
ghost use Rattle.mi_commands.specs.Builds.{build_over_origins};
ghost use Rattle.mi_commands.specs.Contract.{ServesEveryPair, Gains};
ghost use Rattle.mi_commands.specs.Causes.{ComesOfTexts};
ghost use Rattle.mi_commands.specs.Claims.{Claims};
ghost use Rattle.mi_commands.specs.commands.Build.{outcome_of_fault, outcome_of_texts, image_of_texts};

use mi_build::{BuildFault, Made, Settings, Sources, build_gathered};
use mi_outside::{Gathered, Sink};
use std::alloc::Global;

/// Builds the image of the sources once, over numbers that know which base addresses they stand on. What the build emits
/// is written to the output as it comes, by way of `gathered`, in which nothing waits. The image serves the sources at every
/// pair; an answer in place of one says how the fresh builds end at every pair.
pub fn build_image<'a, O: Sink>(
    alloc: Global,
    sources: &Sources,
    settings: &Settings<'a>,
    output: &mut O,
    gathered: &mut Gathered,
) -> Result<Made, BuildFault>
    requires none_waits { gathered.old.waiting ≡ [] }
    requires region { IsRegionSize settings.now.size }
    requires turns { settings.now.turns ≤ 2 ^ 40 }
    ensures serves { IfOk result (λ made. ServesEveryPair made.image made.image.used made.turns (settings_in_bytes settings.now) sources.now) }
    ensures meant { IfOk result (λ made. outcome_of_texts (settings_in_bytes settings.now) sources.now ≡ Built made.image.used made.turns) }
    ensures image { IfOk result (λ made. image_of_texts (settings_in_bytes settings.now) sources.now ≡ Some made.image) }
    ensures cause { IfErr result (λ fault. ComesOfTexts (outcome_of_fault fault) (settings_in_bytes settings.now) sources.now) }
    ensures claims { IfErr result (λ fault. Claims (outcome_of_fault fault) (settings_in_bytes settings.now) sources.now) }
    ensures emits { IfOk result (λ made. Gains (O.written output.old) (O.written output.new) (build_over_origins (settings_in_bytes settings.now) sources.now).output) }
    ensures front { OnErr result (EmitsFront (O.written output.old) (O.written output.new) (build_over_origins (settings_in_bytes settings.now) sources.now).output) }
    ensures whole { IfErr result (λ fault. fault ≢ BuildFault.NoMemory → fault ≢ BuildFault.WriteFault
        → Emits (O.written output.old) (O.written output.new) (build_over_origins (settings_in_bytes settings.now) sources.now).output) }
    ensures last { IfOk result (λ made. gathered.new.last ≡ last_of gathered.old.last (build_over_origins (settings_in_bytes settings.now) sources.now).output) }
    ensures last_refused { IfErr result (λ fault. fault ≢ BuildFault.NoMemory → fault ≢ BuildFault.WriteFault
        → gathered.new.last ≡ last_of gathered.old.last (build_over_origins (settings_in_bytes settings.now) sources.now).output) }
    ensures fault { IsErrOf result BuildFault.WriteFault → Rose (O.faults output.old) (O.faults output.new) }
    ensures later { O.faults output.old ≤ O.faults output.new }
{
    build_gathered(alloc, sources, settings, output, gathered)
}
