//! The build whose image is right at every base pair.

ghost use Rattle.std.specs.Prelude.{◌≡◌, ◌≤◌, ◌-◌, ◌^◌, ℕ, [], List, length, drop, replicate, IfOk, IfErr, IsErrOf};
ghost use Rattle.mi_outside.specs.Causes.{Rose};
ghost use Rattle.mi_model.specs.declared.Pair.{Pair as BasePair};
ghost use Rattle.mi_model.specs.declared.Form.{Form};
ghost use Rattle.mi_model.specs.declared.Found.{Found};
ghost use Rattle.mi_model.specs.declared.Found.TheVariants.{Form as AForm};
ghost use Rattle.mi_model.specs.declared.Kind.TheVariants.{Relocatable};
ghost use Rattle.mi_model.specs.Pairs.{IsAllowedPair};
ghost use Rattle.mi_model.specs.Image.{ImageRecord, IsImage, IsRegionSize, loaded};
ghost use Rattle.mi_model.specs.Stands.{Each};
ghost use Rattle.mi_model.specs.OriginOps.{origin_ops, ByteStands};
ghost use Rattle.mi_model.specs.Explained.{first_unexplained};
ghost use Rattle.mi_model.specs.Build.{RefusedStep};
ghost use Rattle.mi_model.specs.Build.BuildEnd.{Refused};
ghost use Rattle.mi_machine.specs.Ready.{IsTidy};
ghost use Rattle.mi_reloc.specs.declared.building.BuildFault.TheVariants.{Cell, WriteFault};
ghost use Rattle.mi_build.specs.Builds.{origin_build, plain_build};
ghost use Rattle.mi_build.specs.EveryPair.{EndsAt};
ghost use Rattle.mi_build.specs.Made.{Answers, CellIsTold, IsDone, IsOriginImage};
ghost use Rattle.mi_build.specs.Reached.{Reaches};
ghost use Rattle.mi_build.specs.Puts.{KeepsLast, NoneWaits};
ghost use Rattle.mi_build.specs.Written.{EmitsAll};

use crate::building::build_over;
use crate::images::origin_image;
use mi_arith::Origin;
use mi_machine::Machine;
use mi_outside::{Gathered, Sink};
use mi_reloc::{BuildFault, CellFault, Made, Settings, Sources};
use std::alloc::Global;

/// Builds the image of the sources, which is right at every base pair, and writes what the build emits to the output.
///
/// The sources are built once, over numbers that know which base addresses they stand on. Thrown, Spent, NoEntry and Step
/// come exactly where that build ends so, and Cell exactly at the first cell that no cell of an image gives at every pair,
/// where it is done. At every allowed pair the fresh plain build then ends as is answered, and an image that is made gives
/// its region there byte for byte (`every_pair`). Where an operation was refused in an instruction, the fresh build takes
/// all instructions before it, and the next one does that operation on the values of its two forms (`reached`). WriteFault
/// comes only where the output's count of faults rose in this call. After WriteFault and NoMemory a front of what the build
/// emits was written, and nothing else.
#[tactic(auto, using(mi_outside::proofs::Writing::front_none))]
pub fn build<'a, O: Sink>(
    alloc: Global,
    sources: &Sources,
    settings: &Settings<'a>,
    output: &mut O,
) -> Result<Made, BuildFault>
    requires size { IsRegionSize settings.now.size }
    requires turns { settings.now.turns ≤ 2 ^ 40 }
    ensures answers { Answers result settings.now.size (origin_build settings.now sources.now).end }
    ensures image { IfOk result (λ made. IsImage made.image × (made.image.kind ≡ Relocatable)) }
    ensures every_pair { (pair : BasePair) → IsAllowedPair pair → EndsAt result (origin_build settings.now sources.now).output pair (plain_build pair settings.now sources.now) }
    ensures no_image { (offset : ℕ) (x : Form) → IsErrOf result (Cell offset (AForm x))
        → (r : ImageRecord) → IsImage r → ¬ ((pair : BasePair) → IsAllowedPair pair → IsDone (plain_build pair settings.now sources.now).end (λ m used taken. loaded r pair ≡ m.bytes)) }
    ensures reached { (pair : BasePair) (s : RefusedStep) → IsAllowedPair pair → (origin_build settings.now sources.now).end ≡ Refused s → Reaches s pair settings.now.size sources.now settings.now.turns (origin_build settings.now sources.now).output }
    ensures emits { EmitsAll result (O.written output.old) (O.written output.new) (origin_build settings.now sources.now).output }
    ensures fault { IsErrOf result WriteFault → Rose (O.faults output.old) (O.faults output.new) }
    ensures later { O.faults output.old ≤ O.faults output.new }
{
    match Gathered::new(alloc) {
        Ok(gathered) => {
            let mut gathered = gathered;
            build_gathered(alloc, sources, settings, output, &mut gathered)
        }
        Err(_) => Err(BuildFault::NoMemory),
    }
}

/// The same by a caller's gathered output, for which nothing waits.
///
/// What is emitted is gathered, and written before a line is taken, when there is much of it, and before the answer: unless
/// that is WriteFault, nothing waits then. Where all was written, the last byte that was put is the last that was emitted.
pub fn build_gathered<'a, O: Sink>(
    alloc: Global,
    sources: &Sources,
    settings: &Settings<'a>,
    output: &mut O,
    gathered: &mut Gathered,
) -> Result<Made, BuildFault>
    requires size { IsRegionSize settings.now.size }
    requires turns { settings.now.turns ≤ 2 ^ 40 }
    requires none_waits { gathered.old.waiting ≡ [] }
    ensures answers { Answers result settings.now.size (origin_build settings.now sources.now).end }
    ensures image { IfOk result (λ made. IsImage made.image × (made.image.kind ≡ Relocatable)) }
    ensures every_pair { (pair : BasePair) → IsAllowedPair pair → EndsAt result (origin_build settings.now sources.now).output pair (plain_build pair settings.now sources.now) }
    ensures no_image { (offset : ℕ) (x : Form) → IsErrOf result (Cell offset (AForm x))
        → (r : ImageRecord) → IsImage r → ¬ ((pair : BasePair) → IsAllowedPair pair → IsDone (plain_build pair settings.now sources.now).end (λ m used taken. loaded r pair ≡ m.bytes)) }
    ensures reached { (pair : BasePair) (s : RefusedStep) → IsAllowedPair pair → (origin_build settings.now sources.now).end ≡ Refused s → Reaches s pair settings.now.size sources.now settings.now.turns (origin_build settings.now sources.now).output }
    ensures emits { EmitsAll result (O.written output.old) (O.written output.new) (origin_build settings.now sources.now).output }
    ensures fault { IsErrOf result WriteFault → Rose (O.faults output.old) (O.faults output.new) }
    ensures later { O.faults output.old ≤ O.faults output.new }
    ensures last { KeepsLast result gathered.old.last gathered.new.last (origin_build settings.now sources.now).output }
    ensures none_waits { NoneWaits result gathered.new.waiting }
{
    let origin = Origin {
        size: settings.size,
    };
    match build_over(alloc, origin, sources, settings, output, gathered) {
        Ok((machine, used, turns)) => image_made(alloc, &machine, used, turns),
        Err(fault) => Err(fault),
    }
}

/// The image of a machine over origins that is finished, with the instructions that its sources took; or the first cell in
/// use that no cell of an image gives at every pair.
fn image_made(
    alloc: Global,
    machine: &Machine<Origin>,
    used: u32,
    turns: u64,
) -> Result<Made, BuildFault>
    requires size { IsRegionSize machine.now.state.arith.size }
    requires tidy { IsTidy used (origin_ops machine.now.state.arith.size) machine.now.state.machine.bytes }
    ensures image { IfOk result (λ made. (IsOriginImage made machine.now.state.arith.size machine.now.state.machine used turns) × IsImage made.image) }
    ensures cell { IfErr result (λ e. CellIsTold e (first_unexplained machine.now.state.arith.size machine.now.state.machine.bytes used)) }
    ensures loaded { IfOk result (λ made. (pair : BasePair) (plain : List ℕ) → IsAllowedPair pair → Each (ByteStands pair) machine.now.state.machine.bytes plain
        → drop used plain ≡ replicate (length plain - used) 0 → loaded made.image pair ≡ plain) }
    ensures no_image { (offset : ℕ) (x : Form) → IsErrOf result (Cell offset (AForm x))
        → (plain : BasePair → List ℕ) → ((pair : BasePair) → IsAllowedPair pair → Each (ByteStands pair) machine.now.state.machine.bytes (plain pair))
        → (r : ImageRecord) → IsImage r → ¬ ((pair : BasePair) → IsAllowedPair pair → loaded r pair ≡ plain pair) }
{
    match origin_image(alloc, machine, used) {
        Ok(image) => Ok(Made { image, turns }),
        Err(CellFault::Cell { offset, found }) => Err(BuildFault::Cell { offset, found }),
        Err(CellFault::NoMemory) => Err(BuildFault::NoMemory),
    }
}
