//! The build at one base pair.

ghost use Rattle.std.specs.Prelude.{◌≡◌, ◌≤◌, ◌^◌, ℕ, [], IfOk, IsErrOf};
ghost use Rattle.mi_outside.specs.Causes.{Rose};
ghost use Rattle.mi_model.specs.Pairs.{IsAllowedPair};
ghost use Rattle.mi_model.specs.Plain.{plain_ops};
ghost use Rattle.mi_model.specs.Image.{IsRegionSize};
ghost use Rattle.mi_machine.specs.Ready.{IsTidy};
ghost use Rattle.mi_reloc.specs.declared.building.BuildFault.TheVariants.{WriteFault};
ghost use Rattle.mi_build.specs.Builds.{plain_build};
ghost use Rattle.mi_build.specs.Made.{AnswersFixed, IsImageOf};
ghost use Rattle.mi_build.specs.Puts.{KeepsLast, NoneWaits};
ghost use Rattle.mi_build.specs.Written.{EmitsAll};

use crate::building::build_over;
use crate::images::fixed_image;
use mi_arith::Plain;
use mi_machine::Machine;
use mi_model::Pair;
use mi_outside::{Gathered, Sink};
use mi_reloc::{BuildFault, Made, Settings, Sources};
use std::alloc::{AllocError, Global};

/// Builds the fixed image of the sources at a pair, and writes what the build emits to the output.
///
/// Thrown, Spent and NoEntry come exactly where the fresh build ends so, and Step and Cell never, since plain numbers refuse
/// no operation; WriteFault only where the output's count of faults rose in this call. After WriteFault and NoMemory a front
/// of what the build emits was written, and nothing else.
#[tactic(auto, using(mi_outside::proofs::Writing::front_none))]
pub fn build_fixed<'a, O: Sink>(
    alloc: Global,
    sources: &Sources,
    settings: &Settings<'a>,
    pair: Pair,
    output: &mut O,
) -> Result<Made, BuildFault>
    requires size { IsRegionSize settings.now.size }
    requires pair { IsAllowedPair pair }
    requires turns { settings.now.turns ≤ 2 ^ 40 }
    ensures size { IfOk result (λ made. made.image.size ≡ settings.now.size) }
    ensures answers { AnswersFixed result pair (plain_build pair settings.now sources.now).end }
    ensures emits { EmitsAll result (O.written output.old) (O.written output.new) (plain_build pair settings.now sources.now).output }
    ensures fault { IsErrOf result WriteFault → Rose (O.faults output.old) (O.faults output.new) }
    ensures later { O.faults output.old ≤ O.faults output.new }
{
    match Gathered::new(alloc) {
        Ok(gathered) => {
            let mut gathered = gathered;
            build_fixed_gathered(alloc, sources, settings, pair, output, &mut gathered)
        }
        Err(_) => Err(BuildFault::NoMemory),
    }
}

/// The same by a caller's gathered output, for which nothing waits.
///
/// What is emitted is gathered, and written before a line is taken, when there is much of it, and before the answer: unless
/// that is WriteFault, nothing waits then. Where all was written, the last byte that was put is the last that was emitted.
pub fn build_fixed_gathered<'a, O: Sink>(
    alloc: Global,
    sources: &Sources,
    settings: &Settings<'a>,
    pair: Pair,
    output: &mut O,
    gathered: &mut Gathered,
) -> Result<Made, BuildFault>
    requires size { IsRegionSize settings.now.size }
    requires pair { IsAllowedPair pair }
    requires turns { settings.now.turns ≤ 2 ^ 40 }
    requires none_waits { gathered.old.waiting ≡ [] }
    ensures size { IfOk result (λ made. made.image.size ≡ settings.now.size) }
    ensures answers { AnswersFixed result pair (plain_build pair settings.now sources.now).end }
    ensures emits { EmitsAll result (O.written output.old) (O.written output.new) (plain_build pair settings.now sources.now).output }
    ensures fault { IsErrOf result WriteFault → Rose (O.faults output.old) (O.faults output.new) }
    ensures later { O.faults output.old ≤ O.faults output.new }
    ensures last { KeepsLast result gathered.old.last gathered.new.last (plain_build pair settings.now sources.now).output }
    ensures none_waits { NoneWaits result gathered.new.waiting }
{
    let plain = Plain {
        pair,
        size: settings.size,
    };
    match build_over(alloc, plain, sources, settings, output, gathered) {
        Ok((machine, used, turns)) => match image_made(alloc, &machine, used, turns) {
            Ok(made) => Ok(made),
            Err(_) => Err(BuildFault::NoMemory),
        },
        Err(fault) => Err(fault),
    }
}

/// The fixed image of a plain machine that is finished, with the instructions that its sources took.
fn image_made(
    alloc: Global,
    machine: &Machine<Plain>,
    used: u32,
    turns: u64,
) -> Result<Made, AllocError>
    requires size { IsRegionSize machine.now.state.arith.size }
    requires pair { IsAllowedPair machine.now.state.arith.pair }
    requires tidy { IsTidy used (plain_ops machine.now.state.arith.pair machine.now.state.arith.size) machine.now.state.machine.bytes }
    ensures image { IfOk result (λ made. IsImageOf made machine.now.state.arith.pair machine.now.state.machine used turns) }
    ensures size { IfOk result (λ made. made.image.size ≡ machine.now.state.arith.size) }
{
    match fixed_image(alloc, machine, used) {
        Ok(image) => Ok(Made { image, turns }),
        Err(fault) => Err(fault),
    }
}
