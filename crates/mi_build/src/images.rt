//! The images of finished regions.

ghost use Rattle.std.specs.Prelude.{◌≡◌, ◌≤◌, ◌%◌, ◌-◌, ℕ, List, length, drop, replicate, None, Some, IfOk, IsErrOf};
ghost use Rattle.mi_model.specs.declared.Pair.{Pair as BasePair};
ghost use Rattle.mi_model.specs.declared.Form.{Form};
ghost use Rattle.mi_model.specs.declared.Found.{Found};
ghost use Rattle.mi_model.specs.Pairs.{IsAllowedPair};
ghost use Rattle.mi_model.specs.Plain.{plain_ops};
ghost use Rattle.mi_model.specs.OriginOps.{origin_ops, ByteStands};
ghost use Rattle.mi_model.specs.Explained.{first_unexplained, image_of as image_of_region};
ghost use Rattle.mi_model.specs.Stands.{Each};
ghost use Rattle.mi_model.specs.Image.{ImageRecord, IsImage, IsRegionSize, fixed_record, loaded};
ghost use Rattle.mi_machine.specs.Ready.{IsTidy};

use mi_arith::{Origin, Plain};
use mi_machine::Machine;
use mi_reloc::{CellFault, Image, fixed_of, image_of};
use std::alloc::{AllocError, Global};

/// The fixed image of a plain machine that is finished.
#[tactic(auto, unfolding(mi_model::specs::Image::fixed_record))]
pub fn fixed_image(alloc: Global, machine: &Machine<Plain>, used: u32) -> Result<Image, AllocError>
    requires size { IsRegionSize machine.now.state.arith.size }
    requires pair { IsAllowedPair machine.now.state.arith.pair }
    requires tidy { IsTidy used (plain_ops machine.now.state.arith.pair machine.now.state.arith.size) machine.now.state.machine.bytes }
    ensures image { IfOk result (λ image. image ≡ fixed_record machine.now.state.arith.pair used machine.now.state.machine.bytes) }
    ensures loaded { IfOk result (λ image. loaded image machine.now.state.arith.pair ≡ machine.now.state.machine.bytes) }
    ensures size { IfOk result (λ image. image.size ≡ machine.now.state.arith.size) }
{
    let _ = machine.state().size();
    let image = fixed_of(alloc, machine.state(), used)?;
    Ok(image)
}

/// The image of a machine over origins that is finished, which serves every pair; or the first cell in use that no cell of
/// an image gives at every pair.
pub fn origin_image(alloc: Global, machine: &Machine<Origin>, used: u32) -> Result<Image, CellFault>
    requires size { IsRegionSize machine.now.state.arith.size }
    requires tidy { IsTidy used (origin_ops machine.now.state.arith.size) machine.now.state.machine.bytes }
    ensures size { length machine.now.state.machine.bytes ≡ machine.now.state.arith.size }
    ensures image { IfOk result (λ image. image ≡ image_of_region machine.now.state.arith.size machine.now.state.machine.bytes used) }
    ensures within { IfOk result (λ image. IsImage image) }
    ensures explained { IfOk result (λ _. first_unexplained machine.now.state.arith.size machine.now.state.machine.bytes used ≡ None) }
    ensures cell { (offset : ℕ) (found : Found) → IsErrOf result (CellFault.Cell offset found)
        → first_unexplained machine.now.state.arith.size machine.now.state.machine.bytes used ≡ Some (record { offset = offset; found = found }) }
    ensures loaded { IfOk result (λ image. (pair : BasePair) (plain : List ℕ) → IsAllowedPair pair → Each (ByteStands pair) machine.now.state.machine.bytes plain
        → drop used plain ≡ replicate (length plain - used) 0 → loaded image pair ≡ plain) }
    ensures no_image { (offset : ℕ) (x : Form) → IsErrOf result (CellFault.Cell offset (Found.Form x))
        → (plain : BasePair → List ℕ) → ((pair : BasePair) → IsAllowedPair pair → Each (ByteStands pair) machine.now.state.machine.bytes (plain pair))
        → (r : ImageRecord) → IsImage r → ¬ ((pair : BasePair) → IsAllowedPair pair → loaded r pair ≡ plain pair) }
{
    let _ = machine.state().size();
    match image_of(alloc, machine.state(), used) {
        Ok(image) => {
            let _ = image.size();
            Ok(image)
        }
        Err(fault) => Err(fault),
    }
}
