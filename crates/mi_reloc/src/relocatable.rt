//! The relocatable image of a region of origin bytes.
ghost use Rattle.std.specs.Prelude.{◌≡◌, ℕ, ◌+◌, ◌-◌, ◌*◌, ◌/◌, ◌≤◌, ◌<◌, ◌%◌, List, length, drop, replicate, None, Some, IfOk, IsErrOf};
ghost use Rattle.mi_model.specs.declared.Pair.{Pair as BasePair};
ghost use Rattle.mi_model.specs.declared.Form.{Form as OriginForm};
ghost use Rattle.mi_model.specs.declared.Found.{Found as FoundThere};
ghost use Rattle.mi_model.specs.Pairs.{IsAllowedPair};
ghost use Rattle.mi_model.specs.Image.{ImageRecord, IsImage, IsRegionSize, loaded};
ghost use Rattle.mi_model.specs.Stands.{Each};
ghost use Rattle.mi_model.specs.OriginOps.{ByteStands};
ghost use Rattle.mi_model.specs.Explained.{first_unexplained, image_of as image_of_region, image_cell, or_found, cell_found_at};
ghost use Rattle.mi_reloc.specs.Cells.{Makes, with_found};

use mi_arith::Origin;
use mi_image::{Image, Kind};
use mi_model::{Form, Found, Pair};
use mi_region::State;
use std::alloc::{AllocError, Global};
use thiserror::Error;

/// Why a region has no relocatable image.
#[derive(Clone, Copy, Debug, PartialEq, Eq, Drop, Error)]
pub enum CellFault {
    /// The first cell in use that no cell of an image gives at every pair: its offset, and what stands there.
    #[error("the cell at offset {offset:#x} is no number, no address in the region and no address of a tag's code")]
    Cell { offset: u32, found: Found },
    /// The allocator has no memory for the image.
    #[error("out of memory")]
    NoMemory,
}

impl From<AllocError> for CellFault {
    ghost use Rattle.std.specs.Prelude.{◌≡◌};
    ghost use Rattle.mi_reloc.specs.declared.relocatable.CellFault.TheVariants.{NoMemory};

    ghost from_gives = { λ _ fault. fault ≡ NoMemory };

    fn from(_: AllocError) -> CellFault {
        CellFault::NoMemory
    }
}

/// The relocatable image of a region, with the first `used` bytes of the region in use. Where the others are 0, loading
/// the image at any pair gives the plain region that the region stands for there (`loaded`).
///
/// Refuses the first cell in use that no cell of an image gives at every pair, with `Cell`. Where a form stands there, no
/// image at all is loaded at each pair as the region there (`no_image`).
pub fn image_of(alloc: Global, state: &State<Origin>, used: u32) -> Result<Image, CellFault>
    requires size { IsRegionSize (length state.now.machine.bytes) }
    requires aligned { used % 8 ≡ 0 }
    requires least { 4096 ≤ used }
    requires most { used ≤ length state.now.machine.bytes }
    ensures image { IfOk result (λ image. image ≡ image_of_region (length state.now.machine.bytes) state.now.machine.bytes used) }
    ensures explained { IfOk result (λ _. first_unexplained (length state.now.machine.bytes) state.now.machine.bytes used ≡ None) }
    ensures cell { (offset : ℕ) (found : FoundThere) → IsErrOf result (CellFault.Cell offset found)
        → first_unexplained (length state.now.machine.bytes) state.now.machine.bytes used ≡ Some (record { offset = offset; found = found }) }
    ensures loaded { IfOk result (λ image. (pair : BasePair) (plain : List ℕ) → IsAllowedPair pair → Each (ByteStands pair) state.now.machine.bytes plain
        → drop used plain ≡ replicate (length plain - used) 0 → loaded image pair ≡ plain) }
    ensures no_image { (offset : ℕ) (x : OriginForm) → IsErrOf result (CellFault.Cell offset (Found.Form x))
        → (plain : BasePair → List ℕ) → ((pair : BasePair) → IsAllowedPair pair → Each (ByteStands pair) state.now.machine.bytes (plain pair))
        → (r : ImageRecord) → IsImage r → ¬ ((pair : BasePair) → IsAllowedPair pair → loaded r pair ≡ plain pair) }
{
    let mut image = Image::new(
        alloc,
        Kind::Relocatable,
        state.size(),
        used,
        Pair { d: 0, k: 0 },
    )?;
    'cells: for i in 0..used / 8 {
        match copy_cell(&mut image, i, state) {
            Ok(()) => {}
            Err(found) => {
                return Err(CellFault::Cell {
                    offset: 8 * i,
                    found,
                });
            }
        }
    }
    Ok(image)
}

/// Sets a cell of a relocatable image to what stands in that cell of a region of its size, or says what stands there
/// that no cell gives.
fn copy_cell(image: &mut Image, cell: u32, state: &State<Origin>) -> Result<(), Found>
    requires cell { cell < image.old.used / 8 }
    requires relocatable { image.old.kind ≡ Kind.Relocatable }
    requires size { image.old.size ≡ length state.now.machine.bytes }
    ensures { Makes result image.new (with_found image.old cell (cell_found_at image.old.size state.now.machine.bytes (8 * cell))) }
{
    let _ = image.size();
    let _ = state.size();
    match state.fetch_at(8 * cell) {
        Ok(form) => set_cell(image, cell, form),
        Err(_) => Err(Found::Mixed),
    }
}

/// Sets a cell of a relocatable image to a form, or says that no cell gives it.
fn set_cell(image: &mut Image, cell: u32, form: Form) -> Result<(), Found>
    requires cell { cell < image.old.used / 8 }
    requires relocatable { image.old.kind ≡ Kind.Relocatable }
    ensures { Makes result image.new (with_found image.old cell (or_found form (image_cell image.old.size form))) }
{
    if form.a == 0 && form.b == 0 {
        image.set_plain(cell, form.c);
    } else if form.a == 1 && form.b == 0 && form.c <= u64::from(image.size()) {
        image.set_offset(cell, form.c as u32);
    } else if form.a == 0 && form.b == 1 && form.c < 1920 && form.c % 16 == 0 {
        image.set_tag(cell, (form.c / 16) as u8);
    } else {
        return Err(Found::Form(form));
    }
    Ok(())
}
