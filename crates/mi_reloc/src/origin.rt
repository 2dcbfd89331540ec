//! The state of origin forms that an image gives.
ghost use Rattle.std.specs.Prelude.{◌≡◌, ℕ, ◌<◌, ◌≤◌, ◌+◌, ◌/◌, length, get_or, false, None, IfOk};
ghost use Rattle.mi_model.specs.declared.Pair.{Pair};
ghost use Rattle.mi_model.specs.Pairs.{IsAllowedPair};
ghost use Rattle.mi_model.specs.Image.{loaded};
ghost use Rattle.mi_model.specs.Stands.{Each};
ghost use Rattle.mi_model.specs.Region.{with_cell};
ghost use Rattle.mi_model.specs.Run.{machine_on};
ghost use Rattle.mi_model.specs.OriginOps.{origin_ops, ByteStands};
ghost use Rattle.mi_model.specs.Explained.{first_unexplained, image_of as image_of_region, cell_form, origin_region};
ghost use Rattle.mi_region.specs.View.{with_bytes};

use mi_arith::{Form, Origin};
use mi_image::{Image, Kind};
use mi_region::State;
use std::alloc::{AllocError, Global};

/// The state of origin forms that a relocatable image gives, which has taken no instruction. A marked cell that is an
/// offset becomes the form of the address of that offset, one that is -1 - t the form of the address of tag t's code;
/// the other cells and the bytes behind those in use are plain. The stacks are empty, and the instruction address is 0.
///
/// The image of that state is the image again (`again`), and at each pair its bytes stand for those that the image is
/// loaded as (`stands`).
pub fn origin_of(alloc: Global, image: &Image) -> Result<State<Origin>, AllocError>
    requires { image.now.kind ≡ Kind.Relocatable }
    ensures size { IfOk result (λ state. state.arith.size ≡ image.now.size) }
    ensures machine { IfOk result (λ state. state.machine ≡ machine_on (origin_ops image.now.size) (origin_region image.now)) }
    ensures again { IfOk result (λ state. image_of_region image.now.size state.machine.bytes image.now.used ≡ image.now) }
    ensures explained { IfOk result (λ state. first_unexplained image.now.size state.machine.bytes image.now.used ≡ None) }
    ensures stands { IfOk result (λ state. (pair : Pair) → IsAllowedPair pair → Each (ByteStands pair) state.machine.bytes (loaded image.now pair)) }
{
    let size = image.size();
    let mut state = State::new(alloc, Origin { size }, size)?;
    'cells: for i in 0..image.used() / 8 {
        store(&mut state, 8 * i, form_at(image, i));
    }
    Ok(state)
}

/// The form of a cell of an image.
fn form_at(image: &Image, cell: u32) -> Form
    requires { cell < image.now.used / 8 }
    ensures { result ≡ cell_form (get_or image.now.cells cell 0) (get_or image.now.marks cell false) }
{
    let size = image.size();
    let value = image.cell(cell);
    if !image.is_marked(cell) {
        return Form {
            a: 0,
            b: 0,
            c: value,
        };
    }
    if value <= u64::from(size) {
        Form {
            a: 1,
            b: 0,
            c: value,
        }
    } else {
        Form {
            a: 0,
            b: 1,
            c: 16 * (u64::MAX - value),
        }
    }
}

/// Stores a form at an offset of the region, which takes no memory.
fn store(state: &mut State<Origin>, offset: u32, form: Form)
    requires { offset + 8 ≤ length state.old.machine.bytes }
    ensures { state.new ≡ with_bytes state.old (with_cell (origin_ops state.old.arith.size) state.old.machine.bytes offset form) }
{
    match state.store_at(offset, form) {
        Ok(()) => {}
        Err(_) => unreachable!(),
    }
}
