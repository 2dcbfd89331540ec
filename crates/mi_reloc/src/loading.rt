//! The state of an image at a pair.
ghost use Rattle.std.specs.Prelude.{◌≡◌, ◌≢◌, ◌↔◌, ◌<◌, ◌≤◌, ◌+◌, ◌/◌, length, get_or, false, IfOk, IsErrOf};
ghost use Rattle.mi_model.specs.declared.Pair.{Pair};
ghost use Rattle.mi_model.specs.declared.Kind.TheVariants.{Fixed};
ghost use Rattle.mi_model.specs.Image.{loaded, loaded_cell};
ghost use Rattle.mi_model.specs.Pairs.{IsAllowedPair};
ghost use Rattle.mi_model.specs.Plain.{plain_ops};
ghost use Rattle.mi_model.specs.Region.{with_cell};
ghost use Rattle.mi_model.specs.Run.{machine_on};
ghost use Rattle.mi_region.specs.View.{with_bytes};

use mi_arith::{Pair, Plain};
use mi_form::is_allowed;
use mi_image::{Image, Kind};
use mi_region::State;
use std::alloc::{AllocError, Global};
use thiserror::Error;

/// Why an image isn't loaded at a pair.
#[derive(Clone, Copy, Debug, PartialEq, Eq, Drop, Error)]
pub enum LoadFault {
    /// No image may stand at the pair.
    #[error("no image may stand at this base pair")]
    PairNotAllowed,
    /// The image is a fixed one, of this other pair.
    #[error("the image is made for the base pair {d:#x}, {k:#x}", d = .0.d, k = .0.k)]
    MadeFor(Pair),
    /// The allocator has no memory for the state.
    #[error("out of memory")]
    NoMemory,
}

impl From<AllocError> for LoadFault {
    ghost use Rattle.std.specs.Prelude.{◌≡◌};
    ghost use Rattle.mi_reloc.specs.declared.loading.LoadFault.TheVariants.{NoMemory};

    ghost from_gives = { λ _ fault. fault ≡ NoMemory };

    fn from(_: AllocError) -> LoadFault {
        LoadFault::NoMemory
    }
}

/// The state of an image loaded at a pair, which has taken no instruction. A marked cell that is an offset becomes the
/// address of that offset, one that is -1 - t the address of tag t's code; the other cells are as they are in the image,
/// and the bytes behind those in use are 0. The stacks are empty, and the instruction address is 0.
///
/// Refuses a pair at which no image may stand with `PairNotAllowed`, then a fixed image of another pair with `MadeFor`
/// that pair, and last a want of memory with `NoMemory`.
pub fn load(alloc: Global, image: &Image, pair: Pair) -> Result<State<Plain>, LoadFault>
    ensures arith { IfOk result (λ state. state.arith ≡ record { pair = pair; size = image.now.size }) }
    ensures machine { IfOk result (λ state. state.machine ≡ machine_on (plain_ops pair image.now.size) (loaded image.now pair)) }
    ensures pair_not_allowed { IsErrOf result LoadFault.PairNotAllowed ↔ ¬ (IsAllowedPair pair) }
    ensures made_for { (other : Pair) → IsErrOf result (LoadFault.MadeFor other)
        ↔ (IsAllowedPair pair × (image.now.kind ≡ Fixed) × (image.now.pair ≢ pair) × (other ≡ image.now.pair)) }
{
    if !is_allowed(pair) {
        return Err(LoadFault::PairNotAllowed);
    }
    if image.kind() == Kind::Fixed && image.pair() != pair {
        return Err(LoadFault::MadeFor(image.pair()));
    }
    Ok(state_of(alloc, image, pair)?)
}

/// The state of an image at an allowed pair.
fn state_of(alloc: Global, image: &Image, pair: Pair) -> Result<State<Plain>, AllocError>
    requires { IsAllowedPair pair }
    ensures arith { IfOk result (λ state. state.arith ≡ record { pair = pair; size = image.now.size }) }
    ensures machine { IfOk result (λ state. state.machine ≡ machine_on (plain_ops pair image.now.size) (loaded image.now pair)) }
{
    let size = image.size();
    let mut state = State::new(alloc, Plain { pair, size }, size)?;
    'cells: for i in 0..image.used() / 8 {
        store(&mut state, 8 * i, cell_at(image, pair, i));
    }
    Ok(state)
}

/// What a cell of an image is at an allowed pair.
fn cell_at(image: &Image, pair: Pair, cell: u32) -> u64
    requires pair { IsAllowedPair pair }
    requires cell { cell < image.now.used / 8 }
    ensures { result ≡ loaded_cell pair (get_or image.now.cells cell 0) (get_or image.now.marks cell false) }
{
    let size = image.size();
    let value = image.cell(cell);
    if !image.is_marked(cell) {
        return value;
    }
    if value <= u64::from(size) {
        pair.d + value
    } else {
        pair.k + 16 * (u64::MAX - value)
    }
}

/// Stores a cell at an offset of the region, which takes no memory.
fn store(state: &mut State<Plain>, offset: u32, value: u64)
    requires { offset + 8 ≤ length state.old.machine.bytes }
    ensures { state.new ≡ with_bytes state.old (with_cell (plain_ops state.old.arith.pair state.old.arith.size) state.old.machine.bytes offset value) }
{
    match state.store_at(offset, value) {
        Ok(()) => {}
        Err(_) => unreachable!(),
    }
}
