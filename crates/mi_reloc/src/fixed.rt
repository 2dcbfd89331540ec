//! The fixed image of a region.
ghost use Rattle.std.specs.Prelude.{◌≡◌, ℕ, ◌+◌, ◌-◌, ◌≤◌, ◌<◌, ◌%◌, length, drop, get_or, replicate, IfOk};
ghost use Rattle.mi_model.specs.Image.{IsRegionSize, fixed_record, loaded};
ghost use Rattle.mi_model.specs.Pairs.{IsAllowedPair};
ghost use Rattle.mi_reloc.specs.Cells.{cell_from};

use mi_arith::Plain;
use mi_image::{Image, Kind};
use mi_region::State;
use std::alloc::{AllocError, Global};

/// The byte at an offset of the region.
#[tactic(auto, unfolding(mi_model::specs::Plain::plain_ops))]
fn byte_at(state: &State<Plain>, offset: u32) -> u8
    requires { offset < length state.now.machine.bytes }
    ensures value { result ≡ get_or state.now.machine.bytes offset 0 }
    ensures small { get_or state.now.machine.bytes offset 0 < 256 }
{
    match state.fetch_byte_at(offset) {
        Ok(byte) => byte,
        Err(_) => unreachable!(),
    }
}

/// The cell at an offset of the region.
fn cell_at(state: &State<Plain>, offset: u32) -> u64
    requires { offset + 8 ≤ length state.now.machine.bytes }
    ensures value { result ≡ cell_from state.now.machine.bytes offset }
    ensures bytes { (k : ℕ) → offset ≤ k → k < offset + 8 → get_or state.now.machine.bytes k 0 < 256 }
{
    let _ = state.size();
    u64::from_le_bytes([
        byte_at(state, offset),
        byte_at(state, offset + 1),
        byte_at(state, offset + 2),
        byte_at(state, offset + 3),
        byte_at(state, offset + 4),
        byte_at(state, offset + 5),
        byte_at(state, offset + 6),
        byte_at(state, offset + 7),
    ])
}

/// The fixed image of a region at its pair, with the first `used` bytes of the region in use. Where the others are 0,
/// loading the image gives the region back.
pub fn fixed_of(alloc: Global, state: &State<Plain>, used: u32) -> Result<Image, AllocError>
    requires size { IsRegionSize (length state.now.machine.bytes) }
    requires aligned { used % 8 ≡ 0 }
    requires least { 4096 ≤ used }
    requires most { used ≤ length state.now.machine.bytes }
    requires pair { IsAllowedPair state.now.arith.pair }
    ensures image { IfOk result (λ image. image ≡ fixed_record state.now.arith.pair used state.now.machine.bytes) }
    ensures loaded { IfOk result (λ image. drop used state.now.machine.bytes ≡ replicate (length state.now.machine.bytes - used) 0
        → loaded image image.pair ≡ state.now.machine.bytes) }
{
    let pair = state.arith().pair;
    let mut image = Image::new(alloc, Kind::Fixed, state.size(), used, pair)?;
    'cells: for i in 0..used / 8 {
        image.set_plain(i, cell_at(state, 8 * i));
    }
    Ok(image)
}
