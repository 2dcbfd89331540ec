//! A list of truth values, kept in bits.
ghost use Rattle.std.specs.Prelude.{◌≡◌, ◌<◌, ◌+◌, ◌/◌, ◌↔◌, IsTrue, List, Bool, true, false, length, get_or, replicate, slice_set, IfOk, IsErrOf};
ghost use Rattle.mi_model.specs.Image.{bitmap_bytes};
ghost use Rattle.mi_bitmap.specs.Bits.{bits, SpareAreClear, Again};

use crate::fault::BitmapFault;
use std::alloc::{AllocError, Global};
use std::marker::Model;

/// Which cells are marked: a list of truth values, eight to a byte.
#[derive(Drop)]
pub struct Bitmap {
    count: u32,
    bytes: Vec<u8>,
}

impl Model for Bitmap {
    ghost use Rattle.std.specs.Prelude.{List, Bool};
    ghost use Rattle.mi_bitmap.specs.Bits.{bits, IsPacked};

    ghost Value = { List Bool };

    ghost view = { λ a. bits a.bytes.items a.count };

    ghost invariant = { λ a. IsPacked a.bytes.items a.count };
}

impl Bitmap {
    /// A bitmap of `cells` cells, none of them marked. Fails only for want of memory.
    pub fn new(alloc: Global, cells: u32) -> Result<Bitmap, AllocError>
        ensures { IfOk result (λ bitmap. bitmap ≡ replicate cells false) }
    {
        let bytes = vec![in alloc; 0; cells.div_ceil(8) as usize]?;
        Ok(Bitmap {
            count: cells,
            bytes,
        })
    }

    /// The bitmap of `cells` cells that has these bytes: bit i mod 8 of byte i div 8 is cell i.
    /// Refuses a length that isn't `cells` div 8 rounded up with `WrongLength`, then a set bit
    /// behind the last cell with `SpareBits`, and last a want of memory with `NoMemory`.
    pub fn from_bytes(alloc: Global, bytes: &[u8], cells: u32) -> Result<Bitmap, BitmapFault>
        // Its list is that of the bits, and its bytes are the bytes.
        ensures list { IfOk result (λ bitmap. bitmap ≡ bits bytes.now cells) }
        ensures bytes { IfOk result (λ bitmap. bitmap_bytes bitmap ≡ bytes.now) }
        // The bytes of a list give that list again.
        ensures again { (marks : List Bool) → length marks ≡ cells → bytes.now ≡ bitmap_bytes marks → Again marks result }
        // Which refusal it is.
        ensures wrong_length { IsErrOf result BitmapFault.WrongLength ↔ ¬ (length bytes.now ≡ (cells + 7) / 8) }
        ensures spare_bits { IsErrOf result BitmapFault.SpareBits ↔ ((length bytes.now ≡ (cells + 7) / 8) × ¬ (SpareAreClear bytes.now cells)) }
    {
        if bytes.len() != cells.div_ceil(8) as usize {
            return Err(BitmapFault::WrongLength);
        }
        if has_spare(bytes, cells) {
            return Err(BitmapFault::SpareBits);
        }
        let bytes = bytes.to_vec(alloc)?;
        Ok(Bitmap {
            count: cells,
            bytes,
        })
    }

    /// How many cells there are.
    pub fn count(&self) -> u32
        ensures { result ≡ length self.now }
    {
        self.count
    }

    /// Marks a cell, and no other.
    pub fn mark(&mut self, cell: u32)
        requires { cell < length self.old }
        ensures { self.new ≡ slice_set self.old cell true }
    {
        self.bytes[(cell / 8) as usize] |= 1 << (cell % 8);
    }

    /// Takes the mark of a cell away, and no other.
    pub fn unmark(&mut self, cell: u32)
        requires { cell < length self.old }
        ensures { self.new ≡ slice_set self.old cell false }
    {
        self.bytes[(cell / 8) as usize] &= !(1 << (cell % 8));
    }

    /// Is the cell marked?
    pub fn is_marked(&self, cell: u32) -> bool
        requires { cell < length self.now }
        ensures { result ≡ get_or self.now cell false }
    {
        (self.bytes[(cell / 8) as usize] >> (cell % 8)) & 1 == 1
    }

    /// The bits as bytes: bit i mod 8 of byte i div 8 is cell i, and spare bits are 0.
    pub fn bytes(&self) -> &[u8]
        ensures { result.now ≡ bitmap_bytes self.now }
    {
        &self.bytes
    }
}

/// Is a bit behind the last cell set?
fn has_spare(bytes: &[u8], cells: u32) -> bool
    requires { length bytes.now ≡ (cells + 7) / 8 }
    ensures set { IsTrue result → ¬ (SpareAreClear bytes.now cells) }
    ensures clear { result ≡ false → SpareAreClear bytes.now cells }
{
    match bytes.last() {
        Some(last) if cells % 8 != 0 => last >> (cells % 8) != 0,
        _ => false,
    }
}
