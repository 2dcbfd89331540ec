//! An image in memory.
ghost use Rattle.std.specs.Prelude.{◌≡◌, ◌≤◌, ◌<◌, ◌/◌, ◌%◌, ◌^◌, length, IfOk, true, false, slice_index, get_or};
ghost use Rattle.mi_model.specs.Image.{IsRegionSize, IsPairOf, IsImage};
ghost use Rattle.mi_image.specs.Cells.{blank_image, image_with, with_cell, tag_cell};

use mi_model::{Kind, Pair};
use std::alloc::{AllocError, Global};
use std::marker::Model;

/// An image: the cells of a region that are in use, and which of them are marked.
#[derive(Drop)]
pub struct Image {
    kind: Kind,
    size: u32,
    used: u32,
    pair: Pair,
    cells: Vec<u64>,
    marks: Vec<bool>,
}

impl Model for Image {
    ghost use Rattle.mi_model.specs.Image.{ImageRecord, IsImage};

    ghost Value = { ImageRecord };

    ghost view = { λ a. record {
      kind = a.kind;
      size = a.size;
      used = a.used;
      pair = a.pair;
      cells = a.cells.items;
      marks = a.marks.items;
    } };

    ghost invariant = { λ a. IsImage (record {
      kind = a.kind;
      size = a.size;
      used = a.used;
      pair = a.pair;
      cells = a.cells.items;
      marks = a.marks.items;
    }) };
}

impl Image {
    /// An image of a region of `size` bytes, the first `used` of them in use. Its cells are 0, and
    /// none of them is marked. A relocatable image has the pair 0, 0.
    pub fn new(
        alloc: Global,
        kind: Kind,
        size: u32,
        used: u32,
        pair: Pair,
    ) -> Result<Image, AllocError>
        requires size { IsRegionSize size }
        requires aligned { used % 8 ≡ 0 }
        requires least { 4096 ≤ used }
        requires most { used ≤ size }
        requires pair { IsPairOf kind pair }
        ensures { IfOk result (λ image. image ≡ blank_image kind size used pair) }
    {
        let count = (used / 8) as usize;
        let cells = vec![in alloc; 0; count]?;
        let marks = vec![in alloc; false; count]?;
        Ok(Image {
            kind,
            size,
            used,
            pair,
            cells,
            marks,
        })
    }

    /// The image with these parts.
    pub(crate) fn from_parts(
        kind: Kind,
        size: u32,
        used: u32,
        pair: Pair,
        cells: Vec<u64>,
        marks: Vec<bool>,
    ) -> Image
        requires { IsImage (image_with kind size used pair cells.items marks.items) }
        ensures { result ≡ image_with kind size used pair cells.items marks.items }
    {
        Image {
            kind,
            size,
            used,
            pair,
            cells,
            marks,
        }
    }

    /// What the image may be loaded at.
    pub fn kind(&self) -> Kind
        ensures { result ≡ self.now.kind }
    {
        self.kind
    }

    /// The size of the region, in bytes.
    pub fn size(&self) -> u32
        ensures size { result ≡ self.now.size }
        ensures within_limits { IsImage self.now }
    {
        self.size
    }

    /// How many bytes of the region are in use.
    pub fn used(&self) -> u32
        ensures { result ≡ self.now.used }
    {
        self.used
    }

    /// The pair of a fixed image, and 0, 0 for a relocatable one.
    pub fn pair(&self) -> Pair
        ensures { result ≡ self.now.pair }
    {
        self.pair
    }

    /// A cell, by its index. A marked one is an offset, or -1 - t for a tag t.
    pub fn cell(&self, cell: u32) -> u64
        requires { cell < self.now.used / 8 }
        ensures { result ≡ slice_index self.now.cells cell }
    {
        self.cells[cell as usize]
    }

    /// Is the cell marked?
    pub fn is_marked(&self, cell: u32) -> bool
        requires { cell < self.now.used / 8 }
        ensures { result ≡ get_or self.now.marks cell false }
    {
        self.marks[cell as usize]
    }

    /// The cell becomes a plain value.
    pub fn set_plain(&mut self, cell: u32, value: u64)
        requires { cell < self.old.used / 8 }
        ensures { self.new ≡ with_cell self.old cell value false }
    {
        self.cells[cell as usize] = value;
        self.marks[cell as usize] = false;
    }

    /// The cell becomes the address of an offset.
    pub fn set_offset(&mut self, cell: u32, offset: u32)
        requires cell { cell < self.old.used / 8 }
        requires relocatable { self.old.kind ≡ Kind.Relocatable }
        requires offset { offset ≤ self.old.size }
        ensures { self.new ≡ with_cell self.old cell offset true }
    {
        self.cells[cell as usize] = u64::from(offset);
        self.marks[cell as usize] = true;
    }

    /// The cell becomes the address of a tag's code.
    pub fn set_tag(&mut self, cell: u32, tag: u8)
        requires cell { cell < self.old.used / 8 }
        requires relocatable { self.old.kind ≡ Kind.Relocatable }
        requires tag { tag < 120 }
        ensures { self.new ≡ with_cell self.old cell (tag_cell tag) true }
    {
        self.cells[cell as usize] = u64::MAX - u64::from(tag);
        self.marks[cell as usize] = true;
    }

    pub(crate) fn cells(&self) -> &[u64]
        ensures { result.now ≡ self.now.cells }
    {
        &self.cells
    }

    pub(crate) fn marks(&self) -> &[bool]
        ensures marks { result.now ≡ self.now.marks }
        ensures few { length result.now < 2 ^ 32 }
    {
        &self.marks
    }
}
