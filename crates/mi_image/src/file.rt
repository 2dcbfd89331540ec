//! The bytes of an image's file.
ghost use Rattle.std.specs.Prelude.{◌≡◌, ◌≤◌, ◌<◌, ◌+◌, ◌-◌, ◌*◌, ◌/◌, ◌^◌, ◌++◌, ◌∷◌, ℕ, length, IfOk, OnOk};
ghost use Rattle.mi_model.specs.Image.{image_bytes, eight_bytes, cells_bytes, bit_of, bitmap_byte, bitmap_bytes, bitmap_of, header_bytes, kind_number};

use crate::cells::Image;
use byteorder::{ByteOrder, LittleEndian};
use mi_model::Kind;
use std::alloc::{AllocError, Global};

/// The bytes in front of the cells.
const HEADER: usize = 56;

/// The bytes of the image's file.
#[tactic(auto, unfolding(mi_model::specs::Image::image_bytes))]
pub fn encode(alloc: Global, image: &Image) -> Result<Vec<u8>, AllocError>
    ensures bytes { IfOk result (λ bytes. bytes.items ≡ image_bytes image.now) }
{
    let mut bytes = Vec::with_capacity(alloc, file_size(image))?;
    put_header(&mut bytes, image)?;
    put_numbers(&mut bytes, image.cells())?;
    put_marks(&mut bytes, image)?;
    Ok(bytes)
}

/// How many bytes the file has.
fn file_size(image: &Image) -> usize {
    let count = image.used() as usize / 8;
    let bitmap = match image.kind() {
        Kind::Relocatable => count.div_ceil(8),
        Kind::Fixed => 0,
    };
    HEADER + 8 * count + bitmap
}

fn put_header(bytes: &mut Vec<u8>, image: &Image) -> Result<(), AllocError>
    ensures { OnOk result (bytes.new.items ≡ bytes.old.items ++ header_bytes image.now) }
{
    bytes.extend_from_slice(b"gforthmi image 1")?;
    let pair = image.pair();
    let numbers = [
        number_of(image.kind()),
        u64::from(image.size()),
        u64::from(image.used()),
        pair.d,
        pair.k,
    ];
    put_numbers(bytes, &numbers)
}

/// The number of a kind in a file.
fn number_of(kind: Kind) -> u64
    ensures { result ≡ kind_number kind }
{
    match kind {
        Kind::Relocatable => 1,
        Kind::Fixed => 2,
    }
}

fn put_number(bytes: &mut Vec<u8>, number: u64) -> Result<(), AllocError>
    ensures { OnOk result (bytes.new.items ≡ bytes.old.items ++ eight_bytes number) }
{
    let mut eight = [0; 8];
    LittleEndian::write_u64(&mut eight, number);
    bytes.extend_from_slice(&eight)
}

fn put_numbers(bytes: &mut Vec<u8>, numbers: &[u64]) -> Result<(), AllocError>
    ensures { OnOk result (bytes.new.items ≡ bytes.old.items ++ cells_bytes numbers.now) }
{
    for number in numbers {
        put_number(bytes, *number)?;
    }
    Ok(())
}

fn put_marks(bytes: &mut Vec<u8>, image: &Image) -> Result<(), AllocError>
    ensures { let bitmap = bitmap_of image.now.kind image.now.marks in
        OnOk result (bytes.new.items ≡ bytes.old.items ++ bitmap) }
{
    match image.kind() {
        Kind::Relocatable => put_bitmap(bytes, image.marks()),
        Kind::Fixed => Ok(()),
    }
}

fn put_bitmap(bytes: &mut Vec<u8>, marks: &[bool]) -> Result<(), AllocError>
    requires { length marks.now < 2 ^ 32 }
    ensures { OnOk result (bytes.new.items ≡ bytes.old.items ++ bitmap_bytes marks.now) }
{
    for j in 0..(marks.len() + 7) / 8 {
        bytes.push(byte_of(marks, j))?;
    }
    Ok(())
}

/// The byte of the bitmap that marks the cells from 8j on.
fn byte_of(marks: &[bool], j: usize) -> u8
    requires { j < 2 ^ 32 }
    ensures { result ≡ bitmap_byte marks.now j }
{
    let cell = 8 * j;
    bit(marks, cell, 1)
        + bit(marks, cell + 1, 2)
        + bit(marks, cell + 2, 4)
        + bit(marks, cell + 3, 8)
        + bit(marks, cell + 4, 16)
        + bit(marks, cell + 5, 32)
        + bit(marks, cell + 6, 64)
        + bit(marks, cell + 7, 128)
}

/// The value of a cell's bit, where the cell is marked.
fn bit(marks: &[bool], cell: usize, value: u8) -> u8
    ensures value { result ≡ bit_of marks.now cell value }
    ensures most { result ≤ value }
{
    match marks.get(cell) {
        Some(true) => value,
        _ => 0,
    }
}
