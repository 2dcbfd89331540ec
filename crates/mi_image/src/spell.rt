//! The image that the bytes of a file spell.
ghost use Rattle.std.specs.Prelude.{◌≡◌, ◌≤◌, ◌*◌, None, Ok, length, IfOk, IfErr};
ghost use Rattle.mi_model.specs.Image.{IsImage, image_bytes, region_cells};
ghost use Rattle.mi_bitmap.specs.Bits.{bits};
ghost use Rattle.mi_image.specs.Grammar.{marks_in, spelled, first_broken};
ghost use Rattle.mi_image.specs.Decoding.{IsUnfinished};

use crate::cells::Image;
use crate::fault::ImageFault;
use crate::judge::{is_marked, kind, number, whole_length};
use mi_model::{Kind, Pair};
use std::alloc::{AllocError, Global};

/// The image of a file of which no part is broken. Refuses bytes that end before the end of the file
/// with `Truncated`, and want of memory.
pub(crate) fn read_image(alloc: Global, bytes: &[u8]) -> Result<Image, ImageFault>
    requires header { 40 ≤ length bytes.now }
    requires allowed { first_broken bytes.now ≡ None }
    ensures spelled { IfOk result (λ image. image ≡ spelled bytes.now) }
    ensures image { IfOk result (λ image. IsImage image × (image_bytes image ≡ bytes.now)) }
    ensures refused { IfErr result (λ fault. IsUnfinished (Ok bytes.now) fault) }
{
    if bytes.len() < whole_length(bytes) {
        return Err(ImageFault::Truncated {
            place: bytes.len() as u64,
        });
    }
    let kind = kind(bytes);
    let used = number(bytes, 32) as u32;
    let pair = Pair {
        d: number(bytes, 40),
        k: number(bytes, 48),
    };
    let (_, body) = bytes.split_at(56);
    let (_, bitmap) = body.split_at(used as usize);
    let count = used as usize / 8;
    let cells = read_cells(alloc, body, count)?;
    let marks = read_marks(alloc, kind, bitmap, count)?;
    Ok(Image::from_parts(kind, number(bytes, 24) as u32, used, pair, cells, marks))
}

/// So many cells, whose bytes `body` begins with.
fn read_cells(alloc: Global, body: &[u8], count: usize) -> Result<Vec<u64>, AllocError>
    requires { 8 * count ≤ length body.now }
    ensures { IfOk result (λ cells. cells.items ≡ region_cells count body.now) }
{
    let mut cells = Vec::with_capacity(alloc, count)?;
    for i in 0..count {
        cells.push(number(body, 8 * i))?;
    }
    Ok(cells)
}

/// The marks of so many cells.
fn read_marks(
    alloc: Global,
    kind: Kind,
    bitmap: &[u8],
    count: usize,
) -> Result<Vec<bool>, AllocError>
    requires { kind ≡ Kind.Relocatable → count ≤ 8 * length bitmap.now }
    ensures { IfOk result (λ marks. marks.items ≡ marks_in kind count bitmap.now) }
{
    match kind {
        Kind::Relocatable => read_bits(alloc, bitmap, count),
        Kind::Fixed => vec![in alloc; false; count],
    }
}

/// The first so many bits of a bitmap.
fn read_bits(alloc: Global, bitmap: &[u8], count: usize) -> Result<Vec<bool>, AllocError>
    requires { count ≤ 8 * length bitmap.now }
    ensures { IfOk result (λ marks. marks.items ≡ bits bitmap.now count) }
{
    let mut marks = Vec::with_capacity(alloc, count)?;
    for i in 0..count {
        marks.push(is_marked(bitmap, i))?;
    }
    Ok(marks)
}
