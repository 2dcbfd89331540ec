//! Judging the bytes of an image's file, part by part.
ghost use Rattle.std.specs.Prelude.{◌≡◌, ◌≤◌, ◌<◌, ◌+◌, ◌-◌, ◌*◌, ◌/◌, ◌%◌, ◌^◌, ◌==◌, ◌||◌, true, length, get_or, drop, codes, IfOk};
ghost use Rattle.std.specs.List.{starts_with};
ghost use Rattle.mi_model.specs.Image.{region_cells};
ghost use Rattle.mi_bitmap.specs.Bits.{bit, bits};
ghost use Rattle.mi_image.specs.Grammar.{number_at, kind_of, file_length, is_data_base, is_code_base, is_cell, unless, size_fault, used_fault, bitmap_fault, cells_fault, or_else, spelled, body_rows, first_fault, first_broken};
ghost use Rattle.mi_image.specs.Decoding.{Judges};

use crate::fault::{ImageFault, Part};
use mi_model::Kind;

/// The text that a file begins with.
const MAGIC: &[u8] = b"gforthmi image 1";

/// The size of the greatest region.
const GREATEST_SIZE: u64 = 8_388_608;

/// How many tags a marked cell may stand for.
const TAGS: u64 = 120;

/// Refuses the first broken part of a file that begins with these bytes. A part is judged only if
/// all its bytes are there.
#[tactic(auto, using(std::proofs::lemmas::Bool::Decides::nat_tests), unfolding(crate::specs::Grammar::first_broken))]
pub(crate) fn judge(bytes: &[u8]) -> Result<(), ImageFault>
    ensures { Judges result (first_broken bytes.now) }
{
    let length = bytes.len();
    if length < 16 {
        return Ok(());
    }
    judge_magic(bytes)?;
    if length < 24 {
        return Ok(());
    }
    let kind = judge_kind(number(bytes, 16))?;
    if length < 32 {
        return Ok(());
    }
    let size = number(bytes, 24);
    judge_size(size)?;
    if length < 40 {
        return Ok(());
    }
    judge_used(size, number(bytes, 32))?;
    if length < 48 {
        return Ok(());
    }
    judge_data_base(kind, number(bytes, 40))?;
    if length < 56 {
        return Ok(());
    }
    judge_code_base(kind, number(bytes, 48))?;
    judge_body(bytes)
}

/// The number in the eight bytes from a place on.
pub(crate) fn number(bytes: &[u8], place: usize) -> u64
    requires { place + 8 ≤ length bytes.now }
    ensures { result ≡ number_at bytes.now place }
{
    let (_, rest) = bytes.split_at(place);
    u64::from_le_bytes(*rest.first_chunk().unwrap())
}

fn judge_magic(bytes: &[u8]) -> Result<(), ImageFault>
    ensures { Judges result (unless (starts_with ◌==◌ bytes.now (codes "gforthmi image 1")) (ImageFault.NotImage 0 Part.Magic)) }
{
    if bytes.starts_with(MAGIC) {
        Ok(())
    } else {
        Err(not_image(0, Part::Magic))
    }
}

fn judge_kind(number: u64) -> Result<Kind, ImageFault>
    ensures kind { IfOk result (λ kind. kind ≡ kind_of number) }
    ensures broken { Judges result (unless (number == 1 || number == 2) (ImageFault.NotImage 16 Part.Kind)) }
{
    match number {
        1 => Ok(Kind::Relocatable),
        2 => Ok(Kind::Fixed),
        _ => Err(not_image(16, Part::Kind)),
    }
}

fn judge_size(size: u64) -> Result<(), ImageFault>
    ensures { Judges result (size_fault size) }
{
    if size > GREATEST_SIZE {
        Err(ImageFault::TooLarge {
            part: Part::Size,
            value: size,
        })
    } else if size % 4096 == 0 && size >= 65_536 {
        Ok(())
    } else {
        Err(not_image(24, Part::Size))
    }
}

fn judge_used(size: u64, used: u64) -> Result<(), ImageFault>
    ensures { Judges result (used_fault size used) }
{
    if used > size {
        Err(ImageFault::TooLarge {
            part: Part::Used,
            value: used,
        })
    } else if used % 8 == 0 && used >= 4096 {
        Ok(())
    } else {
        Err(not_image(32, Part::Used))
    }
}

fn judge_data_base(kind: Kind, d: u64) -> Result<(), ImageFault>
    ensures { Judges result (unless (is_data_base kind d) (ImageFault.NotImage 40 Part.BaseD)) }
{
    let allowed = match kind {
        Kind::Relocatable => d == 0,
        Kind::Fixed => d % 4096 == 0 && d >= 1 << 32 && d <= (1 << 46) - (1 << 32),
    };
    if allowed {
        Ok(())
    } else {
        Err(not_image(40, Part::BaseD))
    }
}

fn judge_code_base(kind: Kind, k: u64) -> Result<(), ImageFault>
    ensures { Judges result (unless (is_code_base kind k) (ImageFault.NotImage 48 Part.BaseK)) }
{
    let allowed = match kind {
        Kind::Relocatable => k == 0,
        Kind::Fixed => k % 4096 == 0 && k >= 1 << 46 && k <= (1 << 47) - (1 << 32),
    };
    if allowed {
        Ok(())
    } else {
        Err(not_image(48, Part::BaseK))
    }
}

fn not_image(place: usize, part: Part) -> ImageFault
    ensures { result ≡ ImageFault.NotImage place part }
{
    ImageFault::NotImage {
        place: place as u64,
        part,
    }
}

/// What stands behind the header: the cells, the bitmap and the end.
#[tactic(auto, using(std::proofs::lemmas::Bool::Decides::nat_tests))]
fn judge_body(bytes: &[u8]) -> Result<(), ImageFault>
    requires header { 56 ≤ length bytes.now }
    requires least { 4096 ≤ number_at bytes.now 32 }
    requires most { number_at bytes.now 32 ≤ 2 ^ 23 }
    requires aligned { number_at bytes.now 32 % 8 ≡ 0 }
    ensures { Judges result (first_fault (length bytes.now) (body_rows bytes.now)) }
{
    let end = whole_length(bytes);
    if bytes.len() < end {
        return Ok(());
    }
    match kind(bytes) {
        Kind::Relocatable => judge_marks(bytes, end)?,
        Kind::Fixed => {}
    }
    if bytes.len() > end {
        return Err(not_image(end, Part::End));
    }
    Ok(())
}

/// The kind of the file with this header.
pub(crate) fn kind(bytes: &[u8]) -> Kind
    requires { 24 ≤ length bytes.now }
    ensures { result ≡ kind_of (number_at bytes.now 16) }
{
    if number(bytes, 16) == 2 {
        Kind::Fixed
    } else {
        Kind::Relocatable
    }
}

/// How many bytes the file with this header has.
#[tactic(auto, unfolding(crate::specs::Grammar::file_length))]
pub(crate) fn whole_length(bytes: &[u8]) -> usize
    requires header { 40 ≤ length bytes.now }
    requires most { number_at bytes.now 32 ≤ 2 ^ 23 }
    ensures { result ≡ file_length bytes.now }
{
    let used = number(bytes, 32) as usize;
    let bitmap = match kind(bytes) {
        Kind::Relocatable => (used / 8).div_ceil(8),
        Kind::Fixed => 0,
    };
    56 + used + bitmap
}

/// The bitmap, and the marked cells of a relocatable image.
fn judge_marks(bytes: &[u8], end: usize) -> Result<(), ImageFault>
    requires header { 56 ≤ length bytes.now }
    requires least { 4096 ≤ number_at bytes.now 32 }
    requires most { number_at bytes.now 32 ≤ 2 ^ 23 }
    requires aligned { number_at bytes.now 32 % 8 ≡ 0 }
    requires kind { kind_of (number_at bytes.now 16) ≡ Kind.Relocatable }
    requires end { end ≡ 56 + number_at bytes.now 32 + (number_at bytes.now 32 / 8 + 7) / 8 }
    requires whole { end ≤ length bytes.now }
    ensures { Judges result (or_else (bitmap_fault Kind.Relocatable (number_at bytes.now 32 / 8) (get_or bytes.now (end - 1) 0) (end - 1))
        (cells_fault (spelled bytes.now).size (spelled bytes.now).cells (spelled bytes.now).marks 56)) }
{
    let used = number(bytes, 32) as usize;
    judge_spare_bits(used / 8, bytes[end - 1], end - 1)?;
    let (_, body) = bytes.split_at(56);
    let (_, bitmap) = body.split_at(used);
    judge_cells(number(bytes, 24), body, bitmap, used / 8)
}

/// The bits behind the last cell, in the last byte of the bitmap, which stands at `place`.
fn judge_spare_bits(cells: usize, last: u8, place: usize) -> Result<(), ImageFault>
    ensures { Judges result (bitmap_fault Kind.Relocatable cells last place) }
{
    if cells % 8 == 0 || u16::from(last) < 1 << (cells % 8) {
        Ok(())
    } else {
        Err(not_image(place, Part::Bitmap))
    }
}

/// The marked ones of so many cells, whose bytes `body` begins with.
fn judge_cells(size: u64, body: &[u8], bitmap: &[u8], cells: usize) -> Result<(), ImageFault>
    requires cells { 8 * cells ≤ length body.now }
    requires bitmap { cells ≤ 8 * length bitmap.now }
    requires few { cells ≤ 2 ^ 20 }
    ensures { Judges result (cells_fault size (region_cells cells body.now) (bits bitmap.now cells) 56) }
{
    for i in 0..cells {
        if is_marked(bitmap, i) && !is_address(size, number(body, 8 * i)) {
            return Err(not_image(56 + 8 * i, Part::Cells));
        }
    }
    Ok(())
}

/// Is the cell marked?
pub(crate) fn is_marked(bitmap: &[u8], cell: usize) -> bool
    requires { cell / 8 < length bitmap.now }
    ensures { result ≡ bit bitmap.now cell }
{
    (bitmap[cell / 8] >> (cell % 8)) & 1 == 1
}

/// Is a marked cell allowed: does it stand for an offset or for a tag?
fn is_address(size: u64, cell: u64) -> bool
    ensures { result ≡ is_cell size cell true }
{
    cell <= size || cell > u64::MAX - TAGS
}
