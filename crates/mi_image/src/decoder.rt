//! Reading an image out of the bytes of its file, in whatever pieces they come.
ghost use Rattle.std.specs.Prelude.{◌≡◌, ◌≤◌, ◌<◌, ◌+◌, ◌++◌, None, Some, Ok, Err, List, ℕ, [], length, take, vec_capacity, IfOk, IfErr, OnOk};
ghost use Rattle.mi_model.specs.Image.{ImageRecord, IsImage, image_bytes};
ghost use Rattle.mi_image.specs.Grammar.{first_broken, file_length};
ghost use Rattle.mi_image.specs.Decoding.{IsTaken, IsRefused, IsUnfinished, Again};
ghost use Rattle.mi_image.specs.Stage.{IsHeader, IsBody, seen, Holds};

use crate::cells::Image;
use crate::fault::ImageFault;
use crate::judge::{judge, whole_length};
use crate::spell::read_image;
use std::alloc::Global;
use std::marker::Model;
use std::mem;

/// The bytes up to the end of the number of bytes in use.
const LENGTH_KNOWN: usize = 40;

/// What a decoder holds.
#[derive(Drop)]
enum Stage {
    /// The first `count` of these are the bytes so far: too few to tell how long the file is.
    Header {
        bytes: [u8; LENGTH_KNOWN],
        count: usize,
    },
    /// The bytes so far.
    Body(Vec<u8>),
    /// Why they were refused.
    Refused(ImageFault),
}

/// Reads an image out of the bytes of its file, which it is fed in pieces. Once it has refused the
/// bytes, it refuses all that follows with the same fault.
#[derive(Drop)]
pub struct Decoder {
    alloc: Global,
    stage: Stage,
}

impl Model for Decoder {
    ghost use Rattle.std.specs.Prelude.{Result, List, ℕ};
    ghost use Rattle.mi_image.specs.declared.fault.ImageFault.{ImageFault};
    ghost use Rattle.mi_image.specs.Stage.{seen, Holds};

    ghost Value = { Result (List ℕ) ImageFault };

    ghost view = { λ a. seen a.stage };

    ghost invariant = { λ a. Holds a.stage };
}

impl Decoder {
    /// A decoder that was fed no bytes. It takes no memory.
    pub fn new(alloc: Global) -> Decoder
        ensures { result ≡ Ok [] }
    {
        Decoder {
            alloc,
            stage: Stage::Header {
                bytes: [0; LENGTH_KNOWN],
                count: 0,
            },
        }
    }

    /// Takes the next bytes of the file. Refuses them where they bring the last byte of a part that
    /// isn't allowed: with `TooLarge` for a size above 8,388,608 bytes or more bytes in use than the
    /// size, else with `NotImage`, also for a byte behind the end. `NoMemory` comes only with the
    /// bytes that bring the number of bytes in use, where it and all before it is allowed: then memory
    /// for the file is taken, once.
    pub fn feed(&mut self, piece: &[u8]) -> Result<(), ImageFault>
        ensures taken { OnOk result (IsTaken self.old piece.now self.new) }
        ensures refused { IfErr result (λ fault. IsRefused self.old piece.now fault) }
        // The bytes of an image are refused only for want of memory.
        ensures image { (r : ImageRecord) (bytes rest : List ℕ) → IsImage r → self.old ≡ Ok bytes →
            image_bytes r ≡ bytes ++ piece.now ++ rest → IfErr result (λ fault. fault ≡ ImageFault.NoMemory) }
        // A refusal is kept.
        ensures kept { IfErr result (λ fault. self.new ≡ Err fault) }
    {
        let stage = mem::replace(&mut self.stage, Stage::Refused(ImageFault::NoMemory));
        match fed(self.alloc, stage, piece) {
            Ok(next) => {
                self.stage = next;
                Ok(())
            }
            Err(fault) => {
                self.stage = Stage::Refused(fault);
                Err(fault)
            }
        }
    }

    /// The image of the file, whose bytes were all fed. Refuses bytes that end before the end of the
    /// file with `Truncated` and their number. Takes memory for the image, or refuses with `NoMemory`.
    pub fn end(self) -> Result<Image, ImageFault>
        ensures image { IfOk result (λ image. IsImage image × (self ≡ Ok (image_bytes image))) }
        // The bytes of an image give that image again.
        ensures again { (r : ImageRecord) → IsImage r → self ≡ Ok (image_bytes r) → Again r result }
        ensures refused { IfErr result (λ fault. IsUnfinished self fault) }
    {
        let Decoder { alloc, stage } = self;
        match stage {
            Stage::Header { bytes: _, count } => Err(ImageFault::Truncated {
                place: count as u64,
            }),
            Stage::Body(bytes) => read_image(alloc, &bytes),
            Stage::Refused(fault) => Err(fault),
        }
    }
}

/// Different images have different bytes.
pub fn bytes_tell_images_apart()
    ensures { (r s : ImageRecord) → IsImage r → IsImage s → image_bytes r ≡ image_bytes s → r ≡ s }
{}

/// What is held after one more piece.
fn fed(alloc: Global, stage: Stage, piece: &[u8]) -> Result<Stage, ImageFault>
    requires { Holds stage }
    ensures taken { IfOk result (λ next. IsTaken (seen stage) piece.now (seen next)) }
    ensures holds { IfOk result Holds }
    ensures refused { IfErr result (λ fault. IsRefused (seen stage) piece.now fault) }
{
    match stage {
        Stage::Header { bytes, count } => fed_header(alloc, bytes, count, piece),
        Stage::Body(bytes) => fed_body(bytes, piece),
        Stage::Refused(fault) => Err(fault),
    }
}

/// The same where the length of the file isn't known yet.
fn fed_header(
    alloc: Global,
    bytes: [u8; LENGTH_KNOWN],
    count: usize,
    piece: &[u8],
) -> Result<Stage, ImageFault>
    requires { IsHeader bytes count }
    ensures taken { IfOk result (λ next. IsTaken (Ok (take count bytes)) piece.now (seen next)) }
    ensures holds { IfOk result Holds }
    ensures refused { IfErr result (λ fault. IsRefused (Ok (take count bytes)) piece.now fault) }
{
    let (front, rest) = piece.split_at(piece.len().min(LENGTH_KNOWN - count));
    let end = count + front.len();
    let bytes = with_front(bytes, count, front);
    judge(&bytes[..end])?;
    if end < LENGTH_KNOWN {
        return Ok(Stage::Header { bytes, count: end });
    }
    let mut all = Vec::with_capacity(alloc, whole_length(&bytes) + 1)?;
    all.extend_from_slice(&bytes).unwrap();
    fed_body(all, rest)
}

/// The first `count` bytes, and then these.
fn with_front(mut bytes: [u8; LENGTH_KNOWN], count: usize, front: &[u8]) -> [u8; LENGTH_KNOWN]
    requires { count + length front.now ≤ 40 }
    ensures { take (count + length front.now) result ≡ take count bytes ++ front.now }
{
    bytes[count..count + front.len()].copy_from_slice(front);
    bytes
}

/// The same where the length of the file is known.
fn fed_body(mut bytes: Vec<u8>, piece: &[u8]) -> Result<Stage, ImageFault>
    requires { IsBody bytes.items (vec_capacity bytes) }
    ensures taken { IfOk result (λ next. IsTaken (Ok bytes.items) piece.now (seen next)) }
    ensures holds { IfOk result Holds }
    ensures refused { IfErr result (λ fault. first_broken (bytes.items ++ piece.now) ≡ Some fault) }
{
    // One byte behind the end is taken too, since it is what breaks the file.
    let room = whole_length(&bytes) + 1 - bytes.len();
    let (front, _) = piece.split_at(piece.len().min(room));
    bytes.extend_from_slice(front).unwrap();
    judge(&bytes)?;
    Ok(Stage::Body(bytes))
}
