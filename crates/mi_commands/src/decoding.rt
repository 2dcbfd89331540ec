//! The image of a file, which is read piece by piece.

ghost use Rattle.std.specs.Prelude.{◌≡◌, ◌≢◌, ◌<◌, ◌≤◌, ◌^◌, length, None, IfOk, IfErr, IfSome, IsErrOf, IsOk, IsTrue};
ghost use Rattle.mi_outside.specs.Causes.{Rose};
ghost use Rattle.mi_outside.specs.Telling.{WhileTold};
ghost use Rattle.mi_commands.specs.commands.Run.{outcome_of_image_fault};
ghost use Rattle.mi_commands.specs.Possible.{ImageMayEnd};
ghost use Rattle.mi_commands.specs.Decoding.{fed, ReadsImage, DecodesRest, FeedsPiece};

use crate::outcome::Outcome;
use mi_image::{Decoder, Image, ImageFault};
use mi_outside::Files;
use std::alloc::Global;

/// How many bytes are asked for at a time.
const BUFFER_SIZE: usize = 65_536;

/// The outcome where the bytes of the file are refused as those of an image.
fn outcome_of(fault: ImageFault) -> Outcome
    ensures outcome { result ≡ outcome_of_image_fault 1 fault }
    ensures possible { ImageMayEnd result }
    ensures no_fault { (result ≢ Outcome.ReadFault) × (result ≢ Outcome.WriteFault) }
{
    match fault {
        ImageFault::NotImage { place, part } => Outcome::NotImage {
            file: 1,
            place,
            part,
        },
        ImageFault::Truncated { place } => Outcome::Truncated { file: 1, place },
        ImageFault::TooLarge { part, value } => Outcome::TooLarge {
            file: 1,
            part,
            value,
        },
        ImageFault::NoMemory => Outcome::NoMemory,
    }
}

/// The image of the named file. No file changes, and none is being read.
///
/// # Errors
///
/// `NoFile` where there is no such file. Else `NotImage` or `TooLarge` for the first part that isn't allowed, as soon as it
/// is read, and `Truncated` where the file ends early; its number is 1. `ReadFault` comes only where the count of faults
/// rose, and `NoMemory` where memory is refused.
#[tactic(auto, using(crate::proofs::DecodingSteps::ended_told, crate::proofs::ReadingSteps::ended_reading))]
pub fn read_image<F: Files>(alloc: Global, files: &mut F, name: &str) -> Result<Image, Outcome>
    ensures read { WhileTold (F.held files.old) (F.held files.new) (ReadsImage result name.now) }
    ensures fault { IsErrOf result Outcome.ReadFault → Rose (F.faults files.old) (F.faults files.new) }
    ensures no_write { IsErrOf result Outcome.WriteFault → ⊥ }
    ensures ended { IfSome (F.held files.new) (λ now. now.reading ≡ None) }
    ensures possible { IfErr result ImageMayEnd }
    ensures later { F.faults files.old ≤ F.faults files.new }
{
    let answer = decode_file(alloc, files, name);
    files.end_read();
    answer
}

/// Begins to read the file, and decodes it.
#[tactic(auto, using(crate::proofs::DecodingSteps::begun_told, crate::proofs::DecodingSteps::none_told, crate::proofs::DecodingSteps::failed_told, crate::proofs::DecodingSteps::unread))]
fn decode_file<F: Files>(alloc: Global, files: &mut F, name: &str) -> Result<Image, Outcome>
    ensures read { WhileTold (F.held files.old) (F.held files.new) (ReadsImage result name.now) }
    ensures fault { IsErrOf result Outcome.ReadFault → Rose (F.faults files.old) (F.faults files.new) }
    ensures no_write { IsErrOf result Outcome.WriteFault → ⊥ }
    ensures possible { IfErr result ImageMayEnd }
    ensures later { F.faults files.old ≤ F.faults files.new }
{
    let mut buffer = vec![in alloc; 0; BUFFER_SIZE]?;
    match files.begin_read(name) {
        Ok(true) => decode_rest(alloc, files, buffer.as_mut_slice()),
        Ok(false) => Err(Outcome::NoFile { file: 1 }),
        Err(_) => Err(Outcome::ReadFault),
    }
}

/// Decodes the file that is being read to its end, a buffer at a time.
fn decode_rest<F: Files>(alloc: Global, files: &mut F, buffer: &mut [u8]) -> Result<Image, Outcome>
    requires { 0 < length buffer.old }
    ensures read { WhileTold (F.held files.old) (F.held files.new) (DecodesRest result) }
    ensures fault { IsErrOf result Outcome.ReadFault → Rose (F.faults files.old) (F.faults files.new) }
    ensures no_write { IsErrOf result Outcome.WriteFault → ⊥ }
    ensures possible { IfErr result ImageMayEnd }
    ensures later { F.faults files.old ≤ F.faults files.new }
{
    let mut decoder = Decoder::new(alloc);
    'pieces: while feed_piece(files, buffer, &mut decoder)? {}
    match decoder.end() {
        Ok(image) => Ok(image),
        Err(fault) => Err(outcome_of(fault)),
    }
}

/// Feeds the next piece of the file to the decoder, which has refused none. False means that the end is reached.
#[tactic(auto, using(crate::proofs::DecodingSteps::end_told, crate::proofs::DecodingSteps::failure_told, crate::proofs::DecodingSteps::taken_ok))]
fn feed_piece<F: Files>(
    files: &mut F,
    buffer: &mut [u8],
    decoder: &mut Decoder,
) -> Result<bool, Outcome>
    requires room { 0 < length buffer.old }
    requires feeding { IsOk decoder.old }
    ensures read { WhileTold (F.held files.old) (F.held files.new) (FeedsPiece result (fed decoder.old) (fed decoder.new)) }
    ensures feeding { IfOk result (λ _. IsOk decoder.new) }
    ensures grown { IfOk result (λ more. IsTrue more → length (fed decoder.old) < length (fed decoder.new)) }
    ensures most { IfOk result (λ more. IsTrue more → length (fed decoder.new) ≤ 2 ^ 24) }
    ensures fault { IsErrOf result Outcome.ReadFault → Rose (F.faults files.old) (F.faults files.new) }
    ensures no_write { IsErrOf result Outcome.WriteFault → ⊥ }
    ensures possible { IfErr result ImageMayEnd }
    ensures later { F.faults files.old ≤ F.faults files.new }
    ensures room { length buffer.new ≡ length buffer.old }
{
    match files.read(buffer) {
        Ok(0) => Ok(false),
        Ok(count) => match decoder.feed(&buffer[..count]) {
            Ok(()) => Ok(true),
            Err(fault) => Err(outcome_of(fault)),
        },
        Err(_) => Err(Outcome::ReadFault),
    }
}
