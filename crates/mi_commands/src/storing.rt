//! Stores an image and reports it: the part is written, then the report, and then the part takes the place of the file.

ghost use Rattle.std.specs.Prelude.{◌≡◌, ◌≢◌, ◌≤◌, ◌⊎◌, OnOk, OnErr, IsErrOf};
ghost use Rattle.mi_model.specs.Image.{image_bytes};
ghost use Rattle.mi_outside.specs.Causes.{Rose};
ghost use Rattle.mi_outside.specs.Holding.{SameFilesBut};
ghost use Rattle.mi_outside.specs.Telling.{IfStillTold};
ghost use Rattle.mi_outside.specs.Written.{EmitsFront};
ghost use Rattle.mi_commands.specs.Options.{words_of};
ghost use Rattle.mi_commands.specs.Contract.{Gains};
ghost use Rattle.mi_commands.specs.Report.{report_of};
ghost use Rattle.mi_commands.specs.Writing.{part_of, LeavesNoPart, IsInPlace};

use crate::outcome::Outcome;
use crate::report::report;
use crate::writing::{discard, part_name, put_in_place, write_part};
use mi_image::{Image, encode};
use mi_outside::{Failed, Files, Sink};
use std::alloc::{AllocError, Global};

/// Why an image was not stored.
#[derive(Clone, Copy, Debug, PartialEq, Eq, Drop)]
pub enum StoreFault {
    /// Memory was refused.
    NoMemory,
    /// A call on the files or the output failed.
    WriteFault,
}

impl From<AllocError> for StoreFault {
    ghost use Rattle.std.specs.Prelude.{◌≡◌};
    ghost use Rattle.mi_commands.specs.declared.storing.StoreFault.TheVariants.{NoMemory};

    ghost from_gives = { λ _ fault. fault ≡ NoMemory };

    fn from(_: AllocError) -> StoreFault {
        StoreFault::NoMemory
    }
}

/// Makes the file `out` the file of the image, and writes the report of this outcome to the output. No other file
/// changes.
///
/// # Errors
///
/// `WriteFault` only where the count of faults of the files or of the output rose, and `NoMemory` where memory is
/// refused. Then no file but the part changed, and that one is gone or as it was, unless the count of faults of the files
/// rose.
#[tactic(auto, using(mi_outside::proofs::Writing::front_none, crate::proofs::PartLemmas::part_untouched, crate::proofs::PartLemmas::part_removed))]
pub fn store<F: Files, O: Sink>(
    alloc: Global,
    out: &str,
    sources: &[&str],
    image: &Image,
    outcome: &Outcome,
    files: &mut F,
    output: &mut O,
) -> Result<(), StoreFault>
    ensures stored { OnOk result (IfStillTold (F.held files.old) (F.held files.new)
        (IsInPlace (part_of out.now) out.now (image_bytes image.now))) }
    ensures reported { OnOk result (Gains (O.written output.old) (O.written output.new)
        (report_of out.now (words_of sources.now) outcome.now)) }
    ensures front { OnErr result (EmitsFront (O.written output.old) (O.written output.new)
        (report_of out.now (words_of sources.now) outcome.now)) }
    ensures kept { OnErr result (IfStillTold (F.held files.old) (F.held files.new) (SameFilesBut (part_of out.now))) }
    ensures part { OnErr result ((Rose (F.faults files.old) (F.faults files.new) → ⊥)
        → IfStillTold (F.held files.old) (F.held files.new) (LeavesNoPart (part_of out.now))) }
    ensures fault { IsErrOf result StoreFault.WriteFault
        → Rose (F.faults files.old) (F.faults files.new) ⊎ Rose (O.faults output.old) (O.faults output.new) }
    ensures later { F.faults files.old ≤ F.faults files.new }
    ensures output_later { O.faults output.old ≤ O.faults output.new }
{
    let bytes = encode(alloc, image)?;
    let part = part_name(alloc, out)?;
    let line = report(alloc, out, sources, outcome)?;
    match place(
        out,
        part.as_str(),
        bytes.as_slice(),
        line.as_bytes(),
        files,
        output,
    ) {
        Ok(()) => Ok(()),
        Err(_) => {
            discard(files, part.as_str());
            Err(StoreFault::WriteFault)
        }
    }
}

/// Writes the part and the line, and puts the part in place.
///
/// # Errors
///
/// `Failed` only where the count of faults of the files or of the output rose. Then no file but the part changed.
#[tactic(auto, using(mi_outside::proofs::Writing::front_none, mi_outside::proofs::Writing::front_piece, mi_outside::proofs::Writing::front_whole))]
fn place<F: Files, O: Sink>(
    out: &str,
    part: &str,
    bytes: &[u8],
    line: &[u8],
    files: &mut F,
    output: &mut O,
) -> Result<(), Failed>
    requires { part.now ≢ out.now }
    ensures stored { OnOk result (IfStillTold (F.held files.old) (F.held files.new)
        (IsInPlace part.now out.now bytes.now)) }
    ensures reported { OnOk result (Gains (O.written output.old) (O.written output.new) line.now) }
    ensures front { OnErr result (EmitsFront (O.written output.old) (O.written output.new) line.now) }
    ensures kept { OnErr result (IfStillTold (F.held files.old) (F.held files.new)
        (SameFilesBut part.now)) }
    ensures cause { OnErr result
        (Rose (F.faults files.old) (F.faults files.new) ⊎ Rose (O.faults output.old) (O.faults output.new)) }
    ensures later { F.faults files.old ≤ F.faults files.new }
    ensures output_later { O.faults output.old ≤ O.faults output.new }
{
    write_part(files, part, bytes)?;
    output.write(line)?;
    put_in_place(files, part, out)
}
