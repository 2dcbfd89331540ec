//! What a run writes.

ghost use Rattle.std.specs.Prelude.{◌≡◌, ◌≤◌, ◌++◌, ◌∷◌, [], codes, IsErr, OnOk};
ghost use Rattle.std.specs.Fmt.{signed_decimal};
ghost use Rattle.mi_outside.specs.Causes.{Rose};
ghost use Rattle.mi_outside.specs.Puts.{output_of};
ghost use Rattle.mi_model.specs.Recovery.{behind_blank, recovery_text};
ghost use Rattle.mi_model.specs.Throws.{throw_text_of};
ghost use Rattle.mi_run.specs.Course.{PutsPiece};

use itoa::Buffer;
use mi_outside::{Gathered, Sink};
use mi_reloc::RunEnd;
use mi_vocab::throw_text;

/// Puts a piece of what the run emits; `WriteFault` where the output fails.
#[tactic(auto, using(mi_outside::proofs::Putting::passed, mi_outside::proofs::Putting::not_passed))]
pub fn emit<O: Sink>(output: &mut O, gathered: &mut Gathered, piece: &[u8]) -> Result<(), RunEnd>
    ensures emits { PutsPiece result (output_of (O.written output.old) gathered.old) (output_of (O.written output.new) gathered.new) piece.now }
    ensures fault { IsErr result → Rose (O.faults output.old) (O.faults output.new) }
    ensures later { O.faults output.old ≤ O.faults output.new }
{
    match gathered.put(piece, output) {
        Ok(()) => Ok(()),
        Err(_) => Err(RunEnd::WriteFault),
    }
}

/// Writes what waits to be written; `WriteFault` where the output fails.
#[tactic(auto, using(mi_outside::proofs::Putting::passed, mi_outside::proofs::Putting::not_passed))]
pub fn write_waiting<O: Sink>(output: &mut O, gathered: &mut Gathered) -> Result<(), RunEnd>
    ensures emits { PutsPiece result (output_of (O.written output.old) gathered.old) (output_of (O.written output.new) gathered.new) [] }
    ensures none_waits { OnOk result (gathered.new.waiting ≡ []) }
    ensures fault { IsErr result → Rose (O.faults output.old) (O.faults output.new) }
    ensures later { O.faults output.old ≤ O.faults output.new }
{
    match gathered.flush(output) {
        Ok(()) => Ok(()),
        Err(_) => Err(RunEnd::WriteFault),
    }
}

/// Writes what a run prints as it recovers from a throw: nothing for -1, an LF for -2, and else a line with the code and its
/// text, if it has one. `WriteFault` where the output fails.
#[tactic(auto, unfolding(mi_model::specs::Recovery::recovery_text))]
pub fn write_recovery<O: Sink>(
    output: &mut O,
    gathered: &mut Gathered,
    code: i64,
) -> Result<(), RunEnd>
    ensures emits { PutsPiece result (output_of (O.written output.old) gathered.old) (output_of (O.written output.new) gathered.new) (recovery_text code) }
    ensures fault { IsErr result → Rose (O.faults output.old) (O.faults output.new) }
    ensures later { O.faults output.old ≤ O.faults output.new }
{
    if code == -1 {
        return Ok(());
    }
    if code == -2 {
        return emit(output, gathered, b"\n");
    }
    write_throw(output, gathered, code)
}

/// Writes the line that names a throw.
fn write_throw<O: Sink>(output: &mut O, gathered: &mut Gathered, code: i64) -> Result<(), RunEnd>
    ensures emits { PutsPiece result (output_of (O.written output.old) gathered.old) (output_of (O.written output.new) gathered.new) (codes "? " ++ signed_decimal code ++ behind_blank (throw_text_of code) ++ (10 ∷ [])) }
    ensures fault { IsErr result → Rose (O.faults output.old) (O.faults output.new) }
    ensures later { O.faults output.old ≤ O.faults output.new }
{
    let mut buffer = Buffer::new();
    emit(output, gathered, b"? ")?;
    emit(output, gathered, buffer.format(code).as_bytes())?;
    write_text(output, gathered, throw_text(code))?;
    emit(output, gathered, b"\n")
}

/// Writes the text of a throw behind a blank, or nothing where it is empty.
fn write_text<O: Sink>(output: &mut O, gathered: &mut Gathered, text: &str) -> Result<(), RunEnd>
    ensures emits { PutsPiece result (output_of (O.written output.old) gathered.old) (output_of (O.written output.new) gathered.new) (behind_blank text.now) }
    ensures fault { IsErr result → Rose (O.faults output.old) (O.faults output.new) }
    ensures later { O.faults output.old ≤ O.faults output.new }
{
    if text.is_empty() {
        return Ok(());
    }
    emit(output, gathered, b" ")?;
    emit(output, gathered, text.as_bytes())
}
