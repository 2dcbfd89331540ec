//! What a build emits, on its way to the output.

ghost use Rattle.std.specs.Prelude.{◌≡◌, ◌≤◌, [], ◌∷◌, OnOk, IfErr};
ghost use Rattle.mi_outside.specs.Causes.{Rose};
ghost use Rattle.mi_reloc.specs.declared.building.BuildFault.TheVariants.{WriteFault};
ghost use Rattle.mi_build.specs.Puts.{PutsAll, output_of};
ghost use Rattle.mi_build.specs.Puts.{is_write_fault as is_fault_of_output};

use mi_outside::{Gathered, Sink};
use mi_reloc::BuildFault;

/// Puts an emitted byte.
#[tactic(auto, using(crate::proofs::PutLemmas::passed_all, crate::proofs::PutLemmas::passed_front))]
pub fn put_byte<O: Sink>(
    output: &mut O,
    gathered: &mut Gathered,
    byte: u8,
) -> Result<(), BuildFault>
    ensures puts { PutsAll result (output_of (O.written output.old) gathered.old) (output_of (O.written output.new) gathered.new) (byte ∷ []) }
    ensures fault { IfErr result (λ e. (e ≡ WriteFault) × Rose (O.faults output.old) (O.faults output.new)) }
    ensures later { O.faults output.old ≤ O.faults output.new }
{
    match gathered.put(&[byte], output) {
        Ok(()) => Ok(()),
        Err(_) => Err(BuildFault::WriteFault),
    }
}

/// Writes what waits.
#[tactic(auto, using(crate::proofs::PutLemmas::passed_all, crate::proofs::PutLemmas::passed_front))]
pub fn write_waiting<O: Sink>(output: &mut O, gathered: &mut Gathered) -> Result<(), BuildFault>
    ensures puts { PutsAll result (output_of (O.written output.old) gathered.old) (output_of (O.written output.new) gathered.new) [] }
    ensures none_waits { OnOk result (gathered.new.waiting ≡ []) }
    ensures fault { IfErr result (λ e. (e ≡ WriteFault) × Rose (O.faults output.old) (O.faults output.new)) }
    ensures later { O.faults output.old ≤ O.faults output.new }
{
    match gathered.flush(output) {
        Ok(()) => Ok(()),
        Err(_) => Err(BuildFault::WriteFault),
    }
}

/// Is this the fault of the output?
pub fn is_write_fault(fault: &BuildFault) -> bool
    ensures { result ≡ is_fault_of_output fault.now }
{
    match fault {
        BuildFault::WriteFault => true,
        BuildFault::Thrown { .. }
        | BuildFault::Spent { .. }
        | BuildFault::Step { .. }
        | BuildFault::NoEntry
        | BuildFault::Cell { .. }
        | BuildFault::NoMemory => false,
    }
}
