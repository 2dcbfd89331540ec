//! Reports a refusal to the output.

ghost use Rattle.std.specs.Prelude.{◌≡◌, ◌≢◌, ◌≤◌, ◌⊎◌, []};
ghost use Rattle.mi_outside.specs.Causes.{Rose};
ghost use Rattle.mi_outside.specs.Written.{Emits, EmitsFront};
ghost use Rattle.mi_commands.specs.Options.{words_of};
ghost use Rattle.mi_commands.specs.Report.{report_of};

use crate::outcome::Outcome;
use crate::report::report;
use mi_outside::Sink;
use std::alloc::Global;

/// Reports a refusal, and answers it. Whether the report can be written doesn't change that; where there is no memory
/// for it, that is reported and answered.
#[tactic(auto, using(mi_outside::proofs::Writing::front_none, mi_outside::proofs::Writing::front_piece, mi_outside::proofs::Writing::front_whole))]
pub fn refuse<O: Sink>(
    alloc: Global,
    out: &str,
    sources: &[&str],
    outcome: Outcome,
    output: &mut O,
) -> Outcome
    ensures same { (result ≡ outcome) ⊎ (result ≡ Outcome.NoMemory) }
    ensures front { EmitsFront (O.written output.old) (O.written output.new) (report_of out.now (words_of sources.now) result) }
    ensures whole { (Rose (O.faults output.old) (O.faults output.new) → ⊥)
        → Emits (O.written output.old) (O.written output.new) (report_of out.now (words_of sources.now) result) }
    ensures later { O.faults output.old ≤ O.faults output.new }
{
    let Ok(line) = report(alloc, out, sources, &outcome) else {
        return refuse_memory(output);
    };
    let _ = output.write(line.as_bytes());
    outcome
}

/// Reports that there is no memory, without taking any, and answers that.
#[tactic(auto, using(mi_outside::proofs::Writing::front_piece))]
pub fn refuse_memory<O: Sink>(output: &mut O) -> Outcome
    ensures same { result ≡ Outcome.NoMemory }
    ensures front { EmitsFront (O.written output.old) (O.written output.new) (report_of [] [] Outcome.NoMemory) }
    ensures whole { (Rose (O.faults output.old) (O.faults output.new) → ⊥)
        → Emits (O.written output.old) (O.written output.new) (report_of [] [] Outcome.NoMemory) }
    ensures later { O.faults output.old ≤ O.faults output.new }
{
    let _ = output.write(b"no memory\n");
    Outcome::NoMemory
}

/// Reports that the words are no command, and answers that. Whether the report can be written doesn't change it.
#[tactic(auto, using(mi_outside::proofs::Writing::front_piece))]
pub fn refuse_words<O: Sink>(output: &mut O) -> Outcome
    ensures same { result ≡ Outcome.Usage }
    ensures front { EmitsFront (O.written output.old) (O.written output.new) (report_of [] [] Outcome.Usage) }
    ensures whole { (Rose (O.faults output.old) (O.faults output.new) → ⊥)
        → Emits (O.written output.old) (O.written output.new) (report_of [] [] Outcome.Usage) }
    ensures later { O.faults output.old ≤ O.faults output.new }
{
    let _ = output.write(b"usage\n");
    Outcome::Usage
}
