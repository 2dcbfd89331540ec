//! A build over any arithmetic: the seed, the prelude, the sources, the end of the input, and the finish.

ghost use Rattle.std.specs.Prelude.{◌≡◌, ◌≤◌, ◌<◌, ◌^◌, ℕ, [], ◌++◌, length, None, Some, IfOk, IfErr, OnOk, IsErrOf};
ghost use Rattle.std.specs.Option.{option_copied};
ghost use Rattle.mi_outside.specs.Causes.{Rose};
ghost use Rattle.mi_model.specs.Outcome.{outcome_of};
ghost use Rattle.mi_model.specs.Lines.{last_line_count};
ghost use Rattle.mi_model.specs.Seed.{blank_machine, at_loop};
ghost use Rattle.mi_model.specs.Seed as seeds;
ghost use Rattle.mi_model.specs.Finish as endings;
ghost use Rattle.mi_model.specs.Tokens.{first_token};
ghost use Rattle.mi_model.specs.Image.{IsRegionSize};
ghost use Rattle.mi_model.specs.Kernel.{whole_kernel};
ghost use Rattle.mi_model.specs.Build.{prelude_budget, prelude_done, prelude_emitted, sources_done, input_done, input_emitted, stop_from, emitted_from, end_halted, end_of, fresh_build};
ghost use Rattle.mi_machine.specs.Ready.{IsTidy};
ghost use Rattle.mi_machine.specs.declared.machine.Stop.TheVariants.{Halted};
ghost use Rattle.mi_reloc.specs.declared.building.BuildFault.TheVariants.{WriteFault, NoMemory};
ghost use Rattle.mi_build.specs.Course.{progress_of, Stops, StopsWith, HaltsWith, Ends, EndsWith, emitted_before_end};
ghost use Rattle.mi_build.specs.Written.{EmitsAll};
ghost use Rattle.mi_build.specs.Puts.{PutsAll, KeepsLast, NoneWaits, output_of};
ghost use Rattle.mi_build.specs.Made.{IsSeeded};

use crate::course::{
    Pause, Position, fault_of, next_number, run_end, run_on, run_sources, run_text, taken,
};
use crate::putting::{is_write_fault, write_waiting};
use crate::steps::take_finish;
use mi_arith::Arith;
use mi_kernel::{prelude, seed};
use mi_machine::{Finished, Machine};
use mi_outside::{Gathered, Sink};
use mi_region::State;
use mi_reloc::{BuildFault, Settings, Sources};
use mi_text::count_lines;
use std::alloc::Global;

/// How many instructions the prelude may take.
#[tactic(auto, unfolding(mi_model::specs::Build::prelude_budget))]
fn prelude_turns() -> u64
    ensures value { result ≡ prelude_budget }
    ensures most { result ≤ 2 ^ 40 }
{
    1_000_000
}

/// A machine on the seed.
pub fn start<A: Arith>(alloc: Global, arith: A, size: u32) -> Result<Machine<A>, BuildFault>
    requires region { IsRegionSize size }
    requires same { size ≡ A.size arith }
    ensures seeded { IfOk result (λ machine. IsSeeded (outcome_of (A.ops arith) (seeds.seed whole_kernel) (blank_machine (A.ops arith) size) []) (λ m. machine.state.machine ≡ at_loop (A.ops arith) m)) }
    ensures arith { IfOk result (λ machine. machine.state.arith ≡ arith) }
    ensures stop { IfOk result (λ machine. machine.stop ≡ None) }
    ensures last { IfOk result (λ machine. machine.last ≡ first_token) }
    ensures memory { IfErr result (λ e. e ≡ NoMemory) }
{
    let mut state = State::new(alloc, arith, size)?;
    match seed(&mut state) {
        Ok(()) => Ok(Machine::new(state)),
        Err(_) => Err(BuildFault::NoMemory),
    }
}

/// Interprets the prelude.
#[tactic(auto, using(crate::proofs::CourseLemmas::told_on_wait, crate::proofs::CourseLemmas::fault_emits, crate::proofs::PutLemmas::front_more, crate::proofs::PutLemmas::lost_more), unfolding(mi_model::specs::Build::prelude_done, mi_model::specs::Build::prelude_emitted))]
fn run_prelude<A: Arith, O: Sink>(
    machine: &mut Machine<A>,
    at: &mut Position,
    output: &mut O,
    gathered: &mut Gathered,
) -> Result<Pause, BuildFault>
    requires going { machine.old.stop ≡ None }
    requires first { machine.old.last ≡ first_token }
    ensures stops { Stops result machine.new prelude_budget at.new (prelude_done whole_kernel (A.ops machine.old.state.arith) prelude_budget machine.old.state.machine) }
    ensures arith { OnOk result (machine.new.state.arith ≡ machine.old.state.arith) }
    ensures puts { PutsAll result (output_of (O.written output.old) gathered.old) (output_of (O.written output.new) gathered.new) (prelude_emitted whole_kernel (A.ops machine.old.state.arith) prelude_budget machine.old.state.machine) }
    ensures fault { IsErrOf result WriteFault → Rose (O.faults output.old) (O.faults output.new) }
    ensures later { O.faults output.old ≤ O.faults output.new }
{
    let turns = prelude_turns();
    *at = Position {
        left: turns,
        file: 0,
        line: 0,
    };
    match run_on(machine, turns, at, false, output, gathered) {
        Ok(Pause::Wanting) => run_text(machine, turns, at, 0, prelude(), output, gathered),
        Ok(Pause::Halting) => Ok(Pause::Halting),
        Err(fault) => Err(fault),
    }
}

/// Interprets the prelude and then the sources; answers the budget that runs, too.
#[tactic(auto, using(crate::proofs::CourseLemmas::told_on_wait, crate::proofs::CourseLemmas::fault_emits, crate::proofs::PutLemmas::front_more, crate::proofs::PutLemmas::lost_more), unfolding(crate::specs::Course::emitted_before_end))]
fn run_all<A: Arith, O: Sink>(
    machine: &mut Machine<A>,
    at: &mut Position,
    sources: &Sources,
    turns: u64,
    output: &mut O,
    gathered: &mut Gathered,
) -> Result<(Pause, u64), BuildFault>
    requires going { machine.old.stop ≡ None }
    requires first { machine.old.last ≡ first_token }
    requires turns { turns ≤ 2 ^ 40 }
    ensures stops { StopsWith result machine.new at.new (sources_done whole_kernel (A.ops machine.old.state.arith) sources.now turns (prelude_done whole_kernel (A.ops machine.old.state.arith) prelude_budget machine.old.state.machine)) }
    ensures budget { IfOk result (λ r. r.1 ≤ 2 ^ 40) }
    ensures arith { OnOk result (machine.new.state.arith ≡ machine.old.state.arith) }
    ensures puts { PutsAll result (output_of (O.written output.old) gathered.old) (output_of (O.written output.new) gathered.new) (emitted_before_end (A.ops machine.old.state.arith) sources.now turns machine.old.state.machine) }
    ensures fault { IsErrOf result WriteFault → Rose (O.faults output.old) (O.faults output.new) }
    ensures later { O.faults output.old ≤ O.faults output.new }
{
    match run_prelude(machine, at, output, gathered) {
        Ok(Pause::Wanting) => {
            at.left = turns;
            match run_sources(machine, turns, at, sources, output, gathered) {
                Ok(pause) => Ok((pause, turns)),
                Err(fault) => Err(fault),
            }
        }
        Ok(Pause::Halting) => Ok((Pause::Halting, prelude_turns())),
        Err(fault) => Err(fault),
    }
}

/// Interprets the prelude and the sources, and ends the input; the machine then has halted. Answers the budget that runs.
#[tactic(auto, using(crate::proofs::CourseLemmas::told_on_wait, crate::proofs::CourseLemmas::fault_emits, crate::proofs::PutLemmas::front_more, crate::proofs::PutLemmas::lost_more, crate::proofs::PutLemmas::puts_then))]
fn run_whole<A: Arith, O: Sink>(
    machine: &mut Machine<A>,
    at: &mut Position,
    sources: &Sources,
    turns: u64,
    output: &mut O,
    gathered: &mut Gathered,
) -> Result<u64, BuildFault>
    requires going { machine.old.stop ≡ None }
    requires first { machine.old.last ≡ first_token }
    requires turns { turns ≤ 2 ^ 40 }
    ensures stops { HaltsWith result machine.new at.new (stop_from whole_kernel (A.ops machine.old.state.arith) sources.now prelude_budget turns machine.old.state.machine) }
    ensures budget { IfOk result (λ budget. budget ≤ 2 ^ 40) }
    ensures arith { OnOk result (machine.new.state.arith ≡ machine.old.state.arith) }
    ensures puts { PutsAll result (output_of (O.written output.old) gathered.old) (output_of (O.written output.new) gathered.new)
        (emitted_before_end (A.ops machine.old.state.arith) sources.now turns machine.old.state.machine
        ++ input_emitted whole_kernel (A.ops machine.old.state.arith) (sources_done whole_kernel (A.ops machine.old.state.arith) sources.now turns (prelude_done whole_kernel (A.ops machine.old.state.arith) prelude_budget machine.old.state.machine))) }
    ensures fault { IsErrOf result WriteFault → Rose (O.faults output.old) (O.faults output.new) }
    ensures later { O.faults output.old ≤ O.faults output.new }
{
    match run_all(machine, at, sources, turns, output, gathered) {
        Ok((Pause::Wanting, budget)) => match run_end(machine, budget, at, output, gathered) {
            Ok(()) => Ok(budget),
            Err(fault) => Err(fault),
        },
        Ok((Pause::Halting, budget)) => Ok(budget),
        Err(fault) => Err(fault),
    }
}

/// How many lines the last text has.
#[tactic(auto, using(crate::proofs::TextLemmas::last_lines, crate::proofs::TextLemmas::no_lines))]
fn last_lines(sources: &Sources) -> u32
    ensures { result ≡ last_line_count sources.now }
{
    let count = sources.count();
    if count == 0 {
        return 0;
    }
    count_lines(sources.text(count - 1))
}

/// The finish of a machine that has halted; answers the offset behind what is in use, and how many instructions were
/// taken of the budget.
fn finish<'a, A: Arith>(
    machine: &mut Machine<A>,
    budget: u64,
    at: &Position,
    sources: &Sources,
    entry: Option<&'a [u8]>,
) -> Result<(u32, u64), BuildFault>
    requires halted { machine.old.stop ≡ Some Halted }
    requires budget { budget ≤ 2 ^ 40 }
    ensures ends { Ends result machine.new (end_halted sources.now (progress_of budget at.now machine.old) (outcome_of (A.ops machine.old.state.arith) (endings.finish (option_copied entry.entry)) machine.old.state.machine [])) }
    ensures arith { OnOk result (machine.new.state.arith ≡ machine.old.state.arith) }
    ensures tidy { IfOk result (λ r. IsTidy r.0 (A.ops machine.old.state.arith) machine.new.state.machine.bytes) }
    ensures no_fault { IsErrOf result WriteFault → ⊥ }
{
    match take_finish(machine, entry) {
        Ok(Finished::Ready { used }) => Ok((used, taken(budget, at))),
        Ok(Finished::NoEntry) => Err(BuildFault::NoEntry),
        Err(failure) => {
            let last = Position {
                left: at.left,
                file: sources.count(),
                line: last_lines(sources),
            };
            Err(fault_of(failure, &last, next_number(budget, at)))
        }
    }
}

/// The build of the sources on a machine that stands on the seed; answers the offset behind what is in use, and how many
/// instructions the sources took.
#[tactic(auto, using(crate::proofs::CourseLemmas::told_ends, crate::proofs::PutLemmas::front_whole), unfolding(crate::specs::Course::emitted_before_end))]
pub fn run_build<'a, A: Arith, O: Sink>(
    machine: &mut Machine<A>,
    sources: &Sources,
    settings: &Settings<'a>,
    output: &mut O,
    gathered: &mut Gathered,
) -> Result<(u32, u64), BuildFault>
    requires going { machine.old.stop ≡ None }
    requires first { machine.old.last ≡ first_token }
    requires turns { settings.now.turns ≤ 2 ^ 40 }
    ensures ends { Ends result machine.new (end_of (A.ops machine.old.state.arith) sources.now (option_copied settings.now.entry) (stop_from whole_kernel (A.ops machine.old.state.arith) sources.now prelude_budget settings.now.turns machine.old.state.machine)) }
    ensures arith { OnOk result (machine.new.state.arith ≡ machine.old.state.arith) }
    ensures tidy { IfOk result (λ r. IsTidy r.0 (A.ops machine.old.state.arith) machine.new.state.machine.bytes) }
    ensures puts { PutsAll result (output_of (O.written output.old) gathered.old) (output_of (O.written output.new) gathered.new) (emitted_from whole_kernel (A.ops machine.old.state.arith) sources.now prelude_budget settings.now.turns machine.old.state.machine) }
    ensures fault { IsErrOf result WriteFault → Rose (O.faults output.old) (O.faults output.new) }
    ensures later { O.faults output.old ≤ O.faults output.new }
{
    let mut at = Position {
        left: 0,
        file: 0,
        line: 0,
    };
    match run_whole(machine, &mut at, sources, settings.turns, output, gathered) {
        Ok(budget) => finish(machine, budget, &at, sources, settings.entry),
        Err(fault) => Err(fault),
    }
}

/// The same, with all that it emits written: nothing waits for the output then.
#[tactic(auto, using(crate::proofs::PutLemmas::all_written, crate::proofs::PutLemmas::fault_written, crate::proofs::PutLemmas::last_known, crate::proofs::PutLemmas::write_fault, crate::proofs::PutLemmas::answer_last, crate::proofs::PutLemmas::answer_waits))]
fn run_written<'a, A: Arith, O: Sink>(
    machine: &mut Machine<A>,
    sources: &Sources,
    settings: &Settings<'a>,
    output: &mut O,
    gathered: &mut Gathered,
) -> Result<(u32, u64), BuildFault>
    requires going { machine.old.stop ≡ None }
    requires first { machine.old.last ≡ first_token }
    requires turns { settings.now.turns ≤ 2 ^ 40 }
    requires none_waits { gathered.old.waiting ≡ [] }
    ensures ends { Ends result machine.new (end_of (A.ops machine.old.state.arith) sources.now (option_copied settings.now.entry) (stop_from whole_kernel (A.ops machine.old.state.arith) sources.now prelude_budget settings.now.turns machine.old.state.machine)) }
    ensures arith { OnOk result (machine.new.state.arith ≡ machine.old.state.arith) }
    ensures tidy { IfOk result (λ r. IsTidy r.0 (A.ops machine.old.state.arith) machine.new.state.machine.bytes) }
    ensures emits { EmitsAll result (O.written output.old) (O.written output.new) (emitted_from whole_kernel (A.ops machine.old.state.arith) sources.now prelude_budget settings.now.turns machine.old.state.machine) }
    ensures last { KeepsLast result gathered.old.last gathered.new.last (emitted_from whole_kernel (A.ops machine.old.state.arith) sources.now prelude_budget settings.now.turns machine.old.state.machine) }
    ensures none_waits { NoneWaits result gathered.new.waiting }
    ensures fault { IsErrOf result WriteFault → Rose (O.faults output.old) (O.faults output.new) }
    ensures later { O.faults output.old ≤ O.faults output.new }
{
    match run_build(machine, sources, settings, output, gathered) {
        Ok(end) => match write_waiting(output, gathered) {
            Ok(()) => Ok(end),
            Err(_) => Err(BuildFault::WriteFault),
        },
        Err(fault) => {
            if is_write_fault(&fault) {
                return Err(BuildFault::WriteFault);
            }
            match write_waiting(output, gathered) {
                Ok(()) => Err(fault),
                Err(_) => Err(BuildFault::WriteFault),
            }
        }
    }
}

/// A build of the sources from the seed on; answers the machine that is finished, the offset behind what is in use, and how
/// many instructions the sources took.
#[tactic(auto, using(crate::proofs::EveryPairLemmas::built_end, crate::proofs::EveryPairLemmas::built_output, mi_outside::proofs::Writing::front_none))]
pub fn build_over<'a, A: Arith, O: Sink>(
    alloc: Global,
    arith: A,
    sources: &Sources,
    settings: &Settings<'a>,
    output: &mut O,
    gathered: &mut Gathered,
) -> Result<(Machine<A>, u32, u64), BuildFault>
    requires size { IsRegionSize settings.now.size }
    requires same { settings.now.size ≡ A.size arith }
    requires turns { settings.now.turns ≤ 2 ^ 40 }
    requires none_waits { gathered.old.waiting ≡ [] }
    ensures ends { EndsWith result (fresh_build whole_kernel (A.ops arith) settings.now.size sources.now (option_copied settings.now.entry) settings.now.turns).end }
    ensures arith { IfOk result (λ r. r.0.state.arith ≡ arith) }
    ensures tidy { IfOk result (λ r. IsTidy r.1 (A.ops arith) r.0.state.machine.bytes) }
    ensures emits { EmitsAll result (O.written output.old) (O.written output.new) (fresh_build whole_kernel (A.ops arith) settings.now.size sources.now (option_copied settings.now.entry) settings.now.turns).output }
    ensures last { KeepsLast result gathered.old.last gathered.new.last (fresh_build whole_kernel (A.ops arith) settings.now.size sources.now (option_copied settings.now.entry) settings.now.turns).output }
    ensures none_waits { NoneWaits result gathered.new.waiting }
    ensures fault { IsErrOf result WriteFault → Rose (O.faults output.old) (O.faults output.new) }
    ensures later { O.faults output.old ≤ O.faults output.new }
{
    match start(alloc, arith, settings.size) {
        Ok(machine) => {
            let mut machine = machine;
            match run_written(&mut machine, sources, settings, output, gathered) {
                Ok((used, turns)) => Ok((machine, used, turns)),
                Err(fault) => Err(fault),
            }
        }
        Err(fault) => Err(fault),
    }
}
