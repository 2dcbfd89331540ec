// Which calls of an object in memory are to fail.
ghost use Rattle.std.specs.Prelude.{◌≡◌, ◌≤◌, is_ok, OnOk};
ghost use Rattle.mi_outside.specs.Causes.{HasCause, Rose};
ghost use Rattle.mi_outside.specs.Schedule.{schedule_at_first, after_call, FailsAsListed};

use crate::{Failed, Scheduled};
use std::alloc::AllocError;

#[derive(Drop)]
pub(crate) struct Plan {
    fails: Vec<u64>,
    calls: u64,
    pub(crate) faults: u64,
}

impl Scheduled for Plan {
    ghost schedule = { λ p. record { fails = p.fails.items; calls = p.calls } };
}

impl Plan {
    pub(crate) fn new(fails: Vec<u64>) -> Plan
        ensures faults { result.faults ≡ 0 }
        ensures schedule { ⟦<Plan as Scheduled>⟧.schedule result ≡ schedule_at_first fails.items }
    {
        Plan {
            fails,
            calls: 0,
            faults: 0,
        }
    }

    /// Counts a fault.
    pub(crate) fn fault(&mut self) -> Failed
        ensures later { self.old.faults ≤ self.new.faults }
        ensures rose { Rose self.old.faults self.new.faults }
        ensures schedule { ⟦<Plan as Scheduled>⟧.schedule self.new ≡ ⟦<Plan as Scheduled>⟧.schedule self.old }
    {
        self.faults = self.faults.saturating_add(1);
        Failed
    }

    /// Counts a call, which fails where its number is listed.
    #[tactic(auto, unfolding(crate::specs::Schedule::is_listed))]
    pub(crate) fn begin(&mut self) -> Result<(), Failed>
        ensures cause { HasCause self.old.faults self.new.faults result }
        ensures steady { OnOk result (self.new.faults ≡ self.old.faults) }
        ensures schedule { ⟦<Plan as Scheduled>⟧.schedule self.new
            ≡ after_call (⟦<Plan as Scheduled>⟧.schedule self.old) }
        ensures listed { FailsAsListed (⟦<Plan as Scheduled>⟧.schedule self.new) result }
    {
        self.calls = self.calls.saturating_add(1);
        if self.fails.contains(&self.calls) {
            return Err(self.fault());
        }
        Ok(())
    }

    /// Counts a fault where memory was refused.
    pub(crate) fn settle(&mut self, done: Result<(), AllocError>) -> Result<(), Failed>
        ensures outcome { is_ok result ≡ is_ok done }
        ensures cause { HasCause self.old.faults self.new.faults result }
        ensures steady { OnOk result (self.new.faults ≡ self.old.faults) }
        ensures schedule { ⟦<Plan as Scheduled>⟧.schedule self.new ≡ ⟦<Plan as Scheduled>⟧.schedule self.old }
    {
        match done {
            Ok(()) => Ok(()),
            Err(_) => Err(self.fault()),
        }
    }
}
