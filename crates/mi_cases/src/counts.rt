//! How many cases and commands there were, and how much was different.

ghost use Rattle.std.specs.Prelude.{◌≡◌, ◌+◌, ◌-◌, ◌^◌, min};

use std::fmt;
use std::process::ExitCode;

#[derive(Clone, Copy, Debug, Default, PartialEq, Eq)]
pub struct Counts {
    pub cases: u64,
    pub commands: u64,
    pub differences: u64,
}

impl Counts {
    /// Counts a case.
    pub fn add_case(&mut self)
        ensures { self.new.cases ≡ min (self.old.cases + 1) (2 ^ 64 - 1) }
    {
        self.cases = self.cases.saturating_add(1);
    }

    /// Counts a command.
    pub fn add_command(&mut self)
        ensures { self.new.commands ≡ min (self.old.commands + 1) (2 ^ 64 - 1) }
    {
        self.commands = self.commands.saturating_add(1);
    }

    /// Counts a difference.
    pub fn add_difference(&mut self)
        ensures { self.new.differences ≡ min (self.old.differences + 1) (2 ^ 64 - 1) }
    {
        self.differences = self.differences.saturating_add(1);
    }

    /// Success where nothing is different.
    pub fn code(&self) -> ExitCode {
        if self.differences == 0 {
            ExitCode::SUCCESS
        } else {
            ExitCode::FAILURE
        }
    }
}

impl fmt::Display for Counts {
    fn fmt<W: fmt::Write>(&self, f: &mut fmt::Formatter<W>) -> fmt::Result {
        let Counts {
            cases,
            commands,
            differences,
        } = *self;
        write!(
            f,
            "{cases} cases, {commands} commands, {differences} different"
        )
    }
}
