//! The report on the cases of a file.

ghost use Rattle.std.specs.Prelude.{◌≡◌, ◌+◌, ◌-◌, ◌^◌, min};

use crate::block::{Item, items_of};
use crate::case::Case;
use crate::counts::Counts;
use crate::difference::Difference;
use crate::line::{Line, read};
use std::alloc::{AllocError, Global};

/// The case that is followed, and the lines that tell what differs.
#[derive(Drop)]
struct Report<'a> {
    alloc: Global,
    path: &'a str,
    /// The name of the case, none before the first, and the number of the line of its last command.
    name: &'a str,
    command: usize,
    case: Case,
    text: String,
}

impl<'a> Report<'a> {
    /// Tells what differs at a line.
    fn tell(
        &mut self,
        number: usize,
        difference: &Difference,
        counts: &mut Counts,
    ) -> Result<(), AllocError>
        ensures counted { counts.new.differences ≡ min (counts.old.differences + 1) (2 ^ 64 - 1) }
    {
        counts.add_difference();
        let path = self.path;
        let name = self.name;
        writeln!(self.text, "{path}:{number}: {name}: {difference}")
    }

    /// Tells whether the last command's status is another one than 0 where no line wants one.
    fn settle(&mut self, counts: &mut Counts) -> Result<(), AllocError> {
        match self.case.settle() {
            Ok(()) => Ok(()),
            Err(difference) => self.tell(self.command, &difference, counts),
        }
    }

    /// Does what a line of the case says.
    fn take(&mut self, line: Line<'a>, block: Option<Vec<u8>>) -> Result<(), Difference> {
        if self.name.is_empty() {
            return Err(Difference::Unreadable("no case is begun"));
        }
        if block.is_some() && !line.takes_block() {
            return Err(Difference::Unreadable("no block is wanted"));
        }
        self.case
            .follow(line, block.unwrap_or(Vec::new(self.alloc)))
    }

    /// Does what a line says, and tells what differs.
    fn follow(&mut self, item: Item<'a>, counts: &mut Counts) -> Result<(), AllocError> {
        let Item {
            number,
            line,
            block,
        } = item;
        let line = match read(self.alloc, line) {
            Ok(line) => line,
            Err(difference) => return self.tell(number, &difference, counts),
        };
        if line.ends_command() {
            self.settle(counts)?;
        }
        match &line {
            Line::Case(name) => {
                counts.add_case();
                self.name = name;
                self.case = Case::new(self.alloc);
            }
            Line::Command(_) => {
                counts.add_command();
                self.command = number;
            }
            _ => {}
        }
        match self.take(line, block) {
            Ok(()) => Ok(()),
            Err(difference) => self.tell(number, &difference, counts),
        }
    }
}

/// Follows the cases of a file's text. The report has a line for each difference.
pub fn report_of(
    alloc: Global,
    path: &str,
    text: &str,
    counts: &mut Counts,
) -> Result<String, AllocError> {
    let mut report = Report {
        alloc,
        path,
        name: "",
        command: 0,
        case: Case::new(alloc),
        text: String::new(alloc),
    };
    for item in items_of(alloc, text)? {
        report.follow(item, counts)?;
    }
    report.settle(counts)?;
    Ok(report.text)
}
