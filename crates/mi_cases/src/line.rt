//! The lines of a case.

use crate::change::Change;
use crate::difference::Difference;
use crate::fields::{numbers, two_fields, words};
use crate::want::Want;
use std::alloc::Global;

/// Whose calls are to fail.
#[derive(Clone, Copy, Debug, PartialEq, Eq)]
pub enum Calls {
    Files,
    Input,
    Output,
}

/// What a line says.
#[derive(Drop)]
pub enum Line<'a> {
    /// Begins a case of this name.
    Case(&'a str),
    /// Has these calls fail.
    Fails(Calls, Vec<u64>),
    /// Changes a file.
    Changes(Change<'a>),
    /// Has the block as the next command's input.
    Input,
    /// Calls with these words, and wants the block as the output.
    Command(Vec<String>),
    /// Wants the last command's status to be this.
    Status(u8),
    /// Wants something of a file.
    Wants(Want<'a>),
}

impl Line<'_> {
    /// Whether the line may have a block.
    pub fn takes_block(&self) -> bool {
        matches!(
            self,
            Line::Changes(Change::File(_) | Change::Lines(..))
                | Line::Input
                | Line::Command(_)
                | Line::Wants(Want::Holds(_))
        )
    }

    /// Whether nothing is wanted of the last command any more.
    pub fn ends_command(&self) -> bool {
        matches!(self, Line::Case(_) | Line::Command(_))
    }
}

/// Reads a line.
pub fn read(alloc: Global, line: &str) -> Result<Line<'_>, Difference> {
    let (word, rest) = line.split_once(' ').unwrap_or((line, ""));
    match word {
        "case" if !rest.is_empty() => Ok(Line::Case(rest)),
        "fails" => fails(alloc, rest),
        "file" | "blanks" | "lines" | "bytes" | "cut" | "copy" => {
            Ok(Line::Changes(Change::read(alloc, word, rest)?))
        }
        "input" if rest.is_empty() => Ok(Line::Input),
        "$" => Ok(Line::Command(words_of(alloc, line, rest)?)),
        "status" => status(rest),
        _ => Ok(Line::Wants(Want::read(alloc, word, rest)?)),
    }
}

/// The words of a command: none where nothing stands behind the `$`.
fn words_of(alloc: Global, line: &str, rest: &str) -> Result<Vec<String>, Difference> {
    if line == "$" {
        return Ok(Vec::new(alloc));
    }
    Ok(words(alloc, rest)?)
}

/// Reads whose calls are to fail, and which.
fn fails(alloc: Global, rest: &str) -> Result<Line<'_>, Difference> {
    let (word, text) = two_fields(rest)?;
    let calls = match word {
        "files" => Calls::Files,
        "input" => Calls::Input,
        "output" => Calls::Output,
        _ => return Err(Difference::Unreadable("files, input or output is wanted")),
    };
    Ok(Line::Fails(calls, numbers(alloc, text)?))
}

/// Reads a status.
fn status(rest: &str) -> Result<Line<'_>, Difference> {
    match rest.parse::<u8>() {
        Ok(status) => Ok(Line::Status(status)),
        Err(_) => Err(Difference::Unreadable("a status is wanted")),
    }
}
