//! Comparing bytes.

ghost use Rattle.std.specs.Prelude.{◌≡◌, ◌↔◌, IsOk};

use crate::difference::Difference;
use std::alloc::{AllocError, Global};
use std::fmt;

/// At most so many bytes are printed.
const LIMIT: usize = 500;

/// Bytes as they are printed: on one line, in quotes.
#[derive(Clone, Copy)]
pub struct Shown<'a>(pub &'a [u8]);

impl fmt::Display for Shown<'_> {
    fn fmt<W: fmt::Write>(&self, f: &mut fmt::Formatter<W>) -> fmt::Result {
        let shown = self.0.get(..LIMIT).unwrap_or(self.0).escape_ascii();
        write!(f, "\"{shown}\"")?;
        if self.0.len() > LIMIT {
            write!(f, " ..")?;
        }
        Ok(())
    }
}

/// How many bytes two texts have in common at their front.
fn front_of(first: &[u8], second: &[u8]) -> usize {
    first.iter().zip(second).take_while(|(a, b)| a == b).count()
}

/// The place at which the line begins that has a place of a text.
fn line_start(text: &[u8], place: usize) -> usize {
    let front = text.get(..place).unwrap_or(text);
    match front.iter().rposition(|byte| *byte == b'\n') {
        Some(last) => last.saturating_add(1),
        None => 0,
    }
}

/// Tells two texts apart: both are shown from the start of the line on in which they differ first.
pub fn check(alloc: Global, wanted: &[u8], came: &[u8]) -> Result<(), Difference>
    ensures { IsOk result ↔ (wanted.now ≡ came.now) }
{
    if wanted == came {
        return Ok(());
    }
    let start = line_start(wanted, front_of(wanted, came));
    Err(Difference::Other {
        wanted: shown_from(alloc, wanted, start)?,
        came: shown_from(alloc, came, start)?,
    })
}

/// The bytes from a place on, as they are printed.
fn shown_from(alloc: Global, text: &[u8], start: usize) -> Result<String, AllocError> {
    let shown = Shown(text.get(start..).unwrap_or(&[]));
    if start == 0 {
        return format!(in alloc; "{shown}");
    }
    format!(in alloc; "{shown} at {start}")
}
