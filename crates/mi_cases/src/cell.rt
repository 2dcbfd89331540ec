//! The cells of an image's file.

use crate::difference::Difference;
use crate::fields;
use mi_vocab::{TAGS, name, tag_of};
use std::fmt;

/// The place of the first cell in a file.
const CELLS: usize = 56;
/// The place of the number of bytes that the cells take.
const USED: usize = 32;

/// A cell as it stands in the file. Where it is marked, it is an offset, or -1 - t for a tag t.
#[derive(Clone, Copy, Debug, PartialEq, Eq)]
pub struct Cell {
    pub is_marked: bool,
    pub value: i64,
}

impl Cell {
    /// Reads a cell from a case.
    pub fn read(kind: &str, text: &str) -> Result<Cell, Difference> {
        let (is_marked, value) = match kind {
            "plain" => (false, fields::value(text)?),
            "data" => (true, fields::value(text)?),
            "code" => match tag_of(text.as_bytes()) {
                Some(tag) => (true, -1 - i64::from(tag)),
                None => return Err(Difference::Unreadable("a word of the kernel is wanted")),
            },
            _ => return Err(Difference::Unreadable("plain, data or code is wanted")),
        };
        Ok(Cell { is_marked, value })
    }

    /// The cell at an offset of an image's file, if it has one there.
    pub fn at(file: &[u8], offset: usize) -> Option<Cell> {
        let used = usize::try_from(number_at(file, USED)?).ok()?;
        if offset % 8 != 0 || offset >= used {
            return None;
        }
        let value = number_at(file, CELLS.checked_add(offset)?)?;
        let mark = CELLS.checked_add(used)?.checked_add(offset / 64)?;
        // a fixed image has no bitmap
        let marks = file.get(mark).copied().unwrap_or(0);
        Some(Cell {
            is_marked: marks >> (offset / 8 % 8) & 1 == 1,
            value: i64::from_le_bytes(value.to_le_bytes()),
        })
    }
}

/// The number at a place of a file, the lowest of its 8 bytes first.
fn number_at(file: &[u8], place: usize) -> Option<u64> {
    let number = file.get(place..)?.first_chunk::<8>()?;
    Some(u64::from_le_bytes(*number))
}

/// The word whose tag a marked cell has.
fn word_of(value: i64) -> Option<&'static str> {
    let tag = u8::try_from(!value).ok()?;
    if tag >= TAGS {
        return None;
    }
    std::str::from_utf8(name(tag)).ok()
}

impl fmt::Display for Cell {
    fn fmt<W: fmt::Write>(&self, f: &mut fmt::Formatter<W>) -> fmt::Result {
        let value = self.value;
        if !self.is_marked {
            return write!(f, "plain {value}");
        }
        match word_of(value) {
            Some(word) => write!(f, "code {word}"),
            None => write!(f, "data {value}"),
        }
    }
}
