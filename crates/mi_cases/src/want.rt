//! What a line wants of the files.

ghost use Rattle.std.specs.Prelude.{◌≡◌, ◌↔◌, length, IsOk};

use crate::bytes;
use crate::cell::Cell;
use crate::difference::Difference;
use crate::fields::{self, count, one_field, two_fields};
use mi_outside::MemFiles;
use std::alloc::Global;

/// What a line wants of the files.
#[derive(Drop)]
pub enum Want<'a> {
    /// Wants a file of so many bytes.
    Size(&'a str, usize),
    /// Wants a cell at an offset of an image's file.
    Cell(&'a str, usize, Cell),
    /// Wants a file to begin with these bytes.
    Starts(&'a str, Vec<u8>),
    /// Wants two files to be equal.
    Same(&'a str, &'a str),
    /// Wants a file to have the block as its text.
    Holds(&'a str),
    /// Wants no such file.
    Missing(&'a str),
}

impl<'a> Want<'a> {
    /// Reads what is wanted from its first word and what stands behind it.
    pub fn read(alloc: Global, word: &str, rest: &'a str) -> Result<Want<'a>, Difference> {
        match word {
            "size" => {
                let (name, text) = two_fields(rest)?;
                Ok(Want::Size(name, count(text)?))
            }
            "cell" => cell(rest),
            "starts" => {
                let (name, text) = two_fields(rest)?;
                Ok(Want::Starts(name, fields::bytes(alloc, text)?))
            }
            "same" => {
                let (first, second) = two_fields(rest)?;
                Ok(Want::Same(first, one_field(second)?))
            }
            "holds" => Ok(Want::Holds(one_field(rest)?)),
            "missing" => Ok(Want::Missing(one_field(rest)?)),
            _ => Err(Difference::Unreadable("no line begins so")),
        }
    }

    /// Compares the files with what is wanted.
    pub fn check(&self, alloc: Global, files: &MemFiles, block: &[u8]) -> Result<(), Difference> {
        match self {
            Want::Size(name, wanted) => check_size(alloc, file(alloc, files, name)?, *wanted),
            Want::Cell(name, offset, wanted) => {
                check_cell(alloc, file(alloc, files, name)?, *offset, *wanted)
            }
            Want::Starts(name, wanted) => {
                let file = file(alloc, files, name)?;
                bytes::check(alloc, wanted, file.get(..wanted.len()).unwrap_or(file))
            }
            Want::Same(first, second) => {
                let first = file(alloc, files, first)?;
                bytes::check(alloc, first, file(alloc, files, second)?)
            }
            Want::Holds(name) => bytes::check(alloc, block, file(alloc, files, name)?),
            Want::Missing(name) => check_missing(alloc, files, name),
        }
    }
}

/// Reads a name, an offset and a cell.
fn cell(rest: &str) -> Result<Want<'_>, Difference> {
    let (name, rest) = two_fields(rest)?;
    let (offset, rest) = two_fields(rest)?;
    let (kind, text) = two_fields(rest)?;
    Ok(Want::Cell(name, count(offset)?, Cell::read(kind, text)?))
}

/// The bytes of a file.
pub fn file<'a>(alloc: Global, files: &'a MemFiles, name: &str) -> Result<&'a [u8], Difference> {
    match files.file(name) {
        Some(file) => Ok(file),
        None => Err(Difference::NoFile(String::from_str(alloc, name)?)),
    }
}

fn check_size(alloc: Global, file: &[u8], wanted: usize) -> Result<(), Difference>
    ensures { IsOk result ↔ (length file.now ≡ wanted) }
{
    let came = file.len();
    if came == wanted {
        return Ok(());
    }
    Err(Difference::Other {
        wanted: format!(in alloc; "{wanted} bytes")?,
        came: format!(in alloc; "{came} bytes")?,
    })
}

fn check_cell(alloc: Global, file: &[u8], offset: usize, wanted: Cell) -> Result<(), Difference> {
    let came = match Cell::at(file, offset) {
        Some(came) if came == wanted => return Ok(()),
        Some(came) => format!(in alloc; "{came}")?,
        None => String::from_str(alloc, "no cell")?,
    };
    Err(Difference::Other {
        wanted: format!(in alloc; "{wanted}")?,
        came,
    })
}

fn check_missing(alloc: Global, files: &MemFiles, name: &str) -> Result<(), Difference> {
    let Some(file) = files.file(name) else {
        return Ok(());
    };
    let size = file.len();
    Err(Difference::Other {
        wanted: String::from_str(alloc, "no file")?,
        came: format!(in alloc; "one of {size} bytes")?,
    })
}
