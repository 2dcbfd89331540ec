//! What a line does to the files.

use crate::difference::Difference;
use crate::fields::{bytes, count, one_field, two_fields};
use std::alloc::Global;

/// What a line does to the files.
#[derive(Drop)]
pub enum Change<'a> {
    /// Puts the block as a file.
    File(&'a str),
    /// Puts a file of so many blanks.
    Blanks(&'a str, usize),
    /// Puts a file in which the block stands so often.
    Lines(&'a str, usize),
    /// Writes bytes into a file, from a place on.
    Bytes(&'a str, usize, Vec<u8>),
    /// Cuts a file to its first bytes.
    Cut(&'a str, usize),
    /// Puts a file once more, under another name.
    Copy(&'a str, &'a str),
}

impl<'a> Change<'a> {
    /// Reads a change from its first word and what stands behind it.
    pub fn read(alloc: Global, word: &str, rest: &'a str) -> Result<Change<'a>, Difference> {
        if word == "file" {
            return Ok(Change::File(one_field(rest)?));
        }
        let (name, text) = two_fields(rest)?;
        match word {
            "blanks" => Ok(Change::Blanks(name, count(text)?)),
            "lines" => Ok(Change::Lines(name, count(text)?)),
            "cut" => Ok(Change::Cut(name, count(text)?)),
            "copy" => Ok(Change::Copy(name, one_field(text)?)),
            _ => {
                let (place, text) = two_fields(text)?;
                Ok(Change::Bytes(name, count(place)?, bytes(alloc, text)?))
            }
        }
    }
}
