//! The fields of a line.

use crate::difference::Difference;
use std::alloc::{AllocError, Global};

/// The two fields that a blank parts.
pub fn two_fields(text: &str) -> Result<(&str, &str), Difference> {
    text.split_once(' ')
        .ok_or(Difference::Unreadable("one more field is wanted"))
}

/// The one field that a text is.
pub fn one_field(text: &str) -> Result<&str, Difference> {
    if text.is_empty() || text.contains(' ') {
        return Err(Difference::Unreadable("one field is wanted"));
    }
    Ok(text)
}

/// A number of bytes.
pub fn count(text: &str) -> Result<usize, Difference> {
    match text.parse::<u32>() {
        Ok(count) => Ok(count as usize),
        Err(_) => Err(Difference::Unreadable("a number is wanted")),
    }
}

/// A cell's value: a number from -2^63 to 2^64 - 1.
pub fn value(text: &str) -> Result<i64, Difference> {
    if let Ok(value) = text.parse::<i64>() {
        return Ok(value);
    }
    match text.parse::<u64>() {
        Ok(value) => Ok(i64::from_le_bytes(value.to_le_bytes())),
        Err(_) => Err(Difference::Unreadable("a number of 64 bits is wanted")),
    }
}

/// Bytes in hexadecimal.
pub fn bytes(alloc: Global, text: &str) -> Result<Vec<u8>, Difference> {
    match hex::decode(alloc, text) {
        Ok(bytes) => Ok(bytes),
        Err(_) => Err(Difference::Unreadable("bytes in hexadecimal are wanted")),
    }
}

/// The numbers of calls.
pub fn numbers(alloc: Global, text: &str) -> Result<Vec<u64>, Difference> {
    let mut numbers = Vec::new(alloc);
    for field in text.split(' ') {
        match field.parse::<u64>() {
            Ok(number) => numbers.push(number)?,
            Err(_) => return Err(Difference::Unreadable("numbers of calls are wanted")),
        }
    }
    Ok(numbers)
}

/// The words of a command, which single blanks part.
pub fn words(alloc: Global, text: &str) -> Result<Vec<String>, AllocError> {
    let mut words = Vec::new(alloc);
    for word in text.split(' ') {
        words.push(String::from_str(alloc, word)?)?;
    }
    Ok(words)
}
