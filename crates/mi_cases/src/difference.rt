//! What is not as a case says.

use std::alloc::AllocError;
use std::fmt;
use thiserror::Error;

/// What is not as a line of a case says, or why it can't be told.
#[derive(Debug, Drop, Error)]
pub enum Difference {
    #[error("there is no memory")]
    NoMemory(#[from(alloc)] AllocError),
    #[error("can't be read: {0}")]
    Unreadable(&'static str),
    #[error("there is no file {0}")]
    NoFile(String),
    #[error("wanted {wanted}, came {came}")]
    Other { wanted: String, came: String },
}
