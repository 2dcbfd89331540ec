//! What the program meets outside: bytes to read, bytes to write, and files by name. Each is a
//! trait with versions in memory, versions that never fail, and versions over std.
#![tactic(auto)]

mod gathered;
mod mem_files;
mod memory;
mod never;
mod never_files;
mod next;
mod plan;
mod shelf;
mod std_files;
mod std_io;
mod traits;

pub use gathered::Gathered;
pub use mem_files::MemFiles;
pub use memory::{MemSink, MemSource};
pub use never::{NeverSink, NeverSource};
pub use never_files::NeverFiles;
pub use std_files::StdFiles;
pub use std_io::{StdSink, StdSource};
pub use traits::{Failed, Files, Scheduled, Sink, Source};
