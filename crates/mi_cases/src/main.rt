//! Runs the cases of the files that its arguments name: for each command of a case it makes the top call over files,
//! input and output in memory, and prints what is not as the case says. The last line has the counts.
#![tactic(auto)]

mod block;
mod bytes;
mod case;
mod cell;
mod change;
mod counts;
mod difference;
mod fields;
mod line;
mod report;
mod want;

use anyhow::{Context, Result};
use report::report_of;
use std::process::ExitCode;
use std::{env, fs};

/// Ends with status 1 where something differs.
fn main(rt: HostRuntime) -> Result<ExitCode> {
    let mut counts = counts::Counts::default();
    for path in env::args(&rt)?.skip(1) {
        let path = path.as_str();
        let text = fs::read_to_string(&rt, path).context(format_args!("reading {path}"))?;
        let report = report_of(rt.alloc(), path, text.as_str(), &mut counts)?;
        print!(rt; "{report}")?;
    }
    println!(rt; "{counts}")?;
    Ok(counts.code())
}
