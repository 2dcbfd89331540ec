//! Calls that no source, build or run of mi_cases makes: each test makes a few.
#![tactic(auto)]

#[cfg(test)]
mod bitmaps;
#[cfg(test)]
mod bytes;
#[cfg(test)]
mod files;
#[cfg(test)]
mod forms;
#[cfg(test)]
mod images;
#[cfg(test)]
mod instructions;
#[cfg(test)]
mod machines;
#[cfg(test)]
mod origins;
#[cfg(test)]
mod regions;
#[cfg(test)]
mod runs;
#[cfg(test)]
mod words;
