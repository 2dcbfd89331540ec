//! The lines of a case file with their blocks.

use std::alloc::{AllocError, Global};

/// A line of a case file that is no part of a block, and the block behind it.
#[derive(Drop)]
pub struct Item<'a> {
    /// The number of the line in its file, from 1 on.
    pub number: usize,
    pub line: &'a str,
    pub block: Option<Vec<u8>>,
}

impl Item<'_> {
    /// Adds a line to the block, without the two blanks in front of it. One `|` at its end is left out, or one `~` with
    /// the line feed.
    fn add(&mut self, alloc: Global, line: &str) -> Result<(), AllocError> {
        let block = self.block.get_or_insert(Vec::new(alloc));
        if let Some(text) = line.strip_suffix('~') {
            return block.extend_from_slice(text.as_bytes());
        }
        let text = line.strip_suffix('|').unwrap_or(line);
        block.extend_from_slice(text.as_bytes())?;
        block.push(b'\n')?;
        Ok(())
    }
}

/// The lines of a case file with their blocks, in order, without blank lines and those that begin with `#`. A line that
/// looks like one of a block and stands behind no line counts as a line of its own.
pub fn items_of(alloc: Global, text: &str) -> Result<Vec<Item<'_>>, AllocError> {
    let mut items: Vec<Item<'_>> = Vec::new(alloc);
    let mut is_open = false;
    for (index, line) in text.split('\n').enumerate() {
        if is_open {
            if let Some(content) = content_of(line) {
                if let Some(item) = items.last_mut() {
                    item.add(alloc, content)?;
                }
                continue;
            }
        }
        is_open = !line.is_empty() && !line.starts_with('#');
        if is_open {
            items.push(Item {
                number: index.saturating_add(1),
                line,
                block: None,
            })?;
        }
    }
    Ok(items)
}

/// What a line of a block has behind its two blanks.
fn content_of(line: &str) -> Option<&str> {
    match line.strip_prefix("  ") {
        Some("") | None => None,
        content => content,
    }
}
