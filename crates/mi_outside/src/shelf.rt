// Files in memory by name, one of which may be being read.
ghost use Rattle.std.specs.Prelude.{◌≡◌, ◌≢◌, ◌<◌, ◌++◌, ℕ, List, [], length, option_copied, option_map, Some, None, IfSome, IfNone, IfOk, OnOk, OnErr, MatchBool, vec_len};
ghost use Rattle.mi_outside.specs.Shelf.{place_of, content_of, bytes_at, reading_of};
ghost use Rattle.mi_outside.specs.Holding.{TakesOn};

use crate::next::put_next;
use std::alloc::{AllocError, Global};

// A name and its content, which is none where the file is gone. A later entry of the same name
// counts for nothing.
#[derive(Drop)]
pub(crate) struct Entry {
    name: Vec<u8>,
    bytes: Option<Vec<u8>>,
}

// The entry being read, and how far.
#[derive(Clone, Copy)]
pub(crate) struct Reading {
    index: usize,
    place: usize,
}

#[derive(Drop)]
pub(crate) struct Shelf {
    alloc: Global,
    pub(crate) entries: Vec<Entry>,
    pub(crate) reading: Option<Reading>,
}

// The place of the first entry of a name.
fn find(entries: &[Entry], name: &[u8]) -> Option<usize>
    ensures found { IfSome result (λ i. i ≡ place_of entries.now name.now) }
    ensures within { IfSome result (λ i. i < length entries.now) }
    ensures missing { IfNone result (place_of entries.now name.now ≡ length entries.now) }
    ensures no_content { IfNone result (content_of entries.now name.now ≡ None) }
{
    for (i, entry) in entries.iter().enumerate() {
        if entry.name.as_slice() == name {
            return Some(i);
        }
    }
    None
}

// The place of a name, which has an entry from then on. No content changes.
fn slot(entries: &mut Vec<Entry>, alloc: Global, name: &[u8]) -> Result<usize, AllocError>
    ensures found { IfOk result (λ i. i ≡ place_of entries.new.items name.now) }
    ensures within { IfOk result (λ i. i < vec_len entries.new) }
    ensures same { (q : List ℕ) → content_of entries.new.items q ≡ content_of entries.old.items q }
    ensures failed { OnErr result (entries.new.items ≡ entries.old.items) }
{
    if let Some(i) = find(entries, name) {
        return Ok(i);
    }
    let place = entries.len();
    let name = name.to_vec(alloc)?;
    entries.push(Entry { name, bytes: None })?;
    Ok(place)
}

// Puts other bytes into the entry at a place, and returns those that were there.
fn replace(entries: &mut Vec<Entry>, place: usize, bytes: Option<Vec<u8>>) -> Option<Vec<u8>>
    requires { place < vec_len entries.old }
    ensures was { (q : List ℕ) → place_of entries.old.items q ≡ place →
        option_map (λ v. v.items) result ≡ content_of entries.old.items q }
    ensures now { (q : List ℕ) → place_of entries.old.items q ≡ place →
        content_of entries.new.items q ≡ option_map (λ v. v.items) bytes }
    ensures others { (name q : List ℕ) → place_of entries.old.items name ≡ place → q ≢ name →
        content_of entries.new.items q ≡ content_of entries.old.items q }
    ensures places { (q : List ℕ) → place_of entries.new.items q ≡ place_of entries.old.items q }
    ensures len { vec_len entries.new ≡ vec_len entries.old }
{
    let entry = &mut entries[place];
    let was = entry.bytes.take();
    entry.bytes = bytes;
    was
}

// Gives a name this content.
pub(crate) fn hold(
    entries: &mut Vec<Entry>,
    alloc: Global,
    name: &[u8],
    bytes: Vec<u8>,
) -> Result<(), AllocError>
    ensures held { OnOk result (content_of entries.new.items name.now ≡ Some bytes.items) }
    ensures others { (q : List ℕ) → q ≢ name.now →
        content_of entries.new.items q ≡ content_of entries.old.items q }
    ensures failed { OnErr result (entries.new.items ≡ entries.old.items) }
{
    let place = slot(entries, alloc, name)?;
    replace(entries, place, Some(bytes));
    Ok(())
}

// Takes a name's content away.
pub(crate) fn discard(entries: &mut Vec<Entry>, name: &[u8])
    ensures gone { content_of entries.new.items name.now ≡ None }
    ensures others { (q : List ℕ) → q ≢ name.now →
        content_of entries.new.items q ≡ content_of entries.old.items q }
{
    if let Some(place) = find(entries, name) {
        replace(entries, place, None);
    }
}

// Appends to a name's content, if it has one.
pub(crate) fn extend(entries: &mut Vec<Entry>, name: &[u8], piece: &[u8]) -> Result<(), AllocError>
    ensures appended { OnOk result ((content : List ℕ) →
        content_of entries.old.items name.now ≡ Some content →
        content_of entries.new.items name.now ≡ Some (content ++ piece.now)) }
    ensures others { (q : List ℕ) → q ≢ name.now →
        content_of entries.new.items q ≡ content_of entries.old.items q }
{
    let Some(place) = find(entries, name) else {
        return Ok(());
    };
    let Some(mut bytes) = replace(entries, place, None) else {
        return Ok(());
    };
    let grown = bytes.extend_from_slice(piece);
    replace(entries, place, Some(bytes));
    grown
}

// Moves the content of the entry at one place to that at another.
fn shift(entries: &mut Vec<Entry>, from: usize, to: usize)
    requires from_within { from < vec_len entries.old }
    requires to_within { to < vec_len entries.old }
    ensures moved { (one two content : List ℕ) →
        place_of entries.old.items one ≡ from → place_of entries.old.items two ≡ to →
        content_of entries.old.items one ≡ Some content →
        content_of entries.new.items two ≡ Some content }
    ensures gone { (one two : List ℕ) →
        place_of entries.old.items one ≡ from → place_of entries.old.items two ≡ to → one ≢ two →
        content_of entries.new.items one ≡ None }
    ensures missing { (one q : List ℕ) →
        place_of entries.old.items one ≡ from → content_of entries.old.items one ≡ None →
        content_of entries.new.items q ≡ content_of entries.old.items q }
    ensures others { (one two q : List ℕ) →
        place_of entries.old.items one ≡ from → place_of entries.old.items two ≡ to →
        q ≢ one → q ≢ two → content_of entries.new.items q ≡ content_of entries.old.items q }
{
    if let Some(bytes) = replace(entries, from, None) {
        replace(entries, to, Some(bytes));
    }
}

// Gives one name the content of another, which has none after.
pub(crate) fn rename(
    entries: &mut Vec<Entry>,
    alloc: Global,
    from: &[u8],
    to: &[u8],
) -> Result<(), AllocError>
    ensures moved { OnOk result ((content : List ℕ) →
        content_of entries.old.items from.now ≡ Some content →
        content_of entries.new.items to.now ≡ Some content) }
    ensures gone { OnOk result (from.now ≢ to.now → content_of entries.new.items from.now ≡ None) }
    ensures missing { OnOk result (content_of entries.old.items from.now ≡ None →
        (q : List ℕ) → content_of entries.new.items q ≡ content_of entries.old.items q) }
    ensures others { (q : List ℕ) → q ≢ from.now → q ≢ to.now →
        content_of entries.new.items q ≡ content_of entries.old.items q }
    ensures failed { OnErr result (entries.new.items ≡ entries.old.items) }
{
    let to = slot(entries, alloc, to)?;
    if let Some(from) = find(entries, from) {
        shift(entries, from, to);
    }
    Ok(())
}

// The bytes of the entry at a place, or none.
fn bytes_at(entries: &[Entry], index: usize) -> &[u8]
    ensures { result.now ≡ bytes_at entries.now index }
{
    if index >= entries.len() {
        return &[];
    }
    match &entries[index].bytes {
        Some(bytes) => bytes,
        None => &[],
    }
}

impl Shelf {
    pub(crate) fn new(alloc: Global) -> Shelf
        ensures entries { result.entries.items ≡ [] }
        ensures reading { result.reading ≡ None }
    {
        Shelf {
            alloc,
            entries: Vec::new(alloc),
            reading: None,
        }
    }

    /// The content of a name.
    pub(crate) fn file(&self, name: &[u8]) -> Option<&[u8]>
        ensures { option_copied result ≡ content_of self.now.entries.items name.now }
    {
        let index = find(&self.entries, name)?;
        match &self.entries[index].bytes {
            Some(bytes) => Some(bytes),
            None => None,
        }
    }

    /// Begins to read a name's content, if it has one.
    pub(crate) fn begin_read(&mut self, name: &[u8]) -> bool
        ensures begun { MatchBool result
            ((bytes : List ℕ) × (content_of self.old.entries.items name.now ≡ Some bytes)
            × (reading_of self.new.entries.items self.new.reading ≡ Some bytes))
            ((content_of self.old.entries.items name.now ≡ None) × (self.new.reading ≡ None)) }
        ensures entries { self.new.entries.items ≡ self.old.entries.items }
    {
        self.reading = None;
        if let Some(index) = find(&self.entries, name) {
            if self.entries[index].bytes.is_some() {
                self.reading = Some(Reading { index, place: 0 });
                return true;
            }
        }
        false
    }

    /// Goes on with what is being read.
    pub(crate) fn read(&mut self, into: &mut [u8]) -> usize
        ensures taken { TakesOn (reading_of self.old.entries.items self.old.reading)
            (reading_of self.new.entries.items self.new.reading) into.old into.new result }
        ensures entries { self.new.entries.items ≡ self.old.entries.items }
    {
        let Some(mut at) = self.reading else {
            return 0;
        };
        let count = put_next(bytes_at(&self.entries, at.index), &mut at.place, into);
        self.reading = Some(at);
        count
    }
}
