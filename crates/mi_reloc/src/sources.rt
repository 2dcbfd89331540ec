//! The texts of a build.

ghost use Rattle.std.specs.Prelude.{◌≡◌, ◌<◌, ◌≤◌, ℕ, List, [], ◌∷◌, ◌++◌, length, get_or, OnOk, OnErr};

use std::alloc::{AllocError, Global};
use std::marker::Model;

/// The source texts of a build, in order: at most 64, each of at most 4,194,304 bytes. They are seen as the list of
/// their bytes.
#[derive(Drop)]
pub struct Sources {
    alloc: Global,
    texts: Vec<Vec<u8>>,
}

impl Model for Sources {
    ghost use Rattle.std.specs.Prelude.{◌≤◌, List, ℕ, length, map, get_or, []};

    ghost Value = { List (List ℕ) };

    ghost view = { λ s. map (λ text. text.items) s.texts.items };

    ghost invariant = { λ s. (length s.texts.items ≤ 64) × ((k : ℕ) → length (get_or (map (λ text. text.items) s.texts.items) k []) ≤ 4194304) };
}

impl Sources {
    /// No text.
    pub fn new(alloc: Global) -> Sources
        ensures { result ≡ [] }
    {
        Sources {
            alloc,
            texts: Vec::new(alloc),
        }
    }

    /// Appends a text. Where there is no memory, nothing changes.
    pub fn push(&mut self, text: &[u8]) -> Result<(), AllocError>
        requires count { length self.old < 64 }
        requires size { length text.now ≤ 4194304 }
        ensures ok { OnOk result (self.new ≡ self.old ++ text.now ∷ []) }
        ensures err { OnErr result (self.new ≡ self.old) }
    {
        let copy = text.to_vec(self.alloc)?;
        self.texts.push(copy)?;
        Ok(())
    }

    /// How many texts there are.
    pub fn count(&self) -> u32
        ensures value { result ≡ length self.now }
        ensures most { result ≤ 64 }
    {
        self.texts.len() as u32
    }

    /// A text, by its place from 0 on.
    pub fn text(&self, i: u32) -> &[u8]
        requires { i < length self.now }
        ensures value { result.now ≡ get_or self.now i [] }
        ensures most { length result.now ≤ 4194304 }
    {
        self.texts[i as usize].as_slice()
    }
}
