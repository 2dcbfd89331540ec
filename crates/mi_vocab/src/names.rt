//! The tag of a name.
ghost use Rattle.std.specs.Prelude.{◌≡◌, ◌↔◌, ℕ, None, Some, IsTrue};
ghost use Rattle.mi_model.specs.Characters.{folded as folded_byte};
ghost use Rattle.mi_vocab.specs.Names.{AreSame, IsOf};

use crate::layout::TAGS;
use crate::tags::name as name_of;

/// The tag whose word has this name, letters folded, or `None` where no word of the table has it.
#[tactic(auto, using(crate::proofs::NameLemmas::one_tag))]
pub fn tag_of(name: &[u8]) -> Option<u8>
    ensures tag { (t : ℕ) → result ≡ Some t ↔ IsOf t name.now }
    ensures no_tag { result ≡ None ↔ ((t : ℕ) → ¬ (IsOf t name.now)) }
{
    for tag in 0..TAGS {
        if are_same(name, name_of(tag)) {
            return Some(tag);
        }
    }
    None
}

/// Are two names the same, letters folded.
#[tactic(auto, using(crate::proofs::NameLemmas::differ_at))]
fn are_same(a: &[u8], b: &[u8]) -> bool
    ensures { IsTrue result ↔ AreSame a.now b.now }
{
    if a.len() != b.len() {
        return false;
    }
    for i in 0..a.len() {
        if folded(a[i]) != folded(b[i]) {
            return false;
        }
    }
    true
}

/// A letter in upper case, and any other byte as it is.
pub fn folded(byte: u8) -> u8
    ensures { result ≡ folded_byte byte }
{
    match byte {
        b'a'..=b'z' => byte - 32,
        _ => byte,
    }
}
