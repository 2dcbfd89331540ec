//! Laws of images, each on a call that does nothing.
ghost use Rattle.std.specs.Prelude.{◌≡◌, ◌↔◌, ℕ, None};
ghost use Rattle.mi_model.specs.declared.Form.{Form};
ghost use Rattle.mi_model.specs.Explained.{image_cell, IsExplained};

/// The forms that a cell of an image gives are those that are explained: a number, the address of an offset of the region,
/// and the address of a tag's code.
pub fn cells_give_explained_forms()
    ensures { (size : ℕ) (x : Form) → (image_cell size x ≡ None) ↔ ¬ (IsExplained size x) }
{}
