//! What a cell means in two images at once.
ghost use Rattle.std.specs.Prelude.{◌≡◌, ◌≤◌, ◌<◌, ◌/◌, ◌^◌, IfSome, is_some};
ghost use Rattle.mi_model.specs.declared.Kind.TheVariants.{Relocatable};
ghost use Rattle.mi_model.specs.Pairs.{IsAllowedPair};
ghost use Rattle.mi_model.specs.Plain.{plain_tag};
ghost use Rattle.mi_model.specs.Common.{has_common_cell};
ghost use Rattle.mi_compare.specs.Meaning.{Explains, Fits, with_meaning};

use mi_image::{Image, Pair};

/// What a cell of a relocatable image means.
#[derive(Clone, Copy)]
pub(crate) enum Meaning {
    /// This value.
    Plain(u64),
    /// The address of an offset of the region.
    Offset(u32),
    /// The address of a tag's code.
    Tag(u8),
}

/// What gives `x` at the first pair and `y` at the second, in a region of `size` bytes.
pub(crate) fn meaning_of(size: u32, first: Pair, second: Pair, x: u64, y: u64) -> Option<Meaning>
    requires first { IsAllowedPair first }
    requires second { IsAllowedPair second }
    requires size { size ≤ 2 ^ 23 }
    ensures found { is_some result ≡ has_common_cell size first second x y }
    ensures explains { IfSome result (λ meaning. Explains size first second x y meaning) }
{
    if x == y {
        return Some(Meaning::Plain(x));
    }
    let offset = x.wrapping_sub(first.d);
    if offset <= u64::from(size) && offset == y.wrapping_sub(second.d) {
        return Some(Meaning::Offset(offset as u32));
    }
    match (tag_at(first, x), tag_at(second, y)) {
        (Some(tag), Some(other)) if tag == other => Some(Meaning::Tag(tag)),
        _ => None,
    }
}

/// The tag whose code stands at the address `x`.
fn tag_at(pair: Pair, x: u64) -> Option<u8>
    requires { IsAllowedPair pair }
    ensures tag { result ≡ plain_tag pair x }
{
    let offset = x.wrapping_sub(pair.k);
    if offset < 1920 && offset % 16 == 0 {
        Some((offset / 16) as u8)
    } else {
        None
    }
}

/// The cell gets that meaning.
pub(crate) fn set_meaning(image: &mut Image, cell: u32, meaning: Meaning)
    requires cell { cell < image.old.used / 8 }
    requires relocatable { image.old.kind ≡ Relocatable }
    requires fits { Fits image.old.size meaning }
    ensures { image.new ≡ with_meaning image.old cell meaning }
{
    match meaning {
        Meaning::Plain(value) => image.set_plain(cell, value),
        Meaning::Offset(offset) => image.set_offset(cell, offset),
        Meaning::Tag(tag) => image.set_tag(cell, tag),
    }
}
