//! The common relocatable image of two fixed ones.
ghost use Rattle.std.specs.Prelude.{◌≡◌, ◌/◌, IfOk, OnOk, IfErr};
ghost use Rattle.mi_model.specs.Common.{IsCommonImage, first_differing};
ghost use Rattle.mi_compare.specs.Refusal.{refusal_of, header_refusal, cell_refusal, sizes_differ, IsRefusal};
ghost use Rattle.mi_compare.specs.Filled.{IsComparable, IsFilled};

use crate::fault::CompareFault;
use crate::meaning::{meaning_of, set_meaning};
use mi_image::{Image, Kind, Pair};
use std::alloc::Global;

/// The relocatable image whose loading at the pair of each of two fixed images is the loading of
/// that one. A cell with one value in both is plain, one that is as far from both data bases is an
/// offset, and one that is the address of one tag in both is that tag.
///
/// The two are checked in this order: both are fixed, they agree in their sizes and in how many
/// bytes are in use, they differ in both bases, and each cell has something that gives both its
/// values. The first check that fails is the fault. `NoMemory` may come at any pair of images.
pub fn compare(alloc: Global, first: &Image, second: &Image) -> Result<Image, CompareFault>
    ensures common { IfOk result (λ image. IsCommonImage first.now second.now image) }
    ensures unrefused { OnOk result (refusal_of first.now second.now ≡ None) }
    ensures refused { IfErr result (λ fault. IsRefusal (refusal_of first.now second.now) fault) }
{
    check_headers(first, second)?;
    common_image(alloc, first, second)
}

/// What the headers refuse.
fn check_headers(first: &Image, second: &Image) -> Result<(), CompareFault>
    ensures fine { OnOk result (header_refusal first.now second.now ≡ None) }
    ensures refused { IfErr result (λ fault. header_refusal first.now second.now ≡ Some fault) }
    ensures comparable { OnOk result (IsComparable first.now second.now) }
{
    if first.kind() == Kind::Relocatable {
        return Err(CompareFault::NotFixed { which: 1 });
    }
    if second.kind() == Kind::Relocatable {
        return Err(CompareFault::NotFixed { which: 2 });
    }
    check_sizes(first.size(), second.size())?;
    check_sizes(first.used(), second.used())?;
    let (first, second) = (first.pair(), second.pair());
    if first.d == second.d || first.k == second.k {
        return Err(CompareFault::SamePair);
    }
    Ok(())
}

fn check_sizes(first: u32, second: u32) -> Result<(), CompareFault>
    ensures fine { OnOk result (first ≡ second) }
    ensures refused { IfErr result (λ fault. sizes_differ first second ≡ Some fault) }
{
    if first == second {
        return Ok(());
    }
    Err(CompareFault::SizesDiffer {
        first: u64::from(first),
        second: u64::from(second),
    })
}

/// The common image, if every cell has something that gives both its values.
fn common_image(alloc: Global, first: &Image, second: &Image) -> Result<Image, CompareFault>
    requires { IsComparable first.now second.now }
    ensures common { IfOk result (λ image. IsCommonImage first.now second.now image) }
    ensures unrefused { OnOk result (first_differing first.now second.now ≡ None) }
    ensures refused { IfErr result (λ fault. IsRefusal (cell_refusal first.now second.now) fault) }
{
    let pair = Pair { d: 0, k: 0 };
    let Ok(mut image) = Image::new(alloc, Kind::Relocatable, first.size(), first.used(), pair)
    else {
        return Err(CompareFault::NoMemory);
    };
    fill(&mut image, first, second)?;
    // Each image is within the limits of the format, as `size` says.
    let _ = image.size();
    Ok(image)
}

/// Gives each cell of a blank image its meaning, up to the first that has none.
fn fill(image: &mut Image, first: &Image, second: &Image) -> Result<(), CompareFault>
    requires comparable { IsComparable first.now second.now }
    requires blank { IsFilled first.now second.now 0 image.old }
    ensures filled { OnOk result (IsFilled first.now second.now (first.now.used / 8) image.new) }
    ensures fine { OnOk result (first_differing first.now second.now ≡ None) }
    ensures refused { IfErr result (λ fault. cell_refusal first.now second.now ≡ Some fault) }
{
    let size = first.size();
    for cell in 0..first.used() / 8 {
        let (x, y) = (first.cell(cell), second.cell(cell));
        let Some(meaning) = meaning_of(size, first.pair(), second.pair(), x, y) else {
            return Err(CompareFault::Cell {
                offset: 8 * cell,
                first: x,
                second: y,
            });
        };
        set_meaning(image, cell, meaning);
    }
    Ok(())
}
