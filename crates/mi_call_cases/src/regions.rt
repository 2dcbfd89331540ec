//! An image comes back from the state of origin forms that it gives, and the first cell that none gives is named.
use mi_arith::{Form, Origin, Pair};
use mi_image::Kind;
use mi_region::State;
use mi_reloc::{CellFault, Found, Image, image_of, origin_of};
use std::alloc::{AllocError, Global};
use std::test::Fail;

const DATA: Form = Form { a: 1, b: 0, c: 16 };

const TWICE: Form = Form { a: 2, b: 0, c: 16 };

/// The relocatable image of a region whose first page is in use, where the size is allowed.
fn first_page(alloc: Global, state: &State<Origin>) -> Option<Result<Image, CellFault>> {
    if state.size() % 4096 != 0 {
        return None;
    }
    Some(image_of(alloc, state, 4096))
}

/// The state of a relocatable image with four cells.
fn four_cells(alloc: Global) -> Result<State<Origin>, AllocError> {
    let none = Pair { d: 0, k: 0 };
    let mut image = Image::new(alloc, Kind::Relocatable, 65_536, 4096, none)?;
    image.set_plain(0, 0x10);
    image.set_offset(1, 0x10);
    image.set_tag(2, 5);
    image.set_plain(511, 9);
    origin_of(alloc, &image)
}

/// Whether a cell of an image has this value and mark.
fn has_cell(image: &Image, cell: u32, value: u64, marked: bool) -> bool {
    cell < image.used() / 8 && image.cell(cell) == value && image.is_marked(cell) == marked
}

#[test]
fn an_image_comes_back(rt: HostRuntime) -> Result<(), Fail> {
    let state = four_cells(rt.alloc())?;
    assert!(rt; state.fetch_system(8) == Ok(DATA));
    let answer = first_page(rt.alloc(), &state).expect(&rt, "an allowed size");
    let image = answer.ok().expect(&rt, "an image");
    assert!(rt; has_cell(&image, 0, 0x10, false));
    assert!(rt; has_cell(&image, 1, 0x10, true));
    assert!(rt; has_cell(&image, 2, u64::MAX - 5, true));
    assert!(rt; has_cell(&image, 511, 9, false));
    Ok(())
}

#[test]
fn the_first_cell_that_no_image_gives_is_named(rt: HostRuntime) -> Result<(), Fail> {
    let mut state = four_cells(rt.alloc())?;
    assert!(rt; state.store_system(800, TWICE) == Ok(()));
    assert!(rt; state.store_system(24, TWICE) == Ok(()));
    let answer = first_page(rt.alloc(), &state).expect(&rt, "an allowed size");
    let found = Found::Form(TWICE);
    assert!(rt; answer.err() == Some(CellFault::Cell { offset: 24, found }));
    Ok(())
}
