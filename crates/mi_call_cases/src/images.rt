//! Images that no command writes, files that are fed byte by byte, and the texts of faults that no command prints.
use mi_compare::{CompareFault, compare};
use mi_image::{Decoder, Image, ImageFault, Kind, Pair, Part, encode};
use mi_reloc::LoadFault;
use std::alloc::{AllocError, Global};
use std::test::Fail;

const FIRST: Pair = Pair {
    d: 0x2_0000_0000,
    k: 0x5000_0000_0000,
};

/// A fixed image whose last cell in use is 7.
fn fixed_image(alloc: Global) -> Result<Image, AllocError> {
    let mut image = Image::new(alloc, Kind::Fixed, 65_536, 4096, FIRST)?;
    image.set_plain(511, 7);
    Ok(image)
}

/// A relocatable image whose last cell in use is the offset 8.
fn movable_image(alloc: Global) -> Result<Image, AllocError> {
    let none = Pair { d: 0, k: 0 };
    let mut image = Image::new(alloc, Kind::Relocatable, 65_536, 4096, none)?;
    image.set_offset(511, 8);
    Ok(image)
}

/// Whether the file has this byte at this place.
fn has(file: &[u8], place: usize, byte: u8) -> bool {
    file.get(place).copied() == Some(byte)
}

/// The file has 56 bytes before the cells. Its numbers have their lowest byte first.
#[test]
fn a_fixed_image_has_its_pair_and_no_bitmap(rt: HostRuntime) -> Result<(), Fail> {
    let file = encode(rt.alloc(), &fixed_image(rt.alloc())?)?;
    assert!(rt; file.len() == 4152);
    assert!(rt; has(&file, 16, 2), "the kind");
    assert!(rt; has(&file, 44, 2), "the data base");
    assert!(rt; has(&file, 53, 0x50), "the code base");
    assert!(rt; has(&file, 4144, 7), "the last cell");
    Ok(())
}

/// The image of a file that is fed byte by byte.
fn decoded(alloc: Global, file: &[u8]) -> Result<Image, ImageFault> {
    let mut decoder = Decoder::new(alloc);
    for byte in file {
        decoder.feed(&[*byte])?;
    }
    decoder.end()
}

/// The file of the image of a file.
fn encoded_again(alloc: Global, file: &[u8]) -> Result<Vec<u8>, Fail> {
    let image = decoded(alloc, file)?;
    Ok(encode(alloc, &image)?)
}

#[test]
fn a_fixed_image_comes_back_byte_by_byte(rt: HostRuntime) -> Result<(), Fail> {
    let file = encode(rt.alloc(), &fixed_image(rt.alloc())?)?;
    assert!(rt; encoded_again(rt.alloc(), &file)? == file);
    Ok(())
}

#[test]
fn a_relocatable_image_comes_back_byte_by_byte(rt: HostRuntime) -> Result<(), Fail> {
    let file = encode(rt.alloc(), &movable_image(rt.alloc())?)?;
    assert!(rt; encoded_again(rt.alloc(), &file)? == file);
    Ok(())
}

/// Whether the first part is refused.
fn is_refused(answer: Result<(), ImageFault>) -> bool {
    matches!(
        answer,
        Err(ImageFault::NotImage {
            place: 0,
            part: Part::Magic
        })
    )
}

#[test]
fn a_refusal_is_answered_again(rt: HostRuntime) {
    let mut decoder = Decoder::new(rt.alloc());
    assert!(rt; is_refused(decoder.feed(b"gforthmi image 2")));
    assert!(rt; is_refused(decoder.feed(b"gforthmi image 1")));
    assert!(rt; is_refused(decoder.end().map(|_| ())));
}

#[test]
fn relocatable_images_are_not_compared(rt: HostRuntime) -> Result<(), Fail> {
    let fixed = fixed_image(rt.alloc())?;
    let movable = movable_image(rt.alloc())?;
    let second = compare(rt.alloc(), &fixed, &movable).err();
    assert!(rt; second == Some(CompareFault::NotFixed { which: 2 }));
    Ok(())
}

#[test]
fn images_of_one_pair_are_not_compared(rt: HostRuntime) -> Result<(), Fail> {
    let fixed = fixed_image(rt.alloc())?;
    let same = compare(rt.alloc(), &fixed, &fixed).err();
    assert!(rt; same == Some(CompareFault::SamePair));
    Ok(())
}

#[test]
fn a_fault_of_comparing_is_told(rt: HostRuntime) -> Result<(), Fail> {
    let cell = CompareFault::Cell {
        offset: 616,
        first: 0x4_0001_0000,
        second: 0x2468_acf2_0000,
    };
    let want =
        "nothing explains the values of the cell at 616: 0x0000000400010000 and 0x00002468acf20000";
    assert!(rt; format!(in rt.alloc(); "{cell}")?.as_str() == want);
    Ok(())
}

#[test]
fn a_fault_of_loading_is_told(rt: HostRuntime) -> Result<(), Fail> {
    let want = "the image is made for the base pair 0x200000000, 0x500000000000";
    assert!(rt; format!(in rt.alloc(); "{}", LoadFault::MadeFor(FIRST))?.as_str() == want);
    Ok(())
}
