//! Bitmaps. No command makes one: images keep their marks as truth values, and share only the definitions.
use mi_bitmap::{Bitmap, BitmapFault};
use std::test::Fail;

/// Cell 8 is bit 0 of byte 1.
#[test]
fn a_mark_is_a_bit(rt: HostRuntime) -> Result<(), Fail> {
    let mut bitmap = Bitmap::new(rt.alloc(), 9)?;
    bitmap.mark(8);
    assert!(rt; bitmap.is_marked(8) && !bitmap.is_marked(7));
    assert!(rt; bitmap.bytes().get(1).copied() == Some(1));
    bitmap.unmark(8);
    assert!(rt; !bitmap.is_marked(8));
    Ok(())
}

/// Nine cells have two bytes.
#[test]
fn bytes_are_taken_or_refused(rt: HostRuntime) {
    let spare = Bitmap::from_bytes(rt.alloc(), &[0, 2], 9);
    assert!(rt; matches!(spare, Err(BitmapFault::SpareBits)));
    let short = Bitmap::from_bytes(rt.alloc(), &[0], 9);
    assert!(rt; matches!(short, Err(BitmapFault::WrongLength)));
    assert!(rt; Bitmap::from_bytes(rt.alloc(), &[0xff, 1], 9).is_ok());
}
