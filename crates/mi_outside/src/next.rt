// Reads from bytes in memory.
ghost use Rattle.std.specs.Prelude.{drop};
ghost use Rattle.mi_outside.specs.Holding.{Takes};

/// Puts the bytes from `place` on in front of `into`, as many as there is room for, and moves
/// `place` past them.
pub(crate) fn put_next(bytes: &[u8], place: &mut usize, into: &mut [u8]) -> usize
    ensures { Takes (drop place.old bytes.now) (drop place.new bytes.now) into.old into.new result }
{
    let from = *place;
    if from >= bytes.len() {
        return 0;
    }
    let count = into.len().min(bytes.len() - from);
    into[..count].copy_from_slice(&bytes[from..from + count]);
    *place = from + count;
    count
}
