//! A run whose output fails as it goes on.
use mi_image::{Image, Kind};
use mi_model::Pair;
use mi_outside::{MemSink, NeverSource};
use mi_run::{RunEnd, run};
use std::test::Fail;

/// All cells are 0, so each instruction throws -9, and the recovery emits its text. Of that 4,096 bytes are written at a
/// time, and the second time fails.
#[test]
fn a_failed_write_ends_a_run(rt: HostRuntime) -> Result<(), Fail> {
    let alloc = rt.alloc();
    let pair = Pair {
        d: 0x2_0000_0000,
        k: 0x5000_0000_0000,
    };
    let image = Image::new(alloc, Kind::Fixed, 65_536, 4096, pair)?;
    let mut input = NeverSource::new(Vec::new(alloc));
    let mut output = MemSink::new(alloc, [2].to_vec(alloc)?);
    let end = run(alloc, &image, pair, 1000, &mut input, &mut output);
    assert!(rt; end == RunEnd::WriteFault);
    assert!(rt; output.bytes().len() == 4096);
    Ok(())
}
