//! Sources and sinks of bytes over std, and those that never fail.
use mi_outside::{NeverSink, NeverSource, Sink, Source, StdSink, StdSource};
use std::fs::{self, File};
use std::io::{self, Write};
use std::test::Fail;

/// Reads at most three bytes: how many came, or 99 where the read failed.
fn count_read<S: Source>(source: &mut S) -> usize {
    let mut piece = [0; 3];
    source.read(&mut piece).unwrap_or(99)
}

#[test]
fn bytes_go_to_a_file_and_come_back(rt: HostRuntime) -> Result<(), Fail> {
    let mut sink = StdSink::new(File::create(&rt, "bytes")?);
    assert!(rt; sink.write(&[1, 2]).is_ok());
    let mut source = StdSource::new(File::open(&rt, "bytes")?);
    assert!(rt; count_read(&mut source) == 2);
    assert!(rt; count_read(&mut source) == 0);
    fs::remove_file(&rt, "bytes")?;
    Ok(())
}

/// A folder can be opened, and neither read nor written.
#[test]
fn what_std_refuses_is_a_fault(rt: HostRuntime) -> Result<(), Fail> {
    assert!(rt; count_read(&mut StdSource::new(File::open(&rt, ".")?)) == 99);
    assert!(rt; StdSink::new(File::open(&rt, ".")?).write(&[1]).is_err());
    Ok(())
}

/// A writer that takes one byte a call, until it is full.
#[derive(Drop)]
struct Narrow {
    room: u8,
}

impl Write for Narrow {
    fn write(&mut self, piece: &[u8]) -> io::Result<usize> {
        if self.room == 0 || piece.is_empty() {
            return Ok(0);
        }
        self.room -= 1;
        Ok(1)
    }

    fn flush(&mut self) -> io::Result<()> {
        Ok(())
    }
}

#[test]
fn a_piece_is_written_byte_by_byte(rt: HostRuntime) {
    let mut sink = StdSink::new(Narrow { room: 2 });
    assert!(rt; sink.write(&[1, 2]).is_ok());
    assert!(rt; sink.write(&[3]).is_err());
}

#[test]
fn some_never_fail(rt: HostRuntime) -> Result<(), Fail> {
    let mut source = NeverSource::new([1, 2].to_vec(rt.alloc())?);
    assert!(rt; count_read(&mut source) == 2);
    assert!(rt; NeverSink::new().write(&[1]).is_ok());
    Ok(())
}
