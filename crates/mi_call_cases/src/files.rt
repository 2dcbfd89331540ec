//! Files over std, and those that never fail.
use mi_outside::{Failed, Files, NeverFiles, StdFiles};
use std::test::Fail;

/// Writes 7, 8 and 9 to the part, and puts it in the place of the file.
fn replace<F: Files>(files: &mut F) -> Result<(), Failed> {
    files.create("kept.part")?;
    files.append(&[7])?;
    files.append(&[8, 9])?;
    files.end_write()?;
    files.rename("kept.part", "kept")
}

/// Whether there is such a file.
fn is_there<F: Files>(files: &mut F, name: &str) -> bool {
    matches!(files.begin_read(name), Ok(true))
}

/// Reads at most two bytes of the file that is open, and ends the reading: the second of them, or 99 where none came.
fn second_byte<F: Files>(files: &mut F) -> u8 {
    let mut piece = [99; 2];
    let count = files.read(&mut piece).unwrap_or(0);
    files.end_read();
    if count == 2 { piece[1] } else { 99 }
}

/// Whether the file is replaced, read and removed.
fn replaces<F: Files>(files: &mut F) -> bool {
    !is_there(files, "kept")
        && replace(files).is_ok()
        && !is_there(files, "kept.part")
        && is_there(files, "kept")
        && second_byte(files) == 8
}

/// Whether the file is removed, and then can't be.
fn removes<F: Files>(files: &mut F) -> bool {
    files.remove("kept").is_ok() && !is_there(files, "kept") && files.remove("kept").is_err()
}

/// Whether a file that is missing can't be renamed, and none is created in a folder that is missing.
fn refuses<F: Files>(files: &mut F) -> bool {
    files.rename("missing", "other").is_err() && files.create("missing/other").is_err()
}

/// Whether nothing is read or written where no file is open.
fn is_idle<F: Files>(files: &mut F) -> bool {
    second_byte(files) == 99 && files.append(&[1]).is_ok()
}

/// The first thing that the files don't do.
fn first_failure<F: Files>(files: &mut F) -> Option<&'static str> {
    if !replaces(files) {
        Some("replaces")
    } else if !removes(files) {
        Some("removes")
    } else if !refuses(files) {
        Some("refuses")
    } else if !is_idle(files) {
        Some("is idle")
    } else {
        None
    }
}

#[test]
fn files_stand_over_std(rt: HostRuntime) {
    let failure = first_failure(&mut StdFiles::new(&rt)).unwrap_or("");
    assert!(rt; failure.is_empty(), "{failure}");
}

#[test]
fn some_never_fail(rt: HostRuntime) -> Result<(), Fail> {
    let mut files = NeverFiles::new(rt.alloc());
    files.put("filled", [1, 2].to_vec(rt.alloc())?)?;
    assert!(rt; is_there(&mut files, "filled"));
    assert!(rt; second_byte(&mut files) == 2);
    assert!(rt; replace(&mut files).is_ok());
    assert!(rt; files.file("filled").is_some());
    Ok(())
}
