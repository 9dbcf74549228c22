//! Reports that are read: lines of each kind, and the first line that may not stand.
use kms_reading::{ReportError, parse_report};
use std::alloc::{AllocError, Global};
use std::test::Fail;

/// More bytes than a text here has.
const MOST: usize = 4096;

/// The number of a text's first line that may not stand.
fn wrong_line(alloc: Global, text: &str) -> Result<Option<u32>, AllocError> {
    let bytes = text.as_bytes();
    if bytes.len() > MOST {
        return Ok(Some(0));
    }
    match parse_report(alloc, bytes) {
        Ok(_) => Ok(None),
        Err(ReportError::BadLine { line }) => Ok(Some(line)),
        Err(ReportError::NoMemory) => Err(AllocError),
    }
}

#[test]
fn the_first_line_that_may_not_stand_is_told(rt: HostRuntime) -> Result<(), Fail> {
    for (text, line) in [
        ("", Some(1)),
        ("D drained\n", None),
        ("D drained", Some(1)),
        ("D open 18446744073709551615\nT begin 1\nT stall\n", None),
        ("D stalled f1\nD drained\n", Some(2)),
        ("J 1 1\nJ 1 2\n", Some(3)),
        (
            "J 1 1\nR 1 1 0 made 1000\nR 1 2 1 EBUSY 26 crtc255 1\nD drained\n",
            None,
        ),
        ("R 1 1 0 done\nJ 1 1\nD drained\n", Some(2)),
        ("R 1 1 0 EINVAL 7\nR 1 2 0 EPERM 7\nD drained\n", Some(2)),
        (
            "L 0 0 0 off\nL 0 1 4294967296 off\nE 1 7 2 100\nX fb1 1006\nD drained\n",
            None,
        ),
        ("L 0 0 0 OFF\nD drained\n", Some(1)),
        ("T stall\nD drained\n", Some(1)),
        ("P3\nD drained\n", Some(1)),
    ] {
        let found = wrong_line(rt.alloc(), text)?;
        assert!(rt; found == line, "{text:?}");
    }
    Ok(())
}
