use crate::check::rooms::{checked, says};
use feed_files::trial::TrialFiles;
use std::test::Fail;

/// One insert, 1.3 by site 3.
const X: &[u8] = b"MFD2\x01\0\0\0\0\0\0\0\x01\0\x03\0\0\0\0\0\0\0\0\0\0\0\0\0\0x";

/// Site 3 deletes 1.4, which is not there.
const WAITS: &[u8] = b"MFD1\x02\0\0\0\0\0\0\0\x02\0\x03\0\0\0\0\0\0\0\x01\0\x04";

#[test]
fn feeds_in_order(rt: HostRuntime) -> Result<(), Fail> {
    let none = "f ok: 0 operations, 0 symbols shown, faults none\n";
    assert!(rt; says(rt.alloc(), b"MFD1", none, true)?);
    assert!(rt; says(rt.alloc(), b"MFD2", none, true)?);
    let one = "f ok: 1 operations, 1 symbols shown, faults none\n";
    assert!(rt; says(rt.alloc(), X, one, true)?);
    let waits = "f ok: 1 operations, 0 symbols shown, faults waiting 2.3\n";
    assert!(rt; says(rt.alloc(), WAITS, waits, true)?);
    Ok(())
}

/// The name of a file is written out.
#[test]
fn name_of_a_file(rt: HostRuntime) -> Result<(), Fail> {
    let mut files = TrialFiles::new(rt.alloc());
    files.put("\u{9b}f\u{2066}\n", b"MFD2")?;
    let (written, ended) = checked(rt.alloc(), &mut files, &["\u{9b}f\u{2066}\n", "\u{1b}"]);
    let lines =
        "\\x9bf<U+2066>\\x0a ok: 0 operations, 0 symbols shown, faults none\n\\x1b no file\n";
    assert_eq!(rt; written.as_slice(), lines.as_bytes());
    assert_eq!(rt; ended, Ok(false));
    Ok(())
}

#[test]
fn feeds_with_a_fault(rt: HostRuntime) -> Result<(), Fail> {
    let rows: &[(&[u8], &str)] = &[
        (
            b"MFD1\x07",
            "f feed refused: byte 4: no such kind of operation\n",
        ),
        (b"MFD2\x01\0", "f feed refused: byte 4: cut off\n"),
        (
            b"MFD2\x04\0\0\0\0\0\0\0\x01\0\x03\0\0\0\0\0\0\0\0\0\0\x01\0\0\0\0x",
            "f feed refused: byte 4: no run has so many\n",
        ),
    ];
    for (bytes, line) in rows {
        assert!(rt; says(rt.alloc(), bytes, line, false)?, "{line}");
    }
    Ok(())
}

#[test]
fn feeds_that_are_not_lawful(rt: HostRuntime) -> Result<(), Fail> {
    let rows: &[(&[u8], &str)] = &[
        (
            b"MFD1\x02\0\0\0\0\0\0\0\0\0\x03\0\0\0\0\0\0\0\x01\0\x04",
            "f feed refused: byte 4: unlawful: the counter is out of range\n",
        ),
        (
            b"MFD1\x02\0\0\0\0\0\0\0\x02\0\0\0\0\0\0\0\0\0\x01\0\x04",
            "f feed refused: byte 4: unlawful: no site has the number 0\n",
        ),
        (
            b"MFD1\x02\0\0\0\0\0\0\0\x01\0\x03\0\0\0\0\0\0\0\x01\0\x04",
            "f feed refused: byte 4: unlawful: the target is not an earlier stamp\n",
        ),
        (
            b"MFD2\x01\0\0\0\0\0\0\0\x01\0\x03\0\0\0\0\0\0\0\0\0\0\0\0\0\0\0",
            "f feed refused: byte 4: unlawful: no such symbol\n",
        ),
        (
            b"MFD1\x03\0\0\0\0\0\0\0\x01\0\x03\x09\0\0\0\x01",
            "f feed refused: byte 4: unlawful: no such key\n",
        ),
        (
            b"MFD1\x03\0\0\0\0\0\0\0\x01\0\x03\x01\0\0\0\0",
            "f feed refused: byte 4: unlawful: the value is out of the key's range\n",
        ),
    ];
    for (bytes, line) in rows {
        assert!(rt; says(rt.alloc(), bytes, line, false)?, "{line}");
    }
    Ok(())
}
