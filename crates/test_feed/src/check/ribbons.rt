use crate::check::rooms::says;
use std::alloc::Global;
use std::test::Fail;

/// The ribbon of an empty copy.
const EMPTY: &[u8] = b"MRB1\0\0\0\x01\0\0\x02\x06";

#[test]
fn ribbons_in_order(rt: HostRuntime) -> Result<(), Fail> {
    assert!(rt; says(rt.alloc(), EMPTY, "f ok: 1 rows\n", true)?);
    assert!(rt; says(rt.alloc(), b"MRB1\0\0\0\0", "f ok: 0 rows\n", true)?);
    Ok(())
}

#[test]
fn ribbons_of_another_count(rt: HostRuntime) -> Result<(), Fail> {
    let line = "f ribbon refused: it has not as many rows as it says\n";
    assert!(rt; says(rt.alloc(), b"MRB1", line, false)?);
    assert!(rt; says(rt.alloc(), b"MRB1\0\0\0\x02\0\0\x02\x06", line, false)?);
    Ok(())
}

/// Whether a ribbon of a lawful row and of one with this image has this line.
fn says_of_image(alloc: Global, image: u32, line: &str) -> Result<bool, Fail> {
    let mut bytes = Vec::new(alloc);
    bytes.extend_from_slice(b"MRB1\0\0\0\x02\0\0\x02\x06")?;
    bytes.extend_from_slice(&image.to_be_bytes())?;
    says(alloc, &bytes, line, false)
}

#[test]
fn ribbons_with_a_bad_row(rt: HostRuntime) -> Result<(), Fail> {
    let rows: &[(u32, &str)] = &[
        (0x8000_0000, "f ribbon refused: row 1: bit 31 is set\n"),
        (0x6000_0000, "f ribbon refused: row 1: two letters\n"),
        (0x0001_8000, "f ribbon refused: row 1: two numbers\n"),
        (0x4, "f ribbon refused: row 1: 0005 without 0075\n"),
        (0x4000_0002, "f ribbon refused: row 1: 0075 with a letter\n"),
        (0x3, "f ribbon refused: row 1: 0075 with S\n"),
    ];
    for (image, line) in rows {
        assert!(rt; says_of_image(rt.alloc(), *image, line)?, "{line}");
    }
    Ok(())
}
