use crate::check::rooms::checked;
use feed_files::trial::TrialFiles;
use std::alloc::Global;
use std::test::Fail;

/// Whether a room's file of these bytes has this line, behind its name, and is in order or not.
fn says_of_room(
    alloc: Global,
    name: &str,
    bytes: &[u8],
    line: &[u8],
    well: bool,
) -> Result<bool, Fail> {
    let mut files = TrialFiles::new(alloc);
    files.put(name, bytes)?;
    let (written, ended) = checked(alloc, &mut files, &[name]);
    Ok(written.as_slice() == line && ended == Ok(well))
}

#[test]
fn rooms_in_order(rt: HostRuntime) -> Result<(), Fail> {
    let name = "copydesk.toml";
    let rows: &[(&[u8], &[u8])] = &[
        (b"", b"copydesk.toml ok: room file\n"),
        (
            b"wedge = \"w\"\nsite = 65535\ncase = \"c\"\n[set]\nwedge = 5\nmeasure = 12\n",
            b"copydesk.toml ok: room file, site 65535, case c, wedge w, set measure=12, set wedge=5\n",
        ),
    ];
    for (bytes, line) in rows {
        assert!(rt; says_of_room(rt.alloc(), name, bytes, line, true)?);
    }
    let line = b"a/copydesk.toml ok: room file, site 1\n";
    assert!(rt; says_of_room(rt.alloc(), "a/copydesk.toml", b"site = 1", line, true)?);
    let line = b"acopydesk.toml neither a feed, a ribbon, a case nor a wedge\n";
    assert!(rt; says_of_room(rt.alloc(), "acopydesk.toml", b"site = 1", line, false)?);
    Ok(())
}

#[test]
fn rooms_with_a_fault(rt: HostRuntime) -> Result<(), Fail> {
    let rows: &[(&[u8], &[u8])] = &[
        (
            b"site = 0",
            b"copydesk.toml room file refused: line 1: `site` is of another type or value\n",
        ),
        (
            b"\ncase = \"\"\nsite = 0\n",
            b"copydesk.toml room file refused: line 2: `case` is of another type or value\n",
        ),
        (
            b"[set]\nmeasure = 720\nloose = 241\n",
            b"copydesk.toml room file refused: line 3: `set.loose` is of another type or value\n",
        ),
        (
            b"site = 1\nx = [\n1]",
            b"copydesk.toml room file refused: line 3: `x` is no key of it\n",
        ),
        (
            b"site = 1\n=\n",
            b"copydesk.toml room file refused: line 2: it is not TOML\n",
        ),
    ];
    for (bytes, line) in rows {
        assert!(rt; says_of_room(rt.alloc(), "copydesk.toml", bytes, line, false)?);
    }
    Ok(())
}

#[test]
fn room_that_is_too_large(rt: HostRuntime) -> Result<(), Fail> {
    let mut bytes = Vec::new(rt.alloc());
    for _ in 0..8192u32 {
        bytes.push(b'\n')?;
    }
    let line = b"copydesk.toml ok: room file\n";
    assert!(rt; says_of_room(rt.alloc(), "copydesk.toml", &bytes, line, true)?);
    bytes.push(b'\n')?;
    let line = b"copydesk.toml room file refused: it has more than 8192 bytes\n";
    assert!(rt; says_of_room(rt.alloc(), "copydesk.toml", &bytes, line, false)?);
    Ok(())
}
