//! Texts that are proofed, and ribbons that are read in part and compared.

use crate::program::{ends, metal, set};
use feed_files::trial::TrialFiles;
use std::alloc::Global;
use std::test::Fail;

/// The words behind a text's name by which it is set.
const SET: &str = " --case c --wedge w --set measure=120 --set tight=38 --set loose=150";

/// The words of a proof of a text, with others behind them.
fn line_of(alloc: Global, name: &str, more: &str) -> Result<String, Fail> {
    let mut line = String::new(alloc);
    line.push_str("proof --text ")?;
    line.push_str(name)?;
    line.push_str(SET)?;
    line.push_str(more)?;
    Ok(line)
}

#[test]
fn text_is_proofed(rt: HostRuntime) -> Result<(), Fail> {
    let mut files = metal(rt.alloc())?;
    files.put("t", b"a  b\n")?;
    files.put("u", b"\n")?;
    files.put("v", b"a\\b\n")?;
    let line = line_of(rt.alloc(), "t", " --format gcc --warn")?;
    let found =
        b"t:1:1: no matrix for Roman a\nt:1:4: no matrix for Roman b\nt:1:2: warning: two spaces\n";
    assert!(rt; ends(rt.alloc(), &mut files, &line, b"", 1, found, b""));
    let line = line_of(rt.alloc(), "u", " --faults")?;
    let clean = b"GALLEY 1 lines, 0 at fault, measure 120 points, tight 38, loose 150\n";
    assert!(rt; ends(rt.alloc(), &mut files, &line, b"", 0, clean, b""));
    let line = line_of(rt.alloc(), "v", "")?;
    let refused =
        b"copydesk: input refused\nv: line 1, column 2: a backslash that escapes nothing\n";
    assert!(rt; ends(rt.alloc(), &mut files, &line, b"", 1, b"", refused));
    let line = line_of(rt.alloc(), "v", " --plain --format gcc")?;
    let found =
        b"v:1:1: no matrix for Roman a\nv:1:2: no matrix for Roman \\\nv:1:3: no matrix for Roman b\n";
    assert!(rt; ends(rt.alloc(), &mut files, &line, b"", 1, found, b""));
    let line = line_of(rt.alloc(), "none", "")?;
    let missing = b"copydesk: file fault\nnone: a call failed\n";
    assert!(rt; ends(rt.alloc(), &mut files, &line, b"", 1, b"", missing));
    Ok(())
}

/// Stores the ribbon of one empty line, and then of two.
fn two_ribbons(alloc: Global) -> Result<Option<TrialFiles<Global>>, Fail> {
    let mut files = metal(alloc)?;
    if !set(alloc, &mut files) {
        return Ok(None);
    }
    let mut files = files.for_next_run();
    let line = "punch a.feed --case c --wedge w -o a.rib";
    if !ends(alloc, &mut files, line, b"", 0, b"", b"") {
        return Ok(None);
    }
    let mut files = files.for_next_run();
    let line = "desk a.feed --site 1";
    if !ends(
        alloc,
        &mut files,
        line,
        b"insert 1 0 r\"\\n\"\n",
        0,
        b"ok 7.1\n",
        b"",
    ) {
        return Ok(None);
    }
    let mut files = files.for_next_run();
    let line = "punch a.feed --case c --wedge w -o b.rib";
    if !ends(alloc, &mut files, line, b"", 0, b"", b"") {
        return Ok(None);
    }
    Ok(Some(files.for_next_run()))
}

#[test]
fn ribbons_are_compared(rt: HostRuntime) -> Result<(), Fail> {
    let Some(mut files) = two_ribbons(rt.alloc())? else {
        return Err(Fail::new("no ribbons"));
    };
    let line = "diff a.rib b.rib --case c --wedge w";
    let other =
        "a.rib 1 lines, b.rib 2 lines, 1 differs\n\n+      2    8/7      119.9     0.0   \u{b7}\u{b7}\u{b7}\u{b7}\u{b7}\u{b7}\u{b7}\u{b7}\u{b7}\u{b7}\n";
    assert!(rt; ends(rt.alloc(), &mut files, line, b"", 1, other.as_bytes(), b""));
    let line = "diff a.rib a.rib --case c --wedge w";
    let alike = b"a.rib 1 lines, a.rib 1 lines, none differs\n";
    assert!(rt; ends(rt.alloc(), &mut files, line, b"", 0, alike, b""));
    let line = "diff a.rib none --case c --wedge w";
    let missing = b"copydesk: file fault\nnone: a call failed\n";
    assert!(rt; ends(rt.alloc(), &mut files, line, b"", 1, b"", missing));
    Ok(())
}

#[test]
fn some_lines_are_read(rt: HostRuntime) -> Result<(), Fail> {
    let Some(mut files) = two_ribbons(rt.alloc())? else {
        return Err(Fail::new("no ribbons"));
    };
    let line = "read b.rib --case c --wedge w --lines 3..9";
    let none =
        b"RIBBON 2 lines, 27 rows, longest 119.9 points\n\n  line    c/f     points   short  text\n";
    assert!(rt; ends(rt.alloc(), &mut files, line, b"", 0, none, b""));
    let line = "read a.rib --case c --wedge w --stats --pitch 1/2";
    let figures =
        b"RIBBON 1 lines, 14 rows, longest 119.9 points\n\nwidest    line 1, 119.9 points\ntightest  line 1, wedge sum 127\nlength    7.0 inches, 1/2 inch a row\nmatrices  11\nblank     10\n\n  row  matrices\n    1         1\n    2         0\n    3         0\n    4         0\n    5         1\n    6         0\n    7         0\n    8         0\n    9         0\n   10         0\n   11         0\n   12         0\n   13         0\n   14         0\n   15         9\n";
    assert!(rt; ends(rt.alloc(), &mut files, line, b"", 0, figures, b""));
    Ok(())
}
