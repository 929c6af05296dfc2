//! Galleys that are stored as documents, and ribbons of several feeds.

use crate::program::{begins, ends, metal, set};
use feed_files::trial::TrialFiles;
use std::alloc::Global;
use std::test::Fail;

const CLEAN: &[u8] = b"GALLEY 1 lines, 0 at fault, measure 120 points, tight 38, loose 150\n";

/// A feed with settings and one empty line, another of the same, and one without settings.
fn feeds(alloc: Global) -> Result<TrialFiles<Global>, Fail> {
    let mut files = metal(alloc)?;
    if !set(alloc, &mut files) {
        return Err(Fail::new("no feed"));
    }
    let mut files = files.for_next_run();
    let mut bytes = Vec::new(alloc);
    match files.bytes_of("a.feed") {
        Some(kept) => bytes.extend_from_slice(kept)?,
        None => return Err(Fail::new("no feed")),
    }
    files.put("b.feed", &bytes)?;
    files.put("bare.feed", b"MFD2")?;
    Ok(files)
}

/// Whether a proof of the first feed, with more words, ends so, where the galley is written.
fn proofs(
    alloc: Global,
    files: &mut TrialFiles<Global>,
    more: &str,
    status: u8,
    reported: &[u8],
) -> Result<bool, Fail> {
    let mut line = String::new(alloc);
    line.push_str("proof a.feed --case c --wedge w --faults ")?;
    line.push_str(more)?;
    Ok(ends(alloc, files, &line, b"", status, CLEAN, reported))
}

const DOCUMENT: &[u8] = b"<!DOCTYPE html>\n<html xmlns=\"http://www.w3.org/1999/xhtml\"";

#[test]
fn document_is_stored(rt: HostRuntime) -> Result<(), Fail> {
    let mut files = feeds(rt.alloc())?;
    assert!(rt; proofs(rt.alloc(), &mut files, "--html a.html", 0, b"")?);
    assert!(rt; begins(&files, "a.html", DOCUMENT));
    let mut files = files.for_next_run();
    let more = "--svg a.svg --html a.html --page letter";
    assert!(rt; proofs(rt.alloc(), &mut files, more, 0, b"")?);
    assert!(rt; begins(&files, "a.html", DOCUMENT));
    assert!(rt; begins(&files, "a.svg", b"<svg"));
    Ok(())
}

#[test]
fn document_replaces_documents_alone(rt: HostRuntime) -> Result<(), Fail> {
    let mut files = feeds(rt.alloc())?;
    let taken = b"copydesk: not replaced\nbare.feed: a feed stands there\n";
    assert!(rt; proofs(rt.alloc(), &mut files, "--html bare.feed", 1, taken)?);
    assert!(rt; begins(&files, "bare.feed", b"MFD2"));
    let mut files = files.for_next_run();
    let both = "--svg bare.feed --html a.html";
    assert!(rt; proofs(rt.alloc(), &mut files, both, 1, taken)?);
    assert!(rt; begins(&files, "a.html", DOCUMENT));
    let mut files = files.for_next_run();
    assert!(rt; proofs(rt.alloc(), &mut files, "--html bare.feed --force", 0, b"")?);
    assert!(rt; begins(&files, "bare.feed", DOCUMENT));
    Ok(())
}

#[test]
fn document_takes_no_place(rt: HostRuntime) -> Result<(), Fail> {
    let mut files = feeds(rt.alloc())?;
    for &(line, reported) in &[
        (
            "proof a.feed --case c --wedge w --html a.feed --force",
            "copydesk: file fault\na.feed: the document would take its place\n",
        ),
        (
            "proof a.feed --case c --wedge w --html w",
            "copydesk: file fault\nw: the document would take its place\n",
        ),
        (
            "proof a.feed --case c --wedge w --svg one --html one",
            "copydesk: file fault\none: the document would take its place\n",
        ),
        (
            "proof a.feed --case c --wedge w --svg c --html c",
            "copydesk: file fault\nc: the picture would take its place\n",
        ),
    ] {
        assert!(rt;
            ends(
                rt.alloc(),
                &mut files,
                line,
                b"",
                1,
                b"",
                reported.as_bytes()
            ),
            "{line}"
        );
    }
    assert!(rt; files.bytes_of("one").is_none());
    Ok(())
}

const TWO_GALLEYS: &str =
    "RIBBON 2 lines, 28 rows, longest 119.9 points\n\n  line    c/f     points   short  text\n     1    8/7      119.9     0.0   \u{b7}\u{b7}\u{b7}\u{b7}\u{b7}\u{b7}\u{b7}\u{b7}\u{b7}\u{b7}\n  -- end of galley 1 --\n     2    8/7      119.9     0.0   \u{b7}\u{b7}\u{b7}\u{b7}\u{b7}\u{b7}\u{b7}\u{b7}\u{b7}\u{b7}\n";

#[test]
fn feeds_are_punched(rt: HostRuntime) -> Result<(), Fail> {
    let mut files = feeds(rt.alloc())?;
    let line = "punch a.feed b.feed --case c --wedge w -o two.rib";
    assert!(rt; ends(rt.alloc(), &mut files, line, b"", 0, b"", b""));
    let mut files = files.for_next_run();
    let line = "read two.rib --case c --wedge w";
    assert!(rt;
        ends(
            rt.alloc(),
            &mut files,
            line,
            b"",
            0,
            TWO_GALLEYS.as_bytes(),
            b""
        )
    );
    Ok(())
}

#[test]
fn feeds_are_punched_whole(rt: HostRuntime) -> Result<(), Fail> {
    let mut files = feeds(rt.alloc())?;
    let line = "punch a.feed bare.feed --case c --wedge w -o two.rib";
    let none =
        b"no ribbon: missing measure, missing tight, missing loose, missing case, missing wedge\n";
    let faulty = b"copydesk: no ribbon\nbare.feed: its job has faults\n";
    assert!(rt; ends(rt.alloc(), &mut files, line, b"", 1, none, faulty));
    let line = "punch a.feed none.feed --case c --wedge w -o two.rib";
    let missing = b"copydesk: file fault\nnone.feed: a call failed\n";
    assert!(rt; ends(rt.alloc(), &mut files, line, b"", 1, b"", missing));
    let line = "punch a.feed b.feed --case c --wedge w -o b.feed --force";
    let source = b"copydesk: file fault\nb.feed: the ribbon would take its place\n";
    assert!(rt; ends(rt.alloc(), &mut files, line, b"", 1, b"", source));
    let line = "punch a.feed b.feed --case c --wedge w -o bare.feed";
    let taken = b"copydesk: not replaced\nbare.feed: a feed stands there\n";
    assert!(rt; ends(rt.alloc(), &mut files, line, b"", 1, b"", taken));
    assert!(rt; files.bytes_of("two.rib").is_none());
    assert!(rt; begins(&files, "bare.feed", b"MFD2"));
    Ok(())
}

/// The same files, of which the k-th call fails.
fn failing(alloc: Global, k: u64) -> Result<TrialFiles<Global>, Fail> {
    let made = feeds(alloc)?;
    let mut files = TrialFiles::new(alloc).failing_at_call(k);
    for &name in &["a.feed", "b.feed", "c", "w"] {
        let Some(kept) = made.bytes_of(name) else {
            return Err(Fail::new("no file"));
        };
        files.put(name, kept)?;
    }
    Ok(files)
}

/// The first feed, the case, the wedge and the other feed are read in turn; then the ribbon's name is looked at, and the
/// ribbon written and renamed.
#[test]
fn failed_calls_store_no_ribbon(rt: HostRuntime) -> Result<(), Fail> {
    let line = "punch a.feed b.feed --case c --wedge w -o two.rib";
    for &(k, reported) in &[
        (1u64, "copydesk: file fault\na.feed: a call failed\n"),
        (4, "copydesk: file fault\nb.feed: a call failed\n"),
        (5, "copydesk: file fault\ntwo.rib: a call failed\n"),
        (6, "copydesk: file fault\ntwo.rib: a call failed\n"),
        (7, "copydesk: file fault\ntwo.rib: a call failed\n"),
    ] {
        let mut files = failing(rt.alloc(), k)?;
        assert!(rt;
            ends(
                rt.alloc(),
                &mut files,
                line,
                b"",
                1,
                b"",
                reported.as_bytes()
            ),
            "{k}"
        );
        assert!(rt; files.bytes_of("two.rib").is_none());
    }
    Ok(())
}
