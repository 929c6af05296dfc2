//! The tests of the log of feed_history.

use desk_codec::{FeedFault, FeedWhy};
use desk_ops::{Style, Symbol};
use feed_edit::{ExportFault, FeedTrouble};
use feed_files::FileRefusal;
use feed_files::trial::{AtEnd, TrialFiles, TrialWriter};
use feed_history::{Asked, report_log};
use linked_list_allocator::LocalHeap;
use std::alloc::{AllocError, Global};
use std::test::Fail;

/// Two sites in turn. 11.2 deletes 10.1; 24.2 and 25.2 delete 21.2 and 22.2; 26.2 and 27.2 are settings. 30.2 deletes
/// 5.9, which nobody has; 31.2 is forked, 32.2 hangs on it, and 33.2 on that.
const ROOM: &[u8] = b"MFD2\
\x04\0\0\0\0\0\0\0\x01\0\x01\0\0\0\0\0\0\0\0\0\0\x0a\0\0\0\0S\0\0\0\0e\0\0\0\0n\0\0\0\0d\0\0\0\0 \0\0\0\0w\0\0\0\0o\0\0\0\0r\0\0\0\0d\0\0\0\0.\
\x02\0\0\0\0\0\0\0\x0b\0\x02\0\0\0\0\0\0\0\x0a\0\x01\
\x04\0\0\0\0\0\0\0\x0c\0\x01\0\0\0\0\0\0\0\x09\0\x01\x09\0\0\0\0 \0\0\0\0b\0\0\0\0y\0\0\0\0 \0\0\0\0n\0\0\0\0o\0\0\0\0o\0\0\0\0n\0\0\0\0.\
\x04\0\0\0\0\0\0\0\x15\0\x02\0\0\0\0\0\0\0\0\0\0\x03\0\0\0\0T\0\0\0\0h\0\0\0\0e\
\x02\0\0\0\0\0\0\0\x18\0\x02\0\0\0\0\0\0\0\x15\0\x02\
\x02\0\0\0\0\0\0\0\x19\0\x02\0\0\0\0\0\0\0\x16\0\x02\
\x03\0\0\0\0\0\0\0\x1a\0\x02\x01\0\0\0\x96\
\x03\0\0\0\0\0\0\0\x1b\0\x02\x02\0\0\0\x28\
\x02\0\0\0\0\0\0\0\x1e\0\x02\0\0\0\0\0\0\0\x05\0\x09\
\x01\0\0\0\0\0\0\0\x1f\0\x02\0\0\0\0\0\0\0\x01\0\x01\0\0\0\0f\
\x01\0\0\0\0\0\0\0\x1f\0\x02\0\0\0\0\0\0\0\x01\0\x01\0\0\0\0o\
\x01\0\0\0\0\0\0\0\x20\0\x02\0\0\0\0\0\0\0\x1f\0\x02\0\0\0\0u\
\x01\0\0\0\0\0\0\0\x21\0\x02\0\0\0\0\0\0\0\x20\0\x02\0\0\0\0r";

/// The lines of that feed, by the last stamp of each.
const LINES: [&str; 5] = [
    "1.1..10.1 at 1 + \"Send word.\"\n",
    "11.2 at 19 - \".\"\n",
    "12.1..20.1 at 10 + \" by noon.\"\n",
    "21.2..27.2 at 0 + \"The\" - \"Th\" measure 150 tight 40\n",
    "30.2..33.2 not shown + \"four\" forked 1 void 2 waiting 1\n",
];

/// All that is asked for.
const ALL: Asked<'static> = Asked {
    site: None,
    since: None,
    text: None,
};

/// Files with that feed, an empty one, and two that are refused.
fn rooms(alloc: Global) -> Result<TrialFiles<Global>, AllocError> {
    let mut files = TrialFiles::new(alloc);
    files.put("a.feed", ROOM)?;
    files.put("none.feed", b"MFD2")?;
    files.put("cut.feed", b"MFD2\x01")?;
    Ok(files)
}

/// Whether the log of these bytes is this text.
fn is_log(alloc: Global, feed: &[u8], asked: &Asked<'_>, text: &[u8]) -> Result<bool, Fail> {
    let mut files = TrialFiles::new(alloc);
    files.put("feed", feed)?;
    let mut written = Vec::new(alloc);
    report_log(alloc, &mut written, &mut files, "feed", asked)?;
    Ok(written.as_slice() == text && files.holds("feed", feed))
}

/// Whether the log of the feed of two sites is some of its lines.
fn are_lines(alloc: Global, asked: &Asked<'_>, places: &[usize]) -> Result<bool, Fail> {
    let mut text = Vec::new(alloc);
    for place in places {
        if let Some(line) = LINES.get(*place) {
            text.extend_from_slice(line.as_bytes())?;
        }
    }
    is_log(alloc, ROOM, asked, &text)
}

/// Roman symbols.
fn roman(alloc: Global, text: &str) -> Result<Vec<Symbol>, AllocError> {
    let mut symbols = Vec::new(alloc);
    for ch in text.chars() {
        symbols.push(Symbol {
            style: Style::Roman,
            ch,
        })?;
    }
    Ok(symbols)
}

#[test]
fn corrections_have_lines(rt: HostRuntime) -> Result<(), Fail> {
    assert!(rt; are_lines(rt.alloc(), &ALL, &[0, 1, 2, 3, 4])?);
    assert!(rt; is_log(rt.alloc(), b"MFD2", &ALL, b"")?);
    Ok(())
}

#[test]
fn lines_of_a_site(rt: HostRuntime) -> Result<(), Fail> {
    let one = Asked {
        site: Some(1),
        ..ALL
    };
    assert!(rt; are_lines(rt.alloc(), &one, &[0, 2])?);
    let two = Asked {
        site: Some(2),
        since: Some(27),
        ..ALL
    };
    assert!(rt; are_lines(rt.alloc(), &two, &[3, 4])?);
    let none = Asked {
        site: Some(9),
        ..ALL
    };
    assert!(rt; are_lines(rt.alloc(), &none, &[])?);
    Ok(())
}

/// Whether these are the lines since a counter.
fn are_since(alloc: Global, counter: u64, places: &[usize]) -> Result<bool, Fail> {
    let asked = Asked {
        since: Some(counter),
        ..ALL
    };
    are_lines(alloc, &asked, places)
}

/// By the last counter of each, and not by the first.
#[test]
fn lines_since_a_counter(rt: HostRuntime) -> Result<(), Fail> {
    assert!(rt; are_since(rt.alloc(), 0, &[0, 1, 2, 3, 4])?);
    assert!(rt; are_since(rt.alloc(), 11, &[1, 2, 3, 4])?);
    assert!(rt; are_since(rt.alloc(), 20, &[2, 3, 4])?);
    assert!(rt; are_since(rt.alloc(), 28, &[4])?);
    assert!(rt; are_since(rt.alloc(), 34, &[])?);
    Ok(())
}

/// Whether these are the lines with a Roman text.
fn are_with(alloc: Global, text: &str, places: &[usize]) -> Result<bool, Fail> {
    let text = roman(alloc, text)?;
    let asked = Asked {
        text: Some(&text),
        ..ALL
    };
    are_lines(alloc, &asked, places)
}

/// Of what was inserted or deleted, also where it is no longer shown; and by style.
#[test]
fn lines_with_a_text(rt: HostRuntime) -> Result<(), Fail> {
    assert!(rt; are_with(rt.alloc(), "o", &[0, 2, 4])?);
    assert!(rt; are_with(rt.alloc(), ".", &[0, 1, 2])?);
    assert!(rt; are_with(rt.alloc(), "Th", &[3])?);
    assert!(rt; are_with(rt.alloc(), "ou", &[4])?);
    assert!(rt; are_with(rt.alloc(), "on.S", &[])?);
    assert!(rt; are_with(rt.alloc(), "", &[0, 1, 2, 3, 4])?);
    let italic = [Symbol {
        style: Style::Italic,
        ch: 'o',
    }];
    let asked = Asked {
        text: Some(&italic),
        ..ALL
    };
    assert!(rt; are_lines(rt.alloc(), &asked, &[])?);
    Ok(())
}

/// A feed of inserts by one site, each behind the last, each in its style; two sites have them in turn where that is
/// wanted.
fn typed(alloc: Global, symbols: &[(u8, char)], in_turn: bool) -> Result<Vec<u8>, AllocError> {
    let mut bytes = Vec::new(alloc);
    bytes.extend_from_slice(b"MFD2")?;
    let mut parent = (0u64, 0u16);
    for (place, (style, ch)) in symbols.iter().enumerate() {
        let counter = (place as u64).saturating_add(1);
        let site: u16 = if in_turn && place % 2 == 1 { 2 } else { 1 };
        bytes.push(1)?;
        bytes.extend_from_slice(&counter.to_be_bytes())?;
        bytes.extend_from_slice(&site.to_be_bytes())?;
        bytes.extend_from_slice(&parent.0.to_be_bytes())?;
        bytes.extend_from_slice(&parent.1.to_be_bytes())?;
        bytes.push(*style)?;
        bytes.extend_from_slice(&u32::from(*ch).to_be_bytes())?;
        parent = (counter, site);
    }
    Ok(bytes)
}

/// So many letters in a style, from `a` on.
fn letters(alloc: Global, style: u8, count: usize) -> Result<Vec<(u8, char)>, AllocError> {
    let mut symbols = Vec::new(alloc);
    for place in 0..count {
        let letter = b'a'.saturating_add((place % 26) as u8);
        symbols.push((style, char::from(letter)))?;
    }
    Ok(symbols)
}

/// 40 symbols are shown, and of 41 the first 18 and the last.
#[test]
fn long_texts_are_shortened(rt: HostRuntime) -> Result<(), Fail> {
    let feed = typed(rt.alloc(), &letters(rt.alloc(), 0, 40)?, false)?;
    let whole = b"1.1..40.1 at 0 + \"abcdefghijklmnopqrstuvwxyzabcdefghijklmn\"\n";
    assert!(rt; is_log(rt.alloc(), &feed, &ALL, whole)?);
    let feed = typed(rt.alloc(), &letters(rt.alloc(), 1, 41)?, false)?;
    let ends = b"1.1..41.1 at 0 + \"_abcdefghijklmnopqr_ .. _xyzabcdefghijklmno_\"\n";
    assert!(rt; is_log(rt.alloc(), &feed, &ALL, ends)?);
    let feed = typed(rt.alloc(), &letters(rt.alloc(), 0, 1000)?, false)?;
    let ends = b"1.1..1000.1 at 0 + \"abcdefghijklmnopqr .. uvwxyzabcdefghijkl\"\n";
    assert!(rt; is_log(rt.alloc(), &feed, &ALL, ends)?);
    Ok(())
}

/// The end of a line is a space, a directional mark its code, and a mark has a backslash.
#[test]
fn texts_are_one_line(rt: HostRuntime) -> Result<(), Fail> {
    let symbols = [
        (0, 'a'),
        (0, '\n'),
        (2, 'B'),
        (0, '\u{202e}'),
        (0, '_'),
        (0, '"'),
    ];
    let feed = typed(rt.alloc(), &symbols, false)?;
    let line = b"1.1..6.1 at 0 + \"a ^B^<U+202E>\\_\"\"\n";
    assert!(rt; is_log(rt.alloc(), &feed, &ALL, line)?);
    Ok(())
}

/// Two sites that type in turn make a correction of each symbol.
#[test]
fn sites_in_turn(rt: HostRuntime) -> Result<(), Fail> {
    let feed = typed(rt.alloc(), &letters(rt.alloc(), 0, 4)?, true)?;
    let lines = b"1.1 at 0 + \"a\"\n2.2 at 1 + \"b\"\n3.1 at 2 + \"c\"\n4.2 at 3 + \"d\"\n";
    assert!(rt; is_log(rt.alloc(), &feed, &ALL, lines)?);
    Ok(())
}

/// 1.1 and 1.2 insert an n and an m, and 2.1 deletes the n. 2.2 and 3.2 delete the n too, and 9.3, which nobody has.
/// 5.1 is twice: an o and a p. 6.4 deletes it. 7.4 is a setting.
const TWICE: &[u8] = b"MFD2\
\x01\0\0\0\0\0\0\0\x01\0\x01\0\0\0\0\0\0\0\0\0\0\0\0\0\0n\
\x01\0\0\0\0\0\0\0\x01\0\x02\0\0\0\0\0\0\0\0\0\0\0\0\0\0m\
\x02\0\0\0\0\0\0\0\x02\0\x01\0\0\0\0\0\0\0\x01\0\x01\
\x02\0\0\0\0\0\0\0\x02\0\x02\0\0\0\0\0\0\0\x01\0\x01\
\x02\0\0\0\0\0\0\0\x0a\0\x02\0\0\0\0\0\0\0\x09\0\x03\
\x01\0\0\0\0\0\0\0\x05\0\x01\0\0\0\0\0\0\0\0\0\0\0\0\0\0o\
\x01\0\0\0\0\0\0\0\x05\0\x01\0\0\0\0\0\0\0\0\0\0\0\0\0\0p\
\x02\0\0\0\0\0\0\0\x06\0\x04\0\0\0\0\0\0\0\x05\0\x01\
\x03\0\0\0\0\0\0\0\x08\0\x04\x01\0\0\0\x60";

/// Corrections that overlap, a delete of a delete, of what is forked and of what has not come, and a setting alone.
#[test]
fn corrections_of_several_sites(rt: HostRuntime) -> Result<(), Fail> {
    let lines = b"1.1..2.1 at 1 + \"n\" - \"n\"\n\
1.2..2.2 at 0 + \"m\" - \"n\"\n\
5.1 not shown + \"op\" forked 1\n\
6.4 not shown - \"o\" void 1\n\
8.4 measure 96\n\
10.2 not shown waiting 1\n";
    assert!(rt; is_log(rt.alloc(), TWICE, &ALL, lines)?);
    Ok(())
}

/// Why a log is not written, if it is not; nothing is written then, and all files stay.
fn stop_of(alloc: Global, name: &str) -> Result<Option<ExportFault>, Fail> {
    let mut files = rooms(alloc)?;
    let mut written = Vec::new(alloc);
    let ended = report_log(alloc, &mut written, &mut files, name, &ALL);
    if !written.is_empty() || !files.holds("a.feed", ROOM) {
        return Err(Fail::new("bytes before a fault"));
    }
    Ok(ended.err())
}

#[test]
fn feeds_without_a_log(rt: HostRuntime) -> Result<(), Fail> {
    let missing = FeedTrouble::File(FileRefusal::Missing);
    assert_eq!(rt;
        stop_of(rt.alloc(), "b.feed")?,
        Some(ExportFault::Feed(missing))
    );
    let cut = FeedTrouble::Feed(FeedFault {
        at: 4,
        why: FeedWhy::Cut,
    });
    assert_eq!(rt;
        stop_of(rt.alloc(), "cut.feed")?,
        Some(ExportFault::Feed(cut))
    );
    assert_eq!(rt; stop_of(rt.alloc(), "none.feed")?, None);
    Ok(())
}

#[test]
fn closed_output_has_a_prefix(rt: HostRuntime) -> Result<(), Fail> {
    for at_end in [AtEnd::Fails, AtEnd::TakesNone] {
        let mut files = rooms(rt.alloc())?;
        let mut writer = TrialWriter::new(rt.alloc()).with_room(9, at_end);
        let ended = report_log(rt.alloc(), &mut writer, &mut files, "a.feed", &ALL);
        assert_eq!(rt; ended, Err(ExportFault::Write));
        assert!(rt; LINES[0].as_bytes().starts_with(writer.written()));
    }
    Ok(())
}

/// The bytes of the heap of the next test.
const HEAP: usize = 262_144;

/// Whether a log in a cut heap is out of memory, and then writes nothing; it ends no other way but well.
fn is_refused(alloc: Global, cut: usize) -> Result<bool, Fail> {
    let heap = LocalHeap::new(alloc, HEAP)?;
    let kept = HEAP.saturating_sub(cut.saturating_mul(128));
    let ballast: Option<Vec<u8, &LocalHeap>> = Vec::with_capacity(&heap, kept).ok();
    let mut files = rooms(alloc)?;
    let mut written = Vec::new(alloc);
    let ended = report_log(&heap, &mut written, &mut files, "a.feed", &ALL);
    drop(ballast);
    match ended {
        Ok(()) => Ok(false),
        Err(_) if !written.is_empty() => Err(Fail::new("bytes before a fault")),
        Err(ExportFault::NoMemory)
        | Err(ExportFault::Feed(FeedTrouble::NoMemory))
        | Err(ExportFault::Feed(FeedTrouble::File(FileRefusal::NoMemory))) => Ok(true),
        Err(_) => Err(Fail::new("another fault")),
    }
}

#[test]
fn growths_of_a_log_refused(rt: HostRuntime) -> Result<(), Fail> {
    let mut refused = 0u32;
    for cut in 0..512usize {
        refused = refused.saturating_add(u32::from(is_refused(rt.alloc(), cut)?));
    }
    assert!(rt; 6 <= refused && refused <= 508, "refused {refused} times");
    Ok(())
}
