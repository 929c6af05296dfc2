use crate::replace::rooms::{X, left_by};
use feed_edit::{Exchange, Room, Where, replace_text};
use feed_files::trial::TrialFiles;
use std::alloc::Global;
use std::test::Fail;

/// `X`, and 2.4, which inserts a Roman z behind it.
const XZ: &[u8] =
    b"MFD2\x01\0\0\0\0\0\0\0\x01\0\x03\0\0\0\0\0\0\0\0\0\0\0\0\0\0x\x01\0\0\0\0\0\0\0\x02\0\x04\0\0\0\0\0\0\0\x01\0\x03\0\0\0\0z";

/// `X`, and 2.4, which deletes it.
const GONE: &[u8] =
    b"MFD2\x01\0\0\0\0\0\0\0\x01\0\x03\0\0\0\0\0\0\0\0\0\0\0\0\0\0x\x02\0\0\0\0\0\0\0\x02\0\x04\0\0\0\0\0\0\0\x01\0\x03";

/// A copy as text, what is replaced by what, the answer, and the copy after it.
type Row = (
    &'static str,
    &'static str,
    &'static str,
    &'static str,
    &'static str,
);

/// Whether a row is so.
fn is_so(alloc: Global, row: Row, plain: bool) -> Result<bool, Fail> {
    let (text, from, to, line, after) = row;
    let left = left_by(alloc, text.as_bytes(), from, to, plain)?;
    let is_reported = left.written.as_slice() == line.as_bytes();
    Ok(left.ended.is_ok() && is_reported && left.text.as_slice() == after.as_bytes())
}

#[test]
fn texts_are_replaced(rt: HostRuntime) -> Result<(), Fail> {
    let rows: [Row; 12] = [
        (
            "Send word by noon.",
            "noon",
            "dusk",
            "ok inserted 4 deleted 4\n",
            "Send word by dusk.",
        ),
        // At the first place, at the last, and all of the copy.
        ("ab ac", "ab", "x", "ok inserted 1 deleted 2\n", "x ac"),
        ("ab ac", "ac", "x", "ok inserted 1 deleted 2\n", "ab x"),
        ("ab", "ab", "cde", "ok inserted 3 deleted 2\n", "cde"),
        // What both texts have stays.
        ("ab", "b", "bc", "ok inserted 1 deleted 0\n", "abc"),
        ("one two", " two", "", "ok inserted 0 deleted 4\n", "one"),
        ("one", "n", "n", "ok inserted 0 deleted 0\n", "one"),
        // A style is a part of a symbol.
        (
            "of _of_",
            "of",
            "in",
            "ok inserted 2 deleted 2\n",
            "in _of_",
        ),
        (
            "of _of_",
            "_of_",
            "^of^",
            "ok inserted 2 deleted 2\n",
            "of ^of^",
        ),
        (
            "one\ntwo",
            "e\nt",
            "e t",
            "ok inserted 1 deleted 1\n",
            "one two",
        ),
        (
            "a\\_b",
            "\\_",
            "\\\\",
            "ok inserted 1 deleted 1\n",
            "a\\\\b",
        ),
        // An empty text stands once in an empty copy.
        ("", "", "_a_", "ok inserted 1 deleted 0\n", "_a_"),
    ];
    for row in rows {
        assert!(rt; is_so(rt.alloc(), row, false)?, "{row:?}");
    }
    Ok(())
}

/// In plain texts no character is a mark.
#[test]
fn plain_texts_are_replaced(rt: HostRuntime) -> Result<(), Fail> {
    let rows: [Row; 3] = [
        ("a\\_b", "_", "^", "ok inserted 1 deleted 1\n", "a\\^b"),
        (
            "of _of_",
            "of",
            "\\",
            "ok inserted 1 deleted 2\n",
            "\\\\ _of_",
        ),
        ("a", "a", "_a_", "ok inserted 2 deleted 0\n", "\\_a\\_"),
    ];
    for row in rows {
        assert!(rt; is_so(rt.alloc(), row, true)?, "{row:?}");
    }
    Ok(())
}

/// Whether a replacement in a feed of one x makes it these bytes.
fn makes(alloc: Global, from: &str, to: &str, line: &str, bytes: &[u8]) -> Result<bool, Fail> {
    let mut files = TrialFiles::new(alloc);
    files.put("x.feed", X)?;
    let mut written = Vec::new(alloc);
    let exchange = Exchange {
        from,
        to,
        plain: false,
        at: Where::Once,
    };
    replace_text(
        alloc,
        &mut written,
        &mut files,
        Room {
            feed: "x.feed",
            site: 4,
            older: false,
        },
        &exchange,
    )?;
    let is_gone = files.bytes_of("x.feed.new").is_none();
    Ok(is_gone && written.as_slice() == line.as_bytes() && files.holds("x.feed", bytes))
}

/// Each operation is by the site, and what the feed held stands in front of it.
#[test]
fn feeds_of_replaced_texts(rt: HostRuntime) -> Result<(), Fail> {
    let more = "ok inserted 1 deleted 0\n";
    assert!(rt; makes(rt.alloc(), "x", "xz", more, XZ)?);
    let less = "ok inserted 0 deleted 1\n";
    assert!(rt; makes(rt.alloc(), "x", "", less, GONE)?);
    let none = "ok inserted 0 deleted 0\n";
    assert!(rt; makes(rt.alloc(), "x", "x", none, X)?);
    Ok(())
}

/// A letter in a long text.
#[test]
fn letter_in_a_long_text(rt: HostRuntime) -> Result<(), Fail> {
    let mut text = Vec::with_capacity(rt.alloc(), 20_000)?;
    text.resize(20_000, b'n')?;
    if let Some(letter) = text.get_mut(19_000) {
        *letter = b'e';
    }
    let left = left_by(rt.alloc(), &text, "nen", "non", false)?;
    if let Some(letter) = text.get_mut(19_000) {
        *letter = b'o';
    }
    assert!(rt; left.ended.is_ok());
    assert!(rt; left.written.as_slice() == b"ok inserted 1 deleted 1\n".as_slice());
    assert!(rt; left.text.as_slice() == text.as_slice());
    Ok(())
}
