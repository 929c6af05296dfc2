use crate::replace::rooms::left_by;
use feed_edit::{PlaceFault, ReplaceFault};
use std::alloc::Global;
use std::test::Fail;
use text_copy::{places_of, read_text, reported_places};

/// A copy as text, what is looked for, what is said, and how it ends.
type Row = (&'static str, &'static str, &'static str, PlaceFault);

/// Whether a row is so, and the copy stays.
fn is_so(alloc: Global, row: Row) -> Result<bool, Fail> {
    let (text, from, lines, fault) = row;
    let left = left_by(alloc, text.as_bytes(), from, "new", false)?;
    let is_reported = left.written.as_slice() == lines.as_bytes();
    Ok(
        left.ended == Err(ReplaceFault::Place(fault))
            && is_reported
            && left.text.as_slice() == text.as_bytes(),
    )
}

#[test]
fn texts_that_stand_nowhere(rt: HostRuntime) -> Result<(), Fail> {
    let rows: [Row; 5] = [
        ("one", "q", "no place\n", PlaceFault::NoPlace),
        ("", "one", "no place\n", PlaceFault::NoPlace),
        // It begins to stand, and the copy ends.
        ("two one", "one ", "no place\n", PlaceFault::NoPlace),
        ("one", "one more", "no place\n", PlaceFault::NoPlace),
        // It stands there in another style.
        ("of _of_", "^of^", "no place\n", PlaceFault::NoPlace),
    ];
    for row in rows {
        assert!(rt; is_so(rt.alloc(), row)?, "{row:?}");
    }
    Ok(())
}

#[test]
fn texts_that_stand_at_several_places(rt: HostRuntime) -> Result<(), Fail> {
    let rows: [Row; 6] = [
        // Places that overlap.
        (
            "aaa",
            "aa",
            "place 0: aaa\nplace 1: aaa\n",
            PlaceFault::ManyPlaces(2),
        ),
        // The end of a line is shown as a space.
        (
            "one\ntwo one",
            "one",
            "place 0: one two one\nplace 8: one two one\n",
            PlaceFault::ManyPlaces(2),
        ),
        // A directional mark is shown by its name.
        (
            "\u{202e}a \u{202e}a",
            "\u{202e}a",
            "place 0: <U+202E>a <U+202E>a\nplace 3: <U+202E>a <U+202E>a\n",
            PlaceFault::ManyPlaces(2),
        ),
        // With marks for the styles.
        (
            "_a_ b _a_",
            "_a_",
            "place 0: _a_ b _a_\nplace 4: _a_ b _a_\n",
            PlaceFault::ManyPlaces(2),
        ),
        // An empty text stands at each place, and at the end.
        (
            "a\\_",
            "",
            "place 0: a\\_\nplace 1: a\\_\nplace 2: a\\_\n",
            PlaceFault::ManyPlaces(3),
        ),
        // 20 symbols before it, and 20 behind it.
        (
            "x1234567890123456789012345x",
            "x",
            "place 0: x12345678901234567890\nplace 26: 67890123456789012345x\n",
            PlaceFault::ManyPlaces(2),
        ),
    ];
    for row in rows {
        assert!(rt; is_so(rt.alloc(), row)?, "{row:?}");
    }
    Ok(())
}

/// How many lines are written of a letter in a copy of so many, and whether the last is this one.
fn lines_of(alloc: Global, count: usize, last: &[u8]) -> Result<Option<u32>, Fail> {
    let mut text = Vec::with_capacity(alloc, count)?;
    text.resize(count, b'a')?;
    let left = left_by(alloc, &text, "a", "b", false)?;
    if left.ended != Err(ReplaceFault::Place(PlaceFault::ManyPlaces(count)))
        || !left.written.ends_with(last)
    {
        return Ok(None);
    }
    let mut lines = 0u32;
    for byte in &left.written {
        lines = lines.saturating_add(u32::from(*byte == b'\n'));
    }
    Ok(Some(lines))
}

/// 100 places have a line.
#[test]
fn more_places_than_lines(rt: HostRuntime) -> Result<(), Fail> {
    let last = b"place 99: aaaaaaaaaaaaaaaaaaaaa\n";
    assert_eq!(rt; lines_of(rt.alloc(), 100, last)?, Some(100));
    let more = b"place 99: aaaaaaaaaaaaaaaaaaaaaa\nand 1 more\n";
    assert_eq!(rt; lines_of(rt.alloc(), 101, more)?, Some(101));
    assert_eq!(rt; lines_of(rt.alloc(), 250, b"\nand 150 more\n")?, Some(101));
    Ok(())
}

/// Whether a text stands at these places of a copy.
fn are_places(alloc: Global, text: &str, copy: &str, wanted: &[usize]) -> Result<bool, Fail> {
    let text = read_text(alloc, text.as_bytes(), false)?;
    let copy = read_text(alloc, copy.as_bytes(), false)?;
    let places = places_of(alloc, &text, &copy)?;
    Ok(places.as_slice() == wanted)
}

#[test]
fn places_of_texts(rt: HostRuntime) -> Result<(), Fail> {
    let cases: [(&str, &str, &[usize]); 8] = [
        ("a", "banana", &[1, 3, 5]),
        ("ana", "banana", &[1, 3]),
        ("banana", "banana", &[0]),
        ("bananas", "banana", &[]),
        ("", "ab", &[0, 1, 2]),
        ("", "", &[0]),
        ("_a_", "a_a_a_a_", &[1, 3]),
        ("\n", "a\n\nb", &[1, 2]),
    ];
    for (text, copy, places) in cases {
        assert!(rt; are_places(rt.alloc(), text, copy, places)?, "{text:?}");
    }
    Ok(())
}

/// What is said of places that are given.
#[test]
fn given_places_are_reported(rt: HostRuntime) -> Result<(), Fail> {
    let copy = read_text(rt.alloc(), b"_ab_ c", false)?;
    let reported = reported_places(rt.alloc(), 1, &copy, &[0, 3])?;
    let lines = b"place 0: _ab_ c\nplace 3: _ab_ c\n";
    assert!(rt; reported.as_slice() == lines.as_slice());
    let none = reported_places(rt.alloc(), 1, &copy, &[])?;
    assert!(rt; none.as_slice() == b"no place\n".as_slice());
    Ok(())
}
