//! Texts that are replaced at a place that is asked for, or at all places.

use crate::replace::rooms::{Left, left_after};
use feed_edit::{Exchange, PlaceFault, ReplaceFault, RevisionFault, Where};
use std::alloc::Global;
use std::test::Fail;

/// A copy as text, what is replaced by what and where, the answer, and the copy after it.
type Row = (
    &'static str,
    &'static str,
    &'static str,
    Where,
    &'static str,
    &'static str,
);

/// What a replacement of texts with marks leaves.
fn left_at(alloc: Global, text: &str, from: &str, to: &str, at: Where) -> Result<Left, Fail> {
    let exchange = Exchange {
        from,
        to,
        plain: false,
        at,
    };
    left_after(alloc, text.as_bytes(), &exchange)
}

/// Whether a row is so.
fn is_so(alloc: Global, row: Row) -> Result<bool, Fail> {
    let (text, from, to, at, line, after) = row;
    let left = left_at(alloc, text, from, to, at)?;
    let is_reported = left.written.as_slice() == line.as_bytes();
    Ok(left.ended.is_ok() && is_reported && left.text.as_slice() == after.as_bytes())
}

#[test]
fn text_at_a_place_is_replaced(rt: HostRuntime) -> Result<(), Fail> {
    let one = "ok inserted 1 deleted 2\n";
    let rows: [Row; 8] = [
        ("ab ab ab", "ab", "x", Where::At(0), one, "x ab ab"),
        ("ab ab ab", "ab", "x", Where::At(3), one, "ab x ab"),
        ("ab ab ab", "ab", "x", Where::At(6), one, "ab ab x"),
        // Its one place.
        ("ab", "ab", "x", Where::At(0), one, "x"),
        // One that overlaps others.
        ("aaaa", "aa", "x", Where::At(1), one, "axa"),
        // An empty text is at each place, also at the end.
        (
            "ab",
            "",
            "x",
            Where::At(1),
            "ok inserted 1 deleted 0\n",
            "axb",
        ),
        (
            "ab",
            "",
            "x",
            Where::At(2),
            "ok inserted 1 deleted 0\n",
            "abx",
        ),
        // The same word in two styles.
        (
            "_of_ of _of_",
            "_of_",
            "^of^",
            Where::At(6),
            "ok inserted 2 deleted 2\n",
            "_of_ of ^of^",
        ),
    ];
    for row in rows {
        assert!(rt; is_so(rt.alloc(), row)?, "{row:?}");
    }
    Ok(())
}

#[test]
fn text_at_all_places_is_replaced(rt: HostRuntime) -> Result<(), Fail> {
    let all = Where::All;
    let rows: [Row; 9] = [
        (
            "ab ab ab",
            "ab",
            "x",
            all,
            "ok inserted 3 deleted 6\n",
            "x x x",
        ),
        // Its one place.
        ("ab ac", "ab", "x", all, "ok inserted 1 deleted 2\n", "x ac"),
        // Places that overlap one on their left are passed over.
        ("aaaaa", "aa", "b", all, "ok inserted 2 deleted 4\n", "bba"),
        (
            "ababa aba",
            "aba",
            "x",
            all,
            "ok inserted 2 deleted 6\n",
            "xba x",
        ),
        // One after the other.
        ("aaa", "a", "", all, "ok inserted 0 deleted 3\n", ""),
        ("a a", "a", "aa", all, "ok inserted 2 deleted 0\n", "aa aa"),
        // What comes has no places of its own.
        ("ab", "a", "aba", all, "ok inserted 2 deleted 0\n", "abab"),
        ("aXa", "a", "a", all, "ok inserted 0 deleted 0\n", "aXa"),
        // An empty text in an empty copy.
        ("", "", "x", all, "ok inserted 1 deleted 0\n", "x"),
    ];
    for row in rows {
        assert!(rt; is_so(rt.alloc(), row)?, "{row:?}");
    }
    Ok(())
}

/// A copy as text, what is looked for and where, what is reported, and how it ends.
type Refused = (&'static str, &'static str, Where, &'static str, PlaceFault);

/// Whether a row is so, and the copy stays.
fn is_refused(alloc: Global, row: Refused) -> Result<bool, Fail> {
    let (text, from, at, lines, fault) = row;
    let left = left_at(alloc, text, from, "new", at)?;
    let is_reported = left.written.as_slice() == lines.as_bytes();
    let stays = left.text.as_slice() == text.as_bytes();
    Ok(left.ended == Err(ReplaceFault::Place(fault)) && is_reported && stays)
}

#[test]
fn places_that_are_none(rt: HostRuntime) -> Result<(), Fail> {
    let two = "place 0: ab ab\nplace 3: ab ab\n";
    let one = PlaceFault::ManyPlaces(1);
    let none = PlaceFault::NoPlace;
    let rows: [Refused; 8] = [
        ("ab ab", "ab", Where::At(1), two, PlaceFault::ManyPlaces(2)),
        ("ab ab", "ab", Where::At(6), two, PlaceFault::ManyPlaces(2)),
        // It has one place, and not the one that is asked for.
        ("ab", "b", Where::At(0), "place 1: ab\n", one),
        ("", "", Where::At(1), "place 0: \n", one),
        ("ab", "q", Where::At(0), "no place\n", none),
        ("ab", "q", Where::All, "no place\n", none),
        ("", "q", Where::All, "no place\n", none),
        // An empty text is not put everywhere.
        (
            "a",
            "",
            Where::All,
            "place 0: a\nplace 1: a\n",
            PlaceFault::ManyPlaces(2),
        ),
    ];
    for row in rows {
        assert!(rt; is_refused(rt.alloc(), row)?, "{row:?}");
    }
    Ok(())
}

/// A text that is some letter so often.
fn letters(alloc: Global, letter: &str, count: usize) -> Result<String<Global>, Fail> {
    let mut text = String::new(alloc);
    for _ in 0..count {
        text.push_str(letter)?;
    }
    Ok(text)
}

/// A copy of 2,000,000 symbols has no room: it is refused before it is made.
#[test]
fn copy_that_is_too_long(rt: HostRuntime) -> Result<(), Fail> {
    let text = letters(rt.alloc(), "a", 2_000)?;
    let long = letters(rt.alloc(), "b", 1_000)?;
    let left = left_at(rt.alloc(), &text, "a", &long, Where::All)?;
    let full = RevisionFault::Full;
    assert_eq!(rt; left.ended, Err(ReplaceFault::Revision(full)));
    assert!(rt; left.written.is_empty());
    assert!(rt; left.text.as_slice() == text.as_bytes());
    Ok(())
}

/// A letter in each of 300 words.
#[test]
fn letter_in_many_words(rt: HostRuntime) -> Result<(), Fail> {
    let text = letters(rt.alloc(), "nen ", 300)?;
    let due = letters(rt.alloc(), "non ", 300)?;
    let left = left_at(rt.alloc(), &text, "nen", "non", Where::All)?;
    assert!(rt; left.ended.is_ok());
    assert!(rt; left.text.as_slice() == due.as_bytes());
    Ok(())
}
