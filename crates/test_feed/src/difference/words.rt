use crate::difference::rooms::{feed_of, keyed, reported, reports};
use feed_edit::Version;
use feed_files::trial::TrialFiles;
use feed_sites::report_difference;
use std::alloc::Global;
use std::test::Fail;

/// What one letter has that the other has not.
#[test]
fn letter_that_was_corrected(rt: HostRuntime) -> Result<(), Fail> {
    let mut files = keyed(rt.alloc(), b"Send word.", b"Send word by noon.")?;
    let text = "one.feed alone none\ntwo.feed alone 2: 11..18\n- 5 word.\n+ 5 word by noon.\n";
    assert!(rt; reports(rt.alloc(), &mut files, text, false)?);
    Ok(())
}

/// The same letter, as it was and as it is.
#[test]
fn letter_then_and_now(rt: HostRuntime) -> Result<(), Fail> {
    let mut files = keyed(rt.alloc(), b"Send word.", b"Send word by noon.")?;
    let then = Version {
        feed: "two.feed",
        until: Some(10),
    };
    let mut text = Vec::new(rt.alloc());
    let ended = report_difference(rt.alloc(), &mut text, &mut files, then, "two.feed");
    assert_eq!(rt; ended, Ok(false));
    let wanted = "two.feed alone none\ntwo.feed alone 2: 11..18\n- 5 word.\n+ 5 word by noon.\n";
    assert!(rt; text.as_slice() == wanted.as_bytes());
    Ok(())
}

/// A copy, one that was made of it, and the lines of the words that differ.
type Row = (&'static str, &'static str, &'static str);

/// The lines from the third on.
fn behind_two(text: &[u8]) -> &[u8] {
    let mut seen = 0u8;
    for at in 0..text.len() {
        if seen == 2 {
            return &text[at..];
        }
        if text[at] == b'\n' {
            seen = seen.saturating_add(1);
        }
    }
    &[]
}

/// Whether these lines are written of two copies.
fn is_so(alloc: Global, row: Row) -> Result<bool, Fail> {
    let (one, other, lines) = row;
    let mut files = keyed(alloc, one.as_bytes(), other.as_bytes())?;
    let left = reported(alloc, &mut files, "one.feed", "two.feed")?;
    Ok(left.ended.is_ok() && behind_two(&left.text) == lines.as_bytes())
}

/// Words are written whole, and stretches that touch as one.
#[test]
fn words_that_differ(rt: HostRuntime) -> Result<(), Fail> {
    let rows: [Row; 12] = [
        ("the quick fox", "the slow fox", "- 4 quick\n+ 4 slow\n"),
        (
            "a quick brown fox",
            "a slow red fox",
            "- 2 quick brown\n+ 2 slow red\n",
        ),
        // A word comes, or goes.
        ("a big fox", "a fox", "- 2 big\n+ 2\n"),
        ("a fox", "a big fox", "- 2\n+ 2 big\n"),
        ("", "a", "- 0\n+ 0 a\n"),
        ("a b", "", "- 0 a b\n+ 0\n"),
        // Two stretches, the second at another place in each.
        (
            "one two three four",
            "one 2 three 4",
            "- 4 two\n+ 4 2\n- 14 four\n+ 12 4\n",
        ),
        // A style is a part of a word.
        ("by noon", "by _noon_", "- 3 noon\n+ 3 _noon_\n"),
        ("by n\\_oon", "by noon", "- 3 n\\_oon\n+ 3 noon\n"),
        // A directional mark is shown by its name.
        ("by n\u{202e}oon", "by noon", "- 3 n<U+202E>oon\n+ 3 noon\n"),
        ("a b", "a _\u{61c}b_", "- 2 b\n+ 2 _<U+061C>b_\n"),
        ("same", "same", ""),
    ];
    for row in rows {
        assert!(rt; is_so(rt.alloc(), row)?, "{row:?}");
    }
    Ok(())
}

/// Names of feeds are written out.
#[test]
fn names_of_feeds(rt: HostRuntime) -> Result<(), Fail> {
    let mut files = TrialFiles::new(rt.alloc());
    let feed = feed_of(rt.alloc(), &[(1, 1, b'a')])?;
    files.put("a\u{1b}[2J", &feed)?;
    files.put("\u{202e}b\n", &feed)?;
    let left = reported(rt.alloc(), &mut files, "a\u{1b}[2J", "\u{202e}b\n")?;
    let text = "a\\x1b[2J alone none\n<U+202E>b\\x0a alone none\n";
    assert_eq!(rt; left.text.as_slice(), text.as_bytes());
    Ok(())
}

/// A line feed ends a word, and is shown as a space.
#[test]
fn words_at_the_end_of_a_line(rt: HostRuntime) -> Result<(), Fail> {
    let rows: [Row; 5] = [
        ("one\ntwo", "one\nsix", "- 4 two\n+ 4 six\n"),
        ("one\ntwo", "six\ntwo", "- 0 one\n+ 0 six\n"),
        ("a\nb", "x\ny", "- 0 a b\n+ 0 x y\n"),
        // The words are the same, and what ends the first is not.
        ("one two", "one\ntwo", "- 0 one\n+ 0 one\n"),
        // No words, and one end of a line more.
        ("a\nb", "a\n\nb", "- 2\n+ 2\n"),
    ];
    for row in rows {
        assert!(rt; is_so(rt.alloc(), row)?, "{row:?}");
    }
    Ok(())
}

/// A text of so many words of four letters, that are all the same but one.
fn long(alloc: Global, words: usize, at: usize, word: &[u8; 5]) -> Result<Vec<u8>, Fail> {
    let mut text = Vec::with_capacity(alloc, words.saturating_mul(5))?;
    for place in 0..words {
        text.extend_from_slice(if place == at { word } else { b"noon " })?;
    }
    Ok(text)
}

/// One word of a long copy.
#[test]
fn word_in_a_long_copy(rt: HostRuntime) -> Result<(), Fail> {
    let one = long(rt.alloc(), 4_000, 3_900, b"dawn ")?;
    let other = long(rt.alloc(), 4_000, 3_900, b"dusk ")?;
    let mut files = keyed(rt.alloc(), &one, &other)?;
    let text = "one.feed alone none\ntwo.feed alone 2: 20001..20006\n- 19500 dawn\n+ 19500 dusk\n";
    assert!(rt; reports(rt.alloc(), &mut files, text, false)?);
    Ok(())
}
