ghost use Rattle.std.specs.Prelude.{IsTrue};
ghost use Rattle.desk_lines.specs.Groups.{AreWidths};

use desk_lines::{Group, Paragraph, Word, break_lines, paragraphs};
use desk_memory::NoMemory;
use desk_ops::{Style, Symbol};
use desk_units::Atoms;
use linked_list_allocator::LocalHeap;
use std::alloc::{Allocator, Global};
use std::fmt::Write;
use std::test::Fail;

fn are_widths(words: &[Atoms]) -> bool
    ensures { IsTrue result → AreWidths words.now }
{
    words
        .iter()
        .all(|word| word.get() >= 0 && word.get() <= 1_099_511_627_776)
}

/// The symbols of a text, all Roman.
fn symbols(alloc: Global, text: &str) -> Result<Vec<Symbol>, Fail> {
    let mut copy = Vec::new(alloc);
    for byte in text.as_bytes() {
        copy.push(Symbol {
            style: Style::Roman,
            ch: char::from(*byte),
        })?;
    }
    Ok(copy)
}

/// The words by their ends, and `|` after each paragraph.
fn shown<A: Allocator>(alloc: Global, found: &[Paragraph<A>]) -> Result<String, Fail> {
    let mut text = String::new(alloc);
    for paragraph in found {
        for word in paragraph.words() {
            write!(text, "{}-{} ", word.from, word.to)?;
        }
        write!(text, "| ")?;
    }
    Ok(text)
}

#[test]
fn words_of_paragraphs(rt: HostRuntime) -> Result<(), Fail> {
    for (text, want) in [
        ("", ""),
        ("\n", "0-0 | "),
        ("\n\n", "0-0 | 1-1 | "),
        ("a  b", "0-1 2-2 3-4 | "),
        ("a\n\n", "0-1 | 2-2 | "),
        ("ab\ncd e", "0-2 | 3-5 6-7 | "),
        ("ab\n ", "0-2 | 3-3 4-4 | "),
    ] {
        let copy = symbols(rt.alloc(), text)?;
        let found = paragraphs(rt.alloc(), &copy)?;
        assert!(rt; shown(rt.alloc(), &found)?.as_str() == want, "{text:?}");
    }
    let italic = Symbol {
        style: Style::Italic,
        ch: ' ',
    };
    let found = paragraphs(rt.alloc(), &[italic])?;
    assert!(rt; shown(rt.alloc(), &found)?.as_str() == "0-1 | ");
    Ok(())
}

#[test]
fn words_are_given_back(rt: HostRuntime) -> Result<(), Fail> {
    let word = Word { from: 3, to: 5 };
    let paragraph = Paragraph::from_words(vec![in rt.alloc(); word]?);
    assert!(rt; paragraph.words() == [word].as_slice());
    Ok(())
}

/// The groups of words of these widths, where these are widths.
fn groups_in<A: Allocator>(
    alloc: A,
    words: &[Atoms],
    space: u16,
    measure: i64,
) -> Result<Option<Vec<Group, A>>, NoMemory> {
    if space < 1 || !are_widths(words) {
        return Ok(None);
    }
    if measure < 0 || measure > 1_099_511_627_776 {
        return Ok(None);
    }
    let space = Atoms::new(space as i64);
    Ok(Some(break_lines(alloc, words, space, Atoms::new(measure))?))
}

/// Whether words have these groups.
fn are_groups(alloc: Global, words: &[Atoms], measure: i64, want: &[Group]) -> Result<bool, Fail> {
    match groups_in(alloc, words, 50_280, measure)? {
        Some(found) => Ok(found.as_slice() == want),
        None => Ok(false),
    }
}

#[test]
fn groups_of_words(rt: HostRuntime) -> Result<(), Fail> {
    let six = vec![in rt.alloc(); Atoms::new(360_000); 6]?;
    let wide = [Atoms::new(2_160_001), Atoms::new(0)];
    let cases: [(&[Atoms], &[Group]); 3] = [
        (&six, &[Group { from: 0, to: 5 }, Group { from: 5, to: 6 }]),
        (&wide, &[Group { from: 0, to: 1 }, Group { from: 1, to: 2 }]),
        (&[], &[]),
    ];
    for (words, want) in cases {
        assert!(rt; are_groups(rt.alloc(), words, 2_160_000, want)?, "{want:?}");
    }
    Ok(())
}

fn equal_words(alloc: Global, count: usize) -> Result<Vec<Atoms>, Fail> {
    Ok(vec![in alloc; Atoms::new(1); count]?)
}

/// How many paragraphs a copy of 1,048,576 equal symbols has, and how many words the last one has.
fn equal_symbols(alloc: Global, ch: char) -> Result<(usize, Option<usize>), Fail> {
    let symbol = Symbol {
        style: Style::Roman,
        ch,
    };
    let copy = vec![in alloc; symbol; 1_048_576]?;
    let found = paragraphs(alloc, &copy)?;
    let words = found.last().map(|paragraph| paragraph.words().len());
    Ok((found.len(), words))
}

#[test]
fn large_copies(rt: HostRuntime) -> Result<(), Fail> {
    let words = equal_words(rt.alloc(), 1_048_577)?;
    for (measure, lines) in [(0, 1_048_577), (20, 104_858), (1_099_511_627_776, 1)] {
        let found = groups_in(rt.alloc(), &words, 1, measure)?.ok_or("no widths")?;
        let end = found.last().map(|group| group.to);
        assert!(rt;
            found.len() == lines && end == Some(1_048_577),
            "lines of {measure}"
        );
    }
    for (ch, count, words) in [('\n', 1_048_576, 1), (' ', 1, 1_048_577), ('a', 1, 1)] {
        let found = equal_symbols(rt.alloc(), ch)?;
        assert!(rt; found == (count, Some(words)), "{ch:?}");
    }
    Ok(())
}

/// Takes what a heap of 4096 bytes can give, but for so many times 64.
fn ballast(heap: &LocalHeap, cut: usize) -> Option<Vec<u8, &LocalHeap>> {
    Vec::with_capacity(heap, 4096usize.saturating_sub(cut.saturating_mul(64))).ok()
}

/// Whether breaking lines in a cut heap is out of memory. With memory, and where it is not, each word is a line.
fn are_groups_refused(alloc: Global, words: &[Atoms], cut: usize) -> Result<bool, Fail> {
    let heap = LocalHeap::new(alloc, 4096)?;
    let ballast = ballast(&heap, cut);
    let first = groups_in(&heap, words, 1, 0);
    drop(ballast);
    let again = groups_in(&heap, words, 1, 0)?.ok_or("no widths")?;
    let right = match &first {
        Ok(Some(found)) => found.as_slice() == again.as_slice(),
        Ok(None) => false,
        Err(NoMemory) => true,
    };
    if !right || again.len() != words.len() {
        return Err(Fail::new("other groups"));
    }
    Ok(first.is_err())
}

/// Whether finding words in a cut heap is out of memory. With memory, and where it is not, they are the same.
fn are_words_refused(alloc: Global, copy: &[Symbol], want: &str, cut: usize) -> Result<bool, Fail> {
    let heap = LocalHeap::new(alloc, 4096)?;
    let ballast = ballast(&heap, cut);
    let refused = match paragraphs(&heap, copy) {
        Ok(found) if shown(alloc, &found)?.as_str() == want => false,
        Ok(_) => return Err(Fail::new("other words")),
        Err(NoMemory) => true,
    };
    drop(ballast);
    if shown(alloc, &paragraphs(&heap, copy)?)?.as_str() != want {
        return Err(Fail::new("other words with memory"));
    }
    Ok(refused)
}

#[test]
fn refused_growths(rt: HostRuntime) -> Result<(), Fail> {
    let words = equal_words(rt.alloc(), 40)?;
    let copy = symbols(
        rt.alloc(),
        "a b c d e f\ng h i j k l\nm\nn\no p q r s t u v w x y z\n",
    )?;
    let want = shown(rt.alloc(), &paragraphs(rt.alloc(), &copy)?)?;
    let mut refused = (0u32, 0u32);
    for cut in 1..64usize {
        let groups = are_groups_refused(rt.alloc(), &words, cut)?;
        let words = are_words_refused(rt.alloc(), &copy, want.as_str(), cut)?;
        refused.0 = refused.0.saturating_add(u32::from(groups));
        refused.1 = refused.1.saturating_add(u32::from(words));
    }
    assert!(rt;
        refused.0 > 10 && refused.0 < 60,
        "groups refused {} times",
        refused.0
    );
    assert!(rt;
        refused.1 > 10 && refused.1 < 60,
        "words refused {} times",
        refused.1
    );
    Ok(())
}
