use desk_memory::NoMemory;
use desk_ops::{Style, Symbol};
use linked_list_allocator::LocalHeap;
use std::alloc::{Allocator, Global};
use std::test::Fail;
use text_copy::{Cause, TextFault, read_text, write_text};

/// Characters of one style.
type Run = (Style, &'static str);

const ROMAN: Style = Style::Roman;

const ITALIC: Style = Style::Italic;

const SMALL: Style = Style::SmallCap;

/// Whether the symbols are these runs' characters, each in its style.
fn are_runs(symbols: &[Symbol], runs: &[Run]) -> bool {
    let mut place = 0usize;
    for (style, text) in runs {
        for ch in text.chars() {
            let wanted = Symbol { style: *style, ch };
            if place >= symbols.len() || symbols[place] != wanted {
                return false;
            }
            place += 1;
        }
    }
    place == symbols.len()
}

/// Whether the bytes are read as these runs.
fn is_read_as<A: Allocator + Copy>(alloc: A, bytes: &[u8], plain: bool, runs: &[Run]) -> bool {
    match read_text(alloc, bytes, plain) {
        Ok(copy) => are_runs(&copy, runs),
        Err(_) => false,
    }
}

/// Whether the text is read as these runs, and what is read is written as the text.
fn is_text_of(alloc: Global, text: &str, runs: &[Run]) -> Result<bool, Fail> {
    let Ok(copy) = read_text(alloc, text.as_bytes(), false) else {
        return Ok(false);
    };
    let written = write_text(alloc, &copy)?;
    Ok(are_runs(&copy, runs) && written.as_slice() == text.as_bytes())
}

/// Whether the bytes have this fault.
fn is_fault(
    alloc: Global,
    bytes: &[u8],
    plain: bool,
    line: u64,
    column: u64,
    cause: Cause,
) -> bool {
    let wanted = TextFault::At {
        line,
        column,
        cause,
    };
    read_text(alloc, bytes, plain).err() == Some(wanted)
}

#[test]
fn texts_of_copies(rt: HostRuntime) -> Result<(), Fail> {
    let cases: [(&str, &[Run]); 12] = [
        ("", &[]),
        (
            "two words\nanother line\n",
            &[(ROMAN, "two words\nanother line\n")],
        ),
        ("_word_", &[(ITALIC, "word")]),
        ("^word^", &[(SMALL, "word")]),
        // A style goes on over spaces, and is closed before those behind it.
        (
            "  _two  words_  three",
            &[
                (ROMAN, "  "),
                (ITALIC, "two"),
                (ROMAN, "  "),
                (ITALIC, "words"),
                (ROMAN, "  three"),
            ],
        ),
        ("_a_^b^_c_", &[(ITALIC, "a"), (SMALL, "b"), (ITALIC, "c")]),
        (
            "_a_ ^b^ c ",
            &[(ITALIC, "a"), (ROMAN, " "), (SMALL, "b"), (ROMAN, " c ")],
        ),
        // A style is closed at the end of a line.
        (
            "_a_\n_b_ \n",
            &[(ITALIC, "a"), (ROMAN, "\n"), (ITALIC, "b"), (ROMAN, " \n")],
        ),
        ("a\\_b\\^c\\\\d", &[(ROMAN, "a_b^c\\d")]),
        (
            "_\\__^\\^^\\\\",
            &[(ITALIC, "_"), (SMALL, "^"), (ROMAN, "\\")],
        ),
        ("é\u{a0}—\u{1d11e}", &[(ROMAN, "é\u{a0}—\u{1d11e}")]),
        ("~", &[(ROMAN, "~")]),
    ];
    for (text, runs) in cases {
        assert!(rt; is_text_of(rt.alloc(), text, runs)?, "{text:?}");
    }
    Ok(())
}

#[test]
fn texts_read_otherwise(rt: HostRuntime) {
    let cases: [(&str, bool, &[Run]); 9] = [
        ("__", false, &[]),
        ("_ _", false, &[(ROMAN, " ")]),
        ("_a__b_", false, &[(ITALIC, "ab")]),
        ("_a _b", false, &[(ITALIC, "a"), (ROMAN, " b")]),
        ("a\r\n\r\nb", false, &[(ROMAN, "a\n\nb")]),
        ("_a_\r\n", false, &[(ITALIC, "a"), (ROMAN, "\n")]),
        ("_a_\r\n", true, &[(ROMAN, "_a_\n")]),
        ("^a\\", true, &[(ROMAN, "^a\\")]),
        ("", true, &[]),
    ];
    for (text, plain, runs) in cases {
        assert!(rt;
            is_read_as(rt.alloc(), text.as_bytes(), plain, runs),
            "{text:?}"
        );
    }
}

#[test]
fn first_fault_of_a_text(rt: HostRuntime) {
    let cases: [(&[u8], bool, u64, u64, Cause); 24] = [
        // No symbol of a copy: a control character, a carriage return with no line feed behind it.
        (b"a\tb", false, 1, 2, Cause::Symbol),
        (b"a\tb", true, 1, 2, Cause::Symbol),
        (b"\xc3\xa9\xc2\x9f", false, 1, 2, Cause::Symbol),
        (b"ab\n\x7f", true, 2, 1, Cause::Symbol),
        (b"a\rb", false, 1, 2, Cause::Symbol),
        (b"a\r", true, 1, 2, Cause::Symbol),
        (b"a\r\r\n", true, 1, 2, Cause::Symbol),
        // A backslash before no mark.
        (b"a\r\nb\\n", false, 2, 2, Cause::Escape),
        (b"\\", false, 1, 1, Cause::Escape),
        (b"\\\n", false, 1, 1, Cause::Escape),
        (b"\\\xff", false, 1, 1, Cause::Escape),
        // A style that is not closed: the end of its line.
        (b"_a\nb_", false, 1, 3, Cause::Unclosed),
        (b"_a\r\nb_", false, 1, 3, Cause::Unclosed),
        (b"_a", false, 1, 3, Cause::Unclosed),
        (b"x\n^", false, 2, 2, Cause::Unclosed),
        // A mark inside the other style.
        (b"_a^b^_", false, 1, 3, Cause::Inside),
        (b"^_", false, 1, 2, Cause::Inside),
        // Bytes that are no UTF-8, and a fault before them.
        (b"a\xff", false, 1, 2, Cause::Encoding),
        (b"a\xff", true, 1, 2, Cause::Encoding),
        (b"\xc3\xa9\n\xc3", false, 2, 1, Cause::Encoding),
        (b"_a\xff", false, 1, 3, Cause::Encoding),
        (b"\xed\xa0\x80", false, 1, 1, Cause::Encoding),
        (b"\x01\xff", false, 1, 1, Cause::Symbol),
        (b"\r\xff", false, 1, 1, Cause::Symbol),
    ];
    for (bytes, plain, line, column, cause) in cases {
        assert!(rt;
            is_fault(rt.alloc(), bytes, plain, line, column, cause),
            "{bytes:?}"
        );
    }
}

#[test]
fn words_of_text_faults(rt: HostRuntime) -> Result<(), Fail> {
    let cases = [
        (Cause::Symbol, "line 7, column 40: no symbol of a copy"),
        (Cause::Encoding, "line 7, column 40: no UTF-8"),
        (
            Cause::Escape,
            "line 7, column 40: a backslash that escapes nothing",
        ),
        (
            Cause::Inside,
            "line 7, column 40: a style mark inside the other style",
        ),
        (
            Cause::Unclosed,
            "line 7, column 40: a style that is open at the end of the line",
        ),
    ];
    for (cause, text) in cases {
        let fault = TextFault::At {
            line: 7,
            column: 40,
            cause,
        };
        assert!(rt;
            format!(in rt.alloc(); "{fault}")?.as_str() == text,
            "{text}"
        );
    }
    let fault = TextFault::NoMemory;
    assert!(rt; format!(in rt.alloc(); "{fault}")?.as_str() == "no memory");
    Ok(())
}

/// What the heap of the next tests holds, and a text whose copy takes an eighth of it and more.
const HEAP: usize = 1024;

const TEXT: &[u8] = b"_two words_ and ^three^\n";

const RUNS: [Run; 6] = [
    (ITALIC, "two"),
    (ROMAN, " "),
    (ITALIC, "words"),
    (ROMAN, " and "),
    (SMALL, "three"),
    (ROMAN, "\n"),
];

/// Takes what the heap can give, but for so many times 16 bytes.
fn ballast(heap: &LocalHeap, cut: usize) -> Option<Vec<u8, &LocalHeap>> {
    Vec::with_capacity(heap, HEAP.saturating_sub(cut.saturating_mul(16))).ok()
}

/// Whether reading in a cut heap is out of memory. Any other answer is the copy, and with memory each is.
fn is_reading_refused(alloc: Global, cut: usize) -> Result<bool, Fail> {
    let heap = LocalHeap::new(alloc, HEAP)?;
    let ballast = ballast(&heap, cut);
    let refused = read_text(&heap, TEXT, false).err() == Some(TextFault::NoMemory);
    let right = refused || is_read_as(&heap, TEXT, false, &RUNS);
    drop(ballast);
    if !right || !is_read_as(&heap, TEXT, false, &RUNS) {
        return Err(Fail::new("another copy"));
    }
    Ok(refused)
}

/// Whether writing in a cut heap is out of memory. Any other answer is the text, and with memory each is.
fn is_writing_refused(alloc: Global, copy: &[Symbol], cut: usize) -> Result<bool, Fail> {
    let heap = LocalHeap::new(alloc, HEAP)?;
    let ballast = ballast(&heap, cut);
    let refused = match write_text(&heap, copy) {
        Ok(text) if text.as_slice() == TEXT => false,
        Ok(_) => return Err(Fail::new("another text")),
        Err(NoMemory) => true,
    };
    drop(ballast);
    if write_text(&heap, copy)?.as_slice() != TEXT {
        return Err(Fail::new("another text with memory"));
    }
    Ok(refused)
}

/// A growth that is refused is out of memory, at the first request and at a later one.
#[test]
fn growths_of_texts_refused(rt: HostRuntime) -> Result<(), Fail> {
    let Ok(copy) = read_text(rt.alloc(), TEXT, false) else {
        return Err(Fail::new("no copy"));
    };
    let mut unread = 0u32;
    let mut unwritten = 0u32;
    for cut in 0..64usize {
        unread = unread.saturating_add(u32::from(is_reading_refused(rt.alloc(), cut)?));
        unwritten = unwritten.saturating_add(u32::from(is_writing_refused(
            rt.alloc(),
            &copy,
            cut,
        )?));
    }
    assert!(rt; 4 <= unread && unread <= 60, "unread {unread} times");
    assert!(rt;
        2 <= unwritten && unwritten < unread,
        "unwritten {unwritten} times"
    );
    Ok(())
}
