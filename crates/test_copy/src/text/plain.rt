use desk_ops::{Style, Symbol};
use linked_list_allocator::LocalHeap;
use std::alloc::{AllocError, Allocator, Global};
use std::test::Fail;
use text_copy::{
    all_shown, is_directional, put_directional_name, put_plain, read_text, write_text,
};

/// A text as it is shown.
fn plain_of<A: Allocator + Copy>(alloc: A, text: &str) -> Result<String<A>, AllocError> {
    let mut out = String::new(alloc);
    put_plain(&mut out, text)?;
    Ok(out)
}

/// A copy by its text as it is shown, as text.
fn shown_of(alloc: Global, text: &str) -> Result<Vec<u8>, Fail> {
    let Ok(copy) = read_text(alloc, text.as_bytes(), false) else {
        return Ok(Vec::new(alloc));
    };
    let shown = all_shown(alloc, &copy)?;
    Ok(write_text(alloc, &shown)?)
}

#[test]
fn texts_written_out(rt: HostRuntime) -> Result<(), Fail> {
    let cases = [
        ("", ""),
        ("one.feed", "one.feed"),
        // Each kind, at both ends and alone.
        ("\u{1b}[2Jone", "\\x1b[2Jone"),
        ("one\n", "one\\x0a"),
        ("\0", "\\x00"),
        ("\t\r", "\\x09\\x0d"),
        ("\u{1f} \u{7f}~", "\\x1f \\x7f~"),
        ("\u{80}\u{9b}\u{9f}\u{a0}", "\\x80\\x9b\\x9f\u{a0}"),
        ("a\u{202e}b", "a<U+202E>b"),
        (
            "\u{202a}\u{202b}\u{202c}\u{202d}",
            "<U+202A><U+202B><U+202C><U+202D>",
        ),
        (
            "\u{2066}\u{2067}\u{2068}\u{2069}",
            "<U+2066><U+2067><U+2068><U+2069>",
        ),
        ("\u{61c}\u{200e}\u{200f}", "<U+061C><U+200E><U+200F>"),
        // What stands beside them, and a text that looks like a name.
        (
            "\u{61b}\u{61d}\u{200d}\u{2010}\u{2029}\u{202f}\u{2065}\u{206a}",
            "\u{61b}\u{61d}\u{200d}\u{2010}\u{2029}\u{202f}\u{2065}\u{206a}",
        ),
        ("\\x1b<U+202E>", "\\x1b<U+202E>"),
        ("é—\u{1d11e}", "é—\u{1d11e}"),
    ];
    for (text, wanted) in cases {
        assert_eq!(rt; plain_of(rt.alloc(), text)?.as_str(), wanted, "{text:?}");
    }
    Ok(())
}

#[test]
fn copies_as_they_are_shown(rt: HostRuntime) -> Result<(), Fail> {
    let cases = [
        ("", ""),
        ("one\ntwo\n", "one two "),
        ("_one_ ^two^", "_one_ ^two^"),
        ("a\u{202e}b", "a<U+202E>b"),
        // The name has the style of its mark.
        ("_a\u{202e}_ b", "_a<U+202E>_ b"),
        ("\u{61c}", "<U+061C>"),
        ("a ^\u{2069}^", "a ^<U+2069>^"),
    ];
    for (text, wanted) in cases {
        assert!(rt;
            shown_of(rt.alloc(), text)?.as_slice() == wanted.as_bytes(),
            "{text:?}"
        );
    }
    Ok(())
}

#[test]
fn name_of_a_mark(rt: HostRuntime) -> Result<(), Fail> {
    assert!(rt; is_directional('\u{200f}') && !is_directional('\u{2010}'));
    let mut out = String::new(rt.alloc());
    put_directional_name(&mut out, '\u{200f}')?;
    assert_eq!(rt; out.as_str(), "<U+200F>");
    let shown = all_shown(
        rt.alloc(),
        &[Symbol {
            style: Style::Italic,
            ch: '\u{2067}',
        }],
    )?;
    assert_eq!(rt; shown.len(), 8);
    assert!(rt; shown.iter().all(|symbol| symbol.style == Style::Italic));
    Ok(())
}

#[test]
fn growths_of_plain_texts_refused(rt: HostRuntime) -> Result<(), Fail> {
    let mut name = String::new(rt.alloc());
    for _ in 0..1000u32 {
        name.push('\u{1b}')?;
    }
    let heap = LocalHeap::new(rt.alloc(), 1024)?;
    assert!(rt; plain_of(&heap, &name).is_err());
    assert_eq!(rt; plain_of(rt.alloc(), "a name")?.as_str(), "a name");
    Ok(())
}
