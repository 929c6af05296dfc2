use crate::preview::rooms::{OLD, memory, rooms};
use feed_edit::FeedTrouble;
use feed_files::FileRefusal;
use feed_files::trial::{AtEnd, TrialWriter};
use linked_list_allocator::LocalHeap;
use script_answers::{Memory, Refusal};
use std::alloc::Global;
use std::test::Fail;
use text_copy::{Cause, TextFault};
use view_preview::PreviewFault;
use view_punch::{Wanted, find_text};

/// The files of a case and a wedge.
const METAL: Option<(&str, &str)> = Some(("c", "w"));

/// Six words, of which five are in the first line.
const WORDS: &str = "place 0, line 1: nnn nnn nnn nnn nnn nnn\n\
place 4, line 1: nnn nnn nnn nnn nnn nnn\n\
place 8, line 1: nnn nnn nnn nnn nnn nnn\n\
place 12, line 1: nnn nnn nnn nnn nnn nnn\n\
place 16, line 1: nnn nnn nnn nnn nnn nnn\n\
place 20, line 2: nnn nnn nnn nnn nnn nnn\n";

/// The space at place 19 is between the two lines.
const SPACES: &str = "place 15, line 1: nnn nnn nnn nnn nnn nnn\n\
place 19, line 1: nnn nnn nnn nnn nnn nnn\n";

/// The end of a paragraph, in its last line, and the only line of the next.
const PARAGRAPHS: &str = "place 23, line 2:  nnn nnn nnn nnn nnn n\n";

/// A whole line, in which the text begins.
const NEXT: &str = "place 22, line 2: n nnn nnn nnn nnn nnn n\n";

/// All settings are missing.
const NONE: &str = "no galley: the settings measure, tight, loose, case and wedge have no value\n";

/// What is written of a text, and how that ends.
#[derive(Drop)]
struct Left {
    written: Vec<u8, Global>,
    ended: Result<bool, PreviewFault>,
}

/// Looks for a text, where the k-th call of the files fails: after a fault nothing is written, and the files stay.
fn found(alloc: Global, k: u64, feed: &str, asked: &Wanted<'_>) -> Result<Left, Fail> {
    let mut files = rooms(alloc, k)?;
    let mut written = Vec::new(alloc);
    let ended = find_text(memory(alloc), &mut written, &mut files, feed, asked);
    if !files.holds("a.ribbon", OLD) || files.bytes_of("a.ribbon.new").is_some() {
        return Err(Fail::new("a file changed"));
    }
    if ended.is_err() && !written.is_empty() {
        return Err(Fail::new("bytes before a fault"));
    }
    Ok(Left { written, ended })
}

/// A text with marks for its styles.
fn marked<'a>(text: &'a str, metal: Option<(&'a str, &'a str)>) -> Wanted<'a> {
    Wanted {
        text,
        plain: false,
        metal,
    }
}

/// A feed, a text, the names of a case and a wedge, what is written, and whether it has a place.
type Row = (
    &'static str,
    &'static str,
    Option<(&'static str, &'static str)>,
    &'static str,
    bool,
);

/// Whether a row is so.
fn is_so(alloc: Global, row: Row) -> Result<bool, Fail> {
    let (feed, text, metal, lines, any) = row;
    let left = found(alloc, 0, feed, &marked(text, metal))?;
    Ok(left.written.as_slice() == lines.as_bytes() && left.ended == Ok(any))
}

#[test]
fn places_are_found(rt: HostRuntime) -> Result<(), Fail> {
    let rows: [Row; 7] = [
        (
            "lone.feed",
            "nt",
            None,
            "place 16: nnnnnnnnnnnnnnnnnt\n",
            true,
        ),
        ("lone.feed", "tn", None, "no place\n", false),
        ("lacking.feed", "nqn", None, "place 0: nqn\n", true),
        (
            "styles.feed",
            "_a_",
            None,
            "place 0: _aa a_n^M^\nplace 1: _aa a_n^M^\nplace 3: _aa a_n^M^\n",
            true,
        ),
        ("styles.feed", "a", None, "no place\n", false),
        // An empty text, and the end of a line, which is shown as a space.
        ("set.feed", "", None, "place 0:  \nplace 1:  \n", true),
        ("none.feed", "", None, "place 0: \n", true),
    ];
    for row in rows {
        assert!(rt; is_so(rt.alloc(), row)?, "{row:?}");
    }
    Ok(())
}

/// In a plain text no character is a mark.
#[test]
fn plain_text_is_found(rt: HostRuntime) -> Result<(), Fail> {
    let asked = Wanted {
        text: "_",
        plain: true,
        metal: None,
    };
    let left = found(rt.alloc(), 0, "set.feed", &asked)?;
    assert_eq!(rt; left.ended, Ok(false));
    assert!(rt; left.written.as_slice() == b"no place\n".as_slice());
    Ok(())
}

#[test]
fn places_have_lines(rt: HostRuntime) -> Result<(), Fail> {
    let rows: [Row; 6] = [
        ("loose.feed", "nnn", METAL, WORDS, true),
        ("lines.feed", "\n", METAL, PARAGRAPHS, true),
        ("lines.feed", "n\nn", METAL, NEXT, true),
        ("loose.feed", "q", METAL, "no place\n", false),
        (
            "set.feed",
            "",
            METAL,
            "place 0, line 1:  \nplace 1, line 1:  \n",
            true,
        ),
        // An empty copy has a galley without lines.
        ("bare.feed", "", METAL, "place 0: \n", true),
    ];
    for row in rows {
        assert!(rt; is_so(rt.alloc(), row)?, "{row:?}");
    }
    let left = found(rt.alloc(), 0, "loose.feed", &marked(" ", METAL))?;
    assert!(rt; left.written.ends_with(SPACES.as_bytes()));
    Ok(())
}

/// Where there is no galley that is written first, and no place has a line.
#[test]
fn places_without_a_galley(rt: HostRuntime) -> Result<(), Fail> {
    let alloc = rt.alloc();
    for (text, lines, any) in [("", "place 0: \n", true), ("n", "no place\n", false)] {
        let left = found(alloc, 0, "none.feed", &marked(text, METAL))?;
        let mut due = Vec::new(alloc);
        due.extend_from_slice(NONE.as_bytes())?;
        due.extend_from_slice(lines.as_bytes())?;
        assert!(rt; left.written.as_slice() == due.as_slice(), "{text}");
        assert_eq!(rt; left.ended, Ok(any));
    }
    Ok(())
}

/// Why nothing is found.
fn fault_of(
    alloc: Global,
    k: u64,
    feed: &str,
    asked: &Wanted<'_>,
) -> Result<Option<PreviewFault>, Fail> {
    let left = found(alloc, k, feed, asked)?;
    Ok(left.ended.err())
}

/// The text is read first, and then the feed, the case and the wedge.
#[test]
fn sources_that_give_no_places(rt: HostRuntime) -> Result<(), Fail> {
    let text = PreviewFault::Text(TextFault::At {
        line: 1,
        column: 3,
        cause: Cause::Unclosed,
    });
    assert_eq!(rt;
        fault_of(rt.alloc(), 1, "b.feed", &marked("_n", METAL))?,
        Some(text)
    );
    let missing = PreviewFault::Feed(FeedTrouble::File(FileRefusal::Missing));
    for metal in [None, METAL] {
        assert_eq!(rt;
            fault_of(rt.alloc(), 0, "b.feed", &marked("n", metal))?,
            Some(missing)
        );
    }
    let no_wedge = PreviewFault::Input(Refusal::Wedge(1));
    assert_eq!(rt;
        fault_of(
            rt.alloc(),
            0,
            "set.feed",
            &marked("n", Some(("c", "broken")))
        )?,
        Some(no_wedge)
    );
    Ok(())
}

#[test]
fn files_that_fail_under_a_search(rt: HostRuntime) -> Result<(), Fail> {
    let device = PreviewFault::Feed(FeedTrouble::File(FileRefusal::Device));
    let input = PreviewFault::Input(Refusal::FileDevice);
    let with = marked("n", METAL);
    for (k, fault) in [
        (1, Some(device)),
        (2, Some(input)),
        (3, Some(input)),
        (4, None),
    ] {
        assert_eq!(rt; fault_of(rt.alloc(), k, "loose.feed", &with)?, fault, "{k}");
    }
    let without = marked("n", None);
    assert_eq!(rt;
        fault_of(rt.alloc(), 1, "loose.feed", &without)?,
        Some(device)
    );
    assert_eq!(rt; fault_of(rt.alloc(), 2, "loose.feed", &without)?, None);
    Ok(())
}

/// Whether a search is out of memory in a cut heap; where it is not, it is whole.
fn is_refused(alloc: Global, cut: usize) -> Result<bool, Fail> {
    let heap = LocalHeap::new(alloc, 1_048_576)?;
    let kept = 1_048_576usize.saturating_sub(cut.saturating_mul(1024));
    let ballast: Option<Vec<u8, &LocalHeap>> = Vec::with_capacity(&heap, kept).ok();
    let mut files = rooms(alloc, 0)?;
    let mut written = Vec::new(alloc);
    let memory = Memory {
        own: &heap,
        global: alloc,
    };
    let asked = marked("nnn", METAL);
    let ended = find_text(memory, &mut written, &mut files, "loose.feed", &asked);
    drop(ballast);
    match ended {
        Ok(_) if written.as_slice() != WORDS.as_bytes() => Err(Fail::new("other places")),
        Ok(_) => Ok(false),
        Err(_) if !written.is_empty() => Err(Fail::new("bytes before a fault")),
        Err(_) => Ok(true),
    }
}

#[test]
fn growths_of_a_search_refused(rt: HostRuntime) -> Result<(), Fail> {
    let mut refused = 0u32;
    for cut in 0..256usize {
        refused = refused.saturating_add(u32::from(is_refused(rt.alloc(), cut)?));
    }
    assert!(rt; 2 <= refused && refused <= 254, "refused {refused} times");
    Ok(())
}

#[test]
fn closed_output_of_a_search(rt: HostRuntime) -> Result<(), Fail> {
    let mut files = rooms(rt.alloc(), 0)?;
    let mut writer = TrialWriter::new(rt.alloc()).with_room(5, AtEnd::Fails);
    let ended = find_text(
        memory(rt.alloc()),
        &mut writer,
        &mut files,
        "loose.feed",
        &marked("nnn", METAL),
    );
    assert_eq!(rt; ended, Err(PreviewFault::Write));
    assert!(rt; WORDS.as_bytes().starts_with(writer.written()));
    Ok(())
}
