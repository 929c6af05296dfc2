//! Documents of galleys, and their pages as pictures.

use crate::picture::galleys::{WEDGE, case_text, drawn, roman};
use feed_edit::{FeedTrouble, Version};
use feed_files::trial::TrialFiles;
use feed_files::{FileRefusal, Kind, Target, document_head};
use linked_list_allocator::LocalHeap;
use script_answers::{Memory, Refusal};
use std::alloc::{AllocError, Allocator, Global};
use std::test::Fail;
use view_pages::{document_job, pages_job};
use view_preview::{Job, PreviewFault, Source, no_trial};

/// What stands under the target before a document is stored there: its first lines, and more.
fn old(alloc: Global) -> Result<Vec<u8, Global>, AllocError> {
    let mut out = Vec::new(alloc);
    out.extend_from_slice(document_head().as_bytes())?;
    out.extend_from_slice(b"old")?;
    Ok(out)
}

/// The document of `nnn nnn nnn nnn nnn nnn` in a measure of 120 points, with loose at 60, behind its head: the first
/// line is too loose. A unit has 12,000 atoms, a point 18,000, so an `n` is 6.67 points wide.
const LOOSE: &str = "\
<body>\n\
<main>\n\
<h1>Proof of loose.feed</h1>\n\
<p>2 lines, 1 at fault, measure 120 points, tight 38, loose 60</p>\n\
<p>Case 1 in c, wedge 5 in w.</p>\n\
<h2>Lines at fault</h2>\n\
<table>\n\
<thead><tr><th>line</th><th>place</th><th>cause</th><th>way out</th></tr></thead>\n\
<tbody>\n\
<tr><td><a href=\"#line-1\">1</a></td><td>0</td><td>too loose (wedge sum 99, limit 60)</td><td>4 spaces; the next word, 'nnn', is 14.0 points too wide; 6.0 points are free for a part of it</td></tr>\n\
</tbody>\n\
</table>\n\
</main>\n\
<svg xmlns=\"http://www.w3.org/2000/svg\" xml:space=\"preserve\" viewBox=\"0 0 540.00 200.00\" width=\"540.00pt\" height=\"200.00pt\" id=\"page-1\">\n\
<rect class=\"paper\" width=\"100%\" height=\"100%\"/>\n\
<text class=\"h\" x=\"10.00\" y=\"20.00\">loose.feed, case c, wedge w, measure 120 points, tight 38, loose 60, page 1 of 1</text>\n\
<text class=\"n\" x=\"40.00\" y=\"32.00\">line</text>\n\
<text class=\"n\" x=\"88.00\" y=\"32.00\">place</text>\n\
<text class=\"h\" x=\"100.00\" y=\"32.00\">as it is set</text>\n\
<rect class=\"frame\" x=\"100.00\" y=\"44.00\" width=\"120.00\" height=\"38.00\"/>\n\
<g font-size=\"12.00\">\n\
<g id=\"line-1\">\n\
<text class=\"n\" x=\"40.00\" y=\"60.00\">1</text>\n\
<text class=\"n\" x=\"88.00\" y=\"60.00\">0</text>\n\
<text class=\"w f\" y=\"60.00\"><tspan x=\"100.00 106.66 113.33 120.00\">nnn </tspan><tspan x=\"124.98 131.65 138.32 144.98\">nnn </tspan><tspan x=\"149.97 156.64 163.31 169.97\">nnn </tspan><tspan x=\"174.96 181.63 188.30 194.96\">nnn </tspan><tspan x=\"199.95 206.62 213.29 219.95\">nnn </tspan></text>\n\
<text class=\"c\" x=\"226.00\" y=\"60.00\">too loose (wedge sum 99, limit 60)</text>\n\
<path class=\"r\" d=\"M106.66 48.00V60.00M113.33 48.00V60.00M131.65 48.00V60.00M138.32 48.00V60.00M156.64 48.00V60.00M163.31 48.00V60.00M181.63 48.00V60.00M188.30 48.00V60.00M206.62 48.00V60.00M213.29 48.00V60.00\"/>\n\
<text class=\"y\" x=\"226.00\" y=\"66.00\">4 spaces; the next word, 'nnn', is 14.0 points too wide; 6.0 points are free for a part of it</text>\n\
</g>\n\
<g id=\"line-2\">\n\
<text class=\"n\" x=\"40.00\" y=\"76.00\">2</text>\n\
<text class=\"n\" x=\"88.00\" y=\"76.00\">20</text>\n\
<text class=\"w\" y=\"76.00\"><tspan x=\"100.00 106.66 113.33 120.00\">nnn </tspan></text>\n\
<rect class=\"b\" x=\"123.98\" width=\"12.00\" y=\"68.00\" height=\"8.00\"/>\n\
<rect class=\"b\" x=\"135.98\" width=\"12.00\" y=\"68.00\" height=\"8.00\"/>\n\
<rect class=\"b\" x=\"147.98\" width=\"12.00\" y=\"68.00\" height=\"8.00\"/>\n\
<rect class=\"b\" x=\"159.98\" width=\"12.00\" y=\"68.00\" height=\"8.00\"/>\n\
<rect class=\"b\" x=\"171.98\" width=\"12.00\" y=\"68.00\" height=\"8.00\"/>\n\
<rect class=\"b\" x=\"183.98\" width=\"12.00\" y=\"68.00\" height=\"8.00\"/>\n\
<rect class=\"b\" x=\"195.98\" width=\"12.00\" y=\"68.00\" height=\"8.00\"/>\n\
<rect class=\"b\" x=\"207.98\" width=\"12.00\" y=\"68.00\" height=\"8.00\"/>\n\
<path class=\"r\" d=\"M106.66 64.00V76.00M113.33 64.00V76.00\"/>\n\
</g>\n\
</g>\n\
</svg>\n\
</body>\n\
</html>\n";

/// The document of a feed without settings, behind its head.
const NONE: &str = "\
<body>\n\
<main>\n\
<h1>Proof of none.feed</h1>\n\
<p class=\"c\">no galley: the settings measure, tight, loose, case and wedge have no value</p>\n\
</main>\n\
</body>\n\
</html>\n";

/// How the second of two pages of ten lines ends: eight fit on a page of 200 points.
const SECOND: &str = "\
<rect class=\"frame\" x=\"100.00\" y=\"44.00\" width=\"120.00\" height=\"38.00\"/>\n\
<g font-size=\"12.00\">\n\
<g id=\"line-9\">\n\
<text class=\"n\" x=\"40.00\" y=\"60.00\">9</text>\n\
<text class=\"n\" x=\"88.00\" y=\"60.00\">24</text>\n\
<text class=\"w\" y=\"60.00\"><tspan x=\"100.00 106.66 112.00\">nt </tspan></text>\n\
<rect class=\"b\" x=\"117.99\" width=\"12.00\" y=\"52.00\" height=\"8.00\"/>\n\
<rect class=\"b\" x=\"129.99\" width=\"12.00\" y=\"52.00\" height=\"8.00\"/>\n\
<rect class=\"b\" x=\"141.99\" width=\"12.00\" y=\"52.00\" height=\"8.00\"/>\n\
<rect class=\"b\" x=\"153.99\" width=\"12.00\" y=\"52.00\" height=\"8.00\"/>\n\
<rect class=\"b\" x=\"165.99\" width=\"12.00\" y=\"52.00\" height=\"8.00\"/>\n\
<rect class=\"b\" x=\"177.99\" width=\"12.00\" y=\"52.00\" height=\"8.00\"/>\n\
<rect class=\"b\" x=\"189.99\" width=\"12.00\" y=\"52.00\" height=\"8.00\"/>\n\
<rect class=\"b\" x=\"201.99\" width=\"12.00\" y=\"52.00\" height=\"8.00\"/>\n\
<rect class=\"b\" x=\"213.99\" width=\"6.00\" y=\"52.00\" height=\"8.00\"/>\n\
<path class=\"r\" d=\"M106.66 48.00V60.00\"/>\n\
</g>\n\
<g id=\"line-10\">\n\
<text class=\"n\" x=\"40.00\" y=\"76.00\">10</text>\n\
<text class=\"n\" x=\"88.00\" y=\"76.00\">27</text>\n\
<text class=\"w\" y=\"76.00\"><tspan x=\"100.00 105.33\">t </tspan></text>\n\
<rect class=\"b\" x=\"111.97\" width=\"12.00\" y=\"68.00\" height=\"8.00\"/>\n\
<rect class=\"b\" x=\"123.97\" width=\"12.00\" y=\"68.00\" height=\"8.00\"/>\n\
<rect class=\"b\" x=\"135.97\" width=\"12.00\" y=\"68.00\" height=\"8.00\"/>\n\
<rect class=\"b\" x=\"147.97\" width=\"12.00\" y=\"68.00\" height=\"8.00\"/>\n\
<rect class=\"b\" x=\"159.97\" width=\"12.00\" y=\"68.00\" height=\"8.00\"/>\n\
<rect class=\"b\" x=\"171.97\" width=\"12.00\" y=\"68.00\" height=\"8.00\"/>\n\
<rect class=\"b\" x=\"183.97\" width=\"12.00\" y=\"68.00\" height=\"8.00\"/>\n\
<rect class=\"b\" x=\"195.97\" width=\"12.00\" y=\"68.00\" height=\"8.00\"/>\n\
<rect class=\"b\" x=\"207.97\" width=\"12.00\" y=\"68.00\" height=\"8.00\"/>\n\
</g>\n\
</g>\n\
</svg>\n";

/// What stands before that on a page in a document, from its size on.
const SECOND_OF_DOCUMENT: &str = "<svg xmlns=\"http://www.w3.org/2000/svg\" xml:space=\"preserve\" \
viewBox=\"0 0 540.00 200.00\" width=\"540.00pt\" height=\"200.00pt\" id=\"page-2\">\n\
<rect class=\"paper\" width=\"100%\" height=\"100%\"/>\n\
<text class=\"h\" x=\"10.00\" y=\"20.00\">long.feed, case c, wedge w, measure 120 points, tight 38, loose 150, page 2 of 2</text>\n\
<text class=\"n\" x=\"40.00\" y=\"32.00\">line</text>\n\
<text class=\"n\" x=\"88.00\" y=\"32.00\">place</text>\n\
<text class=\"h\" x=\"100.00\" y=\"32.00\">as it is set</text>\n";

/// What stands before it on a page of its own, from its paper on.
const SECOND_ALONE: &str = "</style>\n<rect class=\"paper\" width=\"100%\" height=\"100%\"/>\n\
<text class=\"h\" x=\"10.00\" y=\"20.00\">long.feed, case c, wedge w, 10 lines, 0 at fault, measure 120 points, tight 38, loose 150, page 2 of 2</text>\n\
<text class=\"n\" x=\"40.00\" y=\"32.00\">line</text>\n\
<text class=\"n\" x=\"88.00\" y=\"32.00\">place</text>\n\
<text class=\"h\" x=\"100.00\" y=\"32.00\">as it is set</text>\n";

/// What ends a document.
const END: &str = "</body>\n</html>\n";

/// A feed with all settings and a copy of fewer than 128 Roman symbols.
fn feed(alloc: Global, loose: u8, copy: &str) -> Result<Vec<u8, Global>, AllocError> {
    let mut out = Vec::new(alloc);
    out.extend_from_slice(b"MFD2")?;
    for (key, value) in [(1u8, 120u8), (2, 38), (3, loose), (4, 1), (5, 5)] {
        out.extend_from_slice(&[3, 0, 0, 0, 0, 0, 0, 0, key, 0, 1, key, 0, 0, 0, value])?;
    }
    out.extend_from_slice(&[4, 0, 0, 0, 0, 0, 0, 0, 6, 0, 1])?;
    out.extend_from_slice(&[0; 10])?;
    out.push(u8::try_from(copy.chars().count()).unwrap_or(0))?;
    for ch in copy.chars() {
        out.push(0)?;
        out.extend_from_slice(&u32::from(ch).to_be_bytes())?;
    }
    Ok(out)
}

/// Files of which the k-th call fails: feeds, a case, a wedge, and what stands under targets.
fn rooms(alloc: Global, k: u64) -> Result<TrialFiles<Global>, Fail> {
    let mut files = TrialFiles::new(alloc).failing_at_call(k);
    let loose = feed(alloc, 60, "nnn nnn nnn nnn nnn nnn")?;
    files.put("loose.feed", &loose)?;
    let long = feed(alloc, 150, "nn n\nt\nnn\nn n\nt n\nm\nM\nn\nnt\nt")?;
    files.put("long.feed", &long)?;
    files.put("dash.feed", &feed(alloc, 150, "n—n")?)?;
    files.put("none.feed", b"MFD2")?;
    files.put("c", case_text(alloc)?.as_bytes())?;
    files.put("w", WEDGE.as_bytes())?;
    files.put("a.html", &old(alloc)?)?;
    Ok(files)
}

/// A feed as it is, a case and a wedge.
fn job(feed: &str) -> Job<'_> {
    Job {
        source: Source::Feed(Version::whole(feed)),
        case: "c",
        wedge: "w",
    }
}

/// Whether a file ends with these texts, one after the other.
fn ends_with(files: &TrialFiles<Global>, name: &str, first: &str, last: &str) -> bool {
    match files.bytes_of(name) {
        Some(kept) => match kept.strip_suffix(last.as_bytes()) {
            Some(rest) => rest.ends_with(first.as_bytes()),
            None => false,
        },
        None => false,
    }
}

/// Why a document whose k-th call fails is not stored; where it is, it begins as a document, and ends with these texts.
fn documented<A: Allocator + Copy>(
    alloc: Global,
    own: A,
    k: u64,
    feed: &str,
    first: &str,
    last: &str,
) -> Result<Option<PreviewFault>, Fail> {
    let mut files = rooms(alloc, k)?;
    let memory = Memory { own, global: alloc };
    let target = Target {
        name: "a.html",
        force: false,
    };
    let ended = document_job(memory, &mut files, &job(feed), &no_trial(), 200, &target);
    let kept = match ended {
        Ok(()) => {
            ends_with(&files, "a.html", first, last)
                && matches!(files.bytes_of("a.html"), Some(kept) if kept.starts_with(document_head().as_bytes()))
        }
        Err(_) => files.holds("a.html", &old(alloc)?),
    };
    if !kept {
        return Err(Fail::new("another document"));
    }
    Ok(ended.err())
}

#[test]
fn documents(rt: HostRuntime) -> Result<(), Fail> {
    let alloc = rt.alloc();
    assert_eq!(rt;
        documented(alloc, alloc, 0, "loose.feed", "</head>\n", LOOSE)?,
        None
    );
    let mut second = String::from_str(alloc, SECOND_OF_DOCUMENT)?;
    second.push_str(SECOND)?;
    assert_eq!(rt;
        documented(alloc, alloc, 0, "long.feed", second.as_str(), END)?,
        None
    );
    Ok(())
}

/// A line of `n—n` on a page: the em rule has 15 units, 10 points, and its rule 0.4 less at each end.
const DASH: &str = "<tspan x=\"100.00 106.66 116.66 123.33\">\
n<tspan class=\"e\">—</tspan>n </tspan></text>\n";

/// How its rules end the line.
const RULES: &str = "<path class=\"r\" d=\"M106.66 48.00V60.00M116.66 48.00V60.00\"/>\n\
<path class=\"d\" d=\"M107.06 57.00H116.26\"/>\n</g>\n</g>\n</svg>\n";

#[test]
fn dashes_are_rules(rt: HostRuntime) -> Result<(), Fail> {
    let alloc = rt.alloc();
    assert_eq!(rt; documented(alloc, alloc, 0, "dash.feed", RULES, END)?, None);
    let drawn = drawn(alloc, &[roman('n'), roman('—'), roman('n')], &[], 150)?;
    assert!(rt; drawn.as_str().contains(DASH));
    Ok(())
}

#[test]
fn documents_without_a_galley(rt: HostRuntime) -> Result<(), Fail> {
    let alloc = rt.alloc();
    let rule = "@page{size:500pt 200pt;margin:0}</style>\n</head>\n";
    assert_eq!(rt; documented(alloc, alloc, 0, "none.feed", rule, NONE)?, None);
    Ok(())
}

#[test]
fn documents_not_stored(rt: HostRuntime) -> Result<(), Fail> {
    let alloc = rt.alloc();
    let missing = PreviewFault::Feed(FeedTrouble::File(FileRefusal::Missing));
    assert_eq!(rt;
        documented(alloc, alloc, 0, "b.feed", "", "")?,
        Some(missing)
    );
    let input = PreviewFault::Input(Refusal::FileDevice);
    assert_eq!(rt;
        documented(alloc, alloc, 2, "loose.feed", "", "")?,
        Some(input)
    );
    let unstored = PreviewFault::Unstored(FileRefusal::Device);
    for k in 4..7u64 {
        assert_eq!(rt;
            documented(alloc, alloc, k, "loose.feed", "", "")?,
            Some(unstored)
        );
    }
    Ok(())
}

/// Stores a document over a file, which is replaced or left: why it is.
fn documented_over(alloc: Global, bytes: &[u8], force: bool) -> Result<Option<PreviewFault>, Fail> {
    let mut files = rooms(alloc, 0)?;
    files.put("b.html", bytes)?;
    let memory = Memory {
        own: alloc,
        global: alloc,
    };
    let target = Target {
        name: "b.html",
        force,
    };
    let ended = document_job(
        memory,
        &mut files,
        &job("loose.feed"),
        &no_trial(),
        842,
        &target,
    );
    let kept = match ended {
        Ok(()) => matches!(files.bytes_of("b.html"), Some(kept) if kept.ends_with(END.as_bytes())),
        Err(_) => files.holds("b.html", bytes),
    };
    if !kept || files.bytes_of("b.html.new").is_some() {
        return Err(Fail::new("another document"));
    }
    Ok(ended.err())
}

#[test]
fn document_over_other_files(rt: HostRuntime) -> Result<(), Fail> {
    let alloc = rt.alloc();
    assert_eq!(rt; documented_over(alloc, b"", false)?, None);
    assert_eq!(rt; documented_over(alloc, &old(alloc)?, false)?, None);
    let other = PreviewFault::Taken(Kind::Other);
    assert_eq!(rt;
        documented_over(alloc, b"<!DOCTYPE html>\n<html>", false)?,
        Some(other)
    );
    let picture = PreviewFault::Taken(Kind::Picture);
    assert_eq!(rt; documented_over(alloc, b"<svg", false)?, Some(picture));
    assert_eq!(rt; documented_over(alloc, b"<svg", true)?, None);
    Ok(())
}

/// Stores the pages of a feed, of a height and of which the k-th call fails: how that ends.
fn paged(
    alloc: Global,
    files: &mut TrialFiles<Global>,
    name: &str,
    height: u16,
) -> Result<(), PreviewFault> {
    let memory = Memory {
        own: alloc,
        global: alloc,
    };
    let target = Target { name, force: true };
    pages_job(
        memory,
        files,
        &job("long.feed"),
        &no_trial(),
        height,
        &target,
    )
}

/// Two pages have two names, and nothing stands under the name itself. A name without an ending has the number behind
/// it, also where its folder has a point.
#[test]
fn pages_have_numbers(rt: HostRuntime) -> Result<(), Fail> {
    let alloc = rt.alloc();
    for (name, one, two) in [
        ("a.svg", "a.1.svg", "a.2.svg"),
        ("x.y/a", "x.y/a.1", "x.y/a.2"),
        ("a.b.svg", "a.b.1.svg", "a.b.2.svg"),
    ] {
        let mut files = rooms(alloc, 0)?;
        files.put(one, b"<svg old")?;
        assert_eq!(rt; paged(alloc, &mut files, name, 200), Ok(()));
        assert!(rt; files.bytes_of(name).is_none());
        assert!(rt; matches!(files.bytes_of(one), Some(kept) if kept.ends_with(b"</svg>\n")));
        assert!(rt; ends_with(&files, two, SECOND_ALONE, SECOND), "{name}");
    }
    Ok(())
}

/// Where all lines fit on a page, the picture stands under the name itself.
#[test]
fn one_page_has_no_number(rt: HostRuntime) -> Result<(), Fail> {
    let alloc = rt.alloc();
    let mut files = rooms(alloc, 0)?;
    assert_eq!(rt; paged(alloc, &mut files, "a.svg", 842), Ok(()));
    assert!(rt; matches!(files.bytes_of("a.svg"), Some(kept) if kept.ends_with(b"</g>\n</svg>\n")));
    assert!(rt; files.bytes_of("a.1.svg").is_none());
    Ok(())
}

/// A page takes the place of a picture alone, though the target is forced, and the pages before it are stored.
#[test]
fn page_over_another_file(rt: HostRuntime) -> Result<(), Fail> {
    let alloc = rt.alloc();
    let mut files = rooms(alloc, 0)?;
    files.put("a.2.svg", b"MFD2")?;
    let taken = Err(PreviewFault::Taken(Kind::Feed));
    assert_eq!(rt; paged(alloc, &mut files, "a.svg", 200), taken);
    assert!(rt; matches!(files.bytes_of("a.1.svg"), Some(kept) if kept.starts_with(b"<svg")));
    assert!(rt; files.holds("a.2.svg", b"MFD2"));
    for k in 4..10u64 {
        let mut files = rooms(alloc, k)?;
        let ended = paged(alloc, &mut files, "a.svg", 200);
        assert_eq!(rt;
            ended,
            Err(PreviewFault::Unstored(FileRefusal::Device)),
            "{k}"
        );
        assert_eq!(rt; files.bytes_of("a.1.svg").is_some(), k > 6, "{k}");
        assert!(rt; files.bytes_of("a.2.svg").is_none(), "{k}");
    }
    Ok(())
}

/// The bytes of the heap of the next test.
const HEAP: usize = 1_048_576;

/// Whether a document in a cut heap is out of memory; else it is stored.
fn is_refused(alloc: Global, cut: usize) -> Result<bool, Fail> {
    let heap = LocalHeap::new(alloc, HEAP)?;
    let kept = HEAP.saturating_sub(cut.saturating_mul(1_024));
    let ballast: Option<Vec<u8, &LocalHeap>> = Vec::with_capacity(&heap, kept).ok();
    let ended = documented(alloc, &heap, 0, "loose.feed", "</head>\n", LOOSE)?;
    drop(ballast);
    match ended {
        None => Ok(false),
        Some(PreviewFault::NoMemory) => Ok(true),
        Some(PreviewFault::Feed(FeedTrouble::NoMemory)) => Ok(true),
        Some(PreviewFault::Feed(FeedTrouble::File(FileRefusal::NoMemory))) => Ok(true),
        Some(PreviewFault::Unstored(FileRefusal::NoMemory)) => Ok(true),
        Some(_) => Err(Fail::new("another end")),
    }
}

#[test]
fn growths_of_a_document_refused(rt: HostRuntime) -> Result<(), Fail> {
    let mut refused = 0u32;
    for cut in 0..256usize {
        refused = refused.saturating_add(u32::from(is_refused(rt.alloc(), cut)?));
    }
    assert!(rt; 6 <= refused && refused <= 250, "refused {refused} times");
    Ok(())
}
