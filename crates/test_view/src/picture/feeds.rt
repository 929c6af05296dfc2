use crate::picture::galleys::{WEDGE, case_text};
use crate::picture::pictures::LINE;
use feed_edit::{FeedTrouble, Version};
use feed_files::trial::TrialFiles;
use feed_files::{FileRefusal, Kind, Target};
use linked_list_allocator::LocalHeap;
use script_answers::{Memory, Refusal};
use std::alloc::{AllocError, Allocator, Global};
use std::test::Fail;
use view_picture::picture_job;
use view_preview::{Job, PreviewFault, Source, no_trial, trial_of};

/// What stands under the target before a picture is stored there.
const OLD: &[u8] = b"<svg old";

/// What the picture of a text by no settings ends with.
const FEW: &str =
    "<text class=\"c\" x=\"10.00\" y=\"20.00\">no galley: the settings measure, tight and loose have no value</text>\n</svg>\n";

/// What the picture of a feed without settings ends with.
const NONE: &str =
    "<text class=\"c\" x=\"10.00\" y=\"20.00\">no galley: the settings measure, tight, loose, case and wedge have no value</text>\n</svg>\n";

/// A feed with all settings and the copy `nn n`.
fn feed(alloc: Global) -> Result<Vec<u8, Global>, AllocError> {
    let mut out = Vec::new(alloc);
    out.extend_from_slice(b"MFD2")?;
    for (key, value) in [(1u8, 120u8), (2, 38), (3, 150), (4, 1), (5, 5)] {
        out.extend_from_slice(&[3, 0, 0, 0, 0, 0, 0, 0, key, 0, 1, key, 0, 0, 0, value])?;
    }
    out.extend_from_slice(&[4, 0, 0, 0, 0, 0, 0, 0, 6, 0, 1])?;
    out.extend_from_slice(&[0; 10])?;
    out.push(4)?;
    for symbol in [110u8, 110, 32, 110] {
        out.extend_from_slice(&[0, 0, 0, 0, symbol])?;
    }
    Ok(out)
}

/// Files of which the k-th call fails: two feeds, a case, a wedge, and what stands under the target.
fn rooms(alloc: Global, k: u64) -> Result<TrialFiles<Global>, Fail> {
    let mut files = TrialFiles::new(alloc).failing_at_call(k);
    files.put("set.feed", &feed(alloc)?)?;
    files.put("none.feed", b"MFD2")?;
    files.put("c", case_text(alloc)?.as_bytes())?;
    files.put("w", WEDGE.as_bytes())?;
    files.put("text", b"nn n")?;
    files.put("a.svg", OLD)?;
    Ok(files)
}

/// Whether the target ends with these bytes.
fn ends_with(files: &TrialFiles<Global>, bytes: &[u8]) -> bool {
    match files.bytes_of("a.svg") {
        Some(kept) => kept.ends_with(bytes),
        None => false,
    }
}

/// A feed as it is, a case and a wedge.
fn job<'a>(feed: &'a str, case: &'a str, wedge: &'a str) -> Job<'a> {
    Job {
        source: Source::Feed(Version::whole(feed)),
        case,
        wedge,
    }
}

/// Why a picture whose k-th call fails is not stored; where it is, the target ends with these bytes afterwards.
fn pictured<A: Allocator + Copy>(
    alloc: Global,
    own: A,
    k: u64,
    feed: &str,
    end: &[u8],
) -> Result<Option<PreviewFault>, Fail> {
    let mut files = rooms(alloc, k)?;
    let memory = Memory { own, global: alloc };
    let target = Target {
        name: "a.svg",
        force: false,
    };
    let ended = picture_job(
        memory,
        &mut files,
        &job(feed, "c", "w"),
        &no_trial(),
        &target,
    );
    let wanted = if ended.is_ok() { end } else { OLD };
    if !ends_with(&files, wanted) {
        return Err(Fail::new("another picture"));
    }
    Ok(ended.err())
}

#[test]
fn pictures_are_stored(rt: HostRuntime) -> Result<(), Fail> {
    let alloc = rt.alloc();
    assert_eq!(rt;
        pictured(alloc, alloc, 0, "set.feed", LINE.as_bytes())?,
        None
    );
    assert_eq!(rt;
        pictured(alloc, alloc, 0, "none.feed", NONE.as_bytes())?,
        None
    );
    Ok(())
}

#[test]
fn files_that_fail_under_a_picture(rt: HostRuntime) -> Result<(), Fail> {
    let alloc = rt.alloc();
    let missing = PreviewFault::Feed(FeedTrouble::File(FileRefusal::Missing));
    assert_eq!(rt; pictured(alloc, alloc, 0, "b.feed", b"")?, Some(missing));
    let input = PreviewFault::Input(Refusal::FileDevice);
    assert_eq!(rt; pictured(alloc, alloc, 2, "set.feed", b"")?, Some(input));
    let unstored = PreviewFault::Unstored(FileRefusal::Device);
    for k in 4..7u64 {
        assert_eq!(rt; pictured(alloc, alloc, k, "set.feed", b"")?, Some(unstored));
    }
    Ok(())
}

/// A text is drawn as the same copy of a feed by the same settings.
#[test]
fn pictures_of_texts_are_stored(rt: HostRuntime) -> Result<(), Fail> {
    let alloc = rt.alloc();
    for (sets, end) in [
        (["measure=120", "tight=38", "loose=150"].as_slice(), LINE),
        ([].as_slice(), FEW),
    ] {
        let mut files = rooms(alloc, 0)?;
        let memory = Memory {
            own: alloc,
            global: alloc,
        };
        let target = Target {
            name: "a.svg",
            force: false,
        };
        let text = Job {
            source: Source::Text {
                name: "text",
                plain: false,
            },
            case: "c",
            wedge: "w",
        };
        let Ok(trial) = trial_of(alloc, sets) else {
            return Err(Fail::new("no trial"));
        };
        let ended = picture_job(memory, &mut files, &text, &trial, &target);
        assert_eq!(rt; ended, Ok(()));
        assert!(rt; ends_with(&files, end.as_bytes()));
    }
    Ok(())
}

/// Draws the feed that is set over a file, which is replaced or left: why it is.
fn drawn_over(alloc: Global, old: &[u8], force: bool) -> Result<Option<PreviewFault>, Fail> {
    let mut files = rooms(alloc, 0)?;
    files.put("a.svg", old)?;
    let memory = Memory {
        own: alloc,
        global: alloc,
    };
    let target = Target {
        name: "a.svg",
        force,
    };
    let ended = picture_job(
        memory,
        &mut files,
        &job("set.feed", "c", "w"),
        &no_trial(),
        &target,
    );
    let wanted = if ended.is_ok() { LINE.as_bytes() } else { old };
    if !ends_with(&files, wanted) || files.bytes_of("a.svg.new").is_some() {
        return Err(Fail::new("another picture"));
    }
    Ok(ended.err())
}

#[test]
fn picture_over_other_files(rt: HostRuntime) -> Result<(), Fail> {
    let alloc = rt.alloc();
    assert_eq!(rt; drawn_over(alloc, b"", false)?, None);
    assert_eq!(rt; drawn_over(alloc, b"<svg", false)?, None);
    let ribbon = PreviewFault::Taken(Kind::Ribbon);
    assert_eq!(rt; drawn_over(alloc, b"MRB1\0\0\0\0", false)?, Some(ribbon));
    let other = PreviewFault::Taken(Kind::Other);
    assert_eq!(rt; drawn_over(alloc, b"<sv", false)?, Some(other));
    assert_eq!(rt; drawn_over(alloc, b"MRB1\0\0\0\0", true)?, None);
    Ok(())
}

/// A picture that was stored is replaced by the next one.
#[test]
fn picture_over_its_own(rt: HostRuntime) -> Result<(), Fail> {
    let alloc = rt.alloc();
    let mut files = rooms(alloc, 0)?;
    let target = Target {
        name: "b.svg",
        force: false,
    };
    for feed in ["none.feed", "set.feed"] {
        let memory = Memory {
            own: alloc,
            global: alloc,
        };
        let ended = picture_job(
            memory,
            &mut files,
            &job(feed, "c", "w"),
            &no_trial(),
            &target,
        );
        assert_eq!(rt; ended, Ok(()));
    }
    assert!(rt; matches!(files.bytes_of("b.svg"), Some(kept) if kept.ends_with(LINE.as_bytes())));
    Ok(())
}

/// A heap that holds what is read of the feed, and less than the picture.
#[test]
fn growth_of_a_picture_refused(rt: HostRuntime) -> Result<(), Fail> {
    let heap = LocalHeap::new(rt.alloc(), 1_048_576)?;
    let mut ballast = Vec::new(rt.alloc());
    for _ in 0..65_536u32 {
        let Ok(part) = Vec::<u8, &LocalHeap>::with_capacity(&heap, 1_024) else {
            break;
        };
        ballast.push(part)?;
    }
    let ended = pictured(rt.alloc(), &heap, 0, "set.feed", LINE.as_bytes())?;
    assert!(rt; ended.is_some());
    drop(ballast);
    assert_eq!(rt;
        pictured(rt.alloc(), &heap, 0, "set.feed", LINE.as_bytes())?,
        None
    );
    Ok(())
}
