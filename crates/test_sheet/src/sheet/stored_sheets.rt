use crate::sheet::sheets::same;
use desk_codec::{FeedFault, FeedWhy};
use desk_script::{Memory, Mode, Room, RunFault, SheetFault, run_sheet_on_feed};
use feed_files::trial::{AtEnd, TrialFiles, TrialReader, TrialWriter};
use feed_files::{FileRefusal, Files};
use linked_list_allocator::LocalHeap;
use std::alloc::{AllocError, Global};
use std::test::Fail;

const MODE: Mode = Mode {
    strict: true,
    number: true,
};

/// One insert, 1.3 of a Roman x.
const X: &[u8] = b"MFD2\x01\0\0\0\0\0\0\0\x01\0\x03\0\0\0\0\0\0\0\0\0\0\0\0\0\0x";

/// Makes the feed above of none.
const MAKES_X: &[u8] = b"# by hand\ninsert 3 0 r\"x\"\n";

/// Files of which the k-th call fails, with a feed and one that is refused.
fn rooms(alloc: Global, k: u64) -> Result<TrialFiles<Global>, AllocError> {
    let mut files = TrialFiles::new(alloc).failing_at_call(k);
    files.put("x.feed", X)?;
    files.put("cut.feed", b"MFD2\x01")?;
    Ok(files)
}

/// How a sheet on a feed ends by site 3, and that it wrote this.
fn ended(
    alloc: Global,
    files: &mut TrialFiles<Global>,
    name: &str,
    input: &[u8],
    want: &[u8],
) -> Result<Option<SheetFault>, Fail> {
    let mut reader = TrialReader::new(input).in_steps_of(7);
    let mut writer = TrialWriter::new(alloc);
    let end = run_sheet_on_feed(
        Memory {
            own: alloc,
            global: alloc,
        },
        MODE,
        &mut reader,
        &mut writer,
        files,
        Room {
            feed: name,
            site: 3,
            older: false,
        },
    );
    same(writer.written(), want)?;
    Ok(end.err())
}

#[test]
fn stored_after_a_whole_sheet(rt: HostRuntime) -> Result<(), Fail> {
    let mut files = rooms(rt.alloc(), 0)?;
    let end = ended(rt.alloc(), &mut files, "new.feed", MAKES_X, b"2 ok 1.3\n")?;
    assert_eq!(rt; end, None);
    assert!(rt; files.holds("new.feed", X));
    assert!(rt; files.bytes_of("new.feed.new").is_none());
    let mut files = files.for_next_run();
    let end = ended(
        rt.alloc(),
        &mut files,
        "new.feed",
        b"show 3",
        b"1 copy r\"x\"\n",
    )?;
    assert_eq!(rt; end, None);
    assert!(rt; files.holds("new.feed", X));
    Ok(())
}

/// A line that is refused stops the run: what was answered is written, the feed stays, and its name stays held.
#[test]
fn not_stored_after_a_stop(rt: HostRuntime) -> Result<(), Fail> {
    let mut files = rooms(rt.alloc(), 0)?;
    let input = b"\ninsert 3 1 r\"y\"\ndelete 3 7\nshow 3\n";
    let want = b"2 ok 2.3\n3 refused place\n";
    let end = ended(rt.alloc(), &mut files, "x.feed", input, want)?;
    assert_eq!(rt; end, Some(SheetFault::Line(3)));
    assert!(rt; files.holds("x.feed", X));
    assert!(rt; files.bytes_of("x.feed.new").is_none());
    let device = SheetFault::Run(RunFault::File(FileRefusal::Device));
    assert_eq!(rt;
        ended(rt.alloc(), &mut files, "x.feed", MAKES_X, b"")?,
        Some(device)
    );
    let mut files = files.for_next_run();
    let end = ended(
        rt.alloc(),
        &mut files,
        "x.feed",
        b"show 3",
        b"1 copy r\"x\"\n",
    )?;
    assert_eq!(rt; end, None);
    Ok(())
}

/// A feed that is refused, and files that fail at each of their calls: nothing is written until the feed is to be
/// stored.
#[test]
fn files_that_refuse(rt: HostRuntime) -> Result<(), Fail> {
    let mut files = rooms(rt.alloc(), 0)?;
    let run = SheetFault::Run(RunFault::Feed(FeedFault {
        at: 4,
        why: FeedWhy::Cut,
    }));
    assert_eq!(rt;
        ended(rt.alloc(), &mut files, "cut.feed", MAKES_X, b"")?,
        Some(run)
    );
    let device = SheetFault::Run(RunFault::File(FileRefusal::Device));
    // The third call reads FEED.last, which refuses nothing where it fails.
    for call in [1u64, 2, 4, 5] {
        let mut files = rooms(rt.alloc(), call)?;
        let want: &[u8] = if call < 3 { b"" } else { b"1 ok 2.3\n" };
        let end = ended(rt.alloc(), &mut files, "x.feed", b"insert 3 0 r\"y\"", want)?;
        assert_eq!(rt; end, Some(device));
        assert!(rt; files.holds("x.feed", X));
    }
    Ok(())
}

/// A closed output: a prefix was written, and the feed stays.
#[test]
fn closed_output(rt: HostRuntime) -> Result<(), Fail> {
    let mut files = rooms(rt.alloc(), 0)?;
    let mut reader = TrialReader::new(b"insert 3 0 r\"y\"\nshow 3\n");
    let mut writer = TrialWriter::new(rt.alloc()).with_room(12, AtEnd::Fails);
    let end = run_sheet_on_feed(
        Memory {
            own: rt.alloc(),
            global: rt.alloc(),
        },
        MODE,
        &mut reader,
        &mut writer,
        &mut files,
        Room {
            feed: "x.feed",
            site: 3,
            older: false,
        },
    );
    assert_eq!(rt; end, Err(SheetFault::Run(RunFault::Write)));
    assert_eq!(rt; writer.written(), b"1 ok 2.3\n2 c".as_slice());
    assert!(rt; files.holds("x.feed", X));
    Ok(())
}

/// The bytes of the heap of the next test.
const HEAP: usize = 1_048_576;

/// Whether a sheet in a cut heap is out of memory; it leaves a feed that is none, or the one that it makes.
fn is_refused(alloc: Global, cut: usize) -> Result<bool, Fail> {
    let heap = LocalHeap::new(alloc, HEAP)?;
    let kept = HEAP.saturating_sub(cut.saturating_mul(512));
    let ballast: Option<Vec<u8, &LocalHeap>> = Vec::with_capacity(&heap, kept).ok();
    let mut files = TrialFiles::new(alloc);
    let mut reader = TrialReader::new(MAKES_X);
    let mut written = Vec::new(alloc);
    let end = run_sheet_on_feed(
        Memory {
            own: &heap,
            global: alloc,
        },
        MODE,
        &mut reader,
        &mut written,
        &mut files,
        Room {
            feed: "n.feed",
            site: 3,
            older: false,
        },
    );
    drop(ballast);
    let reported = written.as_slice();
    let is_right = match end {
        Ok(()) => reported == b"2 ok 1.3\n".as_slice(),
        Err(SheetFault::Run(RunFault::NoMemory)) => {
            reported.is_empty() || reported == b"2 ok 1.3\n".as_slice()
        }
        Err(SheetFault::Line(2)) => reported == b"2 refused memory\n".as_slice(),
        Err(_) => false,
    };
    let is_stored = files.holds("n.feed", X);
    if !is_right || is_stored != end.is_ok() {
        return Err(Fail::new("another end or another feed"));
    }
    Ok(end.is_err())
}

#[test]
fn growths_of_a_sheet_refused(rt: HostRuntime) -> Result<(), Fail> {
    let mut refused = 0u32;
    for cut in 0..384usize {
        refused = refused.saturating_add(u32::from(is_refused(rt.alloc(), cut)?));
    }
    assert!(rt; 6 <= refused && refused <= 380, "refused {refused} times");
    Ok(())
}
